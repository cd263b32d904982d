//! Functions that meet the premises of laws, and whose clauses follow from them.
ghost use Rattle.std.specs.Prelude.{◌≡◌, ◌+◌, ◌≤◌, ◌<◌, ℕ, IfSome};
ghost use Rattle.vhost_user.specs.Log.{log_kept, page_of};

use crate::rows::CONFIG;
use std::test::Fail;
use vhost_user::laws::each_byte_is_logged;
use vhost_user::{BackendReqHandler, LogPages, Offer};

// The pages of a write, which has the page of each of its bytes.
fn pages_of(handler: &BackendReqHandler, address: u64, len: u64) -> Option<LogPages>
    ensures { IfSome (log_kept handler.now) (λ size. IfSome result (λ pages. (byte : ℕ) → byte < len
        → (pages.first ≤ page_of (address + byte)) × (page_of (address + byte) < pages.first + pages.count))) }
{
    each_byte_is_logged();
    handler.logged(address, len)
}

#[test]
fn witnesses_of_logs(rt: HostRuntime) -> Result<(), Fail> {
    let offer = Offer {
        features: 0,
        protocol_features: 0,
        max_queue_size: 1024,
        writable_from: 32,
        writable_len: 1,
    };
    let handler = BackendReqHandler::new(rt.alloc(), offer, 2, &CONFIG)?;
    let none = LogPages { first: 0, count: 0 };
    assert!(rt; pages_of(&handler, 0x1000, 0x2000) == Some(none));
    Ok(())
}
