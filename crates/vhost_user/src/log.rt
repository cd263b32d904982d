//! The log of dirty pages, in which a back end marks what it writes while the guest moves.
ghost use Rattle.std.specs.Prelude.{◌≡◌};
ghost use Rattle.vhost_user.specs.Log.{log_kept, logged, logged_in, no_pages};

use crate::backend_req_handler::BackendReqHandler;
use crate::features::{VHOST_F_LOG_ALL, has};

/// How many bytes of guest memory have a bit in the log.
pub const LOG_PAGE: u64 = 4096;

/// Pages of guest memory that are marked in the log. The bit of page `p` is bit `p % 8` of the byte `p / 8` of the log.
#[derive(Clone, Copy, Debug, PartialEq, Eq)]
pub struct LogPages {
    /// The number of the first: its address by 4,096.
    pub first: u64,
    /// How many there are.
    pub count: u64,
}

fn no_pages() -> LogPages
    ensures { result ≡ no_pages }
{
    LogPages { first: 0, count: 0 }
}

// The pages of bytes in a log of a size, if there is one.
fn logged_in(log: Option<u64>, address: u64, len: u64) -> Option<LogPages>
    ensures { result ≡ logged_in log address len }
{
    let Some(size) = log else {
        return Some(no_pages());
    };
    if len == 0 {
        return Some(no_pages());
    }
    let last = address.checked_add(len - 1)?;
    if last / LOG_PAGE / 8 >= size {
        return None;
    }
    let first = address / LOG_PAGE;
    Some(LogPages {
        first,
        count: last / LOG_PAGE - first + 1,
    })
}

impl BackendReqHandler {
    // How many bytes the log has, if writes are logged.
    fn log_kept(&self) -> Option<u64>
        ensures { result ≡ log_kept self.now }
    {
        if has(self.features(), VHOST_F_LOG_ALL) {
            self.log()
        } else {
            None
        }
    }

    /// The pages that are marked in the log for `len` bytes of guest memory that were written, from `address` on: no
    /// page if LOG_ALL is not accepted or no log was shared. `None` if the log has no bit for one of them.
    pub fn logged(&self, address: u64, len: u64) -> Option<LogPages>
        ensures { result ≡ logged self.now address len }
    {
        logged_in(self.log_kept(), address, len)
    }
}
