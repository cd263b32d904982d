//! What holds of every connection: each function here is a theorem, and does nothing.
ghost use Rattle.std.specs.Prelude.{◌≡◌, ◌+◌, ◌≤◌, ◌<◌, ℕ, Some};
ghost use Rattle.vhost_user.specs.Connection.{Connection};
ghost use Rattle.vhost_user.specs.Log.{log_kept, logged, page_of};
ghost use Rattle.vhost_user.specs.declared.log.LogPages.{LogPages};

/// While writes are logged, the page of each byte of a range is among those that are marked for the range, and the log
/// has a bit for it.
///
/// Witness: tests_vhost_user::pages_of
pub fn each_byte_is_logged()
    ensures page { (s : Connection) (size address len byte : ℕ) (pages : LogPages) → log_kept s ≡ Some size
        → logged s address len ≡ Some pages → byte < len → (pages.first ≤ page_of (address + byte))
        × (page_of (address + byte) < pages.first + pages.count) }
{}
