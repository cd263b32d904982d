//! The handle of a session: a pointer to it.
ghost use Rattle.std.specs.Prelude.{◌≡◌, Option, Some, None, IsSome};
ghost use Rattle.vm_session.specs.Retries.{WholeSession};
ghost use Rattle.vm_memory_c.specs.Handle.{handle_owns};

use crate::raw_box::RawBox;
use std::alloc::Global;
use std::marker::Model;
use std::ptr::null_mut;
use vm_session::Session;

/// A pointer to a session, if it is open.
#[repr(C)]
#[derive(Drop)]
pub struct Handle {
    at: *mut u8,
    alloc: Global,
    pub ghost state: { Option WholeSession },
}

impl Model for Handle {
    ghost also_owns = { λ h. handle_owns h.at h.state };
}

impl Handle {
    // A handle of no session.
    #[inline(always)]
    pub(crate) fn closed(alloc: Global) -> Handle
        ensures { result.state ≡ None }
    {
        Handle {
            at: null_mut(),
            alloc,
        }
    }

    // The handle of a session.
    #[inline(always)]
    pub(crate) fn of(session: RawBox<Session, Global>) -> Handle
        ensures { result.state ≡ Some session.value }
    {
        let RawBox { at, alloc } = session;
        Handle {
            at: at as *mut u8,
            alloc,
        }
    }

    // The session of a handle.
    #[inline(always)]
    pub(crate) fn into_raw_box(self) -> RawBox<Session, Global>
        requires { IsSome self.state }
        ensures { Some result.value ≡ self.state }
    {
        let Handle { at, alloc } = self;
        RawBox {
            at: at as *mut Session,
            alloc,
        }
    }
}
