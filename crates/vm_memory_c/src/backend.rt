//! The handle of a vhost-user back end's connection: a pointer to it.
ghost use Rattle.std.specs.Prelude.{◌≡◌, Option, Some, None, IsSome};
ghost use Rattle.vhost_user.specs.Connection.{Connection};
ghost use Rattle.vm_memory_c.specs.Backend.{backend_owns};

use crate::raw_box::RawBox;
use std::alloc::Global;
use std::marker::Model;
use std::ptr::null_mut;
use vhost_calls::BackendReqHandler;

/// A pointer to a connection, if it is open.
#[repr(C)]
#[derive(Drop)]
pub struct Backend {
    at: *mut u8,
    alloc: Global,
    pub ghost state: { Option Connection },
}

impl Model for Backend {
    ghost also_owns = { λ h. backend_owns h.at h.state };
}

impl Backend {
    // A handle of no connection.
    pub(crate) fn closed(alloc: Global) -> Backend
        ensures { result.state ≡ None }
    {
        Backend {
            at: null_mut(),
            alloc,
        }
    }

    // The handle of a connection.
    pub(crate) fn of(connection: RawBox<BackendReqHandler, Global>) -> Backend
        ensures { result.state ≡ Some connection.value }
    {
        let RawBox { at, alloc } = connection;
        Backend {
            at: at as *mut u8,
            alloc,
        }
    }

    // The connection of a handle.
    pub(crate) fn into_raw_box(self) -> RawBox<BackendReqHandler, Global>
        requires { IsSome self.state }
        ensures { Some result.value ≡ self.state }
    {
        let Backend { at, alloc } = self;
        RawBox {
            at: at as *mut BackendReqHandler,
            alloc,
        }
    }
}
