//! The handle of a connection of a block device: a pointer to it.
ghost use Rattle.std.specs.Prelude.{◌≡◌, Option, Some, None, IsSome};
ghost use Rattle.vhost_backend.specs.declared.block_connection.BlockConnection.{BlockConnection};
ghost use Rattle.vm_memory_c.specs.BlockHandle.{block_owns};

use crate::raw_box::RawBox;
use std::alloc::Global;
use std::marker::Model;
use std::ptr::null_mut;
use vhost_backend::BlockConnection;

/// A pointer to a connection, if it is open.
#[repr(C)]
#[derive(Drop)]
pub struct BlockHandle {
    at: *mut u8,
    alloc: Global,
    pub ghost state: { Option BlockConnection },
}

impl Model for BlockHandle {
    ghost also_owns = { λ h. block_owns h.at h.state };
}

impl BlockHandle {
    // A handle of no connection.
    pub(crate) fn closed(alloc: Global) -> BlockHandle
        ensures { result.state ≡ None }
    {
        BlockHandle {
            at: null_mut(),
            alloc,
        }
    }

    // The handle of a connection.
    pub(crate) fn of(connection: RawBox<BlockConnection, Global>) -> BlockHandle
        ensures { result.state ≡ Some connection.value }
    {
        let RawBox { at, alloc } = connection;
        BlockHandle {
            at: at as *mut u8,
            alloc,
        }
    }

    // The connection of a handle.
    pub(crate) fn into_raw_box(self) -> RawBox<BlockConnection, Global>
        requires { IsSome self.state }
        ensures { Some result.value ≡ self.state }
    {
        let BlockHandle { at, alloc } = self;
        RawBox {
            at: at as *mut BlockConnection,
            alloc,
        }
    }
}
