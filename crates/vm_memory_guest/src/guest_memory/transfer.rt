//! Transfers between the windows of a walk and sources or sinks of bytes.
ghost use Rattle.std.specs.Prelude.{◌≡◌, ◌^◌, ◌<◌, ◌≤◌, IfOk, Some, option_map};
ghost use Rattle.std.specs.List.{AllByRecursion};
ghost use Rattle.vm_memory_guest.specs.Error.{error_of, of_window};
ghost use Rattle.vm_memory_guest.specs.Host.{shape_of, Holds};
ghost use Rattle.vm_memory_guest.specs.Transfer.{Fills, InOrder, Takes, UntilWhole, ended, filling};
ghost use Rattle.vm_memory_guest.specs.Window.{span, window_names};

use super::IommuMemorySliceIterator;
use super::backend::GuestMemoryBackend;
use crate::host::HostMemory;
use crate::region::error::{GuestMemoryError, GuestMemoryResult};
use vm_memory_base::{Bitmap, ReadVolatile, WriteVolatile};

// Lends a source the windows that a walk gives, one after the other, up to the first that it does not fill.
// Each is lent until it is full, or for one try.
pub(super) fn receive_windows<M: GuestMemoryBackend, S: ReadVolatile, B: Bitmap>(
    walk: IommuMemorySliceIterator<'_, M>,
    host: &mut HostMemory<B>,
    source: &mut S,
    until_full: bool,
) -> GuestMemoryResult<usize>
    requires held { AllByRecursion (λ w. Holds (shape_of host.old) (window_names w)) walk.windows }
    requires fits { span walk.windows < 2 ^ 64 }
    ensures answer { let walk = walk.entry in
        InOrder of_window (option_map error_of walk.fault)
        (Fills S.source S.reads S.known_left B.marks (filling until_full)) walk.windows 0
        (source.old, host.old) result (source.new, host.new) }
    ensures at_most { IfOk result (λ total. total ≤ span walk.entry.windows) }
    ensures shape { shape_of host.new ≡ shape_of host.old }
{
    let mut total = 0;
    for item in walk {
        match item {
            Ok(window) => {
                let count = host.receive(&window, source, until_full)?;
                total += count;
                if count != window.len() {
                    return Ok(total);
                }
            }
            Err(error) => return ended(total, error),
        }
    }
    Ok(total)
}

// Offers a sink the bytes of the windows that a walk gives, one window after the other, each until all of its
// bytes are taken.
pub(super) fn send_windows<M: GuestMemoryBackend, S: WriteVolatile, B: Bitmap>(
    walk: IommuMemorySliceIterator<'_, M>,
    host: &HostMemory<B>,
    sink: &mut S,
) -> GuestMemoryResult<usize>
    requires held { AllByRecursion (λ w. Holds (shape_of host.now) (window_names w)) walk.windows }
    requires fits { span walk.windows < 2 ^ 64 }
    ensures answer { let walk = walk.entry in
        InOrder of_window (option_map error_of walk.fault)
        (Takes S.sink S.taken S.may_want S.writes host.now.blocks UntilWhole) walk.windows 0
        sink.old result sink.new }
    ensures at_most { IfOk result (λ total. total ≤ span walk.entry.windows) }
{
    let mut total = 0;
    for item in walk {
        match item {
            Ok(window) => {
                sink.write_all_volatile(host.bytes(&window))?;
                total += window.len();
            }
            Err(error) => return ended(total, error),
        }
    }
    Ok(total)
}

// The answer of a walk that an error ends: how many bytes came before it, or the error where none did.
#[inline(always)]
pub(super) fn ended(total: usize, error: GuestMemoryError) -> GuestMemoryResult<usize>
    ensures { result ≡ ended total (Some error) }
{
    if total == 0 {
        return Err(error);
    }
    Ok(total)
}
