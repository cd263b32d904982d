//! What guest memory is made of: addresses, values as bytes, dirty pages, I/O tables, sources and
//! sinks.
#![tactic(auto)]

mod address;
mod atomic_integer;
mod bitmap;
mod bytes;
mod endian;
mod io;
mod iotlb;
pub mod laws;
mod lends;
mod list;

pub use address::{
    Address, AddressValue, AddressWord, GuestAddress, GuestUsize, MemoryRegionAddress,
};
pub use atomic_integer::AtomicInteger;
pub use bitmap::{
    ArcSlice, AtomicBitmap, BS, BaseSlice, Bitmap, BitmapId, BitmapRef, ExactBitmap,
    ExclusiveBitmap, HarvestError, Harvester, MS, Marker, MarkerBitmap, NewBitmap, RefSlice,
    SharedBitmap, TrackedBitmap,
};
pub use bytes::{AtomicAccess, ByteSized, ByteValued, FixedInteger};
pub use endian::{Be16, Be32, Be64, BeSize, BigEndian, Le16, Le32, Le64, LeSize, LittleEndian};
pub use io::{
    IoError, RETRIES, ReadExactFault, ReadVolatile, ScriptSink, ScriptSource, SinkStep, SourceStep,
    SystemSink, SystemSource, VolatileMemoryError, VolatileMemoryResult, WriteVolatile,
    is_interrupted, offer_again,
};
pub use iotlb::{
    IommuError, Iotlb, IotlbFails, IotlbIterator, IovaRange, IovaRangeList, LookupError,
    MappedRange, MappedRangeList, Permissions, Reason,
};
pub use laws::events::event_law;
pub use lends::Lends;
pub use list::{ByteList, Items};
