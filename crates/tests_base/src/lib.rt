//! Tests of addresses, values, sources and sinks, and of the I/O table, with their expected values as data.
#![tactic(auto)]

#[cfg(test)]
mod addresses;
#[cfg(test)]
mod endian;
#[cfg(test)]
mod files;
#[cfg(test)]
mod in_memory;
#[cfg(test)]
mod lookups;
#[cfg(test)]
mod sockets;
#[cfg(test)]
mod sorted;
#[cfg(test)]
mod stub;
#[cfg(test)]
mod system;
#[cfg(test)]
mod table_calls;
#[cfg(test)]
mod tables;
#[cfg(test)]
mod texts;
#[cfg(test)]
mod told;
#[cfg(test)]
mod value_streams;
#[cfg(test)]
mod values;
#[cfg(test)]
mod witnesses;
