//! What sources and sinks say of few bytes.

use std::fmt::{Debug, Write};
use std::test::Fail;
use vm_memory_base::{ReadVolatile, VolatileMemoryError, VolatileMemoryResult, WriteVolatile};

/// A failure of the system by its kind, and any other answer as it is.
pub fn tell<T: Debug>(answer: &VolatileMemoryResult<T>, out: &mut String) -> Result<(), Fail> {
    match answer {
        Err(VolatileMemoryError::IOError(error)) => write!(out, "{:?}", error.kind())?,
        other => write!(out, "{other:?}")?,
    }
    Ok(())
}

/// What a source reads into four of five bytes by one try, and what they are then.
pub fn reads<S: ReadVolatile>(source: &mut S, out: &mut String) -> Result<(), Fail> {
    let mut lent = [0u8; 5];
    tell(&source.read_volatile(&mut lent[..4]), out)?;
    writeln!(out, " {lent:?}")?;
    Ok(())
}

/// The same by as many tries as it takes.
pub fn fills<S: ReadVolatile>(source: &mut S, out: &mut String) -> Result<(), Fail> {
    let mut lent = [0u8; 5];
    match source.read_exact_volatile(&mut lent[..4]) {
        Ok(()) => write!(out, "whole")?,
        Err(fault) => {
            write!(out, "touched {} ", fault.touched)?;
            tell::<()>(&Err(fault.error), out)?;
        }
    }
    writeln!(out, " {lent:?}")?;
    Ok(())
}

/// What a sink returns for four bytes, and for all four.
pub fn writes<W: WriteVolatile>(sink: &mut W, out: &mut String) -> Result<(), Fail> {
    let bytes = [1u8, 2, 3, 4];
    tell(&sink.write_volatile(&bytes), out)?;
    write!(out, " ")?;
    tell(&sink.write_all_volatile(&bytes), out)?;
    writeln!(out)?;
    Ok(())
}

/// Fails if what a sink was given is not what a source gives back.
pub fn expect_passed<W: WriteVolatile, S: ReadVolatile>(
    case: u8,
    sink: &mut W,
    source: &mut S,
) -> Result<(), Fail> {
    let sent: &[u8] = &[case, 2, 3, 4, 5, 6, 7, 8];
    sink.write_all_volatile(sent)?;
    let mut came = [0u8; 8];
    if let Err(fault) = source.read_exact_volatile(&mut came) {
        return Err(Fail::from(fault.error));
    }
    if came.as_slice() != sent {
        return Err(Fail::new(format_args!("case {case}: {came:?}")));
    }
    Ok(())
}
