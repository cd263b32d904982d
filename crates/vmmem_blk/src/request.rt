//! Requests, as lines describe them.

use std::alloc::Global;
use thiserror::Error;

/// The greatest number of sectors that a request moves.
pub const MOST: usize = 2048;

/// What a line asks for.
#[derive(Drop)]
pub enum Request {
    /// Bytes of whole sectors that are written from a sector on.
    Write(u64, Vec<u8>),
    /// A sector, and how many are read from it on.
    Read(u64, usize),
    Flush,
    Id,
}

/// Why a line is not a request.
#[derive(Debug, Drop, Error)]
pub enum LineError {
    #[error("the bytes are not UTF-8")]
    Utf8,
    #[error("there is no request: write, read, flush or id")]
    Empty,
    #[error("no request has this name: write, read, flush and id are known")]
    Unknown,
    #[error("{0} is missing")]
    Missing(&'static str),
    #[error("there are more words than the request has")]
    TooManyWords,
    #[error("SECTOR is not a number below 2^64")]
    Sector,
    #[error("COUNT is not a number from 0 to 2048")]
    Count,
    #[error("HEX is not an even number of hexadecimal digits")]
    Hex,
    #[error("HEX has more than 1048576 bytes")]
    TooLong,
    #[error("out of memory")]
    Memory,
}

// The bytes of a word, with zeros up to whole sectors.
fn sectors_of(alloc: Global, word: &str) -> Result<Vec<u8>, LineError> {
    if word.len() / 2 > 512 * MOST {
        return Err(LineError::TooLong);
    }
    let mut bytes = match hex::decode(alloc, word) {
        Ok(bytes) => bytes,
        Err(hex::FromHexError::OutOfMemory) => return Err(LineError::Memory),
        Err(_) => return Err(LineError::Hex),
    };
    let short = (512 - bytes.len() % 512) % 512;
    for _ in 0..short {
        if bytes.push(0).is_err() {
            return Err(LineError::Memory);
        }
    }
    Ok(bytes)
}

fn sector_of(word: Option<&str>) -> Result<u64, LineError> {
    let Some(word) = word else {
        return Err(LineError::Missing("SECTOR"));
    };
    word.parse().map_err(|_| LineError::Sector)
}

fn count_of(word: Option<&str>) -> Result<usize, LineError> {
    let Some(word) = word else {
        return Err(LineError::Missing("COUNT"));
    };
    match word.parse::<usize>() {
        Ok(count) if count <= MOST => Ok(count),
        _ => Err(LineError::Count),
    }
}

fn bytes_of(alloc: Global, word: Option<&str>) -> Result<Vec<u8>, LineError> {
    let Some(word) = word else {
        return Err(LineError::Missing("HEX"));
    };
    sectors_of(alloc, word)
}

/// The request of a line, or why it is not one. `Memory` says that an allocation failed.
pub fn request_of(alloc: Global, line: &[u8]) -> Result<Request, LineError> {
    let Ok(text) = str::from_utf8(line) else {
        return Err(LineError::Utf8);
    };
    let mut words = text.split(' ');
    let kind = words.next().unwrap_or("");
    let first = words.next();
    let second = words.next();
    let more = words.next();
    let (request, extra) = match kind.as_bytes() {
        b"write" => {
            let sector = sector_of(first)?;
            (Request::Write(sector, bytes_of(alloc, second)?), more)
        }
        b"read" => {
            let sector = sector_of(first)?;
            (Request::Read(sector, count_of(second)?), more)
        }
        b"flush" => (Request::Flush, first),
        b"id" => (Request::Id, first),
        b"" => return Err(LineError::Empty),
        _ => return Err(LineError::Unknown),
    };
    if extra.is_some() {
        return Err(LineError::TooManyWords);
    }
    Ok(request)
}
