//! Files of scripts and of their replies: sections, each after a line `# script N`.

use std::alloc::{AllocError, Global};
use std::str;

/// The lines of one script, or its replies.
#[derive(Drop)]
pub struct Section<'a> {
    /// The script's number.
    pub number: u64,
    /// The number of its first line in the file, from 1.
    pub first_line: usize,
    /// Its lines, without their ends.
    pub lines: Vec<&'a [u8]>,
}

/// The lines of a text. The last may lack its line feed.
pub fn lines_of(alloc: Global, text: &[u8]) -> Result<Vec<&[u8]>, AllocError> {
    let Some((last, front)) = text.split_last() else {
        return Ok(Vec::new(alloc));
    };
    let text = if *last == b'\n' { front } else { text };
    text.split(is_line_end).collect(alloc)
}

fn is_line_end(byte: &u8) -> bool {
    *byte == b'\n'
}

// The number of the script that begins after this line.
fn number_of(line: &[u8]) -> Option<u64> {
    let digits = line.strip_prefix(b"# script ")?;
    match str::from_utf8(digits) {
        Ok(text) => text.parse::<u64>().ok(),
        Err(_) => None,
    }
}

/// The sections of a text, or nothing if its first line does not begin one.
pub fn sections_of(alloc: Global, text: &[u8]) -> Result<Option<Vec<Section<'_>>>, AllocError> {
    let mut sections: Vec<Section<'_>> = Vec::new(alloc);
    let lines = lines_of(alloc, text)?;
    for (place, line) in lines.iter().enumerate() {
        match number_of(line) {
            Some(number) => sections.push(Section {
                number,
                first_line: place.saturating_add(2),
                lines: Vec::new(alloc),
            })?,
            None => match sections.last_mut() {
                Some(section) => section.lines.push(*line)?,
                None => return Ok(None),
            },
        }
    }
    if sections.is_empty() {
        return Ok(None);
    }
    Ok(Some(sections))
}
