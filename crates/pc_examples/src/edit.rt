//! A file that differs from another in some of its lines.
use crate::trouble::Trouble;
use std::alloc::Global;

/// So many lines of a file, from one on, which is counted from 1, and what comes in their place.
#[derive(Debug, Drop)]
pub(crate) struct Edit {
    pub(crate) name: String,
    pub(crate) line: u64,
    pub(crate) count: u64,
    pub(crate) text: Vec<u8>,
}

/// The bytes in which an edit is made.
pub(crate) fn edited(alloc: Global, bytes: &[u8], edit: &Edit) -> Result<Vec<u8>, Trouble> {
    let mut out = Vec::new(alloc);
    let end = edit.line.saturating_add(edit.count);
    let mut place: u64 = 1;
    for line in bytes.split_inclusive(|byte| *byte == b'\n') {
        if place == edit.line {
            out.extend_from_slice(edit.text.as_slice())?;
        }
        if place < edit.line || end <= place {
            out.extend_from_slice(line)?;
        }
        place = place.saturating_add(1);
    }
    if edit.line == 0 || place < end {
        return Err(Trouble::Line("an edit is past the end of its file"));
    }
    if place == edit.line {
        out.extend_from_slice(edit.text.as_slice())?;
    }
    Ok(out)
}
