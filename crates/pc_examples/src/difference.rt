//! What is told of a case that differs.
use crate::case::Ended;
use crate::trial::Call;
use crate::trouble::Trouble;
use std::fmt::Write;

/// Appends what was wanted of a call and what came, of a file that was cut with the number of bytes that were left.
pub(crate) fn put_difference(
    told: &mut String,
    call: &Call,
    cut: Option<usize>,
    came: &Ended,
) -> Result<(), Trouble> {
    let line = call.line;
    write!(told, "  line {line}")?;
    if let Some(count) = cut {
        write!(told, ", cut after {count} bytes")?;
    }
    let wanted = call.status;
    write!(told, "\n    wanted: status {wanted}\n")?;
    put_text(told, call.wanted.as_slice())?;
    put_notes(told, call.notes.as_slice())?;
    let status = came.status;
    write!(told, "    came: status {status}\n")?;
    put_text(told, came.text.as_slice())?;
    put_notes(told, came.notes.as_slice())?;
    if !came.is_in_order {
        told.push_str(
            "    not by one put, or something was loaded for words that are no command\n",
        )?;
    }
    Ok(())
}

fn put_notes(told: &mut String, bytes: &[u8]) -> Result<(), Trouble> {
    if bytes.is_empty() {
        return Ok(());
    }
    told.push_str("    and to the standard error\n")?;
    put_text(told, bytes)
}

fn put_text(told: &mut String, bytes: &[u8]) -> Result<(), Trouble> {
    let Ok(text) = str::from_utf8(bytes) else {
        told.push_str("      bytes that are no text\n")?;
        return Ok(());
    };
    for line in text.lines() {
        write!(told, "      {line}\n")?;
    }
    Ok(())
}
