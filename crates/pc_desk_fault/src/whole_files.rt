ghost use Rattle.std.specs.Prelude.{◌≡◌, ◌≤◌, ◌<◌, length, IfOk};
ghost use Rattle.pc_desk_wants.specs.Told.{line_break};
ghost use Rattle.pc_desk_fault.specs.WholeFiles.{feeds_in, file_text, line_at, one_for, spoiled_at, spoiled_line, spoiled_text, whole_text};

use crate::sentences::sentence_line;
use pc_model::Reason;
use pc_num::Memory;
use std::alloc::Global;
use std::str;

/// What is told of a file as a whole.
#[tactic(auto, unfolding(crate::specs::WholeFiles::whole_text))]
pub(crate) fn whole_text(alloc: Global, reason: Reason, bytes: &[u8]) -> Result<Vec<u8>, Memory>
    ensures { IfOk result (λ text. text.items ≡ whole_text reason bytes.now) }
{
    let mut text = file_text(alloc, reason, bytes)?;
    let words = sentence_line(alloc, reason)?;
    text.extend_from_slice(words.as_slice())?;
    Ok(text)
}

fn file_text(alloc: Global, reason: Reason, bytes: &[u8]) -> Result<Vec<u8>, Memory>
    ensures { IfOk result (λ text. text.items ≡ file_text reason bytes.now) }
{
    match reason {
        Reason::NotUtf8 => spoiled_text(alloc, bytes),
        _ => line_break(alloc),
    }
}

fn line_break(alloc: Global) -> Result<Vec<u8>, Memory>
    ensures { IfOk result (λ text. text.items ≡ line_break) }
{
    let mut text = Vec::new(alloc);
    text.push(b'\n')?;
    Ok(text)
}

// The line of the first byte that is no UTF-8.
#[tactic(auto, using(crate::proofs::Utf8::tests), unfolding(crate::specs::WholeFiles::spoiled_text))]
fn spoiled_text(alloc: Global, bytes: &[u8]) -> Result<Vec<u8>, Memory>
    ensures { IfOk result (λ text. text.items ≡ spoiled_text bytes.now) }
{
    match str::from_utf8(bytes) {
        Ok(_) => line_break(alloc),
        Err(error) => spoiled_at(alloc, error.valid_up_to(), bytes),
    }
}

fn spoiled_at(alloc: Global, place: usize, bytes: &[u8]) -> Result<Vec<u8>, Memory>
    ensures { IfOk result (λ text. text.items ≡ spoiled_at place bytes.now) }
{
    if bytes.len() <= place {
        return line_break(alloc);
    }
    spoiled_line(alloc, line_at(bytes, place))
}

fn spoiled_line(alloc: Global, line: u64) -> Result<Vec<u8>, Memory>
    ensures { IfOk result (λ text. text.items ≡ spoiled_line line) }
{
    Ok(format!(in alloc; " (line {line})\n")?.into_bytes())
}

// The line on which a place of a text is, from 1. Lines end with LF.
fn line_at(text: &[u8], place: usize) -> u64
    requires { place < length text.now }
    ensures { result ≡ line_at place text.now }
{
    feeds_in(&text[..place]) as u64 + 1
}

#[tactic(auto, using(crate::proofs::Feeds::feeds))]
fn feeds_in(text: &[u8]) -> usize
    ensures exact { result ≡ feeds_in text.now }
    ensures within { result ≤ length text.now }
{
    let mut count = 0;
    for byte in text {
        count += one_for(*byte);
    }
    count
}

fn one_for(byte: u8) -> usize
    ensures { result ≡ one_for byte }
{
    if byte == b'\n' { 1 } else { 0 }
}
