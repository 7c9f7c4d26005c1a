ghost use Rattle.std.specs.Prelude.{◌≡◌, ◌≤◌, ◌<◌, ◌+◌, ◌^◌, ◌∷◌, [], length, IfOk, IfSome, MatchOption};
ghost use Rattle.pc_desk_draw.specs.Questions.{IsCut, asks, line_text, same_len, same_line, title_of, title_width};

use pc_desk_table::Entry;
use pc_num::Memory;
use std::alloc::Global;
use unicode_width::UnicodeWidthStr;

/// The blocks of the first picture, and those after them.
pub(crate) fn first_picture(entries: &[Entry]) -> Option<(&[Entry], &[Entry])>
    ensures pieces { MatchOption result (entries.now ≡ []) (λ cut. IsCut entries.now cut.0.now cut.1.now) }
    ensures some { IfSome result (λ cut. 0 < length cut.0.now) }
    ensures lengths { IfSome result (λ cut. length cut.0.now + length cut.1.now ≡ length entries.now) }
{
    match first_of(entries) {
        Some((first, rest)) => {
            let len = same_len(first.line, first.query.as_bytes(), rest);
            Some(entries.split_at(len + 1))
        }
        None => None,
    }
}

fn first_of(entries: &[Entry]) -> Option<(&Entry, &[Entry])>
    ensures { MatchOption result (entries.now ≡ []) (λ cut. entries.now ≡ cut.0.now ∷ cut.1.now) }
{
    match entries {
        [entry, after @ ..] => Some((entry, after)),
        _ => None,
    }
}

#[tactic(auto, unfolding(crate::specs::Questions::same_len))]
fn same_len(line: Option<u64>, query: &[u8], entries: &[Entry]) -> usize
    ensures exact { result ≡ same_len line query.now entries.now }
    ensures within { result ≤ length entries.now }
{
    for (place, entry) in entries.iter().enumerate() {
        if !asks(line, query, entry) {
            return place;
        }
    }
    entries.len()
}

fn asks(line: Option<u64>, query: &[u8], entry: &Entry) -> bool
    ensures { result ≡ asks line query.now entry.now }
{
    same_line(entry.line, line) && entry.query.as_bytes() == query
}

fn same_line(one: Option<u64>, other: Option<u64>) -> bool
    ensures { result ≡ same_line one other }
{
    match (one, other) {
        (Some(one), Some(other)) => one == other,
        (None, None) => true,
        _ => false,
    }
}

/// What the blocks of a picture ask, after its line where a script asked it.
#[tactic(auto, unfolding(crate::specs::Questions::title_of))]
pub(crate) fn title_of(alloc: Global, entries: &[Entry]) -> Result<Vec<u8>, Memory>
    ensures { IfOk result (λ text. text.items ≡ title_of entries.now) }
{
    match entries {
        [entry, ..] => {
            let mut text = line_text(alloc, entry.line)?;
            text.extend_from_slice(entry.query.as_bytes())?;
            Ok(text)
        }
        [] => Ok(Vec::new(alloc)),
    }
}

fn line_text(alloc: Global, line: Option<u64>) -> Result<Vec<u8>, Memory>
    ensures { IfOk result (λ text. text.items ≡ line_text line) }
{
    let Some(line) = line else {
        return Ok(Vec::new(alloc));
    };
    let text = format!(in alloc; "line {line}: ")?;
    Ok(text.into_bytes())
}

/// How many columns that takes.
pub(crate) fn title_width(alloc: Global, entries: &[Entry]) -> Result<u128, Memory>
    ensures value { IfOk result (λ width. width ≡ title_width entries.now) }
    ensures small { IfOk result (λ width. width ≤ 2 ^ 65) }
{
    match entries {
        [entry, ..] => {
            let line = line_text(alloc, entry.line)?;
            Ok(line.len() as u128 + entry.query.as_str().width() as u128)
        }
        [] => Ok(0),
    }
}
