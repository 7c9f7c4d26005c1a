ghost use Rattle.std.specs.Prelude.{◌≡◌, ◌<◌, ◌≤◌, ◌++◌, map, take, length, Some, IfOk};
ghost use Rattle.pc_desk_records.specs.Shown.{all_text, choice_text, comma_at, counted, cut_mark, cut_place, distance, is_inside, listed_from, many_text, near_at, near_text, nearest, shown, shown_after, shown_byte};

use crate::joined::joined;
use pc_list::Seq;
use pc_num::Memory;
use std::alloc::Global;
use strsim::generic_levenshtein;

// As many bytes of a text are shown.
const MOST_BYTES: usize = 64;

// As many texts are shown one after the other.
const MOST_TEXTS: usize = 12;

/// A text of a file as it is shown.
#[tactic(auto, unfolding(crate::specs::Shown::shown))]
pub fn shown(alloc: Global, text: &[u8]) -> Result<Vec<u8>, Memory>
    ensures { IfOk result (λ out. out.items ≡ shown text.now) }
{
    let mut out = shown_bytes(alloc, start_of(text))?;
    out.extend_from_slice(cut_mark(text))?;
    Ok(out)
}

#[tactic(auto, using(crate::proofs::Showing::starts))]
fn start_of(text: &[u8]) -> &[u8]
    ensures { result.now ≡ take (cut_place text.now) text.now }
{
    if text.len() <= MOST_BYTES {
        return text;
    }
    let (start, _) = text.split_at(cut_place(text));
    start
}

// The last place up to the 64th at which a character begins.
fn cut_place(text: &[u8]) -> usize
    requires { 64 < length text.now }
    ensures place { result ≡ cut_place text.now }
    ensures few { result ≤ 64 }
{
    if !is_inside(text[64]) {
        return 64;
    }
    if !is_inside(text[63]) {
        return 63;
    }
    if is_inside(text[62]) { 61 } else { 62 }
}

fn is_inside(byte: u8) -> bool
    ensures { result ≡ is_inside byte }
{
    128 <= byte && byte < 192
}

#[tactic(auto, using(crate::proofs::Showing::starts))]
fn first_bytes(text: &[u8]) -> &[u8]
    ensures { result.now ≡ take 64 text.now }
{
    if text.len() <= MOST_BYTES {
        return text;
    }
    let (first, _) = text.split_at(MOST_BYTES);
    first
}

fn cut_mark<'x>(text: &[u8]) -> &'x [u8]
    ensures { result.now ≡ cut_mark text.now }
{
    if MOST_BYTES < text.len() {
        return b"..".as_slice();
    }
    &[]
}

#[tactic(auto, using(crate::proofs::Showing::bytes))]
fn shown_bytes(alloc: Global, text: &[u8]) -> Result<Vec<u8>, Memory>
    ensures { IfOk result (λ out. out.items ≡ map shown_byte text.now) }
{
    let mut out = Vec::new(alloc);
    for byte in text {
        out.push(shown_byte(*byte))?;
    }
    Ok(out)
}

fn shown_byte(byte: u8) -> u8
    ensures { result ≡ shown_byte byte }
{
    if byte < 32 || byte == 127 {
        return b'?';
    }
    byte
}

/// The same behind `is` or `=`.
pub(crate) fn shown_after(alloc: Global, word: &[u8], text: &[u8]) -> Result<Vec<u8>, Memory>
    ensures { IfOk result (λ out. out.items ≡ shown_after word.now text.now) }
{
    if text.is_empty() {
        return Ok(Vec::from_slice(alloc, b" is empty".as_slice())?);
    }
    let mut out = Vec::from_slice(alloc, word)?;
    let rest = shown(alloc, text)?;
    out.extend_from_slice(rest.as_slice())?;
    Ok(out)
}

/// Texts, and which of them is nearest to one that is not empty; of more than twelve their number stands for them.
#[tactic(auto, unfolding(crate::specs::Shown::choice_text))]
pub fn choice_text(
    alloc: Global,
    word: &[u8],
    text: &[u8],
    others: &[Seq<u8>],
) -> Result<Vec<u8>, Memory>
    ensures { IfOk result (λ out. out.items ≡ choice_text word.now text.now others.now) }
{
    if others.len() <= MOST_TEXTS {
        return all_text(alloc, text, others);
    }
    many_text(alloc, word, text, others)
}

fn all_text(alloc: Global, text: &[u8], others: &[Seq<u8>]) -> Result<Vec<u8>, Memory>
    ensures { IfOk result (λ out. out.items ≡ all_text text.now others.now) }
{
    let mut out = listed(alloc, others)?;
    let near = near_text(alloc, b"; ".as_slice(), text, others)?;
    out.extend_from_slice(near.as_slice())?;
    Ok(out)
}

fn many_text(alloc: Global, word: &[u8], text: &[u8], others: &[Seq<u8>]) -> Result<Vec<u8>, Memory>
    ensures { IfOk result (λ out. out.items ≡ many_text word.now text.now others.now) }
{
    let count = others.len();
    let mut out = format!(in alloc; "{count}")?.into_bytes();
    out.extend_from_slice(word)?;
    let near = near_text(alloc, b", of which ".as_slice(), text, others)?;
    out.extend_from_slice(near.as_slice())?;
    Ok(out)
}

#[tactic(auto, using(crate::proofs::Showing::lists))]
fn listed(alloc: Global, texts: &[Seq<u8>]) -> Result<Vec<u8>, Memory>
    ensures { IfOk result (λ out. out.items ≡ listed_from 0 texts.now) }
{
    let mut out = Vec::new(alloc);
    for (place, text) in texts.iter().enumerate() {
        let more = listed_text(alloc, place, text.as_slice())?;
        out.extend_from_slice(more.as_slice())?;
    }
    Ok(out)
}

fn listed_text(alloc: Global, place: usize, text: &[u8]) -> Result<Vec<u8>, Memory>
    ensures { IfOk result (λ out. out.items ≡ comma_at place ++ shown text.now) }
{
    let mut out = Vec::from_slice(alloc, comma_at(place))?;
    let rest = shown(alloc, text)?;
    out.extend_from_slice(rest.as_slice())?;
    Ok(out)
}

fn comma_at<'x>(place: usize) -> &'x [u8]
    ensures { result.now ≡ comma_at place }
{
    if place == 0 {
        return &[];
    }
    b", ".as_slice()
}

fn near_text(
    alloc: Global,
    before: &[u8],
    text: &[u8],
    others: &[Seq<u8>],
) -> Result<Vec<u8>, Memory>
    ensures { IfOk result (λ out. out.items ≡ near_text before.now text.now others.now) }
{
    if text.is_empty() {
        return Ok(Vec::new(alloc));
    }
    match others.get(nearest(alloc, text, others)?) {
        Some(other) => near_at(alloc, before, other.as_slice()),
        None => Ok(Vec::new(alloc)),
    }
}

fn near_at(alloc: Global, before: &[u8], other: &[u8]) -> Result<Vec<u8>, Memory>
    ensures { IfOk result (λ out. out.items ≡ near_at before.now (Some other.now)) }
{
    let name = shown(alloc, other)?;
    joined(alloc, before, name.as_slice(), b" is nearest".as_slice())
}

// The place of the first text of those that are nearest.
#[tactic(auto, using(crate::proofs::Showing::nearer), unfolding(crate::specs::Shown::nearest))]
fn nearest(alloc: Global, text: &[u8], others: &[Seq<u8>]) -> Result<usize, Memory>
    ensures { IfOk result (λ place. place ≡ nearest text.now others.now) }
{
    let mut best = 0;
    let mut least = MOST_BYTES + 1;
    for (place, other) in others.iter().enumerate() {
        let edits = distance(alloc, text, other.as_slice())?;
        if edits < least {
            best = place;
            least = edits;
        }
    }
    Ok(best)
}

fn distance(alloc: Global, text: &[u8], other: &[u8]) -> Result<usize, Memory>
    ensures { IfOk result (λ edits. edits ≡ distance text.now other.now) }
{
    Ok(generic_levenshtein(alloc, first_bytes(text), first_bytes(other))?)
}

/// So many, of which one or several are spoken of.
pub(crate) fn counted(
    alloc: Global,
    count: u64,
    one: &[u8],
    several: &[u8],
) -> Result<Vec<u8>, Memory>
    ensures { IfOk result (λ out. out.items ≡ counted count one.now several.now) }
{
    let mut out = format!(in alloc; "{count}")?.into_bytes();
    if count == 1 {
        out.extend_from_slice(one)?;
        return Ok(out);
    }
    out.extend_from_slice(several)?;
    Ok(out)
}
