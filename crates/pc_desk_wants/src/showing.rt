ghost use Rattle.std.specs.Prelude.{◌≡◌, ◌≤◌, ◌++◌, [], length, map, take, drop, codes, nat_lt, IfOk, OnOk, if◌then◌else◌};
ghost use Rattle.std.specs.List.{count_by, position_or_len};
ghost use Rattle.pc_desk_wants.specs.Shown.{begins_char, chars_in, cut_len, first_char, plain, shown};

use pc_num::Memory;
use std::alloc::Global;

// The most bytes of a text that are shown, but for the rest of a character.
const MOST_SHOWN: usize = 200;

/// What is shown of a text: its front, and that there is more, without control characters.
#[tactic(auto, unfolding(crate::specs::Shown::shown))]
pub fn shown(alloc: Global, text: &[u8]) -> Result<Vec<u8>, Memory>
    ensures { IfOk result (λ out. out.items ≡ shown text.now) }
{
    let len = cut_len(text);
    let mut out = plain_text(alloc, &text[..len])?;
    put_dots(&mut out, len < text.len())?;
    Ok(out)
}

fn put_dots(out: &mut Vec<u8>, cut: bool) -> Result<(), Memory>
    ensures { OnOk result (out.new.items ≡ out.old.items ++ (if cut then codes " .." else [])) }
{
    if cut {
        out.extend_from_slice(b" ..".as_slice())?;
    }
    Ok(())
}

fn plain_text(alloc: Global, text: &[u8]) -> Result<Vec<u8>, Memory>
    ensures { IfOk result (λ out. out.items ≡ map plain text.now) }
{
    let mut out = Vec::new(alloc);
    for byte in text {
        out.push(plain(*byte))?;
    }
    Ok(out)
}

fn plain(byte: u8) -> u8
    ensures { result ≡ plain byte }
{
    if byte < 32 || byte == 127 {
        return b'?';
    }
    byte
}

#[tactic(auto, unfolding(crate::specs::Shown::cut_len))]
fn cut_len(text: &[u8]) -> usize
    ensures exact { result ≡ cut_len text.now }
    ensures within { result ≤ length text.now }
{
    if text.len() <= MOST_SHOWN {
        return text.len();
    }
    MOST_SHOWN + rest_len(after(text, MOST_SHOWN))
}

// How many bytes stand before the first that begins a character.
#[tactic(auto, using(crate::proofs::Chars::rest_steps))]
fn rest_len(text: &[u8]) -> usize
    ensures exact { result ≡ position_or_len begins_char text.now }
    ensures within { result ≤ length text.now }
{
    for (place, byte) in text.iter().enumerate() {
        if begins_char(*byte) {
            return place;
        }
    }
    text.len()
}

/// How many characters begin in the bytes.
pub(crate) fn chars_in(text: &[u8]) -> usize
    ensures exact { result ≡ chars_in text.now }
    ensures within { result ≤ length text.now }
{
    let mut count = 0;
    for byte in text {
        count += one_if(begins_char(*byte));
    }
    count
}

fn one_if(holds: bool) -> usize
    ensures exact { result ≡ (if holds then 1 else 0) }
    ensures small { result ≤ 1 }
{
    if holds { 1 } else { 0 }
}

fn begins_char(byte: u8) -> bool
    ensures { result ≡ begins_char byte }
{
    byte < 128 || 192 <= byte
}

/// The character that the bytes begin with.
pub(crate) fn first_char(text: &[u8]) -> &[u8]
    ensures { result.now ≡ first_char text.now }
{
    match text {
        [_, rest @ ..] => &text[..rest_len(rest) + 1],
        [] => text,
    }
}

/// The bytes of a text from a place on.
#[tactic(auto, using(std::proofs::lemmas::List::drop_all))]
pub(crate) fn after(text: &[u8], place: usize) -> &[u8]
    ensures { result.now ≡ drop place text.now }
{
    if text.len() < place {
        return &[];
    }
    &text[place..]
}
