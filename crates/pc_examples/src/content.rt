//! Lines that are part of a file, of an edit or of a wanted text.
use crate::trouble::Trouble;
use std::alloc::Global;

/// Some bytes, so many times.
#[derive(Debug, Drop)]
pub(crate) struct Content {
    pub(crate) times: u64,
    pub(crate) bytes: Vec<u8>,
}

impl Content {
    /// Appends the bytes so many times, by blocks of twice the length of the one before: a file may be long.
    pub(crate) fn push_to(&self, text: &mut Vec<u8>) -> Result<(), Trouble> {
        let mut block = self.bytes.clone()?;
        let mut left = self.times;
        for _ in 0..u64::BITS {
            if left % 2 == 1 {
                text.extend_from_slice(block.as_slice())?;
            }
            left /= 2;
            if left == 0 {
                break;
            }
            let half = block.clone()?;
            block.extend_from_slice(half.as_slice())?;
        }
        Ok(())
    }
}

/// What a line adds to what stands above it: `| TEXT` a line, `\ TEXT` a text with escapes, either so many times as the
/// digits before it say. None where the line is something else.
pub(crate) fn read_content(alloc: Global, line: &str) -> Result<Option<Content>, Trouble> {
    if let Some((digits, rest)) = line.split_once('|') {
        if let Some(times) = times_of(digits) {
            let bytes = with_line_feed(alloc, behind_blank(rest)?)?;
            return Ok(Some(Content { times, bytes }));
        }
    }
    if let Some((digits, rest)) = line.split_once('\\') {
        if let Some(times) = times_of(digits) {
            let bytes = unescaped(alloc, behind_blank(rest)?)?;
            return Ok(Some(Content { times, bytes }));
        }
    }
    Ok(None)
}

fn times_of(digits: &str) -> Option<u64> {
    if digits.is_empty() {
        return Some(1);
    }
    digits.parse::<u64>().ok()
}

fn behind_blank(rest: &str) -> Result<&str, Trouble> {
    if rest.is_empty() {
        return Ok(rest);
    }
    rest.strip_prefix(' ')
        .ok_or(Trouble::Line("a blank stands behind the mark of a text"))
}

fn with_line_feed(alloc: Global, text: &str) -> Result<Vec<u8>, Trouble> {
    let mut bytes = Vec::new(alloc);
    bytes.extend_from_slice(text.as_bytes())?;
    bytes.push(b'\n').map_err(|_| Trouble::Memory)?;
    Ok(bytes)
}

/// The bytes of a text with escapes. Of its pieces between backslashes one is plain where it is the first, or stands behind
/// an empty one, which is a backslash that was escaped.
fn unescaped(alloc: Global, text: &str) -> Result<Vec<u8>, Trouble> {
    let mut bytes = Vec::new(alloc);
    let mut is_plain = true;
    for piece in text.split('\\') {
        if is_plain {
            bytes.extend_from_slice(piece.as_bytes())?;
        } else {
            push_escape(&mut bytes, piece.as_bytes())?;
        }
        is_plain = !is_plain && piece.is_empty();
    }
    if is_plain {
        return Err(Trouble::Line("nothing is escaped by the last backslash"));
    }
    Ok(bytes)
}

/// Appends a piece that stands behind a backslash.
fn push_escape(bytes: &mut Vec<u8>, piece: &[u8]) -> Result<(), Trouble> {
    let (byte, rest) = match piece {
        [] => (b'\\', piece),
        [b'n', rest @ ..] => (b'\n', rest),
        [b'r', rest @ ..] => (b'\r', rest),
        [b't', rest @ ..] => (b'\t', rest),
        [b'x', high, low, rest @ ..] => (byte_of(*high, *low)?, rest),
        _ => return Err(UNKNOWN),
    };
    bytes.push(byte).map_err(|_| Trouble::Memory)?;
    bytes.extend_from_slice(rest)?;
    Ok(())
}

const UNKNOWN: Trouble = Trouble::Line("an escape is none of \\n, \\r, \\t, \\\\ and \\xHH");

fn byte_of(high: u8, low: u8) -> Result<u8, Trouble> {
    let (Some(high), Some(low)) = (digit_of(high), digit_of(low)) else {
        return Err(UNKNOWN);
    };
    Ok(high.wrapping_mul(16).wrapping_add(low))
}

fn digit_of(byte: u8) -> Option<u8> {
    match byte {
        b'0'..=b'9' => Some(byte - b'0'),
        b'a'..=b'f' => Some(byte - b'a' + 10),
        _ => None,
    }
}
