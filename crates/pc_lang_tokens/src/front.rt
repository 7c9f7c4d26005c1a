ghost use Rattle.std.specs.Prelude.{◌≡◌, IfOk};
ghost use Rattle.pc_lang_tokens.specs.Front.{ends_with_quote, name_written, quoted_name, IsLongestFront};

use crate::lexer::{copy_name, copy_word, quoted_from};
use crate::word::is_bare;
use pc_list::Text;
use pc_model::is_name;
use pc_num::Memory;
use std::alloc::{AllocError, Global};

// The most bytes that are written for a name: 64 quotes, each twice, between quotes.
const LONGEST_WRITTEN: usize = 130;

/// The longest front of the bytes that `put_name` appends for some name, as that name and the length of the front.
#[tactic(auto, using(crate::proofs::Fronts::steps))]
pub fn front_name(alloc: Global, bytes: &[u8]) -> Result<Option<(Text, usize)>, Memory>
    ensures { IfOk result (IsLongestFront bytes.now) }
{
    let mut len = bytes.len().min(LONGEST_WRITTEN);
    while 0 < len {
        if let Some(name) = name_written(alloc, &bytes[..len])? {
            return Ok(Some((name, len)));
        }
        len -= 1;
    }
    Ok(None)
}

// The name that is written so.
#[tactic(auto, using(crate::proofs::Words::bare_is_word), unfolding(crate::specs::Front::name_written))]
fn name_written(alloc: Global, text: &[u8]) -> Result<Option<Text>, AllocError>
    ensures { IfOk result (λ found. found ≡ name_written text.now) }
{
    if is_bare(text) {
        return Ok(Some(copy_word(alloc, text)?));
    }
    let [b'"', rest @ ..] = text else {
        return Ok(None);
    };
    quoted_name(alloc, rest)
}

// The name whose text in quotes is a quote and this.
#[tactic(auto, unfolding(crate::specs::Front::quoted_name))]
fn quoted_name(alloc: Global, rest: &[u8]) -> Result<Option<Text>, AllocError>
    ensures { IfOk result (λ found. found ≡ quoted_name rest.now) }
{
    if !ends_with_quote(rest) {
        return Ok(None);
    }
    let Some((name, len)) = quoted_from(alloc, rest)? else {
        return Ok(None);
    };
    if len != rest.len() + 1 {
        return Ok(None);
    }
    if !is_name(name.as_slice()) {
        return Ok(None);
    }
    if is_bare(name.as_slice()) {
        return Ok(None);
    }
    Ok(Some(copy_name(alloc, name.as_slice())?))
}

fn ends_with_quote(text: &[u8]) -> bool
    ensures { result ≡ ends_with_quote text.now }
{
    match text {
        [.., last] => *last == b'"',
        [] => false,
    }
}
