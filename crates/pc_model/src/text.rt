ghost use Rattle.std.specs.Prelude.{◌≡◌, ◌↔◌, Ok, Err, IsTrue, MatchResult};
ghost use Rattle.std.specs.List.{list_all};
ghost use Rattle.std.specs.Str.{is_utf8};
ghost use Rattle.pc_model.specs.Texts.{without_mark, text_of, is_name_byte, is_name, IsName};

use crate::fault::Reason;
use std::str;

/// The greatest length of a schema, row or constraint file, in bytes.
pub const FILE_LIMIT: usize = 67_108_864;

const LONGEST_NAME: usize = 64;

/// The text of a schema, row or constraint file, without a byte order mark at its start.
#[tactic(auto, unfolding(crate::specs::Texts::text_of))]
pub fn text_of(bytes: &[u8]) -> Result<&[u8], Reason>
    ensures { MatchResult result (λ text. text_of bytes.now ≡ Ok text.now) (λ reason. text_of bytes.now ≡ Err reason) }
{
    if bytes.len() > FILE_LIMIT {
        return Err(Reason::TooLong);
    }
    if !is_text(bytes) {
        return Err(Reason::NotUtf8);
    }
    Ok(without_mark(bytes))
}

#[tactic(auto, using(crate::proofs::Utf8::tests))]
fn is_text(bytes: &[u8]) -> bool
    ensures { result ≡ is_utf8 bytes.now }
{
    str::from_utf8(bytes).is_ok()
}

#[tactic(auto, unfolding(crate::specs::Texts::without_mark))]
fn without_mark(bytes: &[u8]) -> &[u8]
    ensures { result.now ≡ without_mark bytes.now }
{
    match bytes {
        [239, 187, 191, rest @ ..] => rest,
        _ => bytes,
    }
}

/// Whether a text may be the name of a column, of one of its values or of a constraint.
#[tactic(auto, using(crate::proofs::Names::means), unfolding(crate::specs::Texts::is_name))]
pub fn is_name(text: &[u8]) -> bool
    ensures exact { result ≡ is_name text.now }
    ensures means { IsTrue result ↔ IsName text.now }
{
    is_text(text) && !text.is_empty() && text.len() <= LONGEST_NAME && has_name_bytes_only(text)
}

fn has_name_bytes_only(text: &[u8]) -> bool
    ensures { result ≡ list_all is_name_byte text.now }
{
    text.iter().all(|byte| is_name_byte(*byte))
}

// Control characters stand in no name.
fn is_name_byte(byte: u8) -> bool
    ensures { result ≡ is_name_byte byte }
{
    32 <= byte && byte != 127
}
