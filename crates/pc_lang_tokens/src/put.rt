ghost use Rattle.std.specs.Prelude.{◌≡◌, ◌++◌, IfOk, OnErr, OnOk};
ghost use Rattle.pc_lang_tokens.specs.Spelling.{byte_text, doubled, name_text};

use crate::word::is_bare;
use pc_num::Memory;
use std::alloc::Global;

/// Appends a name as it is written in the language: itself where it is bare, else between quotes, with each quote
/// in it twice.
pub fn put_name(alloc: Global, out: &mut Vec<u8>, name: &str) -> Result<(), Memory>
    ensures ok { OnOk result (out.new.items ≡ out.old.items ++ name_text name.now) }
    ensures err { OnErr result (out.new.items ≡ out.old.items) }
{
    let text = text_of(alloc, name.as_bytes())?;
    out.extend_from_slice(text.as_slice())?;
    Ok(())
}

#[tactic(auto, unfolding(crate::specs::Spelling::name_text))]
fn text_of(alloc: Global, name: &[u8]) -> Result<Vec<u8>, Memory>
    ensures { IfOk result (λ text. text.items ≡ name_text name.now) }
{
    let mut text = Vec::new(alloc);
    if is_bare(name) {
        text.extend_from_slice(name)?;
        return Ok(text);
    }
    text.push(b'"')?;
    put_doubled(&mut text, name)?;
    text.push(b'"')?;
    Ok(text)
}

// Appends each byte of a name, and each quote twice.
#[tactic(auto, using(crate::proofs::Doubling::doubled_steps))]
fn put_doubled(out: &mut Vec<u8>, name: &[u8]) -> Result<(), Memory>
    ensures { OnOk result (out.new.items ≡ out.old.items ++ doubled name.now) }
{
    for byte in name {
        put_byte(out, *byte)?;
    }
    Ok(())
}

#[tactic(auto, unfolding(crate::specs::Spelling::byte_text))]
fn put_byte(out: &mut Vec<u8>, byte: u8) -> Result<(), Memory>
    ensures { OnOk result (out.new.items ≡ out.old.items ++ byte_text byte) }
{
    if byte == b'"' {
        out.extend_from_slice(b"\"\"")?;
        return Ok(());
    }
    out.push(byte)?;
    Ok(())
}
