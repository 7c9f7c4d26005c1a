ghost use Rattle.std.specs.Prelude.{◌≡◌, ◌++◌, flat_map, IfOk, OnOk};
ghost use Rattle.pc_desk_sql.specs.Texts.{listed, marked_byte, part_byte, quoted, surrounded, table_text, with_before};

use pc_list::Seq;
use pc_num::Memory;
use std::alloc::Global;

/// The mark of a string.
pub(crate) const STRING: u8 = 39;

/// The mark of the name of a column or a table.
pub(crate) const NAME: u8 = 34;

/// A text between two marks, with each such mark in it twice.
#[tactic(auto, unfolding(crate::specs::Texts::quoted))]
pub(crate) fn quoted(alloc: Global, mark: u8, text: &[u8]) -> Result<Seq<u8>, Memory>
    ensures { IfOk result (λ out. out ≡ quoted mark text.now) }
{
    let mut out = Vec::new(alloc);
    out.push(mark)?;
    let inner = marked(alloc, mark, text)?;
    out.extend_from_slice(inner.as_slice())?;
    out.push(mark)?;
    Ok(Seq::from_vec(out))
}

#[tactic(auto, using(std::proofs::lemmas::List::flat_map_more))]
fn marked(alloc: Global, mark: u8, text: &[u8]) -> Result<Vec<u8>, Memory>
    ensures { IfOk result (λ out. out.items ≡ flat_map (marked_byte mark) text.now) }
{
    let mut out = Vec::new(alloc);
    for byte in text {
        put_byte(&mut out, mark, *byte)?;
    }
    Ok(out)
}

#[tactic(auto, unfolding(crate::specs::Texts::marked_byte))]
fn put_byte(out: &mut Vec<u8>, mark: u8, byte: u8) -> Result<(), Memory>
    ensures { OnOk result (out.new.items ≡ out.old.items ++ marked_byte mark byte) }
{
    if byte == mark {
        out.extend_from_slice(&[mark, mark])?;
        return Ok(());
    }
    out.push(byte)?;
    Ok(())
}

/// A text between two others.
#[tactic(auto, unfolding(crate::specs::Texts::surrounded))]
pub(crate) fn surrounded(
    alloc: Global,
    before: &str,
    text: &[u8],
    after: &[u8],
) -> Result<Seq<u8>, Memory>
    ensures { IfOk result (λ out. out ≡ surrounded before.now text.now after.now) }
{
    let mut out = Vec::from_slice(alloc, before.as_bytes())?;
    out.extend_from_slice(text)?;
    out.extend_from_slice(after)?;
    Ok(Seq::from_vec(out))
}

/// Texts with another between each two, or one text for none.
#[tactic(auto, unfolding(crate::specs::Texts::listed))]
pub(crate) fn listed(
    alloc: Global,
    none: &str,
    between: &str,
    texts: &[Seq<u8>],
) -> Result<Seq<u8>, Memory>
    ensures { IfOk result (λ out. out ≡ listed none.now between.now texts.now) }
{
    let [first, others @ ..] = texts else {
        return Ok(Seq::from_slice(alloc, none.as_bytes())?);
    };
    let mut out = Vec::from_slice(alloc, first.as_slice())?;
    let later = with_each(alloc, between, others)?;
    out.extend_from_slice(later.as_slice())?;
    Ok(Seq::from_vec(out))
}

/// The texts, each with another before it.
#[tactic(auto, using(std::proofs::lemmas::List::flat_map_more))]
pub(crate) fn with_each(alloc: Global, between: &str, texts: &[Seq<u8>]) -> Result<Vec<u8>, Memory>
    ensures { IfOk result (λ out. out.items ≡ flat_map (with_before between.now) texts.now) }
{
    let mut out = Vec::new(alloc);
    for text in texts {
        put_with(&mut out, between, text.as_slice())?;
    }
    Ok(out)
}

#[tactic(auto, unfolding(crate::specs::Texts::with_before))]
fn put_with(out: &mut Vec<u8>, before: &str, text: &[u8]) -> Result<(), Memory>
    ensures { OnOk result (out.new.items ≡ out.old.items ++ with_before before.now text.now) }
{
    out.extend_from_slice(before.as_bytes())?;
    out.extend_from_slice(text)?;
    Ok(())
}

/// The name of a table, whose parts between points are quoted each.
#[tactic(auto, unfolding(crate::specs::Texts::table_text))]
pub(crate) fn table_text(alloc: Global, table: &[u8]) -> Result<Seq<u8>, Memory>
    ensures { IfOk result (λ out. out ≡ table_text table.now) }
{
    let inner = parts(alloc, table)?;
    surrounded(alloc, "\"", inner.as_slice(), b"\"")
}

#[tactic(auto, using(std::proofs::lemmas::List::flat_map_more))]
fn parts(alloc: Global, table: &[u8]) -> Result<Vec<u8>, Memory>
    ensures { IfOk result (λ out. out.items ≡ flat_map part_byte table.now) }
{
    let mut out = Vec::new(alloc);
    for byte in table {
        put_part_byte(&mut out, *byte)?;
    }
    Ok(out)
}

#[tactic(auto, unfolding(crate::specs::Texts::part_byte))]
fn put_part_byte(out: &mut Vec<u8>, byte: u8) -> Result<(), Memory>
    ensures { OnOk result (out.new.items ≡ out.old.items ++ part_byte byte) }
{
    if byte == b'.' {
        out.extend_from_slice(b"\".\"")?;
        return Ok(());
    }
    put_byte(out, NAME, byte)
}
