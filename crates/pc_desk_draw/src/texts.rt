ghost use Rattle.std.specs.Prelude.{◌≡◌, ◌<◌, ◌≤◌, ◌-◌, ◌*◌, ◌^◌, IfOk, unsigned_abs};
ghost use Rattle.pc_desk_draw.specs.Texts.{alike, answer_text, decimals_needed, lack_text, no_value_text, number_text, range_text, text_with};

use pc_desk_table::{Entry, Range, Said, SaidLack, Value};
use pc_num::{Memory, put_scaled};
use std::alloc::Global;

/// The values of a block, or a word where it has no range.
#[tactic(auto, unfolding(crate::specs::Texts::answer_text))]
pub(crate) fn answer_text(alloc: Global, entry: &Entry) -> Result<Vec<u8>, Memory>
    ensures { IfOk result (λ text. text.items ≡ answer_text entry.now) }
{
    match &entry.range {
        Some(range) => range_text(alloc, range),
        None => Ok(Vec::from_slice(alloc, lack_text(entry.relation, entry.lack))?),
    }
}

// One number where the ends are alike.
#[tactic(auto, unfolding(crate::specs::Texts::range_text))]
fn range_text(alloc: Global, range: &Range) -> Result<Vec<u8>, Memory>
    ensures { IfOk result (λ text. text.items ≡ range_text range.now) }
{
    let mut text = Vec::from_slice(alloc, range.low.value.decimal.as_bytes())?;
    if alike(&range.low.value, &range.high.value) {
        return Ok(text);
    }
    text.extend_from_slice(b" .. ".as_slice())?;
    text.extend_from_slice(range.high.value.decimal.as_bytes())?;
    Ok(text)
}

// Two values that are the same, or are shown as the same.
fn alike(low: &Value, high: &Value) -> bool
    ensures { result ≡ alike low.now high.now }
{
    low.text.as_bytes() == high.text.as_bytes() || low.decimal.as_bytes() == high.decimal.as_bytes()
}

fn lack_text<'x>(relation: Said, lack: Option<SaidLack>) -> &'x [u8]
    ensures { result.now ≡ lack_text relation lack }
{
    match relation {
        Said::Impossible => b"impossible".as_slice(),
        Said::Undecided => b"not found out".as_slice(),
        Said::Possible => no_value_text(lack),
    }
}

fn no_value_text<'x>(lack: Option<SaidLack>) -> &'x [u8]
    ensures { result.now ≡ no_value_text lack }
{
    match lack {
        Some(SaidLack::Undecided) => b"not found out".as_slice(),
        _ => b"no value".as_slice(),
    }
}

/// A number in millionths as a decimal, with no more decimals than it needs.
#[tactic(auto, unfolding(crate::specs::Texts::number_text))]
pub(crate) fn number_text(alloc: Global, number: i128) -> Result<Vec<u8>, Memory>
    requires { unsigned_abs number ≤ 15 * 10 ^ 37 }
    ensures { IfOk result (λ text. text.items ≡ number_text number) }
{
    let size = number.unsigned_abs();
    let decimals = decimals_needed(size);
    text_with(alloc, decimals, number < 0, size)
}

// How many decimals a size in millionths needs.
fn decimals_needed(size: u128) -> u8
    ensures value { result ≡ decimals_needed size }
    ensures few { result ≤ 6 }
{
    if size % 1_000_000 == 0 {
        0
    } else if size % 100_000 == 0 {
        1
    } else if size % 10_000 == 0 {
        2
    } else if size % 1_000 == 0 {
        3
    } else if size % 100 == 0 {
        4
    } else if size % 10 == 0 {
        5
    } else {
        6
    }
}

fn text_with(alloc: Global, decimals: u8, minus: bool, size: u128) -> Result<Vec<u8>, Memory>
    requires few { decimals ≤ 6 }
    requires small { size ≤ 15 * 10 ^ 37 }
    ensures { IfOk result (λ text. text.items ≡ text_with decimals minus size) }
{
    let mut text = Vec::new(alloc);
    let whole = (size / unit_of(decimals)) as i128;
    let number = if minus { -whole } else { whole };
    put_scaled(alloc, &mut text, number, decimals)?;
    Ok(text)
}

// How many millionths the last of so many decimals is worth.
fn unit_of(decimals: u8) -> u128
    requires { decimals ≤ 6 }
    ensures value { result ≡ 10 ^ (6 - decimals) }
    ensures some { 0 < result }
{
    match decimals {
        0 => 1_000_000,
        1 => 100_000,
        2 => 10_000,
        3 => 1_000,
        4 => 100,
        5 => 10,
        _ => 1,
    }
}
