ghost use Rattle.std.specs.Prelude.{◌≡◌, ◌++◌, ◌∷◌, [], IfOk, option_map};
ghost use Rattle.std.specs.List.{flat_map};
ghost use Rattle.pc_desk_table.specs.Remarks.{ends_of, high_decimal, high_remarks, lack_remarks, low_remarks, may_have_value, may_stand, next_remark, range_remarks, relation_remarks, remarks_of, remarks_text};

use crate::entry::{Entry, Mark, Range, Said, SaidLack};
use crate::padding::with_text;
use pc_list::Text;
use pc_num::Memory;
use std::alloc::Global;

/// The range that is shown: none where no rows are possible, or there is no value.
#[tactic(auto, unfolding(crate::specs::Remarks::ends_of))]
pub(crate) fn ends_of(entry: &Entry) -> Option<&Range>
    ensures { option_map (λ range. range.now) result ≡ ends_of entry.now }
{
    if !may_stand(entry.relation) {
        return None;
    }
    if !may_have_value(entry.lack) {
        return None;
    }
    entry.range.as_ref()
}

fn may_stand(relation: Said) -> bool
    ensures { result ≡ may_stand relation }
{
    match relation {
        Said::Possible => true,
        Said::Impossible => false,
        Said::Undecided => true,
    }
}

fn may_have_value(lack: Option<SaidLack>) -> bool
    ensures { result ≡ may_have_value lack }
{
    match lack {
        None => true,
        Some(SaidLack::Never) => true,
        Some(SaidLack::Sometimes) => true,
        Some(SaidLack::Always) => false,
        Some(SaidLack::Undecided) => true,
    }
}

/// The number at the high end, which is that at the low end where both have the same text.
pub(crate) fn high_decimal(range: &Range) -> &str
    ensures { result.now ≡ high_decimal range.now }
{
    if range.low.value.text.as_bytes() == range.high.value.text.as_bytes() {
        return range.low.value.decimal.as_str();
    }
    range.high.value.decimal.as_str()
}

/// Adds the remarks on an entry after two spaces, or nothing where there are none.
pub(crate) fn with_remarks(alloc: Global, line: Vec<u8>, entry: &Entry) -> Result<Vec<u8>, Memory>
    ensures { IfOk result (λ new. new.items ≡ line.items ++ remarks_text (remarks_of entry.now)) }
{
    let remarks = with_relation(alloc, Vec::new(alloc), entry.relation)?;
    let remarks = with_lack(alloc, remarks, entry.lack)?;
    let remarks = with_range(alloc, remarks, entry)?;
    with_joined(line, remarks.as_slice())
}

fn with_relation(alloc: Global, remarks: Vec<Text>, relation: Said) -> Result<Vec<Text>, Memory>
    ensures { IfOk result (λ new. new.items ≡ remarks.items ++ relation_remarks relation) }
{
    match relation {
        Said::Possible => Ok(remarks),
        Said::Impossible => with_remark(
            alloc,
            remarks,
            "impossible: no rows that the constraints allow",
        ),
        Said::Undecided => with_remark(
            alloc,
            remarks,
            "not found out whether any rows are possible",
        ),
    }
}

fn with_lack(alloc: Global, remarks: Vec<Text>, lack: Option<SaidLack>) -> Result<Vec<Text>, Memory>
    ensures { IfOk result (λ new. new.items ≡ remarks.items ++ lack_remarks lack) }
{
    match lack {
        None => Ok(remarks),
        Some(SaidLack::Never) => Ok(remarks),
        Some(SaidLack::Sometimes) => with_remark(alloc, remarks, "may have no value"),
        Some(SaidLack::Always) => with_remark(alloc, remarks, "has no value"),
        Some(SaidLack::Undecided) => with_remark(
            alloc,
            remarks,
            "not found out whether it may have no value",
        ),
    }
}

fn with_range(alloc: Global, remarks: Vec<Text>, entry: &Entry) -> Result<Vec<Text>, Memory>
    ensures { IfOk result (λ new. new.items ≡ remarks.items ++ range_remarks (ends_of entry.now)) }
{
    match ends_of(entry) {
        Some(range) => with_ends(alloc, remarks, range),
        None => Ok(remarks),
    }
}

fn with_ends(alloc: Global, remarks: Vec<Text>, range: &Range) -> Result<Vec<Text>, Memory>
    ensures { IfOk result (λ new. new.items ≡ remarks.items
        ++ (low_remarks range.now.low.mark range.now.low.value.decimal
        ++ high_remarks range.now.high.mark (high_decimal range.now))) }
{
    let remarks = with_low(
        alloc,
        remarks,
        range.low.mark,
        range.low.value.decimal.as_str(),
    )?;
    with_high(alloc, remarks, range.high.mark, high_decimal(range))
}

fn with_low(alloc: Global, remarks: Vec<Text>, mark: Mark, low: &str) -> Result<Vec<Text>, Memory>
    ensures { IfOk result (λ new. new.items ≡ remarks.items ++ low_remarks mark low.now) }
{
    match mark {
        Mark::Exact => Ok(remarks),
        Mark::Outer => with_number(alloc, remarks, "not found out below ", low),
    }
}

fn with_high(alloc: Global, remarks: Vec<Text>, mark: Mark, high: &str) -> Result<Vec<Text>, Memory>
    ensures { IfOk result (λ new. new.items ≡ remarks.items ++ high_remarks mark high.now) }
{
    match mark {
        Mark::Exact => Ok(remarks),
        Mark::Outer => with_number(alloc, remarks, "not found out beyond ", high),
    }
}

fn with_number(
    alloc: Global,
    remarks: Vec<Text>,
    words: &str,
    number: &str,
) -> Result<Vec<Text>, Memory>
    ensures { IfOk result (λ new. new.items ≡ remarks.items ++ (words.now ++ number.now) ∷ []) }
{
    let mut text = String::from_str(alloc, words)?;
    text.push_str(number)?;
    let mut remarks = remarks;
    remarks.push(Text::from_string(text))?;
    Ok(remarks)
}

fn with_remark(alloc: Global, remarks: Vec<Text>, remark: &str) -> Result<Vec<Text>, Memory>
    ensures { IfOk result (λ new. new.items ≡ remarks.items ++ remark.now ∷ []) }
{
    let mut remarks = remarks;
    let text = Text::from_text(alloc, remark)?;
    remarks.push(text)?;
    Ok(remarks)
}

fn with_joined(line: Vec<u8>, remarks: &[Text]) -> Result<Vec<u8>, Memory>
    ensures { IfOk result (λ new. new.items ≡ line.items ++ remarks_text remarks.now) }
{
    match remarks {
        [first, rest @ ..] => {
            let line = with_text(line, "  ")?;
            let line = with_text(line, first.as_str())?;
            with_others(line, rest)
        }
        [] => Ok(line),
    }
}

#[tactic(auto, using(std::proofs::lemmas::List::flat_map_more))]
fn with_others(line: Vec<u8>, remarks: &[Text]) -> Result<Vec<u8>, Memory>
    ensures { IfOk result (λ new. new.items ≡ line.items ++ flat_map next_remark remarks.now) }
{
    let mut line = line;
    for remark in remarks {
        line = with_text(line, "; ")?;
        line = with_text(line, remark.as_str())?;
    }
    Ok(line)
}
