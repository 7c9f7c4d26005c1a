ghost use Rattle.std.specs.Prelude.{◌≡◌, ◌∷◌, ◌++◌, [], codes, decimal, flat_map, string_bytes, IfOk};
ghost use Rattle.std.specs.List.{concat};
ghost use Rattle.pc_desk_schema.specs.Texts.{column_text, dates_text, empty_text, fault_text, further_line, further_text, header_line, left_text, many_text, odd_text, record_front, record_text, remark_line, remark_lines, said_text, share_text, zero_text};

use crate::draft::Draft;
use crate::numbers::is_past_limit;
use crate::said::{Odd, Remark, Said};
use pc_desk_records::shown;
use pc_list::Seq;
use pc_num::Memory;
use std::alloc::{AllocError, Global};

/// The lines that are told of a draft, none where nothing is to be said.
#[tactic(auto, unfolding(crate::specs::Texts::remark_lines))]
pub fn remark_lines(alloc: Global, draft: &Draft) -> Result<Vec<u8>, Memory>
    ensures { IfOk result (λ text. text.items ≡ remark_lines draft.now) }
{
    let header = header_line(alloc, &draft.header)?;
    let remarks = all_lines(alloc, draft.remarks.as_slice())?;
    let further = further_line(alloc, draft.further)?;
    joined(
        alloc,
        header.as_slice(),
        remarks.as_slice(),
        further.as_slice(),
    )
}

fn joined(alloc: Global, first: &[u8], second: &[u8], third: &[u8]) -> Result<Vec<u8>, Memory>
    ensures { IfOk result (λ text. text.items ≡ (first.now ++ second.now) ++ third.now) }
{
    let mut text = Vec::from_slice(alloc, first)?;
    text.extend_from_slice(second)?;
    text.extend_from_slice(third)?;
    Ok(text)
}

fn paired(alloc: Global, first: &[u8], second: &[u8]) -> Result<Vec<u8>, Memory>
    ensures { IfOk result (λ text. text.items ≡ first.now ++ second.now) }
{
    let mut text = Vec::from_slice(alloc, first)?;
    text.extend_from_slice(second)?;
    Ok(text)
}

fn header_line(alloc: Global, header: &Option<Seq<u8>>) -> Result<Vec<u8>, Memory>
    ensures { IfOk result (λ text. text.items ≡ header_line header.now) }
{
    match header {
        Some(text) => {
            let text = shown(alloc, text.as_slice())?;
            joined(
                alloc,
                b"the header has no comma: one column \"",
                text.as_slice(),
                b"\"\n",
            )
        }
        None => Ok(Vec::new(alloc)),
    }
}

fn further_line(alloc: Global, further: usize) -> Result<Vec<u8>, Memory>
    ensures { IfOk result (λ text. text.items ≡ further_line further) }
{
    if further == 0 {
        return Ok(Vec::new(alloc));
    }
    let text = further_text(alloc, further)?;
    paired(alloc, text.as_bytes(), b"\n")
}

fn further_text(alloc: Global, further: usize) -> Result<String, AllocError>
    ensures { IfOk result (λ text. string_bytes text ≡ further_text further) }
{
    if further == 1 {
        return String::from_str(
            alloc,
            "1 more column fits: a schema has at most 12, and those that are wanted may be named",
        );
    }
    many_text(alloc, further)
}

fn many_text(alloc: Global, further: usize) -> Result<String, AllocError>
    ensures { IfOk result (λ text. string_bytes text ≡ many_text further) }
{
    format!(in alloc;
        "{further} more columns fit: a schema has at most 12, and those that are wanted may be named"
    )
}

#[tactic(auto, using(std::proofs::lemmas::List::flat_map_more))]
fn all_lines(alloc: Global, remarks: &[Remark]) -> Result<Vec<u8>, Memory>
    ensures { IfOk result (λ text. text.items ≡ flat_map remark_line remarks.now) }
{
    let mut text = Vec::new(alloc);
    for remark in remarks {
        let line = remark_line(alloc, remark)?;
        text.extend_from_slice(line.as_slice())?;
    }
    Ok(text)
}

#[tactic(auto, unfolding(crate::specs::Texts::remark_line))]
fn remark_line(alloc: Global, remark: &Remark) -> Result<Vec<u8>, Memory>
    ensures { IfOk result (λ text. text.items ≡ remark_line remark.now) }
{
    let column = column_text(alloc, &remark.said, remark.number, remark.name.as_slice())?;
    let said = said_text(alloc, &remark.said)?;
    joined(alloc, column.as_slice(), said.as_slice(), b"\n")
}

fn column_text(alloc: Global, said: &Said, number: u64, name: &[u8]) -> Result<Vec<u8>, Memory>
    ensures { IfOk result (λ text. text.items ≡ column_text said.now number name.now) }
{
    match said {
        Said::BadName => Ok(number_text(alloc, number)?.into_bytes()),
        _ => shown(alloc, name),
    }
}

fn number_text(alloc: Global, number: u64) -> Result<String, AllocError>
    ensures { IfOk result (λ text. string_bytes text ≡ concat (codes "column " ∷ decimal number ∷ [])) }
{
    format!(in alloc; "column {number}")
}

fn said_text(alloc: Global, said: &Said) -> Result<Vec<u8>, Memory>
    ensures { IfOk result (λ text. text.items ≡ said_text said.now) }
{
    match said {
        Said::Zero(odd) => zero_text(alloc, odd),
        _ => after_column(alloc, said),
    }
}

fn after_column(alloc: Global, said: &Said) -> Result<Vec<u8>, Memory>
    ensures { IfOk result (λ text. text.items ≡ codes " is left out: " ++ left_text said.now) }
{
    let why = left_text(alloc, said)?;
    paired(alloc, b" is left out: ", why.as_slice())
}

fn zero_text(alloc: Global, odd: &Odd) -> Result<Vec<u8>, Memory>
    ensures { IfOk result (λ text. text.items ≡ zero_text odd.now) }
{
    let field = record_text(alloc, odd)?;
    joined(
        alloc,
        b": ",
        field.as_slice(),
        b" begins with 0, which a number loses",
    )
}

fn left_text(alloc: Global, said: &Said) -> Result<Vec<u8>, Memory>
    ensures { IfOk result (λ text. text.items ≡ left_text said.now) }
{
    match said {
        Said::BadName => Ok(Vec::from_slice(alloc, b"the field of the header is no name")?),
        Said::Repeated => Ok(Vec::from_slice(alloc, b"the name stands twice")?),
        Said::NoRows => Ok(Vec::from_slice(alloc, b"there are no rows")?),
        Said::TooWide(odd) => odd_text(alloc, odd, b" is too large for the decimals of the others"),
        Said::Numbers(count, fields, odd) => numbers_text(alloc, *count, *fields, odd),
        Said::Dates(count, fields) => Ok(dates_text(alloc, *count, *fields)?.into_bytes()),
        Said::ManyNames(odd) => names_text(alloc, odd),
        Said::NoName(odd) => odd_text(alloc, odd, b" is no name"),
        Said::Zero(_) => Ok(Vec::new(alloc)),
    }
}

fn names_text(alloc: Global, odd: &Odd) -> Result<Vec<u8>, Memory>
    ensures { IfOk result (λ text. text.items ≡ codes "more than 128 names, the first past them at " ++ record_text odd.now) }
{
    let field = record_text(alloc, odd)?;
    paired(
        alloc,
        b"more than 128 names, the first past them at ",
        field.as_slice(),
    )
}

fn numbers_text(alloc: Global, count: u64, fields: u64, odd: &Odd) -> Result<Vec<u8>, Memory>
    ensures { IfOk result (λ text. text.items ≡ share_text count fields ++ odd_text odd.now (codes " is not")) }
{
    let share = share_text(alloc, count, fields)?;
    let field = odd_text(alloc, odd, b" is not")?;
    paired(alloc, share.as_bytes(), field.as_slice())
}

fn share_text(alloc: Global, count: u64, fields: u64) -> Result<String, AllocError>
    ensures { IfOk result (λ text. string_bytes text ≡ share_text count fields) }
{
    format!(in alloc; "{count} of {fields} fields are numbers; ")
}

fn dates_text(alloc: Global, count: u64, fields: u64) -> Result<String, AllocError>
    ensures { IfOk result (λ text. string_bytes text ≡ dates_text count fields) }
{
    format!(in alloc;
        "{count} of {fields} fields are dates; `pc` reads whole numbers, decimals and names"
    )
}

#[tactic(auto, unfolding(crate::specs::Texts::odd_text))]
fn odd_text(alloc: Global, odd: &Odd, fault: &[u8]) -> Result<Vec<u8>, Memory>
    ensures { IfOk result (λ text. text.items ≡ odd_text odd.now fault.now) }
{
    if odd.text.is_empty() {
        return Ok(empty_text(alloc, odd.number)?.into_bytes());
    }
    let field = record_text(alloc, odd)?;
    paired(
        alloc,
        field.as_slice(),
        fault_text(odd.text.as_slice(), fault),
    )
}

fn fault_text<'a>(text: &[u8], fault: &'a [u8]) -> &'a [u8]
    ensures { result.now ≡ fault_text text.now fault.now }
{
    if is_past_limit(text) {
        return b" is a number past what is read".as_slice();
    }
    fault
}

fn empty_text(alloc: Global, number: u64) -> Result<String, AllocError>
    ensures { IfOk result (λ text. string_bytes text ≡ empty_text number) }
{
    format!(in alloc; "record {number} is empty")
}

#[tactic(auto, unfolding(crate::specs::Texts::record_text))]
fn record_text(alloc: Global, odd: &Odd) -> Result<Vec<u8>, Memory>
    ensures { IfOk result (λ text. text.items ≡ record_text odd.now) }
{
    let front = record_front(alloc, odd.number)?;
    let text = shown(alloc, odd.text.as_slice())?;
    joined(alloc, front.as_bytes(), text.as_slice(), b"\"")
}

fn record_front(alloc: Global, number: u64) -> Result<String, AllocError>
    ensures { IfOk result (λ text. string_bytes text ≡ record_front number) }
{
    format!(in alloc; "record {number} \"")
}
