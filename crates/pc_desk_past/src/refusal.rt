//! Why there are no constraints from history.
ghost use Rattle.std.specs.Prelude.{◌≡◌, ◌++◌, IfOk, codes};
ghost use Rattle.pc_desk_records.specs.Shown.{choice_text};
ghost use Rattle.pc_desk_words.specs.Calls.{history_names};
ghost use Rattle.pc_desk_past.specs.Texts.{advice_of, by_advice, by_title, called_in, columns_text, line_of, refusal_lines, title_of};

use crate::fault::PastFault;
use crate::text::titled;
use pc_desk_divide::DivisionFault;
use pc_desk_records::choice_text;
use pc_desk_words::History;
use pc_list::Seq;
use pc_model::{Column, Schema};
use pc_num::Memory;
use std::alloc::Global;

/// The lines of a refusal: what is wrong, and what may stand there.
pub fn refusal_lines(
    alloc: Global,
    schema: &Schema,
    wish: &History,
    fault: &PastFault,
) -> Result<Seq<u8>, Memory>
    ensures { IfOk result (λ text. text ≡ refusal_lines schema.now (history_names wish.now) fault.now) }
{
    let title = title_of(alloc, fault)?;
    let advice = advice_of(alloc, schema, wish, fault)?;
    let mut text = line_of(alloc, b"words refused: ", title.as_slice())?;
    let below = line_of(alloc, b"  ", advice.as_slice())?;
    text.extend_from_slice(below.as_slice())?;
    Ok(Seq::from_vec(text))
}

#[tactic(auto, unfolding(crate::specs::Texts::line_of))]
fn line_of(alloc: Global, before: &[u8], text: &[u8]) -> Result<Vec<u8>, Memory>
    ensures { IfOk result (λ line. line.items ≡ line_of before.now text.now) }
{
    let mut line = Vec::from_slice(alloc, before)?;
    line.extend_from_slice(text)?;
    line.extend_from_slice(b"\n")?;
    Ok(line)
}

fn title_of(alloc: Global, fault: &PastFault) -> Result<Vec<u8>, Memory>
    ensures { IfOk result (λ text. text.items ≡ title_of fault.now) }
{
    match fault {
        PastFault::Grouped => plain(alloc, b"--where: a predicate with `group` behind it"),
        PastFault::By(fault) => by_title(alloc, fault),
        PastFault::NoPeriod(name) => {
            titled(alloc, b"--per: no column is called ", name.as_slice())
        }
        PastFault::TooMany(count) => { Ok(format!(in alloc; "--by: {count} cells")?.into_bytes()) }
        PastFault::NoRows => plain(alloc, b"no row is meant"),
    }
}

fn by_title(alloc: Global, fault: &DivisionFault) -> Result<Vec<u8>, Memory>
    ensures { IfOk result (λ text. text.items ≡ by_title fault.now) }
{
    match fault {
        DivisionFault::Empty => plain(alloc, b"--by: a column is missing"),
        DivisionFault::NoColumn(text) => {
            titled(alloc, b"--by: no column is called ", text.as_slice())
        }
        DivisionFault::Twice(text) => {
            titled(
                alloc,
                b"--by: a column stands there twice: ",
                text.as_slice(),
            )
        }
        DivisionFault::NoParts(text) => {
            titled(
                alloc,
                b"--by: a column of numbers without parts: ",
                text.as_slice(),
            )
        }
        DivisionFault::WrongParts(text) => {
            titled(
                alloc,
                b"--by: no number of parts from 1 to 20: ",
                text.as_slice(),
            )
        }
        DivisionFault::NamesWithParts(text) => {
            titled(
                alloc,
                b"--by: parts of a column of names: ",
                text.as_slice(),
            )
        }
        DivisionFault::Memory => Ok(Vec::new(alloc)),
    }
}

fn plain(alloc: Global, text: &[u8]) -> Result<Vec<u8>, Memory>
    ensures { IfOk result (λ out. out.items ≡ text.now) }
{
    Ok(Vec::from_slice(alloc, text)?)
}

fn advice_of(
    alloc: Global,
    schema: &Schema,
    wish: &History,
    fault: &PastFault,
) -> Result<Vec<u8>, Memory>
    ensures { IfOk result (λ text. text.items ≡ advice_of schema.now (history_names wish.now) fault.now) }
{
    match fault {
        PastFault::Grouped => plain(alloc, b"--by says by which columns the rows are divided"),
        PastFault::By(fault) => by_advice(alloc, schema, wish, fault),
        PastFault::NoPeriod(name) => columns_text(alloc, schema, wish, name.as_slice()),
        PastFault::TooMany(_) => plain(
            alloc,
            b"a file of constraints has at most 20 lines, and each cell is one",
        ),
        PastFault::NoRows => no_rows(alloc, wish),
    }
}

fn no_rows(alloc: Global, wish: &History) -> Result<Vec<u8>, Memory>
    ensures { IfOk result (λ text. text.items ≡ (history_names wish.now).files.rows ++ codes ": constraints from no row would say that nothing can be lost") }
{
    let mut text = Vec::from_slice(alloc, wish.rows.as_bytes())?;
    text.extend_from_slice(b": constraints from no row would say that nothing can be lost")?;
    Ok(text)
}

fn by_advice(
    alloc: Global,
    schema: &Schema,
    wish: &History,
    fault: &DivisionFault,
) -> Result<Vec<u8>, Memory>
    ensures { IfOk result (λ text. text.items ≡ by_advice schema.now (history_names wish.now) fault.now) }
{
    match fault {
        DivisionFault::Empty => plain(
            alloc,
            b"COLUMN for one of names, COLUMN/PARTS for one of numbers, with commas between",
        ),
        DivisionFault::NoColumn(text) => columns_text(alloc, schema, wish, text.as_slice()),
        DivisionFault::Twice(_) => plain(alloc, b"each column divides the rows once"),
        DivisionFault::NoParts(_) | DivisionFault::WrongParts(_) => plain(
            alloc,
            b"COLUMN/PARTS, which cuts its numbers into so many ranges, from 1 to 20",
        ),
        DivisionFault::NamesWithParts(_) => {
            plain(alloc, b"COLUMN alone: each of its names is a part")
        }
        DivisionFault::Memory => Ok(Vec::new(alloc)),
    }
}

// The columns of a schema, and which is nearest to a name.
#[tactic(auto, unfolding(crate::specs::Texts::columns_text))]
fn columns_text(
    alloc: Global,
    schema: &Schema,
    wish: &History,
    name: &[u8],
) -> Result<Vec<u8>, Memory>
    ensures { IfOk result (λ text. text.items ≡ columns_text schema.now (history_names wish.now) name.now) }
{
    let choice = choice_of(alloc, schema, name)?;
    let mut text = Vec::from_slice(alloc, wish.schema.as_bytes())?;
    text.extend_from_slice(b": the schema has ")?;
    text.extend_from_slice(choice.as_slice())?;
    Ok(text)
}

fn choice_of(alloc: Global, schema: &Schema, name: &[u8]) -> Result<Vec<u8>, Memory>
    ensures { IfOk result (λ text. text.items ≡ choice_text (codes " columns") name.now (called_in schema.now.columns)) }
{
    let names = called_in(alloc, schema.columns.as_slice())?;
    choice_text(alloc, b" columns".as_slice(), name, names.as_slice())
}

#[tactic(auto, using(std::proofs::lemmas::List::map_more))]
fn called_in(alloc: Global, columns: &[Column]) -> Result<Seq<Seq<u8>>, Memory>
    ensures { IfOk result (λ names. names ≡ called_in columns.now) }
{
    let mut names = Seq::new(alloc);
    for column in columns {
        names.push(Seq::from_slice(alloc, column.name.as_bytes())?)?;
    }
    Ok(names)
}
