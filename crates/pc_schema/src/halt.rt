ghost use Rattle.std.specs.Prelude.{◌≡◌, ◌≤◌, ◌+◌, ◌<◌, ◌^◌, [], length, drop, IfOk};
ghost use Rattle.csv.specs.Records.{fields_of};
ghost use Rattle.pc_schema.specs.Told.{at_field, behind_scale, cat_halt, column_halt, dec_halt, halt_field, int_halt, kind_halt, names_halt, reason_of, span_halt};

use crate::column::{MOST_COLUMNS, is_taken};
use crate::kind::{FEWEST_FIELDS, MOST_FIELDS, is_among, read_name, read_scale, read_span};
use csv::ByteRecord;
use pc_list::Seq;
use pc_model::{Column, ReadStop, Reason, read_number};
use pc_num::Memory;
use pc_records::field;
use std::alloc::Global;

/// What the reader of a schema file stops at.
#[derive(Clone, Copy, Debug, PartialEq, Eq)]
pub enum Halt {
    /// A record after those of as many columns as there may be.
    Room,
    /// A record of so many fields.
    Count {
        fields: usize,
        reason: Reason,
    },
    /// The field at a place of the record.
    Field {
        place: usize,
        wanted: Wanted,
        reason: Reason,
    },
}

/// What is to stand in a field.
#[derive(Clone, Copy, Debug, PartialEq, Eq)]
pub enum Wanted {
    Name,
    Kind,
    Scale,
    Number { scale: u8 },
}

impl Halt {
    /// The reason for which the file is refused.
    pub fn reason(self) -> Reason
        ensures { result ≡ reason_of self }
    {
        match self {
            Halt::Room => Reason::TooMany,
            Halt::Count { reason, .. } => reason,
            Halt::Field { reason, .. } => reason,
        }
    }
}

/// What keeps a record from giving a column, after those of the records before it.
#[tactic(auto, unfolding(crate::specs::Told::column_halt))]
pub(crate) fn column_halt(
    alloc: Global,
    before: &[Column],
    row: &ByteRecord,
) -> Result<Option<Halt>, Memory>
    ensures { IfOk result (λ halt. halt ≡ column_halt before.now (fields_of row.now)) }
{
    if MOST_COLUMNS <= before.len() {
        return Ok(Some(Halt::Room));
    }
    let text = field(row, 0);
    match read_name(alloc, text, is_taken(before, text)) {
        Ok(_) => kind_halt(alloc, row),
        Err(ReadStop::Reason(reason)) => Ok(Some(Halt::Field {
            place: 0,
            wanted: Wanted::Name,
            reason,
        })),
        Err(ReadStop::Memory) => Err(Memory),
    }
}

#[tactic(auto, unfolding(crate::specs::Told::kind_halt))]
fn kind_halt(alloc: Global, row: &ByteRecord) -> Result<Option<Halt>, Memory>
    ensures { IfOk result (λ halt. halt ≡ kind_halt (fields_of row.now)) }
{
    let word = field(row, 1);
    if word == b"int".as_slice() {
        return Ok(int_halt(row));
    }
    if word == b"dec".as_slice() {
        return Ok(dec_halt(row));
    }
    if word == b"cat".as_slice() {
        return cat_halt(alloc, row);
    }
    Ok(Some(Halt::Field {
        place: 1,
        wanted: Wanted::Kind,
        reason: Reason::BadKind,
    }))
}

#[tactic(auto, unfolding(crate::specs::Told::int_halt))]
fn int_halt(row: &ByteRecord) -> Option<Halt>
    ensures { result ≡ int_halt (fields_of row.now) }
{
    if row.len() != 4 {
        return Some(Halt::Count {
            fields: row.len(),
            reason: Reason::FieldCount,
        });
    }
    span_halt(0, 2, row)
}

#[tactic(auto, unfolding(crate::specs::Told::dec_halt))]
fn dec_halt(row: &ByteRecord) -> Option<Halt>
    ensures { result ≡ dec_halt (fields_of row.now) }
{
    if row.len() != 5 {
        return Some(Halt::Count {
            fields: row.len(),
            reason: Reason::FieldCount,
        });
    }
    match read_scale(field(row, 2)) {
        Ok(scale) => span_halt(scale, 3, row),
        Err(reason) => Some(Halt::Field {
            place: 2,
            wanted: Wanted::Scale,
            reason,
        }),
    }
}

// The low at a place, and the high behind it.
#[tactic(auto, unfolding(crate::specs::Told::span_halt))]
fn span_halt(scale: u8, place: usize, row: &ByteRecord) -> Option<Halt>
    requires { place + 1 < 2 ^ 64 }
    ensures { result ≡ span_halt scale place (fields_of row.now) }
{
    let wanted = Wanted::Number { scale };
    if let Err(reason) = read_number(field(row, place), scale) {
        return Some(Halt::Field {
            place,
            wanted,
            reason,
        });
    }
    match read_span(scale, field(row, place), field(row, place + 1)) {
        Ok(_) => None,
        Err(reason) => Some(Halt::Field {
            place: place + 1,
            wanted,
            reason,
        }),
    }
}

#[tactic(auto, unfolding(crate::specs::Told::cat_halt))]
fn cat_halt(alloc: Global, row: &ByteRecord) -> Result<Option<Halt>, Memory>
    ensures { IfOk result (λ halt. halt ≡ cat_halt (fields_of row.now)) }
{
    if row.len() < FEWEST_FIELDS {
        return Ok(Some(Halt::Count {
            fields: row.len(),
            reason: Reason::FieldCount,
        }));
    }
    if MOST_FIELDS < row.len() {
        return Ok(Some(Halt::Count {
            fields: row.len(),
            reason: Reason::TooMany,
        }));
    }
    names_halt(alloc, row)
}

#[tactic(auto, using(crate::proofs::Halting::names_steps))]
fn names_halt(alloc: Global, row: &ByteRecord) -> Result<Option<Halt>, Memory>
    requires { 2 ≤ length (fields_of row.now) }
    ensures { IfOk result (λ halt. halt ≡ names_halt [] 2 (drop 2 (fields_of row.now))) }
{
    let mut names = Seq::new(alloc);
    for place in 2..row.len() {
        let text = field(row, place);
        match read_name(alloc, text, is_among(names.as_slice(), text)) {
            Ok(name) => names.push(name)?,
            Err(ReadStop::Reason(reason)) => {
                return Ok(Some(Halt::Field {
                    place,
                    wanted: Wanted::Name,
                    reason,
                }));
            }
            Err(ReadStop::Memory) => return Err(Memory),
        }
    }
    Ok(None)
}

/// The field at which the reader of a record stopped.
pub(crate) fn halt_field(alloc: Global, halt: Halt, row: &ByteRecord) -> Result<Seq<u8>, Memory>
    ensures { IfOk result (λ text. text ≡ halt_field halt (fields_of row.now)) }
{
    match halt {
        Halt::Field { place, .. } => Ok(Seq::from_slice(alloc, field(row, place))?),
        _ => Ok(Seq::new(alloc)),
    }
}
