ghost use Rattle.std.specs.Prelude.{◌≡◌, length, IfOk, MatchOption, IsOk, Err};
ghost use Rattle.csv.specs.Records.{fields_of};
ghost use Rattle.pc_rows.specs.RowFile.{cells_of};
ghost use Rattle.pc_rows.specs.Told.{fields_halt, halt_field, names_halt, reason_of, record_halt};

use crate::column::ColumnReader;
use crate::header::place_in;
use csv::ByteRecord;
use pc_list::Seq;
use pc_model::{Column, Reason};
use pc_num::Memory;
use pc_records::field;
use std::alloc::Global;

/// What the reader of a row file stops at. A column is its place in the schema.
#[derive(Clone, Copy, Debug, PartialEq, Eq)]
pub enum Halt {
    /// A record of so many fields, where the header has another number of them.
    Width {
        fields: usize,
        header: usize,
    },
    /// The field of a column, at its place in the record.
    Field {
        column: usize,
        place: usize,
        reason: Reason,
    },
    /// The header, in which a column is missing or stands twice.
    Name {
        column: usize,
        reason: Reason,
    },
}

impl Halt {
    /// The reason for which the file is refused.
    pub fn reason(self) -> Reason
        ensures { result ≡ reason_of self }
    {
        match self {
            Halt::Width { .. } => Reason::FieldCount,
            Halt::Field { reason, .. } => reason,
            Halt::Name { reason, .. } => reason,
        }
    }
}

/// What keeps a record from giving a row: its width, or else its first field that gives no number.
#[tactic(auto, unfolding(crate::specs::Told::record_halt))]
pub(crate) fn record_halt(
    columns: &[ColumnReader<'_>],
    places: &[usize],
    width: usize,
    fields: &ByteRecord,
) -> Option<Halt>
    requires count { length places.now ≡ length columns.now }
    ensures { result ≡ record_halt columns.now places.now width (fields_of fields.now) }
{
    if fields.len() != width {
        return Some(Halt::Width {
            fields: fields.len(),
            header: width,
        });
    }
    fields_halt(columns, places, fields)
}

#[tactic(auto, using(crate::proofs::Halting::fields_steps))]
fn fields_halt(columns: &[ColumnReader<'_>], places: &[usize], fields: &ByteRecord) -> Option<Halt>
    requires count { length places.now ≡ length columns.now }
    ensures { result ≡ fields_halt 0 columns.now places.now (fields_of fields.now) }
{
    for (column, reader) in columns.iter().enumerate() {
        let place = places[column];
        if let Err(reason) = reader.read(field(fields, place)) {
            return Some(Halt::Field {
                column,
                place,
                reason,
            });
        }
    }
    None
}

/// The first column that does not stand in the header once.
#[tactic(auto, using(crate::proofs::Halting::names_steps))]
pub(crate) fn names_halt(columns: &[Column], header: &ByteRecord) -> Option<Halt>
    ensures { result ≡ names_halt 0 columns.now (fields_of header.now) }
{
    for (place, column) in columns.iter().enumerate() {
        if let Err(reason) = place_in(column.name.as_bytes(), header) {
            return Some(Halt::Name {
                column: place,
                reason,
            });
        }
    }
    None
}

/// The field at which the reader of a record stopped.
pub(crate) fn halt_field(alloc: Global, halt: Halt, fields: &ByteRecord) -> Result<Seq<u8>, Memory>
    ensures { IfOk result (λ text. text ≡ halt_field halt (fields_of fields.now)) }
{
    match halt {
        Halt::Field { place, .. } => Ok(Seq::from_slice(alloc, field(fields, place))?),
        _ => Ok(Seq::new(alloc)),
    }
}
