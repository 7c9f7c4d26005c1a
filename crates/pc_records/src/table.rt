ghost use Rattle.std.specs.Prelude.{◌≡◌, ◌∷◌, [], false, true, IfOk, OnErr};
ghost use Rattle.csv.specs.Reading.{default_config, records, strip_bom};
ghost use Rattle.csv.specs.Records.{fields_of};
ghost use Rattle.pc_records.specs.Fields.{field};

use csv::{ByteRecord, ErrorKind, Reader, ReaderBuilder};
use pc_num::Memory;
use std::alloc::Global;
use std::marker::Model;

/// The records of a text in memory that are still to be read. Records may differ in length, the first is one like
/// the others, and a field keeps the blanks around it.
#[derive(Drop)]
pub struct Table<'a> {
    reader: Reader<&'a [u8]>,
}

impl<'a> Model for Table<'a> {
    ghost use Rattle.std.specs.Prelude.{List, ℕ};
    ghost use Rattle.pc_records.specs.Unread.{IsReading, unread};

    ghost Value = { List (List (List ℕ)) };

    ghost view = { λ table. unread table.reader };

    ghost invariant = { λ table. IsReading table.reader };
}

impl<'a> Table<'a> {
    /// A byte order mark at the start of the text is no part of the first field.
    pub fn new(alloc: Global, text: &'a [u8]) -> Self
        ensures { result ≡ records default_config (strip_bom text.now) }
    {
        Table {
            reader: ReaderBuilder::new()
                .has_headers(false)
                .flexible(true)
                .from_reader(alloc, text),
        }
    }

    /// Reads the next record into `row`, or answers false where there is none. Nothing is promised of a table after
    /// its end.
    pub fn next(&mut self, row: &mut ByteRecord) -> Result<bool, Memory>
        ensures found { IfOk result (λ found. found ≡ true → self.old ≡ fields_of row.new ∷ self.new) }
        ensures ended { IfOk result (λ found. found ≡ false → self.old ≡ []) }

        // A record may have been lost, so no more are read.
        ensures refused { OnErr result (self.new ≡ []) }
    {
        match self.reader.read_byte_record(row) {
            Ok(found) => Ok(found),
            Err(error) => match error.into_kind() {
                // A text in memory is always there: only memory can be missing.
                ErrorKind::Io(_) | ErrorKind::OutOfMemory => Err(Memory),
                _ => unreachable!(),
            },
        }
    }
}

/// The field at a place of a record, which is empty past its last field.
#[tactic(auto, using(crate::proofs::Records::field_found, crate::proofs::Records::field_missing))]
pub fn field(row: &ByteRecord, place: usize) -> &[u8]
    ensures { result.now ≡ field (fields_of row.now) place }
{
    match row.get(place) {
        Some(bytes) => bytes,
        None => &[],
    }
}
