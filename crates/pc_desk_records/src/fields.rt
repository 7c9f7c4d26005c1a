ghost use Rattle.std.specs.Prelude.{◌≡◌, IfOk};
ghost use Rattle.csv.specs.Records.{fields_of};

use csv::ByteRecord;
use pc_list::{Seq, Text};
use pc_num::Memory;
use pc_records::field;
use std::alloc::Global;

/// Copies of texts.
pub(crate) fn texts_of(alloc: Global, texts: &[Text]) -> Result<Seq<Seq<u8>>, Memory>
    ensures { IfOk result (λ copies. copies ≡ texts.now) }
{
    let mut copies = Seq::new(alloc);
    for text in texts {
        let copy = Seq::from_slice(alloc, text.as_bytes())?;
        copies.push(copy)?;
    }
    Ok(copies)
}

/// Copies of the fields of a record.
pub(crate) fn row_texts(alloc: Global, row: &ByteRecord) -> Result<Seq<Seq<u8>>, Memory>
    ensures { IfOk result (λ copies. copies ≡ fields_of row.now) }
{
    let mut copies = Seq::new(alloc);
    for place in 0..row.len() {
        let copy = Seq::from_slice(alloc, field(row, place))?;
        copies.push(copy)?;
    }
    Ok(copies)
}
