ghost use Rattle.std.specs.Prelude.{◌≡◌, ◌<◌, ◌+◌, ◌^◌, [], length, drop, IfOk, IfSome};
ghost use Rattle.csv.specs.Records.{fields_of};
ghost use Rattle.pc_model.specs.Refusals.{Answers};
ghost use Rattle.pc_rows.specs.RowFile.{place_from, place_in, places_from};

use csv::ByteRecord;
use pc_list::Seq;
use pc_model::{Column, ReadStop, Reason};
use pc_records::field;
use std::alloc::Global;

/// The places of the columns in the header.
#[tactic(auto, using(crate::proofs::Places::steps))]
pub(crate) fn find_places(
    alloc: Global,
    columns: &[Column],
    header: &ByteRecord,
) -> Result<Seq<usize>, ReadStop>
    ensures answers { Answers result (places_from [] columns.now (fields_of header.now)) }
    ensures count { IfOk result (λ places. length places ≡ length columns.now) }
{
    let mut places = Seq::new(alloc);
    for column in columns {
        let place = place_in(column.name.as_bytes(), header)?;
        places.push(place)?;
    }
    Ok(places)
}

#[tactic(auto, unfolding(crate::specs::RowFile::place_in))]
pub(crate) fn place_in(name: &[u8], header: &ByteRecord) -> Result<usize, Reason>
    ensures { result ≡ place_in name.now (fields_of header.now) }
{
    let Some(place) = place_from(0, name, header) else {
        return Err(Reason::MissingColumn);
    };
    if place_from(place + 1, name, header).is_some() {
        return Err(Reason::RepeatedName);
    }
    Ok(place)
}

// The first place from `start` on that holds the name.
#[tactic(auto, using(crate::proofs::Places::scan))]
fn place_from(start: usize, name: &[u8], header: &ByteRecord) -> Option<usize>
    ensures value { result ≡ place_from start name.now (drop start (fields_of header.now)) }
    ensures inside { IfSome result (λ place. place + 1 < 2 ^ 64) }
{
    for place in start..header.len() {
        if name == field(header, place) {
            return Some(place);
        }
    }
    None
}
