ghost use Rattle.std.specs.Prelude.{◌≡◌, ◌≤◌, length, IfOk};
ghost use Rattle.pc_model.specs.WellFormed.{HasFewNames, HaveFewNames};
ghost use Rattle.pc_rows.specs.Finding.{IsFinder};
ghost use Rattle.pc_rows.specs.RowFile.{cell_of};

use crate::cell::read_within;
use indexmap::IndexMap;
use pc_list::{Seq, Text};
use pc_model::{Column, Kind, Reason};
use pc_num::Memory;
use std::alloc::Global;
use std::marker::Model;

/// A column that reads its fields: the place of a name is found without going over the names.
#[derive(Drop)]
pub(crate) struct ColumnReader<'a> {
    column: &'a Column,
    places: IndexMap<&'a [u8], i64>,
}

impl<'a> Model for ColumnReader<'a> {
    ghost use Rattle.pc_model.specs.declared.schema.Column.{Column};
    ghost use Rattle.pc_rows.specs.Finding.{IsReader};

    ghost Value = { Column };

    ghost view = { λ reader. reader.column.now };

    ghost invariant = { λ reader. IsReader reader.column.now.kind reader.places };
}

impl<'a> ColumnReader<'a> {
    pub(crate) fn new(alloc: Global, column: &'a Column) -> Result<Self, Memory>
        requires { HasFewNames column.now.kind }
        ensures { IfOk result (λ reader. reader ≡ column.now) }
    {
        let places = match &column.kind {
            Kind::Cat { names } => number_names(alloc, names.as_slice())?,
            _ => IndexMap::new(alloc),
        };
        Ok(ColumnReader { column, places })
    }

    /// The number of a field.
    #[tactic(auto, unfolding(crate::specs::RowFile::cell_of))]
    pub(crate) fn read(&self, text: &[u8]) -> Result<i64, Reason>
        ensures { result ≡ cell_of self.now.kind text.now }
    {
        match &self.column.kind {
            Kind::Int { low, high } => read_within(0, *low, *high, text),
            Kind::Dec { scale, low, high } => read_within(*scale, *low, *high, text),
            Kind::Cat { .. } => self.places.get(text).copied().ok_or(Reason::UnknownName),
        }
    }
}

/// The columns with what they need to read their fields.
pub(crate) fn column_readers(
    alloc: Global,
    columns: &[Column],
) -> Result<Seq<ColumnReader<'_>>, Memory>
    requires { HaveFewNames columns.now }
    ensures { IfOk result (λ readers. readers ≡ columns.now) }
{
    let mut readers = Seq::new(alloc);
    for column in columns {
        let reader = ColumnReader::new(alloc, column)?;
        readers.push(reader)?;
    }
    Ok(readers)
}

// Each name with the first place that it has.
fn number_names<'a>(alloc: Global, names: &'a [Text]) -> Result<IndexMap<&'a [u8], i64>, Memory>
    requires { length names.now ≤ 128 }
    ensures { IfOk result (IsFinder names.now) }
{
    let mut places = IndexMap::new(alloc);
    for (place, name) in names.iter().enumerate() {
        let name = name.as_bytes();
        if !places.contains_key(name) {
            places.insert(name, place as i64)?;
        }
    }
    Ok(places)
}
