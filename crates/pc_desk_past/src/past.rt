ghost use Rattle.std.specs.Prelude.{◌≡◌, ◌<◌, ◌≤◌, All, IfOk, IfSome, length};
ghost use Rattle.pc_model.specs.Accepted.{constraint_limit};
ghost use Rattle.pc_model.specs.Boxes.{IsAreaOf};
ghost use Rattle.pc_rows.specs.Stored.{row_limit};
ghost use Rattle.pc_desk_divide.specs.Pieces.{AreDivisions};
ghost use Rattle.pc_desk_divide.specs.declared.cells.Cells.TheVariants.{Divided};
ghost use Rattle.pc_desk_history.specs.Draft.{IsWish};
ghost use Rattle.pc_desk_words.specs.Calls.{history_names};
ghost use Rattle.pc_desk_past.specs.Past.{IsAcceptedPast, IsHistory, IsKnown, celled_past, columns_of, cut_past, dated_past, has_none, past_of, wish_of};

use crate::fault::PastFault;
use pc_desk_divide::{Cells, Division, DivisionFault, cells_of, place_of, read_divisions};
use pc_desk_history::{Wish, draft};
use pc_desk_words::History;
use pc_list::Seq;
use pc_model::{Area, Constraint, Query, Schema};
use pc_num::Memory;
use pc_rows::Rows;
use std::alloc::Global;

/// What comes of a call of `history`.
#[derive(Debug, Drop)]
pub enum Past {
    Drafted(Seq<Constraint>),
    Refused(PastFault),
}

/// A schema, its rows, and the query whose rows are meant.
#[derive(Debug, Drop)]
pub struct Known {
    pub schema: Schema,
    pub rows: Rows,
    pub query: Query,
}

/// The constraints that the rows which are meant suggest.
pub fn recall(alloc: Global, known: &Known, wish: &History) -> Result<Past, Memory>
    requires known { IsKnown known.now }
    requires wish { IsHistory (history_names wish.now) }
    ensures value { IfOk result (λ past. past ≡ past_of known.now (history_names wish.now)) }
    ensures accepted { IfOk result (IsAcceptedPast known.now.schema) }
{
    if known.query.group.is_some() {
        return Ok(Past::Refused(PastFault::Grouped));
    }
    match read_divisions(alloc, &known.schema, wish.by.as_bytes()) {
        Ok(divisions) => dated(alloc, known, wish, &divisions),
        Err(DivisionFault::Memory) => Err(Memory),
        Err(fault) => Ok(Past::Refused(PastFault::By(fault))),
    }
}

// With the periods of the column that is named, if one is.
fn dated(
    alloc: Global,
    known: &Known,
    wish: &History,
    divisions: &Seq<Division>,
) -> Result<Past, Memory>
    requires known { IsKnown known.now }
    requires wish { IsHistory (history_names wish.now) }
    requires divided { AreDivisions known.now.schema divisions.now }
    ensures value { IfOk result (λ past. past ≡ dated_past known.now (history_names wish.now) divisions.now (history_names wish.now).per) }
    ensures accepted { IfOk result (IsAcceptedPast known.now.schema) }
{
    let Some(name) = wish.per else {
        return cut(alloc, known, wish, divisions, None);
    };
    match place_of(known.schema.columns.as_slice(), name.as_bytes()) {
        Some(column) => cut(alloc, known, wish, divisions, Some(column)),
        None => Ok(Past::Refused(PastFault::NoPeriod(Seq::from_slice(alloc, name.as_bytes())?))),
    }
}

fn cut(
    alloc: Global,
    known: &Known,
    wish: &History,
    divisions: &Seq<Division>,
    per: Option<usize>,
) -> Result<Past, Memory>
    requires known { IsKnown known.now }
    requires wish { IsHistory (history_names wish.now) }
    requires divided { AreDivisions known.now.schema divisions.now }
    requires per { IfSome per (λ column. column < length known.now.schema.columns) }
    ensures value { IfOk result (λ past. past ≡ cut_past known.now (history_names wish.now) divisions.now per) }
    ensures accepted { IfOk result (IsAcceptedPast known.now.schema) }
{
    let chosen = &known.query.chosen;
    match cells_of(alloc, &known.schema, chosen, divisions.as_slice())? {
        Cells::Divided(cells) => {
            let wish = wish_of(alloc, wish, divisions, per)?;
            drafted(alloc, known, &wish, &cells)
        }
        Cells::TooMany(count) => Ok(Past::Refused(PastFault::TooMany(count))),
    }
}

#[tactic(auto, using(crate::proofs::Wide::rows_are_wide, pc_desk_history::proofs::Drafted::drafted_accepted))]
fn drafted(alloc: Global, known: &Known, wish: &Wish, cells: &Seq<Area>) -> Result<Past, Memory>
    requires known { IsKnown known.now }
    requires wish { IsWish known.now.schema wish.now }
    requires few { length cells.now ≤ constraint_limit }
    requires areas { All (IsAreaOf known.now.schema) cells.now }
    ensures value { IfOk result (λ past. past ≡ celled_past known.now wish.now (Divided cells.now)) }
    ensures accepted { IfOk result (IsAcceptedPast known.now.schema) }
{
    if has_none(known) {
        return Ok(Past::Refused(PastFault::NoRows));
    }
    let schema = &known.schema;
    let chosen = &known.query.chosen;
    let drafted = draft(alloc, schema, &known.rows, chosen, cells.as_slice(), wish)?;
    Ok(Past::Drafted(drafted))
}

// No row is meant.
#[tactic(auto, using(crate::proofs::Wide::none_kept))]
fn has_none(known: &Known) -> bool
    ensures value { result ≡ has_none known.now }
    ensures few { length known.now.rows ≤ row_limit }
{
    known.rows.count() == 0 || known.rows.fold(&known.query).count == 0
}

fn wish_of(
    alloc: Global,
    wish: &History,
    divisions: &Seq<Division>,
    per: Option<usize>,
) -> Result<Wish, Memory>
    ensures { IfOk result (λ meant. meant ≡ wish_of (history_names wish.now) divisions.now per) }
{
    Ok(Wish {
        per,
        divided: columns_of(alloc, divisions.as_slice())?,
        widen: wish.widen,
        lost: wish.lost,
    })
}

#[tactic(auto, using(std::proofs::lemmas::List::map_more))]
fn columns_of(alloc: Global, divisions: &[Division]) -> Result<Seq<usize>, Memory>
    ensures { IfOk result (λ columns. columns ≡ columns_of divisions.now) }
{
    let mut columns = Seq::new(alloc);
    for division in divisions {
        columns.push(division.column)?;
    }
    Ok(columns)
}
