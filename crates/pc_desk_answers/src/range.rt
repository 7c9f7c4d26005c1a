ghost use Rattle.std.specs.Prelude.{◌≡◌, ◌≤◌, ◌*◌, IfOk, IfSome, bytes_eq, unsigned_abs};
ghost use Rattle.pc_report.specs.RunLines.{HaveScales};
ghost use Rattle.pc_report.specs.Told.{end_in, mark_in};
ghost use Rattle.pc_report.specs.Units.{IsPrintable};
ghost use Rattle.pc_desk_answers.specs.Rounded.{limit};
ghost use Rattle.pc_desk_answers.specs.Values.{end_of, mark_of, printed, range_by, range_of, range_with, rows_of, width_between};

use crate::repeated::repeated_rows;
use crate::rounding::Rounding;
use crate::value::{places_of, printed, scaled, units_of, value_of};
use pc_desk_table::{End, Mark, Range, Repeated};
use pc_list::{Seq, Text};
use pc_model::{Query, Schema};
use pc_num::{Frac, Memory};
use pc_report::{ToldEnd, ToldMark};
use std::alloc::Global;

/// The range between two ends: of an average rounded outward, but as one number where both are printed alike.
#[tactic(auto, unfolding(crate::specs::Values::range_of))]
pub(crate) fn range_of(
    alloc: Global,
    schema: &Schema,
    query: &Query,
    low: &ToldEnd,
    high: &ToldEnd,
) -> Result<Range, Memory>
    requires scales { HaveScales schema.now.columns }
    requires low { IsPrintable query.now.agg low.now.value }
    requires high { IsPrintable query.now.agg high.now.value }
    ensures { IfOk result (λ range. range ≡ range_of schema.now query.now (end_in low.now, end_in high.now)) }
{
    let alike = are_alike(alloc, schema, query, &low.value, &high.value)?;
    range_by(alloc, schema, query, alike, low, high)
}

fn range_by(
    alloc: Global,
    schema: &Schema,
    query: &Query,
    alike: bool,
    low: &ToldEnd,
    high: &ToldEnd,
) -> Result<Range, Memory>
    requires scales { HaveScales schema.now.columns }
    requires low { IsPrintable query.now.agg low.now.value }
    requires high { IsPrintable query.now.agg high.now.value }
    ensures outward { IfOk result (λ range. range ≡ range_by schema.now query.now alike (end_in low.now, end_in high.now)) }
{
    if alike {
        return range_with(
            alloc,
            schema,
            query,
            Rounding::Nearest,
            Rounding::Nearest,
            low,
            high,
        );
    }
    range_with(
        alloc,
        schema,
        query,
        Rounding::Down,
        Rounding::Up,
        low,
        high,
    )
}

fn are_alike(
    alloc: Global,
    schema: &Schema,
    query: &Query,
    low: &Frac,
    high: &Frac,
) -> Result<bool, Memory>
    requires scales { HaveScales schema.now.columns }
    requires low { IsPrintable query.now.agg low.now }
    requires high { IsPrintable query.now.agg high.now }
    ensures outward { IfOk result (λ alike. alike ≡ bytes_eq (printed schema.now query.now low.now) (printed schema.now query.now high.now)) }
{
    let low = printed(alloc, schema, query, low)?;
    let high = printed(alloc, schema, query, high)?;
    Ok(low.as_bytes() == high.as_bytes())
}

fn range_with(
    alloc: Global,
    schema: &Schema,
    query: &Query,
    down: Rounding,
    up: Rounding,
    low: &ToldEnd,
    high: &ToldEnd,
) -> Result<Range, Memory>
    requires scales { HaveScales schema.now.columns }
    requires low { IsPrintable query.now.agg low.now.value }
    requires high { IsPrintable query.now.agg high.now.value }
    ensures { IfOk result (λ range. range ≡ range_with schema.now query.now down up (end_in low.now, end_in high.now)) }
{
    let least = units_of(schema, query, down, &low.value);
    let greatest = units_of(schema, query, up, &high.value);
    let width = width_between(alloc, places_of(schema, query), least, greatest)?;
    let low = end_of(alloc, schema, query, down, low)?;
    let high = end_of(alloc, schema, query, up, high)?;
    Ok(Range { low, high, width })
}

fn width_between(
    alloc: Global,
    places: u8,
    low: Option<i128>,
    high: Option<i128>,
) -> Result<Text, Memory>
    requires places { places ≤ 6 }
    requires low { IfSome low (λ number. unsigned_abs number ≤ limit * 1_000_000) }
    requires high { IfSome high (λ number. unsigned_abs number ≤ limit * 1_000_000) }
    ensures { IfOk result (λ text. text ≡ width_between places low high) }
{
    match (low, high) {
        (Some(low), Some(high)) => scaled(alloc, high - low, places),
        _ => Ok(Text::from_text(alloc, "")?),
    }
}

#[tactic(auto, unfolding(crate::specs::Values::end_of))]
fn end_of(
    alloc: Global,
    schema: &Schema,
    query: &Query,
    rounding: Rounding,
    end: &ToldEnd,
) -> Result<End, Memory>
    requires scales { HaveScales schema.now.columns }
    requires printable { IsPrintable query.now.agg end.now.value }
    ensures { IfOk result (λ made. made ≡ end_of schema.now query.now rounding (end_in end.now)) }
{
    Ok(End {
        value: value_of(alloc, schema, query, rounding, &end.value)?,
        mark: mark_of(&end.mark),
        rows: rows_of(alloc, schema, &end.mark)?,
    })
}

fn mark_of(mark: &ToldMark) -> Mark
    ensures { result ≡ mark_of (mark_in mark.now) }
{
    match mark {
        ToldMark::Exact(_) => Mark::Exact,
        ToldMark::Outer => Mark::Outer,
    }
}

fn rows_of(alloc: Global, schema: &Schema, mark: &ToldMark) -> Result<Seq<Repeated>, Memory>
    requires { HaveScales schema.now.columns }
    ensures { IfOk result (λ rows. rows ≡ rows_of schema.now (mark_in mark.now)) }
{
    match mark {
        ToldMark::Exact(runs) => repeated_rows(alloc, schema, runs),
        ToldMark::Outer => Ok(Seq::new(alloc)),
    }
}
