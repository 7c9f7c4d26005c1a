ghost use Rattle.std.specs.Prelude.{◌≡◌, ◌≤◌, ◌*◌, ◌^◌, ◌-◌, IfOk, IfSome, false, pos, unsigned_abs};
ghost use Rattle.pc_model.specs.WellFormed.{IsWellFormed};
ghost use Rattle.pc_num.specs.Put.{scaled_text};
ghost use Rattle.pc_report.specs.RunLines.{HaveScales};
ghost use Rattle.pc_report.specs.Units.{IsPrintable};
ghost use Rattle.pc_desk_answers.specs.Rounded.{limit};
ghost use Rattle.pc_desk_table.specs.Texts.{shown};
ghost use Rattle.pc_desk_answers.specs.Values.{average_value, decimal_of, in_millionths, is_average, places_for, places_in, places_of, plain_value, printed, units_of, value_of, within};

use crate::question::Question;
use crate::rounding::{LIMIT, Rounding, millionths_of};
use pc_desk_table::{Value, shown};
use pc_list::Text;
use pc_model::{Agg, Query, Schema};
use pc_num::{Frac, Memory, put_scaled};
use pc_report::{in_column, put_value, scale_for};
use std::alloc::Global;

/// A value of a query, an average rounded to six places.
#[tactic(auto, unfolding(crate::specs::Values::value_of))]
pub(crate) fn value_of(
    alloc: Global,
    schema: &Schema,
    query: &Query,
    rounding: Rounding,
    value: &Frac,
) -> Result<Value, Memory>
    requires scales { HaveScales schema.now.columns }
    requires printable { IsPrintable query.now.agg value.now }
    ensures { IfOk result (λ made. made ≡ value_of schema.now query.now rounding value.now) }
{
    let text = printed(alloc, schema, query, value)?;
    let units = units_of(schema, query, rounding, value);
    if is_average(query.agg) {
        return average_value(alloc, text, units);
    }
    plain_value(alloc, places_of(schema, query), text, units)
}

/// A value as it is printed.
pub(crate) fn printed(
    alloc: Global,
    schema: &Schema,
    query: &Query,
    value: &Frac,
) -> Result<Text, Memory>
    requires scales { HaveScales schema.now.columns }
    requires printable { IsPrintable query.now.agg value.now }
    ensures { IfOk result (λ text. text ≡ printed schema.now query.now value.now) }
{
    let mut bytes = Vec::new(alloc);
    put_value(alloc, schema, &mut bytes, query, value)?;
    shown(alloc, bytes.as_slice())
}

fn average_value(alloc: Global, text: Text, units: Option<i128>) -> Result<Value, Memory>
    ensures { IfOk result (λ made. made ≡ average_value text units) }
{
    Ok(Value {
        decimal: decimal_of(alloc, &text, units)?,
        text,
        millionths: units,
    })
}

fn decimal_of(alloc: Global, text: &Text, units: Option<i128>) -> Result<Text, Memory>
    ensures { IfOk result (λ decimal. decimal ≡ decimal_of text.now units) }
{
    match units {
        Some(units) => scaled(alloc, units, 6),
        None => Ok(Text::from_text(alloc, text.as_str())?),
    }
}

fn plain_value(alloc: Global, places: u8, text: Text, units: Option<i128>) -> Result<Value, Memory>
    requires places { places ≤ 6 }
    requires units { IfSome units (λ number. unsigned_abs number ≤ limit) }
    ensures { IfOk result (λ made. made ≡ plain_value places text units) }
{
    Ok(Value {
        decimal: Text::from_text(alloc, text.as_str())?,
        text,
        millionths: in_millionths(places, units),
    })
}

// A number of so many decimals in millionths.
fn in_millionths(places: u8, units: Option<i128>) -> Option<i128>
    requires places { places ≤ 6 }
    requires units { IfSome units (λ number. unsigned_abs number ≤ limit) }
    ensures { result ≡ in_millionths places units }
{
    match units {
        Some(number) => Some(number * millionths_in(places)),
        None => None,
    }
}

// How many millionths the last of so many decimals is.
fn millionths_in(places: u8) -> i128
    requires { places ≤ 6 }
    ensures value { result ≡ pos (10 ^ (6 - places)) }
    ensures small { unsigned_abs result ≤ 1_000_000 }
{
    match places {
        0 => 1_000_000,
        1 => 100_000,
        2 => 10_000,
        3 => 1_000,
        4 => 100,
        5 => 10,
        _ => 1,
    }
}

/// A number with so many decimals.
pub(crate) fn scaled(alloc: Global, number: i128, places: u8) -> Result<Text, Memory>
    requires { places ≤ 6 }
    ensures { IfOk result (λ text. text ≡ shown (scaled_text number places)) }
{
    let mut bytes = Vec::new(alloc);
    put_scaled(alloc, &mut bytes, number, places)?;
    shown(alloc, bytes.as_slice())
}

/// A value in units of its last decimal, where it is not too great.
#[tactic(auto, unfolding(crate::specs::Values::units_of))]
pub(crate) fn units_of(
    schema: &Schema,
    query: &Query,
    rounding: Rounding,
    value: &Frac,
) -> Option<i128>
    requires scales { HaveScales schema.now.columns }
    requires printable { IsPrintable query.now.agg value.now }
    ensures value { result ≡ units_of schema.now query.now rounding value.now }
    ensures small { IfSome result (λ number. unsigned_abs number ≤ limit * 1_000_000) }
    ensures plain { is_average query.now.agg ≡ false → IfSome result (λ number. unsigned_abs number ≤ limit) }
{
    if is_average(query.agg) {
        return millionths_of(rounding, &in_column(value, scale_for(schema, query.column)));
    }
    within(value.num)
}

fn within(number: i128) -> Option<i128>
    ensures value { result ≡ within number }
    ensures small { IfSome result (λ number. unsigned_abs number ≤ limit) }
{
    if number.unsigned_abs() <= LIMIT {
        return Some(number);
    }
    None
}

/// The decimals of a query's values.
pub(crate) fn places_of(schema: &Schema, query: &Query) -> u8
    requires { HaveScales schema.now.columns }
    ensures value { result ≡ places_of schema.now query.now }
    ensures few { result ≤ 6 }
{
    match query.agg {
        Agg::Count => 0,
        Agg::Sum | Agg::Min | Agg::Max => scale_for(schema, query.column),
        Agg::Avg => 6,
    }
}

/// The decimals of a question's values.
#[tactic(auto, using(pc_report::proofs::Scales::scales))]
pub fn places_in(schema: &Schema, question: &Question) -> u8
    requires well_formed { IsWellFormed schema.now }
    ensures value { result ≡ places_in schema.now question.now }
    ensures few { result ≤ 6 }
{
    match question {
        Question::Plain(query) => places_of(schema, query),
        Question::Share(asked) => scale_for(schema, Some(asked.column)),
    }
}

fn is_average(agg: Agg) -> bool
    ensures { result ≡ is_average agg }
{
    matches!(agg, Agg::Avg)
}
