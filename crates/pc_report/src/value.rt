ghost use Rattle.std.specs.Prelude.{◌≡◌, ◌≤◌, ◌++◌, ◌^◌, ◌*ℤ◌, ◌<ℤ◌, ◌≤ℤ◌, OnOk, pos};
ghost use Rattle.pc_num.specs.Fractions.{IsQuotient};
ghost use Rattle.pc_report.specs.Report.{scale_for, scale_in, value_text};
ghost use Rattle.pc_report.specs.RunLines.{HasScale, HaveScales};
ghost use Rattle.pc_report.specs.Units.{IsAverage, IsPrintable, average_text, in_column};

use pc_model::{Agg, Kind, Query, Schema};
use pc_num::{Frac, Memory, put_frac, put_scaled};
use std::alloc::Global;

/// Appends a value of a query: a count as a whole number, an average as a fraction in the unit of the query's column, and
/// any other with the decimals of that column.
#[tactic(auto, unfolding(crate::specs::Report::value_text))]
pub fn put_value(
    alloc: Global,
    schema: &Schema,
    out: &mut Vec<u8>,
    query: &Query,
    value: &Frac,
) -> Result<(), Memory>
    requires scales { HaveScales schema.now.columns }
    requires printable { IsPrintable query.now.agg value.now }
    ensures { OnOk result (out.new.items ≡ out.old.items ++ value_text schema.now query.now.agg query.now.column value.now) }
{
    match query.agg {
        Agg::Count => put_scaled(alloc, out, value.num, 0),
        Agg::Sum | Agg::Min | Agg::Max => {
            put_scaled(alloc, out, value.num, scale_for(schema, query.column))
        }
        Agg::Avg => put_average(alloc, out, value, scale_for(schema, query.column)),
    }
}

// Appends an average, which is kept in units of the last place.
fn put_average(alloc: Global, out: &mut Vec<u8>, value: &Frac, scale: u8) -> Result<(), Memory>
    requires average { IsAverage value.now }
    requires few { scale ≤ 6 }
    ensures { OnOk result (out.new.items ≡ out.old.items ++ average_text scale value.now) }
{
    put_frac(alloc, out, &in_column(value, scale))
}

/// An average in the unit of its column, as it is printed: the value over so many powers of ten, in lowest terms.
#[tactic(auto, using(crate::proofs::Units::quotient_is_in_column, crate::proofs::Units::den_is_not_zero, crate::proofs::Units::den_fits))]
pub fn in_column(value: &Frac, scale: u8) -> Frac
    requires average { IsAverage value.now }
    requires few { scale ≤ 6 }
    ensures value { result ≡ in_column scale value.now }
    ensures quotient { IsQuotient value.now.num (value.now.den *ℤ pos (10 ^ scale)) result }
{
    match Frac::new(value.num, den_in_column(value.den, scale)) {
        Some(fraction) => fraction,
        None => unreachable!(),
    }
}

fn den_in_column(den: i128, scale: u8) -> i128
    requires above { pos 0 <ℤ den }
    requires small { den ≤ℤ pos 30_000_000_000_000_000 }
    requires few { scale ≤ 6 }
    ensures { result ≡ den *ℤ pos (10 ^ scale) }
{
    den * power_of_ten(scale)
}

fn power_of_ten(exponent: u8) -> i128
    requires { exponent ≤ 6 }
    ensures { result ≡ pos (10 ^ exponent) }
{
    10i128.pow(u32::from(exponent))
}

/// The decimals of a column, and none where there is no column.
pub fn scale_for(schema: &Schema, column: Option<u8>) -> u8
    requires { HaveScales schema.now.columns }
    ensures value { result ≡ scale_for schema.now column }
    ensures few { result ≤ 6 }
{
    let Some(place) = column else {
        return 0;
    };
    match schema.columns.as_slice().get(usize::from(place)) {
        Some(column) => scale_in(&column.kind),
        None => 0,
    }
}

fn scale_in(kind: &Kind) -> u8
    requires { HasScale kind.now }
    ensures value { result ≡ scale_in kind.now }
    ensures few { result ≤ 6 }
{
    match kind {
        Kind::Dec { scale, .. } => *scale,
        Kind::Int { .. } | Kind::Cat { .. } => 0,
    }
}
