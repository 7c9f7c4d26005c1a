ghost use Rattle.std.specs.Prelude.{◌≡◌, ◌+◌, ◌<◌, ◌≤◌, ◌++◌, codes, decimal, IfOk, OnOk};
ghost use Rattle.pc_rows.specs.Stored.{row_limit};
ghost use Rattle.pc_gen.specs.Draws.{after};
ghost use Rattle.pc_gen.specs.Folded.{constraint_by, price_side, priced_region};
ghost use Rattle.pc_gen.specs.Generated.{drawn_branches, drawn_constraint, drawn_constraints, drawn_prices, drawn_span, drawn_when, price_draws, region_of, span_over, when_draws};

use crate::draws::Draws;
use crate::schema::PRICE;
use pc_list::{Seq, Text};
use pc_model::{Agg, Area, Constraint, Folded, Query, Region, Side, When};
use pc_num::Memory;
use pc_rows::Rows;
use std::alloc::{AllocError, Global};

const ANY_BRANCH: Side = Side::Names { bits: 15 };

const ANY_DAY: Side = Side::Span { low: 1, high: 31 };

const ANY_PRICE: Side = Side::Span {
    low: 0,
    high: 100_000,
};

/// Eight constraints that the hidden rows keep.
pub(crate) fn draw_constraints(
    alloc: Global,
    draws: &mut Draws,
    hidden: &Rows,
) -> Result<Seq<Constraint>, Memory>
    ensures { IfOk result (λ constraints. constraints ≡ drawn_constraints hidden.now 8 0 draws.old.state) }
{
    let mut constraints = Seq::new(alloc);
    for number in 0..8 {
        let constraint = draw_constraint(alloc, draws, number, hidden)?;
        constraints.push(constraint)?;
    }
    Ok(constraints)
}

// The constraint of a number, counted from 0, which these rows keep.
fn draw_constraint(
    alloc: Global,
    draws: &mut Draws,
    number: u8,
    hidden: &Rows,
) -> Result<Constraint, Memory>
    ensures constraint { IfOk result (λ c. c ≡ drawn_constraint hidden.now number draws.old.state) }
    ensures state { OnOk result (draws.new.state ≡ after (when_draws number + 2) draws.old.state) }
{
    let when = draw_when(alloc, draws, number)?;
    let query = Query {
        agg: Agg::Count,
        column: Some(PRICE),
        chosen: Area::of_box(alloc, when)?,
        group: None,
    };
    let inside = hidden.fold(&query);
    constraint_by(alloc, draws, number, query.chosen, inside)
}

// A branch or any, some days, and some prices or any.
fn draw_when(alloc: Global, draws: &mut Draws, number: u8) -> Result<Region, AllocError>
    ensures region { IfOk result (λ region. region ≡ drawn_when number draws.old.state) }
    ensures state { draws.new.state ≡ after (when_draws number) draws.old.state }
{
    let branches = draw_branches(draws);
    let days = draw_span(draws, 1, 31);
    let prices = draw_prices(draws, number);
    region_of(alloc, branches, days, prices)
}

fn draw_branches(draws: &mut Draws) -> Side
    ensures side { result ≡ drawn_branches draws.old.state }
    ensures state { draws.new.state ≡ after 1 draws.old.state }
{
    let place = draws.draw(5);
    if place < 4 {
        return Side::Names { bits: 1 << place };
    }
    ANY_BRANCH
}

#[tactic(auto, using(crate::proofs::Stepping::after_none))]
fn draw_prices(draws: &mut Draws, number: u8) -> Side
    ensures side { result ≡ drawn_prices number draws.old.state }
    ensures state { draws.new.state ≡ after (price_draws number) draws.old.state }
{
    if number % 2 == 1 {
        return draw_span(draws, 0, 100_001);
    }
    ANY_PRICE
}

// From the lesser to the greater of two numbers, each of so many from `low` on.
fn draw_span(draws: &mut Draws, low: u32, count: u32) -> Side
    requires some { 0 < count }
    requires few { low + count ≤ 1000000 }
    ensures side { result ≡ drawn_span low count draws.old.state }
    ensures state { draws.new.state ≡ after 2 draws.old.state }
{
    let first = low + draws.draw(count);
    let second = low + draws.draw(count);
    span_over(first, second)
}

fn span_over(first: u32, second: u32) -> Side
    ensures { result ≡ span_over first second }
{
    Side::Span {
        low: i64::from(first.min(second)),
        high: i64::from(first.max(second)),
    }
}

fn region_of(alloc: Global, branches: Side, days: Side, prices: Side) -> Result<Region, AllocError>
    ensures { IfOk result (λ region. region ≡ region_of branches days prices) }
{
    Ok(Region {
        sides: Seq::from_slice(alloc, &[branches, days, prices])?,
    })
}

// The constraint on a predicate that allows about as many rows as are inside it, of such prices as theirs.
fn constraint_by(
    alloc: Global,
    draws: &mut Draws,
    number: u8,
    when: Area,
    inside: Folded,
) -> Result<Constraint, Memory>
    requires few { inside.count ≤ row_limit }
    ensures constraint { IfOk result (λ c. c ≡ constraint_by number when inside.count inside.least inside.greatest draws.old.state) }
    ensures state { draws.new.state ≡ after 2 draws.old.state }
{
    let less = u64::from(draws.draw(3));
    let more = u64::from(draws.draw(3));
    Ok(Constraint {
        name: name_of(alloc, number)?,
        when: When::Boxes(when),
        values: priced_region(alloc, inside.least, inside.greatest)?,
        least: inside.count - inside.count.min(less),
        most: inside.count + more,
    })
}

// The rows of these prices, or all rows where there are no prices.
fn priced_region(
    alloc: Global,
    least: Option<i64>,
    greatest: Option<i64>,
) -> Result<Region, AllocError>
    ensures { IfOk result (λ region. region ≡ priced_region least greatest) }
{
    region_of(alloc, ANY_BRANCH, ANY_DAY, price_side(least, greatest))
}

fn price_side(least: Option<i64>, greatest: Option<i64>) -> Side
    ensures { result ≡ price_side least greatest }
{
    match (least, greatest) {
        (Some(low), Some(high)) => Side::Span { low, high },
        _ => ANY_PRICE,
    }
}

fn name_of(alloc: Global, number: u8) -> Result<Text, AllocError>
    ensures { IfOk result (λ name. name ≡ codes "g" ++ decimal number) }
{
    let name = format!(in alloc; "g{number}")?;
    Ok(Text::from_string(name))
}
