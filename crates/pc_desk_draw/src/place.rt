ghost use Rattle.std.specs.Prelude.{◌≡◌, ◌≤◌, ◌<◌, ◌*◌, ◌^◌, IfSome};
ghost use Rattle.pc_desk_draw.specs.Axes.{IsOn, IsSmall};
ghost use Rattle.pc_desk_draw.specs.Numbers.{range_span};
ghost use Rattle.pc_desk_draw.specs.Places.{HoldsNumber, HoldsSpan, IsBar, IsBlockOn, bar_between, bar_of, drawing_of, place_in, place_of, proportion, share, tick_place};

use crate::axis::{Axis, tick_number};
use crate::numbers::{observed_number, span_of};
use crate::span::Span;
use pc_desk_table::{Entry, Mark, Range};

/// The places of the ends of a range, and what they are.
#[derive(Clone, Copy)]
pub(crate) struct Bar {
    pub low: usize,
    pub high: usize,
    pub low_mark: Mark,
    pub high_mark: Mark,
}

/// What is drawn of a block: its bar, and the place of what the rows that are left come to.
#[derive(Clone, Copy)]
pub(crate) struct Drawing {
    pub bar: Option<Bar>,
    pub observed: Option<usize>,
}

/// What is drawn of a block on an axis whose places run from 0 to the last one.
pub(crate) fn drawing_of(axis: Axis, last: usize, entry: &Entry) -> Drawing
    requires some { 0 < last }
    requires few { last ≤ 1000 }
    requires small { IsSmall axis }
    requires on { IsBlockOn axis entry.now }
    ensures value { result ≡ drawing_of axis last entry.now }
    ensures bar { IfSome result.bar (IsBar last) }
    ensures observed { IfSome result.observed (λ place. place ≤ last) }
{
    Drawing {
        bar: bar_of(axis, last, &entry.range),
        observed: place_in(axis, last, observed_number(&entry.observed)),
    }
}

fn bar_of(axis: Axis, last: usize, range: &Option<Range>) -> Option<Bar>
    requires some { 0 < last }
    requires few { last ≤ 1000 }
    requires small { IsSmall axis }
    requires on { HoldsSpan axis (range_span range.now) }
    ensures value { result ≡ bar_of axis last range.now }
    ensures bar { IfSome result (IsBar last) }
{
    match range {
        Some(range) => bar_between(axis, last, range, span_of(range)),
        None => None,
    }
}

#[tactic(auto, using(crate::proofs::Placing::placing))]
fn bar_between(axis: Axis, last: usize, range: &Range, span: Option<Span>) -> Option<Bar>
    requires some { 0 < last }
    requires few { last ≤ 1000 }
    requires small { IsSmall axis }
    requires on { HoldsSpan axis span }
    ensures value { result ≡ bar_between axis last range.now span }
    ensures bar { IfSome result (IsBar last) }
{
    let span = span?;
    Some(Bar {
        low: place_of(axis, last, span.low),
        high: place_of(axis, last, span.high),
        low_mark: range.low.mark,
        high_mark: range.high.mark,
    })
}

fn place_in(axis: Axis, last: usize, number: Option<i128>) -> Option<usize>
    requires some { 0 < last }
    requires few { last ≤ 1000 }
    requires small { IsSmall axis }
    requires on { HoldsNumber axis number }
    ensures value { result ≡ place_in axis last number }
    ensures within { IfSome result (λ place. place ≤ last) }
{
    let number = number?;
    Some(place_of(axis, last, number))
}

/// The place of a number.
#[tactic(auto, using(crate::proofs::Placing::distances), unfolding(crate::specs::Places::place_of))]
pub(crate) fn place_of(axis: Axis, last: usize, number: i128) -> usize
    requires some { 0 < last }
    requires few { last ≤ 1000 }
    requires small { IsSmall axis }
    requires on { IsOn axis number }
    ensures value { result ≡ place_of axis last number }
    ensures within { result ≤ last }
{
    let length = axis.step * axis.steps as u128;
    share(last as u128, number.abs_diff(axis.start), length) as usize
}

// On a very long axis thousands are counted, so that a product fits.
#[tactic(auto, using(crate::proofs::Placing::thousands))]
fn share(last: u128, part: u128, whole: u128) -> u128
    requires few { last ≤ 1000 }
    requires part { part ≤ whole }
    requires some { 0 < whole }
    requires small { whole ≤ 3 * 10 ^ 38 }
    ensures value { result ≡ share last part whole }
    ensures within { result ≤ last }
{
    if whole < 100_000_000_000_000_000_000_000_000_000_000_000 {
        return proportion(last, part, whole);
    }
    proportion(last, part / 1000, whole / 1000)
}

// The share of the last place that a part of a whole has.
#[tactic(auto, using(crate::proofs::Placing::proportions))]
fn proportion(last: u128, part: u128, whole: u128) -> u128
    requires few { last ≤ 1000 }
    requires part { part ≤ whole }
    requires some { 0 < whole }
    requires small { whole ≤ 3 * 10 ^ 35 }
    ensures value { result ≡ proportion last part whole }
    ensures within { result ≤ last }
{
    part * last / whole
}

/// The place of a tick.
pub(crate) fn tick_place(axis: Axis, last: usize, tick: usize) -> usize
    requires some { 0 < last }
    requires few { last ≤ 1000 }
    requires small { IsSmall axis }
    requires tick { tick ≤ axis.steps }
    ensures value { result ≡ tick_place axis last tick }
    ensures within { result ≤ last }
{
    place_of(axis, last, tick_number(axis, tick))
}
