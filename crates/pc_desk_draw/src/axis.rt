ghost use Rattle.std.specs.Prelude.{◌≡◌, ◌≤◌, ◌<◌, ◌+◌, ◌*◌, ◌^◌, ◌+ℤ◌, ◌-ℤ◌, ◌<ℤ◌, ◌≤ℤ◌, pos, unsigned_abs};
ghost use Rattle.pc_desk_draw.specs.Axes.{IsDrawn, IsOn, IsSmall, IsStepFor, axis_of, from_zero, multiple_below, step_for, steps_to, stepped, stretched, tick_number};

use crate::span::Span;

/// An axis: its least number, how far two ticks are from one another, and how many steps there are.
#[derive(Clone, Copy)]
pub(crate) struct Axis {
    pub start: i128,
    pub step: u128,
    pub steps: usize,
}

/// The axis on which these numbers stand.
#[tactic(auto, using(crate::proofs::Holding::sizes), unfolding(crate::specs::Axes::axis_of))]
pub(crate) fn axis_of(span: Span) -> Axis
    requires { IsDrawn span }
    ensures value { result ≡ axis_of span }
    ensures small { IsSmall result }
{
    let span = stretched(span);
    let step = step_for(span.high.abs_diff(span.low));
    stepped(step, span)
}

#[tactic(auto, using(crate::proofs::Placing::axes))]
fn stepped(step: u128, span: Span) -> Axis
    requires drawn { IsDrawn span }
    requires some { span.low <ℤ span.high }
    requires fits { IsStepFor (unsigned_abs (span.high -ℤ span.low)) step }
    ensures value { result ≡ stepped step span }
    ensures small { IsSmall result }
{
    let start = multiple_below(step, span.low);
    Axis {
        start,
        step,
        steps: steps_to(step, start, span.high),
    }
}

// One number alone stands on an axis from zero.
fn stretched(span: Span) -> Span
    requires { IsDrawn span }
    ensures value { result ≡ stretched span }
    ensures drawn { IsDrawn result }
    ensures some { result.low <ℤ result.high }
{
    if span.low < span.high {
        return span;
    }
    from_zero(span.low)
}

fn from_zero(number: i128) -> Span
    requires { unsigned_abs number ≤ 10 ^ 38 }
    ensures value { result ≡ from_zero number }
    ensures drawn { IsDrawn result }
    ensures some { result.low <ℤ result.high }
{
    if number < 0 {
        return Span {
            low: number,
            high: 0,
        };
    }
    if 0 < number {
        return Span {
            low: 0,
            high: number,
        };
    }
    Span {
        low: 0,
        high: 1_000_000,
    }
}

// The least round step of which four are as long.
#[tactic(auto, using(crate::proofs::Stepping::steps))]
fn step_for(length: u128) -> u128
    requires { length ≤ 2 * 10 ^ 38 }
    ensures { result ≡ step_for length }
{
    let mut power = 1;
    for _ in 0..38_usize {
        if length <= 4 * power {
            return power;
        }
        if length <= 8 * power {
            return 2 * power;
        }
        if length <= 20 * power {
            return 5 * power;
        }
        power *= 10;
    }
    0
}

// The greatest multiple of a step that is not above a number.
fn multiple_below(step: u128, number: i128) -> i128
    requires some { 0 < step }
    requires small { step ≤ 5 * 10 ^ 37 }
    requires drawn { unsigned_abs number ≤ 10 ^ 38 }
    ensures value { result ≡ multiple_below step number }
    ensures below { result ≤ℤ number }
    ensures near { number <ℤ (result +ℤ pos step) }
{
    number - number.rem_euclid(step as i128)
}

// As many steps as reach from a start to a number.
#[tactic(auto, using(crate::proofs::Placing::few_steps))]
fn steps_to(step: u128, start: i128, number: i128) -> usize
    requires some { 0 < step }
    requires few { unsigned_abs (number -ℤ start) ≤ 5 * step }
    ensures value { result ≡ steps_to step start number }
    ensures few { result ≤ 5 }
{
    number.abs_diff(start).div_ceil(step) as usize
}

/// The number of a tick.
#[tactic(auto, using(crate::proofs::Placing::ticks))]
pub(crate) fn tick_number(axis: Axis, tick: usize) -> i128
    requires small { IsSmall axis }
    requires within { tick ≤ axis.steps }
    ensures value { result ≡ tick_number axis tick }
    ensures on { IsOn axis result }
    ensures small { unsigned_abs result ≤ 15 * 10 ^ 37 }
{
    moved(axis.start, axis.step * tick as u128)
}

// A number and a distance above it, which may be too large for a signed number.
fn moved(number: i128, distance: u128) -> i128
    requires number { unsigned_abs number ≤ 15 * 10 ^ 37 }
    requires sum { unsigned_abs (number +ℤ pos distance) ≤ 15 * 10 ^ 37 }
    ensures { result ≡ number +ℤ pos distance }
{
    if number < 0 {
        return moved_up(number.unsigned_abs(), distance);
    }
    number + distance as i128
}

fn moved_up(below: u128, distance: u128) -> i128
    requires number { below ≤ 15 * 10 ^ 37 }
    requires sum { distance ≤ below + 15 * 10 ^ 37 }
    ensures { result ≡ pos distance -ℤ pos below }
{
    if distance < below {
        let size = (below - distance) as i128;
        return -size;
    }
    (distance - below) as i128
}
