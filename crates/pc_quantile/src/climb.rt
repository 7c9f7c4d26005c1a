//! The halving of the candidates of an end.
ghost use Rattle.std.specs.Prelude.{◌≡◌, ◌<◌, ◌+◌, All, IfOk, length};
ghost use Rattle.pc_program_bound.specs.Allocation.{IsProgram};
ghost use Rattle.pc_branch.specs.Ends.{HasSmallGains};
ghost use Rattle.pc_branch.specs.Outcome.{IsEasyProgram};
ghost use Rattle.pc_branch_licences.specs.Pools.{AreLawful};
ghost use Rattle.pc_agg_search.specs.Posed.{keys_of};
ghost use Rattle.pc_agg_search.specs.Problem.{IsEasyFor};
ghost use Rattle.pc_quantile.specs.Climbing.{AreRungsOf, HalvesSpan, HalvesSurely, IsClimbedSurelyTo, IsClimbedTo, program_after, want_after};
ghost use Rattle.pc_quantile.specs.Halving.{halved, IsProbedAfter, IsSureAfter};
ghost use Rattle.pc_quantile.specs.Measure.{IsMeasured, cells_for};

use crate::measure::Measure;
use crate::past::{least_past, program_past};
use crate::rungs::number_of;
use pc_agg_search::{Extreme, FoundCounts, ProbeVerdict, Probed, Want, probe};
use pc_list::Seq;
use pc_num::Memory;
use pc_program_bound::Program;
use std::alloc::Global;

/// The keys of the cells at an end, and those of the candidates, greatest first.
#[derive(Drop)]
pub(crate) struct Ladder {
    pub extreme: Extreme,
    pub keys: Seq<i128>,
    pub rungs: Seq<i128>,
}

/// The rung that an end stands on, and all counts that were found so far.
#[derive(Drop)]
pub(crate) struct Standing {
    pub place: usize,
    pub found: FoundCounts,
}

/// Where an end stands, or that no lost rows meet the constraints.
#[derive(Drop)]
pub(crate) enum Climbed {
    At(Standing),
    Empty,
}

/// The rungs among which an end stands, from the first to the last, and all counts that were found so far.
#[derive(Drop)]
pub(crate) struct Span {
    pub from: usize,
    pub to: usize,
    pub found: FoundCounts,
}

/// Fewer rungs, or that no lost rows meet the constraints.
#[derive(Drop)]
pub(crate) enum Halved {
    Within(Span),
    Empty,
}

/// Halves the rungs until one is left that no list passes, while lists that pass the next one were found or may be there.
pub(crate) fn climb(
    alloc: Global,
    measure: &Measure<'_>,
    ladder: &Ladder,
    found: FoundCounts,
) -> Result<Climbed, Memory>
    requires measured { IsMeasured measure.now }
    requires keyed { ladder.now.keys ≡ keys_of measure.now.problem ladder.now.extreme }
    requires rungs { AreRungsOf measure.now ladder.now.extreme ladder.now.rungs }
    requires some { 0 < length ladder.now.rungs }
    requires lawful { All (AreLawful (cells_for measure.now)) found }
    ensures climbed { IfOk result (IsClimbedTo measure.now ladder.now.extreme ladder.now.rungs found) }
    ensures nested { IsEasyFor measure.now.problem → IfOk result (IsClimbedSurelyTo measure.now ladder.now.extreme ladder.now.rungs) }
{
    let mut span = Span {
        from: 0,
        to: ladder.rungs.len() - 1,
        found,
    };
    while span.from < span.to {
        match halve(alloc, measure, ladder, span)? {
            Halved::Within(narrower) => span = narrower,
            Halved::Empty => return Ok(Climbed::Empty),
        }
    }
    Ok(Climbed::At(standing_of(span)))
}

fn standing_of(span: Span) -> Standing
    ensures { result ≡ record { place = span.from; found = span.found } }
{
    let Span { from, to: _, found } = span;
    Standing { place: from, found }
}

/// Tests whether some list passes the rung after the one in the middle.
fn halve(
    alloc: Global,
    measure: &Measure<'_>,
    ladder: &Ladder,
    span: Span,
) -> Result<Halved, Memory>
    requires measured { IsMeasured measure.now }
    requires keyed { ladder.now.keys ≡ keys_of measure.now.problem ladder.now.extreme }
    requires rungs { AreRungsOf measure.now ladder.now.extreme ladder.now.rungs }
    requires several { span.from < span.to }
    requires inside { span.to < length ladder.now.rungs }
    requires lawful { All (AreLawful (cells_for measure.now)) span.found }
    ensures halved { IfOk result (HalvesSpan measure.now ladder.now.extreme ladder.now.rungs span) }
    ensures nested { IsEasyFor measure.now.problem → IfOk result (HalvesSurely measure.now ladder.now.extreme ladder.now.rungs span) }
{
    let Span { from, to, found } = span;
    let middle = from + (to - from) / 2;
    let probed = probe_after(alloc, measure, ladder, middle, found)?;
    Ok(halved_at(from, to, middle, probed))
}

/// Whether some list passes the rung after this one.
fn probe_after(
    alloc: Global,
    measure: &Measure<'_>,
    ladder: &Ladder,
    place: usize,
    found: FoundCounts,
) -> Result<Probed, Memory>
    requires measured { IsMeasured measure.now }
    requires keyed { ladder.now.keys ≡ keys_of measure.now.problem ladder.now.extreme }
    requires rungs { AreRungsOf measure.now ladder.now.extreme ladder.now.rungs }
    requires inside { place + 1 < length ladder.now.rungs }
    requires lawful { All (AreLawful (cells_for measure.now)) found }
    ensures probed { IfOk result (IsProbedAfter measure.now ladder.now.extreme ladder.now.rungs place found) }
    ensures nested { IsEasyFor measure.now.problem → IfOk result (IsSureAfter measure.now ladder.now.extreme ladder.now.rungs place) }
{
    let Passing { program, want } = passing_after(alloc, measure, ladder, place)?;
    probe(alloc, &program, want, found, measure.problem.nodes)
}

/// A program, and which of its counts pass a rung.
#[derive(Drop)]
pub(crate) struct Passing {
    pub program: Program,
    pub want: Want,
}

/// The counts that pass the rung after this one.
pub(crate) fn passing_after(
    alloc: Global,
    measure: &Measure<'_>,
    ladder: &Ladder,
    place: usize,
) -> Result<Passing, Memory>
    requires measured { IsMeasured measure.now }
    requires keyed { ladder.now.keys ≡ keys_of measure.now.problem ladder.now.extreme }
    requires rungs { AreRungsOf measure.now ladder.now.extreme ladder.now.rungs }
    requires inside { place + 1 < length ladder.now.rungs }
    ensures program { IfOk result (λ made. made.program ≡ program_after (cells_for measure.now) ladder.now.extreme measure.now.asked.now ladder.now.rungs place) }
    ensures want { IfOk result (λ made. made.want ≡ want_after measure.now.seen.now ladder.now.extreme measure.now.asked.now ladder.now.rungs place) }
    ensures is_program { IfOk result (λ made. IsProgram made.program) }
    ensures small { IfOk result (λ made. HasSmallGains made.program) }
    ensures nested { IsEasyFor measure.now.problem → IfOk result (λ made. IsEasyProgram made.program) }
{
    let key = ladder.rungs.as_slice()[place + 1];
    let program = program_past(alloc, measure, ladder.extreme, ladder.keys.as_slice(), key)?;
    let number = number_of(ladder.extreme, key);
    let want = Want::From(least_past(measure, ladder.extreme, number));
    Ok(Passing { program, want })
}

/// The rungs past the one in the middle, or up to it.
fn halved_at(from: usize, to: usize, middle: usize, probed: Probed) -> Halved
    requires inside { middle < to }
    ensures { result ≡ halved from to middle probed.found probed.verdict }
{
    let Probed { verdict, found } = probed;
    match verdict {
        ProbeVerdict::Empty(_) => Halved::Empty,
        ProbeVerdict::Short(_) => Halved::Within(Span {
            from: middle + 1,
            to,
            found,
        }),
        ProbeVerdict::Open => Halved::Within(Span {
            from,
            to: middle,
            found,
        }),
    }
}
