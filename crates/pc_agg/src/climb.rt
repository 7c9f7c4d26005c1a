ghost use Rattle.std.specs.Prelude.{◌≡◌, ◌<◌, All, IfOk, length};
ghost use Rattle.pc_branch_licences.specs.Pools.{AreLawful};
ghost use Rattle.pc_agg.specs.Climbing.{above, narrowed};
ghost use Rattle.pc_agg.specs.Rungs.{program_at, IsLadder};
ghost use Rattle.pc_agg_search.specs.Problem.{IsEasyFor, IsPosed, setting_of};
ghost use Rattle.pc_agg.specs.Posed.{HalvesSpan, HalvesSurely, IsClimbedSurelyTo, IsClimbedTo, IsClimbedWithin, TestsMiddle};

use crate::ladder::{Ladder, Test};
use crate::rungs::program_at;
use pc_agg_search::{FoundCounts, ProbeVerdict, Probed, Problem, Want, probe};
use pc_model::Tree;
use pc_num::Memory;
use std::alloc::Global;

/// The rung that an end stands on, with a tree that rules out the rung before it, unless it is the first, and all counts
/// that were found so far.
#[derive(Drop)]
pub(crate) struct Standing {
    pub place: usize,
    pub tree: Option<Tree>,
    pub found: FoundCounts,
}

/// Where an end stands, or a tree that shows that no lost rows meet the constraints.
#[derive(Drop)]
pub(crate) enum Climbed {
    At(Standing),
    Empty(Tree),
}

/// Halves the rungs until one is left whose program has wanted counts, or may have them, while that of the rung before it
/// has none. The last rung is not tested.
pub(crate) fn climb(
    alloc: Global,
    problem: &Problem<'_>,
    ladder: &Ladder,
    want: Want,
    found: FoundCounts,
) -> Result<Climbed, Memory>
    requires posed { IsPosed problem.now }
    requires keyed { IsLadder (setting_of problem.now) ladder.now }
    requires some { 0 < length ladder.now.rungs }
    requires lawful { All (AreLawful (setting_of problem.now)) found }
    ensures climbed { IfOk result (IsClimbedTo problem.now ladder.now want found) }
    ensures nested { IsEasyFor problem.now → IfOk result (IsClimbedSurelyTo problem.now ladder.now want) }
    ensures tests { IfOk result (IsClimbedWithin problem.now ladder.now want found) }
{
    let mut span = Span {
        from: 0,
        to: ladder.rungs.len() - 1,
        tree: None,
        found,
    };
    while span.from < span.to {
        match halve(alloc, problem, ladder, want, span)? {
            Halved::Within(narrower) => span = narrower,
            Halved::Empty(tree) => return Ok(Climbed::Empty(tree)),
        }
    }
    Ok(Climbed::At(standing_of(span)))
}

/// The rungs among which an end stands, from the first to the last, with a tree that rules out the rung before them,
/// unless the first is that of the ladder, and all counts that were found so far.
#[derive(Drop)]
struct Span {
    from: usize,
    to: usize,
    tree: Option<Tree>,
    found: FoundCounts,
}

/// Fewer rungs, or a tree that shows that no lost rows meet the constraints.
#[derive(Drop)]
enum Halved {
    Within(Span),
    Empty(Tree),
}

fn standing_of(span: Span) -> Standing
    ensures { result ≡ record { place = span.from; tree = span.tree; found = span.found } }
{
    let Span {
        from,
        to: _,
        tree,
        found,
    } = span;
    Standing {
        place: from,
        tree,
        found,
    }
}

/// Tests the rung in the middle.
fn halve(
    alloc: Global,
    problem: &Problem<'_>,
    ladder: &Ladder,
    want: Want,
    span: Span,
) -> Result<Halved, Memory>
    requires posed { IsPosed problem.now }
    requires keyed { IsLadder (setting_of problem.now) ladder.now }
    requires several { span.from < span.to }
    requires inside { span.to < length ladder.now.rungs }
    requires lawful { All (AreLawful (setting_of problem.now)) span.found }
    ensures halved { IfOk result (HalvesSpan problem.now ladder.now want span) }
    ensures nested { IsEasyFor problem.now → IfOk result (HalvesSurely problem.now ladder.now want span) }
    ensures tested { IfOk result (TestsMiddle problem.now ladder.now want span) }
{
    let Span {
        from,
        to,
        tree,
        found,
    } = span;
    let middle = from + (to - from) / 2;
    let program = program_at(alloc, problem, ladder, middle)?;
    let probed = probe(alloc, &program, want, found, problem.nodes)?;
    Ok(narrowed(ladder.test, from, to, middle, tree, probed))
}

/// The rungs past the middle one, or up to it.
fn narrowed(
    test: Test,
    from: usize,
    to: usize,
    middle: usize,
    tree: Option<Tree>,
    probed: Probed,
) -> Halved
    requires inside { middle < to }
    ensures { result ≡ narrowed test from to middle tree probed.found probed.verdict }
{
    let Probed { verdict, found } = probed;
    match verdict {
        ProbeVerdict::Empty(shown) => match test {
            Test::Reach => Halved::Empty(shown),
            Test::Avoid => Halved::Within(above(middle, to, shown, found)),
        },
        ProbeVerdict::Short(shown) => Halved::Within(above(middle, to, shown, found)),
        ProbeVerdict::Open => Halved::Within(Span {
            from,
            to: middle,
            tree,
            found,
        }),
    }
}

/// The rungs past the middle one, which a tree rules out.
fn above(middle: usize, to: usize, shown: Tree, found: FoundCounts) -> Span
    requires inside { middle < to }
    ensures { result ≡ above middle to shown found }
{
    Span {
        from: middle + 1,
        to,
        tree: Some(shown),
        found,
    }
}
