//! Where an end stands, and which counts attain it.
ghost use Rattle.std.specs.Prelude.{◌≡◌, ◌<◌, All, IfOk, length};
ghost use Rattle.pc_program_bound.specs.Allocation.{IsProgram};
ghost use Rattle.pc_branch.specs.Ends.{HasSmallGains};
ghost use Rattle.pc_branch_licences.specs.Pools.{AreLawful};
ghost use Rattle.pc_agg.specs.Grounds.{HasValues};
ghost use Rattle.pc_agg_search.specs.Posed.{keys_of};
ghost use Rattle.pc_agg_search.specs.Problem.{IsEasyFor};
ghost use Rattle.pc_quantile.specs.Climbing.{AreRungsOf, AreWanted, HaveValue, IsStoodOf, IsStoodOn, IsStoodSurely, MayHaveValue};
ghost use Rattle.pc_quantile.specs.Measure.{IsMeasured, cells_for, has_numbers};

use crate::climb::{Climbed, Ladder, Passing, climb, passing_after};
use crate::measure::{Measure, is_observed};
use crate::rungs::rungs_of;
use pc_agg_search::{Extreme, FoundCounts, Targets, Want, chosen_program, find_keys, want_for};
use pc_list::Seq;
use pc_model::Row;
use pc_num::Memory;
use pc_program_bound::Program;
use std::alloc::Global;

/// Where an end stands: its key, the program whose wanted counts attain it, and a row of each cell with the cell's number
/// at that end.
#[derive(Drop)]
pub(crate) struct Stand {
    pub key: i128,
    pub program: Program,
    pub want: Want,
    pub picks: Seq<Row>,
}

/// A stand, with all counts that were found so far.
#[derive(Drop)]
pub(crate) struct On {
    pub stand: Stand,
    pub found: FoundCounts,
}

/// Where an end stands, or that there is no list.
#[derive(Drop)]
pub(crate) enum Stood {
    At(On),
    Empty,
}

/// Searches an end, from the counts that were found so far.
pub(crate) fn search_end(
    alloc: Global,
    measure: &Measure<'_>,
    extreme: Extreme,
    found: FoundCounts,
) -> Result<Stood, Memory>
    requires measured { IsMeasured measure.now }
    requires some { HasValues (cells_for measure.now) (has_numbers measure.now.seen.now) }
    requires lawful { All (AreLawful (cells_for measure.now)) found }
    requires doubt { MayHaveValue measure.now found }
    ensures stood { IfOk result (IsStoodOf measure.now extreme found) }
    ensures nested { IsEasyFor measure.now.problem → HaveValue measure.now found → IfOk result IsStoodSurely }
{
    let Targets { gains: keys, picks } = find_keys(alloc, &measure.problem, extreme)?;
    let rungs = rungs_of(alloc, measure, extreme, keys.as_slice(), picks.as_slice())?;
    let ladder = Ladder {
        extreme,
        keys,
        rungs,
    };
    let climbed = climb(alloc, measure, &ladder, found)?;
    match climbed {
        Climbed::Empty => Ok(Stood::Empty),
        Climbed::At(standing) => {
            let stand = stand_on(alloc, measure, &ladder, standing.place, picks)?;
            Ok(Stood::At(On {
                stand,
                found: standing.found,
            }))
        }
    }
}

/// The stand on a rung of the ladder.
fn stand_on(
    alloc: Global,
    measure: &Measure<'_>,
    ladder: &Ladder,
    place: usize,
    picks: Seq<Row>,
) -> Result<Stand, Memory>
    requires measured { IsMeasured measure.now }
    requires keyed { ladder.now.keys ≡ keys_of measure.now.problem ladder.now.extreme }
    requires rungs { AreRungsOf measure.now ladder.now.extreme ladder.now.rungs }
    requires inside { place < length ladder.now.rungs }
    ensures stood { IfOk result (IsStoodOn measure.now ladder.now.extreme ladder.now.rungs place picks) }
{
    let key = ladder.rungs.as_slice()[place];
    let Passing { program, want } = attaining(alloc, measure, ladder, place)?;
    Ok(Stand {
        key,
        program,
        want,
        picks,
    })
}

/// The counts that attain the rung: those that pass the next one, or on the last one those with a value.
fn attaining(
    alloc: Global,
    measure: &Measure<'_>,
    ladder: &Ladder,
    place: usize,
) -> Result<Passing, Memory>
    requires measured { IsMeasured measure.now }
    requires keyed { ladder.now.keys ≡ keys_of measure.now.problem ladder.now.extreme }
    requires rungs { AreRungsOf measure.now ladder.now.extreme ladder.now.rungs }
    requires inside { place < length ladder.now.rungs }
    ensures wanted { IfOk result (λ made. AreWanted (cells_for measure.now) measure.now.seen.now ladder.now.extreme measure.now.asked.now ladder.now.rungs place made.program made.want) }
    ensures is_program { IfOk result (λ made. IsProgram made.program) }
    ensures small { IfOk result (λ made. HasSmallGains made.program) }
{
    if ladder.rungs.len() - place > 1 {
        return passing_after(alloc, measure, ladder, place);
    }
    let program = chosen_program(alloc, &measure.problem, 1)?;
    let want = want_for(is_observed(measure.seen));
    Ok(Passing { program, want })
}
