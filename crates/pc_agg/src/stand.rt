ghost use Rattle.std.specs.Prelude.{◌≡◌, ◌-◌, ◌<◌, ◌≤◌, ◌^◌, ◌==◌, nat_abs, length, All, Any, IfOk, IfSome, is_some};
ghost use Rattle.pc_branch_licences.specs.Pools.{AreLawful};
ghost use Rattle.pc_agg_search.specs.Wants.{want_for};
ghost use Rattle.pc_agg.specs.Grounds.{HasValues};
ghost use Rattle.pc_agg.specs.Rungs.{IsLadder};
ghost use Rattle.pc_agg_search.specs.Problem.{IsEasyFor, IsPosed, setting_of};
ghost use Rattle.pc_agg.specs.Stands.{is_observed, proof_of, want_at, IsAttaining, IsStoodOn, IsStoodSurely};
ghost use Rattle.pc_agg.specs.Posed.{HaveValue, IsStoodOf, MayHaveValue};
ghost use Rattle.pc_agg_search.specs.Posed.{AsksNumbers};

use crate::climb::{Climbed, Standing, climb};
use crate::ladder::{Ladder, Test, ladder_of};
use crate::rungs::program_at;
use pc_agg_search::{
    Extreme, FoundCounts, Problem, Targets, Want, find_keys, flat_tree, total_program, want_for,
};
use pc_list::Seq;
use pc_model::{Row, Tree};
use pc_num::Memory;
use pc_program_bound::Program;
use pc_proof::Proof;
use std::alloc::Global;

/// Where an end stands: its key, what shows that it holds, the program whose wanted counts attain it, and a row of each
/// cell with the cell's number at that end.
#[derive(Drop)]
pub(crate) struct Stand {
    pub key: i128,
    pub proof: Proof,
    pub program: Program,
    pub want: Want,
    pub picks: Seq<Row>,
}

/// A stand, with all counts that were found so far.
#[derive(Drop)]
pub(crate) struct On {
    pub stand: Stand,
    pub found: FoundCounts,
}

/// Where an end stands, or a tree that shows that there is no list.
#[derive(Drop)]
pub(crate) enum Stood {
    At(On),
    Empty(Tree),
}

/// Searches an end of a least or a greatest number by one of the tests, where the observed rows reach a key.
pub(crate) fn search_end(
    alloc: Global,
    problem: &Problem<'_>,
    extreme: Extreme,
    test: Test,
    seen: Option<i128>,
    found: FoundCounts,
) -> Result<Stood, Memory>
    requires posed { IsPosed problem.now }
    requires numbers { AsksNumbers problem.now }
    requires some { HasValues (setting_of problem.now) (is_some seen) }
    requires lawful { All (AreLawful (setting_of problem.now)) found }
    requires doubt { MayHaveValue problem.now seen found }
    requires small_seen { IfSome seen (λ m. nat_abs m ≤ 2 ^ 63) }
    ensures stood { IfOk result (IsStoodOf problem.now extreme test seen found) }
    ensures nested { IsEasyFor problem.now → 0 < length found → HaveValue problem.now seen found → IfOk result IsStoodSurely }
{
    let Targets { gains, picks } = find_keys(alloc, problem, extreme)?;
    let observed = seen.is_some();
    let ladder = ladder_of(alloc, problem, extreme, test, gains, seen)?;
    let want = want_at(test, observed);
    let climbed = climb(alloc, problem, &ladder, want, found)?;
    match climbed {
        Climbed::Empty(tree) => Ok(Stood::Empty(tree)),
        Climbed::At(standing) => {
            let on = stand_on(alloc, problem, &ladder, observed, standing, picks)?;
            Ok(Stood::At(on))
        }
    }
}

/// Which counts attain an end.
fn want_at(test: Test, observed: bool) -> Want
    ensures { result ≡ want_at test observed }
{
    match test {
        Test::Reach => Want::Gaining,
        Test::Avoid => want_for(observed),
    }
}

/// The stand on a rung of the ladder.
fn stand_on(
    alloc: Global,
    problem: &Problem<'_>,
    ladder: &Ladder,
    observed: bool,
    standing: Standing,
    picks: Seq<Row>,
) -> Result<On, Memory>
    requires posed { IsPosed problem.now }
    requires keyed { IsLadder (setting_of problem.now) ladder.now }
    requires inside { standing.place < length ladder.now.rungs }
    ensures stood { IfOk result (λ on. IsStoodOn (setting_of problem.now) (length problem.now.constraints.now) ladder.now observed standing picks on.stand on.found) }
{
    let Standing { place, tree, found } = standing;
    let key = ladder.rungs.as_slice()[place];
    let proof = proof_of(
        alloc,
        problem.constraints.len(),
        ladder.test,
        observed,
        tree,
    )?;
    let Attaining { program, want } = attaining_at(alloc, problem, ladder, observed, place)?;
    let stand = Stand {
        key,
        proof,
        program,
        want,
        picks,
    };
    Ok(On { stand, found })
}

/// A program and which of its counts attain the end. Where a far end is that of an observed row, any list does.
#[derive(Drop)]
struct Attaining {
    program: Program,
    want: Want,
}

fn attaining_at(
    alloc: Global,
    problem: &Problem<'_>,
    ladder: &Ladder,
    observed: bool,
    place: usize,
) -> Result<Attaining, Memory>
    requires posed { IsPosed problem.now }
    requires keyed { IsLadder (setting_of problem.now) ladder.now }
    requires inside { place < length ladder.now.rungs }
    ensures { IfOk result (λ made. IsAttaining (setting_of problem.now) ladder.now observed place made.program made.want) }
{
    if is_observed(ladder, observed, place) {
        let program = total_program(alloc, problem, 1)?;
        return Ok(Attaining {
            program,
            want: Want::Any,
        });
    }
    let program = program_at(alloc, problem, ladder, place)?;
    let want = want_at(ladder.test, observed);
    Ok(Attaining { program, want })
}

/// Whether the rung is that of an observed row at a far end.
fn is_observed(ladder: &Ladder, observed: bool, place: usize) -> bool
    requires inside { place < length ladder.now.rungs }
    ensures { result ≡ is_observed ladder.now.test observed (length ladder.now.rungs - place == 1) }
{
    match ladder.test {
        Test::Reach => observed && ladder.rungs.len() - place == 1,
        Test::Avoid => false,
    }
}

/// The tree of the rung before, or what shows the first rung: an observed row, or a tree of one leaf.
fn proof_of(
    alloc: Global,
    constraints: usize,
    test: Test,
    observed: bool,
    tree: Option<Tree>,
) -> Result<Proof, Memory>
    ensures { IfOk result (λ proof. proof ≡ proof_of constraints test observed tree) }
{
    if let Some(tree) = tree {
        return Ok(Proof::Tree(tree));
    }
    if observed && test == Test::Avoid {
        return Ok(Proof::Rows);
    }
    let tree = flat_tree(alloc, constraints)?;
    Ok(Proof::Tree(tree))
}
