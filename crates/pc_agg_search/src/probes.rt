ghost use Rattle.std.specs.Prelude.{◌≡◌, ◌↔◌, ◌<◌, ◌≤◌, ◌++◌, ℕ, cond, All, IfOk, IsTrue, length};
ghost use Rattle.pc_program_bound.specs.Sums.{nat_at};
ghost use Rattle.pc_program_bound.specs.Allocation.{IsProgram, cells_of};
ghost use Rattle.pc_branch.specs.Ends.{HasSmallGains};
ghost use Rattle.pc_branch.specs.Outcome.{IsEasyProgram};
ghost use Rattle.pc_agg_search.specs.declared.probes.ProbeVerdict.TheVariants as verdicts;
ghost use Rattle.pc_agg_search.specs.Limits.{found_of};
ghost use Rattle.pc_agg_search.specs.Probing.{is_under, within};
ghost use Rattle.pc_agg_search.specs.Wants.{IsFound, IsMet, IsProbed, IsSure, IsPlaceOf};

use crate::reached::worth;
use crate::want::Want;
use pc_branch::{Outcome, solve};
use pc_list::Seq;
use pc_model::Tree;
use pc_num::Memory;
use pc_program_bound::Program;
use std::alloc::Global;

/// Counts that were found, each an allocation of the program that the cells make.
pub type FoundCounts = Seq<Seq<u64>>;

/// What a search for wanted counts says: a tree that shows that a program allows nothing, one that shows that it allows
/// nothing that is wanted, or neither. Then such counts were found, or the budget is spent.
#[derive(Debug, Drop)]
pub enum ProbeVerdict {
    Empty(Tree),
    Short(Tree),
    Open,
}

/// A verdict, and all counts that were found so far.
#[derive(Debug, Drop)]
pub struct Probed {
    pub verdict: ProbeVerdict,
    pub found: FoundCounts,
}

/// Looks for wanted counts of a program among those that were found, and else by a search of at most so many nodes.
pub fn probe(
    alloc: Global,
    program: &Program,
    want: Want,
    found: FoundCounts,
    nodes: u32,
) -> Result<Probed, Memory>
    requires program { IsProgram program.now }
    requires small { HasSmallGains program.now }
    requires met { All (IsMet program.now) found }
    requires nodes { (1 ≤ nodes) × (nodes ≤ 100_000) }
    ensures probed { IfOk result (IsProbed program.now want nodes found) }
    ensures nested { IsEasyProgram program.now → IfOk result (IsSure program.now want) }
{
    if let Some(_place) = find_wanted(program, want, found.as_slice()) {
        return Ok(Probed {
            verdict: ProbeVerdict::Open,
            found,
        });
    }
    match solve(alloc, program, nodes)? {
        Outcome::Best {
            counts,
            value,
            tree,
        } => within(want, value, tree, found, Some(counts)),
        Outcome::Nothing { tree } => Ok(Probed {
            verdict: ProbeVerdict::Empty(tree),
            found,
        }),
        Outcome::Spent {
            bound,
            found: best,
            tree,
        } => within(want, bound, tree, found, best),
    }
}

/// What a bound says, with what was found beside it.
fn within(
    want: Want,
    most: i128,
    tree: Tree,
    found: FoundCounts,
    best: Option<Seq<u64>>,
) -> Result<Probed, Memory>
    ensures { IfOk result (λ probed. probed ≡ within want most tree found best) }
{
    let found = with_best(found, best)?;
    Ok(Probed {
        verdict: verdict_of(want, most, tree),
        found,
    })
}

fn with_best(found: FoundCounts, best: Option<Seq<u64>>) -> Result<FoundCounts, Memory>
    ensures { IfOk result (λ all. all ≡ found ++ found_of best) }
{
    let Some(counts) = best else {
        return Ok(found);
    };
    let mut all = found;
    all.push(counts)?;
    Ok(all)
}

fn verdict_of(want: Want, most: i128, tree: Tree) -> ProbeVerdict
    ensures { result ≡ cond (is_under want most) (verdicts.Short tree) verdicts.Open }
{
    if is_under(want, most) {
        return ProbeVerdict::Short(tree);
    }
    ProbeVerdict::Open
}

/// Whether no counts of so much worth are wanted.
fn is_under(want: Want, most: i128) -> bool
    ensures { result ≡ is_under want most }
{
    match want {
        Want::Any => false,
        Want::Gaining => most <= 0,
        Want::Without => most < 0,
        Want::From(least) => most < least,
    }
}

/// The place of the first counts that are wanted.
pub fn find_wanted(program: &Program, want: Want, found: &[Seq<u64>]) -> Option<usize>
    requires program { IsProgram program.now }
    requires small { HasSmallGains program.now }
    requires met { All (IsMet program.now) found.now }
    ensures { IsPlaceOf (IsFound program.now want) found.now result }
{
    for place in 0..found.len() {
        if is_wanted(program, want, found[place].as_slice()) {
            return Some(place);
        }
    }
    None
}

/// Whether the cells have room for the counts, and these are wanted.
fn is_wanted(program: &Program, want: Want, counts: &[u64]) -> bool
    requires program { IsProgram program.now }
    requires small { HasSmallGains program.now }
    requires met { IsMet program.now counts.now }
    ensures { IsTrue result ↔ IsFound program.now want counts.now }
{
    if !fits(program, counts) {
        return false;
    }
    !is_under(want, worth(program, counts))
}

/// Whether each count is from the floor to the cap of its cell.
fn fits(program: &Program, counts: &[u64]) -> bool
    requires program { IsProgram program.now }
    requires sized { length counts.now ≡ cells_of program.now }
    ensures { IsTrue result ↔ ((i : ℕ) → i < cells_of program.now → (nat_at program.now.floor i ≤ nat_at counts.now i) × (nat_at counts.now i ≤ nat_at program.now.cap i)) }
{
    let floors = program.floor.as_slice();
    let caps = program.cap.as_slice();
    for cell in 0..counts.len() {
        if !is_between(floors[cell], counts[cell], caps[cell]) {
            return false;
        }
    }
    true
}

fn is_between(low: u64, number: u64, high: u64) -> bool
    ensures { IsTrue result ↔ ((low ≤ number) × (number ≤ high)) }
{
    low <= number && number <= high
}
