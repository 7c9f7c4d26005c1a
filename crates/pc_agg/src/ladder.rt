ghost use Rattle.std.specs.Prelude.{◌≡◌, ◌++◌, ◌&&◌, [], ◌∷◌, cond, length, IfOk};
ghost use Rattle.std.specs.Option.{option_to_list};
ghost use Rattle.pc_proof.specs.Setting.{cells};
ghost use Rattle.pc_agg.specs.Kept.{passes, AreKept};
ghost use Rattle.pc_agg.specs.Rungs.{AreRungs, IsLadder};
ghost use Rattle.pc_agg_search.specs.Problem.{IsPosed, setting_of};
ghost use Rattle.pc_agg_search.specs.Posed.{keys_of};

use crate::falling::falling_of;
use pc_agg_search::{Extreme, Problem};
use pc_cells::Cell;
use pc_list::Seq;
use pc_num::Memory;
use std::alloc::Global;

/// How an end is tested at a number: whether some list has a row that reaches it, or whether some list has no row that
/// falls short of it.
#[derive(Clone, Copy, PartialEq, Eq)]
pub(crate) enum Test {
    Reach,
    Avoid,
}

/// The keys of the cells towards an end, and the keys at which the end can stand, greatest first. A key is the number at
/// the end, with its sign turned for a low end, so that a greater key is farther out. It is 0 for a cell that is not
/// chosen.
#[derive(Drop)]
pub(crate) struct Ladder {
    pub extreme: Extreme,
    pub test: Test,
    pub keys: Seq<i128>,
    pub rungs: Seq<i128>,
}

/// The ladder of an end, where the observed rows reach a key.
pub(crate) fn ladder_of(
    alloc: Global,
    problem: &Problem<'_>,
    extreme: Extreme,
    test: Test,
    keys: Seq<i128>,
    seen: Option<i128>,
) -> Result<Ladder, Memory>
    requires posed { IsPosed problem.now }
    requires keyed { keys ≡ keys_of problem.now extreme }
    ensures extreme { IfOk result (λ ladder. ladder.extreme ≡ extreme) }
    ensures test { IfOk result (λ ladder. ladder.test ≡ test) }
    ensures keyed { IfOk result (IsLadder (setting_of problem.now)) }
    ensures rungs { IfOk result (λ ladder. AreRungs (setting_of problem.now) extreme test seen ladder.rungs) }
{
    let kept = kept_keys(
        alloc,
        problem.cells.cells.as_slice(),
        keys.as_slice(),
        test,
        seen,
    )?;
    let numbers = with_seen(kept, seen)?;
    let rungs = falling_of(alloc, numbers.into_vec())?;
    Ok(Ladder {
        extreme,
        test,
        keys,
        rungs,
    })
}

/// The keys of chosen cells that pass.
fn kept_keys(
    alloc: Global,
    cells: &[Cell],
    keys: &[i128],
    test: Test,
    seen: Option<i128>,
) -> Result<Seq<i128>, Memory>
    requires sized { length keys.now ≡ length cells.now }
    ensures { IfOk result (AreKept cells.now keys.now test seen (length cells.now)) }
{
    let mut kept = Seq::new(alloc);
    for place in 0..cells.len() {
        let keeps = is_kept(&cells[place], keys[place], test, seen);
        kept = with_key(kept, keys[place], keeps)?;
    }
    Ok(kept)
}

fn is_kept(cell: &Cell, key: i128, test: Test, seen: Option<i128>) -> bool
    ensures { result ≡ (cell.now.chosen && passes test seen key) }
{
    if !cell.chosen {
        return false;
    }
    passes(test, seen, key)
}

/// Whether a key is above what was observed, or below it.
fn passes(test: Test, seen: Option<i128>, key: i128) -> bool
    ensures { result ≡ passes test seen key }
{
    let Some(observed) = seen else {
        return true;
    };
    match test {
        Test::Reach => observed < key,
        Test::Avoid => key < observed,
    }
}

fn with_key(kept: Seq<i128>, key: i128, keeps: bool) -> Result<Seq<i128>, Memory>
    ensures { IfOk result (λ more. more ≡ cond keeps (kept ++ key ∷ []) kept) }
{
    if !keeps {
        return Ok(kept);
    }
    let mut more = kept;
    more.push(key)?;
    Ok(more)
}

/// The keys with what was observed, where it is there.
fn with_seen(kept: Seq<i128>, seen: Option<i128>) -> Result<Seq<i128>, Memory>
    ensures { IfOk result (λ all. all ≡ kept ++ option_to_list seen) }
{
    let Some(observed) = seen else {
        return Ok(kept);
    };
    let mut all = kept;
    all.push(observed)?;
    Ok(all)
}
