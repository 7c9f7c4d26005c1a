//! The numbers at which an end can stand.
ghost use Rattle.std.specs.Prelude.{◌≡◌, ◌≤◌, ◌^◌, ◌++◌, [], ◌∷◌, nat_abs, map, cond, length, IfOk};
ghost use Rattle.pc_num.specs.Scaled.{greatest_size};
ghost use Rattle.pc_agg_search.specs.Ends.{signed};
ghost use Rattle.pc_agg_search.specs.Posed.{AreAtEnd, keys_of};
ghost use Rattle.pc_quantile.specs.Climbing.{AreRungsOf};
ghost use Rattle.pc_quantile.specs.Measure.{IsMeasured};
ghost use Rattle.pc_quantile.specs.Rungs.{AreKeysOf};

use crate::measure::Measure;
use pc_agg::falling_of;
use pc_agg_search::Extreme;
use pc_cells::Cell;
use pc_list::Seq;
use pc_model::Row;
use pc_num::Memory;
use std::alloc::Global;

/// The keys of the candidates, each once, greatest first: those of the chosen cells, and of the observed numbers. The rows
/// have the cells' numbers at the end.
pub(crate) fn rungs_of(
    alloc: Global,
    measure: &Measure<'_>,
    extreme: Extreme,
    keys: &[i128],
    picks: &[Row],
) -> Result<Seq<i128>, Memory>
    requires measured { IsMeasured measure.now }
    requires keyed { keys.now ≡ keys_of measure.now.problem extreme }
    requires picked { AreAtEnd measure.now.problem extreme picks.now }
    ensures { IfOk result (AreRungsOf measure.now extreme) }
{
    let cells = measure.problem.cells.cells.as_slice();
    let chosen = chosen_keys(alloc, cells, keys)?;
    let all = with_seen(chosen, extreme, measure.seen)?;
    falling_of(alloc, all.into_vec())
}

/// The keys of the chosen cells.
fn chosen_keys(alloc: Global, cells: &[Cell], keys: &[i128]) -> Result<Seq<i128>, Memory>
    requires keyed { length keys.now ≡ length cells.now }
    ensures { IfOk result (AreKeysOf cells.now keys.now (length cells.now)) }
{
    let mut chosen = Seq::new(alloc);
    for place in 0..cells.len() {
        chosen = with_key(chosen, keys[place], cells[place].chosen)?;
    }
    Ok(chosen)
}

fn with_key(keys: Seq<i128>, key: i128, chosen: bool) -> Result<Seq<i128>, Memory>
    ensures { IfOk result (λ more. more ≡ cond chosen (keys ++ key ∷ []) keys) }
{
    if !chosen {
        return Ok(keys);
    }
    let mut more = keys;
    more.push(key)?;
    Ok(more)
}

/// The keys, and after them those of the observed numbers.
fn with_seen(keys: Seq<i128>, extreme: Extreme, seen: &[i64]) -> Result<Seq<i128>, Memory>
    ensures { IfOk result (λ all. all ≡ keys ++ map (signed extreme) seen.now) }
{
    let mut all = keys;
    for place in 0..seen.len() {
        all.push(key_of(extreme, seen[place]))?;
    }
    Ok(all)
}

/// The key of a number.
fn key_of(extreme: Extreme, number: i64) -> i128
    ensures key { result ≡ signed extreme number }
    ensures small { nat_abs result ≤ 2 ^ 63 }
{
    match extreme {
        Extreme::Low => -i128::from(number),
        Extreme::High => i128::from(number),
    }
}

/// The number of a key.
pub(crate) fn number_of(extreme: Extreme, key: i128) -> i128
    requires { nat_abs key ≤ greatest_size }
    ensures number { result ≡ signed extreme key }
    ensures small { nat_abs result ≤ greatest_size }
{
    match extreme {
        Extreme::Low => -key,
        Extreme::High => key,
    }
}
