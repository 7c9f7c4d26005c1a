ghost use Rattle.std.specs.Prelude.{◌≡◌, ◌<◌, ◌≤◌, ◌^◌, ◌-◌, ◌⊎◌, cond, nat_lt, [], ◌∷◌, Some, length, All, IfOk};
ghost use Rattle.pc_model.specs.Places.{has_bit};
ghost use Rattle.pc_program_bound.specs.Sums.{nat_at};
ghost use Rattle.pc_program_bound.specs.Allocation.{IsProgram, cells_of, constraints_of};
ghost use Rattle.pc_program_bound.specs.Bound.{IsFit};
ghost use Rattle.pc_simplex_tableau.specs.Numbers.{table};
ghost use Rattle.pc_simplex_tableau.specs.Relaxation.{columns_of};
ghost use Rattle.pc_simplex_tableau.specs.Standing.{gain_one, gain_two};
ghost use Rattle.pc_simplex_short.specs.Kept.{IsSetting};
ghost use Rattle.pc_simplex.specs.Floors.{AreFloors};
ghost use Rattle.pc_simplex.specs.Shorts.{AreColumns, IsGreatestSize, places_below, column_places, setting_of};

use crate::columns::columns_of;
use crate::first::first_aim;
use pc_list::Seq;
use pc_model::has_bit;
use pc_num::Memory;
use pc_program_bound::Program;
use pc_simplex_short::{Places, ShortSetting};
use pc_simplex_tableau::Columns;
use std::alloc::Global;

/// What the first phase leaves as it is.
pub(crate) fn first_setting(
    alloc: Global,
    p: &Program,
    floor: &[u64],
    columns: Columns,
) -> Result<ShortSetting, Memory>
    requires program { IsProgram p.now }
    requires floors { AreFloors p.now floor.now }
    requires columns { AreColumns p.now columns }
    ensures value { IfOk result (λ f. f ≡ setting_of p.now columns (table (columns_of p.now) (gain_one p.now floor.now)) 1) }
    ensures setting { IfOk result IsSetting }
{
    let places = all_places(alloc, p)?;
    let gains = Seq::from_vec(first_aim(alloc, p, floor)?);
    Ok(ShortSetting {
        columns,
        places,
        gains,
        top: 1,
        constraints: p.least.len(),
    })
}

/// What the second phase leaves as it is: the helpers are at 0, and the cells gain.
pub(crate) fn second_setting(
    alloc: Global,
    p: &Program,
    setting: ShortSetting,
) -> Result<ShortSetting, Memory>
    requires program { IsProgram p.now }
    requires gains { All IsFit p.now.gain }
    requires columns { AreColumns p.now setting.columns }
    requires setting { setting ≡ setting_of p.now setting.columns setting.gains setting.top }
    ensures value { IfOk result (λ f. f ≡ setting_of p.now (record setting.columns { helper = Some 0 }) (table (columns_of p.now) (gain_two p.now)) f.top) }
    ensures top { IfOk result (λ f. IsGreatestSize p.now.gain f.top) }
    ensures setting { IfOk result IsSetting }
{
    let gains = all_gains(alloc, p)?;
    let ShortSetting {
        columns,
        places,
        gains: _,
        top: _,
        constraints,
    } = setting;
    let mut columns = columns;
    columns.helper = Some(0);
    Ok(ShortSetting {
        columns,
        places,
        gains,
        top: greatest_gain(p),
        constraints,
    })
}

/// The greatest size of a gain, and at least 1.
fn greatest_gain(p: &Program) -> u128
    ensures { IsGreatestSize p.now.gain result }
{
    let mut top = 1;
    for gain in p.gain.as_slice() {
        top = greater(top, gain.unsigned_abs());
    }
    top
}

fn greater(a: u128, b: u128) -> u128
    ensures first { a ≤ result }
    ensures second { b ≤ result }
    ensures one { (result ≡ a) ⊎ (result ≡ b) }
{
    if a < b { b } else { a }
}

/// The gains of all columns: those of the cells, and 0.
#[tactic(auto, using(pc_simplex_tableau::proofs::Tables::table_steps))]
fn all_gains(alloc: Global, p: &Program) -> Result<Seq<i128>, Memory>
    requires program { IsProgram p.now }
    requires few { columns_of p.now < 2 ^ 32 }
    ensures { IfOk result (λ gains. gains ≡ table (columns_of p.now) (gain_two p.now)) }
{
    let mut gains = Seq::new(alloc);
    for column in 0..columns_of(p) {
        gains.push(gain_of(p, column))?;
    }
    Ok(gains)
}

fn gain_of(p: &Program, column: usize) -> i128
    requires program { IsProgram p.now }
    ensures { result ≡ gain_two p.now column }
{
    let gains = p.gain.as_slice();
    if column < gains.len() {
        return gains[column];
    }
    0
}

/// The constraints of each column by number.
#[tactic(auto, using(pc_simplex_tableau::proofs::Tables::table_steps))]
fn all_places(alloc: Global, p: &Program) -> Result<Places, Memory>
    requires program { IsProgram p.now }
    requires few { columns_of p.now < 2 ^ 32 }
    ensures { IfOk result (λ places. places ≡ table (columns_of p.now) (column_places p.now)) }
{
    let mut places = Places::new(alloc);
    let mut own = Vec::new(alloc);
    for column in 0..columns_of(p) {
        own = column_places(own, p, column)?;
        places.push(own.as_slice())?;
    }
    Ok(places)
}

/// The constraints of a column, in the memory of a list that is done with.
fn column_places(done: Vec<usize>, p: &Program, column: usize) -> Result<Vec<usize>, Memory>
    requires program { IsProgram p.now }
    requires few { columns_of p.now < 2 ^ 32 }
    requires own { column < columns_of p.now }
    ensures { IfOk result (λ places. places.items ≡ column_places p.now column) }
{
    let masks = p.masks.as_slice();
    let constraints = p.least.len();
    if column < masks.len() {
        return mask_places(done, masks[column], constraints);
    }
    let slack = column - masks.len();
    if slack < constraints {
        return only(done, slack);
    }
    only(done, slack - constraints)
}

fn only(done: Vec<usize>, place: usize) -> Result<Vec<usize>, Memory>
    ensures { IfOk result (λ places. places.items ≡ place ∷ []) }
{
    let mut places = done;
    places.clear();
    places.push(place)?;
    Ok(places)
}

/// The places of the bits of a mask, below that many.
#[tactic(auto, using(crate::proofs::Settings::place_steps))]
fn mask_places(done: Vec<usize>, mask: u32, count: usize) -> Result<Vec<usize>, Memory>
    requires few { count ≤ 20 }
    ensures { IfOk result (λ places. places.items ≡ places_below count mask) }
{
    let mut places = done;
    places.clear();
    for place in 0..count {
        if has_bit(u128::from(mask), place) {
            places.push(place)?;
        }
    }
    Ok(places)
}
