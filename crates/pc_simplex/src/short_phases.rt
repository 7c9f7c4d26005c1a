ghost use Rattle.std.specs.Prelude.{◌≡◌, ◌<◌, ◌^◌, ℕ, List, All, length, pos, None, IsTrue, IfOk, IfSome};
ghost use Rattle.pc_program_bound.specs.Allocation.{IsProgram, constraints_of};
ghost use Rattle.pc_program_bound.specs.Bound.{IsFit};
ghost use Rattle.pc_simplex_tableau.specs.Numbers.{first_below};
ghost use Rattle.pc_simplex_tableau.specs.Relaxation.{columns_of, has_helper, phase_one, phase_two, phase_one_from, phase_two_from, first_tableau, at_void, multipliers, freed, does_freed_fit};
ghost use Rattle.pc_simplex_tableau.specs.Standing.{basic_at};
ghost use Rattle.pc_simplex_short.specs.Short.{spelled};
ghost use Rattle.pc_simplex_short.specs.Kept.{IsSetting, IsShort, IsShortRow};
ghost use Rattle.pc_simplex.specs.Floors.{AreFloors, is_overfull};
ghost use Rattle.pc_simplex.specs.Ended.{ending_of, IsSoundEnding};
ghost use Rattle.pc_simplex.specs.Phases.{after_phase_one};
ghost use Rattle.pc_simplex.specs.Shorts.{AreColumns, setting_of, is_left_short, has_left, IsEndingFrom, IsSoundEnd};

use crate::corner::Corner;
use crate::multipliers::multipliers;
use crate::phases::Ended;
use crate::setting::{first_setting, second_setting};
use crate::short_first::{first_short, second_short};
use pc_list::Seq;
use pc_num::Memory;
use pc_program_bound::Program;
use pc_simplex_short::{ShortRow, ShortRun, ShortSetting, ShortTableau, take_steps};
use pc_simplex_tableau::{Columns, Step};
use std::alloc::Global;

/// Takes the steps of both phases over rows in short form; none where a number is no longer small.
pub(crate) fn take_short_phases(
    alloc: Global,
    p: &Program,
    floor: &[u64],
    columns: Columns,
) -> Result<Option<Ended>, Memory>
    requires program { IsProgram p.now }
    requires gains { All IsFit p.now.gain }
    requires floors { AreFloors p.now floor.now }
    requires none { first_below (constraints_of p.now) (is_overfull p.now floor.now) ≡ None }
    requires columns { AreColumns p.now columns }
    ensures value { (caps : List ℕ) → columns ≡ phase_one p.now floor.now caps → IfOk result (λ o. IfSome o (λ e. ending_of e ≡ phase_one_from p.now floor.now caps (first_tableau p.now floor.now caps))) }
    ensures sound { (caps : List ℕ) → columns ≡ phase_one p.now floor.now caps → IfOk result (λ o. IfSome o (λ e. IsSoundEnding p.now floor.now caps (ending_of e))) }
{
    let setting = first_setting(alloc, p, floor, columns)?;
    let tableau = first_short(alloc, p, floor)?;
    phase_one(alloc, p, setting, tableau)
}

/// Takes the steps of both phases from the tableau in which the first starts.
fn phase_one(
    alloc: Global,
    p: &Program,
    setting: ShortSetting,
    start: ShortTableau,
) -> Result<Option<Ended>, Memory>
    requires program { IsProgram p.now }
    requires gains { All IsFit p.now.gain }
    requires columns { AreColumns p.now setting.columns }
    requires of { setting ≡ setting_of p.now setting.columns setting.gains setting.top }
    requires setting { IsSetting setting }
    requires short { IsShort setting start }
    ensures value { (floors caps : List ℕ) → setting.columns ≡ phase_one p.now floors caps → IfOk result (λ o. IfSome o (λ e. ending_of e ≡ phase_one_from p.now floors caps (spelled setting start))) }
    ensures sound { (floors caps : List ℕ) → setting.columns ≡ phase_one p.now floors caps → IfOk result (λ o. IfSome o (λ e. IsSoundEnding p.now floors caps (ending_of e))) }
{
    let mut tableau = start;
    if !free_of_basics(&mut tableau, &setting) {
        return Ok(None);
    }
    match take_steps(&setting, tableau, 20_000, Seq::new(alloc))? {
        Some(ShortRun::Ended(left, steps, tableau)) => {
            after_phase_one(alloc, p, setting, left, steps, tableau)
        }
        Some(ShortRun::Stalled(steps)) => Ok(Some(Ended::AtStall(steps))),
        None => Ok(None),
    }
}

/// Where a helper is left above nothing, the constraints cannot be met; else the second phase follows.
fn after_phase_one(
    alloc: Global,
    p: &Program,
    setting: ShortSetting,
    left: usize,
    steps: Seq<Step>,
    tableau: ShortTableau,
) -> Result<Option<Ended>, Memory>
    requires program { IsProgram p.now }
    requires gains { All IsFit p.now.gain }
    requires columns { AreColumns p.now setting.columns }
    requires of { setting ≡ setting_of p.now setting.columns setting.gains setting.top }
    requires setting { IsSetting setting }
    requires short { IsShort setting tableau }
    ensures value { (floors caps : List ℕ) → setting.columns ≡ phase_one p.now floors caps → IfOk result (λ o. IfSome o (λ e. ending_of e ≡ after_phase_one p.now floors caps left steps (spelled setting tableau))) }
    ensures sound { (floors caps : List ℕ) → setting.columns ≡ phase_one p.now floors caps → IfOk result (λ o. IfSome o (λ e. IsSoundEnding p.now floors caps (ending_of e))) }
{
    if has_helper(&setting, &tableau) {
        return Ok(Some(void_by(alloc, p, setting, steps, tableau)?));
    }
    phase_two(alloc, p, setting, left, steps, tableau)
}

/// A void box, by the multipliers at the end of the first phase.
fn void_by(
    alloc: Global,
    p: &Program,
    setting: ShortSetting,
    steps: Seq<Step>,
    tableau: ShortTableau,
) -> Result<Ended, Memory>
    requires count { setting.columns.count ≡ columns_of p.now }
    requires setting { IsSetting setting }
    requires short { IsShort setting tableau }
    ensures value { IfOk result (λ e. ending_of e ≡ at_void steps (multipliers p.now (spelled setting tableau) (pos 1))) }
    ensures sound { (floors caps : List ℕ) → IfOk result (λ e. IsSoundEnding p.now floors caps (ending_of e)) }
{
    let corner = Corner::short(setting, tableau);
    let mult = multipliers(alloc, p, &corner, 1)?;
    Ok(Ended::AtVoid(steps, mult))
}

/// Takes the steps of the second phase, of which so many are left.
fn phase_two(
    alloc: Global,
    p: &Program,
    setting: ShortSetting,
    left: usize,
    steps: Seq<Step>,
    tableau: ShortTableau,
) -> Result<Option<Ended>, Memory>
    requires program { IsProgram p.now }
    requires gains { All IsFit p.now.gain }
    requires columns { AreColumns p.now setting.columns }
    requires of { setting ≡ setting_of p.now setting.columns setting.gains setting.top }
    requires short { IsShort setting tableau }
    ensures value { (floors caps : List ℕ) → setting.columns ≡ phase_one p.now floors caps → IfOk result (λ o. IfSome o (λ e. ending_of e ≡ phase_two_from p.now floors caps left steps (spelled setting tableau))) }
    ensures sound { (floors caps : List ℕ) → setting.columns ≡ phase_one p.now floors caps → IfOk result (λ o. IfSome o (λ e. IsSoundEnding p.now floors caps (ending_of e))) }
{
    let setting = second_setting(alloc, p, setting)?;
    match second_short(alloc, p, tableau, setting.top)? {
        Some(start) => phase_two_from(setting, left, steps, start),
        None => Ok(None),
    }
}

/// Takes the steps of the second phase from the tableau in which it starts.
fn phase_two_from(
    setting: ShortSetting,
    left: usize,
    steps: Seq<Step>,
    start: ShortTableau,
) -> Result<Option<Ended>, Memory>
    requires setting { IsSetting setting }
    requires short { IsShort setting start }
    ensures value { IfOk result (λ o. IfSome o (λ e. IsEndingFrom setting.columns left steps (spelled setting start) (ending_of e))) }
    ensures sound { IfOk result (λ o. IfSome o (λ e. IsSoundEnd setting.columns (ending_of e))) }
{
    let mut tableau = start;
    if !free_of_basics(&mut tableau, &setting) {
        return Ok(None);
    }
    match take_steps(&setting, tableau, left, steps)? {
        Some(ShortRun::Ended(_left, steps, tableau)) => {
            let corner = Corner::short(setting, tableau);
            Ok(Some(Ended::AtVertex(steps, corner)))
        }
        Some(ShortRun::Stalled(steps)) => Ok(Some(Ended::AtStall(steps))),
        None => Ok(None),
    }
}

/// Frees the objective row of the basic columns, row by row. It answers false where a number is no longer small, and the
/// tableau is then of no more use.
fn free_of_basics(tableau: &mut ShortTableau, setting: &ShortSetting) -> bool
    requires setting { IsSetting setting.now }
    requires short { IsShort setting.now tableau.old }
    ensures fits { IsTrue result → IsTrue (does_freed_fit (spelled setting.now tableau.old)) }
    ensures freed { IsTrue result → spelled setting.now tableau.new ≡ freed (spelled setting.now tableau.old) }
    ensures short { IsTrue result → IsShort setting.now tableau.new }
{
    for at in 0..tableau.rows.len() {
        let basic = basic_at(tableau, at);
        if !tableau.free_aim(setting, basic, at) {
            return false;
        }
    }
    true
}

/// The basic column of a row.
fn basic_at(tableau: &ShortTableau, at: usize) -> usize
    requires { at < length tableau.now.rows }
    ensures { result ≡ basic_at tableau.now at }
{
    tableau.rows[at].basic
}

/// Whether some helper is left above nothing.
fn has_helper(setting: &ShortSetting, tableau: &ShortTableau) -> bool
    requires short { IsShort setting.now tableau.now }
    ensures { result ≡ has_helper setting.now.columns (spelled setting.now tableau.now) }
{
    is_any_left(setting, tableau)
}

fn is_any_left(setting: &ShortSetting, tableau: &ShortTableau) -> bool
    requires { IsShort setting.now tableau.now }
    ensures { result ≡ has_left setting.now tableau.now.rows }
{
    for row in tableau.rows.iter() {
        if is_left(setting, row) {
            return true;
        }
    }
    false
}

fn is_left(setting: &ShortSetting, row: &ShortRow) -> bool
    requires { IsShortRow setting.now row.now }
    ensures { result ≡ is_left_short setting.now row.now }
{
    if row.basic < setting.columns.ranges.len() {
        return false;
    }
    row.numbers[setting.constraints] > 0
}
