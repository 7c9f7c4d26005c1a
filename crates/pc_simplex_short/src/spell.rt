ghost use Rattle.std.specs.Prelude.{◌≡◌, ◌+◌, length, map, All, IfOk};
ghost use Rattle.pc_simplex_tableau.specs.Conditions.{IsSized, AreFitNumbers};
ghost use Rattle.pc_simplex_short.specs.Short.{spelled, spelled_row, spelled_numbers, spelled_aim};
ghost use Rattle.pc_simplex_short.specs.Kept.{IsWithin, IsSetting, IsShortRow, IsShortAim, IsShort};

use crate::entry::{aim_entry, entry};
use crate::row::ShortRow;
use crate::setting::ShortSetting;
use crate::tableau::ShortTableau;
use pc_num::Memory;
use pc_simplex_tableau::{Tableau, WholeRow};
use std::alloc::Global;

/// The tableau that stands in short form, number by number.
pub fn spell_out(
    alloc: Global,
    setting: &ShortSetting,
    short: ShortTableau,
) -> Result<Tableau, Memory>
    requires setting { IsSetting setting.now }
    requires short { IsShort setting.now short }
    ensures value { IfOk result (λ t. t ≡ spelled setting.now short) }
    ensures sized { IfOk result (IsSized setting.now.columns) }
    ensures fits { IfOk result AreFitNumbers }
{
    spell_parts(alloc, setting, short)
}

fn spell_parts(
    alloc: Global,
    setting: &ShortSetting,
    short: ShortTableau,
) -> Result<Tableau, Memory>
    requires setting { IsSetting setting.now }
    requires short { IsShort setting.now short }
    ensures { IfOk result (λ t. t ≡ spelled setting.now short) }
{
    let rows = spell_rows(
        alloc,
        setting,
        short.turned.as_slice(),
        short.rows.as_slice(),
    )?;
    let aim = spell_aim(
        alloc,
        setting,
        short.turned.as_slice(),
        short.weight,
        short.aim.as_slice(),
    )?;
    Ok(Tableau {
        rows,
        turned: short.turned,
        aim,
        weight: short.weight,
    })
}

fn spell_rows(
    alloc: Global,
    setting: &ShortSetting,
    turned: &[bool],
    rows: &[ShortRow],
) -> Result<Vec<WholeRow>, Memory>
    requires setting { IsSetting setting.now }
    requires turned { length turned.now ≡ setting.now.columns.count }
    requires short { All (IsShortRow setting.now) rows.now }
    ensures { IfOk result (λ spelled. spelled.items ≡ map (spelled_row setting.now turned.now) rows.now) }
{
    let mut spelled = Vec::new(alloc);
    for row in rows {
        spelled.push(WholeRow {
            numbers: spell_numbers(alloc, setting, turned, row.numbers.as_slice())?,
            basic: row.basic,
        })?;
    }
    Ok(spelled)
}

#[tactic(auto, using(pc_simplex_tableau::proofs::Tables::table_steps))]
fn spell_numbers(
    alloc: Global,
    setting: &ShortSetting,
    turned: &[bool],
    numbers: &[i64],
) -> Result<Vec<i128>, Memory>
    requires setting { IsSetting setting.now }
    requires turned { length turned.now ≡ setting.now.columns.count }
    requires numbers { length numbers.now ≡ setting.now.constraints + 1 }
    requires small { All (IsWithin 50) numbers.now }
    ensures { IfOk result (λ spelled. spelled.items ≡ spelled_numbers setting.now turned.now numbers.now) }
{
    let mut spelled = Vec::new(alloc);
    for column in 0..setting.columns.count {
        spelled.push(i128::from(entry(setting, turned, numbers, column)))?;
    }
    spelled.push(i128::from(numbers[setting.constraints]))?;
    Ok(spelled)
}

#[tactic(auto, using(pc_simplex_tableau::proofs::Tables::table_steps))]
fn spell_aim(
    alloc: Global,
    setting: &ShortSetting,
    turned: &[bool],
    weight: i128,
    aim: &[i128],
) -> Result<Vec<i128>, Memory>
    requires setting { IsSetting setting.now }
    requires turned { length turned.now ≡ setting.now.columns.count }
    requires aim { IsShortAim setting.now weight aim.now }
    ensures { IfOk result (λ spelled. spelled.items ≡ spelled_aim setting.now turned.now weight aim.now) }
{
    let mut spelled = Vec::new(alloc);
    for column in 0..setting.columns.count {
        spelled.push(aim_entry(setting, turned, weight, aim, column))?;
    }
    Ok(spelled)
}
