//! The texts of changes and of widths.
ghost use Rattle.std.specs.Prelude.{◌≡◌, ◌≤◌, ◌++◌, ◌∷◌, [], ◌*◌, ◌^◌, ◌-◌, codes, decimal, int_div, pos, unsigned_abs, IfOk, OnOk};
ghost use Rattle.std.specs.List.{concat};
ghost use Rattle.pc_num.specs.Put.{scaled_text};
ghost use Rattle.pc_desk_table.specs.Texts.{shown};
ghost use Rattle.pc_desk_widths.specs.Texts.{change_text, limit_text, wider_text};
ghost use Rattle.pc_desk_widths.specs.Widths.{greatest};

use pc_desk_short::put_name_in;
use pc_desk_table::shown;
use pc_desk_weigh::{Change, Limit};
use pc_list::Text;
use pc_model::Constraint;
use pc_num::{Memory, put_scaled};
use std::alloc::Global;

/// A change: the name of its constraint and the new limit.
pub(crate) fn change_text(
    alloc: Global,
    constraints: &[Constraint],
    change: Change,
) -> Result<Text, Memory>
    ensures { IfOk result (λ text. text ≡ change_text constraints.now change) }
{
    let mut bytes = Vec::new(alloc);
    put_name_in(alloc, &mut bytes, constraints, change.place)?;
    put_limit(alloc, &mut bytes, change.limit)?;
    shown(alloc, bytes.as_slice())
}

fn put_limit(alloc: Global, out: &mut Vec<u8>, limit: Limit) -> Result<(), Memory>
    ensures { OnOk result (out.new.items ≡ out.old.items ++ limit_text limit) }
{
    match limit {
        Limit::Least(least) => put_number(alloc, out, b" least ", least),
        Limit::Most(most) => put_number(alloc, out, b" most ", most),
        Limit::Values => {
            out.extend_from_slice(b" values true")?;
            Ok(())
        }
    }
}

fn put_number(alloc: Global, out: &mut Vec<u8>, word: &[u8], number: u64) -> Result<(), Memory>
    ensures { OnOk result (out.new.items ≡ out.old.items ++ concat (word.now ∷ decimal number ∷ [])) }
{
    let digits = format!(in alloc; "{number}")?;
    out.extend_from_slice(word)?;
    out.extend_from_slice(digits.as_bytes())?;
    Ok(())
}

/// Millionths as a decimal of so many places, without what lies beyond these.
pub(crate) fn wider_text(alloc: Global, places: u8, millionths: i128) -> Result<Text, Memory>
    requires places { places ≤ 6 }
    ensures { IfOk result (λ text. text ≡ wider_text places millionths) }
{
    let mut bytes = Vec::new(alloc);
    put_scaled(alloc, &mut bytes, in_units(places, millionths), places)?;
    shown(alloc, bytes.as_slice())
}

// Towards 0.
fn in_units(places: u8, millionths: i128) -> i128
    requires { places ≤ 6 }
    ensures { result ≡ int_div millionths (pos (10 ^ (6 - places))) }
{
    match places {
        0 => millionths / 1_000_000,
        1 => millionths / 100_000,
        2 => millionths / 10_000,
        3 => millionths / 1_000,
        4 => millionths / 100,
        5 => millionths / 10,
        _ => millionths,
    }
}
