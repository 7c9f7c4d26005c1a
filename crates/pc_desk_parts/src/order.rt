ghost use Rattle.std.specs.Prelude.{◌≡◌, IfOk};
ghost use Rattle.pc_desk_parts.specs.Ends.{size_of};
ghost use Rattle.pc_desk_parts.specs.Parts.{AreOrdered};

use crate::part::{Adds, Part};
use pc_num::Memory;

/// Those that add more come first, and those that add the same stay as they stand.
pub(crate) fn ordered(parts: Vec<Part>) -> Result<Vec<Part>, Memory>
    ensures { IfOk result (λ ordered. AreOrdered parts.items ordered.items) }
{
    let mut parts = parts;
    parts.sort_by(|part, other| size_of(other.adds).cmp(&size_of(part.adds)))?;
    Ok(parts)
}

fn size_of(adds: Adds) -> u128
    ensures { result ≡ size_of adds }
{
    match adds {
        Adds::Nothing => 0,
        Adds::Amount(amount) => amount.unsigned_abs(),
        Adds::Stands(_) => 0,
    }
}
