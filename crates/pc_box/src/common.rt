ghost use Rattle.std.specs.Prelude.{◌≡◌, ◌&&◌, IfOk, IfSome, MatchOption, length};
ghost use Rattle.pc_model.specs.Membership.{has};
ghost use Rattle.pc_model.specs.declared.row.Row.{Row};
ghost use Rattle.pc_model.specs.CutTrees.{IsApart};
ghost use Rattle.pc_box.specs.Boxes.{AreAlike};
ghost use Rattle.pc_box.specs.Sides.{common_region, common_sides};

use crate::compare::regions_meet;
use crate::sides::common_side;
use pc_list::Seq;
use pc_model::{Region, Side};
use pc_num::Memory;
use std::alloc::Global;

/// The box of the rows that two boxes of one schema have in common, if there is one.
pub fn meet(alloc: Global, a: &Region, b: &Region) -> Result<Option<Region>, Memory>
    requires alike { AreAlike a.now b.now }
    ensures rows { IfOk result (λ found. MatchOption found (IsApart a.now b.now) (λ common. (row : Row) → has common row ≡ (has a.now row && has b.now row))) }
    ensures alike { IfOk result (λ found. IfSome found (λ common. AreAlike a.now common)) }
{
    common_region(alloc, a, b)
}

#[tactic(auto, using(crate::proofs::Likeness::as_many_sides))]
fn common_region(alloc: Global, a: &Region, b: &Region) -> Result<Option<Region>, Memory>
    requires alike { AreAlike a.now b.now }
    ensures { IfOk result (λ found. found ≡ common_region a.now b.now) }
{
    if !regions_meet(a, b) {
        return Ok(None);
    }
    let sides = common_sides(alloc, a.sides.as_slice(), b.sides.as_slice())?;
    Ok(Some(Region { sides }))
}

#[tactic(auto, using(crate::proofs::CommonRows::steps))]
fn common_sides(alloc: Global, sides: &[Side], others: &[Side]) -> Result<Seq<Side>, Memory>
    requires { length sides.now ≡ length others.now }
    ensures { IfOk result (λ common. common ≡ common_sides sides.now others.now) }
{
    let mut common = Seq::new(alloc);
    for (place, side) in sides.iter().enumerate() {
        common.push(common_side(side, &others[place]))?;
    }
    Ok(common)
}
