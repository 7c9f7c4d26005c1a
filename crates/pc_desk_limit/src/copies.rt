ghost use Rattle.std.specs.Prelude.{◌≡◌, ◌∷◌, ◌++◌, [], IfOk};

use pc_list::Seq;
use pc_model::Region;
use pc_num::Memory;

/// Adds a copy of a box.
pub(crate) fn with_copy(boxes: Seq<Region>, region: &Region) -> Result<Seq<Region>, Memory>
    ensures { IfOk result (λ more. more ≡ boxes ++ region.now ∷ []) }
{
    let mut boxes = boxes;
    boxes.push(region.clone()?)?;
    Ok(boxes)
}

/// Adds copies of boxes.
#[tactic(auto, using(crate::proofs::Steps::copy_steps))]
pub(crate) fn with_copies(boxes: Seq<Region>, regions: &[Region]) -> Result<Seq<Region>, Memory>
    ensures { IfOk result (λ more. more ≡ boxes ++ regions.now) }
{
    let mut boxes = boxes;
    for region in regions {
        boxes = with_copy(boxes, region)?;
    }
    Ok(boxes)
}
