ghost use Rattle.std.specs.Prelude.{◌≡◌, ◌↔◌, IsTrue};

use pc_model::Area;

/// Whether two areas have the same boxes in the same order.
#[tactic(auto, using(crate::proofs::SameAreas::same_areas))]
pub(crate) fn are_same(area: &Area, other: &Area) -> bool
    ensures { IsTrue result ↔ (area.now ≡ other.now) }
{
    area == other
}
