ghost use Rattle.std.specs.Prelude.{◌≡◌, ◌≤◌, length};
ghost use Rattle.pc_box.specs.Boxes.{AreAlike};
ghost use Rattle.pc_box.specs.Sides.{sides_meet};
ghost use Rattle.pc_cells_tree.specs.Stances.{column_limit, side_faces, stance_of, HasMet, IsStance};

use pc_model::{Region, Side};

/// How a box stands to a region: its rows are all in it, or none is, or it reaches beyond the region along so
/// many open faces.
#[derive(Clone, Copy, Debug, PartialEq, Eq)]
pub(crate) enum Stance {
    Inside,
    Apart,
    Across { faces: usize },
}

#[inline(always)]
#[tactic(auto, using(crate::proofs::Stances::steps))]
pub(crate) fn compare(part: &Region, region: &Region) -> Stance
    requires alike { AreAlike part.now region.now }
    requires few { length part.now.sides ≤ column_limit }
    ensures { IsStance part.now region.now result }
{
    match met_faces(part, region) {
        None => Stance::Apart,
        Some(faces) => stance_of(faces),
    }
}

#[inline(always)]
fn stance_of(faces: usize) -> Stance
    ensures { result ≡ stance_of faces }
{
    if faces == 0 {
        return Stance::Inside;
    }
    Stance::Across { faces }
}

/// Along how many of its ends and sets a box reaches beyond a region that it meets.
#[inline(always)]
#[tactic(auto, using(crate::proofs::Stances::counting))]
fn met_faces(part: &Region, region: &Region) -> Option<usize>
    requires alike { AreAlike part.now region.now }
    requires few { length part.now.sides ≤ column_limit }
    ensures { HasMet part.now region.now result }
{
    let sides = part.sides.as_slice();
    let others = region.sides.as_slice();
    let mut faces = 0;
    for (place, side) in sides.iter().enumerate() {
        if !sides_meet(side, &others[place]) {
            return None;
        }
        faces += side_faces(side, &others[place]);
    }
    Some(faces)
}

#[inline(always)]
fn sides_meet(side: &Side, other: &Side) -> bool
    ensures { result ≡ sides_meet side.now other.now }
{
    side.meet(*other).is_some()
}

#[inline(always)]
#[tactic(auto, unfolding(crate::specs::Stances::side_faces))]
fn side_faces(side: &Side, other: &Side) -> usize
    ensures { result ≡ side_faces side.now other.now }
{
    match (*side, *other) {
        (
            Side::Span { low, high },
            Side::Span {
                low: other_low,
                high: other_high,
            },
        ) => (low < other_low) as usize + (other_high < high) as usize,
        (Side::Names { bits }, Side::Names { bits: other_bits }) => {
            (bits ^ (bits & other_bits) != 0) as usize
        }
        _ => 0,
    }
}
