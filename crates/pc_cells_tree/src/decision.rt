ghost use Rattle.std.specs.Prelude.{◌≡◌, ◌+◌, ◌*◌, ◌^◌, ◌≤◌, ◌<◌, cond, length, slice_index_or, All};
ghost use Rattle.pc_model.specs.declared.constraint.Constraint.{Constraint};
ghost use Rattle.pc_model.specs.Accepted.{constraint_limit};
ghost use Rattle.pc_box.specs.Boxes.{IsAlikeTo};
ghost use Rattle.pc_cells_tree.specs.Decisions.{IsComparable, HasRegionIn, HasShortMask, IsMaskOf, IsRegionOf, IsFound, IsWithCrossing, with_bit};
ghost use Rattle.pc_cells_tree.specs.Knowing.{IsKnown, IsDecision};
ghost use Rattle.pc_cells_tree.specs.Stances.{column_limit};
ghost use Rattle.pc_cells_tree.specs.Standings.{HasBoxAt, IsLone, IsStandingAt, region_of};

use crate::area_stance::{AreaStance, compare_area};
use crate::choice::cut_through;
use crate::known::Known;
use crate::stance::{Stance, compare};
use crate::standing::{Crossing, Standing, is_before, is_lone, stand, stand_lone};
use pc_model::{Area, Constraint, Cut, LeafMark, Region, When};

/// What is done with a box, and what is known of both parts where it is cut.
#[derive(Clone, Copy, Debug, PartialEq, Eq)]
pub(crate) enum Decision {
    Settled(LeafMark),
    Divided { at: Cut, known: Known },
}

/// What constraints say of a box: one of them, that none of its rows can be lost; else one is crossed;
/// else each speaks of all of its rows or of none, as the mask says.
#[derive(Clone, Copy, Debug, PartialEq, Eq)]
pub(crate) enum Finding {
    Broken,
    Crossed(Crossing),
    Under { mask: u32 },
}

/// What constraints say, and what is known since they were asked.
#[derive(Clone, Copy, Debug, PartialEq, Eq)]
pub(crate) struct Learned {
    finding: Finding,
    known: Known,
}

impl Finding {
    /// With a constraint before the others that speaks of all rows or of none.
    #[inline(always)]
    fn with_bit(self, bit: bool) -> Finding
        requires { HasShortMask self }
        ensures { result ≡ with_bit bit self }
    {
        match self {
            Finding::Under { mask } => Finding::Under {
                mask: joined(mask, bit),
            },
            other => other,
        }
    }

    /// With one before them that is crossed.
    #[inline(always)]
    fn with_crossing(self, crossing: Crossing) -> Finding
        ensures { IsWithCrossing crossing self result }
    {
        match self {
            Finding::Broken => self,
            Finding::Crossed(other) if is_before(other, crossing) => self,
            _ => Finding::Crossed(crossing),
        }
    }
}

// A mask with a bit before the others.
#[inline(always)]
fn joined(mask: u32, bit: bool) -> u32
    requires { mask < 2 ^ constraint_limit }
    ensures { result ≡ 2 * mask + cond bit 1 0 }
{
    2 * mask + bit as u32
}

/// Settles a box of which something is known, or says how to cut it.
#[tactic(auto, using(crate::proofs::Decisions::ends))]
pub(crate) fn decide(
    part: &Region,
    constraints: &[Constraint],
    chosen: &Area,
    known: Known,
) -> Decision
    requires few { length constraints.now ≤ constraint_limit }
    requires comparable { IsComparable constraints.now chosen.now part.now }
    requires known { IsKnown constraints.now part.now known }
    ensures { IsDecision constraints.now chosen.now part.now result }
{
    let Learned { finding, known } = find(part, constraints, known);
    match finding {
        Finding::Broken => Decision::Settled(LeafMark::Barren),
        Finding::Crossed(crossing) => {
            let region = crossed_region(constraints, crossing);
            let at = cut_through(part, region, constraints, known);
            Decision::Divided { at, known }
        }
        Finding::Under { mask } => {
            if mask == 0 {
                return Decision::Settled(LeafMark::Barren);
            }
            decide_side(part, constraints, chosen, mask, known)
        }
    }
}

// Of a box of which each constraint speaks of all rows or of none: whether its rows are chosen, or how to cut it.
#[inline(always)]
#[tactic(auto, using(crate::proofs::Decisions::sides))]
fn decide_side(
    part: &Region,
    constraints: &[Constraint],
    chosen: &Area,
    mask: u32,
    known: Known,
) -> Decision
    requires few { length constraints.now ≤ constraint_limit }
    requires comparable { IsComparable constraints.now chosen.now part.now }
    requires some { 0 < mask }
    requires masked { IsMaskOf constraints.now part.now constraints.now mask }
    requires known { IsKnown constraints.now part.now known }
    ensures { IsDecision constraints.now chosen.now part.now result }
{
    match compare_area(part, chosen) {
        AreaStance::Inside => Decision::Settled(LeafMark::Class { mask, chosen: true }),
        AreaStance::Apart => Decision::Settled(LeafMark::Class {
            mask,
            chosen: false,
        }),
        AreaStance::Across { place, .. } => {
            let region = &chosen.boxes.as_slice()[place];
            let at = cut_through(part, region, constraints, known);
            Decision::Divided { at, known }
        }
    }
}

// The box of the area that is crossed, or the values.
#[inline(always)]
#[tactic(auto, using(crate::proofs::Decisions::regions))]
fn crossed_region(constraints: &[Constraint], crossing: Crossing) -> &Region
    requires there { crossing.place < length constraints.now }
    requires has { HasRegionIn constraints.now crossing }
    ensures { IsRegionOf constraints.now crossing result.now }
{
    let constraint = &constraints[crossing.place];
    match crossing.box_place {
        None => &constraint.values,
        Some(place) => box_of(&constraint.when, place),
    }
}

fn box_of(when: &When, place: usize) -> &Region
    requires { HasBoxAt when.now place }
    ensures { result.now ≡ region_of when.now place }
{
    match when {
        When::Boxes(area) => &area.boxes.as_slice()[place],
        When::Outside => unreachable!(),
    }
}

/// What is known of a box once each constraint was asked.
#[inline(always)]
pub(crate) fn learn(part: &Region, constraints: &[Constraint], known: Known) -> Known
    requires few { length constraints.now ≤ constraint_limit }
    requires sides { length part.now.sides ≤ column_limit }
    requires alike { All (IsAlikeTo part.now) constraints.now }
    requires known { IsKnown constraints.now part.now known }
    ensures { IsKnown constraints.now part.now result }
{
    find(part, constraints, known).known
}

// From the last one to the first.
#[inline(always)]
#[tactic(auto, using(crate::proofs::Decisions::rounds))]
fn find(part: &Region, constraints: &[Constraint], known: Known) -> Learned
    requires few { length constraints.now ≤ constraint_limit }
    requires sides { length part.now.sides ≤ column_limit }
    requires alike { All (IsAlikeTo part.now) constraints.now }
    requires known { IsKnown constraints.now part.now known }
    ensures finding { IsFound part.now constraints.now 0 result.finding }
    ensures known { IsKnown constraints.now part.now result.known }
{
    let finding = Finding::Under { mask: 0 };
    let mut learned = Learned { finding, known };
    for place in (0..constraints.len()).rev() {
        learned = learned_at(part, constraints, place, learned);
    }
    learned
}

// What the constraints from this place on say, where it is known what the later ones do.
#[inline(always)]
#[tactic(auto, using(crate::proofs::Decisions::tells))]
fn learned_at(part: &Region, constraints: &[Constraint], place: usize, later: Learned) -> Learned
    requires few { length constraints.now ≤ constraint_limit }
    requires sides { length part.now.sides ≤ column_limit }
    requires alike { All (IsAlikeTo part.now) constraints.now }
    requires there { place < length constraints.now }
    requires later { IsFound part.now constraints.now (place + 1) later.finding }
    requires known { IsKnown constraints.now part.now later.known }
    ensures finding { IsFound part.now constraints.now place result.finding }
    ensures known { IsKnown constraints.now part.now result.known }
{
    match later.known.told(place) {
        Some(bit) => Learned {
            finding: later.finding.with_bit(bit),
            known: later.known,
        },
        None => asked_at(part, constraints, place, later),
    }
}

// Most predicates are one box; what others take stands apart, so that the loop over the constraints is short.
#[inline(always)]
fn asked_at(part: &Region, constraints: &[Constraint], place: usize, later: Learned) -> Learned
    requires few { length constraints.now ≤ constraint_limit }
    requires sides { length part.now.sides ≤ column_limit }
    requires alike { All (IsAlikeTo part.now) constraints.now }
    requires there { place < length constraints.now }
    requires later { IsFound part.now constraints.now (place + 1) later.finding }
    requires known { IsKnown constraints.now part.now later.known }
    ensures finding { IsFound part.now constraints.now place result.finding }
    ensures known { IsKnown constraints.now part.now result.known }
{
    if is_lone(&constraints[place].when) {
        let standing = stand_lone(part, constraints, place);
        return found_from(part, constraints, place, standing, later);
    }
    asked_rare(part, constraints, place, later)
}

#[inline(never)]
fn asked_rare(part: &Region, constraints: &[Constraint], place: usize, later: Learned) -> Learned
    requires few { length constraints.now ≤ constraint_limit }
    requires sides { length part.now.sides ≤ column_limit }
    requires alike { All (IsAlikeTo part.now) constraints.now }
    requires there { place < length constraints.now }
    requires later { IsFound part.now constraints.now (place + 1) later.finding }
    requires known { IsKnown constraints.now part.now later.known }
    ensures finding { IsFound part.now constraints.now place result.finding }
    ensures known { IsKnown constraints.now part.now result.known }
{
    let standing = stand(part, constraints, place);
    found_from(part, constraints, place, standing, later)
}

#[inline(always)]
#[tactic(auto, using(crate::proofs::Decisions::steps))]
fn found_from(
    part: &Region,
    constraints: &[Constraint],
    place: usize,
    standing: Standing,
    later: Learned,
) -> Learned
    requires few { length constraints.now ≤ constraint_limit }
    requires sides { length part.now.sides ≤ column_limit }
    requires alike { All (IsAlikeTo part.now) constraints.now }
    requires there { place < length constraints.now }
    requires stands { IsStandingAt constraints.now part.now place standing }
    requires later { IsFound part.now constraints.now (place + 1) later.finding }
    requires known { IsKnown constraints.now part.now later.known }
    ensures finding { IsFound part.now constraints.now place result.finding }
    ensures known { IsKnown constraints.now part.now result.known }
{
    let Learned {
        finding: later,
        known,
    } = later;
    match standing {
        Standing::OfNone => Learned {
            finding: later.with_bit(false),
            known: known.with(place, false),
        },
        Standing::Open(crossing) => Learned {
            finding: later.with_crossing(crossing),
            known,
        },
        Standing::OfAll => match compare(part, &constraints[place].values) {
            Stance::Apart => Learned {
                finding: Finding::Broken,
                known,
            },
            Stance::Across { faces } => Learned {
                finding: later.with_crossing(Crossing {
                    place,
                    box_place: None,
                    faces,
                }),
                known,
            },
            Stance::Inside => Learned {
                finding: later.with_bit(true),
                known: known.with(place, true),
            },
        },
    }
}
