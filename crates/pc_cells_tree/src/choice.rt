ghost use Rattle.std.specs.Prelude.{◌≡◌, ◌≤◌, ◌<◌, min, length, All, MatchOption, ⊤};
ghost use Rattle.std.specs.List.{list_any};
ghost use Rattle.pc_model.specs.Accepted.{constraint_limit};
ghost use Rattle.pc_model.specs.CutTrees.{IsInside};
ghost use Rattle.pc_box.specs.Boxes.{AreAlike, IsAlikeTo, IsAlikeToWhen};
ghost use Rattle.pc_cells_tree.specs.Choices.{passed_by, fewer_of, is_passed_box, is_passed_when, is_split, IsChosen, IsCounted};
ghost use Rattle.pc_cells_tree.specs.Stances.{column_limit, span_cut, set_cut, side_cut, IsAlong, IsCandidateFor};

use crate::known::Known;
use pc_box::apart;
use pc_model::{Constraint, Cut, Region, Side, When};

/// A cut, and through how many predicates it passes, once it was counted.
#[derive(Clone, Copy, Debug, PartialEq, Eq)]
struct Candidate {
    cut: Cut,
    passed: Option<usize>,
}

/// A cut through a region that a box crosses: of one for each column, the first of those that pass through the
/// fewest predicates.
#[tactic(auto, using(crate::proofs::Choices::ends))]
pub(crate) fn cut_through(
    part: &Region,
    region: &Region,
    constraints: &[Constraint],
    known: Known,
) -> Cut
    requires few { length part.now.sides ≤ column_limit }
    requires places { length constraints.now ≤ constraint_limit }
    requires alike { AreAlike part.now region.now }
    requires all_alike { All (IsAlikeTo part.now) constraints.now }
    requires not_inside { IsInside part.now region.now → ⊥ }
    ensures along { IsAlong part.now region.now result }
    ensures chosen { IsChosen part.now region.now constraints.now known result }
{
    match cut_along(part, region, constraints, known) {
        Some(candidate) => candidate.cut,
        None => unreachable!(),
    }
}

#[tactic(auto, using(crate::proofs::Choices::cuts))]
fn cut_along(
    part: &Region,
    region: &Region,
    constraints: &[Constraint],
    known: Known,
) -> Option<Candidate>
    requires few { length part.now.sides ≤ column_limit }
    requires places { length constraints.now ≤ constraint_limit }
    requires alike { AreAlike part.now region.now }
    requires all_alike { All (IsAlikeTo part.now) constraints.now }
    ensures candidate { IsCandidateFor part.now region.now result }
    ensures chosen { MatchOption result ⊤ (λ one. IsChosen part.now region.now constraints.now known one.cut) }
{
    let sides = part.sides.as_slice();
    let others = region.sides.as_slice();
    let mut best = None;
    for (place, side) in sides.iter().enumerate() {
        if let Some(cut) = side_cut(place as u8, side, &others[place]) {
            best = Some(fewer(part, constraints, known, best, cut));
        }
    }
    best
}

// The best so far, or another that passes through fewer. The first one is not counted before there is another.
fn fewer(
    part: &Region,
    constraints: &[Constraint],
    known: Known,
    best: Option<Candidate>,
    cut: Cut,
) -> Candidate
    requires places { length constraints.now ≤ constraint_limit }
    requires alike { All (IsAlikeTo part.now) constraints.now }
    requires counted { MatchOption best ⊤ (IsCounted part.now constraints.now known) }
    ensures fewer { MatchOption best (result.cut ≡ cut) (λ one. result.cut ≡ fewer_of (passed_by part.now constraints.now known) one.cut cut) }
    ensures counted { IsCounted part.now constraints.now known result }
{
    match best {
        None => Candidate { cut, passed: None },
        Some(best) => fewer_of(part, constraints, known, best, cut),
    }
}

fn fewer_of(
    part: &Region,
    constraints: &[Constraint],
    known: Known,
    best: Candidate,
    cut: Cut,
) -> Candidate
    requires places { length constraints.now ≤ constraint_limit }
    requires alike { All (IsAlikeTo part.now) constraints.now }
    requires counted { IsCounted part.now constraints.now known best }
    ensures fewer { result.cut ≡ fewer_of (passed_by part.now constraints.now known) best.cut cut }
    ensures counted { IsCounted part.now constraints.now known result }
{
    let fewest = passed_by_best(part, constraints, known, &best);
    let passed = passed_by(part, constraints, known, &cut, fewest);
    if fewest <= passed {
        return Candidate {
            cut: best.cut,
            passed: Some(fewest),
        };
    }
    Candidate {
        cut,
        passed: Some(passed),
    }
}

#[tactic(auto, using(crate::proofs::Chosen::passed_few))]
fn passed_by_best(
    part: &Region,
    constraints: &[Constraint],
    known: Known,
    best: &Candidate,
) -> usize
    requires places { length constraints.now ≤ constraint_limit }
    requires alike { All (IsAlikeTo part.now) constraints.now }
    requires counted { IsCounted part.now constraints.now known best.now }
    ensures { result ≡ passed_by part.now constraints.now known best.now.cut }
{
    match best.passed {
        Some(passed) => passed,
        None => passed_by(part, constraints, known, &best.cut, constraints.len()),
    }
}

/// How many predicates have rows of the box on either hand of the cut, as far as its column tells; no more are
/// counted than the most that is asked for. Of those that are settled, the ones that hold the box would count for
/// each cut through it and the ones apart for none, so that they are left out.
fn passed_by(
    part: &Region,
    constraints: &[Constraint],
    known: Known,
    cut: &Cut,
    most: usize,
) -> usize
    requires places { length constraints.now ≤ constraint_limit }
    requires alike { All (IsAlikeTo part.now) constraints.now }
    ensures { result ≡ min most (passed_by part.now constraints.now known cut.now) }
{
    let mut passed = 0;
    for (place, constraint) in constraints.iter().enumerate() {
        if most <= passed {
            return passed;
        }
        if known.is_open(place) && passes(part, &constraint.when, cut) {
            passed += 1;
        }
    }
    passed
}

// What is outside has no box of its own, and the areas that bound it are counted.
#[inline(always)]
fn passes(part: &Region, when: &When, cut: &Cut) -> bool
    requires { IsAlikeToWhen part.now when.now }
    ensures { result ≡ is_passed_when part.now cut.now when.now }
{
    match when {
        When::Boxes(area) => passes_some(part, area.boxes.as_slice(), cut),
        When::Outside => false,
    }
}

fn passes_some(part: &Region, boxes: &[Region], cut: &Cut) -> bool
    requires { All (AreAlike part.now) boxes.now }
    ensures { result ≡ list_any (is_passed_box part.now cut.now) boxes.now }
{
    for region in boxes {
        if passes_box(part, region, cut) {
            return true;
        }
    }
    false
}

#[inline(always)]
#[tactic(auto, using(crate::proofs::Chosen::not_met))]
fn passes_box(part: &Region, region: &Region, cut: &Cut) -> bool
    requires { AreAlike part.now region.now }
    ensures { result ≡ is_passed_box part.now cut.now region.now }
{
    is_split(part, region, cut) && !apart(part, region)
}

#[inline(always)]
#[tactic(auto, unfolding(crate::specs::Choices::is_split, crate::specs::Choices::is_shared_parted, pc_box::specs::Cuts::divides_side))]
fn is_split(part: &Region, region: &Region, cut: &Cut) -> bool
    ensures { result ≡ is_split part.now region.now cut.now }
{
    match *cut {
        Cut::At { column, at } => match region.sides.as_slice().get(column as usize) {
            Some(Side::Span { low, high }) => *low <= at && at < *high,
            _ => false,
        },
        Cut::Among { column, bits } => {
            let side = part.sides.as_slice().get(column as usize);
            let other = region.sides.as_slice().get(column as usize);
            match (side, other) {
                (Some(Side::Names { bits: held }), Some(Side::Names { bits: others })) => {
                    let common = held & others;
                    common & bits != 0 && common & bits != common
                }
                _ => false,
            }
        }
    }
}

// The cut between the numbers of a side that are in another and those that are not, if there are any.
#[tactic(auto, unfolding(crate::specs::Stances::side_cut))]
fn side_cut(column: u8, side: &Side, other: &Side) -> Option<Cut>
    ensures { result ≡ side_cut column side.now other.now }
{
    match (*side, *other) {
        (
            Side::Span { low, high },
            Side::Span {
                low: other_low,
                high: other_high,
            },
        ) => span_cut(column, (low, high), (other_low, other_high)),
        (Side::Names { bits }, Side::Names { bits: other_bits }) => {
            set_cut(column, bits, other_bits)
        }
        _ => None,
    }
}

fn span_cut(column: u8, span: (i64, i64), other: (i64, i64)) -> Option<Cut>
    ensures { result ≡ span_cut column span.0 span.1 other.0 other.1 }
{
    if span.0 < other.0 {
        return Some(Cut::At {
            column,
            at: other.0 - 1,
        });
    }
    if other.1 < span.1 {
        return Some(Cut::At {
            column,
            at: other.1,
        });
    }
    None
}

fn set_cut(column: u8, bits: u128, other: u128) -> Option<Cut>
    ensures { result ≡ set_cut column bits other }
{
    if bits ^ (bits & other) == 0 {
        return None;
    }
    Some(Cut::Among {
        column,
        bits: other,
    })
}
