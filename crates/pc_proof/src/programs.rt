ghost use Rattle.std.specs.Prelude.{◌≡◌, List, Some, map, min, unwrap_or, if◌then◌else◌, IfOk};
ghost use Rattle.pc_model.specs.declared.constraint.Constraint.{Constraint};
ghost use Rattle.pc_model.specs.Cells.{Class};
ghost use Rattle.pc_model.specs.Places.{has_bit};
ghost use Rattle.pc_program_bound.specs.CellPrograms.{program_with};
ghost use Rattle.pc_proof.specs.Masks.{cap_for, program_by};

use pc_list::Seq;
use pc_model::Constraint;
use pc_num::Memory;
use pc_program_bound::Program;
use std::alloc::Global;

/// The program of the counts of rows in cells whose classes have these masks, with a gain for each cell.
pub fn program_of(
    alloc: Global,
    constraints: &[Constraint],
    masks: Seq<u32>,
    gains: Seq<i128>,
) -> Result<Program, Memory>
    ensures { IfOk result (λ program. (classes : List Class) → map (λ (class : Class). class.mask) classes ≡ masks → program ≡ program_with constraints.now classes gains) }
{
    program_by(alloc, constraints, masks, gains)
}

fn program_by(
    alloc: Global,
    constraints: &[Constraint],
    masks: Seq<u32>,
    gains: Seq<i128>,
) -> Result<Program, Memory>
    ensures { IfOk result (λ program. program ≡ program_by constraints.now masks gains) }
{
    let least = least_of(alloc, constraints)?;
    let most = most_of(alloc, constraints)?;
    let floor = floors_of(alloc, masks.as_slice())?;
    let cap = caps_of(alloc, constraints, masks.as_slice())?;
    Ok(Program {
        masks,
        least,
        most,
        floor,
        cap,
        gain: gains,
    })
}

fn least_of(alloc: Global, constraints: &[Constraint]) -> Result<Seq<u64>, Memory>
    ensures { IfOk result (λ least. least ≡ map (λ (c : Constraint). c.least) constraints.now) }
{
    let least = constraints
        .iter()
        .map(|constraint| constraint.least)
        .collect(alloc)?;
    Ok(Seq::from_vec(least))
}

fn most_of(alloc: Global, constraints: &[Constraint]) -> Result<Seq<u64>, Memory>
    ensures { IfOk result (λ most. most ≡ map (λ (c : Constraint). c.most) constraints.now) }
{
    let most = constraints
        .iter()
        .map(|constraint| constraint.most)
        .collect(alloc)?;
    Ok(Seq::from_vec(most))
}

fn floors_of(alloc: Global, masks: &[u32]) -> Result<Seq<u64>, Memory>
    ensures { IfOk result (λ floors. floors ≡ map (λ mask. 0) masks.now) }
{
    let floors = masks.iter().map(|_mask| 0).collect(alloc)?;
    Ok(Seq::from_vec(floors))
}

fn caps_of(alloc: Global, constraints: &[Constraint], masks: &[u32]) -> Result<Seq<u64>, Memory>
    ensures { IfOk result (λ caps. caps ≡ map (cap_for constraints.now) masks.now) }
{
    let caps = masks
        .iter()
        .map(|mask| cap_for(constraints, *mask))
        .collect(alloc)?;
    Ok(Seq::from_vec(caps))
}

/// The least `most` of the constraints of a mask, or 0 if it has none.
#[tactic(auto, using(crate::proofs::Caps::cap_steps))]
fn cap_for(constraints: &[Constraint], mask: u32) -> u64
    ensures { result ≡ cap_for constraints.now mask }
{
    let mut left = mask;
    let mut cap = None;
    for constraint in constraints {
        cap = lesser_cap(cap, left, constraint.most);
        left /= 2;
    }
    cap.unwrap_or(0)
}

/// The lesser of the cap so far and a constraint's `most`, if the first bit of the mask is set.
fn lesser_cap(cap: Option<u64>, mask: u32, most: u64) -> Option<u64>
    ensures { result ≡ (if has_bit mask 0 then Some (min (unwrap_or cap most) most) else cap) }
{
    if mask % 2 == 0 {
        return cap;
    }
    Some(cap.unwrap_or(most).min(most))
}
