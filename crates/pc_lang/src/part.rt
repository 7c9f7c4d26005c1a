ghost use Rattle.std.specs.Prelude.{◌≡◌, ◌+◌, true, length, Ok, Err, IfOk, MatchResult};
ghost use Rattle.pc_model.specs.Refusals.{Answers};
ghost use Rattle.pc_model.specs.Regions.{is_region_of};
ghost use Rattle.pc_model.specs.WellFormed.{IsWellFormed, HasFewNames, HaveFewNames};
ghost use Rattle.pc_lang.specs.Parts.{narrowed, narrowed_side, region_of};

use crate::claim::stated;
use pc_lang_grammar::{Atom, Claim, Part};
use pc_list::Seq;
use pc_model::{Column, Kind, ReadStop, Reason, Region, Schema, Side};
use std::alloc::Global;

/// The region that a part stands for: what its atoms leave of the domain, one after another.
#[tactic(auto, using(crate::proofs::RegionsOfParts::part_is_region, pc_model::proofs::FewNames::have_few_names))]
pub(crate) fn region_of(alloc: Global, schema: &Schema, part: &Part) -> Result<Region, ReadStop>
    requires well_formed { IsWellFormed schema.now }
    ensures answers { Answers result (region_of schema.now part.now) }
    ensures regional { IfOk result (λ region. is_region_of schema.now region ≡ true) }
{
    narrowed_region(alloc, schema, part)
}

#[tactic(auto, using(crate::proofs::Narrowing::atom_steps))]
fn narrowed_region(alloc: Global, schema: &Schema, part: &Part) -> Result<Region, ReadStop>
    requires { HaveFewNames schema.now.columns }
    ensures { Answers result (region_of schema.now part.now) }
{
    let columns = schema.columns.as_slice();
    let atoms = part.atoms.as_slice();
    let whole = schema.whole(alloc).map_err(|_| ReadStop::Memory)?;
    let mut sides = whole.sides.into_vec();
    for atom in atoms {
        narrow(columns, &mut sides, atom)?;
    }
    Ok(Region {
        sides: Seq::from_vec(sides),
    })
}

// Leaves of the side of the atom's column what the atom states.
#[tactic(auto, using(crate::proofs::Narrowing::column_steps))]
fn narrow(columns: &[Column], sides: &mut Vec<Side>, atom: &Atom) -> Result<(), Reason>
    requires even { length columns.now ≡ length sides.old.items }
    requires few_names { HaveFewNames columns.now }
    ensures { MatchResult result (λ _. narrowed columns.now atom.now sides.old.items ≡ Ok sides.new.items) (λ reason. narrowed columns.now atom.now sides.old.items ≡ Err reason) }
{
    for (place, column) in columns.iter().enumerate() {
        if column.name == atom.column {
            sides[place] = narrowed_side(&column.kind, &atom.claim, sides[place])?;
            return Ok(());
        }
    }
    Err(Reason::UnknownColumn)
}

#[tactic(auto, unfolding(crate::specs::Parts::narrowed_side))]
fn narrowed_side(kind: &Kind, claim: &Claim, side: Side) -> Result<Side, Reason>
    requires { HasFewNames kind.now }
    ensures { result ≡ narrowed_side kind.now claim.now side }
{
    let other = stated(kind, claim)?;
    match side.meet(other) {
        Some(less) => Ok(less),
        None => Err(Reason::EmptySpan),
    }
}
