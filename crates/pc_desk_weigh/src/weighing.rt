//! What a question comes to under each change.
ghost use Rattle.std.specs.Prelude.{◌≡◌, [], ◌∷◌, ◌++◌, ◌≤◌, IfOk, Some, length, map, option_map, slice_get};
ghost use Rattle.pc_model.specs.WellFormed.{HaveFewNames};
ghost use Rattle.pc_files.specs.Reads.{IsUsable};
ghost use Rattle.pc_desk_answers.specs.Blocks.{asked_by, ground_of};
ghost use Rattle.pc_desk_answers.specs.Questions.{IsQuestion};
ghost use Rattle.pc_desk_weigh.specs.Listed.{listed};
ghost use Rattle.pc_desk_weigh.specs.Weighed.{AreWeighed, all_changes, constraints_under, weighed_of, weighed_with};

use crate::change::Change;
use crate::changes::{changed, changes_of};
use crate::weighed::Weighed;
use pc_desk_answers::{Question, Watch, answer_under_each};
use pc_desk_table::Entry;
use pc_files::Observed;
use pc_list::Seq;
use pc_model::{Constraint, Schema};
use pc_num::Memory;
use pc_session::copies_of;
use std::alloc::Global;

/// What a question comes to as constraints stand, and under each change of one limit of them, or of the one at a place. The watch is
/// told of each that is answered.
#[tactic(auto, using(pc_model::proofs::FewNames::have_few_names))]
pub fn weigh<W: Watch>(
    alloc: Global,
    observed: &Observed,
    question: &Question,
    asked: Option<usize>,
    nodes: u32,
    watch: &mut W,
) -> Result<Seq<Weighed>, Memory>
    requires usable { IsUsable observed.now }
    requires asked { IsQuestion observed.now.schema question.now }
    requires budget { (1 ≤ nodes) × (nodes ≤ 100_000) }
    ensures weighed { IfOk result (AreWeighed (ground_of observed.now nodes) (asked_by observed.now.schema question.now) asked) }
{
    let schema = &observed.schema;
    let constraints = observed.constraints.as_slice();
    let changes = all_changes(alloc, schema, constraints, asked)?;
    let lists = constraints_under_each(alloc, schema, constraints, changes.as_slice())?;
    let answers = answer_under_each(alloc, observed, question, lists.as_slice(), nodes, watch)?;
    weighed_of(alloc, changes.as_slice(), answers)
}

// No change, and then each.
fn all_changes(
    alloc: Global,
    schema: &Schema,
    constraints: &[Constraint],
    asked: Option<usize>,
) -> Result<Seq<Option<Change>>, Memory>
    requires names { HaveFewNames schema.now.columns }
    ensures { IfOk result (λ all. all ≡ all_changes schema.now constraints.now asked) }
{
    let changes = changes_of(alloc, schema, constraints, asked)?;
    let mut all = Seq::new(alloc);
    all.push(None)?;
    with_each(all, changes.as_slice())
}

fn with_each(all: Seq<Option<Change>>, changes: &[Change]) -> Result<Seq<Option<Change>>, Memory>
    ensures { IfOk result (λ new. new ≡ all ++ map Some changes.now) }
{
    let mut all = all;
    for change in changes {
        let change = *change;
        all.push(Some(change))?;
    }
    Ok(all)
}

fn constraints_under_each(
    alloc: Global,
    schema: &Schema,
    constraints: &[Constraint],
    changes: &[Option<Change>],
) -> Result<Seq<Seq<Constraint>>, Memory>
    requires names { HaveFewNames schema.now.columns }
    ensures { IfOk result (λ lists. lists ≡ map (constraints_under schema.now constraints.now) changes.now) }
{
    let mut lists = Seq::new(alloc);
    for change in changes {
        let list = constraints_under(alloc, schema, constraints, *change)?;
        lists.push(list)?;
    }
    Ok(lists)
}

fn constraints_under(
    alloc: Global,
    schema: &Schema,
    constraints: &[Constraint],
    change: Option<Change>,
) -> Result<Seq<Constraint>, Memory>
    requires names { HaveFewNames schema.now.columns }
    ensures { IfOk result (λ new. new ≡ constraints_under schema.now constraints.now change) }
{
    match change {
        None => copies_of(alloc, constraints),
        Some(change) => changed(alloc, schema, constraints, change),
    }
}

// Each change beside its entries.
fn weighed_of(
    alloc: Global,
    changes: &[Option<Change>],
    answers: Seq<Seq<Entry>>,
) -> Result<Seq<Weighed>, Memory>
    ensures { IfOk result (λ all. all ≡ weighed_of changes.now answers) }
{
    let mut all = Seq::new(alloc);
    for entries in answers.into_vec() {
        all = with_weighed(all, changes, entries)?;
    }
    Ok(all)
}

fn with_weighed(
    all: Seq<Weighed>,
    changes: &[Option<Change>],
    entries: Seq<Entry>,
) -> Result<Seq<Weighed>, Memory>
    ensures { IfOk result (λ new. new ≡ all ++ listed (option_map (λ change. weighed_with change entries) (slice_get changes.now (length all)))) }
{
    match changes.get(all.len()) {
        Some(change) => with_one(all, *change, entries),
        None => Ok(all),
    }
}

fn with_one(
    all: Seq<Weighed>,
    change: Option<Change>,
    entries: Seq<Entry>,
) -> Result<Seq<Weighed>, Memory>
    ensures { IfOk result (λ new. new ≡ all ++ weighed_with change entries ∷ []) }
{
    let mut all = all;
    all.push(Weighed { change, entries })?;
    Ok(all)
}
