ghost use Rattle.std.specs.Prelude.{All, IfOk, OnOk};
ghost use Rattle.pc_model.specs.Accepted.{AreConstraints};
ghost use Rattle.pc_model.specs.WellFormed.{IsWellFormed};
ghost use Rattle.pc_cells_tree.specs.Linked.{IsTree};
ghost use Rattle.pc_desk_answers.specs.declared.question.Question.{Question};
ghost use Rattle.pc_desk_answers.specs.Questions.{IsQuestion};
ghost use Rattle.pc_desk_why.specs.Scopes.{IsDivided};

use pc_cells::Shared;
use pc_desk_answers::Question;
use pc_group::divide_for;
use pc_model::{Constraint, Schema};
use pc_num::Memory;
use std::alloc::Global;

/// A tree that is cut on for each block that the questions ask, so that no answer depends on which is explained first.
pub(crate) fn shared_for(
    alloc: Global,
    schema: &Schema,
    constraints: &[Constraint],
    questions: &[Question],
) -> Result<Shared, Memory>
    requires well_formed { IsWellFormed schema.now }
    requires accepted { AreConstraints schema.now constraints.now }
    requires asked { All (IsQuestion schema.now) questions.now }
    ensures tree { IfOk result (λ shared. IsTree schema.now shared.nodes) }
    ensures divided { IfOk result (λ shared. All (IsDivided schema.now constraints.now shared.nodes) questions.now) }
{
    let mut shared = Shared::new(alloc, schema)?;
    for question in questions {
        divide_for_question(alloc, schema, constraints, question, &mut shared)?;
    }
    Ok(shared)
}

// A quantile is answered over a tree of its own.
fn divide_for_question(
    alloc: Global,
    schema: &Schema,
    constraints: &[Constraint],
    question: &Question,
    shared: &mut Shared,
) -> Result<(), Memory>
    requires well_formed { IsWellFormed schema.now }
    requires accepted { AreConstraints schema.now constraints.now }
    requires asked { IsQuestion schema.now question.now }
    requires tree { IsTree schema.now shared.old.nodes }
    ensures tree { IsTree schema.now shared.new.nodes }
    ensures divided { OnOk result (IsDivided schema.now constraints.now shared.new.nodes question.now) }
    ensures still { (other : Question) → IsDivided schema.now constraints.now shared.old.nodes other → IsDivided schema.now constraints.now shared.new.nodes other }
{
    match question {
        Question::Plain(query) => divide_for(alloc, schema, constraints, query, shared),
        Question::Share(_) => Ok(()),
    }
}
