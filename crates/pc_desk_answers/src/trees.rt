ghost use Rattle.std.specs.Prelude.{All, IfOk, List, OnOk};
ghost use Rattle.pc_model.specs.Accepted.{IsQuery};
ghost use Rattle.pc_group.specs.Wanted.{Wanted, wanted_by};
ghost use Rattle.pc_desk_answers.specs.declared.question.Question.{Question};
ghost use Rattle.pc_desk_answers.specs.Blocks.{IsGround, ground_in};
ghost use Rattle.pc_desk_answers.specs.Divided.{AreDivided, AreTrees, IsDivided};
ghost use Rattle.pc_desk_answers.specs.Questions.{IsQuestion};

use crate::answers::Scope;
use crate::question::Question;
use pc_cells::Shared;
use pc_group::divide_for;
use pc_model::Query;
use pc_num::Memory;
use std::alloc::Global;

/// The trees of cuts that answers are over: under the constraints, and under none, where nothing is lost.
#[derive(Debug, Drop)]
pub(crate) struct Trees {
    pub constrained: Shared,
    pub whole: Shared,
}

/// Trees that are cut on for each block that the questions ask, so that no answer depends on which is answered first.
pub(crate) fn trees_for(
    alloc: Global,
    scope: &Scope<'_>,
    questions: &[Question],
) -> Result<Trees, Memory>
    requires ground { IsGround (ground_in scope.now) }
    requires asked { All (IsQuestion scope.now.schema.now) questions.now }
    ensures trees { IfOk result (AreTrees scope.now.schema.now) }
    ensures divided { IfOk result (λ trees. All (IsDivided (ground_in scope.now) trees) questions.now) }
{
    let constrained = Shared::new(alloc, scope.schema)?;
    let whole = Shared::new(alloc, scope.schema)?;
    let mut trees = Trees { constrained, whole };
    for question in questions {
        divide_for_question(alloc, scope, question, &mut trees)?;
    }
    Ok(trees)
}

// A quantile is answered over a tree of its own.
fn divide_for_question(
    alloc: Global,
    scope: &Scope<'_>,
    question: &Question,
    trees: &mut Trees,
) -> Result<(), Memory>
    requires ground { IsGround (ground_in scope.now) }
    requires asked { IsQuestion scope.now.schema.now question.now }
    requires trees { AreTrees scope.now.schema.now trees.old }
    ensures trees { AreTrees scope.now.schema.now trees.new }
    ensures divided { OnOk result (IsDivided (ground_in scope.now) trees.new question.now) }
    ensures still { (other : Question) → IsDivided (ground_in scope.now) trees.old other → IsDivided (ground_in scope.now) trees.new other }
{
    match question {
        Question::Plain(query) => divide_for_query(alloc, scope, query, trees),
        Question::Share(_) => Ok(()),
    }
}

fn divide_for_query(
    alloc: Global,
    scope: &Scope<'_>,
    query: &Query,
    trees: &mut Trees,
) -> Result<(), Memory>
    requires ground { IsGround (ground_in scope.now) }
    requires asked { IsQuery scope.now.schema.now query.now }
    requires trees { AreTrees scope.now.schema.now trees.old }
    ensures trees { AreTrees scope.now.schema.now trees.new }
    ensures divided { OnOk result (AreDivided (ground_in scope.now) trees.new (wanted_by scope.now.schema.now query.now)) }
    ensures still { (blocks : List Wanted) → AreDivided (ground_in scope.now) trees.old blocks → AreDivided (ground_in scope.now) trees.new blocks }
{
    let constraints = scope.constraints;
    divide_for(
        alloc,
        scope.schema,
        constraints,
        query,
        &mut trees.constrained,
    )?;
    divide_for(alloc, scope.schema, &[], query, &mut trees.whole)
}
