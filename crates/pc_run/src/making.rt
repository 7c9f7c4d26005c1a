ghost use Rattle.std.specs.Prelude.{◌≡◌, All, IfOk};
ghost use Rattle.pc_model.specs.Accepted.{IsQuery};
ghost use Rattle.pc_model.specs.WellFormed.{IsWellFormed};
ghost use Rattle.pc_proof.specs.declared.document.Block.{Block};
ghost use Rattle.pc_report.specs.Units.{HasAverages};
ghost use Rattle.pc_run.specs.Replies.{SaysSummary, made_case, summary_of};
ghost use Rattle.pc_run_words.specs.Words.{IsSize};

use pc_gen::generate;
use pc_group::answer_all;
use pc_num::Memory;
use pc_proof::Document;
use pc_report::put_summary;
use pc_rows::Case;
use pc_run_words::{Gen, USUAL_NODES};
use std::alloc::Global;

/// The summary of the answers to the case that a seed and a size make.
pub(crate) fn summarize(alloc: Global, command: &Gen) -> Result<Vec<u8>, Memory>
    requires { IsSize command.now.size }
    ensures { IfOk result (λ text. SaysSummary (made_case command.now) text.items) }
{
    let case = generate(alloc, command.seed, command.size)?;
    let document = answer_all(alloc, &case, USUAL_NODES)?;
    summary_of(alloc, &case, &document)
}

fn summary_of(alloc: Global, case: &Case, document: &Document) -> Result<Vec<u8>, Memory>
    requires well_formed { IsWellFormed case.now.schema }
    requires queries { All (λ (block : Block). IsQuery case.now.schema block.query) document.now.blocks }
    requires averages { All HasAverages document.now.blocks }
    ensures { IfOk result (λ text. text.items ≡ summary_of case.now document.now) }
{
    let mut text = Vec::new(alloc);
    let constraints = case.constraints.len() as u64;
    put_summary(
        alloc,
        &case.schema,
        &mut text,
        case.rows.count(),
        constraints,
        document,
    )?;
    Ok(text)
}
