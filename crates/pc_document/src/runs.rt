ghost use Rattle.std.specs.Prelude.{◌≡◌};
ghost use Rattle.pc_model.specs.WellFormed.{IsWellFormed};
ghost use Rattle.pc_document.specs.Places.{IsLineStart, Reads, lines_at};
ghost use Rattle.pc_document.specs.Reading.{read_runs};

use crate::halt::Halt;
use crate::places::line_at;
use pc_document_lines::{begins_run, read_run};
use pc_list::Seq;
use pc_model::{Run, Schema};
use std::alloc::Global;

/// The runs that begin at a place, and the place after them.
#[tactic(auto, using(crate::proofs::RunSteps::steps))]
pub(crate) fn runs_at(
    alloc: Global,
    schema: &Schema,
    bytes: &[u8],
    start: usize,
) -> Result<(Seq<Run>, usize), Halt>
    requires well_formed { IsWellFormed schema.now }
    requires start { IsLineStart bytes.now start }
    ensures { Reads bytes.now result (read_runs schema.now (lines_at bytes.now start)) }
{
    let mut runs = Seq::new(alloc);
    let mut at = start;
    while let Some((line, next)) = line_at(bytes, at) {
        if !begins_run(line) {
            return Ok((runs, at));
        }
        let run = match read_run(alloc, schema, line)? {
            Some(run) => run,
            None => return Err(Halt::Fault { at }),
        };
        runs.push(run)?;
        at = next;
    }
    Ok((runs, at))
}
