ghost use Rattle.std.specs.Prelude.{◌≡◌, map, IfOk, string_bytes};
ghost use Rattle.pc_run_words.specs.Commands.{asked_in, HasNumbers};
ghost use Rattle.pc_run_words.specs.Words.{IsBudget};
ghost use Rattle.pc_run.specs.Inputs.{IsMeasurable, IsSound, IsSoundInput};
ghost use Rattle.pc_files.specs.Loading.{reading_of};
ghost use Rattle.pc_run.specs.Replies.{AnswersWords, AnswersCommand, RepliesToStop, SaysInput, SaysProof, SaysQuantile, SaysReport};

use crate::follow::report_script;
use crate::input::{Input, Measured, read_input};
use crate::line::usage_line;
use crate::making::summarize;
use crate::show::{report_conflict, report_listing};
use crate::verdict::report_verdict;
use pc_base::{Shelf, Status};
use pc_document::put_document;
use pc_files::{Observed, Reply, Stop, fault_line, malformed_line};
use pc_group::answer_all;
use pc_list::Seq;
use pc_num::Memory;
use pc_quantile::{bound_quantile, put_quantile};
use pc_report::put_report;
use pc_rows::Case;
use pc_run_words::{Command, read_command};
use std::alloc::Global;

/// The reply to any words.
#[tactic(auto, using(crate::proofs::StopReplies::none_answers))]
pub(crate) fn respond<F: Shelf>(
    alloc: Global,
    words: &[String],
    files: &mut F,
) -> Result<Reply<Status>, Memory>
    ensures { AnswersWords (reading_of F.told F.leads files.old files.new) (map string_bytes words.now) result }
{
    match read_command(alloc, words)? {
        Some(command) => reply_to(alloc, files, &command),
        None => Ok(Reply {
            status: Status::Usage,
            text: Seq::from_vec(usage_line(alloc)?.into_bytes()),
        }),
    }
}

/// The reply to a command.
fn reply_to<F: Shelf>(
    alloc: Global,
    files: &mut F,
    command: &Command,
) -> Result<Reply<Status>, Memory>
    requires { HasNumbers command.now }
    ensures { AnswersCommand (reading_of F.told F.leads files.old files.new) (asked_in command.now) result }
{
    match read_input(alloc, files, command) {
        Ok(input) => reply_with(alloc, input),
        Err(stop) => reply_to_stop(alloc, stop),
    }
}

/// The reply where files give an input.
fn reply_with(alloc: Global, input: Input) -> Result<Reply<Status>, Memory>
    requires { IsSoundInput input }
    ensures { IfOk result (λ reply. SaysInput input reply.status reply.text) }
{
    match input {
        Input::Asks { nodes, case } => Ok(Reply {
            status: Status::Done,
            text: Seq::from_vec(report_case(alloc, &case, nodes)?),
        }),
        Input::Proves { nodes, case } => Ok(Reply {
            status: Status::Done,
            text: Seq::from_vec(prove_case(alloc, &case, nodes)?),
        }),
        Input::Claims(claim) => report_verdict(alloc, &claim),
        Input::Shows(listing) => Ok(Reply {
            status: Status::Done,
            text: Seq::from_vec(report_listing(alloc, &listing)?),
        }),
        Input::Contradicts { nodes, listing } => Ok(Reply {
            status: Status::Done,
            text: Seq::from_vec(report_conflict(alloc, &listing, nodes)?),
        }),
        Input::Measures { nodes, measured } => Ok(Reply {
            status: Status::Done,
            text: Seq::from_vec(report_quantile(alloc, &measured, nodes)?),
        }),
        Input::Follows { nodes, scripted } => Ok(Reply {
            status: Status::Done,
            text: Seq::from_vec(report_script(alloc, scripted, nodes)?),
        }),
        Input::Makes(numbers) => Ok(Reply {
            status: Status::Done,
            text: Seq::from_vec(summarize(alloc, &numbers)?),
        }),
    }
}

/// The reply where files give nothing.
fn reply_to_stop(alloc: Global, stop: Stop) -> Result<Reply<Status>, Memory>
    ensures { IfOk result (λ reply. RepliesToStop stop reply.status reply.text) }
{
    match stop {
        Stop::Refused(fault) => Ok(Reply {
            status: Status::Malformed,
            text: Seq::from_vec(malformed_line(alloc, fault)?.into_bytes()),
        }),
        Stop::Unread(file) => Ok(Reply {
            status: Status::ReadFault,
            text: Seq::from_vec(fault_line(alloc, file)?.into_bytes()),
        }),
        Stop::Memory => Err(Memory),
    }
}

/// The report of the answers to the queries.
fn report_case(alloc: Global, case: &Case, nodes: u32) -> Result<Vec<u8>, Memory>
    requires sound { IsSound case.now }
    requires budget { IsBudget nodes }
    ensures { IfOk result (λ text. SaysReport nodes case.now text.items) }
{
    let document = answer_all(alloc, case, nodes)?;
    let mut text = Vec::new(alloc);
    put_report(alloc, &case.schema, &mut text, &document)?;
    Ok(text)
}

/// The document of the answers to the queries, with what shows each.
fn prove_case(alloc: Global, case: &Case, nodes: u32) -> Result<Vec<u8>, Memory>
    requires sound { IsSound case.now }
    requires budget { IsBudget nodes }
    ensures { IfOk result (λ text. SaysProof nodes case.now text.items) }
{
    let document = answer_all(alloc, case, nodes)?;
    let mut text = Vec::new(alloc);
    put_document(alloc, &case.schema, &mut text, &document)?;
    Ok(text)
}

/// The text of the answer to a quantile.
fn report_quantile(alloc: Global, measured: &Measured, nodes: u32) -> Result<Vec<u8>, Memory>
    requires measurable { IsMeasurable measured.now }
    requires budget { IsBudget nodes }
    ensures { IfOk result (λ text. SaysQuantile nodes measured.now text.items) }
{
    let Observed {
        schema,
        rows,
        constraints,
    } = &measured.observed;
    let asked = &measured.asked;
    let answer = bound_quantile(alloc, schema, rows, constraints.as_slice(), asked, nodes)?;
    let mut text = Vec::new(alloc);
    put_quantile(alloc, schema, &mut text, asked, &answer)?;
    Ok(text)
}
