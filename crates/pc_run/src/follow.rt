ghost use Rattle.std.specs.Prelude.{◌≡◌, IfOk, OnOk};
ghost use Rattle.pc_model.specs.Accepted.{IsQuery};
ghost use Rattle.pc_session.specs.Edited.{CanFollow, CanFollowAll, after_line, asked_case, case_at, cases_of};
ghost use Rattle.pc_session.specs.Sessions.{IsSession, held_by};
ghost use Rattle.pc_run_words.specs.Words.{IsBudget};
ghost use Rattle.pc_files.specs.Reads.{IsScripted};
ghost use Rattle.pc_run.specs.Replies.{SaysReport, SaysReports, SaysSession};

use pc_files::{Observed, Scripted};
use pc_group::ask;
use pc_list::Seq;
use pc_model::Query;
use pc_num::Memory;
use pc_report::put_report;
use pc_session::{Line, Session};
use std::alloc::Global;

/// The reports of the questions of a script, one after the other.
#[tactic(auto, using(pc_model::proofs::FewNames::have_few_names))]
pub(crate) fn report_script(
    alloc: Global,
    scripted: Scripted,
    nodes: u32,
) -> Result<Vec<u8>, Memory>
    requires scripted { IsScripted scripted }
    requires budget { IsBudget nodes }
    ensures { IfOk result (λ text. SaysSession nodes scripted text.items) }
{
    let Scripted { observed, script } = scripted;
    let Observed {
        schema,
        rows,
        constraints,
    } = observed;
    let session = Session::begin(alloc, schema, rows, constraints)?;
    report_lines(alloc, session, script.lines, nodes)
}

/// The reports of the questions of lines, which a session follows.
fn report_lines(
    alloc: Global,
    session: Session,
    lines: Seq<Line>,
    nodes: u32,
) -> Result<Vec<u8>, Memory>
    requires session { IsSession session }
    requires can { CanFollowAll session.schema (held_by session) lines }
    requires budget { IsBudget nodes }
    ensures { IfOk result (λ text. SaysReports nodes (cases_of session.schema (held_by session) lines) text.items) }
{
    let mut session = session;
    let mut text = Vec::new(alloc);
    for line in lines.into_vec() {
        let said = follow(alloc, &mut session, line, nodes)?;
        text.extend_from_slice(said.as_slice())?;
    }
    Ok(text)
}

/// Follows a line, and says the report of a question; of an edit nothing is said.
#[tactic(auto, using(crate::proofs::Following::says_none, crate::proofs::Following::says_one))]
fn follow(alloc: Global, session: &mut Session, line: Line, nodes: u32) -> Result<Vec<u8>, Memory>
    requires session { IsSession session.old }
    requires can { CanFollow session.old.schema (held_by session.old) line }
    requires budget { IsBudget nodes }
    ensures session { IsSession session.new }
    ensures schema { session.new.schema ≡ session.old.schema }
    ensures held { OnOk result (held_by session.new ≡ after_line (held_by session.old) line) }
    ensures says { IfOk result (λ text. SaysReports nodes (case_at session.old.schema (held_by session.old) line) text.items) }
{
    match line {
        Line::Edits(edit) => {
            session.edit(edit)?;
            Ok(Vec::new(alloc))
        }
        Line::Asks(query) => report_question(alloc, session, query, nodes),
    }
}

/// The report of the answer to a question about what a session holds.
fn report_question(
    alloc: Global,
    session: &mut Session,
    query: Query,
    nodes: u32,
) -> Result<Vec<u8>, Memory>
    requires session { IsSession session.old }
    requires asked { IsQuery session.old.schema query }
    requires budget { IsBudget nodes }
    ensures session { IsSession session.new }
    ensures schema { session.new.schema ≡ session.old.schema }
    ensures held { held_by session.new ≡ held_by session.old }
    ensures says { IfOk result (λ text. SaysReport nodes (asked_case session.old.schema (held_by session.old) query) text.items) }
{
    let queries = [query];
    let document = ask(alloc, session, &queries, nodes)?;
    let mut text = Vec::new(alloc);
    put_report(alloc, &session.schema, &mut text, &document)?;
    Ok(text)
}
