ghost use Rattle.std.specs.Prelude.{◌≡◌, IfOk, OnOk, get_or};
ghost use Rattle.pc_session.specs.Edited.{CanFollow, CanFollowAll, after_line};
ghost use Rattle.pc_session.specs.Sessions.{IsSession, held_by};
ghost use Rattle.pc_files.specs.Reads.{IsScripted, start_of};
ghost use Rattle.pc_desk_answers.specs.Blocks.{ArePosed, posed_at, posed_by};
ghost use Rattle.pc_desk_words.specs.Words.{IsBudget};

use pc_desk_answers::ask_session;
use pc_desk_table::Entry;
use pc_files::{Observed, Script, Scripted};
use pc_list::Seq;
use pc_num::Memory;
use pc_session::{Line, Session};
use std::alloc::Global;

/// What is shown of the answers to the questions of a script, one after the other, each with the number of its line.
#[tactic(auto, using(pc_model::proofs::FewNames::have_few_names))]
pub(crate) fn follow_script(
    alloc: Global,
    scripted: Scripted,
    nodes: u32,
) -> Result<Seq<Entry>, Memory>
    requires scripted { IsScripted scripted }
    requires budget { IsBudget nodes }
    ensures { IfOk result (ArePosed (posed_by scripted.observed.schema nodes (start_of scripted) scripted.script)) }
{
    let Scripted { observed, script } = scripted;
    let Observed {
        schema,
        rows,
        constraints,
    } = observed;
    let session = Session::begin(alloc, schema, rows, constraints)?;
    follow_lines(alloc, session, script, nodes)
}

fn follow_lines(
    alloc: Global,
    session: Session,
    script: Script,
    nodes: u32,
) -> Result<Seq<Entry>, Memory>
    requires session { IsSession session }
    requires can { CanFollowAll session.schema (held_by session) script.lines }
    requires budget { IsBudget nodes }
    ensures { IfOk result (ArePosed (posed_by session.schema nodes (held_by session) script)) }
{
    let Script { lines, numbers } = script;
    let mut session = session;
    let mut entries = Vec::new(alloc);
    let mut place = 0;
    for line in lines.into_vec() {
        let number = number_at(numbers.as_slice(), place);
        let more = follow(alloc, &mut session, line, number, nodes)?;
        entries.append(&mut more.into_vec())?;
        place += 1;
    }
    Ok(Seq::from_vec(entries))
}

// A script that is read has a number for each of its lines.
fn number_at(numbers: &[u64], place: usize) -> u64
    ensures { result ≡ get_or numbers.now place 0 }
{
    match numbers.get(place) {
        Some(number) => *number,
        None => 0,
    }
}

// An edit shows nothing.
fn follow(
    alloc: Global,
    session: &mut Session,
    line: Line,
    number: u64,
    nodes: u32,
) -> Result<Seq<Entry>, Memory>
    requires session { IsSession session.old }
    requires can { CanFollow session.old.schema (held_by session.old) line }
    requires budget { IsBudget nodes }
    ensures session { IsSession session.new }
    ensures schema { session.new.schema ≡ session.old.schema }
    ensures held { OnOk result (held_by session.new ≡ after_line (held_by session.old) line) }
    ensures shown { IfOk result (ArePosed (posed_at session.old.schema nodes (held_by session.old) number line)) }
{
    match line {
        Line::Edits(edit) => {
            session.edit(edit)?;
            Ok(Seq::new(alloc))
        }
        Line::Asks(query) => ask_session(alloc, session, &query, number, nodes),
    }
}
