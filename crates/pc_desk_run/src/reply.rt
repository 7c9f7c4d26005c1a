ghost use Rattle.std.specs.Prelude.{◌≡◌, ℕ, IfOk, List, map, string_bytes};
ghost use Rattle.pc_files.specs.Loading.{reading_of};
ghost use Rattle.pc_desk_table.specs.declared.entry.Entry.{Entry};
ghost use Rattle.pc_desk_words.specs.Calls.{ask_names, opens_names, session_names, trial_names};
ghost use Rattle.pc_desk_words.specs.Words.{IsBudget, IsScale, MayHelp, MayRefuse};
ghost use Rattle.pc_desk_words.specs.Words as words;
ghost use Rattle.pc_files.specs.Reads.{IsScripted, IsShowable};
ghost use Rattle.pc_desk_run.specs.Inputs.{IsAsking};
ghost use Rattle.pc_desk_run.specs.Outcome.{asks, follows, lists, tries};
ghost use Rattle.pc_desk_run.specs.Replies.{IsSaid, IsShown, IsStopReply, RepliesTo, RepliesToNone, Responds, Says};
ghost use Rattle.pc_desk_run.specs.Texts.{named_of};

use crate::ended::Ended;
use crate::form::{sheet_text, text_of};
use crate::input::{Asking, read_asking, read_files, read_session, read_trial};
use crate::line::{
    Sources, refused_lines, sources_of_ask, sources_of_files, sources_of_session, sources_of_trial,
    unread_line,
};
use crate::note::{note_beside, note_on};
use crate::reasons::reply_to_why;
use crate::recalls::reply_to_history;
use crate::session::follow_script;
use crate::settled::{ended_of, ended_of_trial};
use crate::weighs::reply_to_weigh;
use crate::written::{reply_to_draft, reply_to_limit, reply_to_sql};
use pc_base::Shelf;
use pc_desk_answers::{Watch, answer_questions};
use pc_desk_table::Entry;
use pc_desk_try::{openings, openings_sheet, sheet_of, try_rows};
use pc_desk_words::{Ask, Call, Form, Opens, Session, SheetForm, Trial, read_call};
use pc_files::{Kept, Listing, Observed, Scripted, Stop};
use pc_list::Seq;
use pc_num::Memory;
use std::alloc::Global;

/// What is replied to words: what was asked for, with a note that goes beside it; or why it is not given.
#[derive(Debug, Drop)]
pub(crate) enum Reply {
    Says {
        ended: Ended,
        text: Seq<u8>,
        note: Seq<u8>,
    },
    Refuses {
        ended: Ended,
        text: Seq<u8>,
    },
}

/// The reply to any words.
pub(crate) fn respond<F: Shelf, W: Watch>(
    alloc: Global,
    words: &[String],
    files: &mut F,
    watch: &mut W,
) -> Result<Reply, Memory>
    ensures responds { IfOk result (Responds (reading_of F.told F.leads files.old files.new) (map string_bytes words.now)) }
{
    let call = read_call(alloc, words)?;
    match call {
        Call::Ask(ask) => reply_to_ask(alloc, files, &ask),
        Call::Session(session) => reply_to_session(alloc, files, &session),
        Call::Why(why) => reply_to_why(alloc, files, &why),
        Call::Weigh(wish) => reply_to_weigh(alloc, files, &wish, watch),
        Call::Trial(trial) => reply_to_trial(alloc, files, &trial),
        Call::Opens(opens) => reply_to_opens(alloc, files, &opens),
        Call::History(wish) => reply_to_history(alloc, files, &wish),
        Call::Limit(limit) => reply_to_limit(alloc, files, &limit),
        Call::Sql(sql) => reply_to_sql(alloc, files, &sql),
        Call::Draft(draft) => reply_to_draft(alloc, files, &draft),
        Call::Shows(text) => Ok(help(alloc, text)),
        Call::Refused(text) => Ok(refusal(text)),
    }
}

// What words get that ask for help.
fn help(alloc: Global, text: String) -> Reply
    ensures { (asked : List (List ℕ)) → MayHelp asked → RepliesToNone asked result }
{
    Reply::Says {
        ended: Ended::Settled,
        text: Seq::from_vec(text.into_bytes()),
        note: Seq::new(alloc),
    }
}

// What words get that are no call.
fn refusal(text: String) -> Reply
    ensures { (asked : List (List ℕ)) → MayRefuse asked → RepliesToNone asked result }
{
    Reply::Refuses {
        ended: Ended::Refused,
        text: Seq::from_vec(text.into_bytes()),
    }
}

fn reply_to_ask<F: Shelf>(alloc: Global, files: &mut F, ask: &Ask) -> Result<Reply, Memory>
    requires { IsBudget ask.now.nodes }
    ensures { IfOk result (RepliesTo (reading_of F.told F.leads files.old files.new) (words.ask (ask_names ask.now))) }
{
    let sources = sources_of_ask(ask);
    let mut kept = Kept::new(alloc);
    match read_asking(alloc, files, &sources, &mut kept) {
        Ok(asking) => answered(alloc, &asking, ask.form, ask.nodes),
        Err(stop) => stopped(alloc, &sources, &kept, stop),
    }
}

fn reply_to_session<F: Shelf>(
    alloc: Global,
    files: &mut F,
    session: &Session,
) -> Result<Reply, Memory>
    requires { IsBudget session.now.nodes }
    ensures { IfOk result (RepliesTo (reading_of F.told F.leads files.old files.new) (words.session (session_names session.now))) }
{
    let mut kept = Kept::new(alloc);
    match read_session(alloc, files, session, &mut kept) {
        Ok(scripted) => followed(alloc, scripted, session.form, session.nodes),
        Err(stop) => stopped(alloc, &sources_of_session(session), &kept, stop),
    }
}

fn reply_to_trial<F: Shelf>(alloc: Global, files: &mut F, trial: &Trial) -> Result<Reply, Memory>
    requires { IsScale trial.now.scale }
    ensures { IfOk result (RepliesTo (reading_of F.told F.leads files.old files.new) (words.trial (trial_names trial.now))) }
{
    let mut kept = Kept::new(alloc);
    match read_trial(alloc, files, trial, &mut kept) {
        Ok(observed) => tried(alloc, &observed, trial.form, trial.scale),
        Err(stop) => stopped(alloc, &sources_of_trial(trial), &kept, stop),
    }
}

fn reply_to_opens<F: Shelf>(alloc: Global, files: &mut F, opens: &Opens) -> Result<Reply, Memory>
    ensures { IfOk result (RepliesTo (reading_of F.told F.leads files.old files.new) (words.opens (opens_names opens.now))) }
{
    let mut kept = Kept::new(alloc);
    match read_files(alloc, files, opens.files, &mut kept) {
        Ok(listing) => opened(alloc, &listing, opens.form),
        Err(stop) => stopped(alloc, &sources_of_files(opens.files), &kept, stop),
    }
}

fn answered(alloc: Global, asking: &Asking, form: Form, nodes: u32) -> Result<Reply, Memory>
    requires asking { IsAsking asking.now }
    requires budget { IsBudget nodes }
    ensures says { IfOk result (Says (IsSaid (asks form nodes asking.now))) }
{
    let questions = asking.questions.as_slice();
    let entries = answer_questions(alloc, &asking.observed, questions, nodes)?;
    let observed = &asking.observed;
    let note = note_beside(alloc, &observed.schema, observed.constraints.as_slice())?;
    shown(alloc, form, &entries, note)
}

fn followed(alloc: Global, scripted: Scripted, form: Form, nodes: u32) -> Result<Reply, Memory>
    requires scripted { IsScripted scripted }
    requires budget { IsBudget nodes }
    ensures { IfOk result (Says (IsSaid (follows form nodes scripted))) }
{
    let entries = follow_script(alloc, scripted, nodes)?;
    shown(alloc, form, &entries, Seq::new(alloc))
}

fn shown(alloc: Global, form: Form, entries: &Seq<Entry>, note: Seq<u8>) -> Result<Reply, Memory>
    ensures { IfOk result (Says (IsShown form entries.now note)) }
{
    let entries = entries.as_slice();
    Ok(Reply::Says {
        ended: ended_of(entries),
        text: Seq::from_vec(text_of(alloc, form, entries)?),
        note,
    })
}

fn tried(alloc: Global, observed: &Observed, form: SheetForm, scale: u64) -> Result<Reply, Memory>
    ensures says { IfOk result (Says (IsSaid (tries form scale observed.now))) }
{
    let constraints = observed.constraints.as_slice();
    let trial = try_rows(alloc, scale, constraints, &observed.rows)?;
    let sheet = sheet_of(alloc, &trial)?;
    Ok(Reply::Says {
        ended: ended_of_trial(&trial),
        text: Seq::from_vec(sheet_text(alloc, form, &sheet)?),
        note: note_on(alloc, constraints)?,
    })
}

fn opened(alloc: Global, listing: &Listing, form: SheetForm) -> Result<Reply, Memory>
    requires listing { IsShowable listing.now }
    ensures says { IfOk result (Says (IsSaid (lists form listing.now))) }
{
    let schema = &listing.schema;
    let constraints = listing.constraints.as_slice();
    let openings = openings(alloc, schema, constraints)?;
    let sheet = openings_sheet(alloc, schema, constraints, openings.as_slice())?;
    Ok(Reply::Says {
        ended: Ended::Settled,
        text: Seq::from_vec(sheet_text(alloc, form, &sheet)?),
        note: note_on(alloc, constraints)?,
    })
}

pub(crate) fn stopped(
    alloc: Global,
    sources: &Sources,
    kept: &Kept,
    stop: Stop,
) -> Result<Reply, Memory>
    ensures { IfOk result (IsStopReply (named_of sources.now) kept.now stop) }
{
    match stop {
        Stop::Refused(fault) => Ok(Reply::Refuses {
            ended: Ended::Refused,
            text: refused_lines(alloc, sources, kept, fault)?,
        }),
        Stop::Unread(kind) => Ok(Reply::Refuses {
            ended: Ended::ReadFault,
            text: unread_line(alloc, sources, kind)?,
        }),
        Stop::Memory => Err(Memory),
    }
}
