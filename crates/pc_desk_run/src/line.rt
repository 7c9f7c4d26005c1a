ghost use Rattle.std.specs.Prelude.{◌≡◌, ◌-◌, [], IfOk, get_or, map, string_bytes};
ghost use Rattle.pc_desk_words.specs.Calls.{ask_names, draft_names, file_names, limit_names, session_names, trial_names, why_names};
ghost use Rattle.pc_desk_words.specs.Words as words;
ghost use Rattle.pc_desk_run.specs.Texts.{AreRefusedLines, is_query, name_of, named_files, named_in, named_of, part_name, place_text, unread_line};

use pc_desk_fault::{About, explained};
use pc_desk_words::{Ask, Draft, Files, Limit, Session, Trial, Why};
use pc_files::{Kept, malformed_line};
use pc_list::Seq;
use pc_model::{Fault, FileKind};
use pc_num::Memory;
use std::alloc::Global;

/// The names of what a verb reads: its files, and its queries, its script or its limits.
#[derive(Clone, Copy, Debug)]
pub(crate) struct Sources<'a> {
    pub files: Files<'a>,
    pub script: &'a str,
    pub limits: &'a str,
    pub queries: &'a [&'a str],
}

/// What `ask` reads.
pub(crate) fn sources_of_ask<'a>(ask: &'a Ask<'a>) -> Sources<'a>
    ensures { named_of result ≡ named_in (words.ask (ask_names ask.now)) }
{
    sources_of_queries(ask.files, ask.queries.as_slice())
}

/// What `why` reads.
pub(crate) fn sources_of_why<'a>(why: &'a Why<'a>) -> Sources<'a>
    ensures { named_of result ≡ named_in (words.why (why_names why.now)) }
{
    sources_of_queries(why.files, why.queries.as_slice())
}

/// Files and queries.
pub(crate) fn sources_of_queries<'a>(files: Files<'a>, queries: &'a [&'a str]) -> Sources<'a>
    ensures { named_of result ≡ record (named_files (file_names files.entry)) { queries = map (λ text. text.now) queries.now } }
{
    Sources {
        files,
        script: "",
        limits: "",
        queries,
    }
}

/// What `session` reads.
pub(crate) fn sources_of_session<'a>(session: &Session<'a>) -> Sources<'a>
    ensures { named_of result ≡ named_in (words.session (session_names session.now)) }
{
    Sources {
        files: session.files,
        script: session.script,
        limits: "",
        queries: &[],
    }
}

/// What `try` reads.
pub(crate) fn sources_of_trial<'a>(trial: &Trial<'a>) -> Sources<'a>
    ensures { named_of result ≡ named_in (words.trial (trial_names trial.now)) }
{
    sources_of_files(trial.files)
}

/// What `limit` reads.
pub(crate) fn sources_of_limit<'a>(limit: &Limit<'a>) -> Sources<'a>
    ensures { named_of result ≡ named_in (words.limit (limit_names limit.now)) }
{
    Sources {
        files: limit.files,
        script: "",
        limits: limit.limits,
        queries: &[],
    }
}

/// What `schema` reads.
pub(crate) fn sources_of_draft<'a>(draft: &Draft<'a>) -> Sources<'a>
    ensures { named_of result ≡ named_in (words.draft (draft_names draft.now)) }
{
    sources_of_files(Files {
        schema: "",
        rows: draft.rows,
        constraints: "",
    })
}

/// Files with no script, no limits and no queries.
pub(crate) fn sources_of_files(files: Files<'_>) -> Sources<'_>
    ensures { named_of result ≡ named_files (file_names files.entry) }
{
    Sources {
        files,
        script: "",
        limits: "",
        queries: &[],
    }
}

/// The lines that tell of a file or a query that is refused: that of `pc`, and below it where the fault is and what is to stand
/// there, from the bytes that are kept.
#[tactic(auto, using(crate::proofs::Explained::explains))]
pub(crate) fn refused_lines(
    alloc: Global,
    sources: &Sources,
    kept: &Kept,
    fault: Fault,
) -> Result<Seq<u8>, Memory>
    ensures { IfOk result (AreRefusedLines (named_of sources.now) kept.now fault) }
{
    let mut text = malformed_line(alloc, fault)?.into_bytes();
    let place = place_text(alloc, sources, fault.file, fault.place)?;
    text.extend_from_slice(place.as_bytes())?;
    let about = About {
        schema: kept.schema.as_slice(),
        file: kept.last.as_slice(),
        query: query_at(sources.queries, fault.place),
    };
    let below = explained(alloc, &about, fault)?;
    text.extend_from_slice(below.as_slice())?;
    Ok(Seq::from_vec(text))
}

// The file, with the line or record where it has one; or the query.
fn place_text(
    alloc: Global,
    sources: &Sources,
    kind: FileKind,
    place: u64,
) -> Result<String, Memory>
    ensures { IfOk result (λ text. string_bytes text ≡ place_text (named_of sources.now) kind place) }
{
    let name = name_of(sources, kind, place);
    if kind == FileKind::Query || place == 0 {
        return Ok(format!(in alloc; "  {name}")?);
    }
    let part = part_name(kind);
    Ok(format!(in alloc; "  {name}, {part} {place}")?)
}

/// The line that tells of a file that could not be read.
pub(crate) fn unread_line(
    alloc: Global,
    sources: &Sources,
    kind: FileKind,
) -> Result<Seq<u8>, Memory>
    ensures { IfOk result (λ text. text ≡ unread_line (named_of sources.now) kind) }
{
    let file = kind.name();
    let name = name_of(sources, kind, 0);
    let line = format!(in alloc; "read fault: {file}: {name}\n")?;
    Ok(Seq::from_vec(line.into_bytes()))
}

// A file as it was named, or the text of the query at a place.
fn name_of<'a>(sources: &Sources<'a>, kind: FileKind, place: u64) -> &'a str
    ensures { result.now ≡ name_of (named_of sources.now) kind place }
{
    match kind {
        FileKind::Schema => sources.files.schema,
        FileKind::Rows => sources.files.rows,
        FileKind::Constraints => sources.files.constraints,
        FileKind::Script => sources.script,
        FileKind::Limits => sources.limits,
        FileKind::Query => query_at(sources.queries, place),
        FileKind::Document => "",
    }
}

pub(crate) fn query_at<'a>(queries: &[&'a str], place: u64) -> &'a str
    ensures { result.now ≡ get_or (map (λ text. text.now) queries.now) (place - 1) [] }
{
    match queries.get(place.saturating_sub(1) as usize) {
        Some(query) => *query,
        None => "",
    }
}

/// What the places of a file count.
fn part_name(kind: FileKind) -> &'static str
    ensures { result.now ≡ part_name kind }
{
    match kind {
        FileKind::Schema | FileKind::Rows => "record",
        _ => "line",
    }
}
