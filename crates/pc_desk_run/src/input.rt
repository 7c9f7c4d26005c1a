ghost use Rattle.std.specs.Prelude.{◌≡◌, ◌≤◌, IfOk, length};
ghost use Rattle.pc_model.specs.WellFormed.{IsWellFormed};
ghost use Rattle.pc_files.specs.Keeping.{KeptFrom, none_kept};
ghost use Rattle.pc_files.specs.Loading.{reading_of};
ghost use Rattle.pc_desk_words.specs.Calls.{draft_names, file_names, limit_names, session_names, trial_names};
ghost use Rattle.pc_desk_words.specs.Words as words;
ghost use Rattle.pc_files.specs.Reads.{IsLimited, IsScripted, IsShowable, IsUsable};
ghost use Rattle.pc_desk_run.specs.Texts.{named_files, named_of};
ghost use Rattle.pc_desk_run.specs.Inputs.{IsAsking, KeepsAsked, KeepsDraftUntil, ReadsAsking, ReadsDraft, ReadsFiles, ReadsLimits, ReadsSession, ReadsTrial, names_in};

use crate::line::Sources;
use pc_base::Shelf;
use pc_desk_answers::{Question, read_questions};
use pc_desk_schema::{Draft as Drafted, draft_schema};
use pc_desk_words::{Draft, Files, Limit, Session, Trial};
use pc_files::{
    Kept, Limited, Listing, Observed, Scripted, Stop, load_bytes, read_limited_keeping,
    read_listing_keeping, read_observed_keeping, read_scripted_keeping,
};
use pc_list::Seq;
use pc_model::FileKind;
use std::alloc::Global;

/// What is asked, and of what.
#[derive(Debug, Drop)]
pub(crate) struct Asking {
    pub observed: Observed,
    pub questions: Seq<Question>,
}

/// Reads the files of `ask`, of `why` or of `weigh`, and then the queries.
pub(crate) fn read_asking<F: Shelf>(
    alloc: Global,
    files: &mut F,
    sources: &Sources,
    kept: &mut Kept,
) -> Result<Asking, Stop>
    ensures read { ReadsAsking (reading_of F.told F.leads files.old files.new) (named_of sources.now) result }
    ensures sound { IfOk result IsAsking }
    ensures many { IfOk result (λ asking. length asking.questions ≡ length (named_of sources.now).queries) }
    ensures kept { KeptFrom (F.told files.old).files (names_in (named_of sources.now)) kept.new result }
{
    let names = sources.files;
    let observed = read_observed_keeping(
        alloc,
        files,
        names.schema,
        names.rows,
        names.constraints,
        kept,
    )?;
    let questions = read_questions(alloc, &observed.schema, sources.queries)?;
    Ok(Asking {
        observed,
        questions,
    })
}

/// Reads the files of `session`, the last of which is the script.
pub(crate) fn read_session<F: Shelf>(
    alloc: Global,
    files: &mut F,
    session: &Session,
    kept: &mut Kept,
) -> Result<Scripted, Stop>
    ensures read { ReadsSession (reading_of F.told F.leads files.old files.new) (session_names session.now) result }
    ensures sound { IfOk result IsScripted }
    ensures kept { KeepsAsked (F.told files.old).files (words.session (session_names session.now)) kept.new result }
{
    let names = session.files;
    read_scripted_keeping(
        alloc,
        files,
        names.schema,
        names.rows,
        names.constraints,
        session.script,
        kept,
    )
}

/// Reads the files of `try`.
pub(crate) fn read_trial<F: Shelf>(
    alloc: Global,
    files: &mut F,
    trial: &Trial,
    kept: &mut Kept,
) -> Result<Observed, Stop>
    ensures read { ReadsTrial (reading_of F.told F.leads files.old files.new) (trial_names trial.now) result }
    ensures sound { IfOk result IsUsable }
    ensures kept { KeepsAsked (F.told files.old).files (words.trial (trial_names trial.now)) kept.new result }
{
    let names = trial.files;
    read_observed_keeping(
        alloc,
        files,
        names.schema,
        names.rows,
        names.constraints,
        kept,
    )
}

/// Reads the files of `opens` or of `sql`.
pub(crate) fn read_files<F: Shelf>(
    alloc: Global,
    files: &mut F,
    names: Files<'_>,
    kept: &mut Kept,
) -> Result<Listing, Stop>
    ensures read { ReadsFiles (reading_of F.told F.leads files.old files.new) (file_names names.entry) result }
    ensures sound { IfOk result IsShowable }
    ensures kept { KeptFrom (F.told files.old).files (names_in (named_files (file_names names.entry))) kept.new result }
{
    read_listing_keeping(alloc, files, names.schema, names.constraints, kept)
}

/// Reads the files of `limit`.
pub(crate) fn read_limits<F: Shelf>(
    alloc: Global,
    files: &mut F,
    limit: &Limit,
    kept: &mut Kept,
) -> Result<Limited, Stop>
    ensures read { ReadsLimits (reading_of F.told F.leads files.old files.new) (limit_names limit.now) result }
    ensures sound { IfOk result IsLimited }
    ensures kept { KeepsAsked (F.told files.old).files (words.limit (limit_names limit.now)) kept.new result }
{
    let names = limit.files;
    read_limited_keeping(
        alloc,
        files,
        names.schema,
        names.constraints,
        limit.limits,
        kept,
    )
}

/// Reads the rows of `schema`, and drafts a schema for the columns that are wanted.
pub(crate) fn read_draft<F: Shelf>(
    alloc: Global,
    files: &mut F,
    wish: &Draft,
    kept: &mut Kept,
) -> Result<Drafted, Stop>
    requires { kept.old ≡ none_kept }
    ensures read { ReadsDraft (reading_of F.told F.leads files.old files.new) (draft_names wish.now) result }
    ensures sound { IfOk result (λ draft. 1 ≤ length draft.schema.columns → IsWellFormed draft.schema) }
    ensures kept { KeepsDraftUntil (F.told files.old).files (draft_names wish.now) kept.new result }
{
    kept.last = load_bytes(alloc, files, FileKind::Rows, wish.rows)?;
    let columns = wish.columns.as_slice();
    Ok(draft_schema(alloc, kept.last.as_slice(), columns)?)
}
