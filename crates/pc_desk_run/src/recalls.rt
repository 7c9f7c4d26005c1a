//! The reply of `history`.
ghost use Rattle.std.specs.Prelude.{◌≡◌, ℕ, IfOk, List, option_map, string_bytes};
ghost use Rattle.pc_files.specs.Keeping.{KeptFrom, names_of, set_apart};
ghost use Rattle.pc_files.specs.Loading.{reading_of};
ghost use Rattle.pc_desk_past.specs.Past.{IsHistory, IsKnown};
ghost use Rattle.pc_desk_words.specs.Calls.{file_names, history_names};
ghost use Rattle.pc_desk_words.specs.Words as words;
ghost use Rattle.pc_desk_run.specs.Inputs.{IsTable, ReadsKnown, ReadsTable, names_in};
ghost use Rattle.pc_desk_run.specs.Outcome.{recalls};
ghost use Rattle.pc_desk_run.specs.Replies.{Answers, RepliesTo};
ghost use Rattle.pc_desk_run.specs.Texts.{named_in, named_of, where_text};

use crate::ended::Ended;
use crate::line::{Sources, query_at, sources_of_queries};
use crate::reply::{Reply, stopped};
use pc_base::Shelf;
use pc_desk_past::{Known, Past, past_text, recall, refusal_lines};
use pc_desk_words::{Files, History};
use pc_files::{Kept, Stop, load_rows, load_schema};
use pc_lang::read_query;
use pc_list::Seq;
use pc_model::Schema;
use pc_num::Memory;
use pc_rows::Rows;
use std::alloc::Global;
use std::mem;

/// Rows, and the schema that they are of.
#[derive(Debug, Drop)]
pub(crate) struct Table {
    pub schema: Schema,
    pub rows: Rows,
}

pub(crate) fn reply_to_history<F: Shelf>(
    alloc: Global,
    files: &mut F,
    wish: &History,
) -> Result<Reply, Memory>
    requires { IsHistory (history_names wish.now) }
    ensures { IfOk result (RepliesTo (reading_of F.told F.leads files.old files.new) (words.history (history_names wish.now))) }
{
    let text = where_text(alloc, wish.chosen)?;
    let queries = [text.as_str()];
    let sources = sources_of_queries(table_of(wish), &queries);
    let mut kept = Kept::new(alloc);
    match read_known(alloc, files, &sources, &mut kept) {
        Ok(known) => recalled(alloc, &known, wish),
        Err(stop) => stopped(alloc, &sources, &kept, stop),
    }
}

// The files of a call, which has no constraints.
fn table_of<'a>(wish: &History<'a>) -> Files<'a>
    ensures { file_names result ≡ (history_names wish.now).files }
{
    Files {
        schema: wish.schema,
        rows: wish.rows,
        constraints: "",
    }
}

// The query that counts the rows which are meant.
fn where_text(alloc: Global, chosen: Option<&str>) -> Result<String, Memory>
    ensures { IfOk result (λ text. string_bytes text ≡ where_text (option_map (λ text. text.now) chosen.entry)) }
{
    match chosen {
        None => Ok(format!(in alloc; "count")?),
        Some(chosen) => Ok(format!(in alloc; "count where {chosen}")?),
    }
}

// Reads the files, and then the query.
fn read_known<F: Shelf>(
    alloc: Global,
    files: &mut F,
    sources: &Sources,
    kept: &mut Kept,
) -> Result<Known, Stop>
    ensures read { ReadsKnown (reading_of F.told F.leads files.old files.new) (named_of sources.now) result }
    ensures sound { IfOk result IsKnown }
    ensures kept { KeptFrom (F.told files.old).files (names_in (named_of sources.now)) kept.new result }
{
    let table = read_table(alloc, files, sources.files, kept)?;
    let query = read_query(alloc, &table.schema, query_at(sources.queries, 1), 1)?;
    let Table { schema, rows } = table;
    Ok(Known {
        schema,
        rows,
        query,
    })
}

// Reads a schema and its rows, each once and in this order, and keeps the bytes that explain a refusal.
#[tactic(auto, using(pc_model::proofs::FewNames::have_few_names))]
fn read_table<F: Shelf>(
    alloc: Global,
    files: &mut F,
    names: Files<'_>,
    kept: &mut Kept,
) -> Result<Table, Stop>
    ensures read { ReadsTable (reading_of F.told F.leads files.old files.new) (file_names names.entry) result }
    ensures sound { IfOk result IsTable }
    ensures kept { (constraints script limits : List ℕ) → KeptFrom (F.told files.old).files (names_of names.entry.schema.now names.entry.rows.now constraints script limits) kept.new result }
{
    let schema = load_schema(alloc, files, names.schema, &mut kept.last)?;
    set_schema_apart(alloc, kept);
    let rows = load_rows(alloc, files, names.rows, &schema, &mut kept.last)?;
    Ok(Table { schema, rows })
}

// The file that was loaded last was the schema: its bytes stay while others are loaded.
fn set_schema_apart(alloc: Global, kept: &mut Kept)
    ensures { kept.new ≡ set_apart kept.old }
{
    kept.schema = mem::replace(&mut kept.last, Seq::new(alloc));
}

fn recalled(alloc: Global, known: &Known, wish: &History) -> Result<Reply, Memory>
    requires known { IsKnown known.now }
    requires wish { IsHistory (history_names wish.now) }
    ensures { IfOk result (Answers (named_in (words.history (history_names wish.now))) (recalls (history_names wish.now) known.now)) }
{
    match recall(alloc, known, wish)? {
        Past::Drafted(drafted) => Ok(Reply::Says {
            ended: Ended::Settled,
            text: past_text(alloc, &known.schema, wish, drafted.as_slice())?,
            note: Seq::new(alloc),
        }),
        Past::Refused(fault) => Ok(Reply::Refuses {
            ended: Ended::Refused,
            text: refusal_lines(alloc, &known.schema, wish, &fault)?,
        }),
    }
}
