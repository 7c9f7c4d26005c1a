//! Replies that have one form: constraints with limits, a statement of SQL, a draft of a schema.
ghost use Rattle.std.specs.Prelude.{◌≤◌, [], IfOk, length};
ghost use Rattle.pc_model.specs.Accepted.{AreConstraints};
ghost use Rattle.pc_model.specs.WellFormed.{IsWellFormed};
ghost use Rattle.pc_lang.specs.Canonical.{constraints_text};
ghost use Rattle.pc_files.specs.Loading.{reading_of};
ghost use Rattle.pc_files.specs.Reads.{IsLimited, IsShowable};
ghost use Rattle.pc_desk_words.specs.Calls.{draft_names, limit_names, sql_names};
ghost use Rattle.pc_desk_words.specs.Words as words;
ghost use Rattle.pc_desk_run.specs.Outcome.{drafts, limits, tests};
ghost use Rattle.pc_desk_run.specs.Replies.{Answers, IsSaid, IsWritten, RepliesTo, Says};
ghost use Rattle.pc_desk_run.specs.declared.ended.Ended.TheVariants as ends;
ghost use Rattle.pc_desk_run.specs.Texts.{named_of};

use crate::ended::Ended;
use crate::input::{read_draft, read_files, read_limits};
use crate::line::{Sources, sources_of_draft, sources_of_files, sources_of_limit};
use crate::note::note_on;
use crate::reply::{Reply, stopped};
use crate::settled::ended_of_draft;
use crate::unwritten::{no_column_lines, outside_lines, too_many_lines};
use pc_base::Shelf;
use pc_desk_limit::{Limiting, limit};
use pc_desk_schema::{Draft as Drafted, remark_lines, schema_text};
use pc_desk_sql::sql_of;
use pc_desk_words::{Draft, Limit, Sql};
use pc_files::{Kept, Limited, Listing};
use pc_lang::put_constraints;
use pc_list::Seq;
use pc_model::{Constraint, Schema};
use pc_num::Memory;
use std::alloc::Global;

pub(crate) fn reply_to_limit<F: Shelf>(
    alloc: Global,
    files: &mut F,
    wish: &Limit,
) -> Result<Reply, Memory>
    ensures { IfOk result (RepliesTo (reading_of F.told F.leads files.old files.new) (words.limit (limit_names wish.now))) }
{
    let mut kept = Kept::new(alloc);
    match read_limits(alloc, files, wish, &mut kept) {
        Ok(limited) => closed(alloc, &sources_of_limit(wish), limited),
        Err(stop) => stopped(alloc, &sources_of_limit(wish), &kept, stop),
    }
}

pub(crate) fn reply_to_sql<F: Shelf>(
    alloc: Global,
    files: &mut F,
    sql: &Sql,
) -> Result<Reply, Memory>
    ensures { IfOk result (RepliesTo (reading_of F.told F.leads files.old files.new) (words.sql (sql_names sql.now))) }
{
    let mut kept = Kept::new(alloc);
    match read_files(alloc, files, sql.files, &mut kept) {
        Ok(listing) => tested(alloc, &listing, sql.table),
        Err(stop) => stopped(alloc, &sources_of_files(sql.files), &kept, stop),
    }
}

pub(crate) fn reply_to_draft<F: Shelf>(
    alloc: Global,
    files: &mut F,
    draft: &Draft,
) -> Result<Reply, Memory>
    ensures { IfOk result (RepliesTo (reading_of F.told F.leads files.old files.new) (words.draft (draft_names draft.now))) }
{
    let mut kept = Kept::new(alloc);
    match read_draft(alloc, files, draft, &mut kept) {
        Ok(found) => drafted(alloc, &sources_of_draft(draft), &found),
        Err(stop) => stopped(alloc, &sources_of_draft(draft), &kept, stop),
    }
}

fn closed(alloc: Global, sources: &Sources, limited: Limited) -> Result<Reply, Memory>
    requires { IsLimited limited }
    ensures { IfOk result (Answers (named_of sources.now) (limits limited)) }
{
    let Limited {
        schema,
        all,
        opening,
    } = limited;
    match limit(alloc, &schema, all, opening)? {
        Limiting::Written(written) => listed(alloc, &schema, &written),
        Limiting::Outside(place) => Ok(Reply::Refuses {
            ended: Ended::Refused,
            text: outside_lines(alloc, sources, opening, place)?,
        }),
        Limiting::TooMany(lines) => Ok(Reply::Refuses {
            ended: Ended::Refused,
            text: too_many_lines(alloc, sources, lines)?,
        }),
    }
}

// A list of constraints is written.
fn listed(alloc: Global, schema: &Schema, written: &Seq<Constraint>) -> Result<Reply, Memory>
    requires well_formed { IsWellFormed schema.now }
    requires accepted { AreConstraints schema.now written.now }
    ensures { IfOk result (Says (IsWritten ends.Settled (constraints_text schema.now written.now) [])) }
{
    let mut text = Vec::new(alloc);
    put_constraints(alloc, schema, &mut text, written.as_slice())?;
    Ok(Reply::Says {
        ended: Ended::Settled,
        text: Seq::from_vec(text),
        note: Seq::new(alloc),
    })
}

fn tested(alloc: Global, listing: &Listing, table: &str) -> Result<Reply, Memory>
    requires { IsShowable listing.now }
    ensures { IfOk result (Says (IsSaid (tests table.now listing.now))) }
{
    let constraints = listing.constraints.as_slice();
    let text = sql_of(alloc, &listing.schema, constraints, table)?;
    Ok(Reply::Says {
        ended: Ended::Settled,
        text: Seq::from_vec(text),
        note: note_on(alloc, constraints)?,
    })
}

fn drafted(alloc: Global, sources: &Sources, draft: &Drafted) -> Result<Reply, Memory>
    requires { 1 ≤ length draft.now.schema.columns → IsWellFormed draft.now.schema }
    ensures { IfOk result (Answers (named_of sources.now) (drafts draft.now)) }
{
    let remarks = remark_lines(alloc, draft)?;
    if draft.schema.columns.is_empty() {
        return Ok(Reply::Refuses {
            ended: Ended::Refused,
            text: no_column_lines(alloc, sources, remarks.as_slice())?,
        });
    }
    Ok(Reply::Says {
        ended: ended_of_draft(draft),
        text: Seq::from_vec(schema_text(alloc, &draft.schema)?),
        note: Seq::from_vec(remarks),
    })
}
