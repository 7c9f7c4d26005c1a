ghost use Rattle.std.specs.Prelude.{◌≡◌, ◌++◌, OnOk};
ghost use Rattle.pc_report.specs.Report.{answer_text, end_text, ends_text, lack_text, line_break, mark_text, relation_text, titled_text, values_text, with_text, without_text};
ghost use Rattle.pc_report.specs.RunLines.{HaveScales};
ghost use Rattle.pc_report.specs.Told.{answer_in, end_in, ends_in, lack_in, mark_in, relation_in};
ghost use Rattle.pc_report.specs.Units.{ArePrintable, IsPrintable};

use crate::put_runs;
use crate::told::{Told, ToldEnd, ToldLack, ToldMark, ToldRelation};
use crate::value::put_value;
use pc_model::{Query, Run, Schema};
use pc_num::Memory;
use std::alloc::Global;

/// Appends the lines of an answer: its relation, whether it can lack a value, and its ends.
#[tactic(auto, unfolding(crate::specs::Report::answer_text))]
pub fn put_answer(
    alloc: Global,
    schema: &Schema,
    out: &mut Vec<u8>,
    query: &Query,
    told: &Told,
) -> Result<(), Memory>
    requires scales { HaveScales schema.now.columns }
    requires printable { ArePrintable query.now.agg (ends_in told.now.ends) }
    ensures { OnOk result (out.new.items ≡ out.old.items ++ answer_text schema.now query.now (answer_in told.now)) }
{
    put_relation(alloc, schema, out, &told.relation)?;
    if told.relation.is_impossible() {
        return Ok(());
    }
    put_values(alloc, schema, out, query, told)
}

fn put_relation(
    alloc: Global,
    schema: &Schema,
    out: &mut Vec<u8>,
    relation: &ToldRelation,
) -> Result<(), Memory>
    requires { HaveScales schema.now.columns }
    ensures { OnOk result (out.new.items ≡ out.old.items ++ relation_text schema.now (relation_in relation.now)) }
{
    match relation {
        ToldRelation::Possible(runs) => put_titled(alloc, schema, out, "relation possible", runs),
        ToldRelation::Impossible => put_line(out, "relation impossible"),
        ToldRelation::Undecided => put_line(out, "relation undecided"),
    }
}

// Appends whether the aggregate can lack a value, and its ends.
fn put_values(
    alloc: Global,
    schema: &Schema,
    out: &mut Vec<u8>,
    query: &Query,
    told: &Told,
) -> Result<(), Memory>
    requires scales { HaveScales schema.now.columns }
    requires printable { ArePrintable query.now.agg (ends_in told.now.ends) }
    ensures { OnOk result (out.new.items ≡ out.old.items ++ values_text schema.now query.now (lack_in told.now.lack) (ends_in told.now.ends)) }
{
    put_lack(alloc, schema, out, &told.lack)?;
    if told.lack.is_always() {
        return Ok(());
    }
    put_ends(alloc, schema, out, query, &told.ends)
}

fn put_lack(
    alloc: Global,
    schema: &Schema,
    out: &mut Vec<u8>,
    lack: &ToldLack,
) -> Result<(), Memory>
    requires { HaveScales schema.now.columns }
    ensures { OnOk result (out.new.items ≡ out.old.items ++ lack_text schema.now (lack_in lack.now)) }
{
    match lack {
        ToldLack::Silent => Ok(()),
        ToldLack::Never => put_line(out, "none never"),
        ToldLack::Sometimes { without, with } => {
            put_without(alloc, schema, out, without)?;
            put_with(alloc, schema, out, with)
        }
        ToldLack::Always => put_line(out, "none always"),
        ToldLack::Undecided => put_line(out, "none undecided"),
    }
}

// Appends runs for which the aggregate has no value.
#[tactic(auto, unfolding(crate::specs::Report::without_text))]
fn put_without(
    alloc: Global,
    schema: &Schema,
    out: &mut Vec<u8>,
    runs: &[Run],
) -> Result<(), Memory>
    requires { HaveScales schema.now.columns }
    ensures { OnOk result (out.new.items ≡ out.old.items ++ without_text schema.now runs.now) }
{
    put_titled(alloc, schema, out, "none sometimes", runs)
}

// Appends runs for which the aggregate has one.
#[tactic(auto, unfolding(crate::specs::Report::with_text))]
fn put_with(alloc: Global, schema: &Schema, out: &mut Vec<u8>, runs: &[Run]) -> Result<(), Memory>
    requires { HaveScales schema.now.columns }
    ensures { OnOk result (out.new.items ≡ out.old.items ++ with_text schema.now runs.now) }
{
    put_titled(alloc, schema, out, "some", runs)
}

fn put_ends(
    alloc: Global,
    schema: &Schema,
    out: &mut Vec<u8>,
    query: &Query,
    ends: &Option<(ToldEnd, ToldEnd)>,
) -> Result<(), Memory>
    requires scales { HaveScales schema.now.columns }
    requires printable { ArePrintable query.now.agg (ends_in ends.now) }
    ensures { OnOk result (out.new.items ≡ out.old.items ++ ends_text schema.now query.now (ends_in ends.now)) }
{
    match ends {
        Some((low, high)) => {
            put_end(alloc, schema, out, query, "low", low)?;
            put_end(alloc, schema, out, query, "high", high)
        }
        None => Ok(()),
    }
}

#[tactic(auto, unfolding(crate::specs::Report::end_text))]
fn put_end(
    alloc: Global,
    schema: &Schema,
    out: &mut Vec<u8>,
    query: &Query,
    name: &str,
    end: &ToldEnd,
) -> Result<(), Memory>
    requires scales { HaveScales schema.now.columns }
    requires printable { IsPrintable query.now.agg end.now.value }
    ensures { OnOk result (out.new.items ≡ out.old.items ++ end_text schema.now query.now name.now (end_in end.now)) }
{
    out.extend_from_slice(name.as_bytes())?;
    out.push(b' ')?;
    put_value(alloc, schema, out, query, &end.value)?;
    put_mark(alloc, schema, out, &end.mark)
}

// Appends whether an end is reached, and the runs that reach it.
fn put_mark(
    alloc: Global,
    schema: &Schema,
    out: &mut Vec<u8>,
    mark: &ToldMark,
) -> Result<(), Memory>
    requires { HaveScales schema.now.columns }
    ensures { OnOk result (out.new.items ≡ out.old.items ++ mark_text schema.now (mark_in mark.now)) }
{
    match mark {
        ToldMark::Exact(runs) => put_titled(alloc, schema, out, " exact", runs),
        ToldMark::Outer => put_line(out, " outer"),
    }
}

// Appends a line, and those of runs after it.
#[tactic(auto, unfolding(crate::specs::Report::titled_text))]
fn put_titled(
    alloc: Global,
    schema: &Schema,
    out: &mut Vec<u8>,
    title: &str,
    runs: &[Run],
) -> Result<(), Memory>
    requires { HaveScales schema.now.columns }
    ensures { OnOk result (out.new.items ≡ out.old.items ++ titled_text schema.now title.now runs.now) }
{
    put_line(out, title)?;
    put_runs(alloc, schema, out, runs)
}

// Appends a text and a line break.
fn put_line(out: &mut Vec<u8>, text: &str) -> Result<(), Memory>
    ensures { OnOk result (out.new.items ≡ out.old.items ++ (text.now ++ line_break)) }
{
    out.extend_from_slice(text.as_bytes())?;
    out.push(b'\n')?;
    Ok(())
}
