ghost use Rattle.std.specs.Prelude.{◌≡◌, ◌++◌, ◌∷◌, [], codes, true, false, OnOk};
ghost use Rattle.pc_model.specs.WellFormed.{IsWellFormed};
ghost use Rattle.pc_document_format.specs.Lines.{lines_text};
ghost use Rattle.pc_proof.specs.Form.{IsFormedAlways, IsFormedAnswer, IsFormedBounded, IsFormedEnd, IsFormedLack, IsFormedRelation, IsFormedWhy, AreFormedEnds};
ghost use Rattle.pc_document.specs.DocumentLines.{always_lines, answer_lines, crossing_lines, end_lines, ends_lines, lack_lines, never_lines, proof_lines, relation_lines, runs_lines, tree_lines, why_lines};
ghost use Rattle.pc_document_lines.specs.ValueLines.{end_text};

use crate::put_proof::{put_crossing, put_end, put_line, put_proof, put_tree};
use pc_document_lines::{EndLine, Side};
use pc_model::{Query, Run, Schema, Tree};
use pc_num::Memory;
use pc_proof::{AlwaysBy, Answer, Bounded, End, Lack, Mark, NeverBy, Relation, Why};
use pc_report::put_runs;
use std::alloc::Global;

/// Appends the lines of an answer.
#[tactic(auto, using(crate::proofs::Writing::joins))]
pub(crate) fn put_answer(
    alloc: Global,
    schema: &Schema,
    out: &mut Vec<u8>,
    query: &Query,
    answer: &Answer,
) -> Result<(), Memory>
    requires well_formed { IsWellFormed schema.now }
    requires formed { IsFormedAnswer schema.now query.now.agg answer.now }
    ensures { OnOk result (out.new.items ≡ out.old.items ++ lines_text (answer_lines schema.now query.now answer.now)) }
{
    put_relation(alloc, schema, out, query, &answer.relation)?;
    put_lack(alloc, schema, out, query, &answer.lack)?;
    put_ends(alloc, schema, out, query, &answer.ends)
}

/// Appends the lines of runs.
#[tactic(auto, using(crate::proofs::Writing::put_after, pc_report::proofs::Scales::scales))]
fn put_run_lines(
    alloc: Global,
    schema: &Schema,
    out: &mut Vec<u8>,
    runs: &[Run],
) -> Result<(), Memory>
    requires well_formed { IsWellFormed schema.now }
    ensures { OnOk result (out.new.items ≡ out.old.items ++ lines_text (runs_lines schema.now runs.now)) }
{
    put_runs(alloc, schema, out, runs)
}

/// Appends a line, and those of runs after it.
#[tactic(auto, using(crate::proofs::Writing::joins))]
fn put_titled(
    alloc: Global,
    schema: &Schema,
    out: &mut Vec<u8>,
    title: &str,
    runs: &[Run],
) -> Result<(), Memory>
    requires well_formed { IsWellFormed schema.now }
    ensures { OnOk result (out.new.items ≡ out.old.items ++ lines_text (title.now ∷ runs_lines schema.now runs.now)) }
{
    put_line(out, title)?;
    put_run_lines(alloc, schema, out, runs)
}

fn put_relation(
    alloc: Global,
    schema: &Schema,
    out: &mut Vec<u8>,
    query: &Query,
    relation: &Relation,
) -> Result<(), Memory>
    requires well_formed { IsWellFormed schema.now }
    requires formed { IsFormedRelation schema.now query.now.agg relation.now }
    ensures { OnOk result (out.new.items ≡ out.old.items ++ lines_text (relation_lines schema.now query.now relation.now)) }
{
    match relation {
        Relation::Possible(runs) => put_possible(alloc, schema, out, runs.as_slice()),
        Relation::Impossible(why) => put_impossible(alloc, schema, out, query, why),
        Relation::Undecided => put_undecided(out),
    }
}

fn put_possible(
    alloc: Global,
    schema: &Schema,
    out: &mut Vec<u8>,
    runs: &[Run],
) -> Result<(), Memory>
    requires well_formed { IsWellFormed schema.now }
    ensures { OnOk result (out.new.items ≡ out.old.items ++ lines_text (codes "relation possible" ∷ runs_lines schema.now runs.now)) }
{
    put_titled(alloc, schema, out, "relation possible", runs)
}

fn put_undecided(out: &mut Vec<u8>) -> Result<(), Memory>
    ensures { OnOk result (out.new.items ≡ out.old.items ++ lines_text (codes "relation undecided" ∷ [])) }
{
    put_line(out, "relation undecided")
}

#[tactic(auto, using(crate::proofs::Writing::joins))]
fn put_impossible(
    alloc: Global,
    schema: &Schema,
    out: &mut Vec<u8>,
    query: &Query,
    why: &Why,
) -> Result<(), Memory>
    requires well_formed { IsWellFormed schema.now }
    requires formed { IsFormedWhy query.now.agg why.now }
    ensures { OnOk result (out.new.items ≡ out.old.items ++ lines_text (codes "relation impossible" ∷ why_lines schema.now query.now why.now)) }
{
    put_line(out, "relation impossible")?;
    put_why(alloc, schema, out, query, why)
}

#[tactic(auto, using(crate::proofs::Writing::joins))]
fn put_why(
    alloc: Global,
    schema: &Schema,
    out: &mut Vec<u8>,
    query: &Query,
    why: &Why,
) -> Result<(), Memory>
    requires well_formed { IsWellFormed schema.now }
    requires formed { IsFormedWhy query.now.agg why.now }
    ensures { OnOk result (out.new.items ≡ out.old.items ++ lines_text (why_lines schema.now query.now why.now)) }
{
    match why {
        Why::Void(tree) => {
            put_line(out, "by void")?;
            put_tree(alloc, out, tree)
        }
        Why::Cross(most, fewest) => {
            put_line(out, "by cross")?;
            put_two_trees(alloc, out, most, fewest)
        }
        Why::Ends(low, high) => {
            put_line(out, "by ends")?;
            put_crossing(alloc, schema, out, query, low, high)
        }
    }
}

#[tactic(auto, using(crate::proofs::Writing::joins))]
fn put_two_trees(
    alloc: Global,
    out: &mut Vec<u8>,
    first: &Tree,
    second: &Tree,
) -> Result<(), Memory>
    ensures { OnOk result (out.new.items ≡ out.old.items ++ lines_text (tree_lines first.now ++ tree_lines second.now)) }
{
    put_tree(alloc, out, first)?;
    put_tree(alloc, out, second)
}

fn put_lack(
    alloc: Global,
    schema: &Schema,
    out: &mut Vec<u8>,
    query: &Query,
    lack: &Lack,
) -> Result<(), Memory>
    requires well_formed { IsWellFormed schema.now }
    requires formed { IsFormedLack schema.now query.now.agg lack.now }
    ensures { OnOk result (out.new.items ≡ out.old.items ++ lines_text (lack_lines schema.now query.now lack.now)) }
{
    match lack {
        Lack::Silent => put_nothing(out),
        Lack::Never(by) => put_never(alloc, out, by),
        Lack::Sometimes { without, with } => {
            put_sometimes(alloc, schema, out, without.as_slice(), with.as_slice())
        }
        Lack::Always(by) => put_always(alloc, schema, out, query, by),
        Lack::Undecided => put_open(out),
    }
}

fn put_open(out: &mut Vec<u8>) -> Result<(), Memory>
    ensures { OnOk result (out.new.items ≡ out.old.items ++ lines_text (codes "none undecided" ∷ [])) }
{
    put_line(out, "none undecided")
}

/// Appends no line.
#[tactic(auto, using(crate::proofs::Writing::no_more))]
pub(crate) fn put_nothing(out: &mut Vec<u8>) -> Result<(), Memory>
    ensures { OnOk result (out.new.items ≡ out.old.items ++ lines_text []) }
{
    Ok(())
}

fn put_never(alloc: Global, out: &mut Vec<u8>, by: &NeverBy) -> Result<(), Memory>
    ensures { OnOk result (out.new.items ≡ out.old.items ++ lines_text (codes "none never" ∷ never_lines by.now)) }
{
    put_never_as(alloc, out, "none never", by)
}

#[tactic(auto, using(crate::proofs::Writing::joins))]
fn put_never_as(alloc: Global, out: &mut Vec<u8>, title: &str, by: &NeverBy) -> Result<(), Memory>
    ensures { OnOk result (out.new.items ≡ out.old.items ++ lines_text (title.now ∷ never_lines by.now)) }
{
    put_line(out, title)?;
    put_never_by(alloc, out, by)
}

fn put_never_by(alloc: Global, out: &mut Vec<u8>, by: &NeverBy) -> Result<(), Memory>
    ensures { OnOk result (out.new.items ≡ out.old.items ++ lines_text (never_lines by.now)) }
{
    match by {
        NeverBy::Rows => put_by_rows(out),
        NeverBy::Tree(tree) => put_by_tree(alloc, out, tree),
    }
}

fn put_by_rows(out: &mut Vec<u8>) -> Result<(), Memory>
    ensures { OnOk result (out.new.items ≡ out.old.items ++ lines_text (codes "by rows" ∷ [])) }
{
    put_line(out, "by rows")
}

#[tactic(auto, using(crate::proofs::Writing::joins))]
fn put_by_tree(alloc: Global, out: &mut Vec<u8>, tree: &Tree) -> Result<(), Memory>
    ensures { OnOk result (out.new.items ≡ out.old.items ++ lines_text (codes "by tree" ∷ tree_lines tree.now)) }
{
    put_line(out, "by tree")?;
    put_tree(alloc, out, tree)
}

fn put_sometimes(
    alloc: Global,
    schema: &Schema,
    out: &mut Vec<u8>,
    without: &[Run],
    with: &[Run],
) -> Result<(), Memory>
    requires well_formed { IsWellFormed schema.now }
    ensures { OnOk result (out.new.items ≡ out.old.items ++ lines_text (codes "none sometimes" ∷ (runs_lines schema.now without.now ++ (codes "some" ∷ runs_lines schema.now with.now)))) }
{
    put_two_lists(alloc, schema, out, "none sometimes", without, "some", with)
}

/// Appends two lists of runs, each after a line.
#[tactic(auto, using(crate::proofs::Writing::joins))]
fn put_two_lists(
    alloc: Global,
    schema: &Schema,
    out: &mut Vec<u8>,
    first: &str,
    without: &[Run],
    second: &str,
    with: &[Run],
) -> Result<(), Memory>
    requires well_formed { IsWellFormed schema.now }
    ensures { OnOk result (out.new.items ≡ out.old.items ++ lines_text (first.now ∷ (runs_lines schema.now without.now ++ (second.now ∷ runs_lines schema.now with.now)))) }
{
    put_titled(alloc, schema, out, first, without)?;
    put_titled(alloc, schema, out, second, with)
}

fn put_always(
    alloc: Global,
    schema: &Schema,
    out: &mut Vec<u8>,
    query: &Query,
    by: &AlwaysBy,
) -> Result<(), Memory>
    requires well_formed { IsWellFormed schema.now }
    requires formed { IsFormedAlways query.now.agg by.now }
    ensures { OnOk result (out.new.items ≡ out.old.items ++ lines_text (codes "none always" ∷ always_lines schema.now query.now by.now)) }
{
    put_always_as(alloc, schema, out, query, "none always", by)
}

#[tactic(auto, using(crate::proofs::Writing::joins))]
fn put_always_as(
    alloc: Global,
    schema: &Schema,
    out: &mut Vec<u8>,
    query: &Query,
    title: &str,
    by: &AlwaysBy,
) -> Result<(), Memory>
    requires well_formed { IsWellFormed schema.now }
    requires formed { IsFormedAlways query.now.agg by.now }
    ensures { OnOk result (out.new.items ≡ out.old.items ++ lines_text (title.now ∷ always_lines schema.now query.now by.now)) }
{
    put_line(out, title)?;
    put_always_by(alloc, schema, out, query, by)
}

fn put_always_by(
    alloc: Global,
    schema: &Schema,
    out: &mut Vec<u8>,
    query: &Query,
    by: &AlwaysBy,
) -> Result<(), Memory>
    requires well_formed { IsWellFormed schema.now }
    requires formed { IsFormedAlways query.now.agg by.now }
    ensures { OnOk result (out.new.items ≡ out.old.items ++ lines_text (always_lines schema.now query.now by.now)) }
{
    match by {
        AlwaysBy::Tree(tree) => put_by_tree(alloc, out, tree),
        AlwaysBy::Ends(low, high) => put_by_ends(alloc, schema, out, query, low, high),
    }
}

#[tactic(auto, using(crate::proofs::Writing::joins))]
fn put_by_ends(
    alloc: Global,
    schema: &Schema,
    out: &mut Vec<u8>,
    query: &Query,
    low: &Bounded,
    high: &Bounded,
) -> Result<(), Memory>
    requires well_formed { IsWellFormed schema.now }
    requires low { IsFormedBounded query.now.agg low.now }
    requires high { IsFormedBounded query.now.agg high.now }
    ensures { OnOk result (out.new.items ≡ out.old.items ++ lines_text (codes "by ends" ∷ crossing_lines schema.now query.now low.now high.now)) }
{
    put_line(out, "by ends")?;
    put_crossing(alloc, schema, out, query, low, high)
}

#[tactic(auto, using(crate::proofs::Writing::joins))]
fn put_ends(
    alloc: Global,
    schema: &Schema,
    out: &mut Vec<u8>,
    query: &Query,
    ends: &Option<(End, End)>,
) -> Result<(), Memory>
    requires well_formed { IsWellFormed schema.now }
    requires formed { AreFormedEnds schema.now query.now.agg ends.now }
    ensures { OnOk result (out.new.items ≡ out.old.items ++ lines_text (ends_lines schema.now query.now ends.now)) }
{
    match ends {
        Some((low, high)) => {
            put_whole_end(alloc, schema, out, query, Side::Low, low)?;
            put_whole_end(alloc, schema, out, query, Side::High, high)
        }
        None => put_nothing(out),
    }
}

/// Appends the lines of an end: its own, those of its runs where it is exact, and those of its proof.
fn put_whole_end(
    alloc: Global,
    schema: &Schema,
    out: &mut Vec<u8>,
    query: &Query,
    side: Side,
    end: &End,
) -> Result<(), Memory>
    requires well_formed { IsWellFormed schema.now }
    requires formed { IsFormedEnd schema.now query.now.agg end.now }
    ensures { OnOk result (out.new.items ≡ out.old.items ++ lines_text (end_lines schema.now query.now side end.now)) }
{
    match &end.mark {
        Mark::Exact(runs) => put_exact(alloc, schema, out, query, side, end, runs.as_slice()),
        Mark::Outer => put_outer(alloc, schema, out, query, side, end),
    }
}

#[tactic(auto, using(crate::proofs::Writing::joins))]
fn put_exact(
    alloc: Global,
    schema: &Schema,
    out: &mut Vec<u8>,
    query: &Query,
    side: Side,
    end: &End,
    runs: &[Run],
) -> Result<(), Memory>
    requires well_formed { IsWellFormed schema.now }
    requires formed { IsFormedEnd schema.now query.now.agg end.now }
    ensures { OnOk result (out.new.items ≡ out.old.items ++ lines_text (end_text schema.now query.now side (record { value = end.now.value; exact = true }) ∷ (runs_lines schema.now runs.now ++ proof_lines schema.now query.now end.now.proof))) }
{
    let line = EndLine {
        value: end.value,
        exact: true,
    };
    put_end(alloc, schema, out, query, side, line)?;
    put_run_lines(alloc, schema, out, runs)?;
    put_proof(alloc, schema, out, query, &end.proof)
}

#[tactic(auto, using(crate::proofs::Writing::joins))]
fn put_outer(
    alloc: Global,
    schema: &Schema,
    out: &mut Vec<u8>,
    query: &Query,
    side: Side,
    end: &End,
) -> Result<(), Memory>
    requires well_formed { IsWellFormed schema.now }
    requires formed { IsFormedEnd schema.now query.now.agg end.now }
    ensures { OnOk result (out.new.items ≡ out.old.items ++ lines_text (end_text schema.now query.now side (record { value = end.now.value; exact = false }) ∷ proof_lines schema.now query.now end.now.proof)) }
{
    let line = EndLine {
        value: end.value,
        exact: false,
    };
    put_end(alloc, schema, out, query, side, line)?;
    put_proof(alloc, schema, out, query, &end.proof)
}
