ghost use Rattle.std.specs.Prelude.{◌≡◌, ◌++◌, codes, All, IfOk, OnErr, OnOk};
ghost use Rattle.pc_model.specs.Accepted.{IsQuery};
ghost use Rattle.pc_model.specs.WellFormed.{IsWellFormed};
ghost use Rattle.pc_proof.specs.declared.document.Block.{Block};
ghost use Rattle.pc_proof.specs.Unbroken.{plain_ends};
ghost use Rattle.pc_report.specs.RunLines.{HaveScales};
ghost use Rattle.pc_report.specs.Summary.{count_line, end_words, ends_words, mark_word, summary_line, summary_lines, summary_text};
ghost use Rattle.pc_report.specs.Units.{ArePrintable, HasAverages, IsPrintable};

use crate::value::put_value;
use pc_lang::put_query;
use pc_model::{Query, Schema};
use pc_num::Memory;
use pc_proof::{Block, Document, End, Mark};
use std::alloc::Global;

/// Appends the summary of a document: how many rows were observed, how many constraints there are, and a line with
/// both ends for each block, without runs.
pub fn put_summary(
    alloc: Global,
    schema: &Schema,
    out: &mut Vec<u8>,
    rows: u64,
    constraints: u64,
    doc: &Document,
) -> Result<(), Memory>
    requires well_formed { IsWellFormed schema.now }
    requires queries { All (λ (block : Block). IsQuery schema.now block.query) doc.now.blocks }
    requires averages { All HasAverages doc.now.blocks }
    ensures ok { OnOk result (out.new.items ≡ out.old.items ++ summary_text schema.now rows constraints doc.now) }
    ensures err { OnErr result (out.new.items ≡ out.old.items) }
{
    let text = text_of(alloc, schema, rows, constraints, doc.blocks.as_slice())?;
    out.extend_from_slice(text.as_slice())?;
    Ok(())
}

fn text_of(
    alloc: Global,
    schema: &Schema,
    rows: u64,
    constraints: u64,
    blocks: &[Block],
) -> Result<Vec<u8>, Memory>
    requires well_formed { IsWellFormed schema.now }
    requires queries { All (λ (block : Block). IsQuery schema.now block.query) blocks.now }
    requires averages { All HasAverages blocks.now }
    ensures { IfOk result (λ text. text.items ≡ count_line (codes "rows") rows ++ count_line (codes "constraints") constraints ++ summary_lines schema.now blocks.now) }
{
    let mut text = Vec::new(alloc);
    put_count(alloc, &mut text, "rows", rows)?;
    put_count(alloc, &mut text, "constraints", constraints)?;
    let lines = lines_of(alloc, schema, blocks)?;
    text.extend_from_slice(lines.as_slice())?;
    Ok(text)
}

// Appends a line of a word and a number.
#[tactic(auto, unfolding(crate::specs::Summary::count_line))]
fn put_count(alloc: Global, out: &mut Vec<u8>, word: &str, count: u64) -> Result<(), Memory>
    ensures { OnOk result (out.new.items ≡ out.old.items ++ count_line word.now count) }
{
    let line = format!(in alloc; "{word} {count}\n")?;
    out.extend_from_slice(line.as_bytes())?;
    Ok(())
}

#[tactic(auto, using(std::proofs::lemmas::List::flat_map_more), unfolding(crate::specs::Summary::summary_lines))]
fn lines_of(alloc: Global, schema: &Schema, blocks: &[Block]) -> Result<Vec<u8>, Memory>
    requires well_formed { IsWellFormed schema.now }
    requires queries { All (λ (block : Block). IsQuery schema.now block.query) blocks.now }
    requires averages { All HasAverages blocks.now }
    ensures { IfOk result (λ text. text.items ≡ summary_lines schema.now blocks.now) }
{
    let mut text = Vec::new(alloc);
    for block in blocks {
        put_line(alloc, schema, &mut text, block)?;
    }
    Ok(text)
}

#[tactic(auto, using(crate::proofs::Scales::scales), unfolding(crate::specs::Summary::summary_line))]
fn put_line(alloc: Global, schema: &Schema, out: &mut Vec<u8>, block: &Block) -> Result<(), Memory>
    requires well_formed { IsWellFormed schema.now }
    requires accepted { IsQuery schema.now block.now.query }
    requires averages { HasAverages block.now }
    ensures { OnOk result (out.new.items ≡ out.old.items ++ summary_line schema.now block.now) }
{
    put_query(alloc, schema, out, &block.query)?;
    put_ends(alloc, schema, out, &block.query, &block.answer.ends)?;
    out.push(b'\n')?;
    Ok(())
}

fn put_ends(
    alloc: Global,
    schema: &Schema,
    out: &mut Vec<u8>,
    query: &Query,
    ends: &Option<(End, End)>,
) -> Result<(), Memory>
    requires scales { HaveScales schema.now.columns }
    requires printable { ArePrintable query.now.agg (plain_ends ends.now) }
    ensures { OnOk result (out.new.items ≡ out.old.items ++ ends_words schema.now query.now ends.now) }
{
    match ends {
        Some((low, high)) => {
            put_end(alloc, schema, out, query, " low ", low)?;
            put_end(alloc, schema, out, query, " high ", high)
        }
        None => {
            out.extend_from_slice(b" none always")?;
            Ok(())
        }
    }
}

#[tactic(auto, unfolding(crate::specs::Summary::end_words))]
fn put_end(
    alloc: Global,
    schema: &Schema,
    out: &mut Vec<u8>,
    query: &Query,
    side: &str,
    end: &End,
) -> Result<(), Memory>
    requires scales { HaveScales schema.now.columns }
    requires printable { IsPrintable query.now.agg end.now.value }
    ensures { OnOk result (out.new.items ≡ out.old.items ++ end_words schema.now query.now side.now end.now) }
{
    out.extend_from_slice(side.as_bytes())?;
    put_value(alloc, schema, out, query, &end.value)?;
    out.extend_from_slice(mark_word(&end.mark).as_bytes())?;
    Ok(())
}

fn mark_word(mark: &Mark) -> &'static str
    ensures { result.now ≡ mark_word mark.now }
{
    match mark {
        Mark::Exact(_) => " exact",
        Mark::Outer => " outer",
    }
}
