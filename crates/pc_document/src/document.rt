ghost use Rattle.std.specs.Prelude.{◌≡◌, Ok};
ghost use Rattle.pc_model.specs.declared.schema.Schema.{Schema};
ghost use Rattle.pc_model.specs.WellFormed.{IsWellFormed};
ghost use Rattle.pc_document_format.specs.Formats.{read_line, read_many};
ghost use Rattle.pc_document.specs.Places.{IsLineStart, Reads, ReadsWord, lines_at};
ghost use Rattle.pc_document.specs.Reading.{document_of, read_block, read_document, read_word};
ghost use Rattle.pc_document.specs.Told.{Gives, ToldAs};
ghost use Rattle.pc_document_lines.specs.TokenLines.{begins_query};

use crate::block::block_at;
use crate::halt::Halt;
use crate::places::{first_line_at, line_at};
use crate::words::is_text;
use pc_document_format::line_of;
use pc_list::Seq;
use pc_model::Schema;
use pc_proof::{Block, Document};
use std::alloc::Global;
use thiserror::Error;

/// Why no document was read: the bytes are the text of none, and the line is the first that may not stand; or there was
/// no memory.
#[derive(Clone, Copy, Debug, PartialEq, Eq, Error)]
pub enum NoDocument {
    #[error("line {line} may not stand in a document")]
    Fault { line: u64 },
    #[error("no memory for the document")]
    Memory,
}

/// Reads the one document in form whose text the bytes are. The line of a fault is one more than the line feeds in the
/// longest beginning of the bytes that the text of some document begins with too.
#[tactic(auto, using(crate::proofs::Telling::told))]
pub fn read_document(alloc: Global, schema: &Schema, bytes: &[u8]) -> Result<Document, NoDocument>
    requires well_formed { IsWellFormed schema.now }
    ensures told { ToldAs schema.now bytes.now result }
{
    document_of(alloc, schema, bytes)
}

/// The same against the definition that reads lines.
#[tactic(auto, using(crate::proofs::Telling::ends))]
fn document_of(alloc: Global, schema: &Schema, bytes: &[u8]) -> Result<Document, NoDocument>
    requires well_formed { IsWellFormed schema.now }
    ensures { Gives result (document_of schema.now bytes.now) }
{
    match document_at(alloc, schema, bytes) {
        Ok((doc, at)) => whole(bytes, doc, at),
        Err(Halt::Fault { at }) => Err(NoDocument::Fault {
            line: line_of(bytes, at),
        }),
        Err(Halt::Memory) => Err(NoDocument::Memory),
    }
}

/// The document, if the bytes end where it does.
#[tactic(auto, using(crate::proofs::Telling::ends))]
fn whole(bytes: &[u8], doc: Document, at: usize) -> Result<Document, NoDocument>
    requires start { IsLineStart bytes.now at }
    ensures { (schema : Schema) → read_document schema (lines_at bytes.now 0) ≡ Ok (doc, lines_at bytes.now at) → Gives result (document_of schema bytes.now) }
{
    if at < bytes.len() {
        return Err(NoDocument::Fault {
            line: line_of(bytes, at),
        });
    }
    Ok(doc)
}

#[tactic(auto, using(crate::proofs::LineStarts::first_start), unfolding(crate::specs::Reading::read_document, crate::specs::Reading::read_blocks))]
fn document_at(alloc: Global, schema: &Schema, bytes: &[u8]) -> Result<(Document, usize), Halt>
    requires well_formed { IsWellFormed schema.now }
    ensures { Reads bytes.now result (read_document schema.now (lines_at bytes.now 0)) }
{
    let at = word_at("pc 1", bytes, 0)?;
    let (blocks, at) = blocks_at(alloc, schema, bytes, at)?;
    let at = word_at("end", bytes, at)?;
    Ok((Document { blocks }, at))
}

/// The place after a line that is this text.
#[tactic(auto, unfolding(pc_document_format::specs::Formats::found_in))]
fn word_at(text: &str, bytes: &[u8], at: usize) -> Result<usize, Halt>
    requires start { IsLineStart bytes.now at }
    ensures { ReadsWord bytes.now result (read_line (read_word text.now) (lines_at bytes.now at)) }
{
    let (line, next) = first_line_at(bytes, at)?;
    if !is_text(text, line) {
        return Err(Halt::Fault { at });
    }
    Ok(next)
}

/// The blocks from a place on, and the place after them.
#[tactic(auto, using(crate::proofs::BlockSteps::steps))]
fn blocks_at(
    alloc: Global,
    schema: &Schema,
    bytes: &[u8],
    start: usize,
) -> Result<(Seq<Block>, usize), Halt>
    requires well_formed { IsWellFormed schema.now }
    requires start { IsLineStart bytes.now start }
    ensures { Reads bytes.now result (read_many begins_query (read_block schema.now) (lines_at bytes.now start)) }
{
    let mut found = Seq::new(alloc);
    let mut at = start;
    while let Some((line, _after)) = line_at(bytes, at) {
        if !begins_query(line) {
            return Ok((found, at));
        }
        let (block, next) = match block_at(alloc, schema, bytes, at) {
            Ok(read) => read,
            Err(halt) => return Err(halt),
        };
        found.push(block)?;
        at = next;
    }
    Ok((found, at))
}

#[tactic(auto, unfolding(std::specs::Prelude::bytes_eq))]
fn begins_query(line: &[u8]) -> bool
    ensures { result ≡ begins_query line.now }
{
    line.starts_with(b"query ")
}
