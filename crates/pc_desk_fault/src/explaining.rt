ghost use Rattle.std.specs.Prelude.{◌==◌, ◌≡◌, IfOk};
ghost use Rattle.pc_desk_fault.specs.Explained.{AreRecordsTold, IsExplained, IsExplainedFor, IsFileTold, IsScriptTold};
ghost use Rattle.pc_desk_fault.specs.Queries.{query_told};
ghost use Rattle.pc_desk_fault.specs.Sentences.{sentence_line};

use crate::lines::place_told;
use crate::queries::{on_own_line, query_told};
use crate::scripts::script_place_told;
use crate::sentences::sentence_line;
use crate::whole_files::whole_text;
use pc_desk_records::{tell_of_rows, tell_of_schema};
use pc_list::Seq;
use pc_model::{Fault, FileKind, Reason};
use pc_num::Memory;
use std::alloc::Global;

/// What a refusal is about: the bytes of the schema file, those of the file that is refused, which are none for a query, and the
/// query, which is empty for a file.
#[derive(Clone, Copy, Debug)]
pub struct About<'a> {
    pub schema: &'a [u8],
    pub file: &'a [u8],
    pub query: &'a str,
}

/// What is told below the line of a refusal, from where the file and the line of it, or the query, are named. Each line ends
/// with a line feed.
pub fn explained(alloc: Global, about: &About<'_>, fault: Fault) -> Result<Seq<u8>, Memory>
    ensures explains { IfOk result (IsExplained about.now.schema.now fault about.now.file.now about.now.query.now) }
{
    let query = about.query.as_bytes();
    let out = told_by_text(alloc, about.schema, about.file, query, fault)?;
    Ok(Seq::from_vec(out))
}

fn told_by_text(
    alloc: Global,
    schema: &[u8],
    file: &[u8],
    query: &[u8],
    fault: Fault,
) -> Result<Vec<u8>, Memory>
    ensures { IfOk result (λ out. IsExplained schema.now fault file.now query.now out.items) }
{
    match fault.file {
        FileKind::Constraints | FileKind::Limits => file_told(alloc, schema, fault, file),
        FileKind::Query => query_told(alloc, schema, fault.reason, query),
        FileKind::Script => script_told(alloc, schema, fault, file),
        FileKind::Schema => records_told(alloc, fault, file, tell_of_schema(alloc, file)?),
        FileKind::Rows => records_told(alloc, fault, file, tell_of_rows(alloc, schema, file)?),
        FileKind::Document => reason_told(alloc, fault.reason),
    }
}

// Of a file of records, as a whole or by its records, of which this is told.
fn records_told(alloc: Global, fault: Fault, file: &[u8], told: Vec<u8>) -> Result<Vec<u8>, Memory>
    ensures { IfOk result (λ out. AreRecordsTold (fault.place == 0) fault file.now told.items out.items) }
{
    if fault.place == 0 {
        return whole_text(alloc, fault.reason, file);
    }
    if told.is_empty() {
        return reason_told(alloc, fault.reason);
    }
    Ok(told)
}

// Of a file of constraints, as a whole or at a line.
fn file_told(alloc: Global, schema: &[u8], fault: Fault, file: &[u8]) -> Result<Vec<u8>, Memory>
    ensures { IfOk result (λ out. IsFileTold (fault.place == 0) schema.now fault file.now out.items) }
{
    if fault.place == 0 {
        return whole_text(alloc, fault.reason, file);
    }
    place_told(alloc, schema, fault.reason, fault.place, file)
}

// .. of a script.
fn script_told(alloc: Global, schema: &[u8], fault: Fault, file: &[u8]) -> Result<Vec<u8>, Memory>
    ensures { IfOk result (λ out. IsScriptTold (fault.place == 0) schema.now fault file.now out.items) }
{
    if fault.place == 0 {
        return whole_text(alloc, fault.reason, file);
    }
    script_place_told(alloc, schema, fault.reason, fault.place, file)
}

fn reason_told(alloc: Global, reason: Reason) -> Result<Vec<u8>, Memory>
    ensures { IfOk result (λ out. out.items ≡ query_told (sentence_line reason)) }
{
    let words = sentence_line(alloc, reason)?;
    on_own_line(alloc, words.as_slice())
}
