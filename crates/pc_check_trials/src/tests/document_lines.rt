//! The lines of documents, each on its own.
ghost use Rattle.pc_model.specs.WellFormed.{IsWellFormed};

use pc_document_lines::{
    EndLine, ProofLine, Side, likely_number, put_node, read_end_line, read_node, read_proof_line,
};
use pc_lang::read_query;
use pc_model::{Refusal, Schema};
use pc_num::{Frac, Memory};
use pc_schema::read_schema;
use std::alloc::Global;
use std::test::Fail;

const SCHEMA: &str = "day,int,-31,31\nprice,dec,2,-1000.00,1000.00\n";

static NUMBERS: [(&str, Option<i128>); 7] = [
    ("0", Some(0)),
    ("-0.05", Some(-5)),
    ("10.000001", Some(10_000_001)),
    ("170141183460469231731687303715884105727", Some(i128::MAX)),
    ("170141183460469231731687303715884105728", None),
    ("-170141183460469231731687303715884105728", None),
    ("340282366920938463463374607431768211456", None),
];

#[test]
fn reads_numbers_that_fit(rt: HostRuntime) {
    for (text, wanted) in NUMBERS.iter() {
        assert!(rt; likely_number(text.as_bytes()) == *wanted, "{text}");
    }
}

// Whether the line is a node's, which is written as it stands there.
fn is_node_line(alloc: Global, line: &str) -> Result<bool, Memory> {
    let Some(node) = read_node(alloc, line.as_bytes())? else {
        return Ok(false);
    };
    let mut text = Vec::new(alloc);
    put_node(alloc, &mut text, &node)?;
    Ok(text.as_slice() == line.as_bytes())
}

static NODES: [&str; 6] = [
    "split 0 0",
    "split 4294967295 1000000000000000000",
    "bound 3 1 -2 0",
    "bound 1",
    "void",
    "void 5 -170141183460469231731687303715884105727",
];

#[test]
fn reads_lines_of_nodes(rt: HostRuntime) -> Result<(), Fail> {
    for line in NODES.iter() {
        assert!(rt; is_node_line(rt.alloc(), line)?, "{line}");
    }
    Ok(())
}

fn low_end(
    alloc: Global,
    schema: &Schema,
    query: &str,
    line: &str,
) -> Result<Option<EndLine>, Refusal>
    requires well_formed { IsWellFormed schema.now }
{
    let query = read_query(alloc, schema, query, 1)?;
    read_end_line(alloc, schema, &query, Side::Low, line.as_bytes()).map_err(|_| Refusal::Memory)
}

// The numerator and the denominator of an end, and whether it is reached.
type Ended = (i128, i128, bool);

static ENDS: [(&str, &str, Option<Ended>); 9] = [
    ("count", "low 3 exact", Some((3, 1, true))),
    ("count", "high 3 exact", None),
    ("count", "low 3", None),
    ("sum(price)", "low -0.05 outer", Some((-5, 1, false))),
    ("sum(price)", "low -0.5 outer", None),
    ("avg(price)", "low 3/2 exact", Some((150, 1, true))),
    ("avg(price)", "low 1/300 exact", Some((1, 3, true))),
    ("avg(price)", "low 2/4 exact", None),
    ("avg(day)", "low -7/3 outer", Some((-7, 3, false))),
];

fn end_of(wanted: Ended) -> EndLine {
    let (num, den, exact) = wanted;
    let value = Frac { num, den };
    EndLine { value, exact }
}

#[test]
fn reads_lines_of_ends(rt: HostRuntime) -> Result<(), Fail> {
    let schema = read_schema(rt.alloc(), SCHEMA.as_bytes())?;
    for (query, line, wanted) in ENDS.iter() {
        let found = low_end(rt.alloc(), &schema, query, line)?;
        assert!(rt; found == wanted.map(end_of), "{line}");
    }
    Ok(())
}

fn proof_of(
    alloc: Global,
    schema: &Schema,
    query: &str,
    line: &str,
) -> Result<Option<ProofLine>, Refusal>
    requires well_formed { IsWellFormed schema.now }
{
    let query = read_query(alloc, schema, query, 1)?;
    read_proof_line(alloc, schema, &query, line.as_bytes()).map_err(|_| Refusal::Memory)
}

static PROOFS: [(&str, Option<ProofLine>); 8] = [
    ("by rows", Some(ProofLine::Rows)),
    ("by tree", Some(ProofLine::Tree)),
    ("by values", Some(ProofLine::Values)),
    ("by at 1/2", Some(ProofLine::At(Frac { num: 50, den: 1 }))),
    ("by at 2/4", None),
    ("by at -0", None),
    ("by at", None),
    ("by rows ", None),
];

#[test]
fn reads_lines_of_proofs(rt: HostRuntime) -> Result<(), Fail> {
    let schema = read_schema(rt.alloc(), SCHEMA.as_bytes())?;
    for (line, wanted) in PROOFS.iter() {
        let found = proof_of(rt.alloc(), &schema, "avg(price)", line)?;
        assert!(rt; found == *wanted, "{line}");
    }
    Ok(())
}
