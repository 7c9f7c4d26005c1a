ghost use Rattle.std.specs.Prelude.{IsTrue};
ghost use Rattle.pc_model.specs.WellFormed.{IsWellFormed};
ghost use Rattle.pc_proof.specs.Unbroken.{plain_ends};
ghost use Rattle.pc_report.specs.Units.{AreAverages, IsAverage};

use super::{SCHEMA, run_of};
use pc_lang::read_query;
use pc_list::Seq;
use pc_model::{Refusal, Run, Schema};
use pc_num::Frac;
use pc_proof::{Answer, Block, BlockTree, Document, End, Lack, Mark, Proof, Relation};
use pc_report::{in_column, put_report};
use pc_schema::read_schema;
use std::alloc::{AllocError, Global};
use std::test::Fail;

fn runs_of(alloc: Global, times: u64, cells: [i64; 3]) -> Result<Seq<Run>, AllocError> {
    let mut runs = Seq::new(alloc);
    runs.push(run_of(alloc, times, cells)?)?;
    Ok(runs)
}

fn end_of(num: i128, den: i128, mark: Mark) -> End {
    End {
        value: Frac { num, den },
        mark,
        proof: Proof::Rows,
    }
}

// The report of one answer, after a line that stands before it.
fn written(
    alloc: Global,
    schema: &Schema,
    query: &str,
    name: Option<u32>,
    answer: Answer,
) -> Result<Vec<u8>, Refusal>
    requires well_formed { IsWellFormed schema.now }
    requires averages { AreAverages (plain_ends answer.ends) }
{
    let query = read_query(alloc, schema, query, 1)?;
    let mut blocks = Seq::new(alloc);
    blocks
        .push(Block {
            query,
            name,
            tree: BlockTree::Same,
            answer,
        })
        .map_err(|_| Refusal::Memory)?;
    let doc = Document { blocks };
    let mut out = Vec::new(alloc);
    out.extend_from_slice(b"before\n")
        .map_err(|_| Refusal::Memory)?;
    put_report(alloc, schema, &mut out, &doc)?;
    Ok(out)
}

fn is_written(written: Result<Vec<u8>, Refusal>, want: &str) -> bool {
    match written {
        Ok(text) => text.as_slice().strip_prefix(b"before\n") == Some(want.as_bytes()),
        Err(_) => false,
    }
}

// Whether each end can be printed as an average.
fn are_averages(ends: &Option<(End, End)>) -> bool
    ensures { IsTrue result → AreAverages (plain_ends ends.now) }
{
    match ends {
        Some((low, high)) => is_average(&low.value) && is_average(&high.value),
        None => true,
    }
}

fn is_average(value: &Frac) -> bool
    ensures { IsTrue result → IsAverage value.now }
{
    if value.den <= 0 || value.den > 30_000_000_000_000_000 {
        return false;
    }
    value.num > i128::MIN
}

// Whether the report of an answer is this one.
fn is_reported(
    alloc: Global,
    schema: &Schema,
    query: &str,
    name: Option<u32>,
    answer: Answer,
    want: &str,
) -> bool
    requires well_formed { IsWellFormed schema.now }
{
    if !are_averages(&answer.ends) {
        return false;
    }
    is_written(written(alloc, schema, query, name, answer), want)
}

// The relation of a run that is possible.
fn one_run(alloc: Global) -> Result<Relation, AllocError> {
    Ok(Relation::Possible(runs_of(alloc, 1, [0, 3, 10_000])?))
}

// A low end that is reached and a high one.
fn reached(
    alloc: Global,
    low: (i128, i128),
    high: (i128, i128),
) -> Result<Option<(End, End)>, AllocError> {
    let at_low = Mark::Exact(runs_of(alloc, 2, [1, -5, -5])?);
    let at_high = Mark::Exact(runs_of(alloc, 12, [2, 31, 0])?);
    let low = end_of(low.0, low.1, at_low);
    let high = end_of(high.0, high.1, at_high);
    Ok(Some((low, high)))
}

// A possible relation, with ends that are reached.
fn possible(
    alloc: Global,
    lack: Lack,
    low: (i128, i128),
    high: (i128, i128),
) -> Result<Answer, AllocError> {
    let ends = reached(alloc, low, high)?;
    let relation = one_run(alloc)?;
    Ok(Answer {
        relation,
        lack,
        ends,
    })
}

// An answer with ends that are not known to be reached.
fn outer(relation: Relation, lack: Lack, low: (i128, i128), high: (i128, i128)) -> Answer {
    Answer {
        relation,
        lack,
        ends: Some((
            end_of(low.0, low.1, Mark::Outer),
            end_of(high.0, high.1, Mark::Outer),
        )),
    }
}

// Ends that other rows reach than the relation has. A program may choose these rows, so that the trials of reports have
// blocks with one choice alone.
#[test]
fn counts(rt: HostRuntime) -> Result<(), Fail> {
    let alloc = rt.alloc();
    let schema = read_schema(alloc, SCHEMA.as_bytes())?;
    let exact = possible(alloc, Lack::Silent, (5, 1), (17, 1))?;
    let want =
        "query count where day in 1..5\nrelation possible\nrun 1: Chicago, 3, 100.00\nlow 5 exact\nrun 2: \"New York\", -5, -0.05\nhigh 17 exact\nrun 12: \"in\", 31, 0.00\n";
    let query = "count where day in 1..5";
    assert!(rt; is_reported(alloc, &schema, query, None, exact, want));
    Ok(())
}

// A value is lacking in some cases.
fn sometimes(alloc: Global) -> Result<Lack, AllocError> {
    let without = runs_of(alloc, 3, [0, 0, 1])?;
    let with = runs_of(alloc, 4, [0, 0, 2])?;
    Ok(Lack::Sometimes { without, with })
}

#[test]
fn values_that_may_be_lacking(rt: HostRuntime) -> Result<(), Fail> {
    let alloc = rt.alloc();
    let schema = read_schema(alloc, SCHEMA.as_bytes())?;
    let least = possible(alloc, sometimes(alloc)?, (-31, 1), (2, 1))?;
    let want =
        "query min(day)\nrelation possible\nrun 1: Chicago, 3, 100.00\nnone sometimes\nrun 3: Chicago, 0, 0.01\nsome\nrun 4: Chicago, 0, 0.02\nlow -31 exact\nrun 2: \"New York\", -5, -0.05\nhigh 2 exact\nrun 12: \"in\", 31, 0.00\n";
    assert!(rt; is_reported(alloc, &schema, "min(day)", None, least, want));
    let average = possible(alloc, Lack::Undecided, (15_000, 7), (400, 1))?;
    let want =
        "query avg(price) group by branch\ngroup branch = \"New York\"\nrelation possible\nrun 1: Chicago, 3, 100.00\nnone undecided\nlow 150/7 exact\nrun 2: \"New York\", -5, -0.05\nhigh 4 exact\nrun 12: \"in\", 31, 0.00\n";
    let query = "avg(price) group by branch";
    assert!(rt; is_reported(alloc, &schema, query, Some(1), average, want));
    Ok(())
}

const UNITS: &str = "day,int,-31,31\nprice,dec,2,-1000.00,1000.00\nweight,dec,6,0,10\n";

type Ends = (&'static str, (i128, i128), (i128, i128), &'static str);

static AVERAGES: [Ends; 8] = [
    (
        "avg(day)",
        (-31, 2),
        (17_999, 140),
        "query avg(day)\nrelation undecided\nlow -31/2 outer\nhigh 17999/140 outer\n",
    ),
    (
        "avg(day)",
        (1, 30_000_000_000_000_000),
        (i128::MAX, 1),
        "query avg(day)\nrelation undecided\nlow 1/30000000000000000 outer\nhigh 170141183460469231731687303715884105727 outer\n",
    ),
    (
        "avg(price)",
        (-15_000, 7),
        (348_975, 52),
        "query avg(price)\nrelation undecided\nlow -150/7 outer\nhigh 13959/208 outer\n",
    ),
    (
        "avg(price)",
        (150, 7),
        (500, 6),
        "query avg(price)\nrelation undecided\nlow 3/14 outer\nhigh 5/6 outer\n",
    ),
    (
        "avg(price)",
        (0, 1),
        (17_999, 140),
        "query avg(price)\nrelation undecided\nlow 0 outer\nhigh 17999/14000 outer\n",
    ),
    (
        "avg(price)",
        (-400, 1),
        (i128::MAX, 30_000_000_000_000_000),
        "query avg(price)\nrelation undecided\nlow -4 outer\nhigh 170141183460469231731687303715884105727/3000000000000000000 outer\n",
    ),
    (
        "avg(weight)",
        (7, 30_000_000_000_000_000),
        (2_500_000, 3),
        "query avg(weight)\nrelation undecided\nlow 7/30000000000000000000000 outer\nhigh 5/6 outer\n",
    ),
    (
        "avg(weight)",
        (1, 1),
        (10_000_000, 1),
        "query avg(weight)\nrelation undecided\nlow 1/1000000 outer\nhigh 10 outer\n",
    ),
];

#[test]
fn averages_in_the_unit_of_their_column(rt: HostRuntime) -> Result<(), Fail> {
    let alloc = rt.alloc();
    let schema = read_schema(alloc, UNITS.as_bytes())?;
    for (query, low, high, want) in AVERAGES.iter() {
        let answer = outer(Relation::Undecided, Lack::Silent, *low, *high);
        let found = is_reported(alloc, &schema, query, None, answer, want);
        assert!(rt; found, "{want}");
    }
    Ok(())
}

static VALUES: [((i128, i128), u8, (i128, i128)); 5] = [
    ((15_000, 7), 2, (150, 7)),
    ((15_000, 7), 0, (15_000, 7)),
    ((-125, 1), 3, (-1, 8)),
    ((0, 9), 6, (0, 1)),
    ((1, 30_000_000_000_000_000), 1, (1, 300_000_000_000_000_000)),
];

#[test]
fn values_over_a_power_of_ten(rt: HostRuntime) {
    for ((num, den), scale, wanted) in VALUES.iter() {
        let value = Frac {
            num: *num,
            den: *den,
        };
        assert!(rt; *scale <= 6 && is_average(&value));
        let found = in_column(&value, *scale);
        assert!(rt; (found.num, found.den) == *wanted);
    }
}
