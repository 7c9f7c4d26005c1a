ghost use Rattle.pc_model.specs.WellFormed.{IsWellFormed};

mod report;

use pc_list::Seq;
use pc_model::{Row, Run, Schema};
use pc_report::put_runs;
use pc_schema::read_schema;
use std::alloc::{AllocError, Global};
use std::test::Fail;

/// The columns of the tests.
pub(crate) const SCHEMA: &str =
    "branch,cat,Chicago,New York,in,\"a\"\"b\"\nday,int,-31,31\nprice,dec,2,-1000.00,1000.00\n";

/// A run of rows with these cells.
pub(crate) fn run_of(alloc: Global, times: u64, cells: [i64; 3]) -> Result<Run, AllocError> {
    let mut row = Seq::new(alloc);
    for cell in cells {
        row.push(cell)?;
    }
    Ok(Run {
        times,
        row: Row { cells: row },
    })
}

// Cells that stand for no name, which no row of a report has. Other runs are among the trials of reports.
static RUNS: [(u64, [i64; 3], &str); 2] = [
    (1, [4, 1, 1], "run 1: \"\", 1, 0.01\n"),
    (1, [-1, 1, 1], "run 1: \"\", 1, 0.01\n"),
];

// Whether the line of a run is this one, after a line that stands before it.
#[tactic(auto, using(pc_report::proofs::Scales::scales))]
fn is_run_line(
    alloc: Global,
    schema: &Schema,
    times: u64,
    cells: [i64; 3],
    want: &str,
) -> Result<bool, Fail>
    requires { IsWellFormed schema.now }
{
    let run = run_of(alloc, times, cells)?;
    let mut out = Vec::from_slice(alloc, b"low 3 exact\n")?;
    put_runs(alloc, schema, &mut out, &[run])?;
    Ok(out.as_slice().strip_prefix(b"low 3 exact\n") == Some(want.as_bytes()))
}

#[test]
fn puts_run_lines(rt: HostRuntime) -> Result<(), Fail> {
    let alloc = rt.alloc();
    let schema = read_schema(alloc, SCHEMA.as_bytes())?;
    for (times, cells, want) in RUNS.iter() {
        assert!(rt;
            is_run_line(alloc, &schema, *times, *cells, want)?,
            "{want}"
        );
    }
    Ok(())
}
