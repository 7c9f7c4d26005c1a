use pc_list::{Seq, Text};
use pc_model::{
    Agg, Area, Column, Constraint, Folded, Kind, Query, Region, Row, Run, Schema, Side, When,
};
use pc_num::Memory;
use pc_witness::{fold_runs, meets, rebuild, total_times};
use std::alloc::{AllocError, Global};
use std::test::Fail;

fn column(alloc: Global, name: &str, high: i64) -> Result<Column, AllocError> {
    Ok(Column {
        name: Text::from_text(alloc, name)?,
        kind: Kind::Int { low: 1, high },
    })
}

fn schema(alloc: Global) -> Result<Schema, AllocError> {
    let columns = vec![in alloc; column(alloc, "item", 9)?, column(alloc, "week", 4)?]?;
    Ok(Schema {
        columns: Seq::from_vec(columns),
    })
}

// The rows of some weeks, of any item, also of those outside the domain.
fn weeks(alloc: Global, low: i64, high: i64) -> Result<Region, AllocError> {
    let sides = [Side::Span { low: 0, high: 99 }, Side::Span { low, high }];
    Ok(Region {
        sides: Seq::from_slice(alloc, &sides)?,
    })
}

// Rows of at least one of some spans of weeks.
fn area(alloc: Global, spans: &[(i64, i64)]) -> Result<Area, AllocError> {
    let mut boxes = Seq::new(alloc);
    for &(low, high) in spans {
        boxes.push(weeks(alloc, low, high)?)?;
    }
    Ok(Area { boxes })
}

// What is outside, where no weeks are named.
fn predicate(alloc: Global, spans: &[(i64, i64)]) -> Result<When, AllocError> {
    if spans.is_empty() {
        return Ok(When::Outside);
    }
    Ok(When::Boxes(area(alloc, spans)?))
}

// From the least to the most rows in the first weeks, which are in the second ones.
type Limits = (&'static [(i64, i64)], (i64, i64), u64, u64);

fn constraint(alloc: Global, limits: &Limits) -> Result<Constraint, AllocError> {
    let (when, values, least, most) = *limits;
    Ok(Constraint {
        name: Text::from_text(alloc, "c")?,
        when: predicate(alloc, when)?,
        values: weeks(alloc, values.0, values.1)?,
        least,
        most,
    })
}

fn constraints_of(alloc: Global, listed: &[Limits]) -> Result<Vec<Constraint>, AllocError> {
    let mut constraints = Vec::new(alloc);
    for limits in listed {
        constraints.push(constraint(alloc, limits)?)?;
    }
    Ok(constraints)
}

// The times, the item and the week of each run.
type Listed = &'static [(u64, i64, i64)];

// A run for each number of times, item and week.
fn runs_of(alloc: Global, listed: &[(u64, i64, i64)]) -> Result<Vec<Run>, AllocError> {
    let mut runs = Vec::new(alloc);
    for &(times, item, week) in listed {
        let row = Row {
            cells: Seq::from_slice(alloc, &[item, week])?,
        };
        runs.push(Run { times, row })?;
    }
    Ok(runs)
}

// Rows of these items, in week 1.
fn rows_of(alloc: Global, items: &[i64]) -> Result<Vec<Row>, AllocError> {
    let mut rows = Vec::new(alloc);
    for &item in items {
        rows.push(Row {
            cells: Seq::from_slice(alloc, &[item, 1])?,
        })?;
    }
    Ok(rows)
}

const ANY: (i64, i64) = (1, 4);

const TWO: &[Limits] = &[(&[(1, 2)], ANY, 1, 3), (&[(4, 4)], ANY, 0, 2)];

const NEVER: &[Limits] = &[(&[(1, 1)], (2, 2), 1, 2)];

const NONE: &[Limits] = &[(&[(1, 1)], (2, 2), 0, 2)];

const SHARED: &[Limits] = &[(&[(1, 2)], ANY, 1, 3), (&[(2, 2)], ANY, 0, 1)];

const MANY: &[Limits] = &[(&[(1, 2)], ANY, 1, u64::MAX)];

const OVERLAPPING: &[Limits] = &[(&[(1, 2), (2, 3)], ANY, 0, 1)];

const REST: &[Limits] = &[(&[(1, 2)], ANY, 0, 1), (&[], (3, 3), 1, 2)];

const NO_REST: &[Limits] = &[(&[(1, 4)], ANY, 0, 3), (&[], ANY, 0, 1)];

const REST_ALONE: &[Limits] = &[(&[], ANY, 0, 2)];

// Constraints, runs, and whether they are possible.
static RUNS: [(&[Limits], Listed, bool); 34] = [
    (TWO, &[], false),
    (TWO, &[(1, 1, 1)], true),
    (TWO, &[(3, 1, 1), (2, 1, 4)], true),
    (TWO, &[(2, 1, 1), (2, 1, 4)], true),
    (TWO, &[(4, 1, 1), (2, 1, 4)], false),
    (TWO, &[(3, 1, 1), (3, 1, 4)], false),
    (TWO, &[(1, 1, 1), (1, 1, 3)], false),
    (TWO, &[(1, 1, 3)], false),
    (TWO, &[(1, 10, 1)], false),
    (TWO, &[(1, 1, 1), (0, 1, 1)], false),
    (NEVER, &[], false),
    (NEVER, &[(1, 1, 1)], false),
    (NEVER, &[(1, 1, 2)], false),
    (NONE, &[], true),
    (NONE, &[(1, 1, 1)], false),
    (SHARED, &[(1, 1, 2)], true),
    (SHARED, &[(2, 1, 2)], false),
    (SHARED, &[(1, 1, 1)], true),
    (MANY, &[(u64::MAX, 1, 1), (1, 1, 1)], false),
    (OVERLAPPING, &[(1, 1, 2)], true),
    (OVERLAPPING, &[(2, 1, 2)], false),
    (OVERLAPPING, &[(1, 1, 3)], true),
    (OVERLAPPING, &[(1, 1, 1), (1, 1, 3)], false),
    (OVERLAPPING, &[(1, 1, 4)], false),
    (REST, &[], false),
    (REST, &[(1, 1, 3)], true),
    (REST, &[(1, 1, 1), (2, 1, 3)], true),
    (REST, &[(3, 1, 3)], false),
    (REST, &[(1, 1, 4)], false),
    (NO_REST, &[(3, 1, 1)], true),
    (NO_REST, &[(3, 1, 1), (1, 1, 4)], false),
    (REST_ALONE, &[(2, 1, 4)], true),
    (REST_ALONE, &[(3, 1, 4)], false),
    (REST_ALONE, &[(1, 10, 4)], false),
];

fn are_possible(
    alloc: Global,
    schema: &Schema,
    limits: &[Limits],
    listed: &[(u64, i64, i64)],
) -> Result<bool, AllocError> {
    let constraints = constraints_of(alloc, limits)?;
    let runs = runs_of(alloc, listed)?;
    Ok(meets(schema, constraints.as_slice(), runs.as_slice()))
}

#[test]
fn possible_runs(rt: HostRuntime) -> Result<(), Fail> {
    let alloc = rt.alloc();
    let schema = schema(alloc)?;
    for (number, (limits, listed, possible)) in RUNS.iter().enumerate() {
        assert!(rt;
            are_possible(alloc, &schema, limits, listed)? == *possible,
            "case {number}"
        );
    }
    Ok(())
}

// Items, how often each has been lost, and the runs.
static COUNTS: [(&[i64], &[u64], Listed); 6] = [
    (&[], &[], &[]),
    (&[1, 2, 3], &[0, 0, 0], &[]),
    (&[4], &[2], &[(2, 4, 1)]),
    (&[4, 3, 2, 1], &[0, 3, 0, 1], &[(3, 3, 1), (1, 1, 1)]),
    (&[1, 2, 3], &[1, 2, 0], &[(1, 1, 1), (2, 2, 1)]),
    (&[5, 5], &[1, u64::MAX], &[(1, 5, 1), (u64::MAX, 5, 1)]),
];

fn are_rebuilt(
    alloc: Global,
    items: &[i64],
    counts: &[u64],
    listed: &[(u64, i64, i64)],
) -> Result<bool, Memory> {
    let picks = rows_of(alloc, items)?;
    if picks.len() != counts.len() {
        return Ok(false);
    }
    let runs = rebuild(alloc, picks.as_slice(), counts)?;
    Ok(runs.as_slice() == runs_of(alloc, listed)?.as_slice())
}

#[test]
fn runs_of_counts(rt: HostRuntime) -> Result<(), Fail> {
    let alloc = rt.alloc();
    for (number, (items, counts, listed)) in COUNTS.iter().enumerate() {
        assert!(rt; are_rebuilt(alloc, items, counts, listed)?, "case {number}");
    }
    Ok(())
}

// A query of the rows of weeks 2 and 3, of any item; week 2 is in both boxes.
fn query(alloc: Global, column: Option<u8>) -> Result<Query, AllocError> {
    let mut boxes = Seq::new(alloc);
    for high in 2..4 {
        let sides = [
            Side::Span {
                low: i64::MIN,
                high: i64::MAX,
            },
            Side::Span { low: 2, high },
        ];
        boxes.push(Region {
            sides: Seq::from_slice(alloc, &sides)?,
        })?;
    }
    Ok(Query {
        agg: Agg::Sum,
        column,
        chosen: Area { boxes },
        group: None,
    })
}

// A count, a sum, the least and the greatest number.
type Parts = (u64, i128, Option<i64>, Option<i64>);

const NOTHING: Parts = (0, 0, None, None);

const MIXED: Listed = &[(3, 5, 2), (2, -7, 3), (4, 9, 1), (0, -8, 2)];

const MOST: u64 = 68_719_476_736;

// A column, runs, and what their rows come to.
static FOLDS: [(Option<u8>, Listed, Parts); 10] = [
    (None, &[], NOTHING),
    (Some(0), &[], NOTHING),
    (Some(0), &[(4, 9, 1)], NOTHING),
    (Some(0), &[(0, -8, 2)], NOTHING),
    (None, MIXED, (5, 0, None, None)),
    (Some(0), MIXED, (5, 1, Some(-7), Some(5))),
    (Some(1), MIXED, (5, 12, Some(2), Some(3))),
    (Some(2), MIXED, (5, 0, Some(0), Some(0))),
    (
        Some(0),
        &[(2, -4, 2), (1, -9, 3), (2, -4, 2)],
        (5, -25, Some(-9), Some(-4)),
    ),
    (
        Some(0),
        &[(MOST, i64::MIN, 2)],
        (
            MOST,
            -633_825_300_114_114_700_748_351_602_688,
            Some(i64::MIN),
            Some(i64::MIN),
        ),
    ),
];

fn are_folded(
    alloc: Global,
    column: Option<u8>,
    listed: &[(u64, i64, i64)],
    wanted: Parts,
) -> Result<bool, AllocError> {
    let query = query(alloc, column)?;
    let runs = runs_of(alloc, listed)?;
    let runs = runs.as_slice();
    if total_times(runs).is_none() {
        return Ok(false);
    }
    let (count, sum, least, greatest) = wanted;
    Ok(
        fold_runs(&query, runs)
            == Folded {
                count,
                sum,
                least,
                greatest,
            },
    )
}

#[test]
fn folds_of_runs(rt: HostRuntime) -> Result<(), Fail> {
    let alloc = rt.alloc();
    for (number, (column, listed, wanted)) in FOLDS.iter().enumerate() {
        assert!(rt;
            are_folded(alloc, *column, listed, *wanted)?,
            "case {number}"
        );
    }
    Ok(())
}

static TOTALS: [(Listed, Option<u64>); 7] = [
    (&[], Some(0)),
    (&[(0, 1, 1)], Some(0)),
    (&[(5, 1, 1), (0, 1, 1), (7, 2, 1)], Some(12)),
    (&[(MOST, 1, 1), (0, 1, 1)], Some(MOST)),
    (&[(MOST, 1, 1), (1, 1, 1)], None),
    (&[(MOST + 1, 1, 1)], None),
    (&[(u64::MAX, 1, 1), (u64::MAX, 1, 1)], None),
];

fn total_of(alloc: Global, listed: &[(u64, i64, i64)]) -> Result<Option<u64>, AllocError> {
    let runs = runs_of(alloc, listed)?;
    Ok(total_times(runs.as_slice()))
}

#[test]
fn totals_of_runs(rt: HostRuntime) -> Result<(), Fail> {
    let alloc = rt.alloc();
    for (number, (listed, wanted)) in TOTALS.iter().enumerate() {
        assert!(rt; total_of(alloc, listed)? == *wanted, "case {number}");
    }
    Ok(())
}
