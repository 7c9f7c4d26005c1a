use super::three_rows;
use pc_list::Seq;
use pc_model::{Agg, Area, Folded, Query, Region, Side};
use pc_num::Memory;
use pc_rows::Rows;
use std::alloc::{AllocError, Global};
use std::test::Fail;

pub(crate) const ANY: (i64, i64) = (i64::MIN, i64::MAX);

fn region(alloc: Global, first: (i64, i64), second: (i64, i64)) -> Result<Region, AllocError> {
    let sides = [
        Side::Span {
            low: first.0,
            high: first.1,
        },
        Side::Span {
            low: second.0,
            high: second.1,
        },
    ];
    Ok(Region {
        sides: Seq::from_slice(alloc, &sides)?,
    })
}

pub(crate) fn query(
    alloc: Global,
    column: Option<u8>,
    first: (i64, i64),
    second: (i64, i64),
) -> Result<Query, Memory> {
    let region = region(alloc, first, second)?;
    Ok(Query {
        agg: Agg::Count,
        column,
        chosen: Area::of_box(alloc, region)?,
        group: None,
    })
}

/// A count, a sum, and the least and the greatest number.
pub(crate) type Fold = (u64, i128, Option<i64>, Option<i64>);

pub(crate) fn folded(wanted: Fold) -> Folded {
    Folded {
        count: wanted.0,
        sum: wanted.1,
        least: wanted.2,
        greatest: wanted.3,
    }
}

// Whether the rows come to this by a query that is made and ended here.
pub(crate) fn folds_to(
    alloc: Global,
    rows: &Rows,
    column: Option<u8>,
    first: (i64, i64),
    second: (i64, i64),
    wanted: Fold,
) -> Result<bool, Memory> {
    let query = query(alloc, column, first, second)?;
    Ok(rows.fold(&query) == folded(wanted))
}

type Case = (Option<u8>, (i64, i64), (i64, i64), Fold);

static CASES: [Case; 9] = [
    (Some(0), ANY, ANY, (3, 19, Some(3), Some(9))),
    (Some(1), ANY, ANY, (3, 9, Some(1), Some(4))),
    (Some(0), ANY, (4, 4), (2, 16, Some(7), Some(9))),
    (Some(1), (4, 8), ANY, (1, 4, Some(4), Some(4))),
    (Some(0), (3, 7), (1, 1), (1, 3, Some(3), Some(3))),
    (Some(0), ANY, (2, 3), (0, 0, None, None)),
    (None, ANY, ANY, (3, 0, None, None)),
    (None, (4, 9), ANY, (2, 0, None, None)),
    (Some(2), ANY, ANY, (3, 0, Some(0), Some(0))),
];

#[test]
fn folds(rt: HostRuntime) -> Result<(), Fail> {
    let alloc = rt.alloc();
    let rows = three_rows(alloc)?;
    let empty = Rows::new(alloc);
    let nothing = (0, 0, None, None);
    for (number, (column, first, second, wanted)) in CASES.iter().enumerate() {
        let found = folds_to(alloc, &rows, *column, *first, *second, *wanted)?;
        assert!(rt; found, "case {number}");
        let none = folds_to(alloc, &empty, *column, *first, *second, nothing)?;
        assert!(rt; none, "case {number}");
    }
    Ok(())
}

// The query whose area has a second box.
fn with_box(
    alloc: Global,
    mut query: Query,
    first: (i64, i64),
    second: (i64, i64),
) -> Result<Query, Memory> {
    query.chosen.boxes.push(region(alloc, first, second)?)?;
    Ok(query)
}

// Rows of either box, and a row of both once.
#[test]
fn folds_of_two_boxes(rt: HostRuntime) -> Result<(), Fail> {
    let alloc = rt.alloc();
    let rows = three_rows(alloc)?;
    let apart = with_box(alloc, query(alloc, Some(0), (3, 3), ANY)?, (9, 9), ANY)?;
    let shared = with_box(alloc, query(alloc, Some(0), (3, 7), ANY)?, (7, 9), ANY)?;
    assert!(rt; rows.fold(&apart) == folded((2, 12, Some(3), Some(9))));
    assert!(rt; rows.fold(&shared) == folded((3, 19, Some(3), Some(9))));
    Ok(())
}

// Two rows of the least and of the greatest number.
fn extremes(alloc: Global) -> Result<Rows, Fail> {
    let mut rows = Rows::new(alloc);
    rows.push_cells(&[i64::MIN, i64::MAX])?;
    rows.push_cells(&[i64::MIN, i64::MAX])?;
    Ok(rows)
}

#[test]
fn extreme_numbers(rt: HostRuntime) -> Result<(), Fail> {
    let alloc = rt.alloc();
    let rows = extremes(alloc)?;
    let lowest = (2, -18446744073709551616, Some(i64::MIN), Some(i64::MIN));
    let highest = (2, 18446744073709551614, Some(i64::MAX), Some(i64::MAX));
    assert!(rt; folds_to(alloc, &rows, Some(0), ANY, ANY, lowest)?);
    assert!(rt; folds_to(alloc, &rows, Some(1), ANY, ANY, highest)?);
    Ok(())
}
