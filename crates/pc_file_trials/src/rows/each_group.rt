ghost use Rattle.std.specs.Prelude.{◌<◌, ◌≢◌, ℕ, All, AllPairs};
ghost use Rattle.pc_rows.specs.Groups.{name_limit};

use super::folds::{Fold, folded};
use super::{branches, sales};
use pc_list::Seq;
use pc_model::{Agg, Area, Folded, Query, Region, Side};
use pc_num::Memory;
use pc_rows::{Rows, read_rows};
use std::alloc::{AllocError, Global};
use std::test::Fail;

// A sum of prices by branch, over the sales of some days.
fn by_branch(alloc: Global, last_day: i64, bits: u128) -> Result<Query, Memory> {
    let sides = [
        Side::Names { bits },
        Side::Span {
            low: 1,
            high: last_day,
        },
        Side::Span {
            low: 0,
            high: 100_000,
        },
    ];
    let region = Region {
        sides: Seq::from_slice(alloc, &sides)?,
    };
    Ok(Query {
        agg: Agg::Sum,
        column: Some(2),
        chosen: Area::of_box(alloc, region)?,
        group: Some(0),
    })
}

// The rows of three sales.
fn three_sales(alloc: Global) -> Result<Rows, Fail> {
    let schema = sales(alloc, branches(alloc)?)?;
    let text = b"branch,day,price\nChicago,3,100.00\nNewYork,5,50.00\nChicago,9,1.00\n";
    Ok(read_rows(alloc, &schema, text)?)
}

// Whether the rows come to this by the sales up to a day, for each of these branches in turn.
fn fold_to(
    alloc: Global,
    rows: &Rows,
    days: (i64, u128),
    groups: &[u32],
    wanted: &[Folded],
) -> Result<bool, Fail>
    requires places { All (λ (name : ℕ). name < name_limit) groups.now }
    requires once { AllPairs (λ (a b : ℕ). a ≢ b) groups.now }
{
    let query = by_branch(alloc, days.0, days.1)?;
    if query.group.is_none() {
        return Ok(false);
    }
    let folds = rows.fold_each(alloc, &query, groups)?;
    Ok(folds.as_slice() == wanted)
}

const NONE: Fold = (0, 0, None, None);

const CHICAGO: Fold = (1, 10_000, Some(10_000), Some(10_000));

const ALL_CHICAGO: Fold = (2, 10_100, Some(100), Some(10_000));

const NEW_YORK: Fold = (1, 5_000, Some(5_000), Some(5_000));

// Whether the sales of a week come to this, with each group in its place.
fn week_folds(alloc: Global, rows: &Rows) -> Result<bool, Fail> {
    let week = (7, 0b111);
    let folds = [folded(CHICAGO), folded(NEW_YORK), folded(NONE)];
    let turned = [folded(NONE), folded(CHICAGO)];
    Ok(
        fold_to(alloc, rows, week, &[0, 1, 2], &folds)?
            && fold_to(alloc, rows, week, &[2, 0], &turned)?
            && fold_to(alloc, rows, week, &[], &[])?,
    )
}

// Whether the sales of two branches come to this, with groups that are not chosen or stand for no name.
fn others_fold(alloc: Global, rows: &Rows) -> Result<bool, Fail> {
    let folds = [folded(NONE), folded(NONE), folded(ALL_CHICAGO)];
    fold_to(alloc, rows, (31, 0b101), &[1, 127, 0], &folds)
}

fn no_rows_fold(alloc: Global) -> Result<bool, Fail> {
    fold_to(alloc, &Rows::new(alloc), (31, 0b101), &[0], &[folded(NONE)])
}

#[test]
fn one_fold_for_each_group(rt: HostRuntime) -> Result<(), Fail> {
    let rows = three_sales(rt.alloc())?;
    assert!(rt; week_folds(rt.alloc(), &rows)?);
    assert!(rt; others_fold(rt.alloc(), &rows)?);
    assert!(rt; no_rows_fold(rt.alloc())?);
    Ok(())
}
