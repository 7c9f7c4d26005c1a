use crate::ready::{do_fit, free};
use pc_simplex_tableau::{Tableau, WholeRow, make_primitive};
use std::alloc::{AllocError, Global};
use std::test::Fail;

#[test]
fn rows_without_a_common_divisor(rt: HostRuntime) {
    let mut doubled = [4, -6, 0];
    make_primitive(&mut doubled);
    assert_eq!(rt; doubled, [2, -3, 0]);
    let mut zeros = [0, 0];
    make_primitive(&mut zeros);
    assert_eq!(rt; zeros, [0, 0]);
}

/// An objective row of weight 1 over a row, whose value comes last.
fn tableau(alloc: Global, aim: &[i128], row: &[i128]) -> Result<Tableau, AllocError> {
    let numbers = Vec::from_slice(alloc, row)?;
    let rows = vec![in alloc; WholeRow { numbers, basic: 0 }]?;
    Ok(Tableau {
        rows,
        turned: vec![in alloc; false; aim.len()]?,
        aim: Vec::from_slice(alloc, aim)?,
        weight: 1,
    })
}

// An objective row, a row, and the objective row freed of the first column and its weight, where the numbers fit.
static FREED: [(&[i128], &[i128], Option<(&[i128], i128)>); 3] = [
    // Twice the one row minus the other.
    (&[1, 1, 0, 1], &[2, 0, 1, 1, 0], Some((&[0, 2, -1, 1], 2))),
    // A product that does not fit.
    (&[1, i128::MAX], &[2, 0, 0], None),
    // The least number, which does not fit either.
    (&[1, -i128::MAX], &[1, 1, 0], None),
];

fn is_freed(
    alloc: Global,
    aim: &[i128],
    row: &[i128],
    wanted: Option<(&[i128], i128)>,
) -> Result<bool, AllocError> {
    let mut tableau = tableau(alloc, aim, row)?;
    let fits = do_fit(&tableau);
    let is_freed = free(&mut tableau, 0);
    match wanted {
        Some((aim, weight)) => Ok(
            is_freed && tableau.aim.as_slice() == aim && tableau.weight == weight,
        ),
        None => Ok(fits && !is_freed),
    }
}

#[test]
fn rows_that_fit_or_not(rt: HostRuntime) -> Result<(), Fail> {
    let alloc = rt.alloc();
    for (place, (aim, row, wanted)) in FREED.iter().enumerate() {
        assert!(rt; is_freed(alloc, aim, row, *wanted)?, "row {place}");
    }
    Ok(())
}
