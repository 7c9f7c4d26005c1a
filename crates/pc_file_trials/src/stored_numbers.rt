ghost use Rattle.std.specs.Prelude.{◌≡◌, length, IfOk, All};

use crate::stored::{GREATEST, LEAST, numbers, rows_within, with_pair};
use pc_rows::Rows;
use std::alloc::Global;
use std::process::Abort;
use std::test::Fail;

// Of each the numbers up to the first two of which one does not fit may stand in four bytes each, where two are added
// at a time.
static CASES: [[i64; 6]; 6] = [
    [0, 1, -1, 7, LEAST, GREATEST],
    [LEAST, GREATEST, GREATEST + 1, 5, 3, 4],
    [1, 2, 3, LEAST - 1, 4, 5],
    [1, 2, 3, 4, 5, 4_294_967_296],
    [1, 2, i64::MIN, i64::MAX, 3, 4],
    [i64::MAX, 0, i64::MIN, 1, 2, 3],
];

// Whether the numbers read back once they are added, two at a time.
fn read_back(rt: &impl Abort, alloc: Global, rows: Rows, cells: &[i64; 6]) -> Result<bool, Fail>
    requires { All (λ row. length row.cells ≡ 2) rows }
{
    let [first, second, third, fourth, fifth, sixth] = *cells;
    let rows = with_pair(rt, rows, first, second)?;
    let rows = with_pair(rt, rows, third, fourth)?;
    let rows = with_pair(rt, rows, fifth, sixth)?;
    Ok(numbers(alloc, &rows)?.as_slice() == cells.as_slice())
}

#[test]
fn four_bytes_up_to_the_first_that_does_not_fit(rt: HostRuntime) -> Result<(), Fail> {
    for (number, cells) in CASES.iter().enumerate() {
        let rows = rows_within(rt.alloc(), LEAST, GREATEST, "a,b\n")?;
        assert!(rt; read_back(&rt, rt.alloc(), rows, cells)?, "case {number}");
    }
    Ok(())
}

#[test]
fn eight_bytes_from_the_start(rt: HostRuntime) -> Result<(), Fail> {
    for (number, cells) in CASES.iter().enumerate() {
        let rows = Rows::new(rt.alloc());
        assert!(rt; read_back(&rt, rt.alloc(), rows, cells)?, "case {number}");
    }
    Ok(())
}
