ghost use Rattle.std.specs.Prelude.{◌≡◌};
ghost use Rattle.pc_desk_meanings.specs.Words.{sentence};

use pc_model::Reason;

/// What is told of a reason where nothing of the line can be pointed at.
pub(crate) fn sentence<'x>(reason: Reason) -> &'x [u8]
    ensures { result.now ≡ sentence reason }
{
    match reason {
        Reason::TooMany => {
            b"there are at most 20 constraints, and four parts between the `or`s".as_slice()
        }
        Reason::RepeatedName => {
            b"a line of this name stands before, and a name stands once".as_slice()
        }
        Reason::BadNumber => {
            b"a number of rows, and those of a quantile, are digits alone".as_slice()
        }
        Reason::PastLimit => {
            b"there are at most 10000000 rows, and the numbers of a quantile go from 1 to 1000".as_slice()
        }
        Reason::LeastOverMost => b"the first number is greater than the second".as_slice(),
        Reason::UnknownName => b"no line before has this name".as_slice(),
        _ => b"the schema does not have what stands there".as_slice(),
    }
}
