ghost use Rattle.std.specs.Prelude.{◌≡◌, IfOk};
ghost use Rattle.pc_desk_fault.specs.Sentences.{sentence, sentence_line};

use pc_model::Reason;
use pc_num::Memory;
use std::alloc::Global;

/// A line on what may stand where a reason is given.
#[tactic(auto, unfolding(crate::specs::Sentences::sentence_line))]
pub(crate) fn sentence_line(alloc: Global, reason: Reason) -> Result<Vec<u8>, Memory>
    ensures { IfOk result (λ text. text.items ≡ sentence_line reason) }
{
    let mut text = Vec::from_slice(alloc, b"    ".as_slice())?;
    text.extend_from_slice(sentence(reason))?;
    text.push(b'\n')?;
    Ok(text)
}

fn sentence<'x>(reason: Reason) -> &'x [u8]
    ensures { result.now ≡ sentence reason }
{
    match reason {
        Reason::NotUtf8 => b"the file is to be saved as UTF-8".as_slice(),
        Reason::BadName =>
            b"a name has 1 to 64 bytes of UTF-8, none of them of a control character".as_slice(),
        Reason::NoHeader =>
            b"a schema has a record for each column, and a row file begins with a record of their names".as_slice(),
        Reason::UnknownColumn =>
            b"a column is named as it is in the schema, byte for byte".as_slice(),
        Reason::MissingColumn =>
            b"the header names each column of the schema, with commas between the names".as_slice(),
        Reason::RepeatedName => b"a name stands once, and so does a line of `outside`".as_slice(),
        Reason::BadKind => b"the second field is `int`, `dec` or `cat`".as_slice(),
        Reason::BadNumber =>
            b"a number is digits, with a sign before them or not, and with a point and digits after them or not; a number of rows and those of a quantile are digits alone".as_slice(),
        Reason::PastLimit =>
            b"a number is at most 1,000,000,000,000,000, its point left out at the scale of its column; a number of rows is at most 10,000,000, and those of a quantile are from 1 to 1,000".as_slice(),
        Reason::TooManyDecimals =>
            b"a number has no more decimals than its column, but for zeros".as_slice(),
        Reason::OutsideDomain =>
            b"a number is from the least to the greatest of its column, and a row that is dropped is one of those that are held".as_slice(),
        Reason::UnknownName =>
            b"a name is one of those of its column, byte for byte, and a constraint that is dropped is one of those that are held".as_slice(),
        Reason::FieldCount =>
            b"a row has as many fields as the header, or in a script as the schema has columns".as_slice(),
        Reason::TooMany =>
            b"there are at most 12 columns, 128 names of a column, 1,000,000 rows, 20 constraints, 4 parts of an area, 10,000 lines of a script and 1,000 questions of it".as_slice(),
        Reason::BadToken => b"no sign, name or number begins somewhere in it".as_slice(),
        Reason::Unexpected => b"it is not as the grammar has it".as_slice(),
        Reason::EmptySpan =>
            b"the first number is at most the second, and something is left of what the column may hold".as_slice(),
        Reason::LeastOverMost =>
            b"the least number of rows is at most the greatest, and the first number of a quantile at most the second".as_slice(),
        Reason::WrongKind =>
            b"a number is stated of a column of numbers and a name of one of names, all but a count ask for a column of numbers, and `group by` for one of names".as_slice(),
        Reason::TooLong =>
            b"a file has at most 67,108,864 bytes, and a document at most 268,435,456".as_slice(),
    }
}
