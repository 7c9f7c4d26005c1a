ghost use Rattle.std.specs.Prelude.{◌≡◌, ◌≤◌, IfOk, unsigned_abs};
ghost use Rattle.pc_num.specs.Scaled.{greatest_size};
ghost use Rattle.pc_num.specs.Spelling.{Spells};
ghost use Rattle.pc_model.specs.Numbers.{number_of, number_reason};

use crate::fault::Reason;
use pc_num::{NumFault, read_scaled};

/// Reads a number of a file as a whole number of units of its last place, with `scale` decimals.
pub fn read_number(text: &[u8], scale: u8) -> Result<i64, Reason>
    ensures value { result ≡ number_of scale text.now }
    ensures spelled { IfOk result (Spells text.now scale) }
    ensures small { IfOk result (λ number. unsigned_abs number ≤ greatest_size) }
{
    match read_scaled(text, scale) {
        Ok(number) => Ok(number),
        Err(fault) => Err(number_reason(fault)),
    }
}

fn number_reason(fault: NumFault) -> Reason
    ensures { result ≡ number_reason fault }
{
    match fault {
        NumFault::NotANumber => Reason::BadNumber,
        NumFault::TooManyDecimals => Reason::TooManyDecimals,
        NumFault::PastLimit => Reason::PastLimit,
    }
}
