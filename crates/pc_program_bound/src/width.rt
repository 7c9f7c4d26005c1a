ghost use Rattle.std.specs.Prelude.{◌≡◌, ◌≤◌, pos, ◌*ℤ◌, SomeIff};
ghost use Rattle.pc_program_bound.specs.Bound.{IsFit};
ghost use Rattle.pc_program_bound.specs.Parts.{IsAround, size_of};

use pc_num::fit_mul;

/// The size of the number, times so many, or none where that does not fit.
pub fn fit_size(number: i128, count: u64) -> Option<i128>
    requires { IsFit number }
    ensures { SomeIff result (IsFit (size_of number count)) (size_of number count) }
{
    fit_mul(number.abs(), count as i128)
}

/// The number times a count up to the most, which `fit_size` found to fit.
pub fn times(number: i128, count: u64, most: u64) -> i128
    requires within { count ≤ most }
    requires fits { IsFit (size_of number most) }
    ensures value { result ≡ number *ℤ pos count }
    ensures around { IsAround result (size_of number most) }
{
    number * count as i128
}
