ghost use Rattle.std.specs.Prelude.{◌≡◌, ◌<◌, ◌-ℤ◌, ◌*ℤ◌, ◌&&◌, pos, neg_ℤ, map, length, All, IsTrue, SomeIff};
ghost use Rattle.pc_program_bound.specs.Sums.{int_at};
ghost use Rattle.pc_program_bound.specs.Bound.{IsFit};
ghost use Rattle.pc_simplex_tableau.specs.Numbers.{does_fit};
ghost use Rattle.pc_simplex_tableau.specs.Tableau.{turned_numbers, turned_row, freed_row, does_freed_row_fit};
ghost use Rattle.pc_simplex_tableau.specs.Conditions.{IsSizedRow, does_turned_row_fit};

use crate::columns::Columns;
use crate::numbers::{combine, make_primitive};
use pc_num::{fit_mul, fit_sub};
use std::marker::Model;

/// An entry per column and then the row's value, and the column that is basic in it.
#[derive(Drop)]
pub struct WholeRow {
    pub numbers: Vec<i128>,
    pub basic: usize,
}

impl Model for WholeRow {
    ghost use Rattle.pc_simplex_tableau.specs.Tableau.{TableauRow};

    ghost Value = { TableauRow };

    ghost view = { λ row. record { numbers = row.numbers.items; basic = row.basic } };
}

impl WholeRow {
    /// Turns a column of that range. It answers false where a number does not fit, and the row is then of no more use.
    pub(crate) fn turn(&mut self, columns: &Columns, column: usize, range: u64) -> bool
        requires sized { IsSizedRow columns.now self.old }
        requires fits { All IsFit self.old.numbers }
        requires column { column < columns.now.count }
        ensures value { result ≡ does_turned_row_fit columns.now column range self.old }
        ensures turned { IsTrue result → self.new ≡ turned_row columns.now column range self.old }
        ensures fits { IsTrue result → All IsFit self.new.numbers }
    {
        if !turn_numbers(self.numbers.as_mut_slice(), columns, column, range) {
            return false;
        }
        if self.basic == column {
            negate(self.numbers.as_mut_slice());
        }
        true
    }

    /// Frees the row of a column by a row that has an entry there. It answers false where a number does not fit, and the row
    /// is then of no more use.
    pub(crate) fn free(&mut self, column: usize, other: &[i128]) -> bool
        requires fits { All IsFit self.old.numbers }
        requires other_fits { All IsFit other.now }
        requires sized { length self.old.numbers ≡ length other.now }
        requires column { column < length other.now }
        ensures value { result ≡ does_freed_row_fit column other.now self.old }
        ensures freed { IsTrue result → self.new ≡ freed_row column other.now self.old }
        ensures fits { IsTrue result → All IsFit self.new.numbers }
    {
        let entry = self.numbers[column];
        if entry == 0 {
            return true;
        }
        if !combine(self.numbers.as_mut_slice(), other[column], entry, other) {
            return false;
        }
        make_primitive(self.numbers.as_mut_slice());
        true
    }
}

fn turn_numbers(numbers: &mut [i128], columns: &Columns, column: usize, range: u64) -> bool
    requires fits { All IsFit numbers.old }
    requires column { column < columns.now.count }
    requires sized { columns.now.count < length numbers.old }
    ensures value { result ≡ does_fit (int_at numbers.old column *ℤ pos range) && does_fit (int_at numbers.old columns.now.count -ℤ int_at numbers.old column *ℤ pos range) }
    ensures turned { IsTrue result → numbers.new ≡ turned_numbers columns.now column range numbers.old }
    ensures fits { IsTrue result → All IsFit numbers.new }
{
    let entry = numbers[column];
    match turned_value(numbers[columns.count], entry, range) {
        Some(value) => {
            numbers[columns.count] = value;
            numbers[column] = negative(entry);
            true
        }
        None => false,
    }
}

fn turned_value(value: i128, entry: i128, range: u64) -> Option<i128>
    ensures { SomeIff result (IsFit (entry *ℤ pos range) × IsFit (value -ℤ entry *ℤ pos range)) (value -ℤ entry *ℤ pos range) }
{
    let taken = fit_mul(entry, i128::from(range))?;
    fit_sub(value, taken)
}

/// Minus the number.
pub(crate) fn negative(number: i128) -> i128
    requires { IsFit number }
    ensures value { result ≡ neg_ℤ number }
    ensures fits { IsFit result }
{
    -number
}

/// Minus each number.
pub fn negate(numbers: &mut [i128])
    requires { All IsFit numbers.old }
    ensures negated { numbers.new ≡ map neg_ℤ numbers.old }
    ensures fits { All IsFit numbers.new }
{
    for number in numbers.iter_mut() {
        *number = negative(*number);
    }
}
