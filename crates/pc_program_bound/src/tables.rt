ghost use Rattle.std.specs.Prelude.{◌≡◌, ◌↔◌, ◌≤◌, ◌+◌, ◌*◌, ◌/◌, ◌%◌, ◌^◌, nat_abs, ◌+ℤ◌, All, IsTrue};
ghost use Rattle.pc_program_bound.specs.Sums.{int_at};
ghost use Rattle.pc_program_bound.specs.Short.{IsShortNumber, IsSmallTable, AreSmallTables, AreTables, four_sums, sums_from};

/// The sums of sets of at most 20 multipliers, each at most 2^57 from 0: five tables of four multipliers each, with a
/// sum for each set of these.
#[derive(Drop)]
pub struct Tables {
    pub first: [i64; 16],
    pub second: [i64; 16],
    pub third: [i64; 16],
    pub fourth: [i64; 16],
    pub fifth: [i64; 16],
}

/// The tables of these multipliers.
pub fn tables_of(by: &[i128]) -> Tables
    requires { All IsShortNumber by.now }
    ensures tables { AreTables by.now result }
    ensures small { AreSmallTables result }
{
    Tables {
        first: table_from(by, 0),
        second: table_from(by, 4),
        third: table_from(by, 8),
        fourth: table_from(by, 12),
        fifth: table_from(by, 16),
    }
}

impl Tables {
    /// What the multipliers of a mask come to.
    pub fn given(&self, mask: u32) -> i64
        requires small { AreSmallTables self.now }
        ensures value { result ≡ int_at self.now.first (mask % 16) +ℤ int_at self.now.second (mask / 16 % 16) +ℤ int_at self.now.third (mask / 256 % 16) +ℤ int_at self.now.fourth (mask / 4_096 % 16) +ℤ int_at self.now.fifth (mask / 65_536 % 16) }
        ensures small { nat_abs result ≤ 20 * 2 ^ 57 }
    {
        at(&self.first, mask)
            + at(&self.second, mask / 16)
            + at(&self.third, mask / 256)
            + at(&self.fourth, mask / 4_096)
            + at(&self.fifth, mask / 65_536)
    }
}

/// The sum of the set that the lowest four bits make.
fn at(table: &[i64; 16], bits: u32) -> i64
    requires small { IsSmallTable table.now }
    ensures value { result ≡ int_at table.now (bits % 16) }
    ensures small { nat_abs result ≤ 4 * 2 ^ 57 }
{
    table[(bits % 16) as usize]
}

fn table_from(by: &[i128], place: usize) -> [i64; 16]
    requires short { All IsShortNumber by.now }
    requires place { place ≤ 16 }
    ensures sums { result ≡ sums_from by.now place }
    ensures small { IsSmallTable result }
{
    let one = number_at(by, place);
    let two = number_at(by, place + 1);
    let four = number_at(by, place + 2);
    let eight = number_at(by, place + 3);
    sums(one, two, four, eight)
}

/// The number at a place, 0 where there is none.
fn number_at(by: &[i128], place: usize) -> i64
    requires { All IsShortNumber by.now }
    ensures value { result ≡ int_at by.now place }
    ensures short { IsShortNumber result }
{
    match by.get(place) {
        Some(number) => *number as i64,
        None => 0,
    }
}

/// Whether the numbers are at most 2^57 from 0.
pub fn are_short(numbers: &[i128]) -> bool
    ensures { IsTrue result ↔ All IsShortNumber numbers.now }
{
    for number in numbers {
        if number.unsigned_abs() > 1 << 57 {
            return false;
        }
    }
    true
}

fn sums(one: i64, two: i64, four: i64, eight: i64) -> [i64; 16]
    requires one { IsShortNumber one }
    requires two { IsShortNumber two }
    requires four { IsShortNumber four }
    requires eight { IsShortNumber eight }
    ensures sums { result ≡ four_sums one two four eight }
    ensures small { IsSmallTable result }
{
    let three = one + two;
    let twelve = four + eight;
    [
        0,
        one,
        two,
        three,
        four,
        one + four,
        two + four,
        three + four,
        eight,
        one + eight,
        two + eight,
        three + eight,
        twelve,
        one + twelve,
        two + twelve,
        three + twelve,
    ]
}
