ghost use Rattle.std.specs.Prelude.{◌≡◌, ◌<◌};
ghost use Rattle.pc_model.specs.Membership.{is_between, holds, has, row_from};
ghost use Rattle.pc_model.specs.Places.{has_bit, is_place_of};
ghost use Rattle.pc_model.specs.Regions.{meet_sides, set_unless_empty, span_unless_empty};

use crate::row::Row;
use pc_list::Seq;

/// The numbers of one column that a region holds: from `low` to `high`, or the places whose bit is set.
#[derive(Clone, Copy, Debug, PartialEq, Eq)]
pub enum Side {
    Span { low: i64, high: i64 },
    Names { bits: u128 },
}

/// A box of rows, with one side per column.
#[derive(Clone, Debug, PartialEq, Eq, Drop)]
pub struct Region {
    pub sides: Seq<Side>,
}

impl Side {
    /// Whether the side holds a number.
    #[tactic(auto, unfolding(crate::specs::Membership::holds))]
    pub fn holds(&self, number: i64) -> bool
        ensures { result ≡ holds self.now number }
    {
        match self {
            Side::Span { low, high } => is_between(*low, *high, number),
            Side::Names { bits } => is_place_of(*bits, number),
        }
    }

    /// What two sides of one column have in common, if there is anything.
    #[tactic(auto, unfolding(crate::specs::Regions::meet_sides))]
    pub fn meet(self, other: Side) -> Option<Side>
        ensures { result ≡ meet_sides self other }
    {
        match (self, other) {
            (
                Side::Span { low, high },
                Side::Span {
                    low: other_low,
                    high: other_high,
                },
            ) => span_unless_empty(low.max(other_low), high.min(other_high)),
            (Side::Names { bits }, Side::Names { bits: other_bits }) => {
                set_unless_empty(bits & other_bits)
            }
            _ => None,
        }
    }
}

fn span_unless_empty(low: i64, high: i64) -> Option<Side>
    ensures { result ≡ span_unless_empty low high }
{
    if high < low {
        return None;
    }
    Some(Side::Span { low, high })
}

fn set_unless_empty(bits: u128) -> Option<Side>
    ensures { result ≡ set_unless_empty bits }
{
    if bits == 0 {
        return None;
    }
    Some(Side::Names { bits })
}

/// Whether a number lies from `low` to `high`, both included.
pub fn is_between(low: i64, high: i64, number: i64) -> bool
    ensures { result ≡ is_between low high number }
{
    low <= number && number <= high
}

#[tactic(auto, using(crate::proofs::PastBits::past_the_bits))]
fn is_place_of(bits: u128, number: i64) -> bool
    ensures { result ≡ is_place_of bits number }
{
    if number < 0 {
        return false;
    }
    if 128 <= number {
        return false;
    }
    has_bit(bits, number as usize)
}

/// Whether a bit is set.
pub fn has_bit(bits: u128, place: usize) -> bool
    requires { place < 128 }
    ensures { result ≡ has_bit bits place }
{
    (bits >> place as u32) & 1 == 1
}

impl Region {
    /// Whether the region holds a row: one number per side, each held by its side.
    pub fn has(&self, row: &Row) -> bool
        ensures { result ≡ has self.now row.now }
    {
        self.has_cells(row.cells.as_slice())
    }

    /// The same of a row of these numbers.
    #[tactic(auto, using(crate::proofs::Pairs::steps), unfolding(crate::specs::Membership::has))]
    pub fn has_cells(&self, cells: &[i64]) -> bool
        ensures { result ≡ has self.now (row_from cells.now) }
    {
        let sides = self.sides.as_slice();
        if sides.len() != cells.len() {
            return false;
        }
        for (place, side) in sides.iter().enumerate() {
            if !side.holds(cells[place]) {
                return false;
            }
        }
        true
    }
}
