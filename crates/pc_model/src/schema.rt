ghost use Rattle.std.specs.Prelude.{◌≡◌, ◌≤◌, ◌-◌, ◌^◌, IfOk};
ghost use Rattle.pc_model.specs.Membership.{allows, in_domain};
ghost use Rattle.pc_model.specs.Places.{is_below};
ghost use Rattle.pc_model.specs.Regions.{whole_area, whole_side, whole_region};
ghost use Rattle.pc_model.specs.WellFormed.{HasFewNames, HaveFewNames};

use crate::area::Area;
use crate::region::{Region, Side, is_between};
use crate::row::Row;
use pc_list::{Seq, Text};
use pc_num::Memory;
use std::alloc::Global;

/// What the numbers of a column are. Numbers of a decimal column are in units of its last place, and
/// those of a column of names are places in its list, from 0.
#[derive(Debug, PartialEq, Eq, Drop)]
pub enum Kind {
    Int { low: i64, high: i64 },
    Dec { scale: u8, low: i64, high: i64 },
    Cat { names: Seq<Text> },
}

/// A column with its name.
#[derive(Debug, PartialEq, Eq, Drop)]
pub struct Column {
    pub name: Text,
    pub kind: Kind,
}

/// The columns of a table, in order.
#[derive(Debug, PartialEq, Eq, Drop)]
pub struct Schema {
    pub columns: Seq<Column>,
}

impl Kind {
    /// Whether a column of this kind may hold a number.
    #[tactic(auto, unfolding(crate::specs::Membership::allows))]
    pub fn allows(&self, number: i64) -> bool
        ensures { result ≡ allows self.now number }
    {
        match self {
            Kind::Int { low, high } => is_between(*low, *high, number),
            Kind::Dec { low, high, .. } => is_between(*low, *high, number),
            Kind::Cat { names } => is_below(names.len(), number),
        }
    }

    /// Every number that a column of this kind may hold.
    pub fn whole_side(&self) -> Side
        requires { HasFewNames self.now }
        ensures { result ≡ whole_side self.now }
    {
        match self {
            Kind::Int { low, high } => Side::Span {
                low: *low,
                high: *high,
            },
            Kind::Dec { low, high, .. } => Side::Span {
                low: *low,
                high: *high,
            },
            Kind::Cat { names } => Side::Names {
                bits: first_bits(names.len()),
            },
        }
    }
}

// A number with so many bits set, from the last one on.
fn first_bits(count: usize) -> u128
    requires { count ≤ 128 }
    ensures { result ≡ 2 ^ count - 1 }
{
    if count == 128 {
        return u128::MAX;
    }
    (1 << count as u32) - 1
}

fn is_below(count: usize, number: i64) -> bool
    ensures { result ≡ is_below count number }
{
    if number < 0 {
        return false;
    }
    (number as usize) < count
}

impl Schema {
    /// The region of the whole domain.
    #[tactic(auto, using(crate::proofs::Whole::steps))]
    pub fn whole(&self, alloc: Global) -> Result<Region, Memory>
        requires { HaveFewNames self.now.columns }
        ensures { IfOk result (λ region. region ≡ whole_region self.now) }
    {
        let mut sides = Seq::new(alloc);
        for column in self.columns.as_slice() {
            sides.push(column.kind.whole_side())?;
        }
        Ok(Region { sides })
    }

    /// The area of the whole domain.
    pub fn whole_area(&self, alloc: Global) -> Result<Area, Memory>
        requires { HaveFewNames self.now.columns }
        ensures { IfOk result (λ area. area ≡ whole_area self.now) }
    {
        Area::of_box(alloc, self.whole(alloc)?)
    }

    /// Whether a row is in the domain: one number per column, each allowed by its kind.
    #[tactic(auto, using(crate::proofs::Pairs::steps), unfolding(crate::specs::Membership::in_domain))]
    pub fn allows_row(&self, row: &Row) -> bool
        ensures { result ≡ in_domain self.now row.now }
    {
        let columns = self.columns.as_slice();
        let cells = row.cells.as_slice();
        if columns.len() != cells.len() {
            return false;
        }
        for (place, column) in columns.iter().enumerate() {
            if !column.kind.allows(cells[place]) {
                return false;
            }
        }
        true
    }
}
