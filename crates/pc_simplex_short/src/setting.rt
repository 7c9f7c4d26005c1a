use crate::places::Places;
use pc_list::Seq;
use pc_simplex_tableau::Columns;
use std::marker::Model;

/// What the steps of a phase leave as it is: its columns, the constraints that speak of each column by number, what a row of
/// each column gains, a number that no gain exceeds in size, and how many constraints there are.
#[derive(Drop)]
pub struct ShortSetting {
    pub columns: Columns,
    pub places: Places,
    pub gains: Seq<i128>,
    pub top: u128,
    pub constraints: usize,
}

impl Model for ShortSetting {
    ghost use Rattle.pc_simplex_short.specs.Short.{ShortSetting};

    ghost Value = { ShortSetting };

    ghost view = { λ f. record { columns = f.columns; places = f.places; gains = f.gains; top = f.top; constraints = f.constraints } };
}
