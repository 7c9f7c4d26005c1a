ghost use Rattle.std.specs.Prelude.{◌≡◌, pos, ◌<ℤ◌};
ghost use Rattle.pc_desk_parts.specs.Ends.{centre_by, pull_by, pull_of, stand_of, way_for, way_by, way_of, worth, worth_by};
ghost use Rattle.pc_desk_parts.specs.Stands.{pull_adding, pull_being, pull_standing};

use crate::asked::{Asked, Reached, Seen, Side};
use crate::rows::asked;
use crate::stands::{Stand, stand_to};
use pc_model::{Agg, Query, Row};
use pc_num::Frac;

/// How rows make up an end: they add up to it, their number is the end, or they stand about it.
#[derive(Clone, Copy, Debug, PartialEq, Eq)]
pub enum Way {
    Adding,
    Being,
    Standing,
}

/// Whether more rows like one, or fewer, would move an end further out.
#[derive(Clone, Copy, Debug, PartialEq, Eq)]
pub enum Pull {
    More,
    Fewer,
    Neither,
}

pub(crate) fn way_for(ask: &Asked) -> Way
    ensures { result ≡ way_for ask.now }
{
    way_of(ask.query.agg, ask.seen)
}

fn way_of(agg: Agg, seen: Seen) -> Way
    ensures { result ≡ way_of agg seen.entry }
{
    match seen {
        Seen::Folded(_) => way_by(agg),
        Seen::Numbers(_) => Way::Standing,
    }
}

fn way_by(agg: Agg) -> Way
    ensures { result ≡ way_by agg }
{
    match agg {
        Agg::Count => Way::Adding,
        Agg::Sum => Way::Adding,
        Agg::Min => Way::Being,
        Agg::Max => Way::Being,
        Agg::Avg => Way::Adding,
    }
}

/// What a row adds where rows add up.
pub(crate) fn worth(query: &Query, row: &Row) -> i64
    ensures { result ≡ worth query.now row.now }
{
    worth_by(query.agg, asked(query, row))
}

fn worth_by(agg: Agg, number: i64) -> i64
    ensures { result ≡ worth_by agg number }
{
    match agg {
        Agg::Count => 1,
        Agg::Sum => number,
        Agg::Min => number,
        Agg::Max => number,
        Agg::Avg => number,
    }
}

fn centre_by(agg: Agg, value: Frac) -> Frac
    ensures { result ≡ centre_by agg value }
{
    match agg {
        Agg::Count => Frac { num: 0, den: 1 },
        Agg::Sum => Frac { num: 0, den: 1 },
        Agg::Min => value,
        Agg::Max => value,
        Agg::Avg => value,
    }
}

/// Where the row's number stands to the end.
pub(crate) fn stand_of(ask: &Asked, reached: &Reached, row: &Row) -> Stand
    requires { pos 0 <ℤ reached.now.value.den }
    ensures { result ≡ stand_of ask.now reached.now row.now }
{
    stand_to(reached.value, asked(ask.query, row))
}

/// Whether more rows like this one, or fewer, would move the end further out.
pub(crate) fn pull_of(ask: &Asked, reached: &Reached, row: &Row) -> Pull
    requires { pos 0 <ℤ reached.now.value.den }
    ensures { result ≡ pull_of ask.now reached.now row.now }
{
    let agg = ask.query.agg;
    let centre = centre_by(agg, reached.value);
    let added = stand_to(centre, worth(ask.query, row));
    pull_by(
        way_for(ask),
        agg,
        reached.side,
        added,
        stand_of(ask, reached, row),
    )
}

fn pull_by(way: Way, agg: Agg, side: Side, added: Stand, stand: Stand) -> Pull
    ensures { result ≡ pull_by way agg side added stand }
{
    match way {
        Way::Adding => pull_adding(side, added),
        Way::Being => pull_being(agg, side),
        Way::Standing => pull_standing(side, stand),
    }
}

fn pull_adding(side: Side, stand: Stand) -> Pull
    ensures { result ≡ pull_adding side stand }
{
    match (side, stand) {
        (Side::Low, Stand::Below) => Pull::More,
        (Side::Low, Stand::At) => Pull::Neither,
        (Side::Low, Stand::Above) => Pull::Fewer,
        (Side::High, Stand::Below) => Pull::Fewer,
        (Side::High, Stand::At) => Pull::Neither,
        (Side::High, Stand::Above) => Pull::More,
    }
}

fn pull_being(agg: Agg, side: Side) -> Pull
    ensures { result ≡ pull_being agg side }
{
    match (agg, side) {
        (Agg::Min, Side::High) => Pull::Fewer,
        (Agg::Max, Side::Low) => Pull::Fewer,
        _ => Pull::Neither,
    }
}

fn pull_standing(side: Side, stand: Stand) -> Pull
    ensures { result ≡ pull_standing side stand }
{
    match (side, stand) {
        (Side::Low, Stand::Below) => Pull::More,
        (Side::High, Stand::Above) => Pull::More,
        _ => Pull::Fewer,
    }
}
