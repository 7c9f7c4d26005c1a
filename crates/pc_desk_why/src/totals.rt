//! The running totals of parts, and the segments between them.
ghost use Rattle.std.specs.Prelude.{◌≡◌, ◌≤◌, ◌^◌, ◌-◌, pos, IfOk, IfSome, unsigned_abs};
ghost use Rattle.pc_desk_parts.specs.Sums.{amount_of};
ghost use Rattle.pc_desk_why.specs.Bars.{is_drawn, limit, millionths, segments_between, start_of, tone_of, total_after, total_of, total_with};

use pc_desk_draw::{Segment, Tone};
use pc_desk_parts::{Adds, Part};
use pc_list::Seq;
use pc_num::Memory;
use std::alloc::Global;

/// The greatest size of a total that is drawn.
const LIMIT: u128 = 10_000_000_000_000_000_000_000_000_000_000;

/// Nothing is summed where the ends are not what the parts add.
pub(crate) fn start_of(sums: bool) -> Option<i128>
    ensures total { result ≡ start_of sums }
    ensures small { IfSome result (λ total. unsigned_abs total ≤ limit) }
{
    if sums {
        return Some(0);
    }
    None
}

/// The total after what one part more adds.
pub(crate) fn total_after(total: Option<i128>, adds: Adds) -> Option<i128>
    requires { IfSome total (λ before. unsigned_abs before ≤ limit) }
    ensures total { result ≡ total_after total adds }
    ensures small { IfSome result (λ after. unsigned_abs after ≤ limit) }
{
    match total {
        Some(total) => total_with(total, amount_of(adds)),
        None => None,
    }
}

fn total_with(total: i128, amount: i128) -> Option<i128>
    requires { unsigned_abs total ≤ limit }
    ensures total { result ≡ total_with total amount }
    ensures small { IfSome result (λ after. unsigned_abs after ≤ limit) }
{
    if !is_drawn(amount) {
        return None;
    }
    let after = total + amount;
    if !is_drawn(after) {
        return None;
    }
    Some(after)
}

fn is_drawn(number: i128) -> bool
    ensures { result ≡ is_drawn number }
{
    number.unsigned_abs() <= LIMIT
}

fn amount_of(adds: Adds) -> i128
    ensures { result ≡ amount_of adds }
{
    match adds {
        Adds::Amount(amount) => amount,
        Adds::Nothing | Adds::Stands(_) => 0,
    }
}

/// The total after what all parts add.
#[tactic(auto, using(crate::proofs::Running::steps))]
pub(crate) fn total_of(start: Option<i128>, parts: &[Part]) -> Option<i128>
    requires { IfSome start (λ total. unsigned_abs total ≤ limit) }
    ensures { result ≡ total_of start parts.now }
{
    let mut total = start;
    for part in parts {
        total = total_after(total, part.adds);
    }
    total
}

/// Neighbours differ.
pub(crate) fn tone_of(place: usize, under: &Option<Seq<usize>>) -> Tone
    ensures { result ≡ tone_of place under.now }
{
    if under.is_none() {
        return Tone::Grey;
    }
    if place % 2 == 0 {
        return Tone::Pale;
    }
    Tone::Blue
}

/// The segment from one total to the next, where both are drawn.
pub(crate) fn segments_between(
    alloc: Global,
    places: u8,
    tone: Tone,
    before: Option<i128>,
    after: Option<i128>,
) -> Result<Seq<Segment>, Memory>
    requires places { places ≤ 6 }
    requires before { IfSome before (λ total. unsigned_abs total ≤ limit) }
    requires after { IfSome after (λ total. unsigned_abs total ≤ limit) }
    ensures { IfOk result (λ all. all ≡ segments_between places tone before after) }
{
    let mut all = Seq::new(alloc);
    if let (Some(before), Some(after)) = (before, after) {
        let segment = Segment {
            from: millionths(places, before),
            to: millionths(places, after),
            tone,
        };
        all.push(segment)?;
    }
    Ok(all)
}

// A number of so many decimals in millionths.
fn millionths(places: u8, number: i128) -> i128
    requires places { places ≤ 6 }
    requires small { unsigned_abs number ≤ limit }
    ensures { result ≡ millionths places number }
{
    number * millionths_in(places)
}

// How many millionths the last of so many decimals is.
fn millionths_in(places: u8) -> i128
    requires { places ≤ 6 }
    ensures value { result ≡ pos (10 ^ (6 - places)) }
    ensures small { unsigned_abs result ≤ 1_000_000 }
{
    match places {
        0 => 1_000_000,
        1 => 100_000,
        2 => 10_000,
        3 => 1_000,
        4 => 100,
        5 => 10,
        _ => 1,
    }
}
