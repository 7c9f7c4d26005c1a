//! The bars of changes.
ghost use Rattle.std.specs.Prelude.{◌≡◌, ◌≤◌, ◌++◌, IfOk, OnOk, map, option_copied};
ghost use Rattle.pc_desk_table.specs.Remarks.{ends_of};
ghost use Rattle.pc_desk_table.specs.Texts.{shown};
ghost use Rattle.pc_desk_widths.specs.Tornado.{bar_at, bar_name, bar_words, change_bar, drawn_ends, ends_with, entry_words, group_words, mark_words, name_of, picture_at, plus_if, range_words, text_of, title_words, tornado, tornado_legend, wider_words};

use crate::pieces::{Ends, ranges_pieces};
use crate::ranges::{ends_of, word_for};
use crate::texts::{change_text, wider_text};
use crate::widths::{entry_at, high_of, low_of, wider_at};
use pc_desk_draw::{BarPicture, BarRow, Legend};
use pc_desk_table::{Entry, Group, Mark, Range, shown};
use pc_desk_weigh::{Change, Weighed};
use pc_list::{Seq, Text};
use pc_model::Constraint;
use pc_num::Memory;
use std::alloc::Global;

/// What the tones of the bars stand for.
pub fn tornado_legend(alloc: Global) -> Result<Legend, Memory>
    ensures shown { IfOk result (λ legend. legend ≡ tornado_legend) }
{
    Ok(Legend {
        grey: Text::from_text(alloc, "ruled out by the change")?,
        blue: Text::from_text(alloc, "possible in both")?,
        pale: Some(Text::from_text(alloc, "made possible by the change")?),
    })
}

/// For each block a picture: the range as constraints stand, and below it the range under each change, in the block's order. Numbers
/// have so many decimals.
#[tactic(auto, using(pc_desk_table::proofs::Enumerated::steps))]
pub fn tornado(
    alloc: Global,
    constraints: &[Constraint],
    places: u8,
    all: &[Weighed],
    orders: &[Seq<usize>],
) -> Result<Seq<BarPicture>, Memory>
    requires places { places ≤ 6 }
    ensures shown { IfOk result (λ pictures. pictures ≡ tornado constraints.now places all.now orders.now) }
{
    let mut pictures = Seq::new(alloc);
    for (block, order) in orders.iter().enumerate() {
        let picture = picture_at(alloc, constraints, places, all, block, order.as_slice())?;
        pictures.push(picture)?;
    }
    Ok(pictures)
}

#[tactic(auto, unfolding(crate::specs::Tornado::picture_at))]
fn picture_at(
    alloc: Global,
    constraints: &[Constraint],
    places: u8,
    all: &[Weighed],
    block: usize,
    order: &[usize],
) -> Result<BarPicture, Memory>
    requires places { places ≤ 6 }
    ensures { IfOk result (λ picture. picture ≡ picture_at constraints.now places all.now (block, order.now)) }
{
    let title = title_words(alloc, entry_at(all, 0, block))?;
    let mut rows = Vec::new(alloc);
    let standing = bar_at(alloc, constraints, places, all, (block, 0), None)?;
    rows.push(standing)?;
    let mut changes = change_bars(alloc, constraints, places, all, block, order)?;
    rows.append(&mut changes)?;
    Ok(BarPicture {
        title: shown(alloc, title.as_slice())?,
        rows: Seq::from_vec(rows),
    })
}

fn title_words(alloc: Global, entry: Option<&Entry>) -> Result<Vec<u8>, Memory>
    ensures { IfOk result (λ words. words.items ≡ title_words (option_copied entry.entry)) }
{
    let mut words = Vec::new(alloc);
    if let Some(entry) = entry {
        words.extend_from_slice(entry.query.as_bytes())?;
        put_group(&mut words, &entry.group)?;
    }
    Ok(words)
}

fn put_group(out: &mut Vec<u8>, group: &Option<Group>) -> Result<(), Memory>
    ensures { OnOk result (out.new.items ≡ out.old.items ++ group_words group.now) }
{
    if let Some(group) = group {
        out.extend_from_slice(b" for ")?;
        out.extend_from_slice(group.name.as_bytes())?;
    }
    Ok(())
}

#[tactic(auto, using(std::proofs::lemmas::List::map_more))]
fn change_bars(
    alloc: Global,
    constraints: &[Constraint],
    places: u8,
    all: &[Weighed],
    block: usize,
    order: &[usize],
) -> Result<Vec<BarRow>, Memory>
    requires places { places ≤ 6 }
    ensures { IfOk result (λ rows. rows.items ≡ map (change_bar constraints.now places all.now block) order.now) }
{
    let mut rows = Vec::new(alloc);
    for place in order {
        let row = change_bar(alloc, constraints, places, all, block, *place)?;
        rows.push(row)?;
    }
    Ok(rows)
}

fn change_bar(
    alloc: Global,
    constraints: &[Constraint],
    places: u8,
    all: &[Weighed],
    block: usize,
    place: usize,
) -> Result<BarRow, Memory>
    requires places { places ≤ 6 }
    ensures { IfOk result (λ row. row ≡ change_bar constraints.now places all.now block place) }
{
    let wider = wider_at(all, place, block);
    bar_at(alloc, constraints, places, all, (block, place), wider)
}

// What is at a place for a block, beside what stands.
#[tactic(auto, unfolding(crate::specs::Tornado::bar_at))]
fn bar_at(
    alloc: Global,
    constraints: &[Constraint],
    places: u8,
    all: &[Weighed],
    at: (usize, usize),
    wider: Option<i128>,
) -> Result<BarRow, Memory>
    requires places { places ≤ 6 }
    ensures { IfOk result (λ row. row ≡ bar_at constraints.now places all.now at.0 at.1 wider) }
{
    let (block, place) = at;
    let entry = entry_at(all, place, block);
    let standing = drawn_ends(entry_at(all, 0, block));
    Ok(BarRow {
        name: name_of(alloc, constraints, all.get(place))?,
        text: text_of(alloc, places, wider, entry)?,
        segments: ranges_pieces(alloc, standing, drawn_ends(entry))?,
    })
}

fn name_of(
    alloc: Global,
    constraints: &[Constraint],
    weighed: Option<&Weighed>,
) -> Result<Text, Memory>
    ensures { IfOk result (λ name. name ≡ name_of constraints.now (option_copied weighed.entry)) }
{
    match weighed {
        Some(weighed) => bar_name(alloc, constraints, weighed.change),
        None => Ok(Text::from_text(alloc, "")?),
    }
}

fn bar_name(
    alloc: Global,
    constraints: &[Constraint],
    change: Option<Change>,
) -> Result<Text, Memory>
    ensures { IfOk result (λ name. name ≡ bar_name constraints.now change) }
{
    match change {
        Some(change) => change_text(alloc, constraints, change),
        None => Ok(Text::from_text(alloc, "as constraints stand")?),
    }
}

fn text_of(
    alloc: Global,
    places: u8,
    wider: Option<i128>,
    entry: Option<&Entry>,
) -> Result<Text, Memory>
    requires places { places ≤ 6 }
    ensures { IfOk result (λ text. text ≡ text_of places wider (option_copied entry.entry)) }
{
    match entry {
        Some(entry) => {
            let words = bar_words(alloc, places, wider, entry)?;
            shown(alloc, words.as_slice())
        }
        None => Ok(Text::from_text(alloc, "")?),
    }
}

#[tactic(auto, unfolding(crate::specs::Tornado::bar_words))]
fn bar_words(
    alloc: Global,
    places: u8,
    wider: Option<i128>,
    entry: &Entry,
) -> Result<Vec<u8>, Memory>
    requires places { places ≤ 6 }
    ensures { IfOk result (λ words. words.items ≡ bar_words places wider entry.now) }
{
    let mut words = entry_words(alloc, entry)?;
    let wider = wider_words(alloc, places, wider)?;
    words.extend_from_slice(wider.as_slice())?;
    Ok(words)
}

fn entry_words(alloc: Global, entry: &Entry) -> Result<Vec<u8>, Memory>
    ensures { IfOk result (λ words. words.items ≡ entry_words entry.now (ends_of entry.now)) }
{
    match ends_of(entry) {
        Some(range) => range_words(alloc, range),
        None => {
            let word = word_for(entry.relation, entry.lack);
            Ok(Vec::from_slice(alloc, word.as_bytes())?)
        }
    }
}

#[tactic(auto, unfolding(crate::specs::Tornado::range_words))]
fn range_words(alloc: Global, range: &Range) -> Result<Vec<u8>, Memory>
    ensures { IfOk result (λ words. words.items ≡ range_words range.now) }
{
    let mut words = Vec::from_slice(alloc, range.low.value.decimal.as_bytes())?;
    words.extend_from_slice(mark_words(range.low.mark))?;
    words.extend_from_slice(b" to ")?;
    words.extend_from_slice(range.high.value.decimal.as_bytes())?;
    words.extend_from_slice(mark_words(range.high.mark))?;
    Ok(words)
}

fn mark_words<'x>(mark: Mark) -> &'x [u8]
    ensures { result.now ≡ mark_words mark }
{
    match mark {
        Mark::Exact => b"".as_slice(),
        Mark::Outer => b" (outer)".as_slice(),
    }
}

fn wider_words(alloc: Global, places: u8, wider: Option<i128>) -> Result<Vec<u8>, Memory>
    requires places { places ≤ 6 }
    ensures { IfOk result (λ words. words.items ≡ wider_words places wider) }
{
    let Some(wider) = wider else {
        return Ok(Vec::new(alloc));
    };
    let number = wider_text(alloc, places, wider)?;
    let mut words = Vec::from_slice(alloc, b" (")?;
    words.extend_from_slice(plus_if(wider))?;
    words.extend_from_slice(number.as_bytes())?;
    words.extend_from_slice(b")")?;
    Ok(words)
}

fn plus_if<'x>(number: i128) -> &'x [u8]
    ensures { result.now ≡ plus_if number }
{
    if number > 0 {
        b"+".as_slice()
    } else {
        b"".as_slice()
    }
}

// The ends of a range, where they can be drawn.
fn drawn_ends(entry: Option<&Entry>) -> Option<Ends>
    ensures { result ≡ drawn_ends (option_copied entry.entry) }
{
    ends_with(low_of(entry), high_of(entry))
}

fn ends_with(low: Option<i128>, high: Option<i128>) -> Option<Ends>
    ensures { result ≡ ends_with low high }
{
    let low = low?;
    let high = high?;
    if low <= high {
        return Some(Ends { low, high });
    }
    None
}
