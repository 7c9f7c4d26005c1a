//! The bars of explanations.
ghost use Rattle.std.specs.Prelude.{◌≡◌, ◌≤◌, ◌++◌, [], ◌∷◌, decimal, All, IfOk, OnOk, map};
ghost use Rattle.pc_desk_table.specs.Texts.{shown};
ghost use Rattle.pc_desk_why.specs.Bars.{added_text, all_segments, end_row, end_rows, for_group, found_rows, line_row, part_words, picture_of, rows_of_parts, rows_word, said_row, title_bytes, total_text, under_words, value_words, why_bars, why_legend};

use crate::explained::{Explained, Found, MadeEnd};
use crate::texts::{names_text, number_text, stand_word};
use crate::totals::{segments_between, start_of, tone_of, total_after, total_of};
use pc_desk_draw::{BarPicture, BarRow, Legend, Segment};
use pc_desk_parts::{Adds, Part};
use pc_desk_short::ClashLine;
use pc_desk_table::shown;
use pc_list::{Seq, Text};
use pc_model::Constraint;
use pc_num::Memory;
use std::alloc::Global;

/// What the tones of the bars stand for.
pub fn why_legend(alloc: Global) -> Result<Legend, Memory>
    ensures { IfOk result (λ legend. legend ≡ why_legend) }
{
    Ok(Legend {
        grey: Text::from_text(alloc, "the rows that are left")?,
        blue: Text::from_text(alloc, "lost rows")?,
        pale: None,
    })
}

/// The bars of explanations: of each answer a picture, with a row for each end and below it one for each part. The lines are those
/// on constraints that are impossible.
#[tactic(auto, using(std::proofs::lemmas::List::map_more))]
pub fn why_bars(
    alloc: Global,
    constraints: &[Constraint],
    lines: &[ClashLine],
    all: &[Explained],
) -> Result<Seq<BarPicture>, Memory>
    requires places { All (λ told. told.places ≤ 6) all.now }
    ensures shown { IfOk result (λ pictures. pictures ≡ why_bars constraints.now lines.now all.now) }
{
    let mut pictures = Seq::new(alloc);
    for told in all {
        let picture = picture_of(alloc, constraints, lines, told)?;
        pictures.push(picture)?;
    }
    Ok(pictures)
}

#[tactic(auto, unfolding(crate::specs::Bars::picture_of))]
fn picture_of(
    alloc: Global,
    constraints: &[Constraint],
    lines: &[ClashLine],
    told: &Explained,
) -> Result<BarPicture, Memory>
    requires places { told.now.places ≤ 6 }
    ensures { IfOk result (λ picture. picture ≡ picture_of constraints.now lines.now told.now) }
{
    let title = title_bytes(alloc, told)?;
    let rows = found_rows(alloc, constraints, lines, told)?;
    Ok(BarPicture {
        title: shown(alloc, title.as_slice())?,
        rows: Seq::from_vec(rows),
    })
}

#[tactic(auto, unfolding(crate::specs::Bars::title_bytes))]
fn title_bytes(alloc: Global, told: &Explained) -> Result<Vec<u8>, Memory>
    ensures { IfOk result (λ title. title.items ≡ title_bytes told.now) }
{
    let mut title = Vec::from_slice(alloc, told.query.as_bytes())?;
    put_for_group(&mut title, &told.group)?;
    Ok(title)
}

fn put_for_group(out: &mut Vec<u8>, group: &Option<Text>) -> Result<(), Memory>
    ensures { OnOk result (out.new.items ≡ out.old.items ++ for_group group.now) }
{
    if let Some(name) = group {
        out.extend_from_slice(b" for ")?;
        out.extend_from_slice(name.as_bytes())?;
    }
    Ok(())
}

fn found_rows(
    alloc: Global,
    constraints: &[Constraint],
    lines: &[ClashLine],
    told: &Explained,
) -> Result<Vec<BarRow>, Memory>
    requires places { told.now.places ≤ 6 }
    ensures { IfOk result (λ rows. rows.items ≡ found_rows constraints.now lines.now told.now told.now.found) }
{
    match &told.found {
        Found::Ends(low, high) => {
            let mut rows = end_rows(alloc, constraints, told, "low", low)?;
            let mut more = end_rows(alloc, constraints, told, "high", high)?;
            rows.append(&mut more)?;
            Ok(rows)
        }
        Found::NoValue => one_row(alloc, "", "no value"),
        Found::Impossible => line_rows(alloc, lines),
    }
}

fn end_rows(
    alloc: Global,
    constraints: &[Constraint],
    told: &Explained,
    end: &str,
    made: &MadeEnd,
) -> Result<Vec<BarRow>, Memory>
    requires places { told.now.places ≤ 6 }
    ensures { IfOk result (λ rows. rows.items ≡ end_rows constraints.now told.now end.now made.now) }
{
    match made {
        MadeEnd::Parts(parts) => made_rows(alloc, constraints, told, end, parts.as_slice()),
        MadeEnd::NotReached => one_row(alloc, end, "not reached"),
    }
}

fn made_rows(
    alloc: Global,
    constraints: &[Constraint],
    told: &Explained,
    end: &str,
    parts: &[Part],
) -> Result<Vec<BarRow>, Memory>
    requires places { told.now.places ≤ 6 }
    ensures { IfOk result (λ rows. rows.items ≡ end_row told.now end.now parts.now (rows_of_parts constraints.now told.now parts.now) ∷ rows_of_parts constraints.now told.now parts.now) }
{
    let mut rest = part_rows(alloc, constraints, told, parts)?;
    let first = end_row(alloc, told, end, parts, rest.as_slice())?;
    let mut rows = Vec::new(alloc);
    rows.push(first)?;
    rows.append(&mut rest)?;
    Ok(rows)
}

fn one_row(alloc: Global, name: &str, text: &str) -> Result<Vec<BarRow>, Memory>
    ensures { IfOk result (λ rows. rows.items ≡ said_row name.now text.now ∷ []) }
{
    let row = said_row(alloc, name, text)?;
    let mut rows = Vec::new(alloc);
    rows.push(row)?;
    Ok(rows)
}

fn said_row(alloc: Global, name: &str, text: &str) -> Result<BarRow, Memory>
    ensures { IfOk result (λ row. row ≡ said_row name.now text.now) }
{
    Ok(BarRow {
        name: Text::from_text(alloc, name)?,
        text: Text::from_text(alloc, text)?,
        segments: Seq::new(alloc),
    })
}

#[tactic(auto, using(std::proofs::lemmas::List::map_more))]
fn line_rows(alloc: Global, lines: &[ClashLine]) -> Result<Vec<BarRow>, Memory>
    ensures { IfOk result (λ rows. rows.items ≡ map line_row lines.now) }
{
    let mut rows = Vec::new(alloc);
    for line in lines {
        let row = said_row(alloc, line.under.as_str(), line.held.as_str())?;
        rows.push(row)?;
    }
    Ok(rows)
}

// Of an end: all segments of its parts, and what they come to.
#[tactic(auto, unfolding(crate::specs::Bars::end_row))]
fn end_row(
    alloc: Global,
    told: &Explained,
    end: &str,
    parts: &[Part],
    rows: &[BarRow],
) -> Result<BarRow, Memory>
    requires places { told.now.places ≤ 6 }
    ensures { IfOk result (λ row. row ≡ end_row told.now end.now parts.now rows.now) }
{
    let total = total_of(start_of(told.sums), parts);
    Ok(BarRow {
        name: Text::from_text(alloc, end)?,
        text: total_text(alloc, total, told.places)?,
        segments: Seq::from_vec(all_segments(alloc, rows)?),
    })
}

#[tactic(auto, using(std::proofs::lemmas::List::flat_map_more))]
fn all_segments(alloc: Global, rows: &[BarRow]) -> Result<Vec<Segment>, Memory>
    ensures { IfOk result (λ all. all.items ≡ all_segments rows.now) }
{
    let mut all = Vec::new(alloc);
    for row in rows {
        all.extend_from_slice(row.segments.as_slice())?;
    }
    Ok(all)
}

// A row for each part, each from the total of those before it to the next.
#[tactic(auto, using(crate::proofs::BarRows::steps))]
fn part_rows(
    alloc: Global,
    constraints: &[Constraint],
    told: &Explained,
    parts: &[Part],
) -> Result<Vec<BarRow>, Memory>
    requires places { told.now.places ≤ 6 }
    ensures { IfOk result (λ rows. rows.items ≡ rows_of_parts constraints.now told.now parts.now) }
{
    let mut rows = Vec::new(alloc);
    let mut total = start_of(told.sums);
    for (place, part) in parts.iter().enumerate() {
        let next = total_after(total, part.adds);
        let segments = segments_between(
            alloc,
            told.places,
            tone_of(place, &part.under),
            total,
            next,
        )?;
        let row = part_row(alloc, constraints, told.places, part, segments)?;
        rows.push(row)?;
        total = next;
    }
    Ok(rows)
}

fn part_row(
    alloc: Global,
    constraints: &[Constraint],
    places: u8,
    part: &Part,
    segments: Seq<Segment>,
) -> Result<BarRow, Memory>
    requires places { places ≤ 6 }
    ensures { IfOk result (λ row. row ≡ record { name = shown (part_words constraints.now places part.now); text = added_text part.now.adds places; segments = segments }) }
{
    let name = part_words(alloc, constraints, places, part)?;
    Ok(BarRow {
        name: shown(alloc, name.as_slice())?,
        text: added_text(alloc, part.adds, places)?,
        segments,
    })
}

#[tactic(auto, unfolding(crate::specs::Bars::part_words))]
fn part_words(
    alloc: Global,
    constraints: &[Constraint],
    places: u8,
    part: &Part,
) -> Result<Vec<u8>, Memory>
    requires places { places ≤ 6 }
    ensures { IfOk result (λ words. words.items ≡ part_words constraints.now places part.now) }
{
    let mut words = Vec::new(alloc);
    put_rows(alloc, &mut words, part.rows)?;
    put_value(alloc, &mut words, part.value, places)?;
    words.extend_from_slice(b": ")?;
    put_under(alloc, &mut words, constraints, &part.under)?;
    Ok(words)
}

fn put_rows(alloc: Global, out: &mut Vec<u8>, rows: u64) -> Result<(), Memory>
    ensures { OnOk result (out.new.items ≡ out.old.items ++ (decimal rows ++ rows_word rows)) }
{
    let number = rows.to_string(alloc)?;
    out.extend_from_slice(number.as_bytes())?;
    out.extend_from_slice(rows_word(rows).as_bytes())?;
    Ok(())
}

fn rows_word(rows: u64) -> &'static str
    ensures { result.now ≡ rows_word rows }
{
    if rows == 1 {
        return " row";
    }
    " rows"
}

fn put_value(alloc: Global, out: &mut Vec<u8>, value: Option<i64>, places: u8) -> Result<(), Memory>
    requires places { places ≤ 6 }
    ensures { OnOk result (out.new.items ≡ out.old.items ++ value_words value places) }
{
    if let Some(number) = value {
        let text = number_text(alloc, i128::from(number), places)?;
        out.extend_from_slice(b" of ")?;
        out.extend_from_slice(text.as_bytes())?;
    }
    Ok(())
}

fn put_under(
    alloc: Global,
    out: &mut Vec<u8>,
    constraints: &[Constraint],
    under: &Option<Seq<usize>>,
) -> Result<(), Memory>
    ensures { OnOk result (out.new.items ≡ out.old.items ++ under_words constraints.now under.now) }
{
    match under {
        Some(places) => {
            let names = names_text(alloc, constraints, places.as_slice())?;
            out.extend_from_slice(names.as_bytes())?;
        }
        None => out.extend_from_slice(b"observed")?,
    }
    Ok(())
}

fn added_text(alloc: Global, adds: Adds, places: u8) -> Result<Text, Memory>
    requires places { places ≤ 6 }
    ensures { IfOk result (λ text. text ≡ added_text adds places) }
{
    match adds {
        Adds::Nothing => Ok(Text::from_text(alloc, "")?),
        Adds::Amount(amount) => number_text(alloc, amount, places),
        Adds::Stands(stand) => Ok(Text::from_text(alloc, stand_word(stand))?),
    }
}

fn total_text(alloc: Global, total: Option<i128>, places: u8) -> Result<Text, Memory>
    requires places { places ≤ 6 }
    ensures { IfOk result (λ text. text ≡ total_text total places) }
{
    match total {
        Some(total) => number_text(alloc, total, places),
        None => Ok(Text::from_text(alloc, "")?),
    }
}
