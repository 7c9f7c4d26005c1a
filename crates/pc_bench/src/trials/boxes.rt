//! Questions about one box of rows or two: what they have in common, what is left over, and the parts that a cut leaves.
ghost use Rattle.pc_box.specs.Boxes.{AreAlike};

use crate::reading::{number, skip};
use crate::trials::numbers::read_number;
use crate::trials::programs::yes_or_no;
use crate::trouble::Trouble;
use pc_box::{apart, are_alike, cut, divides, inside, meet, minus};
use pc_list::Seq;
use pc_model::{Cut, Region, Side};
use std::alloc::{AllocError, Global};

/// The answer to a question about a box, or about two.
pub(super) fn answer(alloc: Global, ground: &str, asked: &str) -> Result<String, Trouble> {
    let mut lines = ground.lines();
    let a = read_box(alloc, lines.next().unwrap_or(""))?;
    match lines.next() {
        Some(other) => {
            let b = read_box(alloc, other)?;
            answer_of_two(alloc, &a, &b, asked)
        }
        None => answer_of_one(alloc, &a, asked),
    }
}

/// `box SIDE ..`, where a side is `LOW..HIGH`, or the bits of names as a number.
fn read_box(alloc: Global, line: &str) -> Result<Region, Trouble> {
    let rest = line.strip_prefix("box ").ok_or(Trouble::Ground)?;
    let mut sides = Seq::new(alloc);
    for word in rest.split_ascii_whitespace() {
        sides.push(read_side(word)?)?;
    }
    Ok(Region { sides })
}

fn read_side(word: &str) -> Result<Side, Trouble> {
    match word.split_once("..") {
        Some((low, high)) => Ok(Side::Span {
            low: read_number(low)?,
            high: read_number(high)?,
        }),
        None => Ok(Side::Names {
            bits: read_number(word)?,
        }),
    }
}

// ---- two boxes

fn answer_of_two(alloc: Global, a: &Region, b: &Region, asked: &str) -> Result<String, Trouble> {
    if !are_alike(a, b) {
        return Ok(String::from_str(alloc, "not alike")?);
    }
    answer_of_alike(alloc, a, b, asked)
}

fn answer_of_alike(alloc: Global, a: &Region, b: &Region, asked: &str) -> Result<String, Trouble>
    requires { AreAlike a.now b.now }
{
    match asked {
        "apart" => Ok(yes_or_no(alloc, apart(a, b))?),
        "inside" => Ok(yes_or_no(alloc, inside(a, b))?),
        "meet" => common(alloc, a, b),
        "minus" => rest(alloc, a, b),
        _ => Err(Trouble::Question),
    }
}

fn common(alloc: Global, a: &Region, b: &Region) -> Result<String, Trouble>
    requires { AreAlike a.now b.now }
{
    match meet(alloc, a, b)? {
        Some(common) => Ok(box_text(alloc, &common)?),
        None => Ok(String::from_str(alloc, "none")?),
    }
}

fn rest(alloc: Global, a: &Region, b: &Region) -> Result<String, Trouble>
    requires { AreAlike a.now b.now }
{
    let boxes = minus(alloc, a, b)?;
    if boxes.is_empty() {
        return Ok(String::from_str(alloc, "none")?);
    }
    Ok(boxes_text(alloc, boxes.as_slice())?)
}

// ---- one box

fn answer_of_one(alloc: Global, a: &Region, asked: &str) -> Result<String, Trouble> {
    let at = read_cut(asked)?;
    if !are_alike(a, a) {
        return Ok(String::from_str(alloc, "no box")?);
    }
    if !divides(a, &at) {
        return Ok(String::from_str(alloc, "no cut")?);
    }
    let halves = cut(alloc, a, &at)?;
    let first = box_text(alloc, &halves.first)?;
    let second = box_text(alloc, &halves.second)?;
    Ok(format!(in alloc; "{first}, {second}")?)
}

/// `cut COLUMN at NUMBER` or `cut COLUMN among BITS`.
fn read_cut(asked: &str) -> Result<Cut, Trouble> {
    let mut words = asked.split_ascii_whitespace();
    skip(&mut words, "cut")?;
    let column = number(&mut words)?;
    match words.next() {
        Some("at") => Ok(Cut::At {
            column,
            at: number(&mut words)?,
        }),
        Some("among") => Ok(Cut::Among {
            column,
            bits: number(&mut words)?,
        }),
        _ => Err(Trouble::Question),
    }
}

// ---- in words

fn boxes_text(alloc: Global, boxes: &[Region]) -> Result<String, AllocError> {
    let mut text = String::new(alloc);
    for region in boxes {
        if !text.is_empty() {
            text.push_str(", ")?;
        }
        let more = box_text(alloc, region)?;
        text.push_str(more.as_str())?;
    }
    Ok(text)
}

/// The sides of a box, as they are read.
fn box_text(alloc: Global, region: &Region) -> Result<String, AllocError> {
    let mut text = String::new(alloc);
    for side in region.sides.as_slice() {
        if !text.is_empty() {
            text.push(' ')?;
        }
        let more = side_text(alloc, side)?;
        text.push_str(more.as_str())?;
    }
    Ok(text)
}

fn side_text(alloc: Global, side: &Side) -> Result<String, AllocError> {
    match side {
        Side::Span { low, high } => format!(in alloc; "{low}..{high}"),
        Side::Names { bits } => format!(in alloc; "{bits}"),
    }
}
