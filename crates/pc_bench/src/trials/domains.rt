//! Questions about the rows of a domain under constraints: how they are divided, for a query.
ghost use Rattle.std.specs.Prelude.{All};
ghost use Rattle.pc_model.specs.Accepted.{AreConstraints};
ghost use Rattle.pc_cells_tree.specs.Linked.{CanBeDivided};
ghost use Rattle.pc_cells.specs.Found.{IsFilled};

use crate::trials::editing::edited;
use crate::trials::growing::{days, first_cut, leaves, tree};
use crate::trials::numbers::read_number;
use crate::trials::programs::yes_or_no;
use crate::trouble::Trouble;
use pc_cells::{Cells, Shared, decompose, pairwise_apart};
use pc_lang::{read_constraints, read_query};
use pc_model::{Area, Constraint, Schema};
use pc_num::Memory;
use pc_schema::read_schema;
use std::alloc::{AllocError, Global};

/// A schema and constraints in lines, and a query.
#[derive(Drop)]
struct Texts {
    columns: String,
    constraints: String,
    query: String,
}

impl Texts {
    /// `column LINE`, `constraint LINE` and `query WORD`.
    fn read(alloc: Global, ground: &str) -> Result<Texts, Trouble> {
        let mut texts = Texts {
            columns: String::new(alloc),
            constraints: String::new(alloc),
            query: String::new(alloc),
        };
        for line in ground.lines() {
            texts.add(line)?;
        }
        Ok(texts)
    }

    fn add(&mut self, line: &str) -> Result<(), Trouble> {
        let (what, rest) = line.split_once(' ').ok_or(Trouble::Ground)?;
        match what {
            "column" => add_line(&mut self.columns, rest)?,
            "constraint" => add_line(&mut self.constraints, rest)?,
            "query" => self.query.push_str(rest)?,
            _ => return Err(Trouble::Ground),
        }
        Ok(())
    }
}

fn add_line(text: &mut String, line: &str) -> Result<(), AllocError> {
    text.push_str(line)?;
    text.push('\n')
}

/// The answer to a question about a domain.
pub(super) fn answer(alloc: Global, ground: &str, asked: &str) -> Result<String, Trouble> {
    let texts = Texts::read(alloc, ground)?;
    let (what, rest) = asked.split_once(' ').unwrap_or((asked, ""));
    match what {
        "with" | "without" | "again" => {
            let constraints = texts.constraints.as_str();
            edited(alloc, texts.columns.as_str(), constraints, what, rest)
        }
        _ => divided(alloc, &texts, what, rest),
    }
}

fn divided(alloc: Global, texts: &Texts, what: &str, rest: &str) -> Result<String, Trouble> {
    let schema = read_schema(alloc, texts.columns.as_bytes())?;
    let constraints = read_constraints(alloc, &schema, texts.constraints.as_bytes())?;
    let query = read_query(alloc, &schema, texts.query.as_str(), 1)?;
    let constraints = constraints.as_slice();
    answer_of(alloc, &schema, constraints, &query.chosen, what, rest)
}

fn answer_of(
    alloc: Global,
    schema: &Schema,
    constraints: &[Constraint],
    chosen: &Area,
    what: &str,
    rest: &str,
) -> Result<String, Trouble>
    requires accepted { AreConstraints schema.now constraints.now }
    requires asked { CanBeDivided schema.now constraints.now chosen.now }
{
    match what {
        "tree" => tree(alloc, schema, constraints, chosen),
        "leaves" => leaves(alloc, schema, constraints, chosen),
        "days" => days(alloc, schema, constraints, chosen),
        "first" => first_cut(alloc, schema, constraints, chosen),
        "cuts" => cuts(alloc, schema, constraints, chosen),
        "cells" => cell_count(alloc, schema, constraints, chosen),
        "cell" => cell(alloc, schema, constraints, chosen, rest),
        "apart" => Ok(yes_or_no(alloc, are_apart(schema, constraints))?),
        _ => Err(Trouble::Question),
    }
}

/// Whether no row is under two constraints.
fn are_apart(schema: &Schema, constraints: &[Constraint]) -> bool
    requires accepted { AreConstraints schema.now constraints.now }
{
    let _schema = schema;
    pairwise_apart(constraints)
}

// ---- cuts

/// How many cuts the tree of one leaf wants; a second time it wants none.
fn cuts(
    alloc: Global,
    schema: &Schema,
    constraints: &[Constraint],
    chosen: &Area,
) -> Result<String, Trouble>
    requires asked { CanBeDivided schema.now constraints.now chosen.now }
{
    let (first, is_same) = refined_twice(alloc, schema, constraints, chosen)?;
    if is_same {
        Ok(format!(in alloc; "{first}")?)
    } else {
        Ok(format!(in alloc; "{first}, and then another tree")?)
    }
}

/// How many cuts the first refinement makes, and whether the second leaves the tree as it is.
fn refined_twice(
    alloc: Global,
    schema: &Schema,
    constraints: &[Constraint],
    chosen: &Area,
) -> Result<(u64, bool), Memory>
    requires asked { CanBeDivided schema.now constraints.now chosen.now }
{
    let mut shared = Shared::new(alloc, schema)?;
    let first = shared.refine(schema, constraints, chosen)?;
    let nodes = shared.nodes.clone()?;
    let second = shared.refine(schema, constraints, chosen)?;
    Ok((first, second == 0 && shared.nodes == nodes))
}

// ---- cells

fn cell_count(
    alloc: Global,
    schema: &Schema,
    constraints: &[Constraint],
    chosen: &Area,
) -> Result<String, Trouble>
    requires asked { CanBeDivided schema.now constraints.now chosen.now }
{
    let found = decompose(alloc, schema, constraints, chosen)?;
    let count = found.cells.len();
    Ok(format!(in alloc; "{count}")?)
}

/// The ends of each column of numbers over the cell `MASK in` or `MASK out`, or `none`.
fn cell(
    alloc: Global,
    schema: &Schema,
    constraints: &[Constraint],
    chosen: &Area,
    rest: &str,
) -> Result<String, Trouble>
    requires asked { CanBeDivided schema.now constraints.now chosen.now }
{
    let (mask, side) = rest.split_once(' ').ok_or(Trouble::Question)?;
    let mask = read_number::<u32>(mask)?;
    let found = decompose(alloc, schema, constraints, chosen)?;
    match place_of(&found, mask, side == "in") {
        Some(place) => Ok(ends_text(alloc, &found, place)?),
        None => Ok(String::from_str(alloc, "none")?),
    }
}

fn place_of(found: &Cells, mask: u32, chosen: bool) -> Option<usize> {
    found
        .cells
        .as_slice()
        .iter()
        .position(|cell| cell.mask == mask && cell.chosen == chosen)
}

fn ends_text(alloc: Global, found: &Cells, place: usize) -> Result<String, AllocError>
    requires { All IsFilled found.now.cells }
{
    let mut text = String::new(alloc);
    for column in 0..12u8 {
        if let Some((low, high)) = ends_of(found, place, column) {
            let more = ends(alloc, !text.is_empty(), low, high)?;
            text.push_str(more.as_str())?;
        }
    }
    Ok(text)
}

fn ends(alloc: Global, is_later: bool, low: i64, high: i64) -> Result<String, AllocError> {
    if is_later {
        format!(in alloc; " {low}..{high}")
    } else {
        format!(in alloc; "{low}..{high}")
    }
}

/// The ends of a column over a cell, if its leaves have numbers there.
fn ends_of(found: &Cells, place: usize, column: u8) -> Option<(i64, i64)>
    requires { All IsFilled found.now.cells }
{
    if found.cells.len() <= place || !found.has_numbers(column) {
        return None;
    }
    let extreme = found.extreme(place, column);
    Some((extreme.low, extreme.high))
}
