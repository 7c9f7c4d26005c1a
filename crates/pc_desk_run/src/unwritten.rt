//! Why nothing is written of files that are accepted.
ghost use Rattle.std.specs.Prelude.{◌≡◌, ◌++◌, IfOk, map};
ghost use Rattle.pc_desk_run.specs.Texts.{called_by, called_in, constraints_near, list_name, named_of, no_column_lines, names_line, no_constraint_lines, outside_lines, too_many_lines, uncalled_line};

use crate::line::Sources;
use pc_desk_records::{choice_text, shown};
use pc_list::Seq;
use pc_model::{Constraint, When};
use pc_num::Memory;
use std::alloc::Global;

/// Of a line of the rows outside at this place of a list, in which so many constraints stand before the limits.
pub(crate) fn outside_lines(
    alloc: Global,
    sources: &Sources,
    opening: usize,
    place: usize,
) -> Result<Seq<u8>, Memory>
    ensures { IfOk result (λ text. text ≡ outside_lines (named_of sources.now) opening place) }
{
    let name = list_name(sources, opening, place);
    let text = format!(in alloc;
        "limits refused: a line `outside`\n  {name}: the line speaks of the rows of no predicate, and a line that is added would take rows from it\n"
    )?;
    Ok(Seq::from_vec(text.into_bytes()))
}

fn list_name<'a>(sources: &Sources<'a>, opening: usize, place: usize) -> &'a str
    ensures { result.now ≡ list_name (named_of sources.now) opening place }
{
    if place < opening {
        sources.files.constraints
    } else {
        sources.limits
    }
}

/// Of so many lines.
pub(crate) fn too_many_lines(
    alloc: Global,
    sources: &Sources,
    lines: usize,
) -> Result<Seq<u8>, Memory>
    ensures { IfOk result (λ text. text ≡ too_many_lines (named_of sources.now) lines) }
{
    let limits = sources.limits;
    let constraints = sources.files.constraints;
    let text = format!(in alloc;
        "limits refused: {lines} lines\n  {limits}, after the lines of {constraints}: with the lines that close them there would be {lines}, and a file has at most 20\n"
    )?;
    Ok(Seq::from_vec(text.into_bytes()))
}

/// Of a table of which no column fits, with what is said of its columns.
pub(crate) fn no_column_lines(
    alloc: Global,
    sources: &Sources,
    remarks: &[u8],
) -> Result<Seq<u8>, Memory>
    ensures { IfOk result (λ text. text ≡ no_column_lines (named_of sources.now) ++ remarks.now) }
{
    let rows = sources.files.rows;
    let mut text = format!(in alloc; "schema refused: no column fits\n  {rows}\n")?.into_bytes();
    text.extend_from_slice(remarks)?;
    Ok(Seq::from_vec(text))
}

/// Of a name that no constraint has.
pub(crate) fn no_constraint_lines(
    alloc: Global,
    sources: &Sources,
    constraints: &[Constraint],
    name: &[u8],
) -> Result<Seq<u8>, Memory>
    ensures { IfOk result (λ text. text ≡ no_constraint_lines (named_of sources.now) constraints.now name.now) }
{
    let mut text = uncalled_line(alloc, name)?;
    let names = names_line(alloc, sources, constraints, name)?;
    text.extend_from_slice(names.as_slice())?;
    Ok(Seq::from_vec(text))
}

#[tactic(auto, unfolding(crate::specs::Texts::uncalled_line))]
fn uncalled_line(alloc: Global, name: &[u8]) -> Result<Vec<u8>, Memory>
    ensures { IfOk result (λ text. text.items ≡ uncalled_line name.now) }
{
    let asked = shown(alloc, name)?;
    let mut text = Vec::from_slice(alloc, b"words refused: no constraint is called ")?;
    text.extend_from_slice(asked.as_slice())?;
    text.extend_from_slice(b"\n")?;
    Ok(text)
}

#[tactic(auto, unfolding(crate::specs::Texts::names_line))]
fn names_line(
    alloc: Global,
    sources: &Sources,
    constraints: &[Constraint],
    name: &[u8],
) -> Result<Vec<u8>, Memory>
    ensures { IfOk result (λ text. text.items ≡ names_line (named_of sources.now) constraints.now name.now) }
{
    let near = constraints_near(alloc, constraints, name)?;
    let mut text = Vec::from_slice(alloc, b"  ")?;
    text.extend_from_slice(sources.files.constraints.as_bytes())?;
    text.extend_from_slice(b": the file has ")?;
    text.extend_from_slice(near.as_slice())?;
    text.extend_from_slice(b"\n")?;
    Ok(text)
}

// The names of constraints, and which of them is nearest to a name.
fn constraints_near(
    alloc: Global,
    constraints: &[Constraint],
    name: &[u8],
) -> Result<Vec<u8>, Memory>
    ensures { IfOk result (λ text. text.items ≡ constraints_near constraints.now name.now) }
{
    if constraints.is_empty() {
        return Ok(Vec::from_slice(alloc, b"none")?);
    }
    let names = called_in(alloc, constraints)?;
    choice_text(alloc, b" constraints".as_slice(), name, names.as_slice())
}

#[tactic(auto, using(std::proofs::lemmas::List::map_more))]
fn called_in(alloc: Global, constraints: &[Constraint]) -> Result<Seq<Seq<u8>>, Memory>
    ensures { IfOk result (λ names. names ≡ called_in constraints.now) }
{
    let mut names = Seq::new(alloc);
    for constraint in constraints {
        let name = Seq::from_slice(alloc, called_by(constraint))?;
        names.push(name)?;
    }
    Ok(names)
}

/// What calls a constraint: its name, or `outside`.
pub(crate) fn called_by(constraint: &Constraint) -> &[u8]
    ensures { result.now ≡ called_by constraint.now.when constraint.now.name }
{
    match &constraint.when {
        When::Boxes(_) => constraint.name.as_bytes(),
        When::Outside => b"outside",
    }
}
