ghost use Rattle.std.specs.Prelude.{◌≡◌, ◌∷◌, [], ◌++◌, flat_map, map, All, IfOk, OnOk};
ghost use Rattle.pc_model.specs.WellFormed.{IsColumn, IsKind};
ghost use Rattle.pc_desk_sql.specs.Spelled.{all_text, any_text, box_text, clause_text, known_text, none_texts, region_text, side_text, test_text, test_texts};
ghost use Rattle.pc_desk_sql.specs.Tests.{Known, NoneOf, OneOf, box_of, known, outside_of, test_of, tests_of, under_of};

use crate::claims::side_claim;
use crate::texts::{NAME, listed, quoted, surrounded};
use pc_list::{Seq, Text};
use pc_model::{Column, Constraint, Kind, Region, Side, When};
use pc_num::Memory;
use std::alloc::Global;

/// The clauses that all hold of a row of the schema of which a predicate among these constraints speaks.
pub(crate) fn under_texts(
    alloc: Global,
    columns: &[Column],
    constraints: &[Constraint],
    when: &When,
) -> Result<Seq<Seq<u8>>, Memory>
    requires { All IsColumn columns.now }
    ensures { IfOk result (λ texts. texts ≡ map (clause_text columns.now) (under_of columns.now constraints.now when.now)) }
{
    match when {
        When::Boxes(area) => named_texts(alloc, columns, area.boxes.as_slice()),
        When::Outside => outside_texts(alloc, columns, constraints),
    }
}

fn named_texts(alloc: Global, columns: &[Column], boxes: &[Region]) -> Result<Seq<Seq<u8>>, Memory>
    requires { All IsColumn columns.now }
    ensures { IfOk result (λ texts. texts ≡ clause_text columns.now (OneOf (map (box_of columns.now) boxes.now)) ∷ []) }
{
    let mut texts = Seq::new(alloc);
    texts.push(one_of(alloc, columns, boxes)?)?;
    Ok(texts)
}

#[tactic(auto, using(crate::proofs::Clauses::outside_is))]
fn outside_texts(
    alloc: Global,
    columns: &[Column],
    constraints: &[Constraint],
) -> Result<Seq<Seq<u8>>, Memory>
    requires { All IsColumn columns.now }
    ensures { IfOk result (λ texts. texts ≡ map (clause_text columns.now) (outside_of columns.now constraints.now)) }
{
    let known = known_clause(alloc, columns)?;
    none_texts(alloc, known, columns, constraints)
}

// Adds that none of the boxes that a constraint names is the row's.
#[tactic(auto, using(std::proofs::lemmas::List::flat_map_more))]
fn none_texts(
    alloc: Global,
    first: Seq<u8>,
    columns: &[Column],
    constraints: &[Constraint],
) -> Result<Seq<Seq<u8>>, Memory>
    requires { All IsColumn columns.now }
    ensures { IfOk result (λ texts. texts ≡ (first ∷ []) ++ flat_map (none_texts columns.now) constraints.now) }
{
    let mut texts = Seq::new(alloc);
    texts.push(first)?;
    for constraint in constraints {
        push_none(alloc, columns, &mut texts, constraint)?;
    }
    Ok(texts)
}

fn push_none(
    alloc: Global,
    columns: &[Column],
    texts: &mut Seq<Seq<u8>>,
    constraint: &Constraint,
) -> Result<(), Memory>
    requires { All IsColumn columns.now }
    ensures { OnOk result (texts.new ≡ texts.old ++ none_texts columns.now constraint.now) }
{
    match &constraint.when {
        When::Boxes(area) => { Ok(texts.push(none_of(alloc, columns, area.boxes.as_slice())?)?) }
        When::Outside => Ok(()),
    }
}

// That each field is a value of its column.
fn known_clause(alloc: Global, columns: &[Column]) -> Result<Seq<u8>, Memory>
    ensures { IfOk result (λ text. text ≡ clause_text columns.now (OneOf (known columns.now ∷ []))) }
{
    let mut boxes = Seq::new(alloc);
    boxes.push(own_test(alloc, columns)?)?;
    let any = any_of(alloc, boxes.as_slice())?;
    surrounded(alloc, "(", any.as_slice(), b")")
}

fn one_of(alloc: Global, columns: &[Column], boxes: &[Region]) -> Result<Seq<u8>, Memory>
    requires { All IsColumn columns.now }
    ensures { IfOk result (λ text. text ≡ clause_text columns.now (OneOf (map (box_of columns.now) boxes.now))) }
{
    let any = boxes_text(alloc, columns, boxes)?;
    surrounded(alloc, "(", any.as_slice(), b")")
}

fn none_of(alloc: Global, columns: &[Column], boxes: &[Region]) -> Result<Seq<u8>, Memory>
    requires { All IsColumn columns.now }
    ensures { IfOk result (λ text. text ≡ clause_text columns.now (NoneOf (map (box_of columns.now) boxes.now))) }
{
    let any = boxes_text(alloc, columns, boxes)?;
    surrounded(alloc, "NOT (", any.as_slice(), b")")
}

/// That a row is not in a box.
pub(crate) fn not_in(alloc: Global, columns: &[Column], region: &Region) -> Result<Seq<u8>, Memory>
    requires { All IsColumn columns.now }
    ensures { IfOk result (λ text. text ≡ clause_text columns.now (NoneOf (box_of columns.now region.now ∷ []))) }
{
    let mut boxes = Seq::new(alloc);
    boxes.push(region_text(alloc, columns, region)?)?;
    let inside = any_of(alloc, boxes.as_slice())?;
    surrounded(alloc, "NOT (", inside.as_slice(), b")")
}

#[tactic(auto, using(crate::proofs::Clauses::boxes_of_regions))]
fn boxes_text(alloc: Global, columns: &[Column], boxes: &[Region]) -> Result<Seq<u8>, Memory>
    requires { All IsColumn columns.now }
    ensures { IfOk result (λ text. text ≡ any_text (map (box_text columns.now) (map (box_of columns.now) boxes.now))) }
{
    let texts = region_texts(alloc, columns, boxes)?;
    any_of(alloc, texts.as_slice())
}

#[tactic(auto, unfolding(crate::specs::Spelled::any_text))]
fn any_of(alloc: Global, texts: &[Seq<u8>]) -> Result<Seq<u8>, Memory>
    ensures { IfOk result (λ text. text ≡ any_text texts.now) }
{
    listed(alloc, "1 = 0", "\n      OR ", texts)
}

/// Clauses that all hold.
#[tactic(auto, unfolding(crate::specs::Spelled::all_text))]
pub(crate) fn all_of(alloc: Global, texts: &[Seq<u8>]) -> Result<Seq<u8>, Memory>
    ensures { IfOk result (λ text. text ≡ all_text texts.now) }
{
    listed(alloc, "1 = 1", "\n      AND ", texts)
}

#[tactic(auto, using(std::proofs::lemmas::List::map_more))]
fn region_texts(alloc: Global, columns: &[Column], boxes: &[Region]) -> Result<Seq<Seq<u8>>, Memory>
    requires { All IsColumn columns.now }
    ensures { IfOk result (λ texts. texts ≡ map (region_text columns.now) boxes.now) }
{
    let mut texts = Seq::new(alloc);
    for region in boxes {
        texts.push(region_text(alloc, columns, region)?)?;
    }
    Ok(texts)
}

#[tactic(auto, unfolding(crate::specs::Spelled::box_text))]
fn region_text(alloc: Global, columns: &[Column], region: &Region) -> Result<Seq<u8>, Memory>
    requires { All IsColumn columns.now }
    ensures { IfOk result (λ text. text ≡ region_text columns.now region.now) }
{
    let texts = test_texts(alloc, columns, region.sides.as_slice())?;
    listed(alloc, "1 = 1", " AND ", texts.as_slice())
}

#[tactic(auto, using(crate::proofs::Listing::test_steps))]
fn test_texts(alloc: Global, columns: &[Column], sides: &[Side]) -> Result<Seq<Seq<u8>>, Memory>
    requires { All IsColumn columns.now }
    ensures { IfOk result (λ texts. texts ≡ test_texts columns.now (tests_of columns.now sides.now)) }
{
    let mut texts = Seq::new(alloc);
    for (place, column) in columns.iter().enumerate() {
        if sides.len() <= place {
            return Ok(texts);
        }
        texts.push(side_text(alloc, column, sides[place])?)?;
    }
    Ok(texts)
}

#[tactic(auto, unfolding(crate::specs::Spelled::side_text))]
fn side_text(alloc: Global, column: &Column, side: Side) -> Result<Seq<u8>, Memory>
    requires { IsColumn column.now }
    ensures { IfOk result (λ text. text ≡ side_text column.now side) }
{
    test_text(alloc, &column.name, &column.kind, side)
}

#[tactic(auto, unfolding(crate::specs::Spelled::test_text))]
fn test_text(alloc: Global, name: &Text, kind: &Kind, side: Side) -> Result<Seq<u8>, Memory>
    requires { IsKind kind.now }
    ensures { IfOk result (λ text. text ≡ test_text name.now (test_of kind.now side)) }
{
    let name = quoted(alloc, NAME, name.as_str().as_bytes())?;
    let claim = side_claim(alloc, kind, side)?;
    surrounded(alloc, "v.", name.as_slice(), claim.as_slice())
}

/// That each field is a value of its column.
#[tactic(auto, using(crate::proofs::Listing::known_is), unfolding(crate::specs::Spelled::box_text))]
pub(crate) fn own_test(alloc: Global, columns: &[Column]) -> Result<Seq<u8>, Memory>
    ensures { IfOk result (λ text. text ≡ box_text columns.now (known columns.now)) }
{
    let texts = known_texts(alloc, columns)?;
    listed(alloc, "1 = 1", " AND ", texts.as_slice())
}

#[tactic(auto, using(std::proofs::lemmas::List::map_more))]
fn known_texts(alloc: Global, columns: &[Column]) -> Result<Seq<Seq<u8>>, Memory>
    ensures { IfOk result (λ texts. texts ≡ map known_text columns.now) }
{
    let mut texts = Seq::new(alloc);
    for column in columns {
        texts.push(known_text(alloc, &column.name)?)?;
    }
    Ok(texts)
}

#[tactic(auto, unfolding(crate::specs::Spelled::test_text))]
fn known_text(alloc: Global, name: &Text) -> Result<Seq<u8>, Memory>
    ensures { IfOk result (λ text. text ≡ test_text name.now Known) }
{
    let name = quoted(alloc, NAME, name.as_str().as_bytes())?;
    surrounded(alloc, "v.", name.as_slice(), b" IS NOT NULL")
}
