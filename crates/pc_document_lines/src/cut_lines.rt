ghost use Rattle.std.specs.Prelude.{◌≡◌, ◌++◌, ◌≤◌, ◌<◌, ◌^◌, drop, length, true, IfOk, OnOk, Some};
ghost use Rattle.std.specs.List.{list_any};
ghost use Rattle.pc_lang_tokens.specs.declared.token.Token.{Token};
ghost use Rattle.pc_model.specs.CutTrees.{column_of};
ghost use Rattle.pc_model.specs.WellFormed.{HasFewNames, IsWellFormed};
ghost use Rattle.pc_model.specs.declared.tree.Cut.TheVariants.{At, Among};
ghost use Rattle.pc_model.specs.declared.tree.LeafMark.TheVariants.{Class};
ghost use Rattle.pc_lang.specs.Claims.{bit_if, bits_of, is_among};
ghost use Rattle.pc_document_format.specs.Formats.{if_spelled};
ghost use Rattle.pc_document_lines.specs.Kept.{IsKept, IsLikelyKept};
ghost use Rattle.pc_document_lines.specs.Numbers.{likely_count, likely_number};
ghost use Rattle.pc_document_lines.specs.TokenLines.{bare_cut, column_in, cut_at, cut_by, cut_node_of_tokens, cut_node_text, is_cut_node, is_cut_of, is_in, is_mark, is_name_token, kind_at, mark_by, name_of, names_in, names_of, read_cut_node, token_at};

use crate::cut_tokens::node_tokens;
use crate::line_tokens::{name_at, small_number, tokens_of};
use crate::numbers::likely_count;
use pc_lang_tokens::{Token, put_tokens};
use pc_list::Text;
use pc_model::{Column, Cut, CutNode, Kind, LeafMark, Schema};
use pc_num::Memory;
use std::alloc::Global;

/// Appends the line of a node, which does not tell the places of its parts.
#[tactic(auto, using(crate::proofs::CutReading::bare_text), unfolding(crate::specs::TokenLines::cut_node_text))]
pub fn put_cut_node(
    alloc: Global,
    schema: &Schema,
    out: &mut Vec<u8>,
    node: &CutNode,
) -> Result<(), Memory>
    requires well_formed { IsWellFormed schema.now }
    ensures { OnOk result (out.new.items ≡ out.old.items ++ cut_node_text schema.now (bare_cut node.now)) }
{
    let list = node_tokens(alloc, schema, node)?;
    put_tokens(alloc, out, list.as_slice())
}

/// The node whose line this is, without the places of its parts, or none.
#[tactic(auto, using(crate::proofs::CutReading::line_steps))]
pub fn read_cut_node(alloc: Global, schema: &Schema, line: &[u8]) -> Result<Option<CutNode>, Memory>
    requires well_formed { IsWellFormed schema.now }
    ensures { IfOk result (λ node. node ≡ read_cut_node schema.now line.now) }
{
    let list = tokens_of(alloc, line)?;
    match node_of_tokens(schema, list.as_slice()) {
        Some(node) => if_spelled(alloc, schema, line, node),
        None => Ok(None),
    }
}

// The node, if this is its line.
#[tactic(auto, using(crate::proofs::CutReading::bare_text))]
fn if_spelled(
    alloc: Global,
    schema: &Schema,
    line: &[u8],
    node: CutNode,
) -> Result<Option<CutNode>, Memory>
    requires well_formed { IsWellFormed schema.now }
    requires good { is_cut_node schema.now node ≡ true }
    ensures { IfOk result (λ found. found ≡ if_spelled (cut_node_text schema.now) (is_cut_node schema.now) line.now (Some node)) }
{
    let mut text = Vec::new(alloc);
    put_cut_node(alloc, schema, &mut text, &node)?;
    if text.as_slice() != line {
        return Ok(None);
    }
    Ok(Some(node))
}

// The only node whose line can have these tokens, if it may stand.
#[tactic(auto, unfolding(crate::specs::TokenLines::cut_node_of_tokens, crate::specs::TokenLines::is_cut_node))]
fn node_of_tokens(schema: &Schema, list: &[Token]) -> Option<CutNode>
    requires well_formed { IsWellFormed schema.now }
    ensures { IsLikelyKept (is_cut_node schema.now) (cut_node_of_tokens schema.now list.now) result }
{
    if name_at(list, 0) == b"leaf".as_slice() {
        return match mark_of(list) {
            Some(mark) => Some(CutNode::Leaf { mark }),
            None => None,
        };
    }
    match cut_of(schema, list) {
        Some(cut) => Some(CutNode::Inner {
            cut,
            first: 0,
            second: 0,
        }),
        None => None,
    }
}

// ---- leaves

fn mark_of(list: &[Token]) -> Option<LeafMark>
    ensures { IsKept is_mark (mark_by (token_at list.now 1) (token_at list.now 2)) result }
{
    match list.get(1) {
        Some(token) => mark_by(token, is_in_at(list, 2)),
        None => Some(LeafMark::Barren),
    }
}

fn mark_by(token: &Token, chosen: bool) -> Option<LeafMark>
    ensures { (side : Token) → chosen ≡ is_in side → IsKept is_mark (mark_by token.now side) result }
{
    match token {
        Token::Number(text) => class_of(text.as_slice(), chosen),
        Token::Symbol(_) | Token::Reserved(_) | Token::Name(_) => Some(LeafMark::Barren),
    }
}

fn class_of(text: &[u8], chosen: bool) -> Option<LeafMark>
    ensures { IsKept is_mark (Class (likely_count text.now) chosen) result }
{
    let Some(count) = likely_count(text) else {
        return None;
    };
    if count >= 4_294_967_296 {
        return None;
    }
    Some(LeafMark::Class {
        mask: count as u32,
        chosen,
    })
}

fn is_in_at(list: &[Token], place: usize) -> bool
    ensures { result ≡ is_in (token_at list.now place) }
{
    match list.get(place) {
        Some(token) => is_in(token),
        None => false,
    }
}

fn is_in(token: &Token) -> bool
    ensures { result ≡ is_in token.now }
{
    match token {
        Token::Reserved(_) => true,
        Token::Symbol(_) | Token::Number(_) | Token::Name(_) => false,
    }
}

// ---- cuts

#[tactic(auto, using(crate::proofs::CutReading::column_steps))]
fn cut_of(schema: &Schema, list: &[Token]) -> Option<Cut>
    requires well_formed { IsWellFormed schema.now }
    ensures { IsKept (λ cut. is_cut_of cut (kind_at schema.now (column_of cut))) (cut_at schema.now (column_in schema.now.columns (name_of (token_at list.now 1))) list.now) result }
{
    let place = column_in(schema.columns.as_slice(), name_at(list, 1));
    match schema.columns.as_slice().get(place) {
        Some(column) => cut_at(&column.kind, place as u8, list),
        None => None,
    }
}

// The place of the first column of this name, or the number of columns.
#[tactic(auto, using(crate::proofs::CutReading::place_steps))]
fn column_in(columns: &[Column], name: &[u8]) -> usize
    ensures { result ≡ column_in columns.now name.now }
{
    for (place, column) in columns.iter().enumerate() {
        if column.name.as_bytes() == name {
            return place;
        }
    }
    columns.len()
}

#[tactic(auto, using(crate::proofs::CutReading::divided_steps))]
fn cut_at(kind: &Kind, column: u8, list: &[Token]) -> Option<Cut>
    requires { HasFewNames kind.now }
    ensures { IsKept (λ cut. is_cut_of cut (Some kind.now)) (cut_by (Some kind.now) column (token_at list.now 2) (drop 3 list.now)) result }
{
    match list.get(2) {
        Some(token) => cut_by(kind, column, token, &list[3..]),
        None => None,
    }
}

#[tactic(auto, using(crate::proofs::CutReading::no_names))]
fn cut_by(kind: &Kind, column: u8, token: &Token, rest: &[Token]) -> Option<Cut>
    requires { HasFewNames kind.now }
    ensures { IsKept (λ cut. is_cut_of cut (Some kind.now)) (cut_by (Some kind.now) column token.now rest.now) result }
{
    match token {
        Token::Symbol(_) => cut_among(kind, column, rest),
        Token::Number(text) => cut_below(kind, column, text.as_slice()),
        Token::Reserved(_) | Token::Name(_) => None,
    }
}

// The cut of a column of numbers at the number of a text.
fn cut_below(kind: &Kind, column: u8, text: &[u8]) -> Option<Cut>
    ensures { IsKept (λ cut. is_cut_of cut (Some kind.now)) (At column (likely_number text.now)) result }
{
    match kind {
        Kind::Int { .. } | Kind::Dec { .. } => match small_number(text) {
            Some(at) => Some(Cut::At { column, at }),
            None => None,
        },
        Kind::Cat { .. } => None,
    }
}

// The cut of a column of names by those among the tokens.
fn cut_among(kind: &Kind, column: u8, rest: &[Token]) -> Option<Cut>
    requires { HasFewNames kind.now }
    ensures { IsKept (λ cut. is_cut_of cut (Some kind.now)) (Among column (bits_of (names_of rest.now) (names_in (Some kind.now)))) result }
{
    match kind {
        Kind::Int { .. } | Kind::Dec { .. } => None,
        Kind::Cat { names } => {
            let bits = bits_of(rest, names.as_slice());
            if bits == 0 {
                return None;
            }
            Some(Cut::Among { column, bits })
        }
    }
}

// From the last name to the first, which is the last bit.
#[tactic(auto, using(pc_lang::proofs::Bits::steps))]
fn bits_of(rest: &[Token], names: &[Text]) -> u128
    requires { length names.now ≤ 128 }
    ensures exact { result ≡ bits_of (names_of rest.now) names.now }
    ensures small { result < 2 ^ length names.now }
{
    let mut bits = 0;
    for place in (0..names.len()).rev() {
        bits = bits * 2 + bit_of(rest, names[place].as_bytes());
    }
    bits
}

fn bit_of(rest: &[Token], name: &[u8]) -> u128
    ensures exact { result ≡ bit_if (is_among (names_of rest.now) name.now) }
    ensures small { result ≤ 1 }
{
    if is_named(rest, name) { 1 } else { 0 }
}

#[tactic(auto, using(crate::proofs::CutReading::among_tokens))]
fn is_named(rest: &[Token], name: &[u8]) -> bool
    ensures { result ≡ is_among (names_of rest.now) name.now }
{
    any_token(rest, name)
}

fn any_token(rest: &[Token], name: &[u8]) -> bool
    ensures { result ≡ list_any (is_name_token name.now) rest.now }
{
    rest.iter().any(|token| is_name_token(token, name))
}

fn is_name_token(token: &Token, name: &[u8]) -> bool
    ensures { result ≡ is_name_token name.now token.now }
{
    match token {
        Token::Name(other) => other.as_bytes() == name,
        Token::Symbol(_) | Token::Reserved(_) | Token::Number(_) => false,
    }
}
