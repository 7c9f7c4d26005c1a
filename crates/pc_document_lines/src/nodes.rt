ghost use Rattle.std.specs.Prelude.{◌≡◌, ◌++◌, ◌∷◌, IfOk, MatchOption, OnOk, codes, map, unsigned_abs, [], nat_le, nat_lt, ◌&&◌, ◌≤◌, ◌^◌, Some};
ghost use Rattle.std.specs.List.{list_all};
ghost use Rattle.pc_document_format.specs.Formats.{if_spelled};
ghost use Rattle.pc_document_lines.specs.Likely.{AreLikely, IsLikely};
ghost use Rattle.pc_document_lines.specs.Numbers.{count_text, is_fit, is_positive, likely_count, likely_number, whole_text};
ghost use Rattle.pc_document_lines.specs.NodeLines.{bare, bound_of, is_node, likely_node, node_of_pieces, node_text, numbers_text, read_node, split_of, void_of};

use crate::numbers::{likely_count, likely_number};
use crate::pieces::pieces_of;
use pc_list::Seq;
use pc_model::{Mult, TreeNode};
use pc_num::{Memory, are_fit, put_scaled};
use std::alloc::Global;

/// Appends the line of a node, which does not tell the places of its parts.
#[tactic(auto, unfolding(crate::specs::NodeLines::node_text))]
pub fn put_node(alloc: Global, out: &mut Vec<u8>, node: &TreeNode) -> Result<(), Memory>
    ensures { OnOk result (out.new.items ≡ out.old.items ++ node_text (bare node.now)) }
{
    match node {
        TreeNode::Split { cell, at, .. } => put_split(alloc, out, *cell, *at),
        TreeNode::Bound { mult } => {
            out.extend_from_slice(b"bound ")?;
            put_scaled(alloc, out, mult.den, 0)?;
            put_numbers(alloc, out, mult.by.as_slice())
        }
        TreeNode::Void { mult } => {
            out.extend_from_slice(b"void")?;
            put_numbers(alloc, out, mult.by.as_slice())
        }
    }
}

fn put_split(alloc: Global, out: &mut Vec<u8>, cell: u32, at: u64) -> Result<(), Memory>
    ensures { OnOk result (out.new.items ≡ out.old.items ++ (codes "split " ++ count_text cell ++ 32 ∷ count_text at)) }
{
    out.extend_from_slice(b"split ")?;
    put_scaled(alloc, out, i128::from(cell), 0)?;
    out.push(b' ')?;
    put_scaled(alloc, out, i128::from(at), 0)
}

// Appends each number after a space.
#[tactic(auto, using(crate::proofs::NodesBack::numbers_steps))]
fn put_numbers(alloc: Global, out: &mut Vec<u8>, numbers: &[i128]) -> Result<(), Memory>
    ensures { OnOk result (out.new.items ≡ out.old.items ++ numbers_text numbers.now) }
{
    for number in numbers {
        put_number(alloc, out, number)?;
    }
    Ok(())
}

fn put_number(alloc: Global, out: &mut Vec<u8>, number: &i128) -> Result<(), Memory>
    ensures { OnOk result (out.new.items ≡ out.old.items ++ 32 ∷ whole_text number.now) }
{
    out.push(b' ')?;
    put_scaled(alloc, out, *number, 0)
}

/// The node whose line this is, without the places of its parts, or none.
#[tactic(auto, using(crate::proofs::NumbersLikely::none_likely), unfolding(crate::specs::NodeLines::read_node))]
pub fn read_node(alloc: Global, line: &[u8]) -> Result<Option<TreeNode>, Memory>
    ensures { IfOk result (λ node. node ≡ read_node line.now) }
{
    match likely_node(alloc, line)? {
        Some(node) => if_spelled(alloc, line, node),
        None => Ok(None),
    }
}

// The node, if it may stand and this is its line.
#[tactic(auto, using(crate::proofs::NodesBack::bare_text))]
fn if_spelled(alloc: Global, line: &[u8], node: TreeNode) -> Result<Option<TreeNode>, Memory>
    ensures { IfOk result (λ found. found ≡ if_spelled node_text is_node line.now (Some node)) }
{
    if !is_node(&node) {
        return Ok(None);
    }
    let mut text = Vec::new(alloc);
    put_node(alloc, &mut text, &node)?;
    if text.as_slice() != line {
        return Ok(None);
    }
    Ok(Some(node))
}

#[tactic(auto, unfolding(crate::specs::NodeLines::is_node))]
fn is_node(node: &TreeNode) -> bool
    ensures { result ≡ is_node node.now }
{
    match node {
        TreeNode::Split { cell, at, .. } => is_split(*cell, *at),
        TreeNode::Bound { mult } => is_positive(mult.den) && all_fit(mult.by.as_slice()),
        TreeNode::Void { mult } => mult.den == 1 && all_fit(mult.by.as_slice()),
    }
}

fn is_split(_cell: u32, at: u64) -> bool
    ensures { result ≡ (nat_lt _cell (2 ^ 32) && nat_le at (10 ^ 18)) }
{
    at <= 1_000_000_000_000_000_000
}

fn is_positive(number: i128) -> bool
    ensures { result ≡ (is_positive number && is_fit number) }
{
    number >= 1
}

#[tactic(auto, using(crate::proofs::NodesBack::fits_test))]
fn all_fit(numbers: &[i128]) -> bool
    ensures { result ≡ list_all is_fit numbers.now }
{
    are_fit(numbers)
}

// The only node whose line this can be.
#[tactic(auto, unfolding(crate::specs::NodeLines::likely_node))]
fn likely_node(alloc: Global, line: &[u8]) -> Result<Option<TreeNode>, Memory>
    ensures { IfOk result (λ found. IsLikely is_node (likely_node line.now) found) }
{
    let pieces = pieces_of(alloc, line, b' ')?;
    node_of_pieces(alloc, pieces.as_slice())
}

#[tactic(auto, unfolding(crate::specs::NodeLines::node_of_pieces))]
fn node_of_pieces(alloc: Global, pieces: &[&[u8]]) -> Result<Option<TreeNode>, Memory>
    ensures { IfOk result (λ found. IsLikely is_node (node_of_pieces (map (λ piece. piece.now) pieces.now)) found) }
{
    let [word, rest @ ..] = pieces else {
        return Ok(None);
    };
    if *word == b"split".as_slice() {
        return Ok(split_of(rest));
    }
    if *word == b"bound".as_slice() {
        return bound_of(alloc, rest);
    }
    if *word == b"void".as_slice() {
        return void_of(alloc, rest);
    }
    Ok(None)
}

fn split_of(pieces: &[&[u8]]) -> Option<TreeNode>
    ensures { IsLikely is_node (split_of (map (λ piece. piece.now) pieces.now)) result }
{
    match pieces {
        [cell, at] => split_from(cell, at),
        _ => None,
    }
}

#[tactic(auto, using(crate::proofs::NodesBack::splits))]
fn split_from(cell: &[u8], at: &[u8]) -> Option<TreeNode>
    ensures { IsLikely is_node (split_of (cell.now ∷ at.now ∷ [])) result }
{
    let Some(cell) = cell_of(cell) else {
        return None;
    };
    let Some(at) = count_of(at) else {
        return None;
    };
    Some(TreeNode::Split {
        cell,
        at,
        less: 0,
        more: 0,
    })
}

fn cell_of(piece: &[u8]) -> Option<u32>
    ensures { MatchOption result (2 ^ 32 ≤ likely_count piece.now) (λ n. n ≡ likely_count piece.now) }
{
    match likely_count(piece) {
        Some(count) => u32::try_from(count).ok(),
        None => None,
    }
}

fn count_of(piece: &[u8]) -> Option<u64>
    ensures { MatchOption result (2 ^ 64 ≤ likely_count piece.now) (λ n. n ≡ likely_count piece.now) }
{
    match likely_count(piece) {
        Some(count) => u64::try_from(count).ok(),
        None => None,
    }
}

fn bound_of(alloc: Global, pieces: &[&[u8]]) -> Result<Option<TreeNode>, Memory>
    ensures { IfOk result (λ found. IsLikely is_node (bound_of (map (λ piece. piece.now) pieces.now)) found) }
{
    match pieces {
        [den, by @ ..] => bound_from(alloc, den, by),
        [] => Ok(None),
    }
}

#[tactic(auto, using(crate::proofs::NodesBack::bounds))]
fn bound_from(alloc: Global, den: &[u8], by: &[&[u8]]) -> Result<Option<TreeNode>, Memory>
    ensures { IfOk result (λ found. IsLikely is_node (bound_of (den.now ∷ map (λ piece. piece.now) by.now)) found) }
{
    let Some(den) = likely_number(den) else {
        return Ok(None);
    };
    match numbers_of(alloc, by)? {
        Some(by) => Ok(Some(TreeNode::Bound {
            mult: Mult { by, den },
        })),
        None => Ok(None),
    }
}

#[tactic(auto, using(crate::proofs::NodesBack::unfit_void))]
fn void_of(alloc: Global, pieces: &[&[u8]]) -> Result<Option<TreeNode>, Memory>
    ensures { IfOk result (λ found. IsLikely is_node (void_of (map (λ piece. piece.now) pieces.now)) found) }
{
    match numbers_of(alloc, pieces)? {
        Some(by) => Ok(Some(TreeNode::Void {
            mult: Mult { by, den: 1 },
        })),
        None => Ok(None),
    }
}

#[tactic(auto, using(crate::proofs::NodesBack::likely_steps))]
fn numbers_of(alloc: Global, pieces: &[&[u8]]) -> Result<Option<Seq<i128>>, Memory>
    ensures { IfOk result (λ found. AreLikely (list_all is_fit) (map likely_number (map (λ piece. piece.now) pieces.now)) found) }
{
    // A document holds as many of these lists as it has leaves, so none is longer than it has to be.
    let mut numbers = Seq::from_vec(Vec::with_capacity(alloc, pieces.len())?);
    for piece in pieces {
        match with_number(numbers, piece)? {
            Some(more) => numbers = more,
            None => return Ok(None),
        }
    }
    Ok(Some(numbers))
}

// The numbers and one more, if it fits.
fn with_number(mut numbers: Seq<i128>, piece: &[u8]) -> Result<Option<Seq<i128>>, Memory>
    ensures { IfOk result (λ found. MatchOption found (2 ^ 127 ≤ unsigned_abs (likely_number piece.now)) (λ more. more ≡ numbers ++ likely_number piece.now ∷ [])) }
{
    match likely_number(piece) {
        Some(number) => {
            numbers.push(number)?;
            Ok(Some(numbers))
        }
        None => Ok(None),
    }
}
