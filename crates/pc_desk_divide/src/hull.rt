//! What boxes have in a column.
ghost use Rattle.std.specs.Prelude.{◌≡◌};
ghost use Rattle.pc_desk_divide.specs.Pieces.{hull_of, joined, joined_to, joined_with};

use pc_model::{Region, Side};

/// From the least low to the greatest high of the boxes, or each name that some box has.
pub(crate) fn hull_of(column: usize, boxes: &[Region]) -> Option<Side>
    ensures { result ≡ hull_of column boxes.now }
{
    let mut hull = None;
    for region in boxes {
        hull = joined_with(column, hull, region);
    }
    hull
}

fn joined_with(column: usize, hull: Option<Side>, region: &Region) -> Option<Side>
    ensures { result ≡ joined_with column hull region.now }
{
    match region.sides.as_slice().get(column) {
        Some(side) => Some(joined_to(hull, *side)),
        None => hull,
    }
}

fn joined_to(hull: Option<Side>, side: Side) -> Side
    ensures { result ≡ joined_to hull side }
{
    match hull {
        Some(hull) => joined(hull, side),
        None => side,
    }
}

#[tactic(auto, unfolding(crate::specs::Pieces::joined))]
fn joined(side: Side, other: Side) -> Side
    ensures { result ≡ joined side other }
{
    match (side, other) {
        (
            Side::Span { low, high },
            Side::Span {
                low: other_low,
                high: other_high,
            },
        ) => Side::Span {
            low: low.min(other_low),
            high: high.max(other_high),
        },
        (Side::Names { bits }, Side::Names { bits: other_bits }) => Side::Names {
            bits: bits | other_bits,
        },
        _ => side,
    }
}
