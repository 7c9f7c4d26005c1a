ghost use Rattle.std.specs.Prelude.{◌≡◌};
ghost use Rattle.pc_model.specs.Regions.{whole_side};
ghost use Rattle.pc_model.specs.WellFormed.{HaveFewNames};
ghost use Rattle.pc_lang.specs.Canonical.{is_whole, same_side};

use pc_model::{Region, Schema, Side};

/// Whether a region is that of the whole domain.
#[tactic(auto, using(pc_model::proofs::Pairs::steps), unfolding(crate::specs::Canonical::is_whole))]
pub fn is_whole(schema: &Schema, region: &Region) -> bool
    requires { HaveFewNames schema.now.columns }
    ensures { result ≡ is_whole schema.now region.now }
{
    let columns = schema.columns.as_slice();
    let sides = region.sides.as_slice();
    if columns.len() != sides.len() {
        return false;
    }
    for (place, column) in columns.iter().enumerate() {
        if !same_side(sides[place], column.kind.whole_side()) {
            return false;
        }
    }
    true
}

pub(crate) fn same_side(side: Side, other: Side) -> bool
    ensures { result ≡ same_side side other }
{
    match (side, other) {
        (
            Side::Span { low, high },
            Side::Span {
                low: other_low,
                high: other_high,
            },
        ) => low == other_low && high == other_high,
        (Side::Names { bits }, Side::Names { bits: other_bits }) => bits == other_bits,
        _ => false,
    }
}
