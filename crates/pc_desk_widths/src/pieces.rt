//! Two ranges on one axis, as pieces of a bar.
ghost use Rattle.std.specs.Prelude.{◌≡◌, ◌++◌, [], ◌∷◌, IfOk, OnOk, int_le};
ghost use Rattle.std.specs.Int.{int_max, int_min};
ghost use Rattle.pc_desk_widths.specs.Pieces.{are_apart, apart_pieces, crossing_pieces, edge_pieces, piece, pieces_of, ranges_pieces};
ghost use Rattle.pc_desk_draw.specs.declared.segment.Tone.TheVariants.{Blue, Grey, Pale};

use pc_desk_draw::{Segment, Tone};
use pc_list::Seq;
use pc_num::Memory;
use std::alloc::Global;

/// The ends of a range, in millionths.
#[derive(Clone, Copy, Debug)]
pub(crate) struct Ends {
    pub low: i128,
    pub high: i128,
}

/// What is in the range that stands alone, in both, or in the other alone.
pub(crate) fn ranges_pieces(
    alloc: Global,
    standing: Option<Ends>,
    other: Option<Ends>,
) -> Result<Seq<Segment>, Memory>
    ensures { IfOk result (λ pieces. pieces ≡ ranges_pieces standing other) }
{
    match (standing, other) {
        (Some(standing), Some(other)) => pieces_of(alloc, standing, other),
        (Some(standing), None) => one_piece(alloc, standing, Tone::Grey),
        (None, Some(other)) => one_piece(alloc, other, Tone::Pale),
        (None, None) => Ok(Seq::new(alloc)),
    }
}

fn one_piece(alloc: Global, ends: Ends, tone: Tone) -> Result<Seq<Segment>, Memory>
    ensures { IfOk result (λ pieces. pieces ≡ piece ends.low ends.high tone ∷ []) }
{
    let mut pieces = Seq::new(alloc);
    pieces.push(piece(ends.low, ends.high, tone))?;
    Ok(pieces)
}

fn pieces_of(alloc: Global, standing: Ends, other: Ends) -> Result<Seq<Segment>, Memory>
    ensures { IfOk result (λ pieces. pieces ≡ pieces_of standing other) }
{
    if are_apart(standing, other) {
        return apart_pieces(alloc, standing, other);
    }
    crossing_pieces(alloc, standing, other)
}

fn are_apart(standing: Ends, other: Ends) -> bool
    ensures { result ≡ are_apart standing other }
{
    standing.high < other.low || other.high < standing.low
}

fn apart_pieces(alloc: Global, standing: Ends, other: Ends) -> Result<Seq<Segment>, Memory>
    ensures { IfOk result (λ pieces. pieces ≡ apart_pieces standing other) }
{
    let mut pieces = Seq::new(alloc);
    pieces.push(piece(standing.low, standing.high, Tone::Grey))?;
    pieces.push(piece(other.low, other.high, Tone::Pale))?;
    Ok(pieces)
}

fn crossing_pieces(alloc: Global, standing: Ends, other: Ends) -> Result<Seq<Segment>, Memory>
    ensures { IfOk result (λ pieces. pieces ≡ crossing_pieces standing other) }
{
    let low = standing.low.max(other.low);
    let high = standing.high.min(other.high);
    let mut pieces = Seq::new(alloc);
    put_edge(
        &mut pieces,
        standing.low,
        other.low,
        (Tone::Grey, Tone::Pale),
    )?;
    pieces.push(piece(low, high, Tone::Blue))?;
    put_edge(
        &mut pieces,
        other.high,
        standing.high,
        (Tone::Grey, Tone::Pale),
    )?;
    Ok(pieces)
}

// From the lesser to the greater of two ends, if they differ, in the tone of the first where the first is less.
fn put_edge(out: &mut Seq<Segment>, from: i128, to: i128, tones: (Tone, Tone)) -> Result<(), Memory>
    ensures { OnOk result (out.new ≡ out.old ++ edge_pieces tones from to) }
{
    if from < to {
        out.push(piece(from, to, tones.0))?;
    } else if to < from {
        out.push(piece(to, from, tones.1))?;
    }
    Ok(())
}

fn piece(from: i128, to: i128, tone: Tone) -> Segment
    ensures { result ≡ piece from to tone }
{
    Segment { from, to, tone }
}
