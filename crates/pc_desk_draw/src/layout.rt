ghost use Rattle.std.specs.Prelude.{◌≡◌, IfSome};
ghost use Rattle.std.specs.List.{All};
ghost use Rattle.pc_desk_draw.specs.Axes.{IsDrawn, IsSmall, axis_between};
ghost use Rattle.pc_desk_draw.specs.Layouts.{layout_of};
ghost use Rattle.pc_desk_draw.specs.Places.{Holds};

use crate::axis::{Axis, axis_of};
use crate::names::names_width;
use crate::numbers::bounds_of;
use crate::span::Span;
use pc_desk_table::Entry;

/// How many columns the names of a picture take, if it has any, and its axis, if it has numbers.
#[derive(Clone, Copy)]
pub(crate) struct Layout {
    pub names: Option<usize>,
    pub axis: Option<Axis>,
}

/// What the rows of a picture have in common.
#[tactic(auto, using(crate::proofs::Holding::held))]
pub(crate) fn layout_of(entries: &[Entry]) -> Layout
    ensures value { result ≡ layout_of entries.now }
    ensures small { IfSome result.axis IsSmall }
    ensures holds { All (Holds result.axis) entries.now }
{
    Layout {
        names: names_width(entries),
        axis: axis_between(bounds_of(entries)),
    }
}

/// The axis of a picture that has numbers.
#[tactic(auto, using(crate::proofs::Holding::axis_small))]
pub(crate) fn axis_between(span: Option<Span>) -> Option<Axis>
    requires { IfSome span IsDrawn }
    ensures value { result ≡ axis_between span }
    ensures small { IfSome result IsSmall }
{
    let span = span?;
    Some(axis_of(span))
}
