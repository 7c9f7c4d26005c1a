ghost use Rattle.pc_desk_draw.specs.Laws.{AllOnAxis, PlacesRise, SegmentsAreOnAxis, TicksAreRound};

/// A greater number has no lesser place.
pub fn places_rise()
    ensures { PlacesRise }
{}

/// All ends and observed values of a picture lie within its axis, and their places within the last one.
pub fn all_on_axis()
    ensures { AllOnAxis }
{}

/// The ticks of an axis are the multiples of a round step from its start on, and there are two to six of them.
pub fn ticks_are_round()
    ensures { TicksAreRound }
{}

/// Each segment of a bar that can be drawn has both ends on the axis of its picture, and their places within the last one.
pub fn segments_are_on_axis()
    ensures { SegmentsAreOnAxis }
{}
