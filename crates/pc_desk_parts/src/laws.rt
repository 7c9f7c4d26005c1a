ghost use Rattle.std.specs.Prelude.{◌≡◌, ◌↔◌, ◌++◌, ◌∷◌, [], pos, ◌<ℤ◌, Contains, IsSomeAnd, List, true, false};
ghost use Rattle.pc_model.specs.declared.row.Row.{Row};
ghost use Rattle.pc_model.specs.Accepted.{IsQuery};
ghost use Rattle.pc_model.specs.Right.{IsAttained, value_for};
ghost use Rattle.pc_model.specs.Runs.{rows_of};
ghost use Rattle.pc_proof.specs.Table.{ratio_of};
ghost use Rattle.pc_desk_parts.specs.declared.asked.Asked.{Asked};
ghost use Rattle.pc_desk_parts.specs.declared.asked.Reached.{Reached};
ghost use Rattle.pc_desk_parts.specs.declared.part.Hold.{Hold};
ghost use Rattle.pc_desk_parts.specs.declared.part.Part.{Part};
ghost use Rattle.pc_desk_parts.specs.declared.stands.Stand.{Stand};
ghost use Rattle.pc_desk_parts.specs.declared.pulls.Way.TheVariants.{Adding};
ghost use Rattle.pc_desk_parts.specs.Ends.{is_counted, pull_of, way_for};
ghost use Rattle.pc_desk_parts.specs.Held.{held_of};
ghost use Rattle.pc_desk_parts.specs.Made.{count_at};
ghost use Rattle.pc_desk_parts.specs.Moved.{StandsTo, moved};
ghost use Rattle.pc_desk_parts.specs.Parts.{ArePartsOf};
ghost use Rattle.pc_desk_parts.specs.Sums.{IsSeen, MakeUp, is_folded, numbers_of, question_of, rows_standing};
ghost use Rattle.pc_desk_parts.specs.Told.{Holds};

/// The parts of an end make it up: of a count or a sum they add it, of an average they add it by their rows, and of the least and
/// the greatest there is a part, and each has the end for its number.
pub fn parts_add_up()
    ensures { (ask : Asked) (reached : Reached) (observed : List Row) (parts : List Part)
        → IsQuery ask.schema.now ask.query.now → IsSeen ask observed ask.seen → is_folded ask.seen ≡ true
        → IsAttained (question_of ask observed) (ratio_of reached.value) reached.runs.now
        → ArePartsOf ask reached parts → MakeUp ask.query.now.agg (ratio_of reached.value) parts }
{}

/// Of a quantile, the parts that stand below an end, at it or above it have as many rows as there are numbers of observed and lost
/// rows that do.
pub fn parts_tell_sides()
    ensures { (ask : Asked) (reached : Reached) (observed : List Row) (parts : List Part)
        → IsSeen ask observed ask.seen → is_folded ask.seen ≡ false → ArePartsOf ask reached parts → (stand : Stand)
        → rows_standing stand parts ≡ count_at reached.value stand (numbers_of ask observed (rows_of reached.runs.now)) }
{}

/// What is told to hold the rows of a run is all that does, and nothing else.
pub fn holds_are_told()
    ensures { (ask : Asked) (reached : Reached) (row : Row) (hold : Hold)
        → Contains (held_of ask reached row) hold ↔ Holds ask reached row hold }
{}

/// Where rows add up, one more like a row moves the end as its pull says: further out, further in, or nowhere.
pub fn pulls_move_ends()
    ensures { (ask : Asked) (reached : Reached) (observed : List Row) (row : Row) → way_for ask ≡ Adding
        → pos 0 <ℤ reached.value.den → is_counted ask.query.now ask.name row ≡ true
        → IsAttained (question_of ask observed) (ratio_of reached.value) reached.runs.now
        → IsSomeAnd (value_for (question_of ask observed) (rows_of reached.runs.now ++ row ∷ []))
        (λ v. StandsTo (moved reached.side (pull_of ask reached row)) v (ratio_of reached.value)) }
{}
