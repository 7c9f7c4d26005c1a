ghost use Rattle.std.specs.Prelude.{◌≡◌, ℕ, IsSome, List, Some, pos};
ghost use Rattle.pc_model.specs.Accepted.{IsQuery};
ghost use Rattle.pc_model.specs.declared.constraint.Constraint.{Constraint};
ghost use Rattle.pc_proof.specs.Unbroken.{plain_answer};
ghost use Rattle.pc_group.specs.Wanted.{Wanted};
ghost use Rattle.pc_desk_answers.specs.Blocks.{Ground};
ghost use Rattle.pc_desk_short.specs.declared.clash_line.ClashLine.{ClashLine};
ghost use Rattle.pc_desk_table.specs.Reading.{IsReadAs, sheet_rows};
ghost use Rattle.pc_desk_table.specs.Sheets.{sheet_table};
ghost use Rattle.pc_desk_why.specs.declared.explained.Explained.{Explained};
ghost use Rattle.pc_desk_why.specs.declared.explained.Found.TheVariants.{Ends};
ghost use Rattle.pc_desk_why.specs.declared.explained.MadeEnd.{MadeEnd};
ghost use Rattle.pc_desk_why.specs.Explained.{AddUp, ExplainsBlock};
ghost use Rattle.pc_desk_parts.specs.declared.part.Part.{Part};
ghost use Rattle.pc_desk_parts.specs.Sums.{amounts};
ghost use Rattle.pc_desk_why.specs.Bars.{Lead, all_segments, millionths, part_rows, total_of};
ghost use Rattle.pc_desk_why.specs.Shown.{why_sheet};

/// What csv reads in the table of explanations is its titles and then the texts of each row.
#[tactic(auto, using(crate::proofs::Back::explanations_are_read_back))]
pub fn explanations_are_read_back()
    ensures { (constraints : List Constraint) (lines : List ClashLine) (all : List Explained)
        → IsReadAs (sheet_table (why_sheet constraints lines all)) (sheet_rows (why_sheet constraints lines all)) }
{}

/// The parts that are told of an end of a query's answer make up its value: of a count or a sum they add it, of an average they
/// add it by their rows, and of the least and the greatest there is a part, and each has the end for its number.
pub fn explained_ends_add_up()
    ensures { (over : Ground) (w : Wanted) (told : Explained) (low high : MadeEnd) → (explains : ExplainsBlock over w told)
        → IsQuery over.schema w.query → told.found ≡ Ends low high
        → AddUp w.query.agg (plain_answer explains.answer.block.answer) low high }
{}

/// The segments of the parts of an end, where all totals can be drawn: the first begins at 0, each further one where the one before
/// it ends, and the last ends at what the parts add together.
#[tactic(auto, using(crate::proofs::Leading::segments_lead))]
pub fn segments_lead_to_the_end()
    ensures { (constraints : List Constraint) (places : ℕ) (parts : List Part) → IsSome (total_of (Some (pos 0)) parts)
        → Lead (pos 0) (all_segments (part_rows constraints places 0 (Some (pos 0)) parts)) (millionths places (amounts parts)) }
{}
