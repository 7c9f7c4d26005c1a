ghost use Rattle.std.specs.Prelude.{◌≡◌, ◌≤◌, List, length};
ghost use Rattle.pc_model.specs.declared.constraint.Constraint.{Constraint};
ghost use Rattle.pc_rows.specs.Stored.{row_limit};
ghost use Rattle.pc_desk_words.specs.Words.{HistoryNames};
ghost use Rattle.pc_desk_past.specs.Laws.{HoldThePast};
ghost use Rattle.pc_desk_past.specs.Past.{IsHistory, IsKnown, past_of};
ghost use Rattle.pc_desk_past.specs.declared.past.Known.{Known};
ghost use Rattle.pc_desk_past.specs.declared.past.Past.TheVariants.{Drafted};

/// Constraints from history hold the past that they are drafted from. A row file has at most 1,000,000 rows.
pub fn drafts_hold_the_past()
    ensures { (known : Known) (names : HistoryNames) (drafted : List Constraint)
        → IsKnown known → IsHistory names → length known.rows ≤ row_limit
        → past_of known names ≡ Drafted drafted → HoldThePast known names drafted }
{}
