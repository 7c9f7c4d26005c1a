ghost use Rattle.std.specs.Prelude.{All, List, None, length, true, ◌≡◌, ◌≤◌};
ghost use Rattle.std.specs.List.{AllPass};
ghost use Rattle.pc_model.specs.declared.area.Area.{Area};
ghost use Rattle.pc_model.specs.declared.row.Row.{Row};
ghost use Rattle.pc_model.specs.declared.schema.Schema.{Schema};
ghost use Rattle.pc_model.specs.Accepted.{AreConstraints, constraint_limit, frequency_limit};
ghost use Rattle.pc_model.specs.Boxes.{IsAreaOf};
ghost use Rattle.pc_model.specs.Membership.{AreDisjoint, in_domain, is_in};
ghost use Rattle.pc_model.specs.Possible.{is_covered};
ghost use Rattle.pc_model.specs.WellFormed.{IsWellFormed};
ghost use Rattle.pc_rows.specs.Stored.{row_limit};
ghost use Rattle.pc_desk_history.specs.declared.wish.Wish.{Wish};
ghost use Rattle.pc_desk_history.specs.Draft.{IsColumnIn, IsWish, drafted_of};
ghost use Rattle.pc_desk_history.specs.Laws.{AreApart, ArePastPossible, AreTight, AreWithin, DoCover};
ghost use Rattle.pc_desk_history.specs.Periods.{rows_in};

/// Where no row is in two cells, none is under two of the constraints that are drafted.
#[tactic(auto, using(crate::proofs::Apart::drafted_apart))]
pub fn drafts_are_apart()
    ensures { (schema : Schema) (rows : List Row) (chosen : Area) (cells : List Area) (wish : Wish) → AreApart schema cells
        → AreDisjoint schema (drafted_of schema rows chosen cells wish) }
{}

/// Where each row that is chosen is in a cell, it is under one of the constraints that are drafted.
#[tactic(auto, using(crate::proofs::Apart::drafted_cover))]
pub fn drafts_cover()
    ensures { (schema : Schema) (rows : List Row) (chosen : Area) (cells : List Area) (wish : Wish) → DoCover schema chosen cells
        → (row : Row) → in_domain schema row ≡ true → is_in chosen row ≡ true
        → is_covered (drafted_of schema rows chosen cells wish) row ≡ true }
{}

/// For rows of the domain and cells of the schema, the constraints that are drafted are such as a file of constraints may have.
#[tactic(auto, using(crate::proofs::Drafted::drafted_accepted))]
pub fn drafts_are_constraints()
    ensures { (schema : Schema) (rows : List Row) (chosen : Area) (cells : List Area) (wish : Wish)
        → IsWellFormed schema → AllPass (in_domain schema) rows → length rows ≤ row_limit
        → All (IsAreaOf schema) cells → length cells ≤ constraint_limit → IsWish schema wish
        → AreConstraints schema (drafted_of schema rows chosen cells wish) }
{}

/// The rows of each past period could be the lost rows: where they were read under the schema, no number of lost rows is given, and
/// the cells hold the chosen rows and no others. Whatever the draft is widened by.
pub fn past_periods_are_possible()
    ensures { (schema : Schema) (rows : List Row) (chosen : Area) (cells : List Area) (wish : Wish)
        → AllPass (in_domain schema) rows → length rows ≤ frequency_limit → wish.lost ≡ None
        → DoCover schema chosen cells → AreWithin schema chosen cells
        → ArePastPossible schema rows chosen cells wish }
{}

/// No draft is tighter: where nothing is widened and no number of lost rows is given, no greater least, no smaller most and no
/// narrower side of a column holds of all past periods. There is a row that is chosen, without which there need be no period.
pub fn drafts_are_tight()
    ensures { (schema : Schema) (rows : List Row) (chosen : Area) (cells : List Area) (wish : Wish)
        → AllPass (in_domain schema) rows → AreWithin schema chosen cells → IsColumnIn schema wish.per
        → 1 ≤ length (rows_in chosen rows) → wish.widen ≡ 0 → wish.lost ≡ None
        → AreTight schema rows chosen cells wish }
{}
