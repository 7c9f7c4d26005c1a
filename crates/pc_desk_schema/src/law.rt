ghost use Rattle.std.specs.Prelude.{◌≡◌, ◌≤◌, ℕ, List, Err, Ok, false, is_ok, length, true};
ghost use Rattle.pc_rows.specs.RowFile.{rows_of};
ghost use Rattle.pc_desk_schema.specs.declared.draft.Draft.{Draft};
ghost use Rattle.pc_desk_schema.specs.declared.said.Said.{Said};
ghost use Rattle.pc_desk_schema.specs.Draft.{drafted_of, is_whole};
ghost use Rattle.pc_desk_schema.specs.Fits.{fit_of};
ghost use Rattle.pc_desk_schema.specs.Texts.{remark_lines};
ghost use Rattle.pc_desk_schema.specs.Told.{Tells};

/// A file for which a schema is drafted is read under that schema, whichever columns are left out of it.
#[tactic(auto, using(crate::proofs::Reading::drafts_read))]
pub fn drafts_read_the_file()
    ensures { (bytes : List ℕ) (names : List (List ℕ)) (draft : Draft) → drafted_of bytes names ≡ Ok draft
        → is_ok (rows_of draft.schema bytes) ≡ true }
{}

/// What is said of the fields of a column that is left out is so: how many are of the kind that most are, and which field is
/// the first of another kind.
#[tactic(auto, using(crate::proofs::Telling::told_is))]
pub fn what_is_told_is_so()
    ensures { (texts : List (List ℕ)) (what : Said) → fit_of texts ≡ Err what → Tells texts what }
{}

/// Where a column is left out, a line is told.
#[tactic(auto, using(crate::proofs::Silence::left_out_told))]
pub fn what_is_left_out_is_told()
    ensures { (draft : Draft) → is_whole draft ≡ false → 1 ≤ length (remark_lines draft) }
{}
