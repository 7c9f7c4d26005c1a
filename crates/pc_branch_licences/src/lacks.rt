ghost use Rattle.std.specs.Prelude.{◌≡◌, ℕ, pos, ◌≤ℤ◌, List, false};
ghost use Rattle.pc_model.specs.declared.row.Row.{Row};
ghost use Rattle.pc_model.specs.Cells.{IsSettledTree};
ghost use Rattle.pc_model.specs.Right.{always_has_value};
ghost use Rattle.pc_model.specs.Runs.{runs_from};
ghost use Rattle.pc_program_bound.specs.Allocation.{worth};
ghost use Rattle.pc_proof.specs.Setting.{Setting, area_of, seen_count, on_chosen, program_for};
ghost use Rattle.pc_proof.specs.Table.{one, minus_one};
ghost use Rattle.pc_proof.specs.Unbroken.{IsWellPosed, GivesNone, GivesSome};
ghost use Rattle.pc_branch_licences.specs.Picked.{AreOfCells};
ghost use Rattle.pc_branch_licences.specs.Pools.{AreLawful};

/// Where no row was observed, counts without chosen rows give no value, and counts with some give one.
pub fn counts_tell_whether_there_is_a_value()
    ensures none { (s : Setting) (picks : List Row) (counts : List ℕ) → IsWellPosed s.question → IsSettledTree s.question.schema s.question.constraints (area_of s.question) s.nodes → always_has_value s.question.query.agg ≡ false → seen_count s.question ≡ pos 0 → AreOfCells s picks → AreLawful s counts → pos 0 ≤ℤ worth (program_for s (on_chosen minus_one)) counts → GivesNone s.question (runs_from picks counts) }
    ensures some { (s : Setting) (picks : List Row) (counts : List ℕ) → IsWellPosed s.question → IsSettledTree s.question.schema s.question.constraints (area_of s.question) s.nodes → AreOfCells s picks → AreLawful s counts → pos 1 ≤ℤ worth (program_for s (on_chosen one)) counts → GivesSome s.question (runs_from picks counts) }
{}
