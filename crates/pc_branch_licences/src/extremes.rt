ghost use Rattle.std.specs.Prelude.{◌≡◌, ℕ, ℤ, pos, ◌≤ℤ◌, ◌<ℤ◌, ◌⊎◌, List, Some, IfSome};
ghost use Rattle.pc_model.specs.declared.row.Row.{Row};
ghost use Rattle.pc_model.specs.declared.row.Run.{Run};
ghost use Rattle.pc_model.specs.declared.query.Agg.TheVariants as aggs;
ghost use Rattle.pc_model.specs.Aggregate.{whole};
ghost use Rattle.pc_model.specs.Cells.{IsSettledTree};
ghost use Rattle.pc_model.specs.Right.{IsAttained};
ghost use Rattle.pc_model.specs.Runs.{runs_from};
ghost use Rattle.pc_program_bound.specs.Allocation.{IsAllocation, worth};
ghost use Rattle.pc_proof.specs.declared.answer.Proof.{Proof};
ghost use Rattle.pc_proof.specs.Setting.{Setting, area_of, seen_count, seen_least, seen_greatest, counting, program_for, program_without};
ghost use Rattle.pc_proof.specs.Table.{HasRatio, ShowsHigh, ShowsLow};
ghost use Rattle.pc_proof.specs.Unbroken.{IsWellPosed};
ghost use Rattle.pc_branch_licences.specs.Licensed.{upto_low, from_high, under_high, over_low};
ghost use Rattle.pc_branch_licences.specs.Picked.{AreOfCells, AreLowest, AreHighest};
ghost use Rattle.pc_branch_licences.specs.Pools.{AreLawful};
ghost use Rattle.pc_branch_licences.specs.Shown.{counts_of_runs};

/// Runs that attain a least or a greatest number have the counts that the licence of such an outer end looks for.
pub fn attained_extremes_are_wanted()
    ensures min_low { (s : Setting) (n : ℤ) (runs : List Run) → IsWellPosed s.question → IsSettledTree s.question.schema s.question.constraints (area_of s.question) s.nodes → s.question.query.agg ≡ aggs.Min → IfSome (seen_least s.question) (λ m. n <ℤ m) → IsAttained s.question (whole n) runs → pos 1 ≤ℤ worth (program_for s (counting (upto_low s n))) (counts_of_runs s runs) }
    ensures max_high { (s : Setting) (n : ℤ) (runs : List Run) → IsWellPosed s.question → IsSettledTree s.question.schema s.question.constraints (area_of s.question) s.nodes → s.question.query.agg ≡ aggs.Max → IfSome (seen_greatest s.question) (λ g. g <ℤ n) → IsAttained s.question (whole n) runs → pos 1 ≤ℤ worth (program_for s (counting (from_high s n))) (counts_of_runs s runs) }
    ensures min_high { (s : Setting) (n : ℤ) (runs : List Run) → IsWellPosed s.question → IsSettledTree s.question.schema s.question.constraints (area_of s.question) s.nodes → s.question.query.agg ≡ aggs.Min → IsAttained s.question (whole n) runs → IsAllocation (program_without s (under_high s n)) (program_without s (under_high s n)).floor (program_without s (under_high s n)).cap (counts_of_runs s runs) × (seen_count s.question ≡ pos 0 → pos 1 ≤ℤ worth (program_without s (under_high s n)) (counts_of_runs s runs)) }
    ensures max_low { (s : Setting) (n : ℤ) (runs : List Run) → IsWellPosed s.question → IsSettledTree s.question.schema s.question.constraints (area_of s.question) s.nodes → s.question.query.agg ≡ aggs.Max → IsAttained s.question (whole n) runs → IsAllocation (program_without s (over_low s n)) (program_without s (over_low s n)).floor (program_without s (over_low s n)).cap (counts_of_runs s runs) × (seen_count s.question ≡ pos 0 → pos 1 ≤ℤ worth (program_without s (over_low s n)) (counts_of_runs s runs)) }
{}

/// Counts with a row of a cell that reaches a shown far end attain it, by rows with the far number of each cell.
pub fn far_picks_attain()
    ensures min_low { (s : Setting) (n : ℤ) (proof : Proof) (picks : List Row) (counts : List ℕ) → IsWellPosed s.question → IsSettledTree s.question.schema s.question.constraints (area_of s.question) s.nodes → s.question.query.agg ≡ aggs.Min → HasRatio proof → ShowsLow s aggs.Min (whole n) proof → AreLowest s picks → AreLawful s counts → pos 1 ≤ℤ worth (program_for s (counting (upto_low s n))) counts → IsAttained s.question (whole n) (runs_from picks counts) }
    ensures max_high { (s : Setting) (n : ℤ) (proof : Proof) (picks : List Row) (counts : List ℕ) → IsWellPosed s.question → IsSettledTree s.question.schema s.question.constraints (area_of s.question) s.nodes → s.question.query.agg ≡ aggs.Max → HasRatio proof → ShowsHigh s aggs.Max (whole n) proof → AreHighest s picks → AreLawful s counts → pos 1 ≤ℤ worth (program_for s (counting (from_high s n))) counts → IsAttained s.question (whole n) (runs_from picks counts) }
{}

/// Counts with no row of a cell that falls short of a shown near end attain it, if there is a value at all, by rows with
/// the near number of each cell.
pub fn near_picks_attain()
    ensures min_high { (s : Setting) (n : ℤ) (proof : Proof) (picks : List Row) (counts : List ℕ) → IsWellPosed s.question → IsSettledTree s.question.schema s.question.constraints (area_of s.question) s.nodes → s.question.query.agg ≡ aggs.Min → IfSome (seen_least s.question) (λ m. n ≤ℤ m) → HasRatio proof → ShowsHigh s aggs.Min (whole n) proof → AreHighest s picks → IsAllocation (program_without s (under_high s n)) (program_without s (under_high s n)).floor (program_without s (under_high s n)).cap counts → ((pos 0 <ℤ seen_count s.question) ⊎ (pos 1 ≤ℤ worth (program_without s (under_high s n)) counts)) → IsAttained s.question (whole n) (runs_from picks counts) }
    ensures max_low { (s : Setting) (n : ℤ) (proof : Proof) (picks : List Row) (counts : List ℕ) → IsWellPosed s.question → IsSettledTree s.question.schema s.question.constraints (area_of s.question) s.nodes → s.question.query.agg ≡ aggs.Max → IfSome (seen_greatest s.question) (λ g. g ≤ℤ n) → HasRatio proof → ShowsLow s aggs.Max (whole n) proof → AreLowest s picks → IsAllocation (program_without s (over_low s n)) (program_without s (over_low s n)).floor (program_without s (over_low s n)).cap counts → ((pos 0 <ℤ seen_count s.question) ⊎ (pos 1 ≤ℤ worth (program_without s (over_low s n)) counts)) → IsAttained s.question (whole n) (runs_from picks counts) }
{}

/// Where the observed least or greatest number is a shown far end, any possible list attains it.
pub fn observed_extremes_are_attained()
    ensures min_low { (s : Setting) (n : ℤ) (proof : Proof) (picks : List Row) (counts : List ℕ) → IsWellPosed s.question → IsSettledTree s.question.schema s.question.constraints (area_of s.question) s.nodes → s.question.query.agg ≡ aggs.Min → seen_least s.question ≡ Some n → HasRatio proof → ShowsLow s aggs.Min (whole n) proof → AreOfCells s picks → AreLawful s counts → IsAttained s.question (whole n) (runs_from picks counts) }
    ensures max_high { (s : Setting) (n : ℤ) (proof : Proof) (picks : List Row) (counts : List ℕ) → IsWellPosed s.question → IsSettledTree s.question.schema s.question.constraints (area_of s.question) s.nodes → s.question.query.agg ≡ aggs.Max → seen_greatest s.question ≡ Some n → HasRatio proof → ShowsHigh s aggs.Max (whole n) proof → AreOfCells s picks → AreLawful s counts → IsAttained s.question (whole n) (runs_from picks counts) }
{}
