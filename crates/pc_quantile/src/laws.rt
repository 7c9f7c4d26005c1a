ghost use Rattle.std.specs.List.{AllPass};
ghost use Rattle.std.specs.Prelude.{◌≡◌, ◌↔◌, ℕ, ◌*◌, ◌^◌, ◌≤◌, ◌<◌, ℤ, pos, ◌≤ℤ◌, ◌<ℤ◌, List, [], length, All, Contains, Some, IfSome, IsSome, IsNone};
ghost use Rattle.pc_model.specs.declared.constraint.Constraint.{Constraint};
ghost use Rattle.pc_model.specs.declared.row.Row.{Row};
ghost use Rattle.pc_model.specs.declared.schema.Schema.{Schema};
ghost use Rattle.pc_model.specs.Accepted.{AreConstraints};
ghost use Rattle.pc_model.specs.Cells.{Class};
ghost use Rattle.pc_model.specs.Membership.{in_domain};
ghost use Rattle.pc_model.specs.Right.{value_for};
ghost use Rattle.pc_model.specs.WellFormed.{IsWellFormed};
ghost use Rattle.pc_proof.specs.Unbroken.{plain_answer};
ghost use Rattle.pc_proof.specs.Setting.{Setting, high_in, low_in};
ghost use Rattle.pc_lang.specs.declared.quantile.Quantile.{Quantile};
ghost use Rattle.pc_lang.specs.Quantiles.{IsQuantile, quantile_text};
ghost use Rattle.pc_quantile.specs.declared.answer.QuantileAnswer.{QuantileAnswer};
ghost use Rattle.pc_quantile.specs.Candidates.{AreFrom, AreUpTo, IsCandidate, StandAt};
ghost use Rattle.pc_quantile.specs.Gains.{BoundsAbove, BoundsBelow, first_most, first_sum, second_most, second_sum};
ghost use Rattle.pc_quantile.specs.Licensed.{Owes};
ghost use Rattle.pc_quantile.specs.Measured.{IsAskedIn, IsListIn, least_of, numbers_of, quantile_of};
ghost use Rattle.pc_quantile.specs.Quantile.{at_most, quantile};
ghost use Rattle.pc_quantile.specs.Right.{ContainsQuantiles};
ghost use Rattle.pc_quantile.specs.Shown.{shown};
ghost use Rattle.pc_quantile.specs.Sums.{first_of, second_of};
ghost use Rattle.pc_quantile.specs.Texts.{block_text};
ghost use Rattle.pc_report.specs.Shown.{IsShownAnswer};

/// Of a share of more than none and at most one, every list of numbers has a quantile, but the empty one.
#[tactic(auto, using(crate::proofs::Shares::there_is_one))]
pub fn lists_of_numbers_have_a_quantile()
    ensures some { (p q : ℕ) (numbers : List ℤ) → 1 ≤ p → p ≤ q → 0 < length numbers → IsSome (quantile p q numbers) }
    ensures none { (p q : ℕ) → IsNone (quantile p q []) }
{}

/// How many numbers are at most this one tells on which side of it the quantile lies.
#[tactic(auto, using(crate::proofs::Shares::within, crate::proofs::Shares::above))]
pub fn shares_tell_on_which_side()
    ensures within { (p q : ℕ) (v : ℤ) (numbers : List ℤ) → 1 ≤ p → p * length numbers ≤ q * at_most v numbers → IfSome (quantile p q numbers) (λ w. w ≤ℤ v) }
    ensures above { (p q : ℕ) (v : ℤ) (numbers : List ℤ) → q * at_most v numbers < p * length numbers → IfSome (quantile p q numbers) (λ w. v <ℤ w) }
{}

/// So do two sums: the first says whether the quantile is above the number, the second whether it is below.
#[tactic(auto, using(crate::proofs::ListSums::first_within, crate::proofs::ListSums::first_above, crate::proofs::ListSums::second_from, crate::proofs::ListSums::second_below))]
pub fn sums_tell_on_which_side()
    ensures within { (p q : ℕ) (v : ℤ) (numbers : List ℤ) → 1 ≤ p → first_of p q v numbers ≤ℤ pos 0 → IfSome (quantile p q numbers) (λ w. w ≤ℤ v) }
    ensures above { (p q : ℕ) (v : ℤ) (numbers : List ℤ) → pos 1 ≤ℤ first_of p q v numbers → IfSome (quantile p q numbers) (λ w. v <ℤ w) }
    ensures from { (p q : ℕ) (v : ℤ) (numbers : List ℤ) → second_of p q v numbers ≤ℤ pos 0 → IfSome (quantile p q numbers) (λ w. v ≤ℤ w) }
    ensures below { (p q : ℕ) (v : ℤ) (numbers : List ℤ) → 1 ≤ p → length numbers < 2 ^ 36 → pos 1 ≤ℤ second_of p q v numbers → IfSome (quantile p q numbers) (λ w. w <ℤ v) }
{}

/// The sums of a possible list are at most those of the observed numbers and what the list's counts are worth.
pub fn sums_of_lists_are_within_those_of_cells()
    ensures first { (s : Setting) (asked : Quantile) (lost : List Row) (v : ℤ) → IsListIn s asked lost → first_sum s asked v lost ≤ℤ first_most s asked v lost }
    ensures second { (s : Setting) (asked : Quantile) (lost : List Row) (v : ℤ) → IsListIn s asked lost → second_sum s asked v lost ≤ℤ second_most s asked v lost }
{}

/// They are just that where each lost row has its cell's outermost number.
pub fn sums_of_lists_at_an_end_are_those_of_cells()
    ensures first { (s : Setting) (asked : Quantile) (lost : List Row) (v : ℤ) → IsListIn s asked lost → StandAt s (high_in s) lost → first_sum s asked v lost ≡ first_most s asked v lost }
    ensures second { (s : Setting) (asked : Quantile) (lost : List Row) (v : ℤ) → IsListIn s asked lost → StandAt s (low_in s) lost → second_sum s asked v lost ≡ second_most s asked v lost }
{}

/// A number that no counts of the cells pass bounds the quantile of every possible list.
pub fn programs_bound_quantiles()
    ensures above { (s : Setting) (asked : Quantile) (lost : List Row) (v : ℤ) → IsListIn s asked lost → BoundsAbove s asked v → IfSome (quantile_of s.question asked lost) (λ w. w ≤ℤ v) }
    ensures below { (s : Setting) (asked : Quantile) (lost : List Row) (v : ℤ) → IsListIn s asked lost → BoundsBelow s asked v → IfSome (quantile_of s.question asked lost) (λ w. v ≤ℤ w) }
    ensures both { (s : Setting) (asked : Quantile) (low high : ℤ) → IsAskedIn s asked → BoundsBelow s asked low → BoundsAbove s asked high → ContainsQuantiles s.question asked low high }
{}

/// A quantile is one of the numbers.
#[tactic(auto, using(crate::proofs::Shares::among))]
pub fn quantiles_are_among_their_numbers()
    ensures { (p q : ℕ) (numbers : List ℤ) → IfSome (quantile p q numbers) (Contains numbers) }
{}

/// A list of rows has a quantile just where its numbers have a least one.
pub fn quantiles_are_there_with_least_numbers()
    ensures { (s : Setting) (asked : Quantile) (lost : List Row) → IsAskedIn s asked → (IsSome (quantile_of s.question asked lost) ↔ IsSome (value_for s.question lost)) }
{}

/// What bounds the candidates of an end bounds every number of a possible list.
pub fn numbers_are_within_the_candidates()
    ensures high { (s : Setting) (asked : Quantile) (lost : List Row) (most : ℤ) → IsListIn s asked lost → AreUpTo s (high_in s) most → All (λ n. n ≤ℤ most) (numbers_of s.question lost) }
    ensures low { (s : Setting) (asked : Quantile) (lost : List Row) (least : ℤ) → IsListIn s asked lost → AreFrom s (low_in s) least → All (λ n. least ≤ℤ n) (numbers_of s.question lost) }
{}

/// Where each lost row has its cell's number at an end, all numbers are candidates of that end.
pub fn numbers_at_an_end_are_candidates()
    ensures { (s : Setting) (asked : Quantile) (lost : List Row) (end : Class → ℤ) → IsListIn s asked lost → StandAt s end lost → All (IsCandidate s end) (numbers_of s.question lost) }
{}

/// The lines of an answer that owes what it must are read back.
pub fn owed_answers_are_shown()
    ensures { (schema : Schema) (observed : List Row) (constraints : List Constraint) (asked : Quantile) (budget : ℕ) (answer : QuantileAnswer) → IsWellFormed schema → AllPass (in_domain schema) observed → AreConstraints schema constraints → Owes schema observed constraints asked budget answer → IsShownAnswer schema (least_of asked) (plain_answer (shown answer)) }
{}

/// One text over one schema is that of one question and one answer: its ends with their values, the marks and all runs.
pub fn texts_tell_their_quantiles()
    ensures { (schema : Schema) (asked other : Quantile) (one two : QuantileAnswer) → IsWellFormed schema → IsQuantile schema asked → IsQuantile schema other → IsShownAnswer schema (least_of asked) (plain_answer (shown one)) → IsShownAnswer schema (least_of other) (plain_answer (shown two)) → block_text schema (quantile_text schema asked) asked one ≡ block_text schema (quantile_text schema other) other two → (asked ≡ other) × (one ≡ two) }
{}
