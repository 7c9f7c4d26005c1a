ghost use Rattle.std.specs.Prelude.{◌≡◌, ℕ, List, MatchOption, None, drop};
ghost use Rattle.csv.specs.Reading.{default_config, records};
ghost use Rattle.pc_desk_records.specs.Beginnings.{begin_of, nth};

/// The record before which so many stand is the first one from the place on that is found for it, and there is none where no
/// place is found.
#[tactic(auto, using(crate::proofs::CsvBegins::laws))]
pub fn records_begin_there()
    ensures { (before : ℕ) (text : List ℕ) → MatchOption (begin_of before text) (nth before (records default_config text) ≡ None) (λ place. nth before (records default_config text) ≡ nth 0 (records default_config (drop place text))) }
{}
