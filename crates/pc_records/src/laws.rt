ghost use Rattle.std.specs.Prelude.{◌≡◌, ℕ, List, map};
ghost use Rattle.csv.specs.Reading.{default_config, records};
ghost use Rattle.pc_records.specs.Plain.{HasNoQuote, HasPlainLines, filled_parts, plain_lines, split_at_commas};

/// A text without quotes has a record for each of its lines that is not empty, in their order, with what stands between
/// the commas of the line as its fields. A line ends with CR, with LF or with the text.
#[tactic(auto, using(crate::proofs::PlainParts::records_of_parts))]
pub fn lines_are_records()
    ensures { (text : List ℕ) → HasNoQuote text
        → records default_config text ≡ map split_at_commas (filled_parts text) }
{}

/// The same of lines that end with LF, with CR LF or with the text, where no CR stands alone.
#[tactic(auto, using(crate::proofs::PlainLines::records_of_lines))]
pub fn plain_lines_are_records()
    ensures { (text : List ℕ) → HasPlainLines text
        → records default_config text ≡ map split_at_commas (plain_lines text) }
{}
