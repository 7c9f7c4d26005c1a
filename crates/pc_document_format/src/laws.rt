ghost use Rattle.std.specs.Prelude.{◌≡◌, ℕ, ◌+◌, All, Contains, List, [], ◌++◌, length, take, drop, ◌<◌, Ok, Err};
ghost use Rattle.pc_document_format.specs.Lines.{lines_text, whole_lines, rest_after, feeds_in};
ghost use Rattle.pc_document_format.specs.Formats.{Lines, ArePlain, AreApart, IsLine, IsTextOf, Tells, found_in, line_at, read_bytes};
ghost use Rattle.pc_document_format.specs.Samples.{Body, IsBody, sample_text, read_sample};

/// The lines of the bytes of lines are these lines, and what stands after them is left.
#[tactic(auto, using(crate::proofs::LinesOf::lines_back))]
pub fn lines_read_back()
    ensures { (lines : Lines) (rest : List ℕ) → ArePlain lines → feeds_in rest ≡ 0 → whole_lines (lines_text lines ++ rest) ≡ lines }
{}

/// Bytes are those of their lines and of what stands after the last.
#[tactic(auto, using(crate::proofs::LinesOf::whole))]
pub fn bytes_have_lines()
    ensures { (bytes : List ℕ) → bytes ≡ lines_text (whole_lines bytes) ++ rest_after [] bytes }
{}

/// Lines one after the other have their bytes one after the other.
#[tactic(auto, using(crate::proofs::LinesOf::text_joined))]
pub fn texts_join()
    ensures { (a b : Lines) → lines_text (a ++ b) ≡ lines_text a ++ lines_text b }
{}

/// There are as many lines as line feeds.
#[tactic(auto, using(crate::proofs::LinesOf::feeds_are_lines))]
pub fn line_feeds_count_lines()
    ensures { (bytes : List ℕ) → feeds_in bytes ≡ length (whole_lines bytes) }
{}

/// The number of the line at a place is one more than the line feeds before the place.
#[tactic(auto, using(crate::proofs::LinesOf::line_at_place))]
pub fn line_feeds_number_lines()
    ensures { (bytes : List ℕ) (at : ℕ) → line_at (whole_lines bytes) (whole_lines (drop at bytes)) ≡ feeds_in (take at bytes) + 1 }
{}

/// A list of different texts without line feeds makes a kind of line.
pub fn listed_lines_are_lines()
    ensures { (texts : List (List ℕ)) (some : List ℕ) → Contains texts some → AreApart (λ text. text) texts → All (λ text. feeds_in text ≡ 0) texts → IsLine (Contains texts) (λ text. text) (found_in (λ text. text) texts) }
{}

/// The bytes of a sample are read as that sample.
pub fn samples_read_back()
    ensures { (bytes : List ℕ) (body : Body) → IsTextOf IsBody sample_text bytes body → read_bytes read_sample bytes ≡ Ok body }
{}

/// Of any bytes the reader tells the sample whose bytes they are, or the line of the first fault.
pub fn samples_tell()
    ensures { (bytes : List ℕ) → Tells IsBody sample_text bytes (read_bytes read_sample bytes) }
{}

/// A sample that ends before the bytes do, at the beginning of a line, is told as a fault of that line.
pub fn samples_end_at_places()
    ensures { (bytes : List ℕ) (at : ℕ) (body : Body) → read_sample (whole_lines bytes) ≡ Ok (body, whole_lines (drop at bytes)) → rest_after [] (drop at bytes) ≡ rest_after [] bytes → at < length bytes → read_bytes read_sample bytes ≡ Err (feeds_in (take at bytes) + 1) }
{}
