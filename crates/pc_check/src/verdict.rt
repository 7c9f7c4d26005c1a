/// What the rules say of a document: that it breaks none, or the number of the first line that breaks one, with the number of
/// that rule.
#[derive(Clone, Copy, Debug, PartialEq, Eq)]
pub enum Verdict {
    Yes,
    No { line: u64, rule: u8 },
}
