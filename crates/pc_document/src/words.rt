ghost use Rattle.std.specs.Prelude.{◌≡◌, bytes_eq};
ghost use Rattle.pc_document.specs.Reading.{read_why_line, read_relation_line, read_never_line, read_always_line, read_lack_line, read_tree_line};

use crate::tags::{AlwaysLine, LackLine, NeverLine, RelationLine, TreeLine, WhyLine};

/// Whether a line is this text.
pub(crate) fn is_text(text: &str, line: &[u8]) -> bool
    ensures { result ≡ bytes_eq text.now line.now }
{
    text.as_bytes() == line
}

#[tactic(auto, unfolding(pc_document_format::specs::Formats::found_in))]
pub(crate) fn read_why_line(line: &[u8]) -> Option<WhyLine>
    ensures { result ≡ read_why_line line.now }
{
    if is_text("by void", line) {
        return Some(WhyLine::Void);
    }
    if is_text("by cross", line) {
        return Some(WhyLine::Cross);
    }
    if is_text("by ends", line) {
        return Some(WhyLine::Ends);
    }
    None
}

#[tactic(auto, unfolding(pc_document_format::specs::Formats::found_in))]
pub(crate) fn read_relation_line(line: &[u8]) -> Option<RelationLine>
    ensures { result ≡ read_relation_line line.now }
{
    if is_text("relation possible", line) {
        return Some(RelationLine::Possible);
    }
    if is_text("relation impossible", line) {
        return Some(RelationLine::Impossible);
    }
    if is_text("relation undecided", line) {
        return Some(RelationLine::Undecided);
    }
    None
}

#[tactic(auto, unfolding(pc_document_format::specs::Formats::found_in))]
pub(crate) fn read_never_line(line: &[u8]) -> Option<NeverLine>
    ensures { result ≡ read_never_line line.now }
{
    if is_text("by rows", line) {
        return Some(NeverLine::Rows);
    }
    if is_text("by tree", line) {
        return Some(NeverLine::Tree);
    }
    None
}

#[tactic(auto, unfolding(pc_document_format::specs::Formats::found_in))]
pub(crate) fn read_always_line(line: &[u8]) -> Option<AlwaysLine>
    ensures { result ≡ read_always_line line.now }
{
    if is_text("by tree", line) {
        return Some(AlwaysLine::Tree);
    }
    if is_text("by ends", line) {
        return Some(AlwaysLine::Ends);
    }
    None
}

#[tactic(auto, unfolding(pc_document_format::specs::Formats::found_in))]
pub(crate) fn read_lack_line(line: &[u8]) -> Option<LackLine>
    ensures { result ≡ read_lack_line line.now }
{
    if is_text("none never", line) {
        return Some(LackLine::Never);
    }
    if is_text("none sometimes", line) {
        return Some(LackLine::Sometimes);
    }
    if is_text("none always", line) {
        return Some(LackLine::Always);
    }
    if is_text("none undecided", line) {
        return Some(LackLine::Undecided);
    }
    None
}

#[tactic(auto, unfolding(pc_document_format::specs::Formats::found_in))]
pub(crate) fn read_tree_line(line: &[u8]) -> Option<TreeLine>
    ensures { result ≡ read_tree_line line.now }
{
    if is_text("tree own", line) {
        return Some(TreeLine::Own);
    }
    if is_text("tree same", line) {
        return Some(TreeLine::Same);
    }
    None
}
