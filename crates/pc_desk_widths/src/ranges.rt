//! The range that is shown of a block, and what is said where there is none.
ghost use Rattle.std.specs.Prelude.{◌≡◌, option_copied};
ghost use Rattle.pc_desk_table.specs.Names.{mark_text};
ghost use Rattle.pc_desk_table.specs.Remarks.{ends_of, may_have_value, may_stand};
ghost use Rattle.pc_desk_widths.specs.Shown.{lack_word, word_for};

use pc_desk_table::{Entry, Mark, Range, Said, SaidLack};

/// The range of a block: none where no rows are possible, or there is no value.
#[tactic(auto, unfolding(pc_desk_table::specs::Remarks::ends_of))]
pub(crate) fn ends_of(entry: &Entry) -> Option<&Range>
    ensures { option_copied result ≡ ends_of entry.now }
{
    if !may_stand(entry.relation) {
        return None;
    }
    if !may_have_value(entry.lack) {
        return None;
    }
    entry.range.as_ref()
}

fn may_stand(relation: Said) -> bool
    ensures { result ≡ may_stand relation }
{
    match relation {
        Said::Possible | Said::Undecided => true,
        Said::Impossible => false,
    }
}

fn may_have_value(lack: Option<SaidLack>) -> bool
    ensures { result ≡ may_have_value lack }
{
    match lack {
        Some(SaidLack::Always) => false,
        None | Some(SaidLack::Never | SaidLack::Sometimes | SaidLack::Undecided) => true,
    }
}

/// What is known of an end.
pub(crate) fn mark_text(mark: Mark) -> &'static str
    ensures { result.now ≡ mark_text mark }
{
    match mark {
        Mark::Exact => "exact",
        Mark::Outer => "outer",
    }
}

/// Why a block has no range.
pub(crate) fn word_for(relation: Said, lack: Option<SaidLack>) -> &'static str
    ensures { result.now ≡ word_for relation lack }
{
    match relation {
        Said::Possible => lack_word(lack),
        Said::Impossible => "impossible",
        Said::Undecided => "undecided",
    }
}

fn lack_word(lack: Option<SaidLack>) -> &'static str
    ensures { result.now ≡ lack_word lack }
{
    match lack {
        Some(SaidLack::Undecided) => "undecided",
        None | Some(SaidLack::Never | SaidLack::Sometimes | SaidLack::Always) => "no value",
    }
}
