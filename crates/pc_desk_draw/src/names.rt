ghost use Rattle.std.specs.Prelude.{◌≡◌};
ghost use Rattle.std.specs.List.{list_any};
ghost use Rattle.pc_desk_draw.specs.Names.{is_named, name_of, name_width, names_width, widest};

use pc_desk_table::{Entry, Group};
use unicode_width::UnicodeWidthStr;

/// The name of a group, or nothing.
pub(crate) fn name_of(group: &Option<Group>) -> &str
    ensures { result.now ≡ name_of group.now }
{
    match group {
        Some(group) => group.name.as_str(),
        None => "",
    }
}

/// How many columns the name of a group takes.
pub(crate) fn name_width(group: &Option<Group>) -> usize
    ensures { result ≡ name_width group.now }
{
    name_of(group).width()
}

/// How many columns the names of a picture take; nothing where it has none.
#[tactic(auto, unfolding(crate::specs::Names::names_width))]
pub(crate) fn names_width(entries: &[Entry]) -> Option<usize>
    ensures { result ≡ names_width entries.now }
{
    if has_names(entries) {
        return Some(widest(entries));
    }
    None
}

fn has_names(entries: &[Entry]) -> bool
    ensures { result ≡ list_any is_named entries.now }
{
    entries.iter().any(|entry| is_named(entry))
}

fn is_named(entry: &Entry) -> bool
    ensures { result ≡ is_named entry.now }
{
    entry.group.is_some()
}

#[tactic(auto, using(crate::proofs::Widths::steps))]
fn widest(entries: &[Entry]) -> usize
    ensures { result ≡ widest entries.now }
{
    let mut width = 0;
    for entry in entries {
        width = name_width(&entry.group).max(width);
    }
    width
}
