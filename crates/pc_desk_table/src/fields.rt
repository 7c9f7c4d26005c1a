ghost use Rattle.std.specs.Prelude.{◌≡◌, IfOk};
ghost use Rattle.pc_desk_table.specs.Table.{group_column, group_name, lack_field, line_text, observed_text};

use crate::entry::{Group, SaidLack, Value};
use crate::names::lack_text;
use pc_list::Text;
use pc_num::Memory;
use std::alloc::Global;

/// The line of a question in decimal, or nothing.
pub(crate) fn line_text(alloc: Global, line: Option<u64>) -> Result<Text, Memory>
    ensures { IfOk result (λ text. text ≡ line_text line) }
{
    match line {
        Some(line) => Ok(Text::from_string(format!(in alloc; "{line}")?)),
        None => Ok(Text::from_string(String::new(alloc))),
    }
}

pub(crate) fn group_column(group: &Option<Group>) -> &str
    ensures { result.now ≡ group_column group.now }
{
    match group {
        Some(group) => group.column.as_str(),
        None => "",
    }
}

pub(crate) fn group_name(group: &Option<Group>) -> &str
    ensures { result.now ≡ group_name group.now }
{
    match group {
        Some(group) => group.name.as_str(),
        None => "",
    }
}

pub(crate) fn lack_field<'x>(lack: Option<SaidLack>) -> &'x str
    ensures { result.now ≡ lack_field lack }
{
    match lack {
        Some(lack) => lack_text(lack),
        None => "",
    }
}

pub(crate) fn observed_text(observed: &Option<Value>) -> &str
    ensures { result.now ≡ observed_text observed.now }
{
    match observed {
        Some(value) => value.text.as_str(),
        None => "",
    }
}
