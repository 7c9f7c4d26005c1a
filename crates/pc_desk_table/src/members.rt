ghost use Rattle.std.specs.Prelude.{◌≡◌, IfOk};
ghost use Rattle.serde_json.specs.Data.{null, put as put_member, string};
ghost use Rattle.serde_json.specs.View.{members_view, view};

use pc_num::Memory;
use serde_json::{Map, Value, put};
use std::alloc::Global;

/// The members of an object that is being built.
pub(crate) type Members = Map<String, Value>;

/// Puts a value to a name; where the name has one already, that goes.
pub(crate) fn with_value(
    alloc: Global,
    members: Members,
    name: &str,
    value: Value,
) -> Result<Members, Memory>
    ensures { IfOk result (λ new. members_view new.entries
        ≡ put_member name.now (view value) (members_view members.entries)) }
{
    let mut members = members;
    put(&mut members, alloc, name, value)?;
    Ok(members)
}

pub(crate) fn with_text(
    alloc: Global,
    members: Members,
    name: &str,
    text: &str,
) -> Result<Members, Memory>
    ensures { IfOk result (λ new. members_view new.entries
        ≡ put_member name.now (string text.now) (members_view members.entries)) }
{
    let value = Value::try_from_str(alloc, text)?;
    with_value(alloc, members, name, value)
}

pub(crate) fn with_null(alloc: Global, members: Members, name: &str) -> Result<Members, Memory>
    ensures { IfOk result (λ new. members_view new.entries
        ≡ put_member name.now null (members_view members.entries)) }
{
    with_value(alloc, members, name, Value::Null)
}
