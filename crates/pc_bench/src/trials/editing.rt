//! How many cuts an edit of a session makes.
ghost use Rattle.std.specs.Prelude.{IfOk};
ghost use Rattle.pc_session.specs.Sessions.{IsSession};

use crate::trials::numbers::read_number;
use crate::trouble::Trouble;
use pc_lang::{read_constraint, read_constraints};
use pc_rows::Rows;
use pc_schema::read_schema;
use pc_session::{Edit, Session};
use std::alloc::Global;

/// How many cuts it takes to add a rule (`with RULE`), to drop that at a place (`without PLACE`), or to drop a rule that was
/// added and to add it again (`again RULE`), where the constraints of a text are held.
pub(super) fn edited(
    alloc: Global,
    columns: &str,
    constraints: &str,
    what: &str,
    rest: &str,
) -> Result<String, Trouble> {
    let mut session = session_of(alloc, columns, constraints)?;
    match what {
        "with" => cuts_text(alloc, cuts_with(alloc, &mut session, rest)?),
        "without" => cuts_text(alloc, cuts_without(&mut session, read_number(rest)?)?),
        "again" => again(alloc, &mut session, rest),
        _ => Err(Trouble::Question),
    }
}

fn cuts_text(alloc: Global, cuts: u64) -> Result<String, Trouble> {
    Ok(format!(in alloc; "{cuts}")?)
}

/// A session without rows that holds the constraints of a text.
fn session_of(alloc: Global, columns: &str, constraints: &str) -> Result<Session, Trouble>
    ensures { IfOk result IsSession }
{
    let schema = read_schema(alloc, columns.as_bytes())?;
    let constraints = read_constraints(alloc, &schema, constraints.as_bytes())?;
    Ok(Session::begin(alloc, schema, Rows::new(alloc), constraints)?)
}

fn cuts_with(alloc: Global, session: &mut Session, text: &str) -> Result<u64, Trouble>
    requires session { IsSession session.old }
    ensures session { IsSession session.new }
{
    let held = session.constraints.as_slice();
    let rule = read_constraint(alloc, &session.schema, held, text, 1)?;
    Ok(session.edit(Edit::AddRule(rule))?)
}

fn cuts_without(session: &mut Session, at: u32) -> Result<u64, Trouble>
    requires session { IsSession session.old }
    ensures session { IsSession session.new }
{
    if session.constraints.len() <= at as usize {
        return Err(Trouble::Question);
    }
    Ok(session.edit(Edit::DropRule(at))?)
}

/// The cuts of dropping the rule and of adding it again, which leave the tree as it was.
fn again(alloc: Global, session: &mut Session, text: &str) -> Result<String, Trouble>
    requires session { IsSession session.old }
{
    let at = u32::try_from(session.constraints.len()).map_err(|_| Trouble::Question)?;
    let first = cuts_with(alloc, session, text)?;
    let nodes = session.tree.nodes.clone()?;
    let gone = cuts_without(session, at)?;
    let again = cuts_with(alloc, session, text)?;
    if first > 0 && session.tree.nodes == nodes {
        Ok(format!(in alloc; "{gone} and {again}")?)
    } else {
        Ok(format!(in alloc; "{gone} and {again} after {first}, another tree")?)
    }
}
