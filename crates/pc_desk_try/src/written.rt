ghost use Rattle.std.specs.Prelude.{◌≡◌, ◌++◌, OnOk};
ghost use Rattle.pc_desk_try.specs.Written.{written_name};

use pc_lang_tokens::put_name;
use pc_model::{Constraint, When};
use pc_num::Memory;
use std::alloc::Global;

/// Appends the name of a constraint as the language writes it. One of the rows outside has the language's word for it.
pub fn put_written_name(
    alloc: Global,
    out: &mut Vec<u8>,
    constraint: &Constraint,
) -> Result<(), Memory>
    ensures written { OnOk result (out.new.items ≡ out.old.items ++ written_name constraint.now.when constraint.now.name) }
{
    match &constraint.when {
        When::Boxes(_) => put_name(alloc, out, constraint.name.as_str()),
        When::Outside => {
            out.extend_from_slice(b"outside")?;
            Ok(())
        }
    }
}
