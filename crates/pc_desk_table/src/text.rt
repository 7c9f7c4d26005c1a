ghost use Rattle.std.specs.Prelude.{◌≡◌, IfOk};
ghost use Rattle.pc_desk_table.specs.Texts.{shown};

use pc_list::Text;
use pc_num::Memory;
use std::alloc::Global;

/// The text of bytes, which are text already where the language wrote them.
pub fn shown(alloc: Global, bytes: &[u8]) -> Result<Text, Memory>
    ensures { IfOk result (λ text. text ≡ shown bytes.now) }
{
    Ok(Text::from_string(String::from_utf8_lossy(alloc, bytes)?))
}
