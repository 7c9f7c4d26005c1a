ghost use Rattle.std.specs.Prelude.{◌≡◌, IfOk};

use pc_desk_table::Title;
use pc_list::Text;
use pc_num::Memory;
use std::alloc::Global;

/// The title of a column.
pub(crate) fn title(alloc: Global, name: &str, right: bool) -> Result<Title, Memory>
    ensures { IfOk result (λ title. title ≡ record { name = name.now; right = right }) }
{
    let name = Text::from_text(alloc, name)?;
    Ok(Title { name, right })
}
