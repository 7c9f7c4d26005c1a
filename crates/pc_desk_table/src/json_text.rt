ghost use Rattle.std.specs.Prelude.{◌≡◌, Some, IfOk};
ghost use Rattle.serde_json.specs.Read.{read};
ghost use Rattle.serde_json.specs.View.{view};
ghost use Rattle.pc_desk_table.specs.Json.{data_of, json_text};

use crate::entry::Entry;
use crate::entry_data::entry_data;
use pc_num::Memory;
use serde_json::Value;
use std::alloc::Global;

/// What is shown, as JSON on one line: an array with an object for each entry, in their order.
pub fn json_of(alloc: Global, entries: &[Entry]) -> Result<Vec<u8>, Memory>
    ensures text { IfOk result (λ text. text.items ≡ json_text entries.now) }
    ensures reads_back { IfOk result (λ text. read text.items ≡ Some (data_of entries.now)) }
{
    let data = data_of(alloc, entries)?;
    let mut text = data.to_vec(alloc)?;
    text.push(b'\n')?;
    Ok(text)
}

#[tactic(auto, using(std::proofs::lemmas::List::map_more), unfolding(crate::specs::Json::data_of))]
fn data_of(alloc: Global, entries: &[Entry]) -> Result<Value, Memory>
    ensures { IfOk result (λ value. view value ≡ data_of entries.now) }
{
    let mut values = Vec::new(alloc);
    for entry in entries {
        let value = entry_data(alloc, entry)?;
        values.push(value)?;
    }
    Ok(Value::Array(values))
}
