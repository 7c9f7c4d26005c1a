ghost use Rattle.std.specs.Prelude.{◌≡◌, ◌<◌, IfOk, IfSome};
ghost use Rattle.pc_agg_search.specs.Asked.{query_for};

use pc_model::Query;
use pc_num::Memory;
use pc_proof::narrowed;
use std::alloc::Global;

/// The query without a group, over the part of its area that a name keeps.
pub(crate) fn query_for(alloc: Global, query: &Query, name: Option<u32>) -> Result<Query, Memory>
    requires { IfSome name (λ place. place < 128) }
    ensures { IfOk result (λ asked. asked ≡ query_for query.now name) }
{
    let chosen = narrowed(alloc, &query.chosen, query.group, name)?;
    Ok(Query {
        agg: query.agg,
        column: query.column,
        chosen,
        group: None,
    })
}
