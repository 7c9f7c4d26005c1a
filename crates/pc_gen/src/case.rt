ghost use Rattle.std.specs.Prelude.{◌≡◌, ◌≤◌, IfOk};
ghost use Rattle.pc_gen.specs.Generated.{generated_constraints, generated_queries, generated_schema, observed_rows};

use crate::constraint::draw_constraints;
use crate::draws::Draws;
use crate::rows::draw_rows;
use crate::schema::{generated_queries, generated_schema};
use pc_num::Memory;
use pc_rows::Case;
use std::alloc::Global;

/// A case that its seed determines: 100 observed rows for each unit of size, and eight constraints on lost rows. A
/// tenth as many hidden rows are drawn beside them, which the constraints are made to allow.
pub fn generate(alloc: Global, seed: u32, size: u32) -> Result<Case, Memory>
    requires some { 1 ≤ size }
    requires few { size ≤ 1000 }
    ensures schema { IfOk result (λ case. case.schema ≡ generated_schema) }
    ensures rows { IfOk result (λ case. case.rows ≡ observed_rows seed size) }
    ensures constraints { IfOk result (λ case. case.constraints ≡ generated_constraints seed size) }
    ensures queries { IfOk result (λ case. case.queries ≡ generated_queries) }
{
    let schema = generated_schema(alloc)?;
    let mut draws = Draws {
        state: u64::from(seed),
    };
    let rows = draw_rows(alloc, &mut draws, 100 * size)?;
    let hidden = draw_rows(alloc, &mut draws, 10 * size)?;
    let constraints = draw_constraints(alloc, &mut draws, &hidden)?;
    let queries = generated_queries(alloc, &schema)?;
    Ok(Case {
        schema,
        rows,
        constraints,
        queries,
    })
}
