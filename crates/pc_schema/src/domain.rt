ghost use Rattle.std.specs.Prelude.{◌≡◌, IfOk};
ghost use Rattle.pc_model.specs.Regions.{whole_region};
ghost use Rattle.pc_model.specs.WellFormed.{HaveFewNames};
ghost use Rattle.pc_schema.specs.Domain.{HoldsDomain};

use pc_model::{Region, Schema};
use pc_num::Memory;
use std::alloc::Global;

/// The region of the whole domain.
#[tactic(auto, using(crate::proofs::WholeDomain::holds_domain))]
pub fn whole(alloc: Global, schema: &Schema) -> Result<Region, Memory>
    requires { HaveFewNames schema.now.columns }
    ensures sides { IfOk result (λ region. region.sides ≡ (whole_region schema.now).sides) }
    ensures domain { IfOk result (HoldsDomain schema.now) }
{
    schema.whole(alloc)
}
