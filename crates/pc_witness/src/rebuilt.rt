ghost use Rattle.std.specs.Prelude.{◌≡◌, length, IfOk};
ghost use Rattle.pc_model.specs.Runs.{runs_from};

use pc_list::Seq;
use pc_model::{Row, Run};
use pc_num::Memory;
use std::alloc::Global;

/// A run for each count above 0, of the row that stands at its place.
#[tactic(auto, using(crate::proofs::RunsFrom::steps))]
pub fn rebuild(alloc: Global, picks: &[Row], counts: &[u64]) -> Result<Seq<Run>, Memory>
    requires { length picks.now ≡ length counts.now }
    ensures { IfOk result (λ runs. runs ≡ runs_from picks.now counts.now) }
{
    let mut runs = Vec::new(alloc);
    for (place, row) in picks.iter().enumerate() {
        let times = counts[place];
        if times > 0 {
            let row = row.clone()?;
            runs.push(Run { times, row })?;
        }
    }
    Ok(Seq::from_vec(runs))
}
