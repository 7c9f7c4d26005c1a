ghost use Rattle.std.specs.Prelude.{◌≡◌, cond, Some};
ghost use Rattle.std.specs.Int.{int_max, int_min};
ghost use Rattle.pc_model.specs.Folds.{better};
ghost use Rattle.pc_check_rules.specs.Shown.{greatest_on, least_on};

use crate::cells::GatheredCell;
use crate::scene::Scene;
use pc_model::{greatest_of, least_of};

/// The greatest number that a row can have: of those observed and of the chosen cells.
#[tactic(auto, using(crate::proofs::Outermost::greatest_whole))]
pub(crate) fn greatest_number(scene: &Scene<'_>) -> Option<i64>
    ensures { result ≡ greatest_on scene.now.cells.now scene.now.seen.greatest }
{
    let mut greatest = scene.seen.greatest;
    for cell in scene.cells {
        greatest = greater_with(greatest, cell);
    }
    greatest
}

fn greater_with(greatest: Option<i64>, cell: &GatheredCell) -> Option<i64>
    ensures { result ≡ cond cell.now.chosen (Some (better int_max greatest cell.now.high)) greatest }
{
    if !cell.chosen {
        return greatest;
    }
    Some(greatest_of(greatest, cell.high))
}

/// The least number that a row can have.
#[tactic(auto, using(crate::proofs::Outermost::least_whole))]
pub(crate) fn least_number(scene: &Scene<'_>) -> Option<i64>
    ensures { result ≡ least_on scene.now.cells.now scene.now.seen.least }
{
    let mut least = scene.seen.least;
    for cell in scene.cells {
        least = lesser_with(least, cell);
    }
    least
}

fn lesser_with(least: Option<i64>, cell: &GatheredCell) -> Option<i64>
    ensures { result ≡ cond cell.now.chosen (Some (better int_min least cell.now.low)) least }
{
    if !cell.chosen {
        return least;
    }
    Some(least_of(least, cell.low))
}
