ghost use Rattle.std.specs.Prelude.{◌+◌, ◌<◌, ◌^◌, length};
ghost use Rattle.pc_proof.specs.Form.{IsFormedTree};
ghost use Rattle.pc_check_rules.specs.Fractions.{IsMeasured};
ghost use Rattle.pc_check_rules.specs.Scene.{AreLimited};
ghost use Rattle.pc_check_rules.specs.Programs.{chosen_program, end_program, even_program};
ghost use Rattle.pc_check_rules.specs.Findings.{IsVerdictIn};

use crate::extreme::Extreme;
use crate::halt::Halt;
use crate::programs::{chosen_program, even_program, program_towards};
use crate::scene::Scene;
use crate::walk::judge_tree;
use pc_model::Tree;
use pc_num::Frac;
use std::alloc::Global;

/// The bound that a search tree shows of the program that shows a value to be an end.
pub(crate) fn judge_towards(
    alloc: Global,
    scene: &Scene<'_>,
    extreme: Extreme,
    line: u64,
    value: &Frac,
    tree: &Tree,
) -> Result<Option<i128>, Halt>
    requires limited { AreLimited scene.now.constraints.now }
    requires measured { IsMeasured value.now }
    requires formed { IsFormedTree tree.now }
    requires few_lines { line + length tree.now.nodes < 2 ^ 64 }
    ensures { IsVerdictIn scene.now line (end_program extreme scene.now.agg value.now) tree.now result }
{
    let program = program_towards(alloc, scene, extreme, value)?;
    judge_tree(alloc, &program, tree.nodes.as_slice(), line)
}

/// The bound that a search tree shows of the program with the same gain for each cell.
pub(crate) fn judge_even(
    alloc: Global,
    scene: &Scene<'_>,
    gain: i128,
    line: u64,
    tree: &Tree,
) -> Result<Option<i128>, Halt>
    requires limited { AreLimited scene.now.constraints.now }
    requires formed { IsFormedTree tree.now }
    requires few_lines { line + length tree.now.nodes < 2 ^ 64 }
    ensures { IsVerdictIn scene.now line (even_program gain) tree.now result }
{
    let program = even_program(alloc, scene, gain)?;
    judge_tree(alloc, &program, tree.nodes.as_slice(), line)
}

/// The bound that a search tree shows of the program with a gain for each chosen cell.
pub(crate) fn judge_chosen(
    alloc: Global,
    scene: &Scene<'_>,
    gain: i128,
    line: u64,
    tree: &Tree,
) -> Result<Option<i128>, Halt>
    requires limited { AreLimited scene.now.constraints.now }
    requires formed { IsFormedTree tree.now }
    requires few_lines { line + length tree.now.nodes < 2 ^ 64 }
    ensures { IsVerdictIn scene.now line (chosen_program gain) tree.now result }
{
    let program = chosen_program(alloc, scene, gain)?;
    judge_tree(alloc, &program, tree.nodes.as_slice(), line)
}
