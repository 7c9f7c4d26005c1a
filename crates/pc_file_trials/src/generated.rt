ghost use Rattle.std.specs.Prelude.{◌≡◌, ◌≤◌, length, All, IfOk};
ghost use Rattle.pc_gen.specs.Draws.{draw};

use pc_gen::generate;
use pc_num::Memory;
use pc_rows::Case;
use std::alloc::Global;
use std::test::Fail;

#[tactic(auto, using(pc_gen::proofs::DrawnRows::rows_wide))]
fn generated(alloc: Global, seed: u32, size: u32) -> Result<Case, Memory>
    requires some { 1 ≤ size }
    requires few { size ≤ 1000 }
    ensures wide { IfOk result (λ case. All (λ row. length row.cells ≡ 3) case.rows) }
{
    generate(alloc, seed, size)
}

// The first number of seed 0 before its remainder is taken, which another program gives. What is drawn is what the
// definition gives.
#[tactic(auto, unfolding(pc_gen::specs::Draws::draw, pc_gen::specs::Draws::next_state))]
fn drawn_first()
    ensures whole { draw 4294967295 0 ≡ 167951807 }
    ensures of_four { draw 4 0 ≡ 3 }
{}

// The first row of seed 0, below, begins with the number below four.
#[test]
fn first_draw(rt: HostRuntime) -> Result<(), Fail> {
    drawn_first();
    let case = generated(rt.alloc(), 0, 1)?;
    assert!(rt; 0 < case.rows.count());
    assert_eq!(rt; case.rows.cell(0, 0), 3);
    Ok(())
}
