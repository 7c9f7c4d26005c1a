ghost use Rattle.std.specs.Prelude.{◌≡◌, ◌<◌};
ghost use Rattle.pc_program_bound.specs.Sums.{int_at};
ghost use Rattle.pc_program_bound.specs.Allocation.{cells_of, IsProgram};
ghost use Rattle.pc_program.specs.Settled.{is_in};

use pc_model::has_bit;
use pc_program_bound::Program;

/// Whether a cell is in a constraint.
pub(crate) fn is_in(p: &Program, cell: usize, constraint: usize) -> bool
    requires there { cell < cells_of p.now }
    requires few { constraint < 32 }
    ensures { result ≡ is_in p.now cell constraint }
{
    has_bit(u128::from(p.masks.as_slice()[cell]), constraint)
}

/// What a row of a cell is worth.
pub(crate) fn gain_of(p: &Program, cell: usize) -> i128
    requires program { IsProgram p.now }
    requires there { cell < cells_of p.now }
    ensures { result ≡ int_at p.now.gain cell }
{
    p.gain.as_slice()[cell]
}
