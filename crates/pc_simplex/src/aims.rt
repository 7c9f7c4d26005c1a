ghost use Rattle.std.specs.Prelude.{◌≡◌, ◌<◌, neg_ℤ, pos, nat_lt, cond, length, All, IsTrue, IfOk};
ghost use Rattle.pc_program_bound.specs.Sums.{int_at};
ghost use Rattle.pc_program_bound.specs.Allocation.{IsProgram, cells_of};
ghost use Rattle.pc_program_bound.specs.Bound.{IsFit};
ghost use Rattle.pc_simplex_tableau.specs.Numbers.{table};
ghost use Rattle.pc_simplex_tableau.specs.Tableau.{Columns};
ghost use Rattle.pc_simplex_tableau.specs.Conditions.{IsSized, AreFitNumbers};
ghost use Rattle.pc_simplex_tableau.specs.Relaxation.{columns_of, with_gains, freed, does_freed_fit};
ghost use Rattle.pc_simplex_tableau.specs.Standing.{basic_at};
ghost use Rattle.pc_simplex.specs.Aims.{gain_at, IsOver};

use pc_num::Memory;
use pc_program_bound::Program;
use pc_simplex_tableau::Tableau;
use std::alloc::Global;

/// Takes the gains as objective row.
pub(crate) fn with_gains(alloc: Global, p: &Program, tableau: Tableau) -> Result<Tableau, Memory>
    requires program { IsProgram p.now }
    requires gains { All IsFit p.now.gain }
    requires turned { length tableau.turned ≡ columns_of p.now }
    requires fits { AreFitNumbers tableau }
    ensures value { IfOk result (λ t. t ≡ with_gains p.now tableau) }
    ensures sized { IfOk result (λ t. (f : Columns) → f.count ≡ columns_of p.now → IsSized f tableau → IsSized f t) }
    ensures fits { IfOk result AreFitNumbers }
{
    let mut tableau = tableau;
    tableau.aim = gains(alloc, p, tableau.turned.as_slice())?;
    tableau.weight = 1;
    Ok(tableau)
}

#[tactic(auto, using(pc_simplex_tableau::proofs::Tables::table_steps))]
fn gains(alloc: Global, p: &Program, turned: &[bool]) -> Result<Vec<i128>, Memory>
    requires program { IsProgram p.now }
    requires gains { All IsFit p.now.gain }
    requires turned { length turned.now ≡ columns_of p.now }
    ensures { IfOk result (λ aim. aim.items ≡ table (columns_of p.now) (gain_at p.now turned.now)) }
{
    let mut aim = Vec::new(alloc);
    for (column, is_turned) in turned.iter().enumerate() {
        aim.push(gain_at(p, column, *is_turned))?;
    }
    Ok(aim)
}

fn gain_at(p: &Program, column: usize, is_turned: bool) -> i128
    requires program { IsProgram p.now }
    requires gains { All IsFit p.now.gain }
    ensures { result ≡ cond (nat_lt column (cells_of p.now)) (cond is_turned (neg_ℤ (int_at p.now.gain column)) (int_at p.now.gain column)) (pos 0) }
{
    let gains = p.gain.as_slice();
    if column >= gains.len() {
        return 0;
    }
    if is_turned {
        return -gains[column];
    }
    gains[column]
}

/// Frees the objective row of the basic columns, row by row. It answers false where a number does not fit, and the tableau is
/// then of no more use.
pub(crate) fn free_of_basics(tableau: &mut Tableau) -> bool
    requires rows { All (IsOver tableau.old.aim) tableau.old.rows }
    requires fits { AreFitNumbers tableau.old }
    ensures value { result ≡ does_freed_fit tableau.old }
    ensures freed { IsTrue result → tableau.new ≡ freed tableau.old }
    ensures sized { IsTrue result → (f : Columns) → IsSized f tableau.old → IsSized f tableau.new }
    ensures fits { IsTrue result → AreFitNumbers tableau.new }
{
    for at in 0..tableau.rows.len() {
        let basic = basic_at(tableau, at);
        if !tableau.free_aim(basic, at) {
            return false;
        }
    }
    true
}

/// The basic column of a row.
fn basic_at(tableau: &Tableau, at: usize) -> usize
    requires { at < length tableau.now.rows }
    ensures { result ≡ basic_at tableau.now at }
{
    tableau.rows[at].basic
}
