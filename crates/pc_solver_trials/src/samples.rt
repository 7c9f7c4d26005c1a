//! The relaxations of two programs, as the definitions compute them.
ghost use Rattle.std.specs.Prelude.{◌≡◌, pos, negsuc, ◌∷◌, [], Some};
ghost use Rattle.pc_simplex_tableau.specs.Relaxation.{ending, at_void};
ghost use Rattle.pc_solver_trials.specs.Samples.{vertex_of, triangle, triangle_steps, half, wanting};

// Half a row in each cell.
#[tactic(auto, unfolding(pc_simplex_tableau::specs::Numbers::table, pc_simplex_tableau::specs::Numbers::first_below, pc_simplex_tableau::specs::Numbers::gcd_within, pc_simplex_tableau::specs::Numbers::gcd, pc_simplex_tableau::specs::Numbers::common, pc_simplex_tableau::specs::Numbers::primitive, pc_simplex_tableau::specs::Numbers::combined, pc_simplex_tableau::specs::Numbers::does_combined_fit, pc_simplex_tableau::specs::Tableau::do_freed_rows_fit, pc_simplex_tableau::specs::Tableau::least_limit, pc_simplex_tableau::specs::Tableau::after_step, pc_simplex_tableau::specs::Tableau::does_way_fit, pc_simplex_tableau::specs::Tableau::run, pc_simplex_tableau::specs::Relaxation::freed_below, pc_simplex_tableau::specs::Relaxation::do_freed_below_fit, pc_program_bound::specs::Sums::sum_below))]
fn half_a_row_of_each()
    ensures { vertex_of triangle triangle.floor triangle.cap (ending triangle triangle.floor triangle.cap) ≡ Some (triangle_steps, record { by = pos 1 ∷ pos 1 ∷ pos 1 ∷ []; den = pos 2 }, half ∷ half ∷ half ∷ []) }
{}

// A row that cannot be.
#[tactic(auto, unfolding(pc_simplex_tableau::specs::Numbers::table, pc_simplex_tableau::specs::Numbers::first_below, pc_simplex_tableau::specs::Numbers::gcd_within, pc_simplex_tableau::specs::Numbers::gcd, pc_simplex_tableau::specs::Numbers::common, pc_simplex_tableau::specs::Numbers::primitive, pc_simplex_tableau::specs::Numbers::combined, pc_simplex_tableau::specs::Numbers::does_combined_fit, pc_simplex_tableau::specs::Tableau::do_freed_rows_fit, pc_simplex_tableau::specs::Tableau::least_limit, pc_simplex_tableau::specs::Tableau::after_step, pc_simplex_tableau::specs::Tableau::does_way_fit, pc_simplex_tableau::specs::Tableau::run, pc_simplex_tableau::specs::Relaxation::freed_below, pc_simplex_tableau::specs::Relaxation::do_freed_below_fit, pc_program_bound::specs::Sums::sum_below))]
fn a_row_that_cannot_be()
    ensures { ending wanting wanting.floor wanting.cap ≡ at_void (record { enters = 0; leaves = 0 } ∷ []) (record { by = negsuc 0 ∷ []; den = pos 1 }) }
{}
