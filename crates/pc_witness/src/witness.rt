ghost use Rattle.std.specs.Prelude.{◌≡◌, ◌↔◌, ◌&&◌, IsTrue, nat_le};
ghost use Rattle.std.specs.List.{list_all};
ghost use Rattle.pc_model.specs.Possible.{IsPossible, is_covered};
ghost use Rattle.pc_model.specs.Runs.{AreRuns, rows_of};
ghost use Rattle.pc_witness.specs.Checks.{is_allowed, keeps_values, rows_under, is_met};

use pc_model::{Constraint, Row, Run, Schema};

/// Whether the runs stand for a list of rows that the constraints allow.
pub fn meets(schema: &Schema, constraints: &[Constraint], runs: &[Run]) -> bool
    ensures { IsTrue result ↔ (AreRuns runs.now × IsPossible schema.now constraints.now (rows_of runs.now)) }
{
    are_allowed(schema, constraints, runs) && are_met(constraints, runs)
}

fn are_allowed(schema: &Schema, constraints: &[Constraint], runs: &[Run]) -> bool
    ensures { result ≡ list_all (is_allowed schema.now constraints.now) runs.now }
{
    runs.iter().all(|run| is_allowed(schema, constraints, run))
}

// Whether the run stands for a row of the domain that is under some constraint.
fn is_allowed(schema: &Schema, constraints: &[Constraint], run: &Run) -> bool
    ensures { result ≡ is_allowed schema.now constraints.now run.now }
{
    1 <= run.times && schema.allows_row(&run.row) && is_covered(constraints, &run.row)
}

fn is_covered(constraints: &[Constraint], row: &Row) -> bool
    ensures { result ≡ is_covered constraints.now row.now }
{
    constraints
        .iter()
        .any(|constraint| constraint.speaks_of(constraints, row))
}

fn are_met(constraints: &[Constraint], runs: &[Run]) -> bool
    ensures { result ≡ list_all (λ constraint. is_met constraints.now constraint runs.now) constraints.now }
{
    constraints
        .iter()
        .all(|constraint| is_met(constraints, constraint, runs))
}

fn is_met(constraints: &[Constraint], constraint: &Constraint, runs: &[Run]) -> bool
    ensures { result ≡ is_met constraints.now constraint.now runs.now }
{
    all_keep_values(constraints, constraint, runs) && keep_count(constraints, constraint, runs)
}

fn all_keep_values(constraints: &[Constraint], constraint: &Constraint, runs: &[Run]) -> bool
    ensures { result ≡ list_all (keeps_values constraints.now constraint.now) runs.now }
{
    runs.iter()
        .all(|run| keeps_values(constraints, constraint, run))
}

// Whether the run's row is in the constraint's values, if the constraint speaks of it.
fn keeps_values(constraints: &[Constraint], constraint: &Constraint, run: &Run) -> bool
    ensures { result ≡ keeps_values constraints.now constraint.now run.now }
{
    !constraint.speaks_of(constraints, &run.row) || constraint.values.has(&run.row)
}

// Whether there are from `least` to `most` rows under the constraint. All of them may be more than a `u64`
// counts, so the loop leaves where it would pass `most`.
#[tactic(auto, using(crate::proofs::Counts::steps))]
fn keep_count(constraints: &[Constraint], constraint: &Constraint, runs: &[Run]) -> bool
    ensures { result ≡ (nat_le constraint.now.least (rows_under constraints.now constraint.now runs.now) && nat_le (rows_under constraints.now constraint.now runs.now) constraint.now.most) }
{
    let mut count: u64 = 0;
    for run in runs {
        if constraint.speaks_of(constraints, &run.row) {
            if run.times > constraint.most - count {
                return false;
            }
            count += run.times;
        }
    }
    constraint.least <= count
}
