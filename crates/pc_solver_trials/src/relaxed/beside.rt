//! Whether a relaxation is what the steps over whole rows end in.
use super::whole::End;
use pc_num::Frac;
use pc_program_bound::Program;
use pc_simplex::Relaxed;
use pc_simplex_tableau::Tableau;

/// Whether the relaxation is what the steps end in; where a bound is too wide it tells these steps.
pub(super) fn is_end(
    p: &Program,
    floor: &[u64],
    cap: &[u64],
    relaxed: &Relaxed,
    end: &End,
) -> bool {
    match relaxed {
        Relaxed::Vertex { point, mult } => match end {
            End::Vertex(_steps, tableau) => {
                mult.den == tableau.weight
                    && has_entries(p, tableau, mult.by.as_slice())
                    && has_counts(tableau, floor, cap, point.as_slice())
            }
            _ => false,
        },
        Relaxed::Void { mult } => mult.den == 1 && is_void(p, mult.by.as_slice(), end),
        Relaxed::Wide { steps } => match end {
            End::Vertex(taken, _tableau) => taken == steps,
            End::Wide(taken) => taken == steps,
            _ => false,
        },
        Relaxed::Stalled { steps } => match end {
            End::Stalled(taken) => taken == steps,
            _ => false,
        },
    }
}

fn is_void(p: &Program, by: &[i128], end: &End) -> bool {
    match end {
        End::Void(_steps, tableau) => has_entries(p, tableau, by),
        End::Overfull(constraint) => is_unit(by, *constraint),
        _ => false,
    }
}

fn is_unit(by: &[i128], place: usize) -> bool {
    for (other, number) in by.iter().enumerate() {
        if *number != if other == place { 1 } else { 0 } {
            return false;
        }
    }
    true
}

/// Whether these are the multipliers that the slacks' entries in the objective row give.
fn has_entries(p: &Program, tableau: &Tableau, by: &[i128]) -> bool {
    for (place, number) in by.iter().enumerate() {
        let slack = p.masks.len().saturating_add(place);
        let entry = tableau.aim.get(slack).copied().unwrap_or(0);
        let is_turned = tableau.turned.get(slack).copied().unwrap_or(false);
        if *number
            != if is_turned {
                entry
            } else {
                entry.saturating_neg()
            }
        {
            return false;
        }
    }
    by.len() == p.least.len()
}

fn has_counts(tableau: &Tableau, floor: &[u64], cap: &[u64], point: &[Frac]) -> bool {
    for (cell, count) in point.iter().enumerate() {
        let is_turned = tableau.turned.get(cell).copied().unwrap_or(false);
        let low = floor.get(cell).copied().unwrap_or(0);
        let high = cap.get(cell).copied().unwrap_or(0);
        let over = distance(count, if is_turned { high } else { low }, is_turned);
        if !stands_at(tableau, cell, over, count.den) {
            return false;
        }
    }
    point.len() == floor.len()
}

/// How far a count is above an end, or below it, times its denominator.
fn distance(count: &Frac, end: u64, is_below: bool) -> i128 {
    let whole = count.den.saturating_mul(i128::from(end));
    if is_below {
        whole.saturating_sub(count.num)
    } else {
        count.num.saturating_sub(whole)
    }
}

/// Whether a column is at that fraction: in the row that it is basic in, or at 0.
fn stands_at(tableau: &Tableau, column: usize, over: i128, under: i128) -> bool {
    for row in tableau.rows.iter() {
        if row.basic == column {
            let value = row.numbers.get(tableau.aim.len()).copied().unwrap_or(0);
            let entry = row.numbers.get(column).copied().unwrap_or(0);
            return entry > 0 && over.saturating_mul(entry) == under.saturating_mul(value);
        }
    }
    over == 0
}
