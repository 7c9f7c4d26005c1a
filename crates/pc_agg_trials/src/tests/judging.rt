//! Compares answers with what was found by hand or by going over all relations.
use super::asking::{Case, Outcome};
use pc_model::{Agg, Run, greatest_of, least_of};
use pc_num::Frac;
use pc_proof::{End, Lack, Mark, Relation};
use pc_witness::{fold_runs, meets, total_times};

/// A range, and none where no list is possible.
pub(super) type Range = Option<(i128, i128)>;

impl Case {
    /// Whether the runs stand for a possible list of rows.
    pub(super) fn meets(&self, runs: &[Run]) -> bool {
        meets(&self.schema, self.constraints.as_slice(), runs)
    }

    /// What the observed rows come to with those of the runs.
    pub(super) fn value_with(&self, runs: &[Run]) -> Option<i128> {
        total_times(runs)?;
        let folded = fold_runs(&self.query, runs);
        match self.query.agg {
            Agg::Count => Some(self.seen.count as i128 + folded.count as i128),
            Agg::Sum => self.seen.sum.checked_add(folded.sum),
            Agg::Min => least_with(self.seen.least, folded.least),
            Agg::Max => greatest_with(self.seen.greatest, folded.greatest),
            Agg::Avg => None,
        }
    }

    /// Whether the end is at the number, and its runs are possible and reach it.
    fn is_reached(&self, end: &End, number: i128) -> bool {
        match &end.mark {
            Mark::Exact(runs) => is_at(end.value, number) && self.reach(runs.as_slice(), number),
            Mark::Outer => false,
        }
    }

    fn reach(&self, runs: &[Run], number: i128) -> bool {
        self.meets(runs) && self.value_with(runs) == Some(number)
    }

    /// Whether the end lies beyond the number, or is reached there.
    fn is_beyond(&self, end: &End, number: i128, is_low: bool) -> bool {
        match &end.mark {
            Mark::Exact(_) => self.is_reached(end, number),
            Mark::Outer if is_low => end.value.num <= number,
            Mark::Outer => end.value.num >= number,
        }
    }
}

/// The least of the observed numbers and of those of lost rows.
fn least_with(seen: Option<i64>, lost: Option<i64>) -> Option<i128> {
    let least = lost.map_or(seen, |number| Some(least_of(seen, number)));
    least.map(i128::from)
}

/// The greatest of the observed numbers and of those of lost rows.
fn greatest_with(seen: Option<i64>, lost: Option<i64>) -> Option<i128> {
    let greatest = lost.map_or(seen, |number| Some(greatest_of(seen, number)));
    greatest.map(i128::from)
}

fn is_at(value: Frac, number: i128) -> bool {
    value.num == number && value.den == 1
}

fn is_silent(lack: &Lack) -> bool {
    matches!(lack, Lack::Silent)
}

fn is_outer(mark: &Mark) -> bool {
    matches!(mark, Mark::Outer)
}

impl Outcome {
    /// Whether `settle` says the same of the relation, or leaves open what the ends found. Both are silent of a lack of values.
    pub(super) fn is_settled(&self) -> bool {
        is_silent(&self.answer.lack) && is_silent(&self.settled.lack) && self.is_relation_settled()
    }

    pub(super) fn is_relation_settled(&self) -> bool {
        match &self.settled.relation {
            Relation::Possible(runs) => self.is_possible() && self.case.meets(runs.as_slice()),
            Relation::Impossible(_) => self.is_impossible(),
            Relation::Undecided => !self.is_impossible() || !self.is_possible(),
        }
    }

    pub(super) fn is_possible(&self) -> bool {
        match &self.answer.relation {
            Relation::Possible(runs) => self.case.meets(runs.as_slice()),
            Relation::Impossible(_) | Relation::Undecided => false,
        }
    }

    fn is_impossible(&self) -> bool {
        match &self.answer.relation {
            Relation::Impossible(_) => self.answer.ends.is_none(),
            Relation::Possible(_) | Relation::Undecided => false,
        }
    }

    /// Whether both ends are outer.
    pub(super) fn is_open(&self) -> bool {
        match &self.answer.ends {
            Some((low, high)) => is_outer(&low.mark) && is_outer(&high.mark),
            None => false,
        }
    }

    fn is_undecided(&self) -> bool {
        matches!(&self.answer.relation, Relation::Undecided) && self.is_open()
    }

    fn contains(&self, low: i128, high: i128) -> bool {
        match &self.answer.ends {
            Some((first, last)) => {
                self.case.is_beyond(first, low, true) && self.case.is_beyond(last, high, false)
            }
            None => false,
        }
    }

    /// Whether the answer holds for the true range.
    pub(super) fn holds_for(&self, range: Range) -> bool {
        match range {
            Some((low, high)) => {
                self.contains(low, high) && (self.is_possible() || self.is_undecided())
            }
            None => self.is_impossible() || self.is_undecided(),
        }
    }

    /// Whether both ends are reached at the numbers.
    pub(super) fn has_ends(&self, low: i128, high: i128) -> bool {
        match &self.answer.ends {
            Some((first, last)) => {
                self.case.is_reached(first, low) && self.case.is_reached(last, high)
            }
            None => false,
        }
    }

    /// Whether the answer is the true range.
    pub(super) fn is_exactly(&self, range: Range) -> bool {
        match range {
            Some((low, high)) => self.is_possible() && self.has_ends(low, high),
            None => self.is_impossible(),
        }
    }

    pub(super) fn has_low(&self, low: i128) -> bool {
        match &self.answer.ends {
            Some((first, _)) => self.case.is_reached(first, low),
            None => false,
        }
    }

    /// Whether the high end is at the number, with either mark.
    pub(super) fn has_high(&self, high: i128) -> bool {
        match &self.answer.ends {
            Some((_, last)) => last.value.num == high && self.case.is_beyond(last, high, false),
            None => false,
        }
    }

    /// Whether the high end is outer, at the number.
    pub(super) fn is_outer_at(&self, high: i128) -> bool {
        match &self.answer.ends {
            Some((_, last)) => last.value.num == high && is_outer(&last.mark),
            None => false,
        }
    }

    /// The runs that reach the high end.
    pub(super) fn high_runs(&self) -> Option<&[Run]> {
        match &self.answer.ends {
            Some((_, end)) => exact_runs(&end.mark),
            None => None,
        }
    }

    /// Whether the relation is possible with no lost row.
    pub(super) fn loses_nothing(&self) -> bool {
        match &self.settled.relation {
            Relation::Possible(runs) => runs.is_empty(),
            Relation::Impossible(_) | Relation::Undecided => false,
        }
    }
}

fn exact_runs(mark: &Mark) -> Option<&[Run]> {
    match mark {
        Mark::Exact(runs) => Some(runs.as_slice()),
        Mark::Outer => None,
    }
}

pub(super) fn all_have(runs: &[Run], column: usize, number: i64) -> bool {
    runs.iter().all(|run| run.row.cells.as_slice().get(column) == Some(&number))
}
