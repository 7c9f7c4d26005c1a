//! Compares answers of least and greatest numbers with what was found by going over all relations.
use super::asking::{Case, Outcome};
use pc_model::{Agg, Run};
use pc_proof::{AlwaysBy, End, Lack, NeverBy, Proof};

/// What is true of a least or a greatest number: no list of lost rows is possible, none gives a value, all give one, or
/// some do; then the low and the high end of the values.
#[derive(Clone, Copy)]
pub(super) enum Truth {
    Impossible,
    Always,
    Never(i128, i128),
    Sometimes(i128, i128),
}

impl Truth {
    fn ends(self) -> Option<(i128, i128)> {
        match self {
            Truth::Impossible | Truth::Always => None,
            Truth::Never(low, high) | Truth::Sometimes(low, high) => Some((low, high)),
        }
    }

    fn is_impossible(self) -> bool {
        matches!(self, Truth::Impossible)
    }

    /// Whether each list gives a value. So it is of no list.
    fn never_lacks(self) -> bool {
        matches!(self, Truth::Never(_, _))
    }

    fn always_lacks(self) -> bool {
        matches!(self, Truth::Always)
    }

    fn sometimes_lacks(self) -> bool {
        matches!(self, Truth::Sometimes(_, _))
    }
}

impl Case {
    /// Whether some of the observed rows are chosen.
    fn is_seen(&self) -> bool {
        self.seen.count > 0
    }

    fn has_no_value(&self, runs: &[Run]) -> bool {
        self.meets(runs) && self.value_with(runs).is_none()
    }

    fn has_value(&self, runs: &[Run]) -> bool {
        self.meets(runs) && self.value_with(runs).is_some()
    }

    /// Observed rows show that there is always a value, and else a tree does.
    fn is_never_by(&self, by: &NeverBy) -> bool {
        match by {
            NeverBy::Rows => self.is_seen(),
            NeverBy::Tree(_) => !self.is_seen(),
        }
    }

    /// Whether the lack is the true one, with lists of both kinds where it is there sometimes.
    fn is_lack(&self, lack: &Lack, truth: Truth) -> bool {
        match lack {
            Lack::Silent => truth.is_impossible(),
            Lack::Never(by) => truth.never_lacks() && self.is_never_by(by),
            Lack::Sometimes { without, with } => {
                truth.sometimes_lacks()
                    && self.has_no_value(without.as_slice())
                    && self.has_value(with.as_slice())
            }
            Lack::Always(by) => truth.always_lacks() && is_by_tree(by),
            Lack::Undecided => false,
        }
    }

    /// Whether the lack is the true one or open, or says something of no list.
    fn holds_lack(&self, lack: &Lack, truth: Truth) -> bool {
        match lack {
            Lack::Undecided => true,
            Lack::Never(_) | Lack::Always(_) if truth.is_impossible() => true,
            _ => self.is_lack(lack, truth),
        }
    }

    /// The number of the observed rows.
    fn seen_number(&self) -> Option<i128> {
        match self.query.agg {
            Agg::Min => self.seen.least.map(i128::from),
            Agg::Max => self.seen.greatest.map(i128::from),
            _ => None,
        }
    }

    /// Whether the end that the observed rows bound is shown by them where it stands at their number, and else by a tree.
    fn is_near_shown(&self, end: &End) -> bool {
        let stays = self.seen_number() == Some(end.value.num);
        match &end.proof {
            Proof::Rows => stays,
            Proof::Tree(_) => !stays,
            _ => false,
        }
    }

    /// Whether both ends are shown as they should be. Observed rows bound the high end of a least number.
    fn are_shown(&self, low: &End, high: &End) -> bool {
        match self.query.agg {
            Agg::Min => is_tree(&low.proof) && self.is_near_shown(high),
            _ => is_tree(&high.proof) && self.is_near_shown(low),
        }
    }
}

fn is_tree(proof: &Proof) -> bool {
    matches!(proof, Proof::Tree(_))
}

fn is_by_tree(by: &AlwaysBy) -> bool {
    matches!(by, AlwaysBy::Tree(_))
}

impl Outcome {
    fn are_ends_shown(&self) -> bool {
        match &self.answer.ends {
            Some((low, high)) => self.case.are_shown(low, high),
            None => true,
        }
    }

    /// Whether `settle` and the answer say the truth of the lack, and `settle` the same of the relation.
    fn is_true_lack(&self, truth: Truth) -> bool {
        self.case.is_lack(&self.settled.lack, truth)
            && self.case.is_lack(&self.answer.lack, truth)
            && self.is_relation_settled()
    }

    /// Whether the answer is the truth.
    pub(super) fn is_truth(&self, truth: Truth) -> bool {
        self.is_true_lack(truth) && self.are_ends_shown() && self.are_true_ends(truth)
    }

    fn are_true_ends(&self, truth: Truth) -> bool {
        match truth.ends() {
            Some((low, high)) => self.is_possible() && self.has_ends(low, high),
            None => self.answer.ends.is_none() && self.is_possible() != truth.is_impossible(),
        }
    }

    /// Whether what `settle` and the answer say of the lack holds, and `settle` says the same of the relation.
    fn holds_as_lack(&self, truth: Truth) -> bool {
        self.case.holds_lack(&self.settled.lack, truth)
            && self.case.holds_lack(&self.answer.lack, truth)
            && self.is_relation_settled()
    }

    /// Whether the answer holds for what is true.
    pub(super) fn holds_for_truth(&self, truth: Truth) -> bool {
        self.holds_as_lack(truth) && self.are_ends_shown() && self.hold_ends(truth)
    }

    fn hold_ends(&self, truth: Truth) -> bool {
        match truth.ends() {
            Some((low, high)) => self.holds_for(Some((low, high))),
            None if truth.is_impossible() => self.holds_for(None),
            None => self.answer.ends.is_none() || self.is_open(),
        }
    }
}
