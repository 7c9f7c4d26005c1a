ghost use Rattle.std.specs.Prelude.{◌≡◌};
ghost use Rattle.pc_quantile.specs.Measure.{has_numbers};

use pc_agg_search::Problem;
use pc_lang::Quantile;

/// What a quantile is sought over: the query of the least number of the same rows with its cells, and the numbers of the
/// observed rows.
#[derive(Clone, Copy)]
pub(crate) struct Measure<'a> {
    pub problem: Problem<'a>,
    pub asked: &'a Quantile,
    pub seen: &'a [i64],
}

/// Whether rows were observed that the quantile is asked of.
pub(crate) fn is_observed(seen: &[i64]) -> bool
    ensures { result ≡ has_numbers seen.now }
{
    !seen.is_empty()
}
