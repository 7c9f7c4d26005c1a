ghost use Rattle.std.specs.Prelude.{◌≡◌, pos, ◌<ℤ◌};
ghost use Rattle.pc_num.specs.Fractions.{IsFrac};
ghost use Rattle.pc_proof.specs.Table.{ratio_of};
ghost use Rattle.pc_avg_ratio.specs.Fractional.{rows_with, IsFractional, IsLawful};
ghost use Rattle.pc_avg_ratio.specs.Steps.{IsRatioOf};

use crate::fractional::{Fractional, rows_with, sum_with};
use pc_list::Seq;
use pc_num::Frac;

/// Where the steps stand: counts and their ratio, a number of rows that counts of a greater ratio stay below, and how often
/// the steps may yet go on from what a spent search found.
#[derive(Debug, Drop)]
pub(crate) struct Standing {
    pub counts: Seq<u64>,
    pub ratio: Frac,
    pub limit: u64,
    pub tries: u32,
}

/// The ratio of counts, in lowest terms.
pub(crate) fn ratio_at(f: &Fractional, counts: &[u64]) -> Frac
    requires fractional { IsFractional f.now }
    requires lawful { IsLawful f.now counts.now }
    requires some { pos 0 <ℤ rows_with f.now counts.now }
    ensures lowest { IsFrac result }
    ensures ratio { IsRatioOf f.now (ratio_of result) counts.now }
{
    match Frac::new(sum_with(f, counts), rows_with(f, counts)) {
        Some(ratio) => ratio,
        None => unreachable!(),
    }
}

/// The steps stand at counts.
pub(crate) fn standing_at(f: &Fractional, counts: Seq<u64>, limit: u64, tries: u32) -> Standing
    requires fractional { IsFractional f.now }
    requires lawful { IsLawful f.now counts }
    requires some { pos 0 <ℤ rows_with f.now counts }
    ensures counts { result.counts ≡ counts }
    ensures limit { result.limit ≡ limit }
    ensures tries { result.tries ≡ tries }
    ensures lowest { IsFrac result.ratio }
    ensures ratio { IsRatioOf f.now (ratio_of result.ratio) counts }
{
    let ratio = ratio_at(f, counts.as_slice());
    Standing {
        counts,
        ratio,
        limit,
        tries,
    }
}
