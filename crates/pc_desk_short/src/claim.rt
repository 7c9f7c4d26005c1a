ghost use Rattle.std.specs.Prelude.{◌≡◌, ◌<◌, ◌^◌, IfOk, length};
ghost use Rattle.pc_desk_short.specs.Shortage.{claim_of, claims_of, is_claimed, limit_of, total_of};

use pc_list::Seq;
use pc_model::Constraint;
use pc_num::Memory;
use std::alloc::Global;

/// A constraint's part in a shortage: so many times its limit.
#[derive(Clone, Copy, Debug, Drop)]
pub struct Claim {
    pub place: usize,
    pub times: u128,
    pub limit: u64,
}

/// Which number of a constraint: the rows that it needs, or those that it has room for.
#[derive(Clone, Copy, Debug)]
pub(crate) enum Limit {
    Least,
    Most,
}

/// The constraints that claim this limit, in their order.
pub(crate) fn claims_of(
    alloc: Global,
    limit: Limit,
    constraints: &[Constraint],
    weights: &[i128],
) -> Result<Seq<Claim>, Memory>
    requires { length weights.now ≡ length constraints.now }
    ensures { IfOk result (λ claims. claims ≡ claims_of limit constraints.now weights.now) }
{
    let mut found = Vec::new(alloc);
    for (place, constraint) in constraints.iter().enumerate() {
        let weight = weights[place];
        if is_claimed(limit, weight) {
            found.push(claim_of(limit, place, weight, constraint))?;
        }
    }
    Ok(Seq::from_vec(found))
}

fn is_claimed(limit: Limit, weight: i128) -> bool
    ensures { result ≡ is_claimed limit weight }
{
    match limit {
        Limit::Least => weight < 0,
        Limit::Most => weight > 0,
    }
}

fn claim_of(limit: Limit, place: usize, weight: i128, constraint: &Constraint) -> Claim
    ensures { result ≡ claim_of limit place weight constraint.now }
{
    Claim {
        place,
        times: weight.unsigned_abs(),
        limit: limit_of(limit, constraint),
    }
}

fn limit_of(limit: Limit, constraint: &Constraint) -> u64
    ensures { result ≡ limit_of limit constraint.now }
{
    match limit {
        Limit::Least => constraint.least,
        Limit::Most => constraint.most,
    }
}

/// How many rows claims are of.
pub(crate) fn total_of(claims: &[Claim]) -> u128
    requires { total_of claims.now < 2 ^ 128 }
    ensures { result ≡ total_of claims.now }
{
    let mut total = 0;
    for claim in claims {
        total += claim.times * u128::from(claim.limit);
    }
    total
}
