ghost use Rattle.std.specs.Prelude.{◌≡◌, ◌*◌, IfOk};
ghost use Rattle.pc_desk_try.specs.Trials.{is_kept, is_kept_by, is_within, name_of, trial_of, tried_by, tried_each};

use crate::counts::{Counts, counts_of, under_none};
use pc_list::{Seq, Text};
use pc_model::{Constraint, When};
use pc_num::Memory;
use pc_rows::Rows;
use std::alloc::Global;

const MILLION: u64 = 1_000_000;

/// What a constraint comes to over a table, and whether the rows that it speaks of are as many as it allows.
#[derive(Debug, Drop)]
pub struct Tried {
    pub name: Text,
    pub counts: Counts,
    pub least: u64,
    pub most: u64,
    pub within: bool,
}

/// What constraints come to, each of them, and how many rows none of them speaks of.
#[derive(Debug, Drop)]
pub struct Trial {
    pub each: Seq<Tried>,
    pub under_none: u64,
}

impl Trial {
    /// Whether no row breaks a constraint, and each speaks of as many as it allows.
    pub fn is_kept(&self) -> bool
        ensures { result ≡ is_kept self.now }
    {
        self.each.as_slice().iter().all(|tried| tried.is_kept())
    }
}

impl Tried {
    fn is_kept(&self) -> bool
        ensures { result ≡ is_kept_by self.now }
    {
        self.counts.broken == 0 && self.within
    }
}

/// Holds constraints against rows. Before it is compared with limits, each number of rows is multiplied by `scale` millionths.
pub fn try_rows(
    alloc: Global,
    scale: u64,
    constraints: &[Constraint],
    rows: &Rows,
) -> Result<Trial, Memory>
    ensures counts { IfOk result (λ trial. trial ≡ trial_of scale constraints.now rows.now) }
{
    Ok(Trial {
        each: tried_each(alloc, scale, constraints, rows)?,
        under_none: under_none(constraints, rows),
    })
}

#[tactic(auto, using(std::proofs::lemmas::List::map_more))]
fn tried_each(
    alloc: Global,
    scale: u64,
    constraints: &[Constraint],
    rows: &Rows,
) -> Result<Seq<Tried>, Memory>
    ensures { IfOk result (λ each. each ≡ tried_each scale constraints.now rows.now) }
{
    let mut each = Seq::new(alloc);
    for constraint in constraints {
        let tried = tried_by(alloc, scale, constraints, constraint, rows)?;
        each.push(tried)?;
    }
    Ok(each)
}

fn tried_by(
    alloc: Global,
    scale: u64,
    constraints: &[Constraint],
    constraint: &Constraint,
    rows: &Rows,
) -> Result<Tried, Memory>
    ensures { IfOk result (λ tried. tried ≡ tried_by scale constraints.now rows.now constraint.now) }
{
    let counts = counts_of(constraints, constraint, rows);
    Ok(Tried {
        name: name_of(alloc, constraint)?,
        counts,
        least: constraint.least,
        most: constraint.most,
        within: is_within(scale, constraint, counts.rows),
    })
}

/// The name of a constraint, or the word that stands in its place.
pub(crate) fn name_of(alloc: Global, constraint: &Constraint) -> Result<Text, Memory>
    ensures { IfOk result (λ name. name ≡ name_of constraint.now.when constraint.now.name) }
{
    match &constraint.when {
        When::Boxes(_) => Ok(Text::from_text(alloc, constraint.name.as_str())?),
        When::Outside => Ok(Text::from_text(alloc, "outside")?),
    }
}

fn is_within(scale: u64, constraint: &Constraint, rows: u64) -> bool
    ensures { result ≡ is_within scale constraint.now rows }
{
    let scaled = multiplied(rows, scale);
    let least = multiplied(constraint.least, MILLION);
    let most = multiplied(constraint.most, MILLION);
    least <= scaled && scaled <= most
}

fn multiplied(count: u64, factor: u64) -> u128
    ensures { result ≡ count * factor }
{
    u128::from(count) * u128::from(factor)
}
