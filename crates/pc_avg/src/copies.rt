//! Copies of a relation and a lack, part by part: of a derived copy with so many parts it is not found that it is the same.
ghost use Rattle.std.specs.Prelude.{◌≡◌, IfOk};

use pc_proof::{AlwaysBy, Bounded, Lack, Relation, Why};
use std::alloc::AllocError;

pub(crate) fn copied_relation(relation: &Relation) -> Result<Relation, AllocError>
    ensures { IfOk result (λ copy. copy ≡ relation.now) }
{
    match relation {
        Relation::Possible(runs) => Ok(Relation::Possible(runs.clone()?)),
        Relation::Impossible(why) => Ok(Relation::Impossible(copied_why(why)?)),
        Relation::Undecided => Ok(Relation::Undecided),
    }
}

fn copied_why(why: &Why) -> Result<Why, AllocError>
    ensures { IfOk result (λ copy. copy ≡ why.now) }
{
    match why {
        Why::Void(tree) => Ok(Why::Void(tree.clone()?)),
        Why::Cross(most, fewest) => Ok(Why::Cross(most.clone()?, fewest.clone()?)),
        Why::Ends(low, high) => Ok(Why::Ends(copied_end(low)?, copied_end(high)?)),
    }
}

pub(crate) fn copied_lack(lack: &Lack) -> Result<Lack, AllocError>
    ensures { IfOk result (λ copy. copy ≡ lack.now) }
{
    match lack {
        Lack::Silent => Ok(Lack::Silent),
        Lack::Never(by) => Ok(Lack::Never(by.clone()?)),
        Lack::Sometimes { without, with } => Ok(Lack::Sometimes {
            without: without.clone()?,
            with: with.clone()?,
        }),
        Lack::Always(by) => Ok(Lack::Always(copied_always(by)?)),
        Lack::Undecided => Ok(Lack::Undecided),
    }
}

fn copied_always(by: &AlwaysBy) -> Result<AlwaysBy, AllocError>
    ensures { IfOk result (λ copy. copy ≡ by.now) }
{
    match by {
        AlwaysBy::Tree(tree) => Ok(AlwaysBy::Tree(tree.clone()?)),
        AlwaysBy::Ends(low, high) => Ok(AlwaysBy::Ends(copied_end(low)?, copied_end(high)?)),
    }
}

fn copied_end(end: &Bounded) -> Result<Bounded, AllocError>
    ensures { IfOk result (λ copy. copy ≡ end.now) }
{
    end.clone()
}
