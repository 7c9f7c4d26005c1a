ghost use Rattle.std.specs.Prelude.{◌≡◌, ◌<◌, ◌^◌};
ghost use Rattle.pc_proof.specs.Demands.{always_lines, lack_lines, mark_lines, never_lines, proof_lines, relation_lines, why_lines};

use pc_proof::{AlwaysBy, Lack, Mark, NeverBy, Proof, Relation, Why};

/// The lines of a relation with its runs or its reason.
pub(crate) fn relation_lines(relation: &Relation) -> u64
    requires { relation_lines relation.now < 2 ^ 64 }
    ensures { result ≡ relation_lines relation.now }
{
    match relation {
        Relation::Possible(runs) => 1 + runs.len() as u64,
        Relation::Impossible(why) => 1 + why_lines(why),
        Relation::Undecided => 1,
    }
}

fn why_lines(why: &Why) -> u64
    requires { why_lines why.now < 2 ^ 64 }
    ensures { result ≡ why_lines why.now }
{
    match why {
        Why::Void(tree) => 1 + tree.nodes.len() as u64,
        Why::Cross(greatest, fewest) => 1 + greatest.nodes.len() as u64 + fewest.nodes.len() as u64,
        Why::Ends(low, high) => 3 + proof_lines(&low.proof) + proof_lines(&high.proof),
    }
}

/// The lines of a lack with its runs or its proof. One that is silent has none.
pub(crate) fn lack_lines(lack: &Lack) -> u64
    requires { lack_lines lack.now < 2 ^ 64 }
    ensures { result ≡ lack_lines lack.now }
{
    match lack {
        Lack::Silent => 0,
        Lack::Never(by) => 1 + never_lines(by),
        Lack::Sometimes { without, with } => 2 + without.len() as u64 + with.len() as u64,
        Lack::Always(by) => 1 + always_lines(by),
        Lack::Undecided => 1,
    }
}

fn never_lines(by: &NeverBy) -> u64
    requires { never_lines by.now < 2 ^ 64 }
    ensures { result ≡ never_lines by.now }
{
    match by {
        NeverBy::Rows => 1,
        NeverBy::Tree(tree) => 1 + tree.nodes.len() as u64,
    }
}

fn always_lines(by: &AlwaysBy) -> u64
    requires { always_lines by.now < 2 ^ 64 }
    ensures { result ≡ always_lines by.now }
{
    match by {
        AlwaysBy::Tree(tree) => 1 + tree.nodes.len() as u64,
        AlwaysBy::Ends(low, high) => 3 + proof_lines(&low.proof) + proof_lines(&high.proof),
    }
}

/// The lines of an end before those of its proof.
pub(crate) fn mark_lines(mark: &Mark) -> u64
    requires { mark_lines mark.now < 2 ^ 64 }
    ensures { result ≡ mark_lines mark.now }
{
    match mark {
        Mark::Exact(runs) => 1 + runs.len() as u64,
        Mark::Outer => 1,
    }
}

/// The line of a proof and those of its tree.
pub(crate) fn proof_lines(proof: &Proof) -> u64
    requires { proof_lines proof.now < 2 ^ 64 }
    ensures { result ≡ proof_lines proof.now }
{
    match proof {
        Proof::Rows | Proof::Values => 1,
        Proof::Tree(tree) => 1 + tree.nodes.len() as u64,
        Proof::At(_, tree) => 1 + tree.nodes.len() as u64,
    }
}
