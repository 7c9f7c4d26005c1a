ghost use Rattle.std.specs.Prelude.{◌≡◌, ◌++◌, [], ◌∷◌, IfOk, OnOk, if◌then◌else◌};
ghost use Rattle.std.specs.List.{filter};
ghost use Rattle.pc_desk_wants.specs.Kinds.{all_kinds, may_come, told_kinds};

use pc_lang_grammar::{Kind, Want, next};
use pc_lang_tokens::{Symbol, Word};
use pc_list::Seq;
use pc_num::Memory;
use std::alloc::Global;

// All kinds of tokens, in the order in which they are told.
static KINDS: [Kind; 30] = [
    Kind::Name,
    Kind::Number,
    Kind::Reserved(Word::True),
    Kind::Reserved(Word::Outside),
    Kind::Reserved(Word::Count),
    Kind::Reserved(Word::Sum),
    Kind::Reserved(Word::Min),
    Kind::Reserved(Word::Max),
    Kind::Reserved(Word::Avg),
    Kind::Reserved(Word::Quantile),
    Kind::Symbol(Symbol::OpenGroup),
    Kind::Symbol(Symbol::CloseGroup),
    Kind::Symbol(Symbol::Star),
    Kind::Symbol(Symbol::Colon),
    Kind::Symbol(Symbol::Equal),
    Kind::Symbol(Symbol::AtLeast),
    Kind::Symbol(Symbol::AtMost),
    Kind::Symbol(Symbol::Above),
    Kind::Symbol(Symbol::Below),
    Kind::Reserved(Word::In),
    Kind::Symbol(Symbol::OpenSet),
    Kind::Symbol(Symbol::Dots),
    Kind::Reserved(Word::And),
    Kind::Reserved(Word::Or),
    Kind::Symbol(Symbol::Arrow),
    Kind::Symbol(Symbol::Comma),
    Kind::Symbol(Symbol::CloseSet),
    Kind::Reserved(Word::Where),
    Kind::Reserved(Word::Group),
    Kind::Reserved(Word::By),
];

/// The kinds of tokens that may stand where this is wanted.
#[tactic(auto, unfolding(crate::specs::Kinds::told_kinds))]
pub(crate) fn told_kinds(alloc: Global, want: Want) -> Result<Seq<Kind>, Memory>
    ensures { IfOk result (λ kinds. kinds ≡ told_kinds want) }
{
    chosen(alloc, want, all_kinds())
}

#[tactic(auto, unfolding(crate::specs::Kinds::all_kinds))]
fn all_kinds() -> &'static [Kind]
    ensures { result.now ≡ all_kinds }
{
    KINDS.as_slice()
}

#[tactic(auto, using(std::proofs::lemmas::List::Elements::filter_more))]
fn chosen(alloc: Global, want: Want, kinds: &[Kind]) -> Result<Seq<Kind>, Memory>
    ensures { IfOk result (λ chosen. chosen ≡ filter (may_come want) kinds.now) }
{
    let mut chosen = Seq::new(alloc);
    for kind in kinds {
        put_if(&mut chosen, may_come(want, *kind), *kind)?;
    }
    Ok(chosen)
}

fn put_if(out: &mut Seq<Kind>, holds: bool, kind: Kind) -> Result<(), Memory>
    ensures { OnOk result (out.new ≡ out.old ++ (if holds then kind ∷ [] else [])) }
{
    if holds {
        out.push(kind)?;
    }
    Ok(())
}

fn may_come(want: Want, kind: Kind) -> bool
    ensures { result ≡ may_come want kind }
{
    next(want, kind).is_some()
}
