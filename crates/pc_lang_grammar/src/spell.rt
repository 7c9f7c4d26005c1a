ghost use Rattle.std.specs.Prelude.{◌≡◌, ◌∷◌, ◌++◌, [], IfOk, OnOk};
ghost use Rattle.pc_lang_tokens.specs.declared.token.Symbol.TheVariants as symbols;
ghost use Rattle.pc_lang_tokens.specs.declared.token.Word.TheVariants as words;
ghost use Rattle.pc_lang_tokens.specs.declared.token.Token.TheVariants as kinds;
ghost use Rattle.pc_lang_grammar.specs.declared.syntax.Claim.TheVariants as claims;
ghost use Rattle.pc_lang_grammar.specs.Grammar.{aggregate_tokens, atom_tokens, claim_tokens, frequency_tokens, further_atoms, further_names, further_parts, group_tokens, head_tokens, line_tokens, measure_tokens, part_tokens, quantile_tokens, question_tokens, ways_tokens, where_tokens};

use crate::syntax::{Atom, Claim, Head, Line, Measure, Part, QuantileQuestion, Question, Ways};
use pc_lang_tokens::{Symbol, Token, Word};
use pc_list::{Seq, Text};
use pc_num::Memory;
use std::alloc::Global;

/// The tokens of a constraint's line.
#[tactic(auto, using(std::proofs::lemmas::List::append_assoc), unfolding(crate::specs::Grammar::line_tokens))]
pub fn spell_line(alloc: Global, line: &Line) -> Result<Seq<Token>, Memory>
    ensures { IfOk result (λ list. list ≡ line_tokens line.now) }
{
    let mut list = Seq::new(alloc);
    put_head(&mut list, &line.head)?;
    list.push(Token::Symbol(Symbol::Arrow))?;
    put_part(&mut list, &line.values)?;
    put_frequency(&mut list, &line.least, &line.most)?;
    Ok(list)
}

/// The tokens of a query.
#[tactic(auto, using(std::proofs::lemmas::List::append_assoc), unfolding(crate::specs::Grammar::question_tokens))]
pub fn spell_question(alloc: Global, question: &Question) -> Result<Seq<Token>, Memory>
    ensures { IfOk result (λ list. list ≡ question_tokens question.now) }
{
    let mut list = Seq::new(alloc);
    put_measure(&mut list, &question.measure)?;
    put_where(&mut list, &question.chosen)?;
    put_group(&mut list, &question.group)?;
    Ok(list)
}

/// The tokens of the query of a quantile.
#[tactic(auto, using(std::proofs::lemmas::List::append_assoc), unfolding(crate::specs::Grammar::quantile_tokens))]
pub fn spell_quantile(alloc: Global, question: &QuantileQuestion) -> Result<Seq<Token>, Memory>
    ensures { IfOk result (λ list. list ≡ quantile_tokens question.now) }
{
    let mut list = Seq::new(alloc);
    list.push(Token::Reserved(Word::Quantile))?;
    put_signed(&mut list, Symbol::OpenGroup, &question.p)?;
    put_signed(&mut list, Symbol::Comma, &question.q)?;
    put_named(&mut list, Symbol::Comma, &question.column)?;
    list.push(Token::Symbol(Symbol::CloseGroup))?;
    put_where(&mut list, &question.chosen)?;
    Ok(list)
}

// Appends two tokens.
fn put_two(out: &mut Seq<Token>, first: Token, second: Token) -> Result<(), Memory>
    ensures { OnOk result (out.new ≡ out.old ++ first ∷ second ∷ []) }
{
    out.push(first)?;
    out.push(second)?;
    Ok(())
}

fn put_frequency(out: &mut Seq<Token>, least: &Seq<u8>, most: &Seq<u8>) -> Result<(), Memory>
    ensures { OnOk result (out.new ≡ out.old ++ frequency_tokens least.now most.now) }
{
    put_signed(out, Symbol::Comma, least)?;
    put_signed(out, Symbol::Dots, most)
}

// Appends a sign and the number after it.
fn put_signed(out: &mut Seq<Token>, symbol: Symbol, number: &Seq<u8>) -> Result<(), Memory>
    ensures { OnOk result (out.new ≡ out.old ++ kinds.Symbol symbol ∷ kinds.Number number.now ∷ []) }
{
    put_two(out, Token::Symbol(symbol), Token::Number(number.clone()?))
}

// Appends a name and its parts, or `outside`.
#[tactic(auto, unfolding(crate::specs::Grammar::head_tokens))]
fn put_head(out: &mut Seq<Token>, head: &Head) -> Result<(), Memory>
    ensures { OnOk result (out.new ≡ out.old ++ head_tokens head.now) }
{
    match head {
        Head::Named { name, when } => {
            put_two(
                out,
                Token::Name(name.clone()?),
                Token::Symbol(Symbol::Colon),
            )?;
            put_ways(out, when)
        }
        Head::Outside => {
            out.push(Token::Reserved(Word::Outside))?;
            Ok(())
        }
    }
}

// Appends parts joined by `or`.
#[tactic(auto, unfolding(crate::specs::Grammar::ways_tokens))]
fn put_ways(out: &mut Seq<Token>, ways: &Ways) -> Result<(), Memory>
    ensures { OnOk result (out.new ≡ out.old ++ ways_tokens ways.now) }
{
    put_part(out, &ways.first)?;
    put_further_parts(out, ways.others.as_slice())
}

// Appends each part after an `or`.
#[tactic(auto, using(crate::proofs::Appending::part_steps))]
fn put_further_parts(out: &mut Seq<Token>, parts: &[Part]) -> Result<(), Memory>
    ensures { OnOk result (out.new ≡ out.old ++ further_parts parts.now) }
{
    for part in parts {
        put_further_part(out, part)?;
    }
    Ok(())
}

fn put_further_part(out: &mut Seq<Token>, part: &Part) -> Result<(), Memory>
    ensures { OnOk result (out.new ≡ out.old ++ kinds.Reserved words.Or ∷ part_tokens part.now) }
{
    out.push(Token::Reserved(Word::Or))?;
    put_part(out, part)
}

// Appends atoms joined by `and`, or `true`.
#[tactic(auto, unfolding(crate::specs::Grammar::part_tokens))]
fn put_part(out: &mut Seq<Token>, part: &Part) -> Result<(), Memory>
    ensures { OnOk result (out.new ≡ out.old ++ part_tokens part.now) }
{
    match part.atoms.as_slice() {
        [first, others @ ..] => {
            put_atom(out, first)?;
            put_further_atoms(out, others)
        }
        [] => {
            out.push(Token::Reserved(Word::True))?;
            Ok(())
        }
    }
}

// Appends each atom after an `and`.
#[tactic(auto, using(crate::proofs::Appending::atom_steps))]
fn put_further_atoms(out: &mut Seq<Token>, atoms: &[Atom]) -> Result<(), Memory>
    ensures { OnOk result (out.new ≡ out.old ++ further_atoms atoms.now) }
{
    for atom in atoms {
        put_further_atom(out, atom)?;
    }
    Ok(())
}

fn put_further_atom(out: &mut Seq<Token>, atom: &Atom) -> Result<(), Memory>
    ensures { OnOk result (out.new ≡ out.old ++ kinds.Reserved words.And ∷ atom_tokens atom.now) }
{
    out.push(Token::Reserved(Word::And))?;
    put_atom(out, atom)
}

#[tactic(auto, unfolding(crate::specs::Grammar::atom_tokens))]
fn put_atom(out: &mut Seq<Token>, atom: &Atom) -> Result<(), Memory>
    ensures { OnOk result (out.new ≡ out.old ++ atom_tokens atom.now) }
{
    out.push(Token::Name(atom.column.clone()?))?;
    put_claim(out, &atom.claim)
}

// Appends what an atom says of its column.
#[tactic(auto, unfolding(crate::specs::Grammar::claim_tokens))]
fn put_claim(out: &mut Seq<Token>, claim: &Claim) -> Result<(), Memory>
    ensures { OnOk result (out.new ≡ out.old ++ claim_tokens claim.now) }
{
    match claim {
        Claim::Number(number) => put_signed(out, Symbol::Equal, number),
        Claim::Name(name) => put_named(out, Symbol::Equal, name),
        Claim::AtLeast(number) => put_signed(out, Symbol::AtLeast, number),
        Claim::AtMost(number) => put_signed(out, Symbol::AtMost, number),
        Claim::Above(number) => put_signed(out, Symbol::Above, number),
        Claim::Below(number) => put_signed(out, Symbol::Below, number),
        Claim::Within { low, high } => put_within(out, low, high),
        Claim::Among { first, others } => put_among(out, first, others.as_slice()),
    }
}

// Appends a sign and the name after it.
fn put_named(out: &mut Seq<Token>, symbol: Symbol, name: &Text) -> Result<(), Memory>
    ensures { OnOk result (out.new ≡ out.old ++ kinds.Symbol symbol ∷ kinds.Name name.now ∷ []) }
{
    put_two(out, Token::Symbol(symbol), Token::Name(name.clone()?))
}

#[tactic(auto, unfolding(crate::specs::Grammar::claim_tokens))]
fn put_within(out: &mut Seq<Token>, low: &Seq<u8>, high: &Seq<u8>) -> Result<(), Memory>
    ensures { OnOk result (out.new ≡ out.old ++ claim_tokens (claims.Within low.now high.now)) }
{
    put_two(out, Token::Reserved(Word::In), Token::Number(low.clone()?))?;
    put_signed(out, Symbol::Dots, high)
}

#[tactic(auto, using(std::proofs::lemmas::List::append_assoc), unfolding(crate::specs::Grammar::claim_tokens))]
fn put_among(out: &mut Seq<Token>, first: &Text, others: &[Text]) -> Result<(), Memory>
    ensures { OnOk result (out.new ≡ out.old ++ claim_tokens (claims.Among first.now others.now)) }
{
    out.push(Token::Reserved(Word::In))?;
    put_named(out, Symbol::OpenSet, first)?;
    put_further_names(out, others)?;
    out.push(Token::Symbol(Symbol::CloseSet))?;
    Ok(())
}

// Appends each name after a comma.
#[tactic(auto, using(crate::proofs::Appending::name_steps))]
fn put_further_names(out: &mut Seq<Token>, names: &[Text]) -> Result<(), Memory>
    ensures { OnOk result (out.new ≡ out.old ++ further_names names.now) }
{
    for name in names {
        put_named(out, Symbol::Comma, name)?;
    }
    Ok(())
}

#[tactic(auto, unfolding(crate::specs::Grammar::measure_tokens))]
fn put_measure(out: &mut Seq<Token>, measure: &Measure) -> Result<(), Memory>
    ensures { OnOk result (out.new ≡ out.old ++ measure_tokens measure.now) }
{
    match measure {
        Measure::Count => {
            out.push(Token::Reserved(Word::Count))?;
            Ok(())
        }
        Measure::CountOfAll => put_bracketed(out, Word::Count, Token::Symbol(Symbol::Star)),
        Measure::Sum(column) => put_aggregate(out, Word::Sum, column),
        Measure::Min(column) => put_aggregate(out, Word::Min, column),
        Measure::Max(column) => put_aggregate(out, Word::Max, column),
        Measure::Avg(column) => put_aggregate(out, Word::Avg, column),
    }
}

fn put_aggregate(out: &mut Seq<Token>, word: Word, column: &Text) -> Result<(), Memory>
    ensures { OnOk result (out.new ≡ out.old ++ aggregate_tokens word column.now) }
{
    put_bracketed(out, word, Token::Name(column.clone()?))
}

// Appends a word and a token between brackets.
fn put_bracketed(out: &mut Seq<Token>, word: Word, inner: Token) -> Result<(), Memory>
    ensures { OnOk result (out.new ≡ out.old ++ kinds.Reserved word ∷ kinds.Symbol symbols.OpenGroup ∷ inner ∷ kinds.Symbol symbols.CloseGroup ∷ []) }
{
    put_two(out, Token::Reserved(word), Token::Symbol(Symbol::OpenGroup))?;
    put_two(out, inner, Token::Symbol(Symbol::CloseGroup))
}

// Appends `where` and parts, or nothing.
fn put_where(out: &mut Seq<Token>, chosen: &Option<Ways>) -> Result<(), Memory>
    ensures { OnOk result (out.new ≡ out.old ++ where_tokens chosen.now) }
{
    match chosen {
        Some(ways) => {
            out.push(Token::Reserved(Word::Where))?;
            put_ways(out, ways)
        }
        None => Ok(()),
    }
}

// Appends `group by` and a column, or nothing.
fn put_group(out: &mut Seq<Token>, group: &Option<Text>) -> Result<(), Memory>
    ensures { OnOk result (out.new ≡ out.old ++ group_tokens group.now) }
{
    match group {
        Some(column) => {
            put_two(out, Token::Reserved(Word::Group), Token::Reserved(Word::By))?;
            out.push(Token::Name(column.clone()?))?;
            Ok(())
        }
        None => Ok(()),
    }
}
