ghost use Rattle.std.specs.Prelude.{◌≡◌};
ghost use Rattle.pc_lang_grammar.specs.Wants.{after_part, closes, compared, kind_of, may_end, measured, next, next_asked, next_in_clause, next_in_line, next_in_quantile, next_in_query};

use crate::want::{Clause, ClauseWant, Kind, LineWant, QuantileWant, QueryWant, Want};
use pc_lang_tokens::{Symbol, Token, Word};

pub(crate) fn kind_of(token: &Token) -> Kind
    ensures { result ≡ kind_of token.now }
{
    match token {
        Token::Symbol(symbol) => Kind::Symbol(*symbol),
        Token::Reserved(word) => Kind::Reserved(*word),
        Token::Number(_) => Kind::Number,
        Token::Name(_) => Kind::Name,
    }
}

/// What may stand behind a token of this kind where this is wanted, or none where it may not stand there.
#[tactic(auto, unfolding(crate::specs::Wants::next))]
pub fn next(want: Want, kind: Kind) -> Option<Want>
    ensures { result ≡ next want kind }
{
    match want {
        Want::Line(line) => next_in_line(line, kind),
        Want::Clause(clause, within) => next_in_clause(clause, within, kind),
        Want::Query(query) => next_in_query(query, kind),
        Want::Quantile(quantile) => next_in_quantile(quantile, kind),
        Want::Asked => next_asked(kind),
        Want::End => None,
    }
}

fn next_asked(kind: Kind) -> Option<Want>
    ensures { result ≡ next_asked kind }
{
    match kind {
        Kind::Reserved(Word::Quantile) => Some(Want::Quantile(QuantileWant::Open)),
        _ => next_in_query(QueryWant::Measure, kind),
    }
}

#[tactic(auto, unfolding(crate::specs::Wants::next_in_line))]
fn next_in_line(want: LineWant, kind: Kind) -> Option<Want>
    ensures { result ≡ next_in_line want kind }
{
    match (want, kind) {
        (LineWant::Head, Kind::Name) => Some(Want::Line(LineWant::Colon)),
        (LineWant::Head, Kind::Reserved(Word::Outside)) => Some(Want::Line(LineWant::Arrow)),
        (LineWant::Colon, Kind::Symbol(Symbol::Colon)) => {
            Some(Want::Clause(Clause::Predicate, ClauseWant::Part))
        }
        (LineWant::Arrow, Kind::Symbol(Symbol::Arrow)) => {
            Some(Want::Clause(Clause::Values, ClauseWant::Part))
        }
        (LineWant::Least, Kind::Number) => Some(Want::Line(LineWant::Dots)),
        (LineWant::Dots, Kind::Symbol(Symbol::Dots)) => Some(Want::Line(LineWant::Most)),
        (LineWant::Most, Kind::Number) => Some(Want::End),
        (LineWant::Rule, Kind::Name) => Some(Want::End),
        (LineWant::Rule, Kind::Reserved(Word::Outside)) => Some(Want::End),
        _ => None,
    }
}

#[tactic(auto, unfolding(crate::specs::Wants::next_in_clause))]
fn next_in_clause(clause: Clause, want: ClauseWant, kind: Kind) -> Option<Want>
    ensures { result ≡ next_in_clause clause want kind }
{
    let next = match (want, kind) {
        (ClauseWant::Part | ClauseWant::Column, Kind::Name) => ClauseWant::Claim,
        (ClauseWant::Part, Kind::Reserved(Word::True)) => ClauseWant::Truth,
        (ClauseWant::Claim, Kind::Symbol(symbol)) => compared(symbol)?,
        (ClauseWant::Claim, Kind::Reserved(Word::In)) => ClauseWant::Inside,
        (ClauseWant::Either, Kind::Number | Kind::Name) => ClauseWant::Joint,
        (ClauseWant::Number, Kind::Number) => ClauseWant::Joint,
        (ClauseWant::Inside, Kind::Number) => ClauseWant::Dots,
        (ClauseWant::Inside, Kind::Symbol(Symbol::OpenSet)) => ClauseWant::Member,
        (ClauseWant::Dots, Kind::Symbol(Symbol::Dots)) => ClauseWant::Number,
        (ClauseWant::Member, Kind::Name) => ClauseWant::Next,
        (ClauseWant::Next, Kind::Symbol(Symbol::Comma)) => ClauseWant::Member,
        (ClauseWant::Next, Kind::Symbol(Symbol::CloseSet)) => ClauseWant::Joint,
        (ClauseWant::Joint, Kind::Reserved(Word::And)) => ClauseWant::Column,
        (ClauseWant::Joint | ClauseWant::Truth, _) => return after_part(clause, kind),
        _ => return None,
    };
    Some(Want::Clause(clause, next))
}

fn compared(symbol: Symbol) -> Option<ClauseWant>
    ensures { result ≡ compared symbol }
{
    match symbol {
        Symbol::Equal => Some(ClauseWant::Either),
        Symbol::AtLeast | Symbol::AtMost | Symbol::Above | Symbol::Below => {
            Some(ClauseWant::Number)
        }
        _ => None,
    }
}

// What follows a part: a further one, or what follows the clause.
fn after_part(clause: Clause, kind: Kind) -> Option<Want>
    ensures { result ≡ after_part clause kind }
{
    match (clause, kind) {
        (Clause::Predicate, Kind::Symbol(Symbol::Arrow)) => {
            Some(Want::Clause(Clause::Values, ClauseWant::Part))
        }
        (Clause::Values, Kind::Symbol(Symbol::Comma)) => Some(Want::Line(LineWant::Least)),
        (Clause::Chosen, Kind::Reserved(Word::Group)) => Some(Want::Query(QueryWant::By)),
        (Clause::Values, _) => None,
        (_, Kind::Reserved(Word::Or)) => Some(Want::Clause(clause, ClauseWant::Part)),
        _ => None,
    }
}

#[tactic(auto, unfolding(crate::specs::Wants::next_in_query))]
fn next_in_query(want: QueryWant, kind: Kind) -> Option<Want>
    ensures { result ≡ next_in_query want kind }
{
    let next = match (want, kind) {
        (QueryWant::Measure, Kind::Reserved(word)) => measured(word)?,
        (QueryWant::Counted, Kind::Symbol(Symbol::OpenGroup)) => QueryWant::Star,
        (QueryWant::Star, Kind::Symbol(Symbol::Star)) => QueryWant::Close,
        (QueryWant::Open, Kind::Symbol(Symbol::OpenGroup)) => QueryWant::Column,
        (QueryWant::Column, Kind::Name) => QueryWant::Close,
        (QueryWant::Close, Kind::Symbol(Symbol::CloseGroup)) => QueryWant::Tail,
        (QueryWant::Counted | QueryWant::Tail, Kind::Reserved(Word::Where)) => {
            return Some(Want::Clause(Clause::Chosen, ClauseWant::Part));
        }
        (QueryWant::Counted | QueryWant::Tail, Kind::Reserved(Word::Group)) => QueryWant::By,
        (QueryWant::By, Kind::Reserved(Word::By)) => QueryWant::Group,
        (QueryWant::Group, Kind::Name) => return Some(Want::End),
        _ => return None,
    };
    Some(Want::Query(next))
}

fn measured(word: Word) -> Option<QueryWant>
    ensures { result ≡ measured word }
{
    match word {
        Word::Count => Some(QueryWant::Counted),
        Word::Sum | Word::Min | Word::Max | Word::Avg => Some(QueryWant::Open),
        _ => None,
    }
}

#[tactic(auto, unfolding(crate::specs::Wants::next_in_quantile))]
fn next_in_quantile(want: QuantileWant, kind: Kind) -> Option<Want>
    ensures { result ≡ next_in_quantile want kind }
{
    let next = match (want, kind) {
        (QuantileWant::Word, Kind::Reserved(Word::Quantile)) => QuantileWant::Open,
        (QuantileWant::Open, Kind::Symbol(Symbol::OpenGroup)) => QuantileWant::First,
        (QuantileWant::First, Kind::Number) => QuantileWant::FirstEnd,
        (QuantileWant::FirstEnd, Kind::Symbol(Symbol::Comma)) => QuantileWant::Second,
        (QuantileWant::Second, Kind::Number) => QuantileWant::SecondEnd,
        (QuantileWant::SecondEnd, Kind::Symbol(Symbol::Comma)) => QuantileWant::Column,
        (QuantileWant::Column, Kind::Name) => QuantileWant::Close,
        (QuantileWant::Close, Kind::Symbol(Symbol::CloseGroup)) => QuantileWant::Tail,
        (QuantileWant::Tail, Kind::Reserved(Word::Where)) => {
            return Some(Want::Clause(Clause::Measured, ClauseWant::Part));
        }
        _ => return None,
    };
    Some(Want::Quantile(next))
}

/// Whether a text may end where this is wanted.
#[tactic(auto, unfolding(crate::specs::Wants::may_end))]
pub fn may_end(want: Want) -> bool
    ensures { result ≡ may_end want }
{
    match want {
        Want::End => true,
        Want::Query(query) => matches!(query, QueryWant::Counted | QueryWant::Tail),
        Want::Quantile(quantile) => matches!(quantile, QuantileWant::Tail),
        Want::Clause(clause, within) => closes(clause, within),
        Want::Line(_) | Want::Asked => false,
    }
}

fn closes(clause: Clause, want: ClauseWant) -> bool
    ensures { result ≡ closes clause want }
{
    match clause {
        Clause::Chosen | Clause::Measured => {
            matches!(want, ClauseWant::Joint | ClauseWant::Truth)
        }
        Clause::Predicate | Clause::Values => false,
    }
}
