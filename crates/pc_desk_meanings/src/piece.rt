ghost use Rattle.std.specs.Prelude.{◌≡◌, All, IfOk, option_map, position, slice_get};
ghost use Rattle.pc_model.specs.WellFormed.{IsColumn, IsWellFormed};
ghost use Rattle.pc_desk_meanings.specs.Atoms.{IsRefusedAtom};
ghost use Rattle.pc_desk_meanings.specs.Pieces.{atom_words, behind, behind_number, behind_word, first_name, grouped_name, grouped_words, has_names, is_among, is_stranger, is_wrong, kind_words, measured_name, measured_words, name_at, name_if, name_of, names_for, names_of, number_in, said_words, spelled, stranger_in, value_of, wanted_words};

use crate::atom::Atom;
use crate::column::{column_in, of_column};
use pc_lang_tokens::{Symbol, Token, Word, put_tokens};
use pc_list::Text;
use pc_model::{Column, Kind, Reason, Schema};
use pc_num::Memory;
use std::alloc::Global;

/// The tokens from one place up to another, as they are written.
pub(crate) fn spelled(
    alloc: Global,
    tokens: &[Token],
    start: usize,
    end: usize,
) -> Result<Vec<u8>, Memory>
    ensures { IfOk result (λ text. text.items ≡ spelled tokens.now start end) }
{
    let mut text = Vec::new(alloc);
    let end = end.min(tokens.len());
    put_tokens(alloc, &mut text, &tokens[start.min(end)..end])?;
    Ok(text)
}

/// A condition that is refused, and what the schema has under the name of its column.
#[tactic(auto, unfolding(crate::specs::Pieces::atom_words))]
pub(crate) fn atom_words(
    alloc: Global,
    schema: &Schema,
    tokens: &[Token],
    atom: Atom,
) -> Result<Vec<u8>, Memory>
    requires well_formed { IsWellFormed schema.now }
    requires refused { IsRefusedAtom schema.now tokens.now atom }
    ensures { IfOk result (λ text. text.items ≡ atom_words schema.now tokens.now atom) }
{
    let columns = schema.columns.as_slice();
    let said = &tokens[atom.start..atom.end];
    let name = name_at(said);
    let value = value_of(columns, name, said, atom.reason);
    let has = of_column(alloc, columns, name, atom.reason, value)?;
    if atom.reason == Reason::UnknownColumn {
        return Ok(has);
    }
    said_words(alloc, said, has.as_slice())
}

fn said_words(alloc: Global, said: &[Token], has: &[u8]) -> Result<Vec<u8>, Memory>
    ensures { IfOk result (λ text. text.items ≡ said_words said.now has.now) }
{
    let mut text = Vec::new(alloc);
    put_tokens(alloc, &mut text, said)?;
    text.extend_from_slice(b": ".as_slice())?;
    text.extend_from_slice(has)?;
    Ok(text)
}

// The name that tokens begin with.
fn name_at(tokens: &[Token]) -> &[u8]
    ensures { result.now ≡ name_at tokens.now }
{
    match tokens {
        [Token::Name(name), ..] => name.as_bytes(),
        _ => &[],
    }
}

// The first name that is none of the column's, or the number, where one of them is the reason.
fn value_of<'x>(columns: &[Column], name: &[u8], said: &'x [Token], reason: Reason) -> &'x [u8]
    ensures { result.now ≡ value_of columns.now name.now said.now reason }
{
    match reason {
        Reason::UnknownName => stranger_in(names_for(columns, name), behind(said)),
        Reason::TooManyDecimals => number_in(said),
        _ => &[],
    }
}

// The number behind a column and what compares it.
fn number_in(said: &[Token]) -> &[u8]
    ensures { result.now ≡ number_in said.now }
{
    match said {
        [_, _, Token::Number(text), ..] => text.as_slice(),
        _ => &[],
    }
}

fn behind(said: &[Token]) -> &[Token]
    ensures { result.now ≡ behind said.now }
{
    match said {
        [_, rest @ ..] => rest,
        [] => &[],
    }
}

// The names of a column of names.
#[tactic(auto, unfolding(crate::specs::Pieces::names_for))]
fn names_for<'x>(columns: &'x [Column], name: &[u8]) -> &'x [Text]
    ensures { result.now ≡ names_for columns.now name.now }
{
    match column_in(columns, name) {
        Some(column) => names_of(&column.kind),
        None => &[],
    }
}

fn names_of(kind: &Kind) -> &[Text]
    ensures { result.now ≡ names_of kind.now }
{
    match kind {
        Kind::Cat { names } => names.as_slice(),
        _ => &[],
    }
}

// The first name that is not among these, or no bytes.
#[tactic(auto, unfolding(crate::specs::Pieces::stranger_in))]
fn stranger_in<'x>(names: &[Text], said: &'x [Token]) -> &'x [u8]
    ensures { result.now ≡ stranger_in names.now said.now }
{
    match stranger_at(names, said) {
        Some(place) => name_in(said, place),
        None => &[],
    }
}

fn stranger_at(names: &[Text], said: &[Token]) -> Option<usize>
    ensures { result ≡ position (is_stranger names.now) said.now }
{
    said.iter().position(|token| is_stranger(names, token))
}

fn name_in(said: &[Token], place: usize) -> &[u8]
    ensures { result.now ≡ name_if (slice_get said.now place) }
{
    match said.get(place) {
        Some(token) => name_of(token),
        None => &[],
    }
}

fn is_stranger(names: &[Text], token: &Token) -> bool
    ensures { result ≡ is_stranger names.now token.now }
{
    match token {
        Token::Name(name) => !is_among(names, name.as_bytes()),
        _ => false,
    }
}

fn is_among(names: &[Text], name: &[u8]) -> bool
    ensures { result ≡ is_among names.now name.now }
{
    names.iter().any(|other| other.as_bytes() == name)
}

fn name_of(token: &Token) -> &[u8]
    ensures { result.now ≡ name_of token.now }
{
    match token {
        Token::Name(name) => name.as_bytes(),
        _ => &[],
    }
}

/// What is told of the column that a query measures, where it is refused for this reason.
pub(crate) fn measured_words(
    alloc: Global,
    columns: &[Column],
    tokens: &[Token],
    reason: Reason,
) -> Result<Option<Vec<u8>>, Memory>
    requires { All IsColumn columns.now }
    ensures { IfOk result (λ found. option_map (λ text. text.items) found ≡ measured_words columns.now tokens.now reason) }
{
    match measured_name(tokens) {
        Some(name) => wanted_words(alloc, columns, name, reason, false),
        None => Ok(None),
    }
}

/// .. of the column by whose names it groups.
pub(crate) fn grouped_words(
    alloc: Global,
    columns: &[Column],
    tokens: &[Token],
    reason: Reason,
) -> Result<Option<Vec<u8>>, Memory>
    requires { All IsColumn columns.now }
    ensures { IfOk result (λ found. option_map (λ text. text.items) found ≡ grouped_words columns.now tokens.now reason) }
{
    match grouped_name(tokens) {
        Some(name) => wanted_words(alloc, columns, name, reason, true),
        None => Ok(None),
    }
}

fn measured_name(tokens: &[Token]) -> Option<&[u8]>
    ensures { option_map (λ name. name.now) result ≡ measured_name tokens.now }
{
    first_name(behind_number(behind_number(behind_word(tokens))))
}

fn first_name(tokens: &[Token]) -> Option<&[u8]>
    ensures { option_map (λ name. name.now) result ≡ first_name tokens.now }
{
    match tokens {
        [Token::Name(name), ..] => Some(name.as_bytes()),
        _ => None,
    }
}

// What stands behind a number and a comma, where the tokens begin with them.
fn behind_number(tokens: &[Token]) -> &[Token]
    ensures { result.now ≡ behind_number tokens.now }
{
    match tokens {
        [Token::Number(_), Token::Symbol(Symbol::Comma), rest @ ..] => rest,
        _ => tokens,
    }
}

// .. behind a word and a parenthesis, which a median is read without.
fn behind_word(tokens: &[Token]) -> &[Token]
    ensures { result.now ≡ behind_word tokens.now }
{
    match tokens {
        [
            Token::Reserved(_),
            Token::Symbol(Symbol::OpenGroup),
            rest @ ..,
        ] => rest,
        _ => tokens,
    }
}

fn grouped_name(tokens: &[Token]) -> Option<&[u8]>
    ensures { option_map (λ name. name.now) result ≡ grouped_name tokens.now }
{
    match tokens {
        [.., Token::Reserved(Word::By), Token::Name(name)] => Some(name.as_bytes()),
        _ => None,
    }
}

// A column where one of names, or else of numbers, is to stand.
#[tactic(auto, unfolding(crate::specs::Pieces::wanted_words))]
fn wanted_words(
    alloc: Global,
    columns: &[Column],
    name: &[u8],
    reason: Reason,
    of_names: bool,
) -> Result<Option<Vec<u8>>, Memory>
    requires { All IsColumn columns.now }
    ensures { IfOk result (λ found. option_map (λ text. text.items) found ≡ wanted_words columns.now name.now reason of_names) }
{
    if !is_wrong(column_in(columns, name), reason, of_names) {
        return Ok(None);
    }
    let mut text = of_column(alloc, columns, name, reason, &[])?;
    text.extend_from_slice(kind_words(reason, of_names))?;
    Ok(Some(text))
}

fn is_wrong(column: Option<&Column>, reason: Reason, of_names: bool) -> bool
    ensures { result ≡ is_wrong (option_map (λ found. found.now) column.entry) reason of_names }
{
    match (column, reason) {
        (None, Reason::UnknownColumn) => true,
        (Some(column), Reason::WrongKind) => has_names(&column.kind) != of_names,
        _ => false,
    }
}

fn has_names(kind: &Kind) -> bool
    ensures { result ≡ has_names kind.now }
{
    matches!(kind, Kind::Cat { .. })
}

fn kind_words<'x>(reason: Reason, of_names: bool) -> &'x [u8]
    ensures { result.now ≡ kind_words reason of_names }
{
    match (reason, of_names) {
        (Reason::WrongKind, true) => b", and a column of names is to stand there".as_slice(),
        (Reason::WrongKind, false) => b", and a column of numbers is to stand there".as_slice(),
        _ => &[],
    }
}
