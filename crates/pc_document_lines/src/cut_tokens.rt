ghost use Rattle.std.specs.Prelude.{◌≡◌, ◌≤◌, ◌<◌, ◌++◌, ◌∷◌, [], codes, length, pos, IfOk, OnOk, Some, if◌then◌else◌};
ghost use Rattle.pc_num.specs.Put.{scaled_text};
ghost use Rattle.pc_model.specs.CutTrees.{column_of};
ghost use Rattle.pc_model.specs.Places.{is_place_of};
ghost use Rattle.pc_model.specs.WellFormed.{IsKind, IsWellFormed};
ghost use Rattle.pc_lang_tokens.specs.declared.token.Symbol.TheVariants as symbols;
ghost use Rattle.pc_lang_tokens.specs.declared.token.Token.TheVariants as tokens;
ghost use Rattle.pc_lang.specs.Canonical.{name_at, names_from};
ghost use Rattle.pc_report.specs.Report.{scale_in};
ghost use Rattle.pc_document_lines.specs.TokenLines.{cut_node_tokens, divided_tokens, kind_at, mark_tokens, more_names, names_in, scale_at, set_tokens, side_token};

use pc_lang_tokens::{Symbol, Token, Word};
use pc_list::{Seq, Text};
use pc_model::{Cut, CutNode, Kind, LeafMark, Schema, has_bit};
use pc_num::{Memory, put_scaled};
use std::alloc::Global;

/// The tokens of the line of a node, which does not tell the places of its parts.
pub(crate) fn node_tokens(
    alloc: Global,
    schema: &Schema,
    node: &CutNode,
) -> Result<Seq<Token>, Memory>
    requires well_formed { IsWellFormed schema.now }
    ensures { IfOk result (λ list. list ≡ cut_node_tokens schema.now node.now) }
{
    match node {
        CutNode::Leaf { mark } => leaf_tokens(alloc, *mark),
        CutNode::Inner { cut, .. } => cut_tokens(alloc, schema, cut),
    }
}

fn leaf_tokens(alloc: Global, mark: LeafMark) -> Result<Seq<Token>, Memory>
    ensures { IfOk result (λ list. list ≡ tokens.Name (codes "leaf") ∷ mark_tokens mark) }
{
    let mut list = Seq::new(alloc);
    list.push(word(alloc, "leaf")?)?;
    match mark {
        LeafMark::Barren => {
            list.push(word(alloc, "barren")?)?;
            Ok(list)
        }
        LeafMark::Class { mask, chosen } => {
            list.push(number(alloc, i128::from(mask), 0)?)?;
            list.push(side_token(alloc, chosen)?)?;
            Ok(list)
        }
    }
}

fn cut_tokens(alloc: Global, schema: &Schema, cut: &Cut) -> Result<Seq<Token>, Memory>
    requires well_formed { IsWellFormed schema.now }
    ensures { IfOk result (λ list. list ≡ tokens.Name (codes "cut") ∷ tokens.Name (name_at schema.now.columns (column_of cut.now)) ∷ divided_tokens schema.now cut.now) }
{
    let mut list = Seq::new(alloc);
    list.push(word(alloc, "cut")?)?;
    match cut {
        Cut::At { column, at } => {
            list.push(column_token(alloc, schema, *column)?)?;
            list.push(number(alloc, i128::from(*at), scale_at(schema, *column))?)?;
            Ok(list)
        }
        Cut::Among { column, bits } => {
            list.push(column_token(alloc, schema, *column)?)?;
            let chosen = names_of(alloc, *bits, names_at(schema, *column))?;
            with_set(list, chosen.as_slice())
        }
    }
}

fn word(alloc: Global, text: &str) -> Result<Token, Memory>
    ensures { IfOk result (λ token. token ≡ tokens.Name text.now) }
{
    Ok(Token::Name(Text::from_text(alloc, text)?))
}

fn number(alloc: Global, value: i128, scale: u8) -> Result<Token, Memory>
    requires { scale ≤ 6 }
    ensures { IfOk result (λ token. token ≡ tokens.Number (scaled_text value scale)) }
{
    let mut text = Vec::new(alloc);
    put_scaled(alloc, &mut text, value, scale)?;
    Ok(Token::Number(Seq::from_vec(text)))
}

fn side_token(alloc: Global, chosen: bool) -> Result<Token, Memory>
    ensures { IfOk result (λ token. token ≡ side_token chosen) }
{
    if chosen {
        return Ok(Token::Reserved(Word::In));
    }
    word(alloc, "out")
}

// The name of the column at a place, or no text where there is none.
#[tactic(auto, using(pc_lang::proofs::NamesAt::steps))]
fn column_token(alloc: Global, schema: &Schema, place: u8) -> Result<Token, Memory>
    ensures { IfOk result (λ token. token ≡ tokens.Name (name_at schema.now.columns place)) }
{
    match schema.columns.as_slice().get(usize::from(place)) {
        Some(column) => word(alloc, column.name.as_str()),
        None => word(alloc, ""),
    }
}

#[tactic(auto, using(crate::proofs::CutReading::kind_of_column))]
fn scale_at(schema: &Schema, place: u8) -> u8
    requires { IsWellFormed schema.now }
    ensures exact { result ≡ scale_at (kind_at schema.now place) }
    ensures few { result ≤ 6 }
{
    match schema.columns.as_slice().get(usize::from(place)) {
        Some(column) => scale_in(&column.kind),
        None => 0,
    }
}

fn scale_in(kind: &Kind) -> u8
    requires { IsKind kind.now }
    ensures exact { result ≡ scale_in kind.now }
    ensures few { result ≤ 6 }
{
    match kind {
        Kind::Dec { scale, .. } => *scale,
        Kind::Int { .. } | Kind::Cat { .. } => 0,
    }
}

#[tactic(auto, using(crate::proofs::CutReading::kind_of_column))]
fn names_at(schema: &Schema, place: u8) -> &[Text]
    requires { IsWellFormed schema.now }
    ensures exact { result.now ≡ names_in (kind_at schema.now place) }
    ensures few { length result.now ≤ 128 }
{
    match schema.columns.as_slice().get(usize::from(place)) {
        Some(column) => names_in(&column.kind),
        None => &[],
    }
}

fn names_in(kind: &Kind) -> &[Text]
    requires { IsKind kind.now }
    ensures exact { result.now ≡ names_in (Some kind.now) }
    ensures few { length result.now ≤ 128 }
{
    match kind {
        Kind::Cat { names } => names.as_slice(),
        Kind::Int { .. } | Kind::Dec { .. } => &[],
    }
}

// The names whose places are in the set.
#[tactic(auto, using(pc_lang::proofs::Stated::names_steps))]
fn names_of(alloc: Global, bits: u128, names: &[Text]) -> Result<Seq<Text>, Memory>
    requires { length names.now ≤ 128 }
    ensures { IfOk result (λ chosen. chosen ≡ names_from bits 0 names.now) }
{
    let mut chosen = Seq::new(alloc);
    for (place, name) in names.iter().enumerate() {
        push_name(&mut chosen, bits, place, name)?;
    }
    Ok(chosen)
}

fn push_name(chosen: &mut Seq<Text>, bits: u128, place: usize, name: &Text) -> Result<(), Memory>
    requires { place < 128 }
    ensures { OnOk result (chosen.new ≡ chosen.old ++ (if is_place_of bits (pos place) then name.now ∷ [] else [])) }
{
    if has_bit(bits, place) {
        chosen.push(name.clone()?)?;
    }
    Ok(())
}

// The tokens with those of a set of names after them.
#[tactic(auto, unfolding(crate::specs::TokenLines::set_tokens))]
fn with_set(mut list: Seq<Token>, names: &[Text]) -> Result<Seq<Token>, Memory>
    ensures { IfOk result (λ all. all ≡ list ++ set_tokens names.now) }
{
    list.push(Token::Symbol(Symbol::OpenSet))?;
    match names {
        [first, others @ ..] => {
            list.push(Token::Name(first.clone()?))?;
            with_more_names(list, others)
        }
        [] => {
            list.push(Token::Symbol(Symbol::CloseSet))?;
            Ok(list)
        }
    }
}

#[tactic(auto, using(crate::proofs::CutReading::names_steps))]
fn with_more_names(mut list: Seq<Token>, names: &[Text]) -> Result<Seq<Token>, Memory>
    ensures { IfOk result (λ all. all ≡ list ++ more_names names.now) }
{
    for name in names {
        push_next_name(&mut list, name)?;
    }
    list.push(Token::Symbol(Symbol::CloseSet))?;
    Ok(list)
}

fn push_next_name(list: &mut Seq<Token>, name: &Text) -> Result<(), Memory>
    ensures { OnOk result (list.new ≡ list.old ++ tokens.Symbol symbols.Comma ∷ tokens.Name name.now ∷ []) }
{
    list.push(Token::Symbol(Symbol::Comma))?;
    list.push(Token::Name(name.clone()?))?;
    Ok(())
}
