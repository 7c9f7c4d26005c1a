ghost use Rattle.std.specs.Prelude.{◌≡◌, ◌≤◌, ℕ, Bool, List, length, position, IfOk, IsTrue};
ghost use Rattle.std.specs.List.{count_by, list_all, position_or_len};
ghost use Rattle.std.specs.Str.{bytes_eq};
ghost use Rattle.pc_model.specs.WellFormed.{IsKind};
ghost use Rattle.pc_records.specs.Fields.{field};
ghost use Rattle.pc_desk_schema.specs.declared.said.Said.TheVariants as saids;
ghost use Rattle.pc_desk_schema.specs.Dates.{is_date};
ghost use Rattle.pc_desk_schema.specs.Fits.{first_odd, fit_of, is_no_name, is_no_number, name_past, odd_at, odd_found, record_at, said_of, zero_of};
ghost use Rattle.pc_desk_schema.specs.Names.{are_most, may_name};
ghost use Rattle.pc_desk_schema.specs.Numbers.{decimals_of, has_lost_zero, is_number, is_wide_at};

use crate::names::{
    all_may_name, date_count, different, may_name, most_are_dates, most_are_numbers, names_of,
    number_count,
};
use crate::numbers::{decimals_of, fits_at, has_lost_zero, is_number, number_kind};
use crate::said::{Odd, Said};
use pc_list::{Seq, Text};
use pc_model::Kind;
use pc_num::Memory;
use std::alloc::Global;

/// The kind that the fields of a column fit, or why they fit none.
#[tactic(auto, unfolding(crate::specs::Fits::fit_of))]
pub(crate) fn fit_of(alloc: Global, texts: &[Seq<u8>]) -> Result<Result<Kind, Said>, Memory>
    ensures value { IfOk result (λ fit. fit ≡ fit_of texts.now) }
    ensures is_kind { IfOk result (λ fit. IfOk fit IsKind) }
{
    if let Some(kind) = number_kind(texts) {
        return Ok(Ok(kind));
    }
    match names_of(alloc, texts)? {
        Some(names) => Ok(Ok(Kind::Cat { names })),
        None => Ok(Err(said_of(alloc, texts)?)),
    }
}

#[tactic(auto, unfolding(crate::specs::Fits::said_of))]
fn said_of(alloc: Global, texts: &[Seq<u8>]) -> Result<Said, Memory>
    ensures { IfOk result (λ what. what ≡ said_of texts.now) }
{
    if texts.is_empty() {
        return Ok(Said::NoRows);
    }
    if are_numbers(texts) {
        return said_of_numbers(alloc, texts);
    }
    if most_are_numbers(texts) {
        return said_of_most_numbers(alloc, texts);
    }
    if most_are_dates(texts) {
        return Ok(Said::Dates(date_count(texts) as u64, texts.len() as u64));
    }
    if all_may_name(texts) {
        return said_of_names(alloc, texts);
    }
    Ok(Said::NoName(odd_at(alloc, texts, first_no_name(texts))?))
}

fn are_numbers(texts: &[Seq<u8>]) -> bool
    ensures { result ≡ list_all is_number texts.now }
{
    texts.iter().all(|text| is_number(text.as_slice()))
}

// Of fields that are each a number.
fn said_of_numbers(alloc: Global, texts: &[Seq<u8>]) -> Result<Said, Memory>
    ensures { IfOk result (λ what. what ≡ saids.TooWide (first_odd (is_wide_at (decimals_of texts.now)) texts.now)) }
{
    let place = first_wide_at(decimals_of(texts), texts);
    Ok(Said::TooWide(odd_at(alloc, texts, place)?))
}

fn said_of_most_numbers(alloc: Global, texts: &[Seq<u8>]) -> Result<Said, Memory>
    ensures { IfOk result (λ what. what ≡ saids.Numbers (count_by is_number texts.now) (length texts.now) (first_odd is_no_number texts.now)) }
{
    let odd = odd_at(alloc, texts, first_no_number(texts))?;
    Ok(Said::Numbers(number_count(texts) as u64, texts.len() as u64, odd))
}

// Of fields that are names, but too many.
fn said_of_names(alloc: Global, texts: &[Seq<u8>]) -> Result<Said, Memory>
    requires { IsTrue (list_all may_name texts.now) }
    ensures { IfOk result (λ what. what ≡ saids.ManyNames (first_odd (bytes_eq (name_past texts.now)) texts.now)) }
{
    let names = different(alloc, texts)?;
    Ok(Said::ManyNames(odd_past(alloc, names.as_slice(), texts)?))
}

// The first field that is the name past those of which a column has as many as it may.
fn odd_past(alloc: Global, names: &[Text], texts: &[Seq<u8>]) -> Result<Odd, Memory>
    ensures { IfOk result (λ odd. odd ≡ first_odd (bytes_eq (field names.now 128)) texts.now) }
{
    odd_at(alloc, texts, first_of_name(name_past(names), texts))
}

fn name_past(names: &[Text]) -> &[u8]
    ensures { result.now ≡ field names.now 128 }
{
    if 128 < names.len() {
        return names[128].as_bytes();
    }
    &[]
}

fn odd_at(alloc: Global, texts: &[Seq<u8>], place: usize) -> Result<Odd, Memory>
    ensures { IfOk result (λ odd. odd ≡ odd_at texts.now place) }
{
    Ok(Odd {
        number: record_at(place),
        text: Seq::from_slice(alloc, text_at(texts, place))?,
    })
}

fn text_at(texts: &[Seq<u8>], place: usize) -> &[u8]
    ensures { result.now ≡ field texts.now place }
{
    if place < texts.len() {
        return texts[place].as_slice();
    }
    &[]
}

fn record_at(place: usize) -> u64
    ensures { result ≡ record_at place }
{
    (place as u64).saturating_add(2)
}

fn first_wide_at(scale: u8, texts: &[Seq<u8>]) -> usize
    ensures { result ≡ position_or_len (is_wide_at scale) texts.now }
{
    or_all(place_of_wide(scale, texts), texts)
}

fn place_of_wide(scale: u8, texts: &[Seq<u8>]) -> Option<usize>
    ensures { result ≡ position (is_wide_at scale) texts.now }
{
    texts
        .iter()
        .position(|text| !fits_at(scale, text.as_slice()))
}

fn first_no_number(texts: &[Seq<u8>]) -> usize
    ensures { result ≡ position_or_len is_no_number texts.now }
{
    or_all(place_of_no_number(texts), texts)
}

fn place_of_no_number(texts: &[Seq<u8>]) -> Option<usize>
    ensures { result ≡ position is_no_number texts.now }
{
    texts.iter().position(|text| !is_number(text.as_slice()))
}

fn first_no_name(texts: &[Seq<u8>]) -> usize
    ensures { result ≡ position_or_len is_no_name texts.now }
{
    or_all(place_of_no_name(texts), texts)
}

fn place_of_no_name(texts: &[Seq<u8>]) -> Option<usize>
    ensures { result ≡ position is_no_name texts.now }
{
    texts.iter().position(|text| !may_name(text.as_slice()))
}

fn first_of_name(name: &[u8], texts: &[Seq<u8>]) -> usize
    ensures { result ≡ position_or_len (bytes_eq name.now) texts.now }
{
    or_all(place_of_name(name, texts), texts)
}

fn place_of_name(name: &[u8], texts: &[Seq<u8>]) -> Option<usize>
    ensures { result ≡ position (bytes_eq name.now) texts.now }
{
    texts.iter().position(|text| name == text.as_slice())
}

// The place that is found, or else how many there are.
#[tactic(auto, using(crate::proofs::Odds::place_is))]
fn or_all(place: Option<usize>, texts: &[Seq<u8>]) -> usize
    ensures { (test : List ℕ → Bool) → place ≡ position test texts.now → result ≡ position_or_len test texts.now }
{
    place.unwrap_or(texts.len())
}

/// The first number of a column in front of which a 0 stands.
pub(crate) fn zero_of(alloc: Global, texts: &[Seq<u8>], kind: &Kind) -> Result<Option<Odd>, Memory>
    ensures { IfOk result (λ zero. zero ≡ zero_of texts.now kind.now) }
{
    match kind {
        Kind::Int { .. } | Kind::Dec { .. } => odd_found(alloc, texts, place_of_lost_zero(texts)),
        Kind::Cat { .. } => Ok(None),
    }
}

fn odd_found(alloc: Global, texts: &[Seq<u8>], place: Option<usize>) -> Result<Option<Odd>, Memory>
    ensures { IfOk result (λ odd. odd ≡ odd_found texts.now place) }
{
    match place {
        Some(place) => Ok(Some(odd_at(alloc, texts, place)?)),
        None => Ok(None),
    }
}

fn place_of_lost_zero(texts: &[Seq<u8>]) -> Option<usize>
    ensures { result ≡ position has_lost_zero texts.now }
{
    texts.iter().position(|text| has_lost_zero(text.as_slice()))
}
