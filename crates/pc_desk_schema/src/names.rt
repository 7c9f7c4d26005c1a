ghost use Rattle.std.specs.Prelude.{◌≡◌, [], IfOk, IfSome, IsTrue};
ghost use Rattle.std.specs.List.{count_by, list_all, list_any};
ghost use Rattle.std.specs.Str.{bytes_eq};
ghost use Rattle.pc_model.specs.Texts.{IsName, is_name};
ghost use Rattle.pc_model.specs.WellFormed.{AreNames, AreValues};
ghost use Rattle.pc_desk_schema.specs.Dates.{is_date};
ghost use Rattle.pc_desk_schema.specs.Names.{are_most, are_names, different_from, few, may_name, names_of, with_text};
ghost use Rattle.pc_desk_schema.specs.Numbers.{is_number, is_past_limit};

use crate::dates::is_date;
use crate::numbers::{is_number, is_past_limit};
use pc_list::{Seq, Text};
use pc_model::is_name;
use pc_num::Memory;
use std::alloc::Global;
use std::str;

const MOST_NAMES: usize = 128;

/// The different fields of a column in order of the first of each, where they are names, and not too many.
#[tactic(auto, using(crate::proofs::Named::each_may_name), unfolding(crate::specs::Names::names_of))]
pub(crate) fn names_of(alloc: Global, texts: &[Seq<u8>]) -> Result<Option<Seq<Text>>, Memory>
    ensures value { IfOk result (λ names. names ≡ names_of texts.now) }
    ensures are { IfOk result (λ names. IfSome names AreValues) }
{
    if !are_names(texts) {
        return Ok(None);
    }
    let names = different(alloc, texts)?;
    Ok(few(names))
}

fn few(names: Seq<Text>) -> Option<Seq<Text>>
    requires { AreNames names }
    ensures value { result ≡ few names }
    ensures are { IfSome result AreValues }
{
    if names.is_empty() || MOST_NAMES < names.len() {
        return None;
    }
    Some(names)
}

fn are_names(texts: &[Seq<u8>]) -> bool
    ensures { result ≡ are_names texts.now }
{
    if !all_may_name(texts) {
        return false;
    }
    if most_are_numbers(texts) {
        return false;
    }
    !most_are_dates(texts)
}

/// Whether each field may stand as a name.
pub(crate) fn all_may_name(texts: &[Seq<u8>]) -> bool
    ensures { result ≡ list_all may_name texts.now }
{
    texts.iter().all(|text| may_name(text.as_slice()))
}

/// Whether a field may stand as a name.
pub(crate) fn may_name(text: &[u8]) -> bool
    ensures { result ≡ may_name text.now }
{
    is_name(text) && !is_past_limit(text)
}

/// Whether more fields are numbers than are not.
pub(crate) fn most_are_numbers(texts: &[Seq<u8>]) -> bool
    ensures { result ≡ are_most is_number texts.now }
{
    let count = number_count(texts);
    texts.len() - count < count
}

/// How many fields are numbers.
pub(crate) fn number_count(texts: &[Seq<u8>]) -> usize
    ensures { result ≡ count_by is_number texts.now }
{
    texts
        .iter()
        .filter(|text| is_number(text.as_slice()))
        .count()
}

/// Whether more fields are dates than are not.
pub(crate) fn most_are_dates(texts: &[Seq<u8>]) -> bool
    ensures { result ≡ are_most is_date texts.now }
{
    let count = date_count(texts);
    texts.len() - count < count
}

/// How many fields are dates.
pub(crate) fn date_count(texts: &[Seq<u8>]) -> usize
    ensures { result ≡ count_by is_date texts.now }
{
    texts.iter().filter(|text| is_date(text.as_slice())).count()
}

/// The different fields, as far as they are not too many.
#[tactic(auto, using(std::proofs::lemmas::List::Sums::fold_more, crate::proofs::Named::name_at))]
pub(crate) fn different(alloc: Global, texts: &[Seq<u8>]) -> Result<Seq<Text>, Memory>
    requires { IsTrue (list_all may_name texts.now) }
    ensures value { IfOk result (λ names. names ≡ different_from [] texts.now) }
    ensures are { IfOk result AreNames }
{
    let mut names = Seq::new(alloc);
    for text in texts {
        names = with_text(alloc, names, text.as_slice())?;
    }
    Ok(names)
}

#[tactic(auto, using(pc_schema::proofs::Names::more_names))]
fn with_text(alloc: Global, mut names: Seq<Text>, text: &[u8]) -> Result<Seq<Text>, Memory>
    requires { IsName text.now }
    ensures value { IfOk result (λ after. after ≡ with_text names text.now) }
    ensures are { AreNames names → IfOk result AreNames }
{
    if is_among(names.as_slice(), text) || MOST_NAMES < names.len() {
        return Ok(names);
    }
    let name = text_of_name(alloc, text)?;
    names.push(name)?;
    Ok(names)
}

fn is_among(names: &[Text], text: &[u8]) -> bool
    ensures { result ≡ list_any (bytes_eq text.now) names.now }
{
    names.iter().any(|name| text == name.as_bytes())
}

/// A copy of a name.
pub(crate) fn text_of_name(alloc: Global, name: &[u8]) -> Result<Text, Memory>
    requires { IsName name.now }
    ensures { IfOk result (λ copy. copy ≡ name.now) }
{
    match str::from_utf8(name) {
        Ok(name) => Ok(Text::from_text(alloc, name)?),
        Err(_) => unreachable!(),
    }
}
