ghost use Rattle.std.specs.Prelude.{◌≡◌, ◌≤◌, [], fold, length, max, min, reverse, IfOk, IfSome, unsigned_abs};
ghost use Rattle.std.specs.List.{find, list_all, list_any};
ghost use Rattle.pc_num.specs.Scaled.{without_sign};
ghost use Rattle.pc_model.specs.WellFormed.{IsKind, IsSmall, IsSpan};
ghost use Rattle.pc_rows.specs.RowFile.{after_spaces, without_spaces};
ghost use Rattle.pc_desk_schema.specs.Numbers.{behind_point, decimals_of, decimals_spelled, ends_at, ends_from, fits_at, has_form, has_lost_zero, has_room_at, is_number, is_past_limit, kind_at, leads_with_zero, lone, number_at, number_kind, scale_of, spelled_decimals, value_at, wider};

use pc_list::Seq;
use pc_model::Kind;
use pc_num::{NumFault, read_scaled};

/// The least and the greatest of some numbers.
#[derive(Clone, Copy, Debug, PartialEq, Eq)]
pub(crate) struct Ends {
    pub low: i64,
    pub high: i64,
}

// The scales that a column may have.
const SCALES: [u8; 7] = [0, 1, 2, 3, 4, 5, 6];

/// Whether a field is a number that is read at some scale.
#[tactic(auto, unfolding(crate::specs::Numbers::is_number))]
pub(crate) fn is_number(text: &[u8]) -> bool
    ensures { result ≡ is_number text.now }
{
    fits_some(&SCALES, text)
}

fn fits_some(scales: &[u8], text: &[u8]) -> bool
    ensures { result ≡ list_any (λ scale. fits_at scale text.now) scales.now }
{
    scales.iter().any(|scale| fits_at(*scale, text))
}

/// Whether a field is in the form of a number that is not read.
#[tactic(auto, unfolding(crate::specs::Numbers::is_past_limit))]
pub(crate) fn is_past_limit(text: &[u8]) -> bool
    ensures { result ≡ is_past_limit text.now }
{
    has_form(text) && !is_number(text)
}

/// The kind of a column in which each field is a number, with as many decimals as are spelled where all are read so.
#[tactic(auto, unfolding(crate::specs::Numbers::number_kind))]
pub(crate) fn number_kind(texts: &[Seq<u8>]) -> Option<Kind>
    ensures value { result ≡ number_kind texts.now }
    ensures is_kind { IfSome result IsKind }
{
    let scale = scale_of(texts)?;
    let ends = ends_at(scale, texts)?;
    Some(kind_at(scale, ends))
}

fn kind_at(scale: u8, ends: Ends) -> Kind
    requires few { scale ≤ 6 }
    requires span { IsSpan ends.low ends.high }
    ensures value { result ≡ kind_at scale ends }
    ensures is_kind { IsKind result }
{
    let Ends { low, high } = ends;
    if scale == 0 {
        return Kind::Int { low, high };
    }
    Kind::Dec { scale, low, high }
}

fn scale_of(texts: &[Seq<u8>]) -> Option<u8>
    ensures value { result ≡ scale_of texts.now }
    ensures few { IfSome result (λ scale. scale ≤ 6) }
{
    if all_fit(0, texts) {
        return Some(0);
    }
    let spelled = decimals_spelled(texts);
    if all_fit(spelled, texts) {
        return Some(spelled);
    }
    scale_among(&SCALES, texts)
}

#[tactic(auto, using(std::proofs::lemmas::List::Sums::fold_more))]
fn decimals_spelled(texts: &[Seq<u8>]) -> u8
    ensures value { result ≡ decimals_spelled texts.now }
    ensures few { result ≤ 6 }
{
    let mut most = 0;
    for text in texts {
        most = greater(most, spelled_decimals(text.as_slice()));
    }
    most
}

fn greater(most: u8, other: u8) -> u8
    requires most { most ≤ 6 }
    requires other { other ≤ 6 }
    ensures value { result ≡ max most other }
    ensures few { result ≤ 6 }
{
    most.max(other)
}

fn spelled_decimals(text: &[u8]) -> u8
    ensures value { result ≡ spelled_decimals text.now }
    ensures few { result ≤ 6 }
{
    up_to_six(behind_point(without_spaces(text)))
}

fn up_to_six(count: usize) -> u8
    ensures value { result ≡ min 6 count }
    ensures few { result ≤ 6 }
{
    if count < 6 {
        return count as u8;
    }
    6
}

#[tactic(auto, unfolding(crate::specs::Numbers::behind_point))]
fn behind_point(mut text: &[u8]) -> usize
    ensures { result ≡ behind_point text.entry.now }
{
    while let [byte, rest @ ..] = text {
        if *byte == b'.' {
            return rest.len();
        }
        text = rest;
    }
    0
}

#[tactic(auto, using(crate::proofs::Scales::scan))]
fn scale_among(scales: &[u8], texts: &[Seq<u8>]) -> Option<u8>
    ensures { result ≡ find (λ scale. list_all (fits_at scale) texts.now) scales.now }
{
    for scale in scales {
        if all_fit(*scale, texts) {
            return Some(*scale);
        }
    }
    None
}

/// As many decimals as some of the numbers need.
pub(crate) fn decimals_of(texts: &[Seq<u8>]) -> u8
    ensures { result ≡ decimals_of texts.now }
{
    room_among(&SCALES, texts).unwrap_or(6)
}

#[tactic(auto, using(crate::proofs::Scales::scan))]
fn room_among(scales: &[u8], texts: &[Seq<u8>]) -> Option<u8>
    ensures { result ≡ find (λ scale. list_all (has_room_at scale) texts.now) scales.now }
{
    for scale in scales {
        if all_have_room(*scale, texts) {
            return Some(*scale);
        }
    }
    None
}

fn all_have_room(scale: u8, texts: &[Seq<u8>]) -> bool
    ensures { result ≡ list_all (has_room_at scale) texts.now }
{
    texts.iter().all(|text| has_room_at(scale, text.as_slice()))
}

fn has_room_at(scale: u8, text: &[u8]) -> bool
    ensures { result ≡ has_room_at scale text.now }
{
    match number_at(scale, text) {
        Ok(_) => true,
        Err(NumFault::NotANumber) => true,
        Err(NumFault::TooManyDecimals) => false,
        Err(NumFault::PastLimit) => true,
    }
}

fn all_fit(scale: u8, texts: &[Seq<u8>]) -> bool
    ensures { result ≡ list_all (fits_at scale) texts.now }
{
    texts.iter().all(|text| fits_at(scale, text.as_slice()))
}

fn ends_at(scale: u8, texts: &[Seq<u8>]) -> Option<Ends>
    ensures value { result ≡ ends_at scale texts.now }
    ensures is_span { IfSome result (λ ends. IsSpan ends.low ends.high) }
{
    match texts {
        [first, rest @ ..] => Some(ends_from(scale, lone(value_at(scale, first.as_slice())), rest)),
        [] => None,
    }
}

fn lone(number: i64) -> Ends
    requires { IsSmall number }
    ensures value { result ≡ lone number }
    ensures is_span { IsSpan result.low result.high }
{
    Ends {
        low: number,
        high: number,
    }
}

#[tactic(auto, using(std::proofs::lemmas::List::Sums::fold_more))]
fn ends_from(scale: u8, start: Ends, texts: &[Seq<u8>]) -> Ends
    requires { IsSpan start.low start.high }
    ensures value { result ≡ ends_from scale start texts.now }
    ensures is_span { IsSpan result.low result.high }
{
    let mut ends = start;
    for text in texts {
        ends = wider(ends, value_at(scale, text.as_slice()));
    }
    ends
}

#[tactic(auto, using(crate::proofs::Wider::wider_span))]
fn wider(ends: Ends, number: i64) -> Ends
    requires span { IsSpan ends.low ends.high }
    requires small { IsSmall number }
    ensures value { result ≡ wider ends number }
    ensures is_span { IsSpan result.low result.high }
{
    Ends {
        low: ends.low.min(number),
        high: ends.high.max(number),
    }
}

/// Whether a field is a number that fits at this scale.
pub(crate) fn fits_at(scale: u8, text: &[u8]) -> bool
    ensures { result ≡ fits_at scale text.now }
{
    number_at(scale, text).is_ok()
}

fn value_at(scale: u8, text: &[u8]) -> i64
    ensures value { result ≡ value_at scale text.now }
    ensures small { IsSmall result }
{
    match number_at(scale, text) {
        Ok(number) => number,
        Err(_) => 0,
    }
}

// Whether a text is in the form of a number, be it too long or too large.
fn has_form(text: &[u8]) -> bool
    ensures { result ≡ has_form (number_at 0 text.now) }
{
    match number_at(0, text) {
        Ok(_) => true,
        Err(NumFault::NotANumber) => false,
        Err(NumFault::TooManyDecimals) => true,
        Err(NumFault::PastLimit) => true,
    }
}

fn number_at(scale: u8, text: &[u8]) -> Result<i64, NumFault>
    ensures value { result ≡ number_at scale text.now }
    ensures small { IfOk result IsSmall }
{
    read_scaled(without_spaces(text), scale)
}

// Spaces alone: a tab is part of the text.
fn without_spaces(text: &[u8]) -> &[u8]
    ensures { result.now ≡ without_spaces text.now }
{
    before_spaces(after_spaces(text))
}

#[tactic(auto, unfolding(pc_rows::specs::RowFile::after_spaces))]
fn after_spaces(mut text: &[u8]) -> &[u8]
    ensures { result.now ≡ after_spaces text.entry.now }
{
    while let [b' ', rest @ ..] = text {
        text = rest;
    }
    text
}

#[tactic(auto, unfolding(pc_rows::specs::RowFile::after_spaces))]
fn before_spaces(mut text: &[u8]) -> &[u8]
    ensures { result.now ≡ reverse (after_spaces (reverse text.entry.now)) }
{
    while let [rest @ .., b' '] = text {
        text = rest;
    }
    text
}

/// Whether a 0 stands before another digit of a number.
pub(crate) fn has_lost_zero(text: &[u8]) -> bool
    ensures { result ≡ has_lost_zero text.now }
{
    leads_with_zero(without_sign(after_spaces(text)))
}

fn without_sign(text: &[u8]) -> &[u8]
    ensures { result.now ≡ without_sign text.now }
{
    match text {
        [b'-' | b'+', rest @ ..] => rest,
        _ => text,
    }
}

fn leads_with_zero(text: &[u8]) -> bool
    ensures { result ≡ leads_with_zero text.now }
{
    match text {
        [first, second, ..] => *first == b'0' && second.is_ascii_digit(),
        _ => false,
    }
}
