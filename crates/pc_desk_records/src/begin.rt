ghost use Rattle.std.specs.Prelude.{◌≡◌, ◌<◌, ◌≤◌, length, IfSome};
ghost use Rattle.pc_desk_records.specs.Beginnings.{begin_of, begins, behind_quote, feeds_in, in_field, in_quotes, is_there, left_after, line_at, one_for, opening, passed, stance_after};

/// Where a text of records is gone through to.
#[derive(Clone, Copy, Debug, PartialEq, Eq)]
pub(crate) enum Stance {
    /// Between two records.
    Between,
    /// At the start of a field that is not the first of its record.
    Opening,
    /// In a field without quotes.
    Plain,
    /// In a field between quotes.
    Quoted,
    /// Behind a quote in such a field.
    Quote,
}

/// How far a text of records is gone through, and how many records are still to begin before the one that is sought.
#[derive(Clone, Copy, Debug, PartialEq, Eq)]
pub(crate) struct Passage {
    pub stance: Stance,
    pub left: u64,
}

/// The place at which the record begins before which so many stand.
#[tactic(auto, using(crate::proofs::Begun::steps), unfolding(crate::specs::Beginnings::begin_of))]
pub(crate) fn begin_of(text: &[u8], before: u64) -> Option<usize>
    ensures value { result ≡ begin_of before text.now }
    ensures inside { IfSome result (λ place. place < length text.now) }
{
    let mut passage = Passage {
        stance: Stance::Between,
        left: before,
    };
    for (place, byte) in text.iter().enumerate() {
        if is_there(passage, *byte) {
            return Some(place);
        }
        passage = passed(passage, *byte);
    }
    None
}

fn is_there(passage: Passage, byte: u8) -> bool
    ensures { result ≡ is_there passage byte }
{
    passage.left == 0 && begins(passage.stance, byte)
}

// .. with one byte more, which does not begin the record.
fn passed(passage: Passage, byte: u8) -> Passage
    ensures { result ≡ passed passage byte }
{
    Passage {
        stance: stance_after(passage.stance, byte),
        left: left_after(passage, byte),
    }
}

fn left_after(passage: Passage, byte: u8) -> u64
    ensures { result ≡ left_after passage byte }
{
    if begins(passage.stance, byte) {
        return passage.left.saturating_sub(1);
    }
    passage.left
}

// Whether a record begins with the byte. Empty lines are none.
fn begins(stance: Stance, byte: u8) -> bool
    ensures { result ≡ begins stance byte }
{
    match stance {
        Stance::Between => byte != b'\r' && byte != b'\n',
        _ => false,
    }
}

fn stance_after(stance: Stance, byte: u8) -> Stance
    ensures { result ≡ stance_after stance byte }
{
    match stance {
        Stance::Between | Stance::Opening => opening(byte),
        Stance::Plain => in_field(byte),
        Stance::Quoted => in_quotes(byte),
        Stance::Quote => behind_quote(byte),
    }
}

fn opening(byte: u8) -> Stance
    ensures { result ≡ opening byte }
{
    if byte == b'"' {
        return Stance::Quoted;
    }
    in_field(byte)
}

fn in_field(byte: u8) -> Stance
    ensures { result ≡ in_field byte }
{
    match byte {
        b',' => Stance::Opening,
        b'\r' | b'\n' => Stance::Between,
        _ => Stance::Plain,
    }
}

fn in_quotes(byte: u8) -> Stance
    ensures { result ≡ in_quotes byte }
{
    if byte == b'"' {
        return Stance::Quote;
    }
    Stance::Quoted
}

fn behind_quote(byte: u8) -> Stance
    ensures { result ≡ behind_quote byte }
{
    if byte == b'"' {
        return Stance::Quoted;
    }
    in_field(byte)
}

/// The line on which a place of a text is, from 1. Lines end with LF.
pub(crate) fn line_at(text: &[u8], place: usize) -> u64
    requires { place < length text.now }
    ensures { result ≡ line_at place text.now }
{
    feeds_in(&text[..place]) as u64 + 1
}

#[tactic(auto, using(crate::proofs::Begun::feeds))]
fn feeds_in(text: &[u8]) -> usize
    ensures exact { result ≡ feeds_in text.now }
    ensures within { result ≤ length text.now }
{
    let mut count = 0;
    for byte in text {
        count += one_for(*byte);
    }
    count
}

fn one_for(byte: u8) -> usize
    ensures { result ≡ one_for byte }
{
    if byte == b'\n' { 1 } else { 0 }
}
