ghost use Rattle.std.specs.Prelude.{◌≡◌, ◌+◌, ◌≤◌, ◌∷◌, length};
ghost use Rattle.std.specs.List.{list_all};
ghost use Rattle.pc_model.specs.WellFormed.{HasFewNames};
ghost use Rattle.pc_lang.specs.Claims.{bit_if, bits_of, is_among, set_of, stated, stated_names, stated_numbers};

use pc_lang_grammar::Claim;
use pc_list::Text;
use pc_model::{Kind, Reason, Side, read_number};

/// Which numbers or names of a column of this kind a claim states.
#[tactic(auto, unfolding(crate::specs::Claims::stated))]
pub(crate) fn stated(kind: &Kind, claim: &Claim) -> Result<Side, Reason>
    requires { HasFewNames kind.now }
    ensures { result ≡ stated kind.now claim.now }
{
    match kind {
        Kind::Int { low, high } => stated_numbers(0, *low, *high, claim),
        Kind::Dec { scale, low, high } => stated_numbers(*scale, *low, *high, claim),
        Kind::Cat { names } => stated_names(names.as_slice(), claim),
    }
}

// Numbers of files are small, so the next one and the one before are numbers too.
#[tactic(auto, unfolding(crate::specs::Claims::stated_numbers))]
fn stated_numbers(scale: u8, low: i64, high: i64, claim: &Claim) -> Result<Side, Reason>
    ensures { result ≡ stated_numbers scale low high claim.now }
{
    let (low, high) = match claim {
        Claim::Number(text) => {
            let number = read_number(text.as_slice(), scale)?;
            (number, number)
        }
        Claim::AtLeast(text) => (read_number(text.as_slice(), scale)?, high),
        Claim::AtMost(text) => (low, read_number(text.as_slice(), scale)?),
        Claim::Above(text) => (read_number(text.as_slice(), scale)? + 1, high),
        Claim::Below(text) => (low, read_number(text.as_slice(), scale)? - 1),
        Claim::Within { low, high } => (
            read_number(low.as_slice(), scale)?,
            read_number(high.as_slice(), scale)?,
        ),
        Claim::Name(_) | Claim::Among { .. } => return Err(Reason::WrongKind),
    };
    Ok(Side::Span { low, high })
}

#[tactic(auto, unfolding(crate::specs::Claims::stated_names))]
fn stated_names(names: &[Text], claim: &Claim) -> Result<Side, Reason>
    requires { length names.now ≤ 128 }
    ensures { result ≡ stated_names names.now claim.now }
{
    match claim {
        Claim::Name(name) => set_of(names, name.as_bytes(), &[]),
        Claim::Among { first, others } => set_of(names, first.as_bytes(), others.as_slice()),
        _ => Err(Reason::WrongKind),
    }
}

// The set of the first name and the others.
#[tactic(auto, unfolding(crate::specs::Claims::set_of))]
fn set_of(names: &[Text], first: &[u8], others: &[Text]) -> Result<Side, Reason>
    requires { length names.now ≤ 128 }
    ensures { result ≡ set_of names.now (first.now ∷ others.now) }
{
    if !is_among(names, first) {
        return Err(Reason::UnknownName);
    }
    if !are_among(names, others) {
        return Err(Reason::UnknownName);
    }
    Ok(Side::Names {
        bits: bits_of(first, others, names),
    })
}

fn is_among(names: &[Text], name: &[u8]) -> bool
    ensures { result ≡ is_among names.now name.now }
{
    names.iter().any(|other| other.as_bytes() == name)
}

fn are_among(names: &[Text], stated: &[Text]) -> bool
    ensures { result ≡ list_all (is_among names.now) stated.now }
{
    stated.iter().all(|name| is_among(names, name.as_bytes()))
}

// From the last name to the first, which is the last bit.
#[tactic(auto, using(crate::proofs::Bits::steps))]
fn bits_of(first: &[u8], others: &[Text], names: &[Text]) -> u128
    requires { length names.now ≤ 128 }
    ensures { result ≡ bits_of (first.now ∷ others.now) names.now }
{
    let mut bits = 0;
    for place in (0..names.len()).rev() {
        bits = bits * 2 + bit_of(first, others, names[place].as_bytes());
    }
    bits
}

fn bit_of(first: &[u8], others: &[Text], name: &[u8]) -> u128
    ensures exact { result ≡ bit_if (is_among (first.now ∷ others.now) name.now) }
    ensures small { result ≤ 1 }
{
    if first == name {
        return 1;
    }
    if is_among(others, name) { 1 } else { 0 }
}
