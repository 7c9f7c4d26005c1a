//! Lists of numbers, multipliers and the ends of boxes, as questions and answers spell them.
use crate::trouble::Trouble;
use pc_list::Seq;
use pc_model::Mult;
use pc_program_bound::Program;
use std::alloc::{AllocError, Global};
use std::str::FromStr;

/// Numbers with blanks between them.
pub(super) fn read_list<T: FromStr + Drop>(alloc: Global, text: &str) -> Result<Seq<T>, Trouble>
where
    T::Err: Drop,
{
    let mut numbers = Seq::new(alloc);
    for word in text.split_ascii_whitespace() {
        numbers.push(read_number(word)?)?;
    }
    Ok(numbers)
}

pub(super) fn read_number<T: FromStr>(word: &str) -> Result<T, Trouble>
where
    T::Err: Drop,
{
    word.parse::<T>().map_err(|_| Trouble::Question)
}

/// `NUMBER .. over NUMBER`.
pub(super) fn read_mult(alloc: Global, text: &str) -> Result<Mult, Trouble> {
    let (by, den) = text.split_once(" over ").ok_or(Trouble::Question)?;
    Ok(Mult {
        by: read_list(alloc, by)?,
        den: read_number(den)?,
    })
}

/// The floors and caps of a box.
#[derive(Drop)]
pub(super) struct Ends {
    pub(super) floor: Seq<u64>,
    pub(super) cap: Seq<u64>,
}

impl Ends {
    /// `FLOOR .. to CAP ..`, or nothing for the program's own box.
    pub(super) fn read(alloc: Global, p: &Program, text: &str) -> Result<Ends, Trouble> {
        if text.is_empty() {
            return Ends::own(alloc, p);
        }
        let (floor, cap) = text.split_once("to").ok_or(Trouble::Question)?;
        Ok(Ends {
            floor: read_list(alloc, floor)?,
            cap: read_list(alloc, cap)?,
        })
    }

    fn own(alloc: Global, p: &Program) -> Result<Ends, Trouble> {
        Ok(Ends {
            floor: Seq::from_slice(alloc, p.floor.as_slice())?,
            cap: Seq::from_slice(alloc, p.cap.as_slice())?,
        })
    }
}

/// Counts, each after a blank.
pub(super) fn counts_text(alloc: Global, counts: &[u64]) -> Result<String, AllocError> {
    let mut text = String::new(alloc);
    for count in counts {
        let more = format!(in alloc; " {count}")?;
        text.push_str(more.as_str())?;
    }
    Ok(text)
}

/// A word, and the multipliers each after a blank.
pub(super) fn multipliers_text(
    alloc: Global,
    word: &str,
    by: &[i128],
) -> Result<String, AllocError> {
    let mut text = String::from_str(alloc, word)?;
    for number in by {
        let more = format!(in alloc; " {number}")?;
        text.push_str(more.as_str())?;
    }
    Ok(text)
}

/// A word, and multipliers with their denominator.
pub(super) fn mult_text(alloc: Global, word: &str, mult: &Mult) -> Result<String, AllocError> {
    let mut text = multipliers_text(alloc, word, mult.by.as_slice())?;
    let den = mult.den;
    let more = format!(in alloc; " over {den}")?;
    text.push_str(more.as_str())?;
    Ok(text)
}
