use crate::trouble::Trouble;
use pc_list::Seq;
use pc_program_bound::Program;
use std::alloc::Global;
use std::str::{FromStr, SplitAsciiWhitespace};

/// The program of a text: `program NAME`, `constraints M`, M times `LEAST MOST`, `cells N`, and N times
/// `MASK FLOOR CAP GAIN`.
pub(crate) fn read_program(alloc: Global, text: &str) -> Result<Program, Trouble> {
    let mut words = text.split_ascii_whitespace();
    skip(&mut words, "program")?;
    words.next().ok_or(Trouble::Text)?;
    let mut p = nothing(alloc);
    read_constraints(&mut words, &mut p)?;
    read_cells(&mut words, &mut p)?;
    match words.next() {
        Some(_) => Err(Trouble::Text),
        None => Ok(p),
    }
}

fn nothing(alloc: Global) -> Program {
    Program {
        masks: Seq::new(alloc),
        least: Seq::new(alloc),
        most: Seq::new(alloc),
        floor: Seq::new(alloc),
        cap: Seq::new(alloc),
        gain: Seq::new(alloc),
    }
}

fn read_constraints(words: &mut SplitAsciiWhitespace<'_>, p: &mut Program) -> Result<(), Trouble> {
    skip(words, "constraints")?;
    let count: u64 = number(words)?;
    for _ in 0..count {
        push_number(words, &mut p.least)?;
        push_number(words, &mut p.most)?;
    }
    Ok(())
}

fn read_cells(words: &mut SplitAsciiWhitespace<'_>, p: &mut Program) -> Result<(), Trouble> {
    skip(words, "cells")?;
    let count: u64 = number(words)?;
    for _ in 0..count {
        push_number(words, &mut p.masks)?;
        push_number(words, &mut p.floor)?;
        push_number(words, &mut p.cap)?;
        push_number(words, &mut p.gain)?;
    }
    Ok(())
}

pub(crate) fn skip(words: &mut SplitAsciiWhitespace<'_>, wanted: &str) -> Result<(), Trouble> {
    match words.next() {
        Some(word) if word == wanted => Ok(()),
        _ => Err(Trouble::Text),
    }
}

fn push_number<T: FromStr + Drop>(
    words: &mut SplitAsciiWhitespace<'_>,
    numbers: &mut Seq<T>,
) -> Result<(), Trouble>
where
    T::Err: Drop,
{
    numbers.push(number(words)?)?;
    Ok(())
}

pub(crate) fn number<T: FromStr>(words: &mut SplitAsciiWhitespace<'_>) -> Result<T, Trouble>
where
    T::Err: Drop,
{
    let word = words.next().ok_or(Trouble::Text)?;
    word.parse::<T>().map_err(|_| Trouble::Text)
}
