//! Trials: files of programs, domains and boxes with questions, and the answers that are wanted.
mod boxes;
mod domains;
mod editing;
mod growing;
mod lines;
mod numbers;
mod programs;
mod relaxing;
mod searching;
mod sharing;
mod walking;

use crate::trials::lines::{Ground, Line, line_of};
use crate::trouble::Trouble;
use std::alloc::{AllocError, Global};
use std::fs;
use std::rt::Files;

/// The folders of the trials.
const FAMILIES: [&str; 7] = [
    "searches",
    "shares",
    "bounds",
    "relaxations",
    "trees",
    "cells",
    "boxes",
];

/// How many questions there are, and how many answers differ from what is wanted.
#[derive(Clone, Copy)]
struct Count {
    cases: u64,
    wrong: u64,
}

impl Count {
    const NONE: Count = Count { cases: 0, wrong: 0 };

    const WRONG: Count = Count { cases: 0, wrong: 1 };

    fn of_case(is_right: bool) -> Count {
        Count {
            cases: 1,
            wrong: if is_right { 0 } else { 1 },
        }
    }

    fn with(self, other: Count) -> Count {
        Count {
            cases: self.cases.saturating_add(other.cases),
            wrong: self.wrong.saturating_add(other.wrong),
        }
    }
}

/// Asks the questions of each family, and prints how many there are, and each answer that differs.
pub(crate) fn tell<R: Files + Print + AllocGlobal + Clone + Drop>(rt: &R) -> Result<(), Trouble> {
    for family in FAMILIES {
        tell_family(rt, family)?;
    }
    Ok(())
}

fn tell_family<R: Files + Print + AllocGlobal + Clone + Drop>(
    rt: &R,
    family: &str,
) -> Result<(), Trouble> {
    match names_of(rt, family) {
        Ok(names) => {
            let count = tell_files(rt, family, names.as_slice())?;
            tell_count(rt, family, count)
        }
        Err(Trouble::Memory) => Err(Trouble::Memory),
        Err(_) => {
            println!(rt; "{family}: its folder is not there")?;
            Ok(())
        }
    }
}

/// The names of the files of a family, in order.
fn names_of<R: Files + AllocGlobal + Clone + Drop>(
    rt: &R,
    family: &str,
) -> Result<Vec<String>, Trouble> {
    let folder = format!(in rt.alloc(); "trials/{family}")?;
    let mut names = Vec::new(rt.alloc());
    for entry in fs::read_dir(rt, folder.as_str())? {
        let entry = entry?;
        names.push(String::from_str(rt.alloc(), entry.file_name())?)?;
    }
    names.sort()?;
    Ok(names)
}

fn tell_count(rt: &impl Print, family: &str, count: Count) -> Result<(), Trouble> {
    let Count { cases, wrong } = count;
    if wrong == 0 {
        println!(rt; "{family}: {cases} cases")?;
    } else {
        println!(rt; "{family}: {cases} cases, {wrong} wrong")?;
    }
    Ok(())
}

fn tell_files<R: Files + Print + AllocGlobal>(
    rt: &R,
    family: &str,
    names: &[String],
) -> Result<Count, Trouble> {
    let mut count = Count::NONE;
    for name in names {
        let path = path_of(rt.alloc(), family, name.as_str())?;
        let more = tell_file(rt, path.as_str())?;
        count = count.with(more);
    }
    Ok(count)
}

fn path_of(alloc: Global, family: &str, name: &str) -> Result<String, AllocError> {
    format!(in alloc; "trials/{family}/{name}")
}

fn tell_file<R: Files + Print + AllocGlobal>(rt: &R, path: &str) -> Result<Count, Trouble> {
    let Ok(text) = fs::read_to_string(rt, path) else {
        println!(rt; "{path} is not read")?;
        return Ok(Count::WRONG);
    };
    if !text.as_str().starts_with("# ") {
        println!(rt; "{path} does not begin with a comment")?;
        return Ok(Count::WRONG);
    }
    let count = tell_lines(rt, path, text.as_str())?;
    if count.cases == 0 {
        println!(rt; "{path} asks nothing")?;
        return Ok(Count::WRONG);
    }
    Ok(count)
}

fn tell_lines<R: Print + AllocGlobal>(rt: &R, path: &str, text: &str) -> Result<Count, Trouble> {
    let mut count = Count::NONE;
    let mut ground = Ground::new(rt.alloc());
    for (place, line) in text.lines().enumerate() {
        let number = place.saturating_add(1);
        match line_of(line) {
            Line::Nothing => {}
            Line::Ground(line) => ground.add(line)?,
            Line::Question { asked, wanted } => {
                let came = said(rt.alloc(), ground.ask(), asked)?;
                let is_right = came.as_str() == wanted;
                if !is_right {
                    tell_case(rt, path, number, asked, wanted, came.as_str())?;
                }
                count = count.with(Count::of_case(is_right));
            }
            Line::Other => {
                println!(rt; "{path}:{number} is no line of a trial")?;
                count = count.with(Count::WRONG);
            }
        }
    }
    Ok(count)
}

fn tell_case(
    rt: &impl Print,
    path: &str,
    number: usize,
    asked: &str,
    wanted: &str,
    came: &str,
) -> Result<(), Trouble> {
    println!(rt; "{path}:{number}: {asked}\n  wanted: {wanted}\n  came: {came}")?;
    Ok(())
}

/// The answer to a question, or why there is none.
fn said(alloc: Global, ground: &str, asked: &str) -> Result<String, Trouble> {
    match answer(alloc, ground, asked) {
        Ok(text) => Ok(text),
        Err(Trouble::Memory) => Err(Trouble::Memory),
        Err(trouble) => Ok(format!(in alloc; "{trouble}")?),
    }
}

fn answer(alloc: Global, ground: &str, asked: &str) -> Result<String, Trouble> {
    if ground.starts_with("program ") {
        return programs::answer(alloc, ground, asked);
    }
    if ground.starts_with("column ") {
        return domains::answer(alloc, ground, asked);
    }
    boxes::answer(alloc, ground, asked)
}
