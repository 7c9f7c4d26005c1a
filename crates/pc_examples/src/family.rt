//! The files of a family of trials, in the order of their names.
use crate::example::path;
use crate::trial::Trial;
use crate::trouble::Trouble;
use std::alloc::Global;
use std::fs;
use std::rt::Files;

/// How many cases were tried, and how many of them differ.
#[derive(Clone, Copy, Debug, PartialEq, Eq)]
struct Tally {
    cases: u64,
    wrong: u64,
}

/// The folder whose folders are the families.
const TRIALS: &str = "trials";

/// Tries all families in the order of their names.
pub(crate) fn try_families<R: Files + Print + AllocGlobal + Clone + Drop>(
    rt: &R,
) -> Result<(), Trouble> {
    let families = names_in(rt, TRIALS)?;
    for name in families.as_slice() {
        try_family(rt, name.as_str())?;
    }
    Ok(())
}

/// Tries the cases of a family, and says how many there are and which differ.
fn try_family<R: Files + Print + AllocGlobal + Clone + Drop>(
    rt: &R,
    name: &str,
) -> Result<(), Trouble> {
    let folder = path(rt.alloc(), TRIALS, name)?;
    let Ok(files) = names_in(rt, folder.as_str()) else {
        println!(rt; "{name}: its folder cannot be read")?;
        return Ok(());
    };
    let mut tally = Tally { cases: 0, wrong: 0 };
    for file in files.as_slice() {
        tally = with_file(rt, folder.as_str(), file.as_str(), tally)?;
    }
    let Tally { cases, wrong } = tally;
    if wrong == 0 {
        println!(rt; "{name}: {cases} cases")?;
    } else {
        println!(rt; "{name}: {cases} cases, {wrong} wrong")?;
    }
    Ok(())
}

/// The names of what stands in a folder, in their order.
fn names_in<R: Files + AllocGlobal + Clone + Drop>(
    rt: &R,
    folder: &str,
) -> Result<Vec<String>, Trouble> {
    let alloc = rt.alloc();
    let mut names = Vec::new(alloc);
    for entry in fs::read_dir(rt, folder)? {
        let name = String::from_str(alloc, entry?.file_name())?;
        names.push(name).map_err(|_| Trouble::Memory)?;
    }
    names.sort()?;
    Ok(names)
}

/// The tally with the cases of a file. One that cannot be read is told, and counts as wrong.
fn with_file<R: Files + Print + AllocGlobal>(
    rt: &R,
    folder: &str,
    name: &str,
    tally: Tally,
) -> Result<Tally, Trouble> {
    let alloc = rt.alloc();
    let mut trial = Trial::new(alloc);
    let read = match fs::read_to_string(rt, path(alloc, folder, name)?.as_str()) {
        Ok(text) => try_text(alloc, &mut trial, text.as_str()),
        Err(_) => Err((0, Trouble::Host)),
    };
    let mut wrong = trial.wrong;
    if wrong > 0 {
        let told = trial.told.as_str();
        print!(rt; "{folder}/{name} differs\n{told}")?;
    }
    if let Err((line, trouble)) = read {
        println!(rt; "{folder}/{name} is not read: line {line}: {trouble}")?;
        wrong = wrong.saturating_add(1);
    }
    Ok(Tally {
        cases: tally.cases.saturating_add(trial.cases),
        wrong: tally.wrong.saturating_add(wrong),
    })
}

/// Goes through the lines of a file of trials. The fault has the number of its line.
fn try_text(alloc: Global, trial: &mut Trial, text: &str) -> Result<(), (u64, Trouble)> {
    if !text.starts_with("# ") || !text.ends_with('\n') || text.contains('\r') {
        return Err((
            1,
            Trouble::Line(
                "it begins with a comment, ends with a line feed and has no other line break",
            ),
        ));
    }
    let mut number: u64 = 0;
    for line in text.lines() {
        number = number.saturating_add(1);
        trial
            .take(alloc, number, line)
            .map_err(|trouble| (number, trouble))?;
    }
    trial.end(alloc).map_err(|trouble| (number, trouble))
}
