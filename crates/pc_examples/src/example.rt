//! An example: its words, its files, and the report that is wanted.
use crate::trouble::Trouble;
use pc_base::{MemShelf, MemSink};
use pc_run::run;
use std::alloc::Global;
use std::fs;
use std::rt::Files;

/// Says whether the report of an example is the one that stands beside it.
pub(crate) fn compare<R: Files + Print + AllocGlobal>(rt: &R, folder: &str) -> Result<(), Trouble> {
    let text = report_of(rt, folder)?;
    let wanted = fs::read(rt, path(rt.alloc(), folder, "report.txt")?.as_str())?;
    if text.kept.as_slice() == wanted.as_slice() {
        println!(rt; "{folder}: its report is report.txt")?;
    } else {
        println!(rt; "{folder}: its report is not report.txt")?;
    }
    Ok(())
}

/// What the words of an example write over its files.
fn report_of<R: Files + AllocGlobal>(rt: &R, folder: &str) -> Result<MemSink, Trouble> {
    let alloc = rt.alloc();
    let words = words_of(rt, folder)?;
    let mut shelf = files_of(rt, folder, words.as_slice())?;
    let mut sink = MemSink::new(alloc, 0);
    run(alloc, words.as_slice(), &mut shelf, &mut sink);
    Ok(sink)
}

/// The files of an example that its words name. A word that names none may be a query.
fn files_of<R: Files + AllocGlobal>(
    rt: &R,
    folder: &str,
    words: &[String],
) -> Result<MemShelf, Trouble> {
    let alloc = rt.alloc();
    let mut shelf = MemShelf::new(alloc);
    for word in words {
        if let Ok(bytes) = fs::read(rt, path(alloc, folder, word.as_str())?.as_str()) {
            shelf.add(word.as_str(), bytes.as_slice())?;
        }
    }
    Ok(shelf)
}

/// The words of an example, one a line.
fn words_of<R: Files + AllocGlobal>(rt: &R, folder: &str) -> Result<Vec<String>, Trouble> {
    let alloc = rt.alloc();
    let text = fs::read_to_string(rt, path(alloc, folder, "words.txt")?.as_str())?;
    let mut words = Vec::new(alloc);
    for word in text.lines() {
        let word = String::from_str(alloc, word)?;
        words.push(word).map_err(|_| Trouble::Memory)?;
    }
    Ok(words)
}

pub(crate) fn path(alloc: Global, folder: &str, file: &str) -> Result<String, Trouble> {
    Ok(format!(in alloc; "{folder}/{file}")?)
}
