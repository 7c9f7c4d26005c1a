//! A case: words over files, and what they write.
use crate::command::Command;
use crate::trouble::Trouble;
use pc_base::{MemShelf, MemSink};
use pc_desk_run::{Unwatched, desk};
use pc_list::Seq;
use pc_run::run;
use std::alloc::Global;

/// A file of a trial.
#[derive(Debug, Drop)]
pub(crate) struct NamedFile {
    pub(crate) name: String,
    pub(crate) bytes: Vec<u8>,
}

/// Bytes that a file has in one case.
pub(crate) type Instead<'a> = Option<(&'a str, &'a [u8])>;

/// What came of a case.
#[derive(Debug, Drop)]
pub(crate) struct Ended {
    pub(crate) text: Seq<u8>,
    /// What was written to the standard error.
    pub(crate) notes: Seq<u8>,
    pub(crate) status: u8,
    /// Whether it was written by one put, and nothing was loaded where the words are no command.
    pub(crate) is_in_order: bool,
}

pub(crate) fn bytes_of<'a>(files: &'a [NamedFile], name: &str) -> Result<&'a [u8], Trouble> {
    for file in files {
        if file.name.as_str() == name {
            return Ok(file.bytes.as_slice());
        }
    }
    Err(Trouble::Line("the trial has no file of this name"))
}

/// Runs the command over the files, of which one may have other bytes.
pub(crate) fn outcome_of(
    alloc: Global,
    command: &Command,
    files: &[NamedFile],
    instead: Instead<'_>,
) -> Result<Ended, Trouble> {
    let mut shelf = shelf_of(alloc, files, instead)?;
    let [name, words @ ..] = command.words.as_slice() else {
        return Err(NO_PROGRAM);
    };
    let program = Program::named(name.as_str())?;
    let mut out = MemSink::new(alloc, 0);
    let mut notes = MemSink::new(alloc, 0);
    let status = program.run(alloc, words, &mut shelf, &mut out, &mut notes);
    let is_put = out.calls == program.puts(status) && notes.calls <= 1;
    let is_in_order = is_put && (!program.is_usage(status) || shelf.calls == 0);
    Ok(Ended {
        text: out.kept,
        notes: notes.kept,
        status,
        is_in_order,
    })
}

fn bytes_in<'a>(
    files: &'a [NamedFile],
    instead: Instead<'a>,
    name: &str,
) -> Result<&'a [u8], Trouble> {
    match instead {
        Some((other, bytes)) if other == name => Ok(bytes),
        _ => bytes_of(files, name),
    }
}

fn shelf_of(alloc: Global, files: &[NamedFile], instead: Instead<'_>) -> Result<MemShelf, Trouble> {
    let mut shelf = MemShelf::new(alloc);
    for file in files {
        let name = file.name.as_str();
        shelf.add(name, bytes_in(files, instead, name)?)?;
    }
    Ok(shelf)
}

/// A program that a trial runs.
#[derive(Clone, Copy, Debug, PartialEq, Eq)]
enum Program {
    Pc,
    Desk,
}

impl Program {
    fn named(name: &str) -> Result<Program, Trouble> {
        if name == "pc" {
            Ok(Program::Pc)
        } else if name == "pc_desk" {
            Ok(Program::Desk)
        } else {
            Err(NO_PROGRAM)
        }
    }

    /// Has the program do what the words ask, and gives its status. `pc_desk` alone writes notes.
    fn run(
        self,
        alloc: Global,
        words: &[String],
        shelf: &mut MemShelf,
        out: &mut MemSink,
        notes: &mut MemSink,
    ) -> u8 {
        match self {
            Program::Pc => run(alloc, words, shelf, out).code(),
            Program::Desk => desk(alloc, words, shelf, out, notes, &mut Unwatched).code(),
        }
    }

    /// How many puts to the standard output end in a status: `pc_desk` tells a refusal in its notes alone.
    fn puts(self, status: u8) -> u64 {
        u64::from(self != Program::Desk || status <= 2)
    }

    /// Whether the status says that the words are no command, of which one program has none.
    fn is_usage(self, status: u8) -> bool {
        status == 2 && self == Program::Pc
    }
}

const NO_PROGRAM: Trouble = Trouble::Line("a run is one of pc and pc_desk");
