//! A line of a file of trials.
use crate::command::{Command, read_command};
use crate::content::{Content, read_content};
use crate::trouble::Trouble;
use std::alloc::Global;
use std::str::SplitAsciiWhitespace;

#[derive(Debug, Drop)]
pub(crate) enum Line<'a> {
    /// A comment, or nothing.
    Comment,
    Content(Content),
    /// The name of a file, which the lines below are.
    File(&'a str),
    /// For the next run the lines below stand in the place of so many lines of the file, from one on.
    Edit {
        name: &'a str,
        line: u64,
        count: u64,
    },
    /// The next run is made for each number of bytes of the file from one up to another.
    Cut {
        name: &'a str,
        from: usize,
        to: usize,
    },
    Run(Command),
    /// The lines below are what a run writes to the standard error.
    Notes,
    Status(u8),
}

pub(crate) fn read_line<'a>(alloc: Global, text: &'a str) -> Result<Line<'a>, Trouble> {
    if text.is_empty() || text.starts_with('#') {
        return Ok(Line::Comment);
    }
    if let Some(content) = read_content(alloc, text)? {
        return Ok(Line::Content(content));
    }
    if let Some(words) = text.strip_prefix("$ ") {
        return Ok(Line::Run(read_command(alloc, words)?));
    }
    directive_of(text)
}

fn directive_of<'a>(text: &'a str) -> Result<Line<'a>, Trouble> {
    let mut words = text.split_ascii_whitespace();
    let what = next_word(&mut words)?;
    let line = if what == "file" {
        Line::File(next_word(&mut words)?)
    } else if what == "edit" {
        Line::Edit {
            name: next_word(&mut words)?,
            line: next_number(&mut words)?,
            count: next_number(&mut words)?,
        }
    } else if what == "cut" {
        Line::Cut {
            name: next_word(&mut words)?,
            from: next_place(&mut words)?,
            to: next_place(&mut words)?,
        }
    } else if what == "stderr" {
        Line::Notes
    } else if what == "status" {
        Line::Status(status_of(next_word(&mut words)?)?)
    } else {
        return Err(NONE);
    };
    match words.next() {
        Some(_) => Err(NONE),
        None => Ok(line),
    }
}

const NONE: Trouble = Trouble::Line("this line is none of those of a trial");

fn next_word<'a>(words: &mut SplitAsciiWhitespace<'a>) -> Result<&'a str, Trouble> {
    words.next().ok_or(NONE)
}

fn next_number(words: &mut SplitAsciiWhitespace<'_>) -> Result<u64, Trouble> {
    next_word(words)?.parse::<u64>().map_err(|_| NONE)
}

fn next_place(words: &mut SplitAsciiWhitespace<'_>) -> Result<usize, Trouble> {
    next_word(words)?.parse::<usize>().map_err(|_| NONE)
}

fn status_of(word: &str) -> Result<u8, Trouble> {
    word.parse::<u8>().map_err(|_| NONE)
}
