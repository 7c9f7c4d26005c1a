//! The lines of a file of trials.
use std::alloc::{AllocError, Global};

/// A line, by what it is for.
#[derive(Clone, Copy)]
pub(super) enum Line<'a> {
    /// A comment, or an empty line.
    Nothing,
    /// A line of what the questions below are about.
    Ground(&'a str),
    Question { asked: &'a str, wanted: &'a str },
    Other,
}

pub(super) fn line_of(line: &str) -> Line<'_> {
    if line.is_empty() || line.starts_with('#') {
        return Line::Nothing;
    }
    let Some(rest) = line.strip_prefix("? ") else {
        return Line::Ground(line);
    };
    match rest.rsplit_once(": ") {
        Some((asked, wanted)) => Line::Question { asked, wanted },
        None => Line::Other,
    }
}

/// What questions are about: the lines above them, back to those that stand below other questions.
#[derive(Drop)]
pub(super) struct Ground {
    text: String,
    is_asked: bool,
}

impl Ground {
    pub(super) fn new(alloc: Global) -> Ground {
        Ground {
            text: String::new(alloc),
            is_asked: false,
        }
    }

    /// Adds a line, which begins a new ground where a question was asked of this one.
    pub(super) fn add(&mut self, line: &str) -> Result<(), AllocError> {
        if self.is_asked {
            self.text.clear();
            self.is_asked = false;
        }
        self.text.push_str(line)?;
        self.text.push('\n')
    }

    /// The lines, of which something is asked.
    pub(super) fn ask(&mut self) -> &str {
        self.is_asked = true;
        self.text.as_str()
    }
}
