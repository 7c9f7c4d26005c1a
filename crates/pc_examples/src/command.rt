//! The words of a line, as a shell reads them.
use crate::trouble::Trouble;
use std::alloc::Global;
use std::mem;

/// A run that a trial asks for.
#[derive(Debug, Drop)]
pub(crate) struct Command {
    /// The program and its words.
    pub(crate) words: Vec<String>,
    /// The file that keeps what is written.
    pub(crate) kept: Option<String>,
}

/// The command of a line, with `> NAME` at its end or without.
pub(crate) fn read_command(alloc: Global, line: &str) -> Result<Command, Trouble> {
    let mut words = words_of(alloc, line)?;
    let kept = taken_behind(&mut words, ">");
    Ok(Command { words, kept })
}

/// The last word, where the mark stands before it: both are taken away.
fn taken_behind(words: &mut Vec<String>, mark: &str) -> Option<String> {
    match words.as_slice() {
        [_, .., before, _] if before.as_str() == mark => {}
        _ => return None,
    }
    let name = words.pop();
    let _mark = words.pop();
    name
}

/// What is known of a line up to a character.
#[derive(Debug, Drop)]
struct Splitting {
    words: Vec<String>,
    word: String,
    /// Whether a word has begun.
    is_begun: bool,
    /// The quote that is open.
    quote: Option<char>,
}

/// The words of a text. Between quotes of either kind a blank is part of a word.
fn words_of(alloc: Global, text: &str) -> Result<Vec<String>, Trouble> {
    let mut splitting = Splitting {
        words: Vec::new(alloc),
        word: String::new(alloc),
        is_begun: false,
        quote: None,
    };
    for character in text.chars() {
        splitting.take(alloc, character)?;
    }
    if splitting.quote.is_some() {
        return Err(Trouble::Line("a quote is not closed"));
    }
    splitting.end_word(alloc)?;
    Ok(splitting.words)
}

impl Splitting {
    fn take(&mut self, alloc: Global, character: char) -> Result<(), Trouble> {
        match self.quote {
            Some(quote) if quote == character => self.quote = None,
            None if character == '\'' || character == '"' => {
                self.quote = Some(character);
                self.is_begun = true;
            }
            None if character == ' ' => self.end_word(alloc)?,
            _ => {
                self.word.push(character)?;
                self.is_begun = true;
            }
        }
        Ok(())
    }

    fn end_word(&mut self, alloc: Global) -> Result<(), Trouble> {
        if self.is_begun {
            let word = mem::replace(&mut self.word, String::new(alloc));
            self.words.push(word).map_err(|_| Trouble::Memory)?;
            self.is_begun = false;
        }
        Ok(())
    }
}
