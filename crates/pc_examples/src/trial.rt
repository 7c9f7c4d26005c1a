//! A file of trials, gone through line by line: each run is made once its wanted text is known.
use crate::case::{Ended, Instead, NamedFile, bytes_of, outcome_of};
use crate::command::Command;
use crate::content::Content;
use crate::difference::put_difference;
use crate::edit::{Edit, edited};
use crate::line::{Line, read_line};
use crate::trouble::Trouble;
use std::alloc::Global;
use std::mem;

/// A run whose wanted text is being read.
#[derive(Debug, Drop)]
pub(crate) struct Call {
    /// The number of its line.
    pub(crate) line: u64,
    pub(crate) command: Command,
    pub(crate) wanted: Vec<u8>,
    /// What is wanted of the standard error.
    pub(crate) notes: Vec<u8>,
    pub(crate) status: u8,
}

/// From how many bytes of a file up to how many.
#[derive(Debug, Drop)]
struct Cut {
    name: String,
    from: usize,
    to: usize,
}

/// What a content line is part of.
#[derive(Clone, Copy, Debug, PartialEq, Eq)]
enum Target {
    Nothing,
    File,
    Edit,
    Wanted,
    /// What is written is kept, and no text is wanted.
    Kept,
    Notes,
}

/// What is known of a file of trials up to a line.
#[derive(Debug, Drop)]
pub(crate) struct Trial {
    files: Vec<NamedFile>,
    edit: Option<Edit>,
    cut: Option<Cut>,
    call: Option<Call>,
    target: Target,
    /// How many cases there were, and how many of them differ.
    pub(crate) cases: u64,
    pub(crate) wrong: u64,
    /// What is told of those.
    pub(crate) told: String,
}

impl Trial {
    pub(crate) fn new(alloc: Global) -> Self {
        Trial {
            files: Vec::new(alloc),
            edit: None,
            cut: None,
            call: None,
            target: Target::Nothing,
            cases: 0,
            wrong: 0,
            told: String::new(alloc),
        }
    }

    /// Takes in the line of this number.
    pub(crate) fn take(&mut self, alloc: Global, number: u64, text: &str) -> Result<(), Trouble> {
        match read_line(alloc, text)? {
            Line::Comment => Ok(()),
            Line::Content(content) => self.add(&content),
            Line::Notes => self.begin_notes(),
            Line::Status(status) => self.end_in(status),
            Line::File(name) => self.begin_file(alloc, name),
            Line::Edit { name, line, count } => self.begin_edit(alloc, name, line, count),
            Line::Cut { name, from, to } => self.set_cut(alloc, name, from, to),
            Line::Run(command) => self.begin_call(alloc, number, command),
        }
    }

    /// Makes the last run, once all lines are taken in.
    pub(crate) fn end(&mut self, alloc: Global) -> Result<(), Trouble> {
        self.make_call(alloc)?;
        if self.edit.is_some() || self.cut.is_some() {
            return Err(Trouble::Line("an edit or a cut has no run"));
        }
        if self.cases == 0 {
            return Err(Trouble::Line("it has no run"));
        }
        Ok(())
    }

    fn add(&mut self, content: &Content) -> Result<(), Trouble> {
        match self.target {
            Target::Nothing | Target::Kept => Err(Trouble::Line("this text belongs to nothing")),
            Target::File => match self.files.last_mut() {
                Some(file) => content.push_to(&mut file.bytes),
                None => Ok(()),
            },
            Target::Edit => match &mut self.edit {
                Some(edit) => content.push_to(&mut edit.text),
                None => Ok(()),
            },
            Target::Wanted => match &mut self.call {
                Some(call) => content.push_to(&mut call.wanted),
                None => Ok(()),
            },
            Target::Notes => match &mut self.call {
                Some(call) => content.push_to(&mut call.notes),
                None => Ok(()),
            },
        }
    }

    fn begin_notes(&mut self) -> Result<(), Trouble> {
        if !matches!(self.target, Target::Wanted | Target::Kept) {
            return Err(Trouble::Line("a standard error stands behind a wanted text"));
        }
        self.target = Target::Notes;
        Ok(())
    }

    fn end_in(&mut self, status: u8) -> Result<(), Trouble> {
        match &mut self.call {
            Some(call) if matches!(self.target, Target::Wanted | Target::Kept | Target::Notes) => {
                call.status = status;
                self.target = Target::Nothing;
                Ok(())
            }
            _ => Err(Trouble::Line("a status stands behind a wanted text")),
        }
    }

    fn begin_file(&mut self, alloc: Global, name: &str) -> Result<(), Trouble> {
        self.make_call(alloc)?;
        self.target = Target::File;
        self.set_file(alloc, name, Vec::new(alloc))
    }

    /// Sets the bytes of a file, which is then the last one.
    fn set_file(&mut self, alloc: Global, name: &str, bytes: Vec<u8>) -> Result<(), Trouble> {
        self.files.retain(|file| file.name.as_str() != name);
        let name = String::from_str(alloc, name)?;
        let file = NamedFile { name, bytes };
        self.files.push(file).map_err(|_| Trouble::Memory)
    }

    fn begin_edit(
        &mut self,
        alloc: Global,
        name: &str,
        line: u64,
        count: u64,
    ) -> Result<(), Trouble> {
        self.make_call(alloc)?;
        self.target = Target::Edit;
        self.edit = Some(Edit {
            name: String::from_str(alloc, name)?,
            line,
            count,
            text: Vec::new(alloc),
        });
        Ok(())
    }

    fn set_cut(
        &mut self,
        alloc: Global,
        name: &str,
        from: usize,
        to: usize,
    ) -> Result<(), Trouble> {
        self.make_call(alloc)?;
        self.target = Target::Nothing;
        self.cut = Some(Cut {
            name: String::from_str(alloc, name)?,
            from,
            to,
        });
        Ok(())
    }

    fn begin_call(&mut self, alloc: Global, line: u64, command: Command) -> Result<(), Trouble> {
        self.make_call(alloc)?;
        self.target = match command.kept {
            Some(_) => Target::Kept,
            None => Target::Wanted,
        };
        self.call = Some(Call {
            line,
            command,
            wanted: Vec::new(alloc),
            notes: Vec::new(alloc),
            status: 0,
        });
        Ok(())
    }

    /// Makes the run that stands above, if there is one.
    fn make_call(&mut self, alloc: Global) -> Result<(), Trouble> {
        let Some(call) = mem::replace(&mut self.call, None) else {
            return Ok(());
        };
        let edit = mem::replace(&mut self.edit, None);
        let cut = mem::replace(&mut self.cut, None);
        match (edit, cut) {
            (None, None) => self.make_plain(alloc, &call, None),
            (Some(edit), None) => {
                let bytes = edited(
                    alloc,
                    bytes_of(self.files.as_slice(), edit.name.as_str())?,
                    &edit,
                )?;
                self.make_plain(alloc, &call, Some((edit.name.as_str(), bytes.as_slice())))
            }
            (None, Some(cut)) => self.make_cuts(alloc, &call, &cut),
            (Some(_), Some(_)) => Err(Trouble::Line("a run has an edit or a cut, and not both")),
        }
    }

    /// Makes a run of one case, and keeps what it writes where it is to.
    fn make_plain(
        &mut self,
        alloc: Global,
        call: &Call,
        instead: Instead<'_>,
    ) -> Result<(), Trouble> {
        let came = self.make_case(alloc, call, instead, None)?;
        if let Some(name) = &call.command.kept {
            let mut bytes = Vec::new(alloc);
            bytes.extend_from_slice(came.text.as_slice())?;
            self.set_file(alloc, name.as_str(), bytes)?;
        }
        Ok(())
    }

    fn make_cuts(&mut self, alloc: Global, call: &Call, cut: &Cut) -> Result<(), Trouble> {
        if cut.to <= cut.from {
            return Err(Trouble::Line("a cut is made at no number of bytes"));
        }
        for count in cut.from..cut.to {
            let front = self.front_of(alloc, cut.name.as_str(), count)?;
            let instead = Some((cut.name.as_str(), front.as_slice()));
            self.make_case(alloc, call, instead, Some(count))?;
        }
        Ok(())
    }

    fn front_of(&self, alloc: Global, name: &str, count: usize) -> Result<Vec<u8>, Trouble> {
        let Some(front) = bytes_of(self.files.as_slice(), name)?.get(..count) else {
            return Err(Trouble::Line("a cut is past the end of its file"));
        };
        let mut bytes = Vec::new(alloc);
        bytes.extend_from_slice(front)?;
        Ok(bytes)
    }

    fn make_case(
        &mut self,
        alloc: Global,
        call: &Call,
        instead: Instead<'_>,
        cut: Option<usize>,
    ) -> Result<Ended, Trouble> {
        let came = outcome_of(alloc, &call.command, self.files.as_slice(), instead)?;
        self.cases = self.cases.saturating_add(1);
        if !call.is_met(&came) {
            self.wrong = self.wrong.saturating_add(1);
            put_difference(&mut self.told, call, cut, &came)?;
        }
        Ok(came)
    }
}

impl Call {
    /// Whether what came is what is wanted.
    fn is_met(&self, came: &Ended) -> bool {
        let is_text = self.command.kept.is_some() || came.text.as_slice() == self.wanted.as_slice();
        let is_note = came.notes.as_slice() == self.notes.as_slice();
        is_text && is_note && came.status == self.status && came.is_in_order
    }
}
