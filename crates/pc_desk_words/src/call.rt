ghost use Rattle.std.specs.Prelude.{◌≡◌, ◌≢◌, map, string_bytes, IfOk};
ghost use Rattle.clap.specs.Words.{app_of};
ghost use Rattle.clap.specs.Values.{kind_of};
ghost use Rattle.clap.specs.declared.error.kind.ErrorKind.TheVariants.{OutOfMemory};
ghost use Rattle.pc_desk_words.specs.Calls.{HasBudget, IsRefusal, Reads, Tells};
ghost use Rattle.pc_desk_words.specs.Program.{desk_app};
ghost use Rattle.pc_desk_words.specs.Words.{is_request};

use crate::form::{DrawnForm, Form, SheetForm};
use crate::found::call_in;
use crate::parser::{desk, strict_desk};
use crate::texts;
use clap::error::ErrorKind;
use clap::{Command, Error};
use pc_num::Memory;
use std::alloc::Global;

/// The names of the three files.
#[derive(Clone, Copy, Debug)]
pub struct Files<'a> {
    pub schema: &'a str,
    pub rows: &'a str,
    pub constraints: &'a str,
}

/// The verb `ask`: how answers are shown, how many nodes each search may have, the files, and the queries.
#[derive(Debug, Drop)]
pub struct Ask<'a> {
    pub form: Form,
    pub nodes: u32,
    pub files: Files<'a>,
    pub queries: Vec<&'a str>,
}

/// The verb `session`: how answers are shown, how many nodes each search may have, and the files.
#[derive(Clone, Copy, Debug)]
pub struct Session<'a> {
    pub form: Form,
    pub nodes: u32,
    pub files: Files<'a>,
    pub script: &'a str,
}

/// The verb `why`: how explanations are shown, how many nodes each search may have, the files, and the queries.
#[derive(Debug, Drop)]
pub struct Why<'a> {
    pub form: DrawnForm,
    pub nodes: u32,
    pub files: Files<'a>,
    pub queries: Vec<&'a str>,
}

/// The verb `weigh`: how the changes are shown, how many nodes each search may have, whose changes, whether what moves
/// most comes first, the files, and the query.
#[derive(Clone, Copy, Debug)]
pub struct Weigh<'a> {
    pub form: DrawnForm,
    pub nodes: u32,
    /// The constraint whose changes alone are weighed; those of all where none is named.
    pub by: Option<&'a str>,
    pub sorted: bool,
    pub files: Files<'a>,
    pub query: &'a str,
}

/// The verb `try`: how what is found is shown, by what each number of rows is multiplied, in millionths, and the files.
#[derive(Clone, Copy, Debug)]
pub struct Trial<'a> {
    pub form: SheetForm,
    pub scale: u64,
    pub files: Files<'a>,
}

/// The verb `opens`: how what is found is shown, and the files, of which the rows have no name.
#[derive(Clone, Copy, Debug)]
pub struct Opens<'a> {
    pub form: SheetForm,
    pub files: Files<'a>,
}

/// The verb `history`: the files, of which the constraints have no name, and how rows are divided and counted.
#[derive(Clone, Copy, Debug)]
pub struct History<'a> {
    pub schema: &'a str,
    pub rows: &'a str,
    /// The columns by which the rows are divided, and into how many parts.
    pub by: &'a str,
    /// The predicate that tells which rows are meant: all where none is said.
    pub chosen: Option<&'a str>,
    /// The column of the periods: all rows are of one period where none is named.
    pub per: Option<&'a str>,
    /// By how many per cent limits are widened.
    pub widen: u64,
    /// How many rows are lost: as many as a period has where it is not said.
    pub lost: Option<u64>,
}

/// The verb `limit`: the files, of which the rows have no name, and the limits.
#[derive(Clone, Copy, Debug)]
pub struct Limit<'a> {
    pub files: Files<'a>,
    pub limits: &'a str,
}

/// The verb `sql`: the files, of which the rows have no name, and the table.
#[derive(Clone, Copy, Debug)]
pub struct Sql<'a> {
    pub files: Files<'a>,
    pub table: &'a str,
}

/// The verb `schema`: the rows, and the columns that are wanted, which are all where none is named.
#[derive(Debug, Drop)]
pub struct Draft<'a> {
    pub rows: &'a str,
    pub columns: Vec<&'a str>,
}

/// What words come to.
#[derive(Debug, Drop)]
pub enum Call<'a> {
    Ask(Ask<'a>),
    Session(Session<'a>),
    Why(Why<'a>),
    Weigh(Weigh<'a>),
    Trial(Trial<'a>),
    Opens(Opens<'a>),
    History(History<'a>),
    Limit(Limit<'a>),
    Sql(Sql<'a>),
    Draft(Draft<'a>),
    /// The help or version that was asked for.
    Shows(String),
    /// What is wrong with the words, as `clap` tells it.
    Refused(String),
}

/// What `ask`, `session`, `why` and `weigh` have beside a form.
#[derive(Clone, Copy, Debug)]
pub(crate) struct Head<'a> {
    pub nodes: u32,
    pub files: Files<'a>,
}

/// The call that the words after the program's name are.
pub fn read_call<'a>(alloc: Global, words: &'a [String]) -> Result<Call<'a>, Memory>
    ensures reads { IfOk result (Reads (map string_bytes words.now)) }
    ensures numbers { IfOk result HasBudget }
{
    read_by(alloc, desk(alloc)?, words)
}

fn read_by<'a>(alloc: Global, command: Command<'a>, words: &'a [String]) -> Result<Call<'a>, Memory>
    requires { app_of command ≡ desk_app }
    ensures reads { IfOk result (Reads (map string_bytes words.now)) }
    ensures numbers { IfOk result HasBudget }
{
    match command.try_get_matches_from(words) {
        Ok(found) => match call_in(alloc, &found)? {
            Some(call) => Ok(call),
            None => value_refused(alloc, words),
        },
        Err(error) => told(alloc, &error),
    }
}

/// What `clap` says in place of matches: want of memory alone is an error.
fn told<'a>(alloc: Global, error: &Error) -> Result<Call<'a>, Memory>
    ensures tells { IfOk result (Tells (kind_of error.now)) }
    ensures numbers { IfOk result HasBudget }
{
    let text = text_of(alloc, error)?;
    if is_request(error.kind()) {
        return Ok(Call::Shows(text));
    }
    Ok(Call::Refused(text))
}

fn text_of(alloc: Global, error: &Error) -> Result<String, Memory>
    ensures { IfOk result (λ text. kind_of error.now ≢ OutOfMemory) }
{
    if error.kind() == ErrorKind::OutOfMemory {
        return Err(Memory);
    }
    Ok(format!(in alloc; "{error}")?)
}

/// What is said of words whose form or factor is none. Of a form `clap` tells a near one; a factor it takes as any text.
fn value_refused<'a>(alloc: Global, words: &'a [String]) -> Result<Call<'a>, Memory>
    ensures refuses { IfOk result IsRefusal }
    ensures numbers { IfOk result HasBudget }
{
    match strict_desk(alloc)?.try_get_matches_from(words) {
        Ok(_) => Ok(Call::Refused(String::from_str(alloc, texts::NO_SCALE)?)),
        Err(error) => Ok(Call::Refused(text_of(alloc, &error)?)),
    }
}

/// Whether help or the version was asked for.
fn is_request(kind: ErrorKind) -> bool
    ensures { result ≡ is_request kind }
{
    matches!(kind, ErrorKind::DisplayHelp | ErrorKind::DisplayVersion)
}
