ghost use Rattle.std.specs.Prelude.{IfOk};
ghost use Rattle.pc_run_words.specs.Commands.{HasNumbers};
ghost use Rattle.pc_run_words.specs.Words.{IsBudget};
ghost use Rattle.pc_files.specs.Loading.{reading_of};
ghost use Rattle.pc_run.specs.Inputs.{IsMeasurable, IsSound, IsSoundInput, ReadsCase, ReadsClaim, ReadsCommand, ReadsMeasured, ReadsSession};

use pc_base::Shelf;
use pc_files::{
    Listing, Observed, Scripted, Stop, load_bytes, read_listing, read_observed, read_queries,
    read_scripted,
};
use pc_lang::{Quantile, read_quantile};
use pc_list::Seq;
use pc_model::FileKind;
use pc_rows::Case;
use pc_run_words::{
    Bound, Check, Command, Gen, Quantile as QuantileWords, Session as SessionWords,
};
use std::alloc::Global;

/// What is checked: the bytes of a document, and what it is for.
#[derive(Debug, Drop)]
pub(crate) struct Claim {
    pub observed: Observed,
    pub bytes: Seq<u8>,
}

/// What a quantile is asked of, and the query.
#[derive(Debug, Drop)]
pub(crate) struct Measured {
    pub observed: Observed,
    pub asked: Quantile,
}

/// What a command comes to with its files: a case that is asked about, or answered with proofs, by searches of at most so
/// many nodes each; a document that is checked; constraints that are shown, or asked whether they contradict each other; a
/// quantile that is asked for; a script that is followed; or a case that is made.
#[derive(Debug, Drop)]
pub(crate) enum Input {
    Asks { nodes: u32, case: Case },
    Proves { nodes: u32, case: Case },
    Claims(Claim),
    Shows(Listing),
    Contradicts { nodes: u32, listing: Listing },
    Measures { nodes: u32, measured: Measured },
    Follows { nodes: u32, scripted: Scripted },
    Makes(Gen),
}

/// Reads the files of a command in their order, each once.
pub(crate) fn read_input<F: Shelf>(
    alloc: Global,
    files: &mut F,
    command: &Command,
) -> Result<Input, Stop>
    requires { HasNumbers command.now }
    ensures read { ReadsCommand (reading_of F.told F.leads files.old files.new) command.now result }
    ensures sound { IfOk result IsSoundInput }
{
    match command {
        Command::Bound(command) => match read_case(alloc, files, command) {
            Ok(case) => Ok(Input::Asks {
                nodes: command.nodes,
                case,
            }),
            Err(stop) => Err(stop),
        },
        Command::Prove(command) => match read_case(alloc, files, command) {
            Ok(case) => Ok(Input::Proves {
                nodes: command.nodes,
                case,
            }),
            Err(stop) => Err(stop),
        },
        Command::Check(command) => read_claim(alloc, files, command),
        Command::Show(names) => match read_listing(alloc, files, names.schema, names.constraints) {
            Ok(listing) => Ok(Input::Shows(listing)),
            Err(stop) => Err(stop),
        },
        Command::Conflict(command) => {
            let names = command.files;
            match read_listing(alloc, files, names.schema, names.constraints) {
                Ok(listing) => Ok(Input::Contradicts {
                    nodes: command.nodes,
                    listing,
                }),
                Err(stop) => Err(stop),
            }
        }
        Command::Quantile(command) => match read_measured(alloc, files, command) {
            Ok(measured) => Ok(Input::Measures {
                nodes: command.nodes,
                measured,
            }),
            Err(stop) => Err(stop),
        },
        Command::Session(command) => read_session(alloc, files, command),
        Command::Gen(command) => Ok(Input::Makes(*command)),
    }
}

/// Reads the files of `bound`, and then its queries. Those of `prove` are read alike.
fn read_case<F: Shelf>(alloc: Global, files: &mut F, command: &Bound) -> Result<Case, Stop>
    ensures read { ReadsCase (reading_of F.told F.leads files.old files.new) command.now result }
    ensures sound { IfOk result IsSound }
{
    let observed = read_observed(
        alloc,
        files,
        command.schema,
        command.rows,
        command.constraints,
    )?;
    let queries = read_queries(alloc, &observed.schema, command.queries.as_slice())?;
    Ok(Case {
        schema: observed.schema,
        rows: observed.rows,
        constraints: observed.constraints,
        queries,
    })
}

/// Reads the files of `check`, and loads the document.
fn read_claim<F: Shelf>(alloc: Global, files: &mut F, command: &Check) -> Result<Input, Stop>
    ensures read { ReadsClaim (reading_of F.told F.leads files.old files.new) command.now result }
    ensures sound { IfOk result IsSoundInput }
{
    let observed = read_observed(
        alloc,
        files,
        command.schema,
        command.rows,
        command.constraints,
    )?;
    let bytes = load_bytes(alloc, files, FileKind::Document, command.document)?;
    Ok(Input::Claims(Claim { observed, bytes }))
}

/// Reads the files of `quantile`, and then its query.
fn read_measured<F: Shelf>(
    alloc: Global,
    files: &mut F,
    command: &QuantileWords,
) -> Result<Measured, Stop>
    ensures read { ReadsMeasured (reading_of F.told F.leads files.old files.new) command.now result }
    ensures sound { IfOk result IsMeasurable }
{
    let observed = read_observed(
        alloc,
        files,
        command.schema,
        command.rows,
        command.constraints,
    )?;
    let asked = read_quantile(alloc, &observed.schema, command.query, 1)?;
    Ok(Measured { observed, asked })
}

/// Reads the files of `session`, the last of which is the script.
fn read_session<F: Shelf>(
    alloc: Global,
    files: &mut F,
    command: &SessionWords,
) -> Result<Input, Stop>
    requires { IsBudget command.now.nodes }
    ensures read { ReadsSession (reading_of F.told F.leads files.old files.new) command.now result }
    ensures sound { IfOk result IsSoundInput }
{
    match read_scripted(
        alloc,
        files,
        command.schema,
        command.rows,
        command.constraints,
        command.script,
    ) {
        Ok(scripted) => Ok(Input::Follows {
            nodes: command.nodes,
            scripted,
        }),
        Err(stop) => Err(stop),
    }
}
