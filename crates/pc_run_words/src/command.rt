ghost use Rattle.std.specs.Prelude.{◌≡◌, map, string_bytes, Some, None, IfOk, IfSome, MatchOption, option_map};
ghost use Rattle.pc_run_words.specs.Words.{budget_of, check_at, command_of, command_with, contradicted, gen_at, gen_with, made_at, names_at, quantile_at, session_at, show_at, IsBudget};
ghost use Rattle.pc_run_words.specs.Commands.{asked_in, bound_names, show_names, HasNumbers};

use crate::form::Form;
use crate::given::{nodes_in, plain_in, words_given};
use crate::number::number_of;
use pc_num::Memory;
use std::alloc::Global;

/// How many nodes a search may have where the words do not say it.
pub const USUAL_NODES: u32 = 10_000;

/// The command `bound`, or `prove`: how many nodes each search may have, the names of its files, and
/// its queries.
#[derive(Debug, Drop)]
pub struct Bound<'a> {
    pub nodes: u32,
    pub schema: &'a str,
    pub rows: &'a str,
    pub constraints: &'a str,
    pub queries: Vec<&'a str>,
}

/// The command `check`: the names of its files.
#[derive(Clone, Copy, Debug)]
pub struct Check<'a> {
    pub schema: &'a str,
    pub rows: &'a str,
    pub constraints: &'a str,
    pub document: &'a str,
}

/// The command `show`: the names of its files.
#[derive(Clone, Copy, Debug)]
pub struct Show<'a> {
    pub schema: &'a str,
    pub constraints: &'a str,
}

/// The command `conflict`: how many nodes each search may have, and the names of its files.
#[derive(Clone, Copy, Debug)]
pub struct Conflict<'a> {
    pub nodes: u32,
    pub files: Show<'a>,
}

/// The command `quantile`: how many nodes each search may have, the names of its files, and its query.
#[derive(Clone, Copy, Debug)]
pub struct Quantile<'a> {
    pub nodes: u32,
    pub schema: &'a str,
    pub rows: &'a str,
    pub constraints: &'a str,
    pub query: &'a str,
}

/// The command `session`: how many nodes each search may have, and the names of its files.
#[derive(Clone, Copy, Debug)]
pub struct Session<'a> {
    pub nodes: u32,
    pub schema: &'a str,
    pub rows: &'a str,
    pub constraints: &'a str,
    pub script: &'a str,
}

/// The command `gen`: what its draws begin with, and how large its case is.
#[derive(Clone, Copy, Debug)]
pub struct Gen {
    pub seed: u32,
    pub size: u32,
}

/// A command with its values.
#[derive(Debug, Drop)]
pub enum Command<'a> {
    Bound(Bound<'a>),
    Prove(Bound<'a>),
    Check(Check<'a>),
    Show(Show<'a>),
    Conflict(Conflict<'a>),
    Quantile(Quantile<'a>),
    Session(Session<'a>),
    Gen(Gen),
}

const MOST_NODES: u32 = 100_000;

const MOST_SIZE: u32 = 1_000;

const QUERY_LIMIT: usize = 16;

/// The command that the words are, if they are one.
pub fn read_command<'a>(alloc: Global, words: &'a [String]) -> Result<Option<Command<'a>>, Memory>
    ensures reads { IfOk result (λ found. MatchOption found (command_of (map string_bytes words.now) ≡ None) (λ command. command_of (map string_bytes words.now) ≡ Some (asked_in command))) }
    ensures numbers { IfOk result (λ found. IfSome found HasNumbers) }
{
    let Some((name, words)) = words.split_first() else {
        return Ok(None);
    };
    match Form::named(name.as_str()) {
        Some(form) => read_form(alloc, form, name.as_str(), words),
        None => Ok(None),
    }
}

/// The command of this form, by the words after its name.
fn read_form<'a>(
    alloc: Global,
    form: Form,
    name: &'a str,
    words: &'a [String],
) -> Result<Option<Command<'a>>, Memory>
    ensures reads { IfOk result (λ found. option_map asked_in found ≡ command_with form (map string_bytes words.now)) }
    ensures numbers { IfOk result (λ found. IfSome found HasNumbers) }
{
    let Some(found) = words_given(alloc, name, form.has_nodes(), words)? else {
        return Ok(None);
    };
    let Some(nodes) = budget_of(nodes_in(&found)) else {
        return Ok(None);
    };
    made_at(alloc, form, plain_in(&found), nodes)
}

/// What a command makes of its plain words.
fn made_at<'a>(
    alloc: Global,
    form: Form,
    plain: &[&'a str],
    nodes: u32,
) -> Result<Option<Command<'a>>, Memory>
    requires { IsBudget nodes }
    ensures reads { IfOk result (λ found. option_map asked_in found ≡ made_at form (map (λ text. text.now) plain.now) nodes) }
    ensures numbers { IfOk result (λ found. IfSome found HasNumbers) }
{
    match form {
        Form::Bound => Ok(names_at(alloc, plain, nodes)?.map(Command::Bound)),
        Form::Prove => Ok(names_at(alloc, plain, nodes)?.map(Command::Prove)),
        Form::Check => Ok(check_at(plain)),
        Form::Show => Ok(show_at(plain).map(Command::Show)),
        Form::Conflict => Ok(conflict_at(plain, nodes)),
        Form::Quantile => Ok(quantile_at(plain, nodes)),
        Form::Session => Ok(session_at(plain, nodes)),
        Form::Gen => Ok(gen_at(plain)),
    }
}

/// How many nodes each search may have, by the value of `--nodes`.
fn budget_of(value: Option<&str>) -> Option<u32>
    ensures spells { result ≡ budget_of (option_map (λ text. text.now) value.entry) }
    ensures within { IfSome result IsBudget }
{
    match value {
        Some(word) => number_of(1, MOST_NODES, word),
        None => Some(USUAL_NODES),
    }
}

/// The names of three files, and one query or more.
fn names_at<'a>(alloc: Global, plain: &[&'a str], nodes: u32) -> Result<Option<Bound<'a>>, Memory>
    requires { IsBudget nodes }
    ensures reads { IfOk result (λ found. option_map bound_names found ≡ names_at (map (λ text. text.now) plain.now) nodes) }
    ensures numbers { IfOk result (λ found. IfSome found (λ names. IsBudget names.nodes)) }
{
    let [schema, rows, constraints, queries @ ..] = plain else {
        return Ok(None);
    };
    if queries.is_empty() || QUERY_LIMIT < queries.len() {
        return Ok(None);
    }
    Ok(Some(Bound {
        nodes,
        schema: *schema,
        rows: *rows,
        constraints: *constraints,
        queries: queries.to_vec(alloc)?,
    }))
}

fn check_at<'a>(plain: &[&'a str]) -> Option<Command<'a>>
    ensures reads { option_map asked_in result ≡ check_at (map (λ text. text.now) plain.now) }
    ensures numbers { IfSome result HasNumbers }
{
    match plain {
        [schema, rows, constraints, document] => Some(Command::Check(Check {
            schema: *schema,
            rows: *rows,
            constraints: *constraints,
            document: *document,
        })),
        _ => None,
    }
}

fn show_at<'a>(plain: &[&'a str]) -> Option<Show<'a>>
    ensures { option_map show_names result ≡ show_at (map (λ text. text.now) plain.now) }
{
    match plain {
        [schema, constraints] => Some(Show {
            schema: *schema,
            constraints: *constraints,
        }),
        _ => None,
    }
}

fn conflict_at<'a>(plain: &[&'a str], nodes: u32) -> Option<Command<'a>>
    requires { IsBudget nodes }
    ensures reads { option_map asked_in result ≡ option_map (contradicted nodes) (show_at (map (λ text. text.now) plain.now)) }
    ensures numbers { IfSome result HasNumbers }
{
    let files = show_at(plain)?;
    Some(Command::Conflict(Conflict { nodes, files }))
}

fn quantile_at<'a>(plain: &[&'a str], nodes: u32) -> Option<Command<'a>>
    requires { IsBudget nodes }
    ensures reads { option_map asked_in result ≡ quantile_at (map (λ text. text.now) plain.now) nodes }
    ensures numbers { IfSome result HasNumbers }
{
    match plain {
        [schema, rows, constraints, query] => Some(Command::Quantile(Quantile {
            nodes,
            schema: *schema,
            rows: *rows,
            constraints: *constraints,
            query: *query,
        })),
        _ => None,
    }
}

fn session_at<'a>(plain: &[&'a str], nodes: u32) -> Option<Command<'a>>
    requires { IsBudget nodes }
    ensures reads { option_map asked_in result ≡ session_at (map (λ text. text.now) plain.now) nodes }
    ensures numbers { IfSome result HasNumbers }
{
    match plain {
        [schema, rows, constraints, script] => Some(Command::Session(Session {
            nodes,
            schema: *schema,
            rows: *rows,
            constraints: *constraints,
            script: *script,
        })),
        _ => None,
    }
}

fn gen_at<'a>(plain: &[&'a str]) -> Option<Command<'a>>
    ensures reads { option_map asked_in result ≡ gen_at (map (λ text. text.now) plain.now) }
    ensures numbers { IfSome result HasNumbers }
{
    match plain {
        [seed, size] => gen_with(seed, size),
        _ => None,
    }
}

fn gen_with<'a>(seed: &str, size: &str) -> Option<Command<'a>>
    ensures reads { option_map asked_in result ≡ gen_with seed.now size.now }
    ensures numbers { IfSome result HasNumbers }
{
    let seed = number_of(0, u32::MAX, seed)?;
    let size = number_of(1, MOST_SIZE, size)?;
    Some(Command::Gen(Gen { seed, size }))
}
