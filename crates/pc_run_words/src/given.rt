ghost use Rattle.std.specs.Prelude.{◌≡◌, ℕ, Bool, List, map, string_bytes, true, false, IfOk, option_map};
ghost use Rattle.clap.specs.Words.{app_of, rule_of};
ghost use Rattle.pc_run_words.specs.Parsers.{bare_app, parser_app, plain_found, plain_rule, value_found, IsFound};

use clap::error::ErrorKind;
use clap::{Arg, ArgAction, ArgMatches, Command};
use pc_num::Memory;
use std::alloc::{AllocError, Global};

/// What the words after the name of a command give, where `clap` takes them.
pub(crate) fn words_given<'a>(
    alloc: Global,
    name: &'a str,
    has_nodes: bool,
    words: &'a [String],
) -> Result<Option<ArgMatches<'a>>, Memory>
    ensures { IfOk result (IsFound has_nodes (map string_bytes words.now)) }
{
    found_in(parser_for(alloc, name, has_nodes)?, words)
}

/// The value of `--nodes`, where it is given.
pub(crate) fn nodes_in<'a>(found: &ArgMatches<'a>) -> Option<&'a str>
    ensures { option_map (λ text. text.now) result ≡ value_found found.now }
{
    found.get_str("nodes")
}

/// The plain words, in order.
pub(crate) fn plain_in<'b, 'a>(found: &'b ArgMatches<'a>) -> &'b [&'a str]
    ensures { map (λ text. text.now) result.now ≡ plain_found found.now }
{
    found.get_strs("words").unwrap_or_default()
}

fn parser_for<'a>(alloc: Global, name: &'a str, has_nodes: bool) -> Result<Command<'a>, AllocError>
    ensures { IfOk result (λ command. app_of command ≡ parser_app name.now has_nodes) }
{
    if has_nodes {
        return nodes_parser(alloc, name);
    }
    plain_parser(alloc, name)
}

fn nodes_parser<'a>(alloc: Global, name: &'a str) -> Result<Command<'a>, AllocError>
    ensures { IfOk result (λ command. app_of command ≡ parser_app name.now true) }
{
    let nodes = Arg::new(alloc, "nodes")
        .long("nodes")
        .action(ArgAction::Set);
    let command = bare_parser(alloc, name).arg(nodes)?;
    command.arg(plain_words(alloc))
}

fn plain_parser<'a>(alloc: Global, name: &'a str) -> Result<Command<'a>, AllocError>
    ensures { IfOk result (λ command. app_of command ≡ parser_app name.now false) }
{
    bare_parser(alloc, name).arg(plain_words(alloc))
}

/// A command that takes no word, not even those that ask for help.
fn bare_parser<'a>(alloc: Global, name: &'a str) -> Command<'a>
    ensures { app_of result ≡ bare_app name.now }
{
    Command::new(alloc, name)
        .no_binary_name(true)
        .disable_help_flag(true)
        .disable_version_flag(true)
}

/// All plain words, one a use: so their number has no limit.
fn plain_words<'a>(alloc: Global) -> Arg<'a>
    ensures rule { rule_of result ≡ plain_rule }
    ensures local { result.global ≡ false }
{
    Arg::new(alloc, "words").action(ArgAction::Append)
}

/// Where `clap` refuses the words nothing is found: want of memory alone is an error.
fn found_in<'a>(command: Command<'a>, words: &'a [String]) -> Result<Option<ArgMatches<'a>>, Memory>
    ensures { (name : List ℕ) (has_nodes : Bool) → app_of command.entry ≡ parser_app name has_nodes → IfOk result (IsFound has_nodes (map string_bytes words.now)) }
{
    match command.try_get_matches_from(words) {
        Ok(found) => Ok(Some(found)),
        Err(error) => match error.kind() {
            ErrorKind::OutOfMemory => Err(Memory),
            _ => Ok(None),
        },
    }
}
