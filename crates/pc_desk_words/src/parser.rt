ghost use Rattle.std.specs.Prelude.{◌≡◌, ◌∷◌, [], false, true, pos, codes, IfOk};
ghost use Rattle.clap.specs.Words.{app_of, rule_of};
ghost use Rattle.clap.specs.declared.builder.command.Command.TheViews.{out-Command};
ghost use Rattle.clap.specs.declared.builder.value_parser.ValueParser.TheVariants.{Signed};
ghost use Rattle.pc_desk_words.specs.Program.{ask_verb, column_rule, desk_app, desk_shape, desk_with, division_rule, file_rule, form_rule, history_verb, limit_verb, lost_rule, most_nodes, nodes_rule, opens_verb, query_rule, scale_rule, schema_verb, session_verb, sort_rule, sql_verb, text_rule, try_verb, weigh_verb, why_verb, widen_rule, with_both, with_cells, with_words};

use crate::texts;
use clap::builder::ValueParser;
use clap::{Arg, ArgAction, Command, value_parser};
use std::alloc::{AllocError, Global};

const FORMS: &[&str] = &["text", "table", "json", "chart", "svg"];

/// The forms of `why` and `weigh`.
const DRAWN_FORMS: &[&str] = &["text", "table", "json", "svg"];

/// The forms of `try` and `opens`.
const SHEET_FORMS: &[&str] = &["text", "table", "json"];

/// The program that takes any text as a form.
pub(crate) fn desk<'a>(alloc: Global) -> Result<Command<'a>, AllocError>
    ensures { IfOk result (λ command. app_of command ≡ desk_app) }
{
    desk_with(
        alloc,
        ValueParser::String,
        ValueParser::String,
        ValueParser::String,
    )
}

/// The program that takes the forms that there are, and tells a near one of any other.
pub(crate) fn strict_desk<'a>(alloc: Global) -> Result<Command<'a>, AllocError> {
    desk_with(
        alloc,
        ValueParser::Names(FORMS),
        ValueParser::Names(DRAWN_FORMS),
        ValueParser::Names(SHEET_FORMS),
    )
}

fn desk_with<'a>(
    alloc: Global,
    forms: ValueParser<'a>,
    drawn: ValueParser<'a>,
    sheets: ValueParser<'a>,
) -> Result<Command<'a>, AllocError>
    ensures { IfOk result (λ command. app_of command ≡ desk_with forms.entry drawn.entry sheets.entry) }
{
    drafting_desk(alloc, forms, drawn, sheets)?
        .subcommand(limit(alloc)?)?
        .subcommand(draft(alloc)?)?
        .subcommand(sql(alloc)?)
}

/// .. and with the one that drafts constraints.
fn drafting_desk<'a>(
    alloc: Global,
    forms: ValueParser<'a>,
    drawn: ValueParser<'a>,
    sheets: ValueParser<'a>,
) -> Result<Command<'a>, AllocError>
    ensures { IfOk result (λ command. app_of command ≡ record { top = desk_shape; subs = ask_verb forms.entry ∷ session_verb forms.entry ∷ why_verb drawn.entry ∷ weigh_verb drawn.entry ∷ try_verb sheets.entry ∷ opens_verb sheets.entry ∷ history_verb ∷ [] }) }
{
    holding_desk(alloc, forms, drawn, sheets)?.subcommand(history(alloc)?)
}

/// .. and with those that weigh changes, hold constraints against a table or tell what they open.
fn holding_desk<'a>(
    alloc: Global,
    forms: ValueParser<'a>,
    drawn: ValueParser<'a>,
    sheets: ValueParser<'a>,
) -> Result<Command<'a>, AllocError>
    ensures { IfOk result (λ command. app_of command ≡ record { top = desk_shape; subs = ask_verb forms.entry ∷ session_verb forms.entry ∷ why_verb drawn.entry ∷ weigh_verb drawn.entry ∷ try_verb sheets.entry ∷ opens_verb sheets.entry ∷ [] }) }
{
    answering_desk(alloc, forms, drawn)?
        .subcommand(weigh(alloc, drawn)?)?
        .subcommand(trial(alloc, sheets)?)?
        .subcommand(opens(alloc, sheets)?)
}

/// With the verbs that answer questions.
fn answering_desk<'a>(
    alloc: Global,
    forms: ValueParser<'a>,
    drawn: ValueParser<'a>,
) -> Result<Command<'a>, AllocError>
    ensures { IfOk result (λ command. app_of command ≡ record { top = desk_shape; subs = ask_verb forms.entry ∷ session_verb forms.entry ∷ why_verb drawn.entry ∷ [] }) }
{
    bare_desk(alloc)?
        .subcommand(ask(alloc, forms)?)?
        .subcommand(session(alloc, forms)?)?
        .subcommand(why(alloc, drawn)?)
}

fn bare_desk<'a>(alloc: Global) -> Result<Command<'a>, AllocError>
    ensures { IfOk result (λ command. app_of command ≡ record { top = record desk_shape { is_leaf = true }; subs = [] }) }
{
    let command = Command::new(alloc, "pc_desk").bin_name("pc_desk")?;
    Ok(
        command
            .no_binary_name(true)
            .version("0.5.2")
            .about(texts::ABOUT)
            .after_help(texts::AFTER)
            .subcommand_required(true)
            .arg_required_else_help(true),
    )
}

fn ask<'a>(alloc: Global, forms: ValueParser<'a>) -> Result<Command<'a>, AllocError>
    ensures app { IfOk result (λ command. app_of command ≡ record { top = ask_verb forms.entry; subs = [] }) }
    ensures local { IfOk result (λ command. (out-Command command).has_globals ≡ false) }
{
    let command = Command::new(alloc, "ask")
        .about(texts::ASK_ABOUT)
        .after_help(texts::ASK_AFTER);
    with_words(
        alloc,
        command,
        form(alloc, forms, texts::AS),
        queries(alloc),
    )
}

fn session<'a>(alloc: Global, forms: ValueParser<'a>) -> Result<Command<'a>, AllocError>
    ensures app { IfOk result (λ command. app_of command ≡ record { top = session_verb forms.entry; subs = [] }) }
    ensures local { IfOk result (λ command. (out-Command command).has_globals ≡ false) }
{
    let command = Command::new(alloc, "session")
        .about(texts::SESSION_ABOUT)
        .after_help(texts::SESSION_AFTER);
    let script = file(alloc, "script", "SCRIPT", texts::SCRIPT);
    with_words(alloc, command, form(alloc, forms, texts::AS), script)
}

fn why<'a>(alloc: Global, forms: ValueParser<'a>) -> Result<Command<'a>, AllocError>
    ensures app { IfOk result (λ command. app_of command ≡ record { top = why_verb forms.entry; subs = [] }) }
    ensures local { IfOk result (λ command. (out-Command command).has_globals ≡ false) }
{
    let command = Command::new(alloc, "why")
        .about(texts::WHY_ABOUT)
        .after_help(texts::WHY_AFTER);
    with_words(
        alloc,
        command,
        form(alloc, forms, texts::DRAWN_AS),
        queries(alloc),
    )
}

fn weigh<'a>(alloc: Global, forms: ValueParser<'a>) -> Result<Command<'a>, AllocError>
    ensures app { IfOk result (λ command. app_of command ≡ record { top = weigh_verb forms.entry; subs = [] }) }
    ensures local { IfOk result (λ command. (out-Command command).has_globals ≡ false) }
{
    let command = Command::new(alloc, "weigh")
        .about(texts::WEIGH_ABOUT)
        .after_help(texts::WEIGH_AFTER);
    let query = file(alloc, "query", "QUERY", texts::QUERY);
    let command = with_words(alloc, command, form(alloc, forms, texts::DRAWN_AS), query)?;
    let by = text_option(alloc, "by", "NAME", texts::BY);
    with_both(command, by, sort(alloc))
}

fn trial<'a>(alloc: Global, forms: ValueParser<'a>) -> Result<Command<'a>, AllocError>
    ensures app { IfOk result (λ command. app_of command ≡ record { top = try_verb forms.entry; subs = [] }) }
    ensures local { IfOk result (λ command. (out-Command command).has_globals ≡ false) }
{
    let command = Command::new(alloc, "try")
        .about(texts::TRY_ABOUT)
        .after_help(texts::TRY_AFTER);
    let command = with_both(command, form(alloc, forms, texts::SHEET_AS), scale(alloc))?;
    let command = command.arg(schema(alloc))?;
    with_both(command, constraints(alloc), rows(alloc, texts::TRY_ROWS))
}

fn opens<'a>(alloc: Global, forms: ValueParser<'a>) -> Result<Command<'a>, AllocError>
    ensures app { IfOk result (λ command. app_of command ≡ record { top = opens_verb forms.entry; subs = [] }) }
    ensures local { IfOk result (λ command. (out-Command command).has_globals ≡ false) }
{
    let command = Command::new(alloc, "opens")
        .about(texts::OPENS_ABOUT)
        .after_help(texts::OPENS_AFTER);
    let command = command.arg(form(alloc, forms, texts::SHEET_AS))?;
    with_both(command, schema(alloc), constraints(alloc))
}

fn history<'a>(alloc: Global) -> Result<Command<'a>, AllocError>
    ensures app { IfOk result (λ command. app_of command ≡ record { top = history_verb; subs = [] }) }
    ensures local { IfOk result (λ command. (out-Command command).has_globals ≡ false) }
{
    let command = Command::new(alloc, "history")
        .about(texts::HISTORY_ABOUT)
        .after_help(texts::HISTORY_AFTER);
    let command = with_cells(alloc, command)?;
    let command = with_both(command, widen(alloc), lost(alloc))?;
    with_both(command, schema(alloc), rows(alloc, texts::HISTORY_ROWS))
}

/// The options of `history` that say which rows are meant, and which of them are counted together.
fn with_cells<'a>(alloc: Global, command: Command<'a>) -> Result<Command<'a>, AllocError>
    requires { (out-Command command).has_globals ≡ false }
    ensures app { IfOk result (λ r. app_of r ≡ with_cells (app_of command.entry)) }
    ensures local { IfOk result (λ r. (out-Command r).has_globals ≡ false) }
{
    let command = command.arg(division(alloc))?;
    let chosen = text_option(alloc, "where", "PREDICATE", texts::WHERE);
    let period = text_option(alloc, "per", "COLUMN", texts::PER);
    with_both(command, chosen, period)
}

fn limit<'a>(alloc: Global) -> Result<Command<'a>, AllocError>
    ensures app { IfOk result (λ command. app_of command ≡ record { top = limit_verb; subs = [] }) }
    ensures local { IfOk result (λ command. (out-Command command).has_globals ≡ false) }
{
    let command = Command::new(alloc, "limit")
        .about(texts::LIMIT_ABOUT)
        .after_help(texts::LIMIT_AFTER);
    let command = command.arg(schema(alloc))?;
    let limits = file(alloc, "limits", "LIMITS", texts::LIMITS);
    with_both(command, constraints(alloc), limits)
}

fn sql<'a>(alloc: Global) -> Result<Command<'a>, AllocError>
    ensures app { IfOk result (λ command. app_of command ≡ record { top = sql_verb; subs = [] }) }
    ensures local { IfOk result (λ command. (out-Command command).has_globals ≡ false) }
{
    let command = Command::new(alloc, "sql")
        .about(texts::SQL_ABOUT)
        .after_help(texts::SQL_AFTER);
    let command = command.arg(schema(alloc))?;
    let table = file(alloc, "table", "TABLE", texts::TABLE);
    with_both(command, constraints(alloc), table)
}

fn draft<'a>(alloc: Global) -> Result<Command<'a>, AllocError>
    ensures app { IfOk result (λ command. app_of command ≡ record { top = schema_verb; subs = [] }) }
    ensures local { IfOk result (λ command. (out-Command command).has_globals ≡ false) }
{
    let command = Command::new(alloc, "schema")
        .about(texts::SCHEMA_ABOUT)
        .after_help(texts::SCHEMA_AFTER);
    with_both(command, rows(alloc, texts::SCHEMA_ROWS), columns(alloc))
}

/// The options and files of `ask`, `session`, `why` and `weigh`, and what stands last.
fn with_words<'a>(
    alloc: Global,
    command: Command<'a>,
    form: Arg<'a>,
    last: Arg<'a>,
) -> Result<Command<'a>, AllocError>
    requires { ((out-Command command).has_globals ≡ false) × (form.global ≡ false) × (last.global ≡ false) }
    ensures app { IfOk result (λ r. app_of r ≡ with_words (app_of command.entry) (rule_of form.entry) (rule_of last.entry)) }
    ensures local { IfOk result (λ r. (out-Command r).has_globals ≡ false) }
{
    let command = with_both(command, form, nodes(alloc))?;
    let command = with_both(command, schema(alloc), rows(alloc, texts::ROWS))?;
    with_both(command, constraints(alloc), last)
}

fn with_both<'a>(
    command: Command<'a>,
    first: Arg<'a>,
    second: Arg<'a>,
) -> Result<Command<'a>, AllocError>
    requires { ((out-Command command).has_globals ≡ false) × (first.global ≡ false) × (second.global ≡ false) }
    ensures app { IfOk result (λ r. app_of r ≡ with_both (app_of command.entry) (rule_of first.entry) (rule_of second.entry)) }
    ensures local { IfOk result (λ r. (out-Command r).has_globals ≡ false) }
{
    command.arg(first)?.arg(second)
}

fn form<'a>(alloc: Global, forms: ValueParser<'a>, help: &'a str) -> Arg<'a>
    ensures rule { rule_of result ≡ form_rule forms.entry }
    ensures local { result.global ≡ false }
{
    Arg::new(alloc, "as")
        .long("as")
        .value_name("FORM")
        .value_parser(forms)
        .default_value("text")
        .help(help)
}

fn nodes<'a>(alloc: Global) -> Arg<'a>
    ensures rule { rule_of result ≡ nodes_rule }
    ensures local { result.global ≡ false }
{
    Arg::new(alloc, "nodes")
        .long("nodes")
        .value_name("N")
        .value_parser(numbers())
        .default_value("10000")
        .help(texts::NODES)
}

fn numbers<'a>() -> ValueParser<'a>
    ensures { result ≡ Signed (pos 1) (pos most_nodes) }
{
    value_parser!(u32).range(1..=100_000)
}

fn text_option<'a>(alloc: Global, id: &'a str, name: &'a str, help: &'a str) -> Arg<'a>
    ensures rule { rule_of result ≡ text_rule id.now }
    ensures local { result.global ≡ false }
{
    Arg::new(alloc, id).long(id).value_name(name).help(help)
}

fn division<'a>(alloc: Global) -> Arg<'a>
    ensures rule { rule_of result ≡ division_rule }
    ensures local { result.global ≡ false }
{
    Arg::new(alloc, "by")
        .long("by")
        .value_name("COLUMNS")
        .required(true)
        .help(texts::DIVISION)
}

fn widen<'a>(alloc: Global) -> Arg<'a>
    ensures rule { rule_of result ≡ widen_rule }
    ensures local { result.global ≡ false }
{
    Arg::new(alloc, "widen")
        .long("widen")
        .value_name("PERCENT")
        .value_parser(ValueParser::Unsigned(0, 1_000))
        .default_value("0")
        .help(texts::WIDEN)
}

fn lost<'a>(alloc: Global) -> Arg<'a>
    ensures rule { rule_of result ≡ lost_rule }
    ensures local { result.global ≡ false }
{
    Arg::new(alloc, "lost")
        .long("lost")
        .value_name("N")
        .value_parser(ValueParser::Unsigned(1, 10_000_000))
        .help(texts::LOST)
}

fn sort<'a>(alloc: Global) -> Arg<'a>
    ensures rule { rule_of result ≡ sort_rule }
    ensures local { result.global ≡ false }
{
    Arg::new(alloc, "sort")
        .long("sort")
        .action(ArgAction::SetTrue)
        .help(texts::SORT)
}

fn scale<'a>(alloc: Global) -> Arg<'a>
    ensures rule { rule_of result ≡ scale_rule }
    ensures local { result.global ≡ false }
{
    Arg::new(alloc, "scale")
        .long("scale")
        .value_name("FACTOR")
        .value_parser(ValueParser::String)
        .default_value("1")
        .help(texts::SCALE)
}

fn schema<'a>(alloc: Global) -> Arg<'a>
    ensures rule { rule_of result ≡ file_rule (codes "schema") }
    ensures local { result.global ≡ false }
{
    file(alloc, "schema", "SCHEMA", texts::SCHEMA)
}

fn rows<'a>(alloc: Global, help: &'a str) -> Arg<'a>
    ensures rule { rule_of result ≡ file_rule (codes "rows") }
    ensures local { result.global ≡ false }
{
    file(alloc, "rows", "ROWS", help)
}

fn constraints<'a>(alloc: Global) -> Arg<'a>
    ensures rule { rule_of result ≡ file_rule (codes "constraints") }
    ensures local { result.global ≡ false }
{
    file(alloc, "constraints", "CONSTRAINTS", texts::CONSTRAINTS)
}

fn file<'a>(alloc: Global, id: &'a str, name: &'a str, help: &'a str) -> Arg<'a>
    ensures rule { rule_of result ≡ file_rule id.now }
    ensures local { result.global ≡ false }
{
    Arg::new(alloc, id)
        .value_name(name)
        .required(true)
        .help(help)
}

fn columns<'a>(alloc: Global) -> Arg<'a>
    ensures rule { rule_of result ≡ column_rule }
    ensures local { result.global ≡ false }
{
    Arg::new(alloc, "column")
        .value_name("COLUMN")
        .num_args(1..=12)
        .action(ArgAction::Append)
        .help(texts::COLUMN)
}

fn queries<'a>(alloc: Global) -> Arg<'a>
    ensures rule { rule_of result ≡ query_rule }
    ensures local { result.global ≡ false }
{
    Arg::new(alloc, "query")
        .value_name("QUERY")
        .num_args(1..=16)
        .action(ArgAction::Append)
        .required(true)
        .help(texts::QUERY)
}
