//! What `clap` found of a verb, read as a call.
ghost use Rattle.std.specs.Prelude.{◌≡◌, ◌≤◌, [], codes, map, length, IfOk, IfSome, option_map, unwrap_or};
ghost use Rattle.clap.specs.Words.{found_of, rows_of, subcommand_rows_of};
ghost use Rattle.clap.specs.Walk.{all_of, first_of};
ghost use Rattle.pc_desk_words.specs.Calls.{ask_names, draft_names, file_names, head_names, history_names, limit_names, opens_names, session_names, sql_names, trial_names, weigh_names, why_names, HasBudget, HoldsIf};
ghost use Rattle.pc_desk_words.specs.Program.{most_widen};
ghost use Rattle.pc_desk_words.specs.Words.{ask_in, asked_by, asked_in, draft_in, files_in, form_in, head_in, history_in, limit_in, lost_in, nodes_in, number_of, opens_in, queries_in, rowless_files_in, scale_in, scale_of, scale_within, session_in, sheet_form_in, some_of, sorted_in, sql_in, trial_in, drawn_form_in, weigh_in, why_in, widen_in, within, IsBudget, IsLoss, IsScale};

use crate::call::{
    Ask, Call, Draft, Files, Head, History, Limit, Opens, Session, Sql, Trial, Weigh, Why,
};
use crate::form::{DrawnForm, Form, SheetForm};
use clap::ArgMatches;
use pc_num::{Memory, read_scaled};
use std::alloc::Global;

const MOST_NODES: u32 = 100_000;

/// In per cent.
const MOST_WIDEN: u32 = 1_000;

const MOST_LOST: u32 = 10_000_000;

/// In millionths.
const MOST_SCALE: i64 = 1_000_000_000_000;

/// The call of the verb that was found, if its form and its number are ones and nothing is missing.
pub(crate) fn call_in<'a>(alloc: Global, found: &ArgMatches<'a>) -> Result<Option<Call<'a>>, Memory>
    ensures holds { IfOk result (HoldsIf (asked_by (subcommand_rows_of found.now))) }
    ensures numbers { IfOk result (λ call. IfSome call HasBudget) }
{
    match verb_in(found) {
        Some((name, found)) => call_of(alloc, name, found),
        None => Ok(None),
    }
}

fn verb_in<'b, 'a>(found: &'b ArgMatches<'a>) -> Option<(&'a str, &'b ArgMatches<'a>)>
    ensures { option_map (λ p. (p.0.now, rows_of (found_of p.1.now))) result ≡ subcommand_rows_of found.now }
{
    found.subcommand()
}

fn call_of<'a>(
    alloc: Global,
    name: &str,
    found: &ArgMatches<'a>,
) -> Result<Option<Call<'a>>, Memory>
    ensures holds { IfOk result (HoldsIf (asked_in name.now (rows_of (found_of found.now)))) }
    ensures numbers { IfOk result (λ call. IfSome call HasBudget) }
{
    match name {
        "ask" => Ok(ask_in(alloc, found)?.map(Call::Ask)),
        "session" => Ok(session_in(found).map(Call::Session)),
        "why" => Ok(why_in(alloc, found)?.map(Call::Why)),
        "weigh" => Ok(weigh_in(found).map(Call::Weigh)),
        "try" => Ok(trial_in(found).map(Call::Trial)),
        "opens" => Ok(opens_in(found).map(Call::Opens)),
        "history" => Ok(history_in(found).map(Call::History)),
        "limit" => Ok(limit_in(found).map(Call::Limit)),
        "sql" => Ok(sql_in(found).map(Call::Sql)),
        "schema" => Ok(draft_in(alloc, found)?.map(Call::Draft)),
        _ => Ok(None),
    }
}

fn ask_in<'a>(alloc: Global, found: &ArgMatches<'a>) -> Result<Option<Ask<'a>>, Memory>
    ensures reads { IfOk result (λ call. option_map ask_names call ≡ ask_in (rows_of (found_of found.now))) }
    ensures numbers { IfOk result (λ call. IfSome call (λ ask. IsBudget ask.nodes × (1 ≤ length ask.queries.items))) }
{
    let Some(form) = form_in(found) else {
        return Ok(None);
    };
    let Some(head) = head_in(found) else {
        return Ok(None);
    };
    let Some(queries) = queries_in(alloc, found)? else {
        return Ok(None);
    };
    Ok(Some(Ask {
        form,
        nodes: head.nodes,
        files: head.files,
        queries,
    }))
}

fn why_in<'a>(alloc: Global, found: &ArgMatches<'a>) -> Result<Option<Why<'a>>, Memory>
    ensures reads { IfOk result (λ call. option_map why_names call ≡ why_in (rows_of (found_of found.now))) }
    ensures numbers { IfOk result (λ call. IfSome call (λ why. IsBudget why.nodes × (1 ≤ length why.queries.items))) }
{
    let Some(form) = drawn_form_in(found) else {
        return Ok(None);
    };
    let Some(head) = head_in(found) else {
        return Ok(None);
    };
    let Some(queries) = queries_in(alloc, found)? else {
        return Ok(None);
    };
    Ok(Some(Why {
        form,
        nodes: head.nodes,
        files: head.files,
        queries,
    }))
}

fn queries_in<'a>(alloc: Global, found: &ArgMatches<'a>) -> Result<Option<Vec<&'a str>>, Memory>
    ensures reads { IfOk result (λ texts. option_map (λ all. map (λ text. text.now) all.items) texts ≡ queries_in (rows_of (found_of found.now))) }
    ensures some { IfOk result (λ texts. IfSome texts (λ all. 1 ≤ length all.items)) }
{
    match texts_in(found, "query") {
        Some(queries) => some_of(alloc, queries),
        None => Ok(None),
    }
}

/// At least one query has to stand there.
fn some_of<'a>(alloc: Global, queries: &[&'a str]) -> Result<Option<Vec<&'a str>>, Memory>
    ensures reads { IfOk result (λ texts. option_map (λ all. map (λ text. text.now) all.items) texts ≡ some_of (map (λ text. text.now) queries.now)) }
    ensures some { IfOk result (λ texts. IfSome texts (λ all. 1 ≤ length all.items)) }
{
    if queries.is_empty() {
        return Ok(None);
    }
    Ok(Some(queries.to_vec(alloc)?))
}

fn session_in<'a>(found: &ArgMatches<'a>) -> Option<Session<'a>>
    ensures reads { option_map session_names result ≡ session_in (rows_of (found_of found.now)) }
    ensures numbers { IfSome result (λ session. IsBudget session.nodes) }
{
    let form = form_in(found)?;
    let head = head_in(found)?;
    let script = text_in(found, "script")?;
    Some(Session {
        form,
        nodes: head.nodes,
        files: head.files,
        script,
    })
}

fn weigh_in<'a>(found: &ArgMatches<'a>) -> Option<Weigh<'a>>
    ensures reads { option_map weigh_names result ≡ weigh_in (rows_of (found_of found.now)) }
    ensures numbers { IfSome result (λ weigh. IsBudget weigh.nodes) }
{
    let form = drawn_form_in(found)?;
    let head = head_in(found)?;
    let query = text_in(found, "query")?;
    Some(Weigh {
        form,
        nodes: head.nodes,
        by: text_in(found, "by"),
        sorted: sorted_in(found),
        files: head.files,
        query,
    })
}

/// A flag is read as a text: `true` where it stands there.
fn sorted_in(found: &ArgMatches<'_>) -> bool
    ensures { result ≡ sorted_in (rows_of (found_of found.now)) }
{
    match text_in(found, "sort") {
        Some(text) => text == "true",
        None => false,
    }
}

fn trial_in<'a>(found: &ArgMatches<'a>) -> Option<Trial<'a>>
    ensures reads { option_map trial_names result ≡ trial_in (rows_of (found_of found.now)) }
    ensures numbers { IfSome result (λ trial. IsScale trial.scale) }
{
    let form = sheet_form_in(found)?;
    let scale = scale_in(found)?;
    let files = files_in(found)?;
    Some(Trial { form, scale, files })
}

fn opens_in<'a>(found: &ArgMatches<'a>) -> Option<Opens<'a>>
    ensures { option_map opens_names result ≡ opens_in (rows_of (found_of found.now)) }
{
    let form = sheet_form_in(found)?;
    let files = rowless_files_in(found)?;
    Some(Opens { form, files })
}

fn history_in<'a>(found: &ArgMatches<'a>) -> Option<History<'a>>
    ensures reads { option_map history_names result ≡ history_in (rows_of (found_of found.now)) }
    ensures numbers { IfSome result (λ history. (history.widen ≤ most_widen) × IfSome history.lost IsLoss) }
{
    let schema = text_in(found, "schema")?;
    let rows = text_in(found, "rows")?;
    let by = text_in(found, "by")?;
    let widen = widen_in(found)?;
    Some(History {
        schema,
        rows,
        by,
        chosen: text_in(found, "where"),
        per: text_in(found, "per"),
        widen,
        lost: lost_in(found),
    })
}

fn limit_in<'a>(found: &ArgMatches<'a>) -> Option<Limit<'a>>
    ensures { option_map limit_names result ≡ limit_in (rows_of (found_of found.now)) }
{
    let files = rowless_files_in(found)?;
    let limits = text_in(found, "limits")?;
    Some(Limit { files, limits })
}

fn sql_in<'a>(found: &ArgMatches<'a>) -> Option<Sql<'a>>
    ensures { option_map sql_names result ≡ sql_in (rows_of (found_of found.now)) }
{
    let files = rowless_files_in(found)?;
    let table = text_in(found, "table")?;
    Some(Sql { files, table })
}

fn draft_in<'a>(alloc: Global, found: &ArgMatches<'a>) -> Result<Option<Draft<'a>>, Memory>
    ensures { IfOk result (λ call. option_map draft_names call ≡ draft_in (rows_of (found_of found.now))) }
{
    let Some(rows) = text_in(found, "rows") else {
        return Ok(None);
    };
    let columns = columns_in(alloc, found)?;
    Ok(Some(Draft { rows, columns }))
}

fn columns_in<'a>(alloc: Global, found: &ArgMatches<'a>) -> Result<Vec<&'a str>, Memory>
    ensures { IfOk result (λ columns. map (λ text. text.now) columns.items ≡ unwrap_or (all_of (codes "column") (rows_of (found_of found.now))) []) }
{
    match texts_in(found, "column") {
        Some(columns) => Ok(columns.to_vec(alloc)?),
        None => Ok(Vec::new(alloc)),
    }
}

fn head_in<'a>(found: &ArgMatches<'a>) -> Option<Head<'a>>
    ensures reads { option_map head_names result ≡ head_in (rows_of (found_of found.now)) }
    ensures numbers { IfSome result (λ head. IsBudget head.nodes) }
{
    let nodes = nodes_in(found)?;
    let files = files_in(found)?;
    Some(Head { nodes, files })
}

fn files_in<'a>(found: &ArgMatches<'a>) -> Option<Files<'a>>
    ensures { option_map file_names result ≡ files_in (rows_of (found_of found.now)) }
{
    let schema = text_in(found, "schema")?;
    let rows = text_in(found, "rows")?;
    let constraints = text_in(found, "constraints")?;
    Some(Files {
        schema,
        rows,
        constraints,
    })
}

fn rowless_files_in<'a>(found: &ArgMatches<'a>) -> Option<Files<'a>>
    ensures { option_map file_names result ≡ rowless_files_in (rows_of (found_of found.now)) }
{
    let schema = text_in(found, "schema")?;
    let constraints = text_in(found, "constraints")?;
    Some(Files {
        schema,
        rows: "",
        constraints,
    })
}

fn form_in(found: &ArgMatches<'_>) -> Option<Form>
    ensures { result ≡ form_in (rows_of (found_of found.now)) }
{
    Form::named(text_in(found, "as")?)
}

fn drawn_form_in(found: &ArgMatches<'_>) -> Option<DrawnForm>
    ensures { result ≡ drawn_form_in (rows_of (found_of found.now)) }
{
    DrawnForm::named(text_in(found, "as")?)
}

fn sheet_form_in(found: &ArgMatches<'_>) -> Option<SheetForm>
    ensures { result ≡ sheet_form_in (rows_of (found_of found.now)) }
{
    SheetForm::named(text_in(found, "as")?)
}

fn nodes_in(found: &ArgMatches<'_>) -> Option<u32>
    ensures reads { result ≡ nodes_in (rows_of (found_of found.now)) }
    ensures within { IfSome result IsBudget }
{
    number_of(1, MOST_NODES, text_in(found, "nodes")?)
}

fn widen_in(found: &ArgMatches<'_>) -> Option<u64>
    ensures reads { result ≡ widen_in (rows_of (found_of found.now)) }
    ensures within { IfSome result (λ widen. widen ≤ most_widen) }
{
    let number = number_of(0, MOST_WIDEN, text_in(found, "widen")?)?;
    Some(u64::from(number))
}

fn lost_in(found: &ArgMatches<'_>) -> Option<u64>
    ensures reads { result ≡ lost_in (rows_of (found_of found.now)) }
    ensures within { IfSome result IsLoss }
{
    let number = number_of(1, MOST_LOST, text_in(found, "lost")?)?;
    Some(u64::from(number))
}

/// The number from a least to a greatest one that a text spells.
fn number_of(least: u32, most: u32, text: &str) -> Option<u32>
    ensures spells { result ≡ number_of least most text.now }
    ensures within { IfSome result (λ number. (least ≤ number) × (number ≤ most)) }
{
    match text.parse::<u32>() {
        Ok(number) => within(least, most, number),
        Err(_) => None,
    }
}

fn within(least: u32, most: u32, number: u32) -> Option<u32>
    ensures tells { result ≡ within least most number }
    ensures lies { IfSome result (λ number. (least ≤ number) × (number ≤ most)) }
{
    if number < least || most < number {
        return None;
    }
    Some(number)
}

#[tactic(auto, using(crate::proofs::Scales::is_scale))]
fn scale_in(found: &ArgMatches<'_>) -> Option<u64>
    ensures reads { result ≡ scale_in (rows_of (found_of found.now)) }
    ensures within { IfSome result IsScale }
{
    scale_of(text_in(found, "scale")?)
}

#[tactic(auto, unfolding(crate::specs::Words::scale_of))]
fn scale_of(text: &str) -> Option<u64>
    ensures { result ≡ scale_of text.now }
{
    match read_scaled(text.as_bytes(), 6) {
        Ok(number) => scale_within(number),
        Err(_) => None,
    }
}

fn scale_within(number: i64) -> Option<u64>
    ensures { result ≡ scale_within number }
{
    if number < 1 || MOST_SCALE < number {
        return None;
    }
    Some(number.unsigned_abs())
}

/// The value of an option, or a word that is one.
fn text_in<'a>(found: &ArgMatches<'a>, id: &str) -> Option<&'a str>
    ensures { option_map (λ text. text.now) result ≡ first_of id.now (rows_of (found_of found.now)) }
{
    found.get_str(id)
}

fn texts_in<'b, 'a>(found: &'b ArgMatches<'a>, id: &str) -> Option<&'b [&'a str]>
    ensures { option_map (λ all. map (λ text. text.now) all.now) result ≡ all_of id.now (rows_of (found_of found.now)) }
{
    found.get_strs(id)
}
