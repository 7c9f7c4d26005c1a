//! The text of constraints from history.
ghost use Rattle.std.specs.Prelude.{◌≡◌, ◌++◌, IfOk, option_map};
ghost use Rattle.pc_desk_records.specs.Shown.{shown};
ghost use Rattle.pc_model.specs.Accepted.{AreConstraints};
ghost use Rattle.pc_model.specs.WellFormed.{IsWellFormed};
ghost use Rattle.pc_desk_words.specs.Calls.{history_names};
ghost use Rattle.pc_desk_past.specs.Texts.{chosen_text, lost_text, meant_text, past_line, past_text, period_text, source_text, widen_text};

use pc_desk_records::shown;
use pc_desk_words::History;
use pc_lang::put_constraints;
use pc_list::Seq;
use pc_model::{Constraint, Schema};
use pc_num::Memory;
use std::alloc::Global;

/// The canonical text of constraints, below a line that says of which rows they are, and by which columns.
pub fn past_text(
    alloc: Global,
    schema: &Schema,
    wish: &History,
    drafted: &[Constraint],
) -> Result<Seq<u8>, Memory>
    requires well_formed { IsWellFormed schema.now }
    requires accepted { AreConstraints schema.now drafted.now }
    ensures text { IfOk result (λ text. text ≡ past_text schema.now (history_names wish.now) drafted.now) }
{
    let mut text = past_line(alloc, wish)?;
    put_constraints(alloc, schema, &mut text, drafted)?;
    Ok(Seq::from_vec(text))
}

#[tactic(auto, unfolding(crate::specs::Texts::past_line))]
fn past_line(alloc: Global, wish: &History) -> Result<Vec<u8>, Memory>
    ensures { IfOk result (λ line. line.items ≡ past_line (history_names wish.now)) }
{
    let mut line = source_text(alloc, wish)?;
    let meant = meant_text(alloc, wish)?;
    line.extend_from_slice(meant.as_slice())?;
    line.extend_from_slice(b"\n")?;
    Ok(line)
}

#[tactic(auto, unfolding(crate::specs::Texts::source_text))]
fn source_text(alloc: Global, wish: &History) -> Result<Vec<u8>, Memory>
    ensures { IfOk result (λ text. text.items ≡ source_text (history_names wish.now)) }
{
    let rows = shown(alloc, wish.rows.as_bytes())?;
    let by = shown(alloc, wish.by.as_bytes())?;
    let mut text = Vec::from_slice(alloc, b"# drafted from ")?;
    text.extend_from_slice(rows.as_slice())?;
    text.extend_from_slice(b" by ")?;
    text.extend_from_slice(by.as_slice())?;
    Ok(text)
}

#[tactic(auto, unfolding(crate::specs::Texts::meant_text))]
fn meant_text(alloc: Global, wish: &History) -> Result<Vec<u8>, Memory>
    ensures { IfOk result (λ text. text.items ≡ meant_text (history_names wish.now)) }
{
    let mut text = chosen_text(alloc, wish.chosen)?;
    let per = period_text(alloc, wish.per)?;
    text.extend_from_slice(per.as_slice())?;
    let widen = widen_text(alloc, wish.widen)?;
    text.extend_from_slice(widen.as_slice())?;
    let lost = lost_text(alloc, wish.lost)?;
    text.extend_from_slice(lost.as_slice())?;
    Ok(text)
}

fn chosen_text(alloc: Global, chosen: Option<&str>) -> Result<Vec<u8>, Memory>
    ensures { IfOk result (λ text. text.items ≡ chosen_text (option_map (λ text. text.now) chosen.entry)) }
{
    match chosen {
        None => Ok(Vec::new(alloc)),
        Some(chosen) => titled(alloc, b" where ", chosen.as_bytes()),
    }
}

fn period_text(alloc: Global, per: Option<&str>) -> Result<Vec<u8>, Memory>
    ensures { IfOk result (λ text. text.items ≡ period_text (option_map (λ text. text.now) per.entry)) }
{
    match per {
        None => Ok(Vec::from_slice(alloc, b", all rows as one period")?),
        Some(name) => titled(alloc, b", a period for each ", name.as_bytes()),
    }
}

/// A text as it is shown, behind a word.
pub(crate) fn titled(alloc: Global, word: &[u8], text: &[u8]) -> Result<Vec<u8>, Memory>
    ensures { IfOk result (λ out. out.items ≡ word.now ++ shown text.now) }
{
    let rest = shown(alloc, text)?;
    let mut out = Vec::from_slice(alloc, word)?;
    out.extend_from_slice(rest.as_slice())?;
    Ok(out)
}

fn widen_text(alloc: Global, percent: u64) -> Result<Vec<u8>, Memory>
    ensures { IfOk result (λ text. text.items ≡ widen_text percent) }
{
    if percent == 0 {
        return Ok(Vec::new(alloc));
    }
    Ok(format!(in alloc; ", widened by {percent} per cent")?.into_bytes())
}

fn lost_text(alloc: Global, lost: Option<u64>) -> Result<Vec<u8>, Memory>
    ensures { IfOk result (λ text. text.items ≡ lost_text lost) }
{
    match lost {
        None => Ok(Vec::new(alloc)),
        Some(lost) => Ok(format!(in alloc; ", for {lost} lost rows")?.into_bytes()),
    }
}
