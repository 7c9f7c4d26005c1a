ghost use Rattle.std.specs.Prelude.{◌≡◌, ◌∷◌, [], ◌++◌, codes, IfOk, OnOk};
ghost use Rattle.pc_report.specs.RunLines.{HaveScales};
ghost use Rattle.pc_desk_short.specs.ClashTexts.{clash_lines, conflict_lines, member_line, member_lines, member_text, open_line, short_line};
ghost use Rattle.pc_desk_short.specs.ClashTexts.{next_runs_text, run_text, runs_text, without_text};

use crate::clash::Clash;
use crate::shortage::Shortage;
use crate::text::{needs_text, put_name_in, rooms_text};
use pc_conflict::Conflict;
use pc_desk_table::shown;
use pc_list::{Seq, Text};
use pc_model::{Constraint, Run, Schema};
use pc_num::Memory;
use pc_report::put_fields;
use std::alloc::Global;

/// A line on why constraints are impossible: who, and what of it.
#[derive(Debug, Drop)]
pub struct ClashLine {
    pub under: Text,
    pub held: Text,
}

/// What is told of a clash: of a shortage what is needed, and what there is room for; of constraints
/// that contradict each other, each with the rows that are possible without it.
pub fn clash_lines(
    alloc: Global,
    schema: &Schema,
    constraints: &[Constraint],
    clash: &Clash,
) -> Result<Seq<ClashLine>, Memory>
    requires { HaveScales schema.now.columns }
    ensures lines { IfOk result (λ lines. lines ≡ clash_lines schema.now constraints.now clash.now) }
{
    match clash {
        Clash::Short(shortage) => only(alloc, short_line(alloc, constraints, shortage)?),
        Clash::Conflict(conflict) => conflict_lines(alloc, schema, constraints, conflict),
    }
}

fn conflict_lines(
    alloc: Global,
    schema: &Schema,
    constraints: &[Constraint],
    conflict: &Conflict,
) -> Result<Seq<ClashLine>, Memory>
    requires { HaveScales schema.now.columns }
    ensures { IfOk result (λ lines. lines ≡ conflict_lines schema.now constraints.now conflict.now) }
{
    match conflict {
        Conflict::Core { members, without } => member_lines(
            alloc,
            schema,
            constraints,
            members.as_slice(),
            without.as_slice(),
        ),
        Conflict::Possible(_) | Conflict::Undecided { .. } => only(alloc, open_line(alloc)?),
    }
}

fn only(alloc: Global, line: ClashLine) -> Result<Seq<ClashLine>, Memory>
    ensures { IfOk result (λ lines. lines ≡ line ∷ []) }
{
    let mut lines = Seq::new(alloc);
    lines.push(line)?;
    Ok(lines)
}

fn short_line(
    alloc: Global,
    constraints: &[Constraint],
    shortage: &Shortage,
) -> Result<ClashLine, Memory>
    ensures { IfOk result (λ line. line ≡ short_line constraints.now shortage.now) }
{
    Ok(ClashLine {
        under: needs_text(alloc, constraints, shortage)?,
        held: rooms_text(alloc, constraints, shortage)?,
    })
}

fn open_line(alloc: Global) -> Result<ClashLine, Memory>
    ensures { IfOk result (λ line. line ≡ open_line) }
{
    Ok(ClashLine {
        under: Text::from_text(alloc, "")?,
        held: Text::from_text(
            alloc,
            "the constraints contradict each other, and which of them do was not found out",
        )?,
    })
}

/// A line for each member that has runs.
#[tactic(auto, using(crate::proofs::MemberLines::steps))]
fn member_lines(
    alloc: Global,
    schema: &Schema,
    constraints: &[Constraint],
    members: &[u32],
    without: &[Seq<Run>],
) -> Result<Seq<ClashLine>, Memory>
    requires { HaveScales schema.now.columns }
    ensures { IfOk result (λ lines. lines ≡ member_lines schema.now constraints.now members.now without.now) }
{
    let mut lines = Seq::new(alloc);
    for (index, member) in members.iter().enumerate() {
        if without.len() <= index {
            return Ok(lines);
        }
        let runs = without[index].as_slice();
        lines.push(member_line(alloc, schema, constraints, *member, runs)?)?;
    }
    Ok(lines)
}

#[tactic(auto, unfolding(crate::specs::ClashTexts::member_line))]
fn member_line(
    alloc: Global,
    schema: &Schema,
    constraints: &[Constraint],
    member: u32,
    runs: &[Run],
) -> Result<ClashLine, Memory>
    requires { HaveScales schema.now.columns }
    ensures { IfOk result (λ line. line ≡ member_line schema.now constraints.now member runs.now) }
{
    Ok(ClashLine {
        under: member_text(alloc, constraints, member)?,
        held: without_text(alloc, schema, runs)?,
    })
}

fn member_text(alloc: Global, constraints: &[Constraint], member: u32) -> Result<Text, Memory>
    ensures { IfOk result (λ text. text ≡ member_text constraints.now member) }
{
    let mut bytes = Vec::new(alloc);
    put_name_in(alloc, &mut bytes, constraints, member as usize)?;
    shown(alloc, bytes.as_slice())
}

fn without_text(alloc: Global, schema: &Schema, runs: &[Run]) -> Result<Text, Memory>
    requires { HaveScales schema.now.columns }
    ensures { IfOk result (λ text. text ≡ without_text schema.now runs.now) }
{
    let mut bytes = Vec::new(alloc);
    bytes.extend_from_slice(b"possible without it: ")?;
    put_runs(alloc, &mut bytes, schema, runs)?;
    shown(alloc, bytes.as_slice())
}

// Appends runs with a semicolon and a space between two.
fn put_runs(alloc: Global, out: &mut Vec<u8>, schema: &Schema, runs: &[Run]) -> Result<(), Memory>
    requires { HaveScales schema.now.columns }
    ensures { OnOk result (out.new.items ≡ out.old.items ++ runs_text schema.now runs.now) }
{
    match runs {
        [run, runs @ ..] => {
            put_run(alloc, out, schema, run)?;
            put_next_runs(alloc, out, schema, runs)
        }
        [] => {
            out.extend_from_slice(b"no row")?;
            Ok(())
        }
    }
}

#[tactic(auto, using(std::proofs::lemmas::List::flat_map_more), unfolding(crate::specs::ClashTexts::next_runs_text))]
fn put_next_runs(
    alloc: Global,
    out: &mut Vec<u8>,
    schema: &Schema,
    runs: &[Run],
) -> Result<(), Memory>
    requires { HaveScales schema.now.columns }
    ensures { OnOk result (out.new.items ≡ out.old.items ++ next_runs_text schema.now runs.now) }
{
    for run in runs {
        put_next_run(alloc, out, schema, run)?;
    }
    Ok(())
}

fn put_next_run(alloc: Global, out: &mut Vec<u8>, schema: &Schema, run: &Run) -> Result<(), Memory>
    requires { HaveScales schema.now.columns }
    ensures { OnOk result (out.new.items ≡ out.old.items ++ (codes "; " ++ run_text schema.now run.now)) }
{
    out.extend_from_slice(b"; ")?;
    put_run(alloc, out, schema, run)
}

// Appends how often a row is lost, and its fields in the order of the columns.
#[tactic(auto, unfolding(crate::specs::ClashTexts::run_text))]
fn put_run(alloc: Global, out: &mut Vec<u8>, schema: &Schema, run: &Run) -> Result<(), Memory>
    requires { HaveScales schema.now.columns }
    ensures { OnOk result (out.new.items ≡ out.old.items ++ run_text schema.now run.now) }
{
    let times = run.times;
    let front = format!(in alloc; "{times} of (")?;
    out.extend_from_slice(front.as_bytes())?;
    let columns = schema.columns.as_slice();
    put_fields(alloc, out, columns, run.row.cells.as_slice())?;
    out.push(b')')?;
    Ok(())
}
