//! The reply of `why`.
ghost use Rattle.std.specs.Prelude.{◌≡◌, ◌≤◌, All, IfOk};
ghost use Rattle.pc_files.specs.Loading.{reading_of};
ghost use Rattle.pc_files.specs.Reads.{IsUsable};
ghost use Rattle.pc_desk_words.specs.Calls.{why_names};
ghost use Rattle.pc_desk_words.specs.Words.{IsBudget};
ghost use Rattle.pc_desk_words.specs.Words as words;
ghost use Rattle.pc_desk_run.specs.Endings.{has_impossible};
ghost use Rattle.pc_desk_run.specs.Inputs.{IsAsking};
ghost use Rattle.pc_desk_run.specs.Outcome.{explains};
ghost use Rattle.pc_desk_run.specs.Replies.{AreClashLines, AreReasonsShown, IsSaid, RepliesTo, Says};

use crate::form::why_text;
use crate::input::{Asking, read_asking};
use crate::line::sources_of_why;
use crate::note::note_beside;
use crate::reply::{Reply, stopped};
use crate::settled::{ended_of_reasons, has_impossible};
use pc_base::Shelf;
use pc_desk_short::{ClashLine, clash_lines, clash_of};
use pc_desk_why::{Explained, explain};
use pc_desk_words::{DrawnForm, Why};
use pc_files::{Kept, Observed};
use pc_list::Seq;
use pc_model::Constraint;
use pc_num::Memory;
use std::alloc::Global;

pub(crate) fn reply_to_why<F: Shelf>(
    alloc: Global,
    files: &mut F,
    why: &Why,
) -> Result<Reply, Memory>
    requires { IsBudget why.now.nodes }
    ensures { IfOk result (RepliesTo (reading_of F.told F.leads files.old files.new) (words.why (why_names why.now))) }
{
    let sources = sources_of_why(why);
    let mut kept = Kept::new(alloc);
    match read_asking(alloc, files, &sources, &mut kept) {
        Ok(asking) => explained(alloc, &asking, why.form, why.nodes),
        Err(stop) => stopped(alloc, &sources, &kept, stop),
    }
}

fn explained(alloc: Global, asking: &Asking, form: DrawnForm, nodes: u32) -> Result<Reply, Memory>
    requires asking { IsAsking asking.now }
    requires budget { IsBudget nodes }
    ensures says { IfOk result (Says (IsSaid (explains form nodes asking.now))) }
{
    let observed = &asking.observed;
    let constraints = observed.constraints.as_slice();
    let questions = asking.questions.as_slice();
    let all = explain(alloc, observed, questions, nodes)?;
    let told = all.as_slice();
    let impossible = has_impossible(told);
    let lines = lines_on(alloc, observed, nodes, impossible)?;
    let note = note_beside(alloc, &observed.schema, constraints)?;
    shown(alloc, form, constraints, lines.as_slice(), told, note)
}

// What is told of constraints that are impossible; of others there is nothing.
fn lines_on(
    alloc: Global,
    observed: &Observed,
    nodes: u32,
    impossible: bool,
) -> Result<Seq<ClashLine>, Memory>
    requires usable { IsUsable observed.now }
    requires budget { IsBudget nodes }
    ensures { IfOk result (AreClashLines observed.now nodes impossible) }
{
    if !impossible {
        return Ok(Seq::new(alloc));
    }
    let schema = &observed.schema;
    let constraints = observed.constraints.as_slice();
    let clash = clash_of(alloc, schema, constraints, nodes)?;
    clash_lines(alloc, schema, constraints, &clash)
}

fn shown(
    alloc: Global,
    form: DrawnForm,
    constraints: &[Constraint],
    lines: &[ClashLine],
    all: &[Explained],
    note: Seq<u8>,
) -> Result<Reply, Memory>
    requires places { All (λ told. told.places ≤ 6) all.now }
    ensures { IfOk result (Says (AreReasonsShown form constraints.now lines.now all.now note)) }
{
    Ok(Reply::Says {
        ended: ended_of_reasons(all),
        text: Seq::from_vec(why_text(alloc, form, constraints, lines, all)?),
        note,
    })
}
