//! The reply of `weigh`.
ghost use Rattle.std.specs.Prelude.{◌≡◌, IfOk, length, position};
ghost use Rattle.pc_files.specs.Loading.{reading_of};
ghost use Rattle.pc_desk_words.specs.Calls.{weigh_names};
ghost use Rattle.pc_desk_words.specs.Words.{IsBudget};
ghost use Rattle.pc_desk_words.specs.Words as words;
ghost use Rattle.pc_desk_run.specs.Inputs.{IsAsking};
ghost use Rattle.pc_desk_run.specs.Outcome.{weighs};
ghost use Rattle.pc_desk_run.specs.Replies.{Answers, IsSaid, IsWanted, RepliesTo, Says};
ghost use Rattle.pc_desk_run.specs.Texts.{is_called, is_ordered, named_of};

use crate::ended::Ended;
use crate::form::weigh_text;
use crate::input::{Asking, read_asking};
use crate::line::{Sources, sources_of_queries};
use crate::note::note_beside;
use crate::reply::{Reply, stopped};
use crate::settled::ended_of_widths;
use crate::unwritten::{called_by, no_constraint_lines};
use pc_base::Shelf;
use pc_desk_answers::{Watch, places_in};
use pc_desk_weigh::weigh;
use pc_desk_widths::orders_of;
use pc_desk_words::{DrawnForm, Weigh};
use pc_files::Kept;
use pc_list::Seq;
use pc_model::Constraint;
use pc_num::Memory;
use std::alloc::Global;

pub(crate) fn reply_to_weigh<F: Shelf, W: Watch>(
    alloc: Global,
    files: &mut F,
    wish: &Weigh,
    watch: &mut W,
) -> Result<Reply, Memory>
    requires { IsBudget wish.now.nodes }
    ensures { IfOk result (RepliesTo (reading_of F.told F.leads files.old files.new) (words.weigh (weigh_names wish.now))) }
{
    let queries = [wish.query];
    let sources = sources_of_queries(wish.files, &queries);
    let mut kept = Kept::new(alloc);
    match read_asking(alloc, files, &sources, &mut kept) {
        Ok(asking) => weighed(alloc, &sources, wish, &asking, watch),
        Err(stop) => stopped(alloc, &sources, &kept, stop),
    }
}

// Of all constraints, or of the one that is named, if there is one.
fn weighed<W: Watch>(
    alloc: Global,
    sources: &Sources,
    wish: &Weigh,
    asking: &Asking,
    watch: &mut W,
) -> Result<Reply, Memory>
    requires asking { IsAsking asking.now }
    requires one { length asking.now.questions ≡ 1 }
    requires budget { IsBudget wish.now.nodes }
    ensures { IfOk result (Answers (named_of sources.now) (weighs (weigh_names wish.now) asking.now)) }
{
    let Some(name) = wish.by else {
        return widths(alloc, wish, asking, None, watch);
    };
    let constraints = asking.observed.constraints.as_slice();
    match place_called(constraints, name.as_bytes()) {
        Some(place) => widths(alloc, wish, asking, Some(place), watch),
        None => Ok(Reply::Refuses {
            ended: Ended::Refused,
            text: no_constraint_lines(alloc, sources, constraints, name.as_bytes())?,
        }),
    }
}

// The changes are weighed, and those that are wanted shown in their order.
fn widths<W: Watch>(
    alloc: Global,
    wish: &Weigh,
    asking: &Asking,
    wanted: Option<usize>,
    watch: &mut W,
) -> Result<Reply, Memory>
    requires asking { IsAsking asking.now }
    requires one { length asking.now.questions ≡ 1 }
    requires budget { IsBudget wish.now.nodes }
    requires wanted { IsWanted (weigh_names wish.now).by asking.now.observed.constraints wanted }
    ensures says { IfOk result (Says (IsSaid (weighs (weigh_names wish.now) asking.now))) }
{
    let observed = &asking.observed;
    let schema = &observed.schema;
    let constraints = observed.constraints.as_slice();
    let questions = asking.questions.as_slice();
    let question = &questions[0];
    let all = weigh(alloc, observed, question, wanted, wish.nodes, watch)?;
    let told = all.as_slice();
    let orders = orders_of(alloc, told, is_ordered(wish.form, wish.sorted))?;
    let places = places_in(schema, question);
    let text = weigh_text(
        alloc,
        wish.form,
        constraints,
        places,
        told,
        orders.as_slice(),
    )?;
    Ok(Reply::Says {
        ended: ended_of_widths(told),
        text: Seq::from_vec(text),
        note: note_beside(alloc, schema, constraints)?,
    })
}

// In a picture what moves the range most stands on top.
fn is_ordered(form: DrawnForm, sorted: bool) -> bool
    ensures { result ≡ is_ordered form sorted }
{
    sorted || form == DrawnForm::Picture
}

/// The place of the constraint that a name calls.
fn place_called(constraints: &[Constraint], name: &[u8]) -> Option<usize>
    ensures { result ≡ position (is_called name.now) constraints.now }
{
    constraints
        .iter()
        .position(|constraint| is_called(name, constraint))
}

fn is_called(name: &[u8], constraint: &Constraint) -> bool
    ensures { result ≡ is_called name.now constraint.now }
{
    called_by(constraint) == name
}
