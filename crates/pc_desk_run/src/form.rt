ghost use Rattle.std.specs.Prelude.{◌≡◌, ◌≤◌, All, IfOk};
ghost use Rattle.pc_desk_run.specs.Texts.{sheet_text, text_of, weigh_text, why_text};

use pc_desk_draw::{bars_picture, chart_of, picture_of};
use pc_desk_short::ClashLine;
use pc_desk_table::{
    Entry, Sheet, json_of, lines_of, sheet_json, sheet_lines, sheet_table, table_of,
};
use pc_desk_weigh::Weighed;
use pc_desk_why::{Explained, why_bars, why_legend, why_sheet};
use pc_desk_widths::{tornado, tornado_legend, weigh_sheet};
use pc_desk_words::{DrawnForm, Form, SheetForm};
use pc_list::Seq;
use pc_model::Constraint;
use pc_num::Memory;
use std::alloc::Global;

/// The text of entries in a form.
pub(crate) fn text_of(alloc: Global, form: Form, entries: &[Entry]) -> Result<Vec<u8>, Memory>
    ensures { IfOk result (λ text. text.items ≡ text_of form entries.now) }
{
    match form {
        Form::Text => lines_of(alloc, entries),
        Form::Table => table_of(alloc, entries),
        Form::Json => json_of(alloc, entries),
        Form::Chart => chart_of(alloc, entries),
        Form::Picture => picture_of(alloc, entries),
    }
}

/// The text of a sheet in a form.
pub(crate) fn sheet_text(alloc: Global, form: SheetForm, sheet: &Sheet) -> Result<Vec<u8>, Memory>
    ensures { IfOk result (λ text. text.items ≡ sheet_text form sheet.now) }
{
    match form {
        SheetForm::Text => sheet_lines(alloc, sheet),
        SheetForm::Table => sheet_table(alloc, sheet),
        SheetForm::Json => sheet_json(alloc, sheet),
    }
}

/// The text of explanations in a form, with the lines on constraints that are impossible.
pub(crate) fn why_text(
    alloc: Global,
    form: DrawnForm,
    constraints: &[Constraint],
    lines: &[ClashLine],
    all: &[Explained],
) -> Result<Vec<u8>, Memory>
    requires places { All (λ told. told.places ≤ 6) all.now }
    ensures { IfOk result (λ text. text.items ≡ why_text form constraints.now lines.now all.now) }
{
    match form {
        DrawnForm::Text => sheet_lines(alloc, &why_sheet(alloc, constraints, lines, all)?),
        DrawnForm::Table => sheet_table(alloc, &why_sheet(alloc, constraints, lines, all)?),
        DrawnForm::Json => sheet_json(alloc, &why_sheet(alloc, constraints, lines, all)?),
        DrawnForm::Picture => {
            let legend = why_legend(alloc)?;
            let bars = why_bars(alloc, constraints, lines, all)?;
            bars_picture(alloc, &legend, bars.as_slice())
        }
    }
}

/// The text of what changes of constraints do to a range, in a form.
pub(crate) fn weigh_text(
    alloc: Global,
    form: DrawnForm,
    constraints: &[Constraint],
    places: u8,
    all: &[Weighed],
    orders: &[Seq<usize>],
) -> Result<Vec<u8>, Memory>
    requires { places ≤ 6 }
    ensures { IfOk result (λ text. text.items ≡ weigh_text form constraints.now places all.now orders.now) }
{
    if form == DrawnForm::Picture {
        let legend = tornado_legend(alloc)?;
        let bars = tornado(alloc, constraints, places, all, orders)?;
        return bars_picture(alloc, &legend, bars.as_slice());
    }
    let sheet = weigh_sheet(alloc, constraints, places, all, orders)?;
    match form {
        DrawnForm::Table => sheet_table(alloc, &sheet),
        DrawnForm::Json => sheet_json(alloc, &sheet),
        _ => sheet_lines(alloc, &sheet),
    }
}
