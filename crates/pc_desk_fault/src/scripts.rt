ghost use Rattle.std.specs.Prelude.{◌≡◌, ◌-◌, codes, IfOk};
ghost use Rattle.pc_model.specs.Texts.{text_of};
ghost use Rattle.pc_lang_grammar.specs.declared.want.LineWant.TheVariants as lines;
ghost use Rattle.pc_lang_grammar.specs.declared.want.QueryWant.TheVariants as queries;
ghost use Rattle.pc_lang_grammar.specs.declared.want.Want.TheVariants as wants;
ghost use Rattle.pc_lang.specs.Files.{lines_of};
ghost use Rattle.pc_script.specs.Script.{after_word, first_word};
ghost use Rattle.pc_desk_fault.specs.declared.meanings.Form.TheVariants as forms;
ghost use Rattle.pc_desk_fault.specs.Lines.{nth};
ghost use Rattle.pc_desk_fault.specs.Texts.{is_of_reading};
ghost use Rattle.pc_desk_fault.specs.Scripts.{IsAddedTold, IsCommandTold, IsDroppedTold, IsEndTold, IsNameTold, IsScriptLineTold, IsScriptPlaceTold, command_of, is_of_script, thing_of, word_text};
ghost use Rattle.pc_desk_fault.specs.WholeFiles.{plain_text};

use crate::lines::{line_told, nth_line, plain_text};
use crate::meanings::Form;
use crate::queries::before;
use crate::sentences::sentence_line;
use crate::texts::{Refused, is_of_reading, text_for};
use crate::words::first_word;
use pc_desk_wants::{told_of, word_told};
use pc_lang::without_return;
use pc_lang_grammar::{LineWant, QueryWant, Want};
use pc_model::Reason;
use pc_num::Memory;
use std::alloc::Global;

/// The first word of a line of a script.
#[derive(Clone, Copy, Debug, PartialEq, Eq)]
pub enum Command {
    Ask,
    Add,
    Drop,
    Unknown,
}

/// What is added or dropped.
#[derive(Clone, Copy, Debug, PartialEq, Eq)]
pub enum Thing {
    Row,
    Rule,
    Unknown,
}

/// The line of a refusal of a script, and what is told of it.
pub(crate) fn script_place_told(
    alloc: Global,
    schema: &[u8],
    reason: Reason,
    place: u64,
    file: &[u8],
) -> Result<Vec<u8>, Memory>
    ensures { IfOk result (λ out. IsScriptPlaceTold schema.now reason (nth (place - 1) (lines_of (plain_text (text_of file.now) file.now))) out.items) }
{
    match nth_line(plain_text(file), place.saturating_sub(1)) {
        Some(line) => script_line_told(alloc, schema, reason, without_return(line)),
        None => Ok(Vec::from_slice(alloc, b"\n".as_slice())?),
    }
}

#[tactic(auto, using(crate::proofs::Telling::scripts))]
fn script_line_told(
    alloc: Global,
    schema: &[u8],
    reason: Reason,
    line: &[u8],
) -> Result<Vec<u8>, Memory>
    ensures { IfOk result (λ out. IsScriptLineTold schema.now reason line.now out.items) }
{
    let told = command_told(alloc, schema, reason, line)?;
    line_told(alloc, line, told.as_slice())
}

fn command_told(
    alloc: Global,
    schema: &[u8],
    reason: Reason,
    line: &[u8],
) -> Result<Vec<u8>, Memory>
    ensures { IfOk result (λ told. IsCommandTold (command_of (first_word line.now)) schema.now reason line.now told.items) }
{
    let (word, rest) = first_word(line);
    match command_of(word) {
        Command::Ask => query_end(alloc, schema, reason, line, rest),
        Command::Add => added_told(alloc, schema, reason, line, rest),
        Command::Drop => dropped_told(alloc, reason, line, rest),
        Command::Unknown => word_text(
            alloc,
            reason,
            line,
            word,
            rest,
            b"`ask`, `add` or `drop`".as_slice(),
        ),
    }
}

fn added_told(
    alloc: Global,
    schema: &[u8],
    reason: Reason,
    line: &[u8],
    text: &[u8],
) -> Result<Vec<u8>, Memory>
    ensures { IfOk result (λ told. IsAddedTold (thing_of (first_word text.now)) schema.now reason line.now text.now told.items) }
{
    let (word, rest) = first_word(text);
    match thing_of(word) {
        Thing::Row => sentence_line(alloc, reason),
        Thing::Rule => line_end(alloc, schema, reason, line, rest),
        Thing::Unknown => word_text(
            alloc,
            reason,
            line,
            word,
            rest,
            b"`row` or `rule`".as_slice(),
        ),
    }
}

fn dropped_told(alloc: Global, reason: Reason, line: &[u8], text: &[u8]) -> Result<Vec<u8>, Memory>
    ensures { IfOk result (λ told. IsDroppedTold (thing_of (first_word text.now)) reason line.now text.now told.items) }
{
    let (word, rest) = first_word(text);
    match thing_of(word) {
        Thing::Row => sentence_line(alloc, reason),
        Thing::Rule => name_end(alloc, reason, line, rest),
        Thing::Unknown => word_text(
            alloc,
            reason,
            line,
            word,
            rest,
            b"`row` or `rule`".as_slice(),
        ),
    }
}

fn command_of(word: &[u8]) -> Command
    ensures { result ≡ command_of word.now }
{
    if word == b"ask".as_slice() {
        return Command::Ask;
    }
    if word == b"add".as_slice() {
        return Command::Add;
    }
    if word == b"drop".as_slice() {
        return Command::Drop;
    }
    Command::Unknown
}

fn thing_of(word: &[u8]) -> Thing
    ensures { result ≡ thing_of word.now }
{
    if word == b"row".as_slice() {
        return Thing::Row;
    }
    if word == b"rule".as_slice() {
        return Thing::Rule;
    }
    Thing::Unknown
}

fn is_of_script(reason: Reason) -> bool
    ensures { result ≡ is_of_script reason }
{
    matches!(reason, Reason::TooMany | Reason::RepeatedName)
}

// A query at the end of a line.
fn query_end(
    alloc: Global,
    schema: &[u8],
    reason: Reason,
    line: &[u8],
    rest: &[u8],
) -> Result<Vec<u8>, Memory>
    ensures { IfOk result (λ told. IsEndTold (is_of_script reason) forms.Query schema.now reason line.now rest.now (wants.Query queries.Measure) told.items) }
{
    if is_of_script(reason) {
        return sentence_line(alloc, reason);
    }
    let refused = Refused {
        form: Form::Query,
        schema,
        front: before(line, rest.len()),
        text: rest,
        start: Want::Query(QueryWant::Measure),
    };
    text_for(alloc, reason, &refused)
}

// A constraint at the end of a line.
fn line_end(
    alloc: Global,
    schema: &[u8],
    reason: Reason,
    line: &[u8],
    rest: &[u8],
) -> Result<Vec<u8>, Memory>
    ensures { IfOk result (λ told. IsEndTold (is_of_script reason) forms.Line schema.now reason line.now rest.now (wants.Line lines.Head) told.items) }
{
    if is_of_script(reason) {
        return sentence_line(alloc, reason);
    }
    let refused = Refused {
        form: Form::Line,
        schema,
        front: before(line, rest.len()),
        text: rest,
        start: Want::Line(LineWant::Head),
    };
    text_for(alloc, reason, &refused)
}

// The name of a constraint at the end of a line.
fn name_end(alloc: Global, reason: Reason, line: &[u8], rest: &[u8]) -> Result<Vec<u8>, Memory>
    ensures { IfOk result (λ told. IsNameTold (is_of_reading reason) reason line.now rest.now told.items) }
{
    if is_of_reading(reason) {
        return told_of(
            alloc,
            before(line, rest.len()),
            rest,
            Want::Line(LineWant::Rule),
        );
    }
    sentence_line(alloc, reason)
}

// A word of a line before the rest, where one of these may stand.
fn word_text(
    alloc: Global,
    reason: Reason,
    line: &[u8],
    word: &[u8],
    rest: &[u8],
    words: &[u8],
) -> Result<Vec<u8>, Memory>
    ensures { IfOk result (λ told. told.items ≡ word_text reason line.now word.now rest.now words.now) }
{
    if is_of_reading(reason) {
        let front = before(before(line, rest.len()), word.len());
        return word_told(alloc, front, word, words);
    }
    sentence_line(alloc, reason)
}
