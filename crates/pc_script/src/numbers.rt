ghost use Rattle.std.specs.Prelude.{◌≡◌, ◌++◌, IfOk};
ghost use Rattle.pc_lang.specs.Files.{lines_of};
ghost use Rattle.pc_script.specs.Numbers.{said_at, said_from, said_lines};

use pc_lang::{first_line, is_passed_over, without_return};
use pc_list::Seq;
use pc_model::text_of;
use pc_num::Memory;
use std::alloc::Global;

/// The numbers, from 1, of the lines of a script that say something; what is no text has none.
pub fn said_lines(alloc: Global, bytes: &[u8]) -> Result<Seq<u64>, Memory>
    ensures numbers { IfOk result (λ numbers. numbers ≡ said_lines bytes.now) }
{
    match text_of(bytes) {
        Ok(text) => said_in_text(alloc, text),
        Err(_) => Ok(Seq::new(alloc)),
    }
}

#[tactic(auto, using(crate::proofs::SaidLines::steps))]
fn said_in_text(alloc: Global, text: &[u8]) -> Result<Seq<u64>, Memory>
    ensures { IfOk result (λ numbers. numbers ≡ said_from 1 (lines_of text.now)) }
{
    let mut numbers = Seq::new(alloc);
    let mut number = 1;
    let mut rest = text;
    while let Some((line, after)) = first_line(rest) {
        numbers = with_said(numbers, number, line)?;
        number += 1;
        rest = after;
    }
    with_said(numbers, number, rest)
}

// The numbers with that of a line, if it says something.
fn with_said(before: Seq<u64>, number: u64, line: &[u8]) -> Result<Seq<u64>, Memory>
    ensures { IfOk result (λ numbers. numbers ≡ before ++ said_at number line.now) }
{
    let mut numbers = before;
    if !is_passed_over(without_return(line)) {
        numbers.push(number)?;
    }
    Ok(numbers)
}
