ghost use Rattle.std.specs.Prelude.{◌≡◌, ◌⊎◌, IfOk};
ghost use Rattle.pc_desk_divide.specs.Reading.{column_text, fault_of};
ghost use Rattle.pc_desk_divide.specs.declared.fault.DivisionFault.TheVariants.{Memory as no_memory};

use crate::texts::column_text;
use pc_list::Seq;
use pc_num::Memory;
use std::alloc::Global;

/// Why a text names no divisions: what is wrong, with what stands between two commas there. Of a column that the schema does not
/// have it is the name alone.
#[derive(Debug, Drop)]
pub enum DivisionFault {
    /// Nothing stands there.
    Empty,
    /// The schema has no such column.
    NoColumn(Seq<u8>),
    /// The column stands there for the second time.
    Twice(Seq<u8>),
    /// The column is one of numbers, and it is not said into how many ranges they are cut.
    NoParts(Seq<u8>),
    /// What is said of the ranges is no number from 1 to 20.
    WrongParts(Seq<u8>),
    /// The column is one of names, and a number of ranges is said.
    NamesWithParts(Seq<u8>),
    /// Memory ran out.
    Memory,
}

/// What is wrong, without the text.
#[derive(Clone, Copy, Debug, PartialEq, Eq)]
pub(crate) enum Wrong {
    Empty,
    NoColumn,
    Twice,
    NoParts,
    WrongParts,
    NamesWithParts,
}

/// What is wrong with a text, or that there is no memory to say it.
pub(crate) fn fault_of(alloc: Global, wrong: Wrong, text: &[u8]) -> DivisionFault
    ensures { (result ≡ fault_of wrong text.now) ⊎ (result ≡ no_memory) }
{
    match with_text(alloc, wrong, text) {
        Ok(fault) => fault,
        Err(_) => DivisionFault::Memory,
    }
}

fn with_text(alloc: Global, wrong: Wrong, text: &[u8]) -> Result<DivisionFault, Memory>
    ensures { IfOk result (λ fault. fault ≡ fault_of wrong text.now) }
{
    match wrong {
        Wrong::Empty => Ok(DivisionFault::Empty),
        Wrong::NoColumn => Ok(DivisionFault::NoColumn(copy_of(alloc, column_text(text))?)),
        Wrong::Twice => Ok(DivisionFault::Twice(copy_of(alloc, text)?)),
        Wrong::NoParts => Ok(DivisionFault::NoParts(copy_of(alloc, text)?)),
        Wrong::WrongParts => Ok(DivisionFault::WrongParts(copy_of(alloc, text)?)),
        Wrong::NamesWithParts => Ok(DivisionFault::NamesWithParts(copy_of(alloc, text)?)),
    }
}

fn copy_of(alloc: Global, text: &[u8]) -> Result<Seq<u8>, Memory>
    ensures { IfOk result (λ copy. copy ≡ text.now) }
{
    Ok(Seq::from_slice(alloc, text)?)
}
