ghost use Rattle.std.specs.Prelude.{◌≡◌};
ghost use Rattle.pc_model.specs.FaultTexts.{number_of, name_of, file_name_of};

use pc_num::Memory;
use std::alloc::{AllocError, AllocFailed};
use thiserror::Error;

/// What is read: one of the files, the text of a query, or a line of a script.
#[derive(Clone, Copy, Debug, PartialEq, Eq)]
pub enum FileKind {
    Schema,
    Rows,
    Constraints,
    Query,
    Document,
    Script,
    Limits,
}

/// Why something is refused. `number` gives the number under which it is printed.
#[derive(Clone, Copy, Debug, PartialEq, Eq)]
pub enum Reason {
    NotUtf8,
    BadName,
    NoHeader,
    UnknownColumn,
    MissingColumn,
    RepeatedName,
    BadKind,
    BadNumber,
    PastLimit,
    TooManyDecimals,
    OutsideDomain,
    UnknownName,
    FieldCount,
    TooMany,
    BadToken,
    Unexpected,
    EmptySpan,
    LeastOverMost,
    WrongKind,
    TooLong,
}

/// The first fault of what is read. The place is a number of a record, line or query, and 0 for a file as
/// a whole.
#[derive(Clone, Copy, Debug, PartialEq, Eq)]
pub struct Fault {
    pub file: FileKind,
    pub place: u64,
    pub reason: Reason,
}

/// Why a reader gives no value.
#[derive(Clone, Copy, Debug, PartialEq, Eq, Error)]
pub enum Refusal {
    #[error("{0:?}")]
    Fault(Fault),
    #[error("out of memory")]
    Memory,
}

impl From<Memory> for Refusal {
    ghost use Rattle.std.specs.Prelude.{◌≡◌};
    ghost use Rattle.pc_model.specs.declared.fault.Refusal.TheVariants.{Memory};

    ghost from_gives = { λ _ refusal. refusal ≡ Memory };

    fn from(_memory: Memory) -> Refusal {
        Refusal::Memory
    }
}

/// Why a part of a file gives no value: a reason, whose place only the reader of the whole file knows, or
/// want of memory.
#[derive(Clone, Copy, Debug, PartialEq, Eq, Error)]
pub enum ReadStop {
    #[error("{0:?}")]
    Reason(Reason),
    #[error("out of memory")]
    Memory,
}

impl ReadStop {
    ghost use Rattle.std.specs.Prelude.{◌≡◌};
    ghost use Rattle.pc_model.specs.Refusals.{refusal_at};

    /// The same for the file, with the place of the part.
    pub fn at(self, file: FileKind, place: u64) -> Refusal
        ensures { result ≡ refusal_at file place self }
    {
        match self {
            ReadStop::Reason(reason) => Refusal::Fault(Fault {
                file,
                place,
                reason,
            }),
            ReadStop::Memory => Refusal::Memory,
        }
    }
}

impl From<Reason> for ReadStop {
    ghost use Rattle.std.specs.Prelude.{◌≡◌};
    ghost use Rattle.pc_model.specs.declared.fault.ReadStop.TheVariants.{Reason};

    ghost from_gives = { λ reason stop. stop ≡ Reason reason };

    fn from(reason: Reason) -> ReadStop {
        ReadStop::Reason(reason)
    }
}

impl From<Memory> for ReadStop {
    ghost use Rattle.std.specs.Prelude.{◌≡◌};
    ghost use Rattle.pc_model.specs.declared.fault.ReadStop.TheVariants.{Memory};

    ghost from_gives = { λ _ stop. stop ≡ Memory };

    fn from(_memory: Memory) -> ReadStop {
        ReadStop::Memory
    }
}

impl From<AllocError> for ReadStop {
    ghost use Rattle.std.specs.Prelude.{◌≡◌};
    ghost use Rattle.pc_model.specs.declared.fault.ReadStop.TheVariants.{Memory};

    ghost from_gives = { λ _ stop. stop ≡ Memory };

    fn from(_error: AllocError) -> ReadStop {
        ReadStop::Memory
    }
}

impl<T: Drop> From<AllocFailed<T>> for ReadStop {
    ghost use Rattle.std.specs.Prelude.{◌≡◌};
    ghost use Rattle.pc_model.specs.declared.fault.ReadStop.TheVariants.{Memory};

    ghost from_gives = { λ _ stop. stop ≡ Memory };

    fn from(_refused: AllocFailed<T>) -> ReadStop {
        ReadStop::Memory
    }
}

impl FileKind {
    /// The word by which a refusal names what was read.
    pub fn name(self) -> &'static str
        ensures { result.now ≡ file_name_of self }
    {
        match self {
            FileKind::Schema => "schema",
            FileKind::Rows => "rows",
            FileKind::Constraints => "constraints",
            FileKind::Query => "query",
            FileKind::Document => "document",
            FileKind::Script => "script",
            FileKind::Limits => "limits",
        }
    }
}

impl Reason {
    /// The number under which the reason is printed.
    pub fn number(self) -> u8
        ensures { result ≡ number_of self }
    {
        match self {
            Reason::NotUtf8 => 1,
            Reason::BadName => 2,
            Reason::NoHeader => 3,
            Reason::UnknownColumn => 4,
            Reason::MissingColumn => 5,
            Reason::RepeatedName => 6,
            Reason::BadKind => 7,
            Reason::BadNumber => 8,
            Reason::PastLimit => 9,
            Reason::TooManyDecimals => 10,
            Reason::OutsideDomain => 11,
            Reason::UnknownName => 12,
            Reason::FieldCount => 13,
            Reason::TooMany => 14,
            Reason::BadToken => 15,
            Reason::Unexpected => 16,
            Reason::EmptySpan => 17,
            Reason::LeastOverMost => 18,
            Reason::WrongKind => 19,
            Reason::TooLong => 20,
        }
    }

    /// The name with which the reason is printed.
    pub fn name(self) -> &'static str
        ensures { result.now ≡ name_of self }
    {
        match self {
            Reason::NotUtf8 => "NotUtf8",
            Reason::BadName => "BadName",
            Reason::NoHeader => "NoHeader",
            Reason::UnknownColumn => "UnknownColumn",
            Reason::MissingColumn => "MissingColumn",
            Reason::RepeatedName => "RepeatedName",
            Reason::BadKind => "BadKind",
            Reason::BadNumber => "BadNumber",
            Reason::PastLimit => "PastLimit",
            Reason::TooManyDecimals => "TooManyDecimals",
            Reason::OutsideDomain => "OutsideDomain",
            Reason::UnknownName => "UnknownName",
            Reason::FieldCount => "FieldCount",
            Reason::TooMany => "TooMany",
            Reason::BadToken => "BadToken",
            Reason::Unexpected => "Unexpected",
            Reason::EmptySpan => "EmptySpan",
            Reason::LeastOverMost => "LeastOverMost",
            Reason::WrongKind => "WrongKind",
            Reason::TooLong => "TooLong",
        }
    }
}
