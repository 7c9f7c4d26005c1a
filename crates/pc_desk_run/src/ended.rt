ghost use Rattle.std.specs.Prelude.{◌≡◌};
ghost use Rattle.pc_desk_run.specs.Endings.{code_of};

/// How a run ended.
#[derive(Clone, Copy, Debug, PartialEq, Eq)]
pub enum Ended {
    /// What was asked for is written, and all of it is settled; of `try`, the table keeps the constraints.
    Settled,
    /// It is written, and an end is outer, or something is undecided; of `try` and of `schema`, there is something to look at.
    Open,
    /// It is written, and for a block no lost rows are possible.
    Impossible,
    /// The words, a file or a query is refused.
    Refused,
    /// A file could not be read.
    ReadFault,
    /// What was asked for could not be written.
    WriteFault,
    /// There was no memory for it.
    Memory,
}

impl Ended {
    /// The number that the program's caller sees.
    pub fn code(self) -> u8
        ensures { result ≡ code_of self }
    {
        match self {
            Ended::Settled => 0,
            Ended::Open => 1,
            Ended::Impossible => 2,
            Ended::Refused => 3,
            Ended::ReadFault => 4,
            Ended::WriteFault => 5,
            Ended::Memory => 6,
        }
    }
}
