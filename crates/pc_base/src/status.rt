ghost use Rattle.std.specs.Prelude.{◌≡◌};
ghost use Rattle.pc_base.specs.Codes.{code_of};

/// How a run ended.
#[derive(Clone, Copy, Debug, PartialEq, Eq)]
pub enum Status {
    /// The answer is written.
    Done,
    /// The answer is written, and it is no.
    SaidNo,
    /// The command line is not one that the program takes.
    Usage,
    /// A file or the query has a flaw.
    Malformed,
    /// A file could not be read.
    ReadFault,
    /// The answer could not be written.
    WriteFault,
    /// There was no memory for the answer.
    Memory,
}

impl Status {
    /// The number that the program's caller sees.
    pub fn code(self) -> u8
        ensures { result ≡ code_of self }
    {
        match self {
            Status::Done => 0,
            Status::SaidNo => 1,
            Status::Usage => 2,
            Status::Malformed => 3,
            Status::ReadFault => 4,
            Status::WriteFault => 5,
            Status::Memory => 6,
        }
    }
}
