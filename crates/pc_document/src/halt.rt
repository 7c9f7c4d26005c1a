use pc_num::Memory;
use std::alloc::{AllocError, AllocFailed};

/// Why reading ended: the line that begins at a place may not stand there, or there was no memory.
#[derive(Clone, Copy, Debug, PartialEq, Eq)]
pub(crate) enum Halt {
    Fault { at: usize },
    Memory,
}

impl From<Memory> for Halt {
    ghost use Rattle.std.specs.Prelude.{◌≡◌};
    ghost use Rattle.pc_document.specs.declared.halt.Halt.TheVariants as halts;

    ghost from_gives = { λ _ halt. halt ≡ halts.Memory };

    fn from(_memory: Memory) -> Halt {
        Halt::Memory
    }
}

impl From<AllocError> for Halt {
    ghost use Rattle.std.specs.Prelude.{◌≡◌};
    ghost use Rattle.pc_document.specs.declared.halt.Halt.TheVariants as halts;

    ghost from_gives = { λ _ halt. halt ≡ halts.Memory };

    fn from(_error: AllocError) -> Halt {
        Halt::Memory
    }
}

impl<T: Drop> From<AllocFailed<T>> for Halt {
    ghost use Rattle.std.specs.Prelude.{◌≡◌};
    ghost use Rattle.pc_document.specs.declared.halt.Halt.TheVariants as halts;

    ghost from_gives = { λ _ halt. halt ≡ halts.Memory };

    fn from(_refused: AllocFailed<T>) -> Halt {
        Halt::Memory
    }
}
