use pc_model::{Fault, FileKind, Refusal};
use std::alloc::AllocError;

/// Why files give no case.
#[derive(Clone, Copy, Debug, PartialEq, Eq)]
pub enum Stop {
    Refused(Fault),
    Unread(FileKind),
    Memory,
}

impl From<Fault> for Stop {
    ghost use Rattle.pc_files.specs.declared.stop.Stop.TheVariants.{Refused};
    ghost use Rattle.std.specs.Prelude.{◌≡◌};

    ghost from_gives = { λ fault stop. stop ≡ Refused fault };

    fn from(fault: Fault) -> Stop {
        Stop::Refused(fault)
    }
}

impl From<Refusal> for Stop {
    ghost use Rattle.pc_files.specs.Stops.{stop_of};
    ghost use Rattle.std.specs.Prelude.{◌≡◌};

    ghost from_gives = { λ refusal stop. stop ≡ stop_of refusal };

    fn from(refusal: Refusal) -> Stop {
        match refusal {
            Refusal::Fault(fault) => Stop::Refused(fault),
            Refusal::Memory => Stop::Memory,
        }
    }
}

impl From<AllocError> for Stop {
    ghost use Rattle.pc_files.specs.declared.stop.Stop.TheVariants.{Memory};
    ghost use Rattle.std.specs.Prelude.{◌≡◌};

    ghost from_gives = { λ _ stop. stop ≡ Memory };

    fn from(_error: AllocError) -> Stop {
        Stop::Memory
    }
}
