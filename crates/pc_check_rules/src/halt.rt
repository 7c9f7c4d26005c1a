use pc_num::Memory;

/// Why a judgement ended: a line breaks the rule of a number, or there was no memory.
#[derive(Clone, Copy, Debug, PartialEq, Eq)]
pub enum Halt {
    Broken { line: u64, rule: u8 },
    Memory,
}

impl From<Memory> for Halt {
    ghost use Rattle.std.specs.Prelude.{◌≡◌};
    ghost use Rattle.pc_check_rules.specs.declared.halt.Halt.TheVariants as halts;

    ghost from_gives = { λ _ halt. halt ≡ halts.Memory };

    fn from(_memory: Memory) -> Halt {
        Halt::Memory
    }
}
