ghost use Rattle.std.specs.Prelude.{◌≡◌, ◌+◌, drop};
ghost use Rattle.pc_lang_grammar.specs.Halts.{halt_from, halt_of, unread_for};

use crate::after::{kind_of, next};
use crate::want::Want;
use pc_lang_tokens::Token;
use pc_model::{ReadStop, Reason};

/// Where the reading of tokens stops: at the token of this place, from 0, or behind the last one; and what may stand there.
#[derive(Clone, Copy, Debug, PartialEq, Eq)]
pub struct Halt {
    pub place: usize,
    pub want: Want,
}

/// Why tokens are read as nothing.
#[derive(Clone, Copy, Debug, PartialEq, Eq)]
pub enum Unread {
    Halted(Halt),
    Memory,
}

impl From<Unread> for ReadStop {
    ghost use Rattle.std.specs.Prelude.{◌≡◌};
    ghost use Rattle.pc_lang_grammar.specs.Halts.{stop_of};

    ghost from_gives = { λ unread stop. stop ≡ stop_of unread };

    fn from(unread: Unread) -> ReadStop {
        match unread {
            Unread::Halted(_) => ReadStop::Reason(Reason::Unexpected),
            Unread::Memory => ReadStop::Memory,
        }
    }
}

/// Where reading stops that wants this first. Where all tokens may stand, that is behind the last one.
#[tactic(auto, using(crate::proofs::Halting::steps), unfolding(crate::specs::Halts::halt_of, crate::specs::Halts::halt_from))]
pub fn halt_of(start: Want, tokens: &[Token]) -> Halt
    ensures { result ≡ halt_of start tokens.now }
{
    let mut want = start;
    for (place, token) in tokens.iter().enumerate() {
        match next(want, kind_of(token)) {
            Some(further) => want = further,
            None => return Halt { place, want },
        }
    }
    Halt {
        place: tokens.len(),
        want,
    }
}

/// Why a reader gives nothing that wants this first, and stops for this.
pub(crate) fn stopped_at(stop: ReadStop, start: Want, tokens: &[Token]) -> Unread
    ensures { result ≡ unread_for stop (halt_of start tokens.now) }
{
    match stop {
        ReadStop::Reason(_) => Unread::Halted(halt_of(start, tokens)),
        ReadStop::Memory => Unread::Memory,
    }
}
