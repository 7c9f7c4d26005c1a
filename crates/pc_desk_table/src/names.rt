ghost use Rattle.std.specs.Prelude.{◌≡◌};
ghost use Rattle.pc_desk_table.specs.Names.{lack_text, mark_text, said_text};

use crate::entry::{Mark, Said, SaidLack};

pub(crate) fn said_text<'x>(said: Said) -> &'x str
    ensures { result.now ≡ said_text said }
{
    match said {
        Said::Possible => "possible",
        Said::Impossible => "impossible",
        Said::Undecided => "undecided",
    }
}

pub(crate) fn lack_text<'x>(lack: SaidLack) -> &'x str
    ensures { result.now ≡ lack_text lack }
{
    match lack {
        SaidLack::Never => "never",
        SaidLack::Sometimes => "sometimes",
        SaidLack::Always => "always",
        SaidLack::Undecided => "undecided",
    }
}

pub(crate) fn mark_text<'x>(mark: Mark) -> &'x str
    ensures { result.now ≡ mark_text mark }
{
    match mark {
        Mark::Exact => "exact",
        Mark::Outer => "outer",
    }
}
