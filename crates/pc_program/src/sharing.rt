ghost use Rattle.std.specs.Prelude.{◌≡◌, ℕ, ◌+◌, ◌≤◌, ◌<◌, ◌≤ℤ◌, pos, int_lt, cond};
ghost use Rattle.pc_program.specs.Sharing.{IsSharedOut};

/// What a cell can give a constraint: at most `cap` rows, each worth `gain`.
#[derive(Clone, Copy, Debug, PartialEq, Eq)]
pub struct Supply {
    pub cap: u64,
    pub gain: i128,
}

/// The rows of the two cells of a constraint, and its multiplier.
#[derive(Clone, Copy, Debug, PartialEq, Eq)]
pub struct Shared {
    pub first: u64,
    pub second: u64,
    pub by: i128,
}

/// Shares out a constraint's rows between its two cells as the greatest worth wants.
#[tactic(auto, using(crate::proofs::Slack::turned))]
pub(crate) fn share_out(least: u64, most: u64, a: Supply, b: Supply) -> Shared
    requires ordered { least ≤ most }
    requires enough { least ≤ a.cap + b.cap }
    ensures { IsSharedOut least most a b result }
{
    if b.gain <= a.gain {
        return share_in_order(least, most, a, b);
    }
    let turned = share_in_order(least, most, b, a);
    Shared {
        first: turned.second,
        second: turned.first,
        by: turned.by,
    }
}

/// The same where the first cell's rows are worth no less.
#[tactic(auto, using(crate::proofs::Slack::shares))]
fn share_in_order(least: u64, most: u64, a: Supply, b: Supply) -> Shared
    requires ordered { least ≤ most }
    requires enough { least ≤ a.cap + b.cap }
    requires falling { b.gain ≤ℤ a.gain }
    ensures { IsSharedOut least most a b result }
{
    let end = wanted_end(least, most, a.gain);
    if end <= a.cap {
        return Shared {
            first: end,
            second: 0,
            by: a.gain,
        };
    }
    let end = wanted_end(least, most, b.gain);
    if end < a.cap {
        return Shared {
            first: a.cap,
            second: 0,
            by: 0,
        };
    }
    if b.cap < end - a.cap {
        return Shared {
            first: a.cap,
            second: b.cap,
            by: 0,
        };
    }
    Shared {
        first: a.cap,
        second: end - a.cap,
        by: b.gain,
    }
}

/// The end of a constraint that a row of that worth moves its total to.
fn wanted_end(least: u64, most: u64, gain: i128) -> u64
    ensures { result ≡ cond (int_lt (pos 0) gain) most least }
{
    if gain > 0 {
        return most;
    }
    least
}
