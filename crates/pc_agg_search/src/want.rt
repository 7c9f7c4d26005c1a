ghost use Rattle.std.specs.Prelude.{◌≡◌};
ghost use Rattle.pc_agg_search.specs.Wants.{want_for};

/// Which counts of a program are looked for: any that it allows, those that are worth 1 or more, those that are worth 0 or
/// more, or those that are worth so much or more.
#[derive(Clone, Copy, Debug, PartialEq, Eq)]
pub enum Want {
    Any,
    Gaining,
    Without,
    From(i128),
}

/// Where rows were observed, each list gives a value, and else those with a chosen row.
pub fn want_for(observed: bool) -> Want
    ensures { result ≡ want_for observed }
{
    if observed { Want::Any } else { Want::Gaining }
}
