ghost use Rattle.std.specs.Prelude.{◌≡◌};
ghost use Rattle.pc_run_words.specs.Words.{form_named, has_nodes};

/// Which command it is.
#[derive(Clone, Copy, Debug, PartialEq, Eq)]
pub(crate) enum Form {
    Bound,
    Prove,
    Check,
    Show,
    Conflict,
    Quantile,
    Session,
    Gen,
}

impl Form {
    /// The command of a name.
    pub fn named(name: &str) -> Option<Form>
        ensures { result ≡ form_named name.now }
    {
        match name {
            "bound" => Some(Form::Bound),
            "prove" => Some(Form::Prove),
            "check" => Some(Form::Check),
            "show" => Some(Form::Show),
            "conflict" => Some(Form::Conflict),
            "quantile" => Some(Form::Quantile),
            "session" => Some(Form::Session),
            "gen" => Some(Form::Gen),
            _ => None,
        }
    }

    /// Whether it takes `--nodes`.
    pub fn has_nodes(self) -> bool
        ensures { result ≡ has_nodes self }
    {
        match self {
            Form::Bound | Form::Prove | Form::Conflict | Form::Quantile | Form::Session => true,
            Form::Check | Form::Show | Form::Gen => false,
        }
    }
}
