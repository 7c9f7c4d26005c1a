ghost use Rattle.std.specs.Prelude.{◌≡◌};
ghost use Rattle.pc_desk_words.specs.Words.{form_named, sheet_form_named, drawn_form_named};

/// How answers are shown.
#[derive(Clone, Copy, Debug, PartialEq, Eq)]
pub enum Form {
    Text,
    Table,
    Json,
    Chart,
    Picture,
}

/// How findings are shown that a picture is made of, too.
#[derive(Clone, Copy, Debug, PartialEq, Eq)]
pub enum DrawnForm {
    Text,
    Table,
    Json,
    Picture,
}

/// How a table of findings is shown.
#[derive(Clone, Copy, Debug, PartialEq, Eq)]
pub enum SheetForm {
    Text,
    Table,
    Json,
}

impl Form {
    /// The form that `--as` names.
    pub(crate) fn named(name: &str) -> Option<Form>
        ensures { result ≡ form_named name.now }
    {
        match name {
            "text" => Some(Form::Text),
            "table" => Some(Form::Table),
            "json" => Some(Form::Json),
            "chart" => Some(Form::Chart),
            "svg" => Some(Form::Picture),
            _ => None,
        }
    }
}

impl DrawnForm {
    /// The form that `--as` of `why` and of `weigh` names.
    pub(crate) fn named(name: &str) -> Option<DrawnForm>
        ensures { result ≡ drawn_form_named name.now }
    {
        match name {
            "text" => Some(DrawnForm::Text),
            "table" => Some(DrawnForm::Table),
            "json" => Some(DrawnForm::Json),
            "svg" => Some(DrawnForm::Picture),
            _ => None,
        }
    }
}

impl SheetForm {
    /// The form that `--as` of `try` and of `opens` names.
    pub(crate) fn named(name: &str) -> Option<SheetForm>
        ensures { result ≡ sheet_form_named name.now }
    {
        match name {
            "text" => Some(SheetForm::Text),
            "table" => Some(SheetForm::Table),
            "json" => Some(SheetForm::Json),
            _ => None,
        }
    }
}
