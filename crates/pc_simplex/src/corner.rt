ghost use Rattle.std.specs.Prelude.{◌≡◌, ◌==◌, ◌<◌, ◌+◌, length};
ghost use Rattle.pc_program_bound.specs.Sums.{int_at};
ghost use Rattle.pc_simplex_tableau.specs.Tableau.{row_at, is_turned};
ghost use Rattle.pc_simplex_tableau.specs.Conditions.{IsSized, AreFitNumbers};
ghost use Rattle.pc_simplex_short.specs.Short.{spelled};
ghost use Rattle.pc_simplex_short.specs.Kept.{IsSetting, IsShort};

use pc_simplex_short::{ShortSetting, ShortTableau, aim_at, entry_at, value_at};
use pc_simplex_tableau::Tableau;
use std::marker::Model;

/// How a tableau stands.
#[derive(Drop)]
pub(crate) enum Form {
    Whole(Tableau),
    Short(ShortSetting, ShortTableau),
}

/// The tableau in which steps end. Contracts see it whole; where it stands in short form, it is read number by number.
#[derive(Drop)]
pub(crate) struct Corner {
    form: Form,
}

impl Model for Corner {
    ghost use Rattle.pc_simplex_tableau.specs.Tableau.{Tableau};
    ghost use Rattle.pc_simplex.specs.Corners.{tableau_of, IsSoundForm};

    ghost Value = { Tableau };

    ghost view = { λ c. tableau_of c.form };

    ghost invariant = { λ c. IsSoundForm c.form };
}

impl Corner {
    pub(crate) fn whole(tableau: Tableau) -> Self
        ensures { result ≡ tableau }
    {
        Corner {
            form: Form::Whole(tableau),
        }
    }

    pub(crate) fn short(setting: ShortSetting, tableau: ShortTableau) -> Self
        requires setting { IsSetting setting }
        requires short { IsShort setting tableau }
        ensures value { result ≡ spelled setting tableau }
        ensures sized { IsSized setting.columns result }
        ensures fits { AreFitNumbers result }
    {
        Corner {
            form: Form::Short(setting, tableau),
        }
    }

    pub(crate) fn weight(&self) -> i128
        ensures { result ≡ self.now.weight }
    {
        match &self.form {
            Form::Whole(tableau) => tableau.weight,
            Form::Short(_setting, tableau) => tableau.weight,
        }
    }

    pub(crate) fn is_turned(&self, column: usize) -> bool
        requires { column < length self.now.turned }
        ensures { result ≡ is_turned self.now column }
    {
        match &self.form {
            Form::Whole(tableau) => tableau.turned[column],
            Form::Short(_setting, tableau) => tableau.turned[column],
        }
    }

    /// The number of the objective row at a column.
    pub(crate) fn aim_at(&self, column: usize) -> i128
        requires { column < length self.now.aim }
        ensures { result ≡ int_at self.now.aim column }
    {
        match &self.form {
            Form::Whole(tableau) => tableau.aim[column],
            Form::Short(setting, tableau) => aim_at(tableau, setting, column),
        }
    }

    /// How many columns there are.
    pub(crate) fn columns(&self) -> usize
        ensures { result ≡ length self.now.aim }
    {
        match &self.form {
            Form::Whole(tableau) => tableau.aim.len(),
            Form::Short(_setting, tableau) => tableau.turned.len(),
        }
    }

    /// How many rows there are.
    pub(crate) fn count(&self) -> usize
        ensures { result ≡ length self.now.rows }
    {
        match &self.form {
            Form::Whole(tableau) => tableau.rows.len(),
            Form::Short(_setting, tableau) => tableau.rows.len(),
        }
    }

    pub(crate) fn is_basic_in(&self, at: usize, column: usize) -> bool
        requires { at < length self.now.rows }
        ensures { result ≡ ((row_at self.now at).basic == column) }
    {
        match &self.form {
            Form::Whole(tableau) => tableau.rows[at].basic == column,
            Form::Short(_setting, tableau) => tableau.rows[at].basic == column,
        }
    }

    /// The number of a row at a column.
    pub(crate) fn entry_at(&self, at: usize, column: usize) -> i128
        requires at { at < length self.now.rows }
        requires column { column < length self.now.aim }
        requires sized { length (row_at self.now at).numbers ≡ length self.now.aim + 1 }
        ensures { result ≡ int_at (row_at self.now at).numbers column }
    {
        match &self.form {
            Form::Whole(tableau) => tableau.rows[at].numbers[column],
            Form::Short(setting, tableau) => i128::from(entry_at(tableau, setting, at, column)),
        }
    }

    /// The value of a row.
    pub(crate) fn value_at(&self, at: usize) -> i128
        requires at { at < length self.now.rows }
        requires sized { length (row_at self.now at).numbers ≡ length self.now.aim + 1 }
        ensures { result ≡ int_at (row_at self.now at).numbers (length self.now.aim) }
    {
        match &self.form {
            Form::Whole(tableau) => tableau.rows[at].numbers[tableau.aim.len()],
            Form::Short(setting, tableau) => i128::from(value_at(tableau, setting, at)),
        }
    }
}
