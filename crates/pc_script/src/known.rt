ghost use Rattle.std.specs.Prelude.{◌≡◌, IfOk};
ghost use Rattle.pc_script.specs.Reading.{HasRoom, known_then};

use pc_list::Seq;
use pc_model::Constraint;
use pc_num::Memory;
use pc_session::{Edit, Line};

/// What the reading of a line looks at of those before it: how many rows and which constraints are held, and how many
/// questions were asked.
#[derive(Debug, Drop)]
pub(crate) struct Known {
    pub(crate) rows: u64,
    pub(crate) constraints: Seq<Constraint>,
    pub(crate) questions: u64,
}

impl Known {
    /// What is known after one line more.
    pub(crate) fn then(mut self, line: &Line) -> Result<Known, Memory>
        requires room { HasRoom self line.now }
        ensures { IfOk result (λ after. after ≡ known_then self line.now) }
    {
        match line {
            Line::Edits(Edit::AddRow(_)) => self.rows += 1,
            Line::Edits(Edit::DropRow(_)) => self.rows -= 1,
            Line::Edits(Edit::AddRule(constraint)) => {
                self.constraints.push(constraint.clone()?)?;
            }
            Line::Edits(Edit::DropRule(at)) => {
                self.constraints.remove(*at as usize);
            }
            Line::Asks(_) => self.questions += 1,
        }
        Ok(self)
    }
}
