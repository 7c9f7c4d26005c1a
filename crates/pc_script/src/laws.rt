ghost use Rattle.std.specs.Prelude.{◌≡◌, ℕ, List, length, Ok};
ghost use Rattle.pc_model.specs.declared.schema.Schema.{Schema};
ghost use Rattle.pc_session.specs.declared.line.Line.{Line};
ghost use Rattle.pc_session.specs.Edited.{Held};
ghost use Rattle.pc_script.specs.Numbers.{said_lines};
ghost use Rattle.pc_script.specs.Script.{script_of};

/// A script that is read has as many lines as numbers, one for each line that says something.
#[tactic(auto, using(crate::proofs::Counted::as_many_numbers))]
pub fn lines_have_their_numbers()
    ensures { (schema : Schema) (start : Held) (bytes : List ℕ) (lines : List Line) → script_of schema start bytes ≡ Ok lines → length (said_lines bytes) ≡ length lines }
{}
