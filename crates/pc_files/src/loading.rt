ghost use Rattle.std.specs.Prelude.{◌≡◌, IfOk};
ghost use Rattle.std.specs.List.{AllPass};
ghost use Rattle.pc_model.specs.declared.fault.FileKind.TheVariants as kinds;
ghost use Rattle.pc_model.specs.declared.fault.Reason.TheVariants as reasons;
ghost use Rattle.pc_model.specs.Accepted.{AreConstraints};
ghost use Rattle.pc_model.specs.Membership.{in_domain};
ghost use Rattle.pc_model.specs.Refusals.{Gives, fault_at};
ghost use Rattle.pc_model.specs.WellFormed.{IsWellFormed, HaveFewNames};
ghost use Rattle.pc_schema.specs.SchemaFile.{schema_of};
ghost use Rattle.pc_rows.specs.RowFile.{rows_of};
ghost use Rattle.pc_lang.specs.Files.{constraints_of, limits_of};
ghost use Rattle.pc_session.specs.Edited.{CanFollowAll};
ghost use Rattle.pc_files.specs.Keeping.{KeepsFile};
ghost use Rattle.pc_files.specs.Loading.{reading_of, IsLoaded};
ghost use Rattle.pc_files.specs.Outcome.{held_in, limit_of, mapped, numbered_script, whole};
ghost use Rattle.pc_files.specs.Reads.{IsUsable, found_of};

use crate::reading::{Observed, Script};
use crate::stop::Stop;
use pc_base::{Loaded, Shelf};
use pc_lang::{read_constraints, read_limits};
use pc_list::Seq;
use pc_model::{Constraint, FILE_LIMIT, Fault, FileKind, Reason, Refusal, Schema};
use pc_rows::{Rows, read_rows};
use pc_schema::read_schema;
use pc_script::{read_script, said_lines};
use std::alloc::Global;

/// The greatest number of bytes of a document.
const DOCUMENT_LIMIT: usize = 268_435_456;

/// Loads the bytes of a file.
pub fn load_bytes<F: Shelf>(
    alloc: Global,
    files: &mut F,
    file: FileKind,
    name: &str,
) -> Result<Seq<u8>, Stop>
    ensures { IsLoaded (reading_of F.told F.leads files.old files.new) file name.now whole result }
{
    let mut bytes = Vec::new(alloc);
    match files.load(alloc, name, &mut bytes, limit_of(file)) {
        Loaded::Whole => Ok(Seq::from_vec(bytes)),
        Loaded::Long => Err(Stop::Refused(too_long(file))),
        Loaded::Failed => Err(Stop::Unread(file)),
        Loaded::Memory => Err(Stop::Memory),
    }
}

/// Loads the bytes of a file in the place of those of the file before it.
fn load_last<F: Shelf>(
    alloc: Global,
    files: &mut F,
    file: FileKind,
    name: &str,
    last: &mut Seq<u8>,
) -> Result<(), Stop>
    ensures loaded { IsLoaded (reading_of F.told F.leads files.old files.new) file name.now whole (mapped (λ done. last.new) result) }
    ensures kept { KeepsFile (F.told files.old).files file name.now last.new result }
{
    *last = Seq::new(alloc);
    *last = load_bytes(alloc, files, file, name)?;
    Ok(())
}

/// The greatest number of bytes that a file may have.
fn limit_of(file: FileKind) -> usize
    ensures { result ≡ limit_of file }
{
    match file {
        FileKind::Document => DOCUMENT_LIMIT,
        _ => FILE_LIMIT,
    }
}

fn too_long(file: FileKind) -> Fault
    ensures { result ≡ fault_at file 0 reasons.TooLong }
{
    Fault {
        file,
        place: 0,
        reason: Reason::TooLong,
    }
}

/// Loads and reads the schema, and keeps its bytes.
pub fn load_schema<F: Shelf>(
    alloc: Global,
    files: &mut F,
    name: &str,
    last: &mut Seq<u8>,
) -> Result<Schema, Stop>
    ensures loaded { IsLoaded (reading_of F.told F.leads files.old files.new) kinds.Schema name.now schema_of result }
    ensures kept { KeepsFile (F.told files.old).files kinds.Schema name.now last.new result }
    ensures well_formed { IfOk result IsWellFormed }
{
    load_last(alloc, files, FileKind::Schema, name, last)?;
    Ok(read_schema(alloc, last.as_slice())?)
}

/// Loads and reads the observed rows, and keeps their bytes.
pub fn load_rows<F: Shelf>(
    alloc: Global,
    files: &mut F,
    name: &str,
    schema: &Schema,
    last: &mut Seq<u8>,
) -> Result<Rows, Stop>
    requires { HaveFewNames schema.now.columns }
    ensures loaded { IsLoaded (reading_of F.told F.leads files.old files.new) kinds.Rows name.now (rows_of schema.now) result }
    ensures kept { KeepsFile (F.told files.old).files kinds.Rows name.now last.new result }
    ensures seen { IfOk result (AllPass (in_domain schema.now)) }
{
    load_last(alloc, files, FileKind::Rows, name, last)?;
    Ok(read_rows(alloc, schema, last.as_slice())?)
}

/// Loads and reads the constraints, and keeps their bytes.
pub fn load_constraints<F: Shelf>(
    alloc: Global,
    files: &mut F,
    name: &str,
    schema: &Schema,
    last: &mut Seq<u8>,
) -> Result<Seq<Constraint>, Stop>
    requires well_formed { IsWellFormed schema.now }
    ensures loaded { IsLoaded (reading_of F.told F.leads files.old files.new) kinds.Constraints name.now (constraints_of schema.now) result }
    ensures kept { KeepsFile (F.told files.old).files kinds.Constraints name.now last.new result }
    ensures accepted { IfOk result (AreConstraints schema.now) }
{
    load_last(alloc, files, FileKind::Constraints, name, last)?;
    Ok(read_constraints(alloc, schema, last.as_slice())?)
}

/// Loads and reads limits after these constraints, and keeps their bytes.
pub fn load_limits<F: Shelf>(
    alloc: Global,
    files: &mut F,
    name: &str,
    schema: &Schema,
    constraints: Seq<Constraint>,
    last: &mut Seq<u8>,
) -> Result<Seq<Constraint>, Stop>
    requires well_formed { IsWellFormed schema.now }
    requires before { AreConstraints schema.now constraints }
    ensures loaded { IsLoaded (reading_of F.told F.leads files.old files.new) kinds.Limits name.now (limits_of schema.now constraints) result }
    ensures kept { KeepsFile (F.told files.old).files kinds.Limits name.now last.new result }
    ensures accepted { IfOk result (AreConstraints schema.now) }
{
    load_last(alloc, files, FileKind::Limits, name, last)?;
    Ok(read_limits(alloc, schema, constraints, last.as_slice())?)
}

/// Loads and reads a script, which begins with what was observed, and keeps its bytes.
pub fn load_script<F: Shelf>(
    alloc: Global,
    files: &mut F,
    name: &str,
    observed: &Observed,
    last: &mut Seq<u8>,
) -> Result<Script, Stop>
    requires { IsUsable observed.now }
    ensures loaded { IsLoaded (reading_of F.told F.leads files.old files.new) kinds.Script name.now (numbered_script observed.now.schema (held_in (found_of observed.now))) result }
    ensures kept { KeepsFile (F.told files.old).files kinds.Script name.now last.new result }
    ensures can { IfOk result (λ script. CanFollowAll observed.now.schema (held_in (found_of observed.now)) script.lines) }
{
    load_last(alloc, files, FileKind::Script, name, last)?;
    Ok(read_numbered(alloc, observed, last.as_slice())?)
}

#[tactic(auto, using(crate::proofs::Scripts::reads))]
fn read_numbered(alloc: Global, observed: &Observed, bytes: &[u8]) -> Result<Script, Refusal>
    requires { IsUsable observed.now }
    ensures gives { Gives result (numbered_script observed.now.schema (held_in (found_of observed.now)) bytes.now) }
    ensures can { IfOk result (λ script. CanFollowAll observed.now.schema (held_in (found_of observed.now)) script.lines) }
{
    let constraints = observed.constraints.as_slice();
    let lines = read_script(alloc, &observed.schema, &observed.rows, constraints, bytes)?;
    let numbers = said_lines(alloc, bytes)?;
    Ok(Script { lines, numbers })
}
