ghost use Rattle.std.specs.Prelude.{ℕ, List, map, All, IfOk};
ghost use Rattle.pc_model.specs.Accepted.{IsQuery};
ghost use Rattle.pc_model.specs.Refusals.{Gives};
ghost use Rattle.pc_model.specs.WellFormed.{IsWellFormed};
ghost use Rattle.pc_files.specs.Keeping.{KeptFrom, names_of};
ghost use Rattle.pc_files.specs.Loading.{reading_of};
ghost use Rattle.pc_files.specs.Outcome.{queries_of};
ghost use Rattle.pc_files.specs.Reads.{IsLimited, IsScripted, IsShowable, IsUsable, ReadsLimited, ReadsListing, ReadsObserved, ReadsScripted};

use crate::kept::Kept;
use crate::loading::{load_constraints, load_limits, load_rows, load_schema, load_script};
use crate::stop::Stop;
use pc_base::Shelf;
use pc_lang::read_query;
use pc_list::Seq;
use pc_model::{Constraint, Query, Refusal, Schema};
use pc_rows::Rows;
use pc_session::Line;
use std::alloc::Global;

/// The schema, the observed rows and the constraints that answers are over.
#[derive(Debug, Drop)]
pub struct Observed {
    pub schema: Schema,
    pub rows: Rows,
    pub constraints: Seq<Constraint>,
}

/// Constraints, and the schema that they are of.
#[derive(Debug, Drop)]
pub struct Listing {
    pub schema: Schema,
    pub constraints: Seq<Constraint>,
}

/// Constraints, and limits after them in one list; and the schema that they are of.
#[derive(Debug, Drop)]
pub struct Limited {
    pub schema: Schema,
    pub all: Seq<Constraint>,
    /// How many of the list are the constraints.
    pub opening: usize,
}

/// The lines of a script that say something, each with its number in the file, from 1.
#[derive(Debug, Drop)]
pub struct Script {
    pub lines: Seq<Line>,
    pub numbers: Seq<u64>,
}

/// What a session begins with, and the script that it follows.
#[derive(Debug, Drop)]
pub struct Scripted {
    pub observed: Observed,
    pub script: Script,
}

/// Loads and reads a schema, observed rows and constraints, each once and in this order.
pub fn read_observed<F: Shelf>(
    alloc: Global,
    files: &mut F,
    schema: &str,
    rows: &str,
    constraints: &str,
) -> Result<Observed, Stop>
    ensures read { ReadsObserved (reading_of F.told F.leads files.old files.new) schema.now rows.now constraints.now result }
    ensures sound { IfOk result IsUsable }
{
    let mut kept = Kept::new(alloc);
    read_observed_keeping(alloc, files, schema, rows, constraints, &mut kept)
}

/// The same, and keeps the bytes that explain a refusal.
#[tactic(auto, using(pc_model::proofs::FewNames::have_few_names))]
pub fn read_observed_keeping<F: Shelf>(
    alloc: Global,
    files: &mut F,
    schema: &str,
    rows: &str,
    constraints: &str,
    kept: &mut Kept,
) -> Result<Observed, Stop>
    ensures read { ReadsObserved (reading_of F.told F.leads files.old files.new) schema.now rows.now constraints.now result }
    ensures sound { IfOk result IsUsable }
    ensures kept { (script limits : List ℕ) → KeptFrom (F.told files.old).files (names_of schema.now rows.now constraints.now script limits) kept.new result }
{
    let schema = load_schema(alloc, files, schema, &mut kept.last)?;
    kept.set_schema_apart(alloc);
    let rows = load_rows(alloc, files, rows, &schema, &mut kept.last)?;
    let constraints = load_constraints(alloc, files, constraints, &schema, &mut kept.last)?;
    Ok(Observed {
        schema,
        rows,
        constraints,
    })
}

/// Loads and reads a schema and constraints, each once and in this order.
pub fn read_listing<F: Shelf>(
    alloc: Global,
    files: &mut F,
    schema: &str,
    constraints: &str,
) -> Result<Listing, Stop>
    ensures read { ReadsListing (reading_of F.told F.leads files.old files.new) schema.now constraints.now result }
    ensures sound { IfOk result IsShowable }
{
    let mut kept = Kept::new(alloc);
    read_listing_keeping(alloc, files, schema, constraints, &mut kept)
}

/// The same, and keeps the bytes that explain a refusal.
pub fn read_listing_keeping<F: Shelf>(
    alloc: Global,
    files: &mut F,
    schema: &str,
    constraints: &str,
    kept: &mut Kept,
) -> Result<Listing, Stop>
    ensures read { ReadsListing (reading_of F.told F.leads files.old files.new) schema.now constraints.now result }
    ensures sound { IfOk result IsShowable }
    ensures kept { (rows script limits : List ℕ) → KeptFrom (F.told files.old).files (names_of schema.now rows constraints.now script limits) kept.new result }
{
    let schema = load_schema(alloc, files, schema, &mut kept.last)?;
    kept.set_schema_apart(alloc);
    let constraints = load_constraints(alloc, files, constraints, &schema, &mut kept.last)?;
    Ok(Listing {
        schema,
        constraints,
    })
}

/// Loads and reads a schema, constraints and limits, each once and in this order, and keeps the bytes that explain a refusal.
pub fn read_limited_keeping<F: Shelf>(
    alloc: Global,
    files: &mut F,
    schema: &str,
    constraints: &str,
    limits: &str,
    kept: &mut Kept,
) -> Result<Limited, Stop>
    ensures read { ReadsLimited (reading_of F.told F.leads files.old files.new) schema.now constraints.now limits.now result }
    ensures sound { IfOk result IsLimited }
    ensures kept { (rows script : List ℕ) → KeptFrom (F.told files.old).files (names_of schema.now rows constraints.now script limits.now) kept.new result }
{
    let listing = read_listing_keeping(alloc, files, schema, constraints, kept)?;
    let Listing {
        schema,
        constraints,
    } = listing;
    let opening = constraints.len();
    let all = load_limits(alloc, files, limits, &schema, constraints, &mut kept.last)?;
    Ok(Limited {
        schema,
        all,
        opening,
    })
}

/// Loads and reads a schema, observed rows, constraints and a script, each once and in this order.
pub fn read_scripted<F: Shelf>(
    alloc: Global,
    files: &mut F,
    schema: &str,
    rows: &str,
    constraints: &str,
    script: &str,
) -> Result<Scripted, Stop>
    ensures read { ReadsScripted (reading_of F.told F.leads files.old files.new) schema.now rows.now constraints.now script.now result }
    ensures sound { IfOk result IsScripted }
{
    let mut kept = Kept::new(alloc);
    read_scripted_keeping(alloc, files, schema, rows, constraints, script, &mut kept)
}

/// The same, and keeps the bytes that explain a refusal.
pub fn read_scripted_keeping<F: Shelf>(
    alloc: Global,
    files: &mut F,
    schema: &str,
    rows: &str,
    constraints: &str,
    script: &str,
    kept: &mut Kept,
) -> Result<Scripted, Stop>
    ensures read { ReadsScripted (reading_of F.told F.leads files.old files.new) schema.now rows.now constraints.now script.now result }
    ensures sound { IfOk result IsScripted }
    ensures kept { (limits : List ℕ) → KeptFrom (F.told files.old).files (names_of schema.now rows.now constraints.now script.now limits) kept.new result }
{
    let observed = read_observed_keeping(alloc, files, schema, rows, constraints, kept)?;
    let script = load_script(alloc, files, script, &observed, &mut kept.last)?;
    Ok(Scripted { observed, script })
}

/// Reads the queries in their order. The place of a fault is that of the query among them.
pub fn read_queries(alloc: Global, schema: &Schema, texts: &[&str]) -> Result<Seq<Query>, Refusal>
    requires well_formed { IsWellFormed schema.now }
    ensures gives { Gives result (queries_of schema.now (map (λ text. text.now) texts.now)) }
    ensures asked { IfOk result (All (IsQuery schema.now)) }
{
    let mut queries = Seq::new(alloc);
    for (place, text) in texts.iter().enumerate() {
        let query = read_query(alloc, schema, text, place as u64 + 1)?;
        queries.push(query).map_err(|_| Refusal::Memory)?;
    }
    Ok(queries)
}
