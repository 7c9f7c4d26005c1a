ghost use Rattle.std.specs.Prelude.{◌≡◌, ◌<◌, ◌≤◌, ◌++◌, ◌∷◌, [], map, All, IfOk, IfSome, Some, slice_get, if◌then◌else◌};
ghost use Rattle.pc_model.specs.WellFormed.{IsWellFormed, HasFewNames};
ghost use Rattle.pc_group.specs.Wanted.{allowed_names, is_allowed, names_at, names_in, area_of, wanted, wanted_by, wanted_of, wanted_as};

use pc_list::Seq;
use pc_model::{Area, Kind, Query, Schema};
use pc_num::Memory;
use pc_proof::{narrowed, some_allows};
use std::alloc::Global;

/// The areas of the blocks that the queries want.
#[tactic(auto, using(crate::proofs::Areas::by_query))]
pub(crate) fn areas_of(
    alloc: Global,
    schema: &Schema,
    queries: &[Query],
) -> Result<Seq<Area>, Memory>
    requires { IsWellFormed schema.now }
    ensures { IfOk result (λ areas. areas ≡ map area_of (wanted schema.now queries.now)) }
{
    let mut areas = Seq::new(alloc);
    for query in queries {
        areas = with_query(alloc, schema, query, areas)?;
    }
    Ok(areas)
}

#[tactic(auto, using(crate::proofs::Areas::ungrouped, crate::proofs::Areas::grouped))]
fn with_query(
    alloc: Global,
    schema: &Schema,
    query: &Query,
    areas: Seq<Area>,
) -> Result<Seq<Area>, Memory>
    requires { IsWellFormed schema.now }
    ensures { IfOk result (λ more. more ≡ areas ++ map area_of (wanted_by schema.now query.now)) }
{
    let Some(column) = query.group else {
        return with_area(alloc, query, None, areas);
    };
    let names = allowed_names(alloc, schema, query, column)?;
    with_names(alloc, query, names.as_slice(), areas)
}

#[tactic(auto, using(crate::proofs::Areas::by_name))]
fn with_names(
    alloc: Global,
    query: &Query,
    names: &[u32],
    areas: Seq<Area>,
) -> Result<Seq<Area>, Memory>
    requires { All (λ name. name < 128) names.now }
    ensures { IfOk result (λ more. more ≡ areas ++ map area_of (map (wanted_of query.now) names.now)) }
{
    let mut more = areas;
    for name in names {
        more = with_area(alloc, query, Some(*name), more)?;
    }
    Ok(more)
}

fn with_area(
    alloc: Global,
    query: &Query,
    name: Option<u32>,
    areas: Seq<Area>,
) -> Result<Seq<Area>, Memory>
    requires { IfSome name (λ place. place < 128) }
    ensures { IfOk result (λ more. more ≡ areas ++ area_of (wanted_as query.now name) ∷ []) }
{
    let mut more = areas;
    more.push(narrowed(alloc, &query.chosen, query.group, name)?)?;
    Ok(more)
}

/// The places of the names of a column that the query's area allows, in their order.
#[tactic(auto, using(crate::proofs::GroupNames::places))]
pub(crate) fn allowed_names(
    alloc: Global,
    schema: &Schema,
    query: &Query,
    column: u8,
) -> Result<Seq<u32>, Memory>
    requires { IsWellFormed schema.now }
    ensures exact { IfOk result (λ names. names ≡ allowed_names schema.now query.now column) }
    ensures few { IfOk result (All (λ name. name < 128)) }
{
    let mut names = Seq::new(alloc);
    for place in 0..name_count(schema, column) {
        names = with_name(&query.chosen, column, place, names)?;
    }
    Ok(names)
}

fn with_name(chosen: &Area, column: u8, place: u32, names: Seq<u32>) -> Result<Seq<u32>, Memory>
    ensures { IfOk result (λ more. more ≡ names ++ (if is_allowed chosen.now column place then place ∷ [] else [])) }
{
    let mut more = names;
    if some_allows(column, place, chosen) {
        more.push(place)?;
    }
    Ok(more)
}

fn name_count(schema: &Schema, column: u8) -> u32
    requires { IsWellFormed schema.now }
    ensures exact { result ≡ names_at (slice_get schema.now.columns column) }
    ensures few { result ≤ 128 }
{
    match schema.columns.as_slice().get(column as usize) {
        Some(column) => names_in(&column.kind),
        None => 0,
    }
}

fn names_in(kind: &Kind) -> u32
    requires { HasFewNames kind.now }
    ensures exact { result ≡ names_in kind.now }
    ensures few { result ≤ 128 }
{
    match kind {
        Kind::Int { .. } | Kind::Dec { .. } => 0,
        Kind::Cat { names } => names.len() as u32,
    }
}
