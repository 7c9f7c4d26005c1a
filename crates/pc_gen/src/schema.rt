ghost use Rattle.std.specs.Prelude.{◌≡◌, [], ◌∷◌, codes, IfOk};
ghost use Rattle.pc_gen.specs.Generated.{branch_kind, column_named, generated_queries, generated_schema, price_kind, query_of_all};

use pc_list::{Seq, Text};
use pc_model::{Agg, Area, Column, Kind, Query, Schema};
use pc_num::Memory;
use std::alloc::{AllocError, Global};

/// The place of the prices.
pub(crate) const PRICE: u8 = 2;

/// A branch of four, a day of the month, and a price with two decimals.
pub(crate) fn generated_schema(alloc: Global) -> Result<Schema, Memory>
    ensures { IfOk result (λ schema. schema ≡ generated_schema) }
{
    let mut columns = Seq::new(alloc);
    columns.push(column(alloc, "branch", branches(alloc)?)?)?;
    columns.push(column(alloc, "day", Kind::Int { low: 1, high: 31 })?)?;
    columns.push(column(alloc, "price", prices())?)?;
    Ok(Schema { columns })
}

fn column(alloc: Global, name: &str, kind: Kind) -> Result<Column, AllocError>
    ensures { IfOk result (λ column. column ≡ column_named name.now kind) }
{
    Ok(Column {
        name: Text::from_text(alloc, name)?,
        kind,
    })
}

fn branches(alloc: Global) -> Result<Kind, Memory>
    ensures { IfOk result (λ kind. kind ≡ branch_kind) }
{
    let mut names = Seq::new(alloc);
    names.push(Text::from_text(alloc, "A")?)?;
    names.push(Text::from_text(alloc, "B")?)?;
    names.push(Text::from_text(alloc, "C")?)?;
    names.push(Text::from_text(alloc, "D")?)?;
    Ok(Kind::Cat { names })
}

fn prices() -> Kind
    ensures { result ≡ price_kind }
{
    Kind::Dec {
        scale: 2,
        low: 0,
        high: 100_000,
    }
}

/// Each aggregate of all rows: how many there are, and four of their prices.
pub(crate) fn generated_queries(alloc: Global, schema: &Schema) -> Result<Seq<Query>, Memory>
    requires { schema.now ≡ generated_schema }
    ensures { IfOk result (λ queries. queries ≡ generated_queries) }
{
    let mut queries = Seq::new(alloc);
    queries.push(query_of_all(alloc, schema, Agg::Count, None)?)?;
    queries.push(query_of_all(alloc, schema, Agg::Sum, Some(PRICE))?)?;
    queries.push(query_of_all(alloc, schema, Agg::Min, Some(PRICE))?)?;
    queries.push(query_of_all(alloc, schema, Agg::Max, Some(PRICE))?)?;
    queries.push(query_of_all(alloc, schema, Agg::Avg, Some(PRICE))?)?;
    Ok(queries)
}

fn query_of_all(
    alloc: Global,
    schema: &Schema,
    agg: Agg,
    column: Option<u8>,
) -> Result<Query, Memory>
    requires { schema.now ≡ generated_schema }
    ensures { IfOk result (λ query. query ≡ query_of_all agg column) }
{
    Ok(Query {
        agg,
        column,
        chosen: Area::of_box(alloc, schema.whole(alloc)?)?,
        group: None,
    })
}
