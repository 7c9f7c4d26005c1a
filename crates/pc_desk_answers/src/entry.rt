ghost use Rattle.std.specs.Prelude.{◌≡◌, IfOk, Some, option_map};
ghost use Rattle.pc_report.specs.RunLines.{HaveScales};
ghost use Rattle.pc_report.specs.Told.{answer_in, ends_in, lack_in, relation_in};
ghost use Rattle.pc_report.specs.Units.{ArePrintable};
ghost use Rattle.pc_desk_answers.specs.Entries.{entry_of, group_in, group_of, lack_of, observed_of, said_of};
ghost use Rattle.pc_desk_answers.specs.Values.{range_of};

use crate::range::range_of;
use crate::rounding::Rounding;
use crate::value::value_of;
use pc_desk_table::{Entry, Group, Range, Said, SaidLack, Value};
use pc_list::Text;
use pc_model::{Column, Query, Schema};
use pc_num::Memory;
use pc_report::{Told, ToldEnd, ToldLack, ToldRelation, kind_name};
use std::alloc::Global;

/// What is asked of a block: the line of its question, where a script asked it, the text of its query, and its group.
#[derive(Debug, Drop)]
pub(crate) struct Title {
    pub line: Option<u64>,
    pub query: Text,
    pub group: Option<Group>,
}

/// What is shown of an answer, and of the answer to the same where nothing is lost.
#[tactic(auto, unfolding(crate::specs::Entries::entry_of))]
pub(crate) fn entry_of(
    alloc: Global,
    schema: &Schema,
    query: &Query,
    title: Title,
    told: &Told,
    left: &Told,
) -> Result<Entry, Memory>
    requires scales { HaveScales schema.now.columns }
    requires printable { ArePrintable query.now.agg (ends_in told.now.ends) }
    requires left { ArePrintable query.now.agg (ends_in left.now.ends) }
    ensures shows { IfOk result (λ entry. entry ≡ entry_of schema.now query.now title (answer_in told.now) (answer_in left.now)) }
{
    let observed = observed_of(alloc, schema, query, &left.ends)?;
    let range = ranged(alloc, schema, query, &told.ends)?;
    let Title { line, query, group } = title;
    Ok(Entry {
        line,
        query,
        group,
        relation: said_of(&told.relation),
        lack: lack_of(&told.lack),
        observed,
        range,
    })
}

fn observed_of(
    alloc: Global,
    schema: &Schema,
    query: &Query,
    ends: &Option<(ToldEnd, ToldEnd)>,
) -> Result<Option<Value>, Memory>
    requires scales { HaveScales schema.now.columns }
    requires printable { ArePrintable query.now.agg (ends_in ends.now) }
    ensures { IfOk result (λ value. value ≡ observed_of schema.now query.now (ends_in ends.now)) }
{
    match ends {
        Some((low, _)) => Ok(Some(value_of(alloc, schema, query, Rounding::Nearest, &low.value)?)),
        None => Ok(None),
    }
}

fn ranged(
    alloc: Global,
    schema: &Schema,
    query: &Query,
    ends: &Option<(ToldEnd, ToldEnd)>,
) -> Result<Option<Range>, Memory>
    requires scales { HaveScales schema.now.columns }
    requires printable { ArePrintable query.now.agg (ends_in ends.now) }
    ensures { IfOk result (λ range. range ≡ option_map (range_of schema.now query.now) (ends_in ends.now)) }
{
    match ends {
        Some((low, high)) => Ok(Some(range_of(alloc, schema, query, low, high)?)),
        None => Ok(None),
    }
}

fn said_of(relation: &ToldRelation) -> Said
    ensures { result ≡ said_of (relation_in relation.now) }
{
    match relation {
        ToldRelation::Possible(_) => Said::Possible,
        ToldRelation::Impossible => Said::Impossible,
        ToldRelation::Undecided => Said::Undecided,
    }
}

fn lack_of(lack: &ToldLack) -> Option<SaidLack>
    ensures { result ≡ lack_of (lack_in lack.now) }
{
    match lack {
        ToldLack::Silent => None,
        ToldLack::Never => Some(SaidLack::Never),
        ToldLack::Sometimes { .. } => Some(SaidLack::Sometimes),
        ToldLack::Always => Some(SaidLack::Always),
        ToldLack::Undecided => Some(SaidLack::Undecided),
    }
}

/// The group column, and the name of it that a block is for.
pub fn group_of(
    alloc: Global,
    schema: &Schema,
    group: Option<u8>,
    name: Option<u32>,
) -> Result<Option<Group>, Memory>
    ensures { IfOk result (λ found. found ≡ group_of schema.now group name) }
{
    match (group, name) {
        (Some(group), Some(place)) => match schema.columns.as_slice().get(usize::from(group)) {
            Some(column) => Ok(Some(group_in(alloc, column, place)?)),
            None => Ok(None),
        },
        _ => Ok(None),
    }
}

fn group_in(alloc: Global, column: &Column, place: u32) -> Result<Group, Memory>
    ensures { IfOk result (λ group. Some group ≡ group_in (Some column.now) place) }
{
    Ok(Group {
        column: Text::from_text(alloc, column.name.as_str())?,
        name: Text::from_text(alloc, kind_name(&column.kind, place))?,
    })
}
