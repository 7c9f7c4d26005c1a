ghost use Rattle.std.specs.Prelude.{◌≡◌, ◌<◌, ◌≤◌, ◌^◌, nat_abs, List, All, IfOk, length};
ghost use Rattle.pc_cells.specs.Found.{IsFilled};
ghost use Rattle.pc_model.specs.declared.row.Row.{Row};
ghost use Rattle.pc_program_bound.specs.Allocation.{IsProgram};
ghost use Rattle.pc_branch.specs.Ends.{HasSmallGains};
ghost use Rattle.pc_branch_licences.specs.Pools.{AreLawful};
ghost use Rattle.pc_agg_search.specs.declared.extreme.Extreme.TheVariants.{Low, High};
ghost use Rattle.pc_agg.specs.Extremes.{always_as, crossed, judged, relation_from, CanStand, IsJudged, IsJudgedOver, IsLackFrom, IsOpenLack};
ghost use Rattle.pc_agg_search.specs.Ends.{signed};
ghost use Rattle.pc_agg_search.specs.Problem.{IsPosed, setting_of};
ghost use Rattle.pc_agg_search.specs.Wants.{IsFound, IsMet, IsPlaceOf};
ghost use Rattle.pc_agg.specs.Marks.{ShowsFirst};
ghost use Rattle.pc_agg.specs.Stands.{IsEndAt, IsMarkedBy};
ghost use Rattle.pc_agg_search.specs.Targets.{AreRowsIn};

use crate::bounds::{bounded_by, impossible_by};
use crate::grounds::{Grounds, Lacking};
use crate::settling::{Settled, rows_of_cells};
use crate::stand::Stand;
use pc_agg_search::{Extreme, FoundCounts, Problem, Want, chosen_program, find_wanted};
use pc_cells::Cells;
use pc_list::Seq;
use pc_model::Row;
use pc_num::{Frac, Memory};
use pc_program_bound::Program;
use pc_proof::{AlwaysBy, Answer, End, Lack, Mark, Relation, Why};
use pc_witness::rebuild;
use std::alloc::Global;

/// The answer where both ends stand, over all counts that were found.
pub(crate) fn judge(
    alloc: Global,
    problem: &Problem<'_>,
    observed: bool,
    lacking: Lacking,
    low: Stand,
    high: Stand,
    found: FoundCounts,
) -> Result<Answer, Memory>
    requires posed { IsPosed problem.now }
    requires lawful { All (AreLawful (setting_of problem.now)) found }
    requires sized { length low.picks ≡ length problem.now.cells.now.cells }
    requires low { CanStand low found }
    requires high { CanStand high found }
    ensures { IfOk result (IsJudged (setting_of problem.now) observed lacking low high found) }
{
    let settled = settle_found(
        alloc,
        problem,
        Grounds { lacking, found },
        low.picks.as_slice(),
    )?;
    judge_settled(alloc, observed, settled, low, high)
}

/// The answer over what is settled, where both ends stand.
fn judge_settled(
    alloc: Global,
    observed: bool,
    settled: Settled,
    low: Stand,
    high: Stand,
) -> Result<Answer, Memory>
    requires low { CanStand low settled.found }
    requires high { CanStand high settled.found }
    ensures { IfOk result (IsJudgedOver observed settled low high) }
{
    let (low, high) = both_ends(alloc, low, high, settled.found.as_slice())?;
    Ok(judged(observed, settled.relation, settled.lack, low, high))
}

/// A list of what was found, and what is known of the lack.
pub fn settle_found(
    alloc: Global,
    problem: &Problem<'_>,
    grounds: Grounds,
    picks: &[Row],
) -> Result<Settled, Memory>
    requires posed { IsPosed problem.now }
    requires lawful { All (AreLawful (setting_of problem.now)) grounds.found }
    requires sized { length picks.now ≡ length problem.now.cells.now.cells }
    requires counted { All (λ counts. length picks.now ≡ length counts) grounds.found }
    ensures relation { IfOk result (λ settled. settled.relation ≡ relation_from picks.now grounds.found) }
    ensures lack { IfOk result (λ settled. IsLackFrom (setting_of problem.now) picks.now grounds.found grounds.lacking settled.lack) }
    ensures found { IfOk result (λ settled. settled.found ≡ grounds.found) }
{
    let Grounds { lacking, found } = grounds;
    let relation = relation_from(alloc, picks, found.as_slice())?;
    let lack = lack_from(alloc, problem, lacking, picks, found.as_slice())?;
    Ok(Settled {
        relation,
        lack,
        found,
    })
}

fn both_ends(
    alloc: Global,
    low: Stand,
    high: Stand,
    found: &[Seq<u64>],
) -> Result<(End, End), Memory>
    requires low { CanStand low found.now }
    requires high { CanStand high found.now }
    ensures low { IfOk result (λ ends. IsEndAt Low low found.now ends.0) }
    ensures high { IfOk result (λ ends. IsEndAt High high found.now ends.1) }
{
    let low = end_at(alloc, Extreme::Low, low, found)?;
    let high = end_at(alloc, Extreme::High, high, found)?;
    Ok((low, high))
}

/// The relation, the lack and both ends, unless the ends cross.
fn judged(observed: bool, relation: Relation, lack: Lack, low: End, high: End) -> Answer
    ensures { result ≡ judged observed relation lack low high }
{
    if high.value.num < low.value.num {
        return crossed(observed, relation, low, high);
    }
    Answer {
        relation,
        lack,
        ends: Some((low, high)),
    }
}

/// Ends that cross leave nothing possible where rows were observed, and else no list with a value.
fn crossed(observed: bool, relation: Relation, low: End, high: End) -> Answer
    ensures { result ≡ crossed observed relation low high }
{
    if observed {
        return impossible_by(Why::Ends(bounded_by(low), bounded_by(high)));
    }
    always_as(relation, AlwaysBy::Ends(bounded_by(low), bounded_by(high)))
}

fn always_as(relation: Relation, by: AlwaysBy) -> Answer
    ensures { result ≡ always_as relation by }
{
    Answer {
        relation,
        lack: Lack::Always(by),
        ends: None,
    }
}

/// No list gives a value, over a row of each cell.
pub(crate) fn always_by(
    alloc: Global,
    cells: &Cells,
    found: &[Seq<u64>],
    by: AlwaysBy,
) -> Result<Answer, Memory>
    requires filled { All IsFilled cells.now.cells }
    requires sized { All (λ counts. length counts ≡ length cells.now.cells) found.now }
    ensures { IfOk result (λ answer. (picks : List Row) × AreRowsIn cells.now.cells picks × (answer ≡ always_as (relation_from picks found.now) by)) }
{
    let picks = rows_of_cells(alloc, cells)?;
    let relation = relation_from(alloc, picks.as_slice(), found)?;
    Ok(always_as(relation, by))
}

/// A list of the first counts that were found.
pub fn relation_from(alloc: Global, picks: &[Row], found: &[Seq<u64>]) -> Result<Relation, Memory>
    requires sized { All (λ counts. length picks.now ≡ length counts) found.now }
    ensures { IfOk result (λ relation. relation ≡ relation_from picks.now found.now) }
{
    let Some(counts) = found.first() else {
        return Ok(Relation::Undecided);
    };
    let runs = rebuild(alloc, picks, counts.as_slice())?;
    Ok(Relation::Possible(runs))
}

/// What is known of the lack, with lists of both kinds where it may be there and may not.
fn lack_from(
    alloc: Global,
    problem: &Problem<'_>,
    lacking: Lacking,
    picks: &[Row],
    found: &[Seq<u64>],
) -> Result<Lack, Memory>
    requires posed { IsPosed problem.now }
    requires lawful { All (AreLawful (setting_of problem.now)) found.now }
    requires sized { length picks.now ≡ length problem.now.cells.now.cells }
    ensures { IfOk result (IsLackFrom (setting_of problem.now) picks.now found.now lacking) }
{
    match lacking {
        Lacking::Never(by) => Ok(Lack::Never(by)),
        Lacking::Open => open_lack(alloc, problem, picks, found),
    }
}

fn open_lack(
    alloc: Global,
    problem: &Problem<'_>,
    picks: &[Row],
    found: &[Seq<u64>],
) -> Result<Lack, Memory>
    requires posed { IsPosed problem.now }
    requires lawful { All (AreLawful (setting_of problem.now)) found.now }
    requires sized { length picks.now ≡ length problem.now.cells.now.cells }
    ensures { IfOk result (IsOpenLack (setting_of problem.now) picks.now found.now) }
{
    let fewest = chosen_program(alloc, problem, -1)?;
    let Some(without) = place_in(fewest, Want::Without, found) else {
        return Ok(Lack::Undecided);
    };
    let most = chosen_program(alloc, problem, 1)?;
    let Some(with) = place_in(most, Want::Gaining, found) else {
        return Ok(Lack::Undecided);
    };
    let without = rebuild(alloc, picks, found[without].as_slice())?;
    let with = rebuild(alloc, picks, found[with].as_slice())?;
    Ok(Lack::Sometimes { without, with })
}

/// The place of the first counts that are wanted of a program, which is not needed any more.
fn place_in(program: Program, want: Want, found: &[Seq<u64>]) -> Option<usize>
    requires program { IsProgram program }
    requires small { HasSmallGains program }
    requires met { All (IsMet program) found.now }
    ensures { IsPlaceOf (IsFound program want) found.now result }
{
    find_wanted(&program, want, found)
}

/// The end of a stand, reached where some counts that were found are wanted.
fn end_at(alloc: Global, extreme: Extreme, stand: Stand, found: &[Seq<u64>]) -> Result<End, Memory>
    requires can { CanStand stand found.now }
    ensures { IfOk result (IsEndAt extreme stand found.now) }
{
    let mark = mark_at(alloc, &stand, found)?;
    Ok(End {
        value: Frac {
            num: number_at(extreme, stand.key),
            den: 1,
        },
        mark,
        proof: stand.proof,
    })
}

/// The number of a key.
fn number_at(extreme: Extreme, key: i128) -> i128
    requires { nat_abs key ≤ 2 ^ 63 }
    ensures { result ≡ signed extreme key }
{
    match extreme {
        Extreme::Low => -key,
        Extreme::High => key,
    }
}

fn mark_at(alloc: Global, stand: &Stand, found: &[Seq<u64>]) -> Result<Mark, Memory>
    requires can { CanStand stand.now found.now }
    ensures marked { IfOk result (IsMarkedBy stand.now found.now) }
    ensures first { IfOk result (ShowsFirst (IsFound stand.now.program stand.now.want) stand.now.picks found.now) }
{
    match find_wanted(&stand.program, stand.want, found) {
        Some(place) => {
            let runs = rebuild(alloc, stand.picks.as_slice(), found[place].as_slice())?;
            Ok(Mark::Exact(runs))
        }
        None => Ok(Mark::Outer),
    }
}
