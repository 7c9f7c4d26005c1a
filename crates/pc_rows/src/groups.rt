ghost use Rattle.std.specs.Prelude.{◌≡◌, ◌≢◌, ◌+◌, ◌<◌, ◌≤◌, ◌^◌, ℕ, List, length, nat_abs, All, AllPairs, IfOk, IsSome, Some};
ghost use Rattle.std.specs.List.{AllZip};
ghost use Rattle.pc_model.specs.declared.query.Folded.{Folded};
ghost use Rattle.pc_model.specs.Folds.{IsFold};
ghost use Rattle.pc_rows.specs.Groups.{name_limit, AreSlotsOf, IsSlotFor, IsGroupOf};
ghost use Rattle.pc_rows.specs.Stored.{row_at, row_limit};

use crate::fold::{nothing, with_row};
use crate::rows::Rows;
use pc_list::Seq;
use pc_model::{Folded, Query};
use pc_num::Memory;
use std::alloc::Global;

/// More places than a column of names has.
const NAME_LIMIT: usize = 128;

impl Rows {
    /// What the rows of each of these groups in the query's area come to, in the order of the names, in one
    /// walk over the rows. A name is its place in the list of the group column's names.
    pub fn fold_each(
        &self,
        alloc: Global,
        query: &Query,
        names: &[u32],
    ) -> Result<Seq<Folded>, Memory>
        requires grouped { IsSome query.now.group }
        requires places { All (λ (name : ℕ). name < name_limit) names.now }
        requires once { AllPairs (λ (a b : ℕ). a ≢ b) names.now }
        ensures folds { IfOk result (AllZip (λ (name : ℕ) (folded : Folded). IsFold query.now (Some name) self.now folded) names.now) }
        ensures few { IfOk result (All (λ folded. folded.count ≤ row_limit)) }
        ensures small { IfOk result (All (λ folded. nat_abs folded.sum ≤ 2 ^ 83)) }
    {
        let slots = slots_of(alloc, names)?;
        let mut folds = vec![in alloc; nothing(); names.len()]?;
        for place in 0..self.count() as usize {
            if let Some(index) = self.group_of(query, slots.as_slice(), place) {
                folds[index] = with_row(folds[index], query.column, self, place);
            }
        }
        Ok(Seq::from_vec(folds))
    }

    // Which of the groups keeps the row at a place.
    fn group_of(&self, query: &Query, slots: &[Option<usize>], place: usize) -> Option<usize>
        requires { place < length self.now }
        ensures { (names : List ℕ) → IsSome query.now.group → All (λ (name : ℕ). name < name_limit) names → AllPairs (λ (a b : ℕ). a ≢ b) names → AreSlotsOf names slots.now → IsGroupOf query.now names (row_at self.now place) result }
    {
        if !self.has_row(&query.chosen, place) {
            return None;
        }
        let Some(column) = query.group else {
            return None;
        };
        slot_in(slots, self.number(place, column as usize))
    }
}

/// For each place of a name of a column, where it stands in a list of such places.
pub(crate) fn slots_of(alloc: Global, names: &[u32]) -> Result<Vec<Option<usize>>, Memory>
    requires places { All (λ (name : ℕ). name < name_limit) names.now }
    ensures { IfOk result (λ slots. AreSlotsOf names.now slots.items) }
{
    let mut slots = vec![in alloc; None; NAME_LIMIT]?;
    for (index, name) in names.iter().enumerate() {
        slots[*name as usize] = Some(index);
    }
    Ok(slots)
}

/// Where the name of this number stands in the list.

pub(crate) fn slot_in(slots: &[Option<usize>], number: i64) -> Option<usize>
    ensures { (names : List ℕ) → All (λ (name : ℕ). name < name_limit) names → AreSlotsOf names slots.now → IsSlotFor names number result }
{
    if number < 0 {
        return None;
    }
    match slots.get(number as usize) {
        Some(slot) => *slot,
        None => None,
    }
}
