ghost use Rattle.std.specs.Prelude.{◌≡◌, IfOk};
ghost use Rattle.pc_run_words.specs.Words.{IsBudget};
ghost use Rattle.pc_files.specs.Reads.{IsShowable};
ghost use Rattle.pc_run.specs.Replies.{SaysConflict, SaysListing};
ghost use Rattle.pc_run.specs.Reports.{disjoint_line, listing_of};

use pc_cells::pairwise_apart;
use pc_conflict::{find, put_conflict};
use pc_files::Listing;
use pc_lang::put_constraints;
use pc_num::Memory;
use std::alloc::Global;

/// The text of constraints, and whether no two of them speak of one row.
pub(crate) fn report_listing(alloc: Global, listing: &Listing) -> Result<Vec<u8>, Memory>
    requires { IsShowable listing.now }
    ensures { IfOk result (λ text. SaysListing listing.now text.items) }
{
    let disjoint = pairwise_apart(listing.constraints.as_slice());
    text_of(alloc, listing, disjoint)
}

/// The text of which constraints contradict each other.
pub(crate) fn report_conflict(
    alloc: Global,
    listing: &Listing,
    nodes: u32,
) -> Result<Vec<u8>, Memory>
    requires showable { IsShowable listing.now }
    requires budget { IsBudget nodes }
    ensures { IfOk result (λ text. SaysConflict nodes listing.now text.items) }
{
    let schema = &listing.schema;
    let constraints = listing.constraints.as_slice();
    let answer = find(alloc, schema, constraints, nodes)?;
    let mut text = Vec::new(alloc);
    put_conflict(alloc, schema, &mut text, constraints, &answer)?;
    Ok(text)
}

#[tactic(auto, unfolding(crate::specs::Reports::listing_of))]
fn text_of(alloc: Global, listing: &Listing, disjoint: bool) -> Result<Vec<u8>, Memory>
    requires { IsShowable listing.now }
    ensures { IfOk result (λ text. text.items ≡ listing_of listing.now disjoint) }
{
    let mut text = Vec::new(alloc);
    let constraints = listing.constraints.as_slice();
    put_constraints(alloc, &listing.schema, &mut text, constraints)?;
    text.extend_from_slice(disjoint_line(disjoint).as_bytes())?;
    Ok(text)
}

fn disjoint_line(disjoint: bool) -> &'static str
    ensures { result.now ≡ disjoint_line disjoint }
{
    if disjoint {
        "disjoint yes\n"
    } else {
        "disjoint no\n"
    }
}
