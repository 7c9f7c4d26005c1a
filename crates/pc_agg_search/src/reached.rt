ghost use Rattle.std.specs.Prelude.{◌≡◌, ◌<◌, ◌≤◌, ◌*◌, ◌^◌, pos, nat_abs, ◌+ℤ◌, ◌*ℤ◌, All};
ghost use Rattle.pc_program_bound.specs.Allocation.{IsProgram, IsAllocation, worth};
ghost use Rattle.pc_branch.specs.Ends.{HasSmallGains};
ghost use Rattle.pc_agg_search.specs.Wants.{IsPlaceOf};

use pc_list::Seq;
use pc_program_bound::Program;

/// The place of the first counts that are worth so much.
pub fn find_worth(p: &Program, found: &[Seq<u64>], wanted: i128) -> Option<usize>
    requires program { IsProgram p.now }
    requires small { HasSmallGains p.now }
    requires allowed { All (IsAllocation p.now p.now.floor p.now.cap) found.now }
    ensures { IsPlaceOf (λ counts. worth p.now counts ≡ wanted) found.now result }
{
    for place in 0..found.len() {
        if worth(p, found[place].as_slice()) == wanted {
            return Some(place);
        }
    }
    None
}

/// What counts are worth.
pub fn worth(p: &Program, counts: &[u64]) -> i128
    requires program { IsProgram p.now }
    requires small { HasSmallGains p.now }
    requires allowed { IsAllocation p.now p.now.floor p.now.cap counts.now }
    ensures { result ≡ worth p.now counts.now }
{
    let gains = p.gain.as_slice();
    let mut total = 0;
    for cell in 0..gains.len() {
        total = with_term(total, gains[cell], counts[cell]);
    }
    total
}

/// The total with what a cell's counts are worth as well.
fn with_term(total: i128, gain: i128, count: u64) -> i128
    requires total { nat_abs total ≤ 10 ^ 37 }
    requires term { nat_abs (gain *ℤ pos count) ≤ 2 * 10 ^ 37 }
    ensures { result ≡ total +ℤ (gain *ℤ pos count) }
{
    total + gain * i128::from(count)
}
