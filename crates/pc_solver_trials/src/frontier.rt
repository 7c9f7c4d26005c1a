ghost use Rattle.std.specs.Prelude.{◌≡◌, IfOk};
ghost use Rattle.pc_frontier.specs.Frontier.{none_yet};
ghost use Rattle.pc_solver_trials.specs.FrontierSamples.{two_splits};

use pc_frontier::Frontier;
use pc_num::Memory;
use std::alloc::{AllocError, Global};
use std::test::Fail;

// Whether calls on a frontier of five nodes answer what they should, one after the other.
fn are_answered_in_a_row(frontier: &mut Frontier) -> bool
    requires { frontier.old ≡ none_yet 5 }
{
    let root = frontier.push_root();
    let children = frontier.split(0, 0, 0);
    let room = frontier.room();
    frontier.hold(1, 2);
    frontier.hold(2, 5);
    let best = frontier.best();
    let taken = frontier.take_best();
    let later_children = frontier.split(2, 1, 0);
    frontier.hold(3, 4);
    frontier.hold(4, 5);
    let pruned = frontier.prune_below(4);
    if root != 0 || children != (1, 2) || room != 2 || best != Some(5) {
        return false;
    }
    if taken != Some(2) || later_children != (3, 4) || pruned != 2 {
        return false;
    }
    frontier.best() == Some(5) && frontier.room() == 0
}

#[test]
fn calls_in_a_row(rt: HostRuntime) -> Result<(), Fail> {
    let mut frontier = Frontier::reserve(rt.alloc(), 5)?;
    assert!(rt; are_answered_in_a_row(&mut frontier));
    Ok(())
}

fn two_splits(alloc: Global) -> Result<Frontier, Memory>
    ensures { IfOk result (λ f. f.nodes ≡ two_splits) }
{
    let mut frontier = Frontier::reserve(alloc, 5)?;
    frontier.push_root();
    frontier.split(0, 0, 0);
    frontier.split(2, 1, 0);
    Ok(frontier)
}

#[test]
#[tactic(auto, using(crate::proofs::FrontierSamples::ordered_sample))]
fn box_of_a_child(rt: HostRuntime) -> Result<(), Fail> {
    let frontier = two_splits(rt.alloc())?;
    let mut floor = [0, 0];
    let mut cap = [1, 1];
    frontier.box_of(4, &mut floor, &mut cap);
    assert_eq!(rt; floor, [1, 1]);
    assert_eq!(rt; cap, [1, 1]);
    Ok(())
}

// ---- against a plain list of the open nodes, bound and number, in the order in which they were opened

// Takes out the first of the greatest bound.
fn take_greatest(plain: &mut Vec<(i128, u32)>) -> Option<(i128, u32)> {
    let mut greatest = 0;
    for place in 0..plain.len() {
        if plain[place].0 > plain[greatest].0 {
            greatest = place;
        }
    }
    if greatest < plain.len() {
        Some(plain.remove(greatest))
    } else {
        None
    }
}

// Takes out those of at most a bound, and counts them.
fn take_below(plain: &mut Vec<(i128, u32)>, value: i128) -> usize {
    let before = plain.len();
    plain.retain(|entry| entry.0 > value);
    before - plain.len()
}

fn split_best(frontier: &mut Frontier, bounds: (i128, i128)) -> Option<(u32, u32, u32)> {
    let room = frontier.room();
    let node = frontier.take_best()?;
    if room < 2 {
        frontier.close(node);
        return None;
    }
    let (less, more) = frontier.split(node, 0, 0);
    frontier.hold(less, bounds.0);
    frontier.hold(more, bounds.1);
    Some((node, less, more))
}

// Takes the best node of both and opens its children: whether both took the same.
fn is_one_round_alike(
    frontier: &mut Frontier,
    plain: &mut Vec<(i128, u32)>,
    bounds: (i128, i128),
) -> Result<bool, AllocError> {
    let best = frontier.best();
    let found = split_best(frontier, bounds);
    let wanted = take_greatest(plain);
    match (found, wanted) {
        (Some((node, less, more)), Some((bound, number))) => {
            plain.push((bounds.0, less))?;
            plain.push((bounds.1, more))?;
            Ok(best == Some(bound) && node == number)
        }
        (None, None) => Ok(best.is_none()),
        _ => Ok(false),
    }
}

#[test]
fn as_a_plain_list(rt: HostRuntime) -> Result<(), Fail> {
    let alloc = rt.alloc();
    let mut frontier = Frontier::reserve(alloc, 1_501)?;
    let mut plain = Vec::new(alloc);
    let root = frontier.push_root();
    frontier.hold(root, 0);
    plain.push((0i128, root))?;
    let mut seed = 1u64;
    for _ in 0..700 {
        seed = seed
            .wrapping_mul(6_364_136_223_846_793_005)
            .wrapping_add(1_442_695_040_888_963_407);
        let less = i128::from(seed >> 40) % 40 - 20;
        let more = i128::from(seed >> 50) % 40 - 20;
        let is_alike = is_one_round_alike(&mut frontier, &mut plain, (less, more))?;
        assert!(rt; is_alike);
        let value = i128::from(seed >> 60) - 28;
        let closed = frontier.prune_below(value) as usize;
        let wanted = take_below(&mut plain, value);
        assert_eq!(rt; closed, wanted);
    }
    assert!(rt; plain.len() > 100);
    Ok(())
}
