//! Drawn constraints, the same in each run: taken in one after the other they give the classes that they give at once.
use super::SHOP;
use super::shared::are_alike_in_turn;
use pc_schema::read_schema;
use std::alloc::{AllocError, Global};
use std::test::Fail;

const CASES: u32 = 200;

static PREDICATES: [&str; 4] = [
    "day >= 1",
    "branch = Chicago",
    "branch in {Chicago, Trenton}",
    "branch = NewYork",
];

static QUESTIONS: [&str; 4] = [
    "count",
    "count where day <= 12",
    "count where branch = Chicago and price <= 100",
    "count where branch in {NewYork, Trenton} and day in 7..20 or day >= 15",
];

/// Numbers of a fixed generator.
#[derive(Drop)]
struct Draws {
    state: u64,
}

impl Draws {
    /// A number below this one.
    fn below(&mut self, end: u64) -> u64 {
        self.state = self
            .state
            .wrapping_mul(6364136223846793005)
            .wrapping_add(1442695040888963407);
        if end == 0 {
            return 0;
        }
        (self.state >> 33) % end
    }

    /// Two days of a month, in order.
    fn days(&mut self) -> (u64, u64) {
        let (one, other) = (self.below(31), self.below(31));
        (
            one.min(other).saturating_add(1),
            one.max(other).saturating_add(1),
        )
    }
}

/// The line of a constraint on branches, days and prices.
fn line(alloc: Global, draws: &mut Draws, number: u32) -> Result<String, AllocError> {
    let predicate = PREDICATES[(draws.below(4) % 4) as usize];
    let (first, last) = draws.days();
    let price = draws.below(1001);
    let other = PREDICATES[(draws.below(4) % 4) as usize];
    let (early, late) = draws.days();
    match draws.below(2) {
        0 => format!(in alloc;
            "c{number}: {predicate} and day in {first}..{last} => price <= {price}, 0..1\n"
        ),
        _ => format!(in alloc;
            "c{number}: {predicate} and day in {first}..{last} or {other} and day in {early}..{late} => price <= {price}, 0..1\n"
        ),
    }
}

fn lines(alloc: Global, draws: &mut Draws) -> Result<String, AllocError> {
    let mut text = String::new(alloc);
    let count = 1 + (draws.below(4) % 4) as u32;
    for number in 0..count {
        let one = line(alloc, draws, number)?;
        text.push_str(one.as_str())?;
    }
    Ok(text)
}

#[test]
fn drawn_constraints_in_turn_give_the_same_classes(rt: HostRuntime) -> Result<(), Fail> {
    let alloc = rt.alloc();
    let Ok(schema) = read_schema(alloc, SHOP) else {
        return Err(Fail::new("no schema"));
    };
    let mut draws = Draws { state: 20 };
    for number in 0..CASES {
        let text = lines(alloc, &mut draws)?;
        let question = QUESTIONS[(draws.below(4) % 4) as usize];
        let alike = are_alike_in_turn(alloc, &schema, text.as_str(), question)?;
        assert!(rt; alike, "case {number}");
    }
    Ok(())
}
