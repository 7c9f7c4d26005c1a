//! Which constraints contradict each other, but for the lost rows that are shown.
use super::*;
use std::alloc::AllocError;
use std::str::from_utf8;

const PAIRS: &str = "k,cat,ab,bc,ca\n";

/// The texts of a schema and constraints, the words, and what is written but the lines of runs.
type Conflicts<'a> = (&'a str, &'a str, &'a [&'a str], &'a str);

static TRIALS: [Conflicts<'static>; 8] = [
    (
        PAIRS,
        "A: k in {ab, ca} => true, 1..1\nB: k in {ab, bc} => true, 1..1\nC: k in {bc, ca} => true, 1..1\n",
        &["conflict", "s", "c"],
        "conflict A, B, C\nwithout A\nwithout B\nwithout C\n",
    ),
    (
        PAIRS,
        "A: k in {ab, ca} => true, 1..1\nB: k in {ab, bc} => true, 1..1\nC: k in {bc, ca} => true, 1..1\n",
        &["conflict", "--nodes=1", "s", "c"],
        "conflict A, B, C\nwithout A\nwithout B\nwithout C\n",
    ),
    (
        PAIRS,
        "D: k = ab => true, 0..5\nA: k in {ab, ca} => true, 1..1\nB: k in {ab, bc} => true, 1..1\nC: k in {bc, ca} => true, 1..1\n",
        &["conflict", "s", "c"],
        "conflict A, B, C\nwithout A\nwithout B\nwithout C\n",
    ),
    (
        SHOP,
        "c1: branch = Chicago => price in 0.00..149.99, 0..5\nc2: true => price in 0.00..100.00, 0..3\n",
        &["conflict", "s", "c"],
        "conflict none\n",
    ),
    (
        SHOP,
        "x: true => true, 0..2\na: day in 1..10 => true, 2..9\nb: day in 5..20 => true, 0..1\nc: day in 1..4 => true, 0..0\n",
        &["conflict", "s", "c"],
        "conflict a, b, c\nwithout a\nwithout b\nwithout c\n",
    ),
    (
        SHOP,
        "a: day in 1..20 => price in 5.00..10.00, 0..2\noutside => day in 1..5, 1..2\n",
        &["conflict", "--nodes=1", "s", "c"],
        "conflict a, outside\nwithout a\nwithout outside\n",
    ),
    (
        SHOP,
        "t: true => true, 0..3\na: branch = Chicago => true, 2..2\nb: branch = NewYork => true, 2..2\nz: branch = Trenton => true, 0..1\n",
        &["conflict", "--nodes=1", "s", "c"],
        "conflict t, a, b\nwithout t\nwithout a\nwithout b\n",
    ),
    (
        SHOP,
        "a: day in 1..2 or day in 5..6 => price in 1.00..2.00, 1..2\nb: day in 1..10 => price in 3.00..4.00, 0..9\n",
        &["conflict", "s", "c"],
        "conflict a, b\nwithout a\nwithout b\n",
    ),
];

/// The lines of a text but those of runs.
fn without_runs(alloc: Global, text: &str) -> Result<String, AllocError> {
    let mut kept = String::new(alloc);
    for line in text.lines() {
        if !line.starts_with("run ") {
            kept.push_str(line)?;
            kept.push('\n')?;
        }
    }
    Ok(kept)
}

/// Whether the words are answered by two loads and one put with this text, but for the lines of runs.
fn is_answered(alloc: Global, trial: &Conflicts<'_>) -> Result<bool, Fail> {
    let (schema, constraints, words, want) = *trial;
    let mut shelf = MemShelf::new(alloc);
    shelf.add("s", schema.as_bytes())?;
    shelf.add("c", constraints.as_bytes())?;
    let mut sink = MemSink::new(alloc, 0);
    let ended = run_words(alloc, words, &mut shelf, &mut sink)?;
    if ended != Status::Done || (shelf.calls, sink.calls) != (2, 1) {
        return Ok(false);
    }
    let Ok(text) = from_utf8(sink.kept.as_slice()) else {
        return Ok(false);
    };
    let kept = without_runs(alloc, text)?;
    Ok(kept.as_str() == want)
}

#[test]
fn constraints_that_contradict_each_other(rt: HostRuntime) -> Result<(), Fail> {
    for trial in &TRIALS {
        assert!(rt; is_answered(rt.alloc(), trial)?, "want {}", trial.3);
    }
    Ok(())
}
