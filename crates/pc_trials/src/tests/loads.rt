//! How many files each command loads, and loads that fail.
use super::*;

/// The words of a command, and the number of its loads.
static LOADS: [(&[&str], u64); 8] = [
    (&BOUND, 3),
    (&PROVE, 3),
    (&CHECK, 4),
    (&SHOW, 2),
    (&CONFLICT, 2),
    (&QUANTILE, 3),
    (&SESSION, 4),
    (&["gen", "0", "1"], 0),
];

/// Whether a run of the words is done after so many loads, by one put.
fn is_done_after(alloc: Global, words: &[&str], loads: u64) -> Result<bool, Fail> {
    let mut shelf = shelf_failing(alloc, None)?;
    let mut sink = MemSink::new(alloc, 0);
    let status = run_words(alloc, words, &mut shelf, &mut sink)?;
    Ok(status == Status::Done && (shelf.calls, sink.calls) == (loads, 1))
}

#[test]
fn loads_of_each_command(rt: HostRuntime) -> Result<(), Fail> {
    for case in &LOADS {
        let (words, loads) = *case;
        assert!(rt; is_done_after(rt.alloc(), words, loads)?, "{loads} loads");
    }
    Ok(())
}

/// What is refused, or said no to, when all files are loaded: a quantile's query, a document that is a script, and a
/// script that is a document.
static REFUSED: [(&[&str], u64, &str, Status); 3] = [
    (
        &["quantile", "s", "r", "c", "quantile(3, 2, price)"],
        3,
        "malformed query at 1: reason 18 LeastOverMost\n",
        Status::Malformed,
    ),
    (
        &["check", "s", "r", "c", "t"],
        4,
        "no line 1 rule 1\n",
        Status::SaidNo,
    ),
    (
        &["session", "s", "r", "c", "d"],
        4,
        "malformed script at 1: reason 16 Unexpected\n",
        Status::Malformed,
    ),
];

#[test]
fn loads_before_a_refusal(rt: HostRuntime) -> Result<(), Fail> {
    for case in &REFUSED {
        let (words, loads, line, status) = *case;
        let shelf = shelf_failing(rt.alloc(), None)?;
        assert!(rt;
            ends_after(rt.alloc(), words, shelf, (line, status), (loads, 1))?,
            "at {line}"
        );
    }
    Ok(())
}

pub(super) static LOADS_THAT_FAIL: [(&[&str], u64, &str); 21] = [
    (&BOUND, 0, "read fault: schema\n"),
    (&BOUND, 1, "read fault: rows\n"),
    (&BOUND, 2, "read fault: constraints\n"),
    (&PROVE, 0, "read fault: schema\n"),
    (&PROVE, 1, "read fault: rows\n"),
    (&PROVE, 2, "read fault: constraints\n"),
    (&CHECK, 0, "read fault: schema\n"),
    (&CHECK, 1, "read fault: rows\n"),
    (&CHECK, 2, "read fault: constraints\n"),
    (&CHECK, 3, "read fault: document\n"),
    (&SHOW, 0, "read fault: schema\n"),
    (&SHOW, 1, "read fault: constraints\n"),
    (&CONFLICT, 0, "read fault: schema\n"),
    (&CONFLICT, 1, "read fault: constraints\n"),
    (&QUANTILE, 0, "read fault: schema\n"),
    (&QUANTILE, 1, "read fault: rows\n"),
    (&QUANTILE, 2, "read fault: constraints\n"),
    (&SESSION, 0, "read fault: schema\n"),
    (&SESSION, 1, "read fault: rows\n"),
    (&SESSION, 2, "read fault: constraints\n"),
    (&SESSION, 3, "read fault: script\n"),
];

#[test]
fn loads_that_fail(rt: HostRuntime) -> Result<(), Fail> {
    for case in &LOADS_THAT_FAIL {
        let (words, load, line) = *case;
        let shelf = shelf_failing(rt.alloc(), Some(load))?;
        let ending = (line, Status::ReadFault);
        assert!(rt;
            ends_after(
                rt.alloc(),
                words,
                shelf,
                ending,
                (load.saturating_add(1), 1)
            )?,
            "at {line}"
        );
    }
    Ok(())
}
