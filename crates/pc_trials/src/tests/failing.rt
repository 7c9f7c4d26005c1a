//! Puts that fail, of a read fault, a report, a refusal and the usage line.
use super::loads::LOADS_THAT_FAIL;
use super::*;

/// Whether a run ends so where its put keeps so many bytes and fails.
fn ends_short(
    alloc: Global,
    words: &[&str],
    mut shelf: MemShelf,
    short: u64,
    ending: Ending<'_>,
) -> Result<bool, Fail> {
    let mut sink = MemSink::new(alloc, short);
    sink.fail(0)?;
    let status = run_words(alloc, words, &mut shelf, &mut sink)?;
    let (text, wanted) = ending;
    Ok(status == wanted && sink.kept.as_slice() == text.as_bytes())
}

#[test]
fn puts_of_a_read_fault_that_fail(rt: HostRuntime) -> Result<(), Fail> {
    for case in &LOADS_THAT_FAIL {
        let (words, load, line) = *case;
        let shelf = shelf_failing(rt.alloc(), Some(load))?;
        let ending = ("", Status::ReadFault);
        assert!(rt;
            ends_short(rt.alloc(), words, shelf, 0, ending)?,
            "at {line}"
        );
        let shelf = shelf_failing(rt.alloc(), Some(load))?;
        let ending = ("read fa", Status::ReadFault);
        assert!(rt;
            ends_short(rt.alloc(), words, shelf, 7, ending)?,
            "at {line}"
        );
    }
    Ok(())
}

/// The words of a command, and the first seven bytes of its report, or all of a shorter one.
static REPORTS_THAT_ARE_CUT: [(&[&str], &str); 7] = [
    (&BOUND, "query s"),
    (&PROVE, "pc 1\nqu"),
    (&CHECK, "yes\n"),
    (&SHOW, "c1: bra"),
    (&CONFLICT, "conflic"),
    (&QUANTILE, "query q"),
    (&SESSION, "query s"),
];

#[test]
fn puts_of_a_report_that_fail(rt: HostRuntime) -> Result<(), Fail> {
    for case in &REPORTS_THAT_ARE_CUT {
        let (words, front) = *case;
        let shelf = shelf_failing(rt.alloc(), None)?;
        let ending = ("", Status::WriteFault);
        assert!(rt;
            ends_short(rt.alloc(), words, shelf, 0, ending)?,
            "at {front}"
        );
        let shelf = shelf_failing(rt.alloc(), None)?;
        let ending = (front, Status::WriteFault);
        assert!(rt;
            ends_short(rt.alloc(), words, shelf, 7, ending)?,
            "at {front}"
        );
    }
    Ok(())
}

static COMMANDS: [&[&str]; 7] = [
    &BOUND, &PROVE, &CHECK, &SHOW, &CONFLICT, &QUANTILE, &SESSION,
];

/// How many bytes of the line of a refusal its put keeps before it fails, and what is then written.
static REFUSALS_THAT_ARE_CUT: [(u64, &str); 2] = [(0, ""), (7, "malform")];

#[test]
fn puts_of_a_refusal_that_fail(rt: HostRuntime) -> Result<(), Fail> {
    for words in &COMMANDS {
        for case in &REFUSALS_THAT_ARE_CUT {
            let (short, text) = *case;
            let mut shelf = shelf_failing(rt.alloc(), None)?;
            shelf.add("c", b"c: true => true, 5..2\n")?;
            let ending = (text, Status::Malformed);
            assert!(rt;
                ends_short(rt.alloc(), *words, shelf, short, ending)?,
                "at {text}"
            );
        }
    }
    Ok(())
}

#[test]
fn a_put_of_the_usage_line_that_fails(rt: HostRuntime) -> Result<(), Fail> {
    let shelf = shelf_failing(rt.alloc(), None)?;
    let ending = ("usage", Status::Usage);
    assert!(rt; ends_short(rt.alloc(), &["show"], shelf, 5, ending)?);
    Ok(())
}
