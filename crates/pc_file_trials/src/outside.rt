use pc_base::{Loaded, MemShelf, MemSink, Put, Shelf, Sink, Status};
use std::test::Fail;

// Each case loads once more from a shelf whose load number 4 is to fail.
#[test]
fn loads(rt: HostRuntime) -> Result<(), Fail> {
    let mut shelf = MemShelf::new(rt.alloc());
    shelf.add("a", b"wxyz")?;
    shelf.add("b", b"old")?;
    shelf.add("b", b"new")?;
    shelf.fail(4)?;
    let cases: [(&str, usize, Loaded, &[u8]); 6] = [
        ("a", 4, Loaded::Whole, b"wxyz"),
        ("a", 3, Loaded::Long, b"wxyz"),
        ("a", 1, Loaded::Long, b"wx"),
        ("c", 9, Loaded::Failed, b""),
        ("a", 4, Loaded::Failed, b""),
        ("b", 4, Loaded::Whole, b"new"),
    ];
    for (name, limit, want, bytes) in cases {
        let mut into = Vec::from_slice(rt.alloc(), b"before")?;
        let loaded = shelf.load(rt.alloc(), name, &mut into, limit);
        assert!(rt; loaded == want, "the answer at {name}, {limit}");
        if want != Loaded::Failed {
            assert!(rt; into.as_slice() == bytes, "the bytes at {name}, {limit}");
        }
    }
    assert_eq!(rt; shelf.calls, 6);
    assert_eq!(rt; shelf.faults, 1);
    Ok(())
}

// The second of three puts is to fail.
#[test]
fn puts(rt: HostRuntime) -> Result<(), Fail> {
    let cases: [(u64, &[u8]); 3] = [(0, b"abcghi"), (2, b"abcdeghi"), (9, b"abcdefghi")];
    for (short, want) in cases {
        let mut sink = MemSink::new(rt.alloc(), short);
        sink.fail(1)?;
        assert!(rt; sink.put(b"abc") == Put::All, "the first put at {short}");
        assert!(rt;
            sink.put(b"def") == Put::Failed,
            "the second put at {short}"
        );
        assert!(rt; sink.put(b"ghi") == Put::All, "the third put at {short}");
        assert!(rt; sink.kept.as_slice() == want, "the bytes at {short}");
        assert_eq!(rt; sink.calls, 3);
        assert_eq!(rt; sink.faults, 1);
    }
    Ok(())
}

#[test]
fn codes(rt: HostRuntime) {
    let cases = [
        (Status::Done, 0),
        (Status::SaidNo, 1),
        (Status::Usage, 2),
        (Status::Malformed, 3),
        (Status::ReadFault, 4),
        (Status::WriteFault, 5),
        (Status::Memory, 6),
    ];
    for (status, code) in cases {
        assert_eq!(rt; status.code(), code);
    }
}
