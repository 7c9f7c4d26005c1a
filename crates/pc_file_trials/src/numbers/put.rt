use pc_num::{Frac, put_frac, put_scaled};
use std::test::Fail;

// Numbers that no file has. Those of files are among the trials of numbers.
static NUMBERS: [(i128, u8, &str); 3] = [
    (i128::MAX, 0, "170141183460469231731687303715884105727"),
    (i128::MIN, 0, "-170141183460469231731687303715884105728"),
    (i128::MIN, 6, "-170141183460469231731687303715884.105728"),
];

#[test]
fn puts_numbers(rt: HostRuntime) -> Result<(), Fail> {
    let alloc = rt.alloc();
    let mut out = Vec::new(alloc);
    for (value, scale, want) in NUMBERS.iter() {
        assert!(rt; *scale <= 6);
        out.clear();
        out.extend_from_slice(b"in 3..")?;
        put_scaled(alloc, &mut out, *value, *scale)?;
        assert!(rt;
            out.as_slice().strip_prefix(b"in 3..") == Some(want.as_bytes()),
            "{want}"
        );
    }
    Ok(())
}

static FRACTIONS: [(i128, i128, &str); 2] = [
    (6, -4, "-3/2"),
    (1, i128::MAX, "1/170141183460469231731687303715884105727"),
];

#[test]
fn puts_fractions(rt: HostRuntime) -> Result<(), Fail> {
    let alloc = rt.alloc();
    let mut out = Vec::new(alloc);
    for (n, d, want) in FRACTIONS.iter() {
        assert!(rt; *d != 0);
        let Some(value) = Frac::new(*n, *d) else {
            assert!(rt; false, "{want}");
            continue;
        };
        out.clear();
        out.extend_from_slice(b"in 3..")?;
        put_frac(alloc, &mut out, &value)?;
        assert!(rt;
            out.as_slice().strip_prefix(b"in 3..") == Some(want.as_bytes()),
            "{want}"
        );
    }
    Ok(())
}
