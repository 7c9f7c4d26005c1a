use pc_num::{NumFault, read_scaled};

// Scales that no column has. Those of columns are among the trials of numbers.
static CASES: [(&str, u8, Result<i64, NumFault>); 4] = [
    ("1", 15, Ok(1_000_000_000_000_000)),
    ("0", 255, Ok(0)),
    ("1", 16, Err(NumFault::PastLimit)),
    ("2", 255, Err(NumFault::PastLimit)),
];

#[test]
fn reads_decimal_texts(rt: HostRuntime) {
    for (text, scale, want) in CASES.iter() {
        assert_eq!(rt;
            read_scaled(text.as_bytes(), *scale),
            *want,
            "{text} at {scale}"
        );
    }
}
