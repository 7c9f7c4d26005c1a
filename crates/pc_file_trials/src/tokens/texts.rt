use pc_lang_tokens::{put_tokens, read_tokens};
use pc_model::ReadStop;
use std::alloc::Global;
use std::test::Fail;

static TEXTS: [(&str, &str); 12] = [
    (
        "c1: branch = Chicago and day >= 20 => price in 0.00..149.99, 0..5",
        "c1: branch = Chicago and day >= 20 => price in 0.00..149.99, 0..5",
    ),
    (
        "sum ( price )where k in{ab ,\"a b\"}group by\"group\"",
        "sum(price) where k in {ab, \"a b\"} group by \"group\"",
    ),
    ("", ""),
    (" \t", ""),
    ("count ( * )", "count(*)"),
    ("a<b<=c>d", "a < b <= c > d"),
    ("-5 .. +7.50", "-5..+7.50"),
    ("\"ab\"\"a\"\"b\"", "\"ab\"\"a\"\"b\""),
    ("\"ab\" \"\"\"\"", "ab \"\"\"\""),
    (
        "true  or\tin min max avg outside quantile",
        "true or in min max avg outside quantile",
    ),
    ("{ { ( ) } }", "{{()}}"),
    (": , =>", ":, =>"),
];

// Whether the tokens of a line are written so, after what stands before them.
fn is_written(alloc: Global, line: &str, want: &str) -> Result<bool, Fail> {
    let tokens = read_tokens(alloc, line.as_bytes()).map_err(ReadStop::from)?;
    let mut out = Vec::from_slice(alloc, b"# ")?;
    put_tokens(alloc, &mut out, tokens.list.as_slice())?;
    Ok(out.as_slice().strip_prefix(b"# ") == Some(want.as_bytes()))
}

#[test]
fn writes_tokens(rt: HostRuntime) -> Result<(), Fail> {
    for (line, want) in TEXTS.iter() {
        assert!(rt; is_written(rt.alloc(), line, want)?, "{want}");
    }
    Ok(())
}
