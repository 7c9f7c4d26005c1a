mod front;
mod lexer;
mod texts;

use pc_lang_tokens::{is_bare, put_name};
use std::test::Fail;

// Texts that are no names of a file: one is too long, and one is empty. The names of files are among the trials of lines.
static NAMES: [(&str, &str); 2] = [
    (
        "abcdefghijklmnopqrstuvwxyzABCDEFGHIJKLMNOPQRSTUVWXYZ_0123456789__",
        "\"abcdefghijklmnopqrstuvwxyzABCDEFGHIJKLMNOPQRSTUVWXYZ_0123456789__\"",
    ),
    ("", "\"\""),
];

#[test]
fn writes_names(rt: HostRuntime) -> Result<(), Fail> {
    let alloc = rt.alloc();
    let mut out = Vec::new(alloc);
    for (name, want) in NAMES.iter() {
        out.clear();
        out.extend_from_slice(b"group by ")?;
        put_name(alloc, &mut out, name)?;
        assert!(rt;
            out.as_slice().strip_prefix(b"group by ") == Some(want.as_bytes()),
            "{want}"
        );
    }
    Ok(())
}

#[test]
fn no_bytes_are_no_bare_name(rt: HostRuntime) {
    assert!(rt; !is_bare(b""));
}
