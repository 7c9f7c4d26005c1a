use pc_lang_tokens::front_name;
use std::alloc::Global;
use std::test::Fail;

static FRONTS: [(&str, &str, usize); 22] = [
    ("count,", "coun", 4),
    ("counts,", "counts", 6),
    ("in L..H", "i", 1),
    ("Chicago => 5", "Chicago", 7),
    ("a1.5", "a1", 2),
    ("\"Chicago\"", "", 0),
    ("\"New York\", 5", "New York", 10),
    ("\"count\" ", "count", 7),
    ("\"a\"\"b\" x", "a\"b", 6),
    ("\"a\"\" x", "", 0),
    ("\"a b\"\"", "a b", 5),
    ("\"a b\"\"c", "a b", 5),
    ("\"a b\"\"c\"", "a b\"c", 8),
    ("\"a\"\"\"\"", "a\"", 5),
    ("\"\"\"\"", "\"", 4),
    ("\"\"", "", 0),
    ("\"Zürich\"x", "Zürich", 9),
    ("\"a\nb\"", "", 0),
    ("9x", "", 0),
    (" a", "", 0),
    ("\"", "", 0),
    ("", "", 0),
];

// Whether a text begins with a name, written in so many bytes, or with none where the number is 0.
fn is_front(alloc: Global, text: &str, want: &str, want_len: usize) -> Result<bool, Fail> {
    match front_name(alloc, text.as_bytes())? {
        Some((name, len)) => Ok(name.as_bytes() == want.as_bytes() && len == want_len),
        None => Ok(want_len == 0),
    }
}

#[test]
fn finds_the_longest_front(rt: HostRuntime) -> Result<(), Fail> {
    for (text, want, want_len) in FRONTS.iter() {
        assert!(rt; is_front(rt.alloc(), text, want, *want_len)?, "{text}");
    }
    Ok(())
}
