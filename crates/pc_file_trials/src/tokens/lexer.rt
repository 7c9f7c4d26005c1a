use pc_lang_tokens::{NoTokens, Token, read_tokens};
use std::alloc::{AllocError, Global};
use std::test::Fail;

// A name behind a low quote, a number behind a `#`, and a reserved word behind a `!`.
fn put_token(alloc: Global, out: &mut Vec<u8>, token: &Token) -> Result<(), AllocError> {
    match token {
        Token::Symbol(symbol) => {
            let shown = format!(in alloc; "{symbol:?}")?;
            out.extend_from_slice(shown.as_bytes())
        }
        Token::Reserved(word) => {
            let shown = format!(in alloc; "!{word:?}")?;
            out.extend_from_slice(shown.as_bytes())
        }
        Token::Number(text) => {
            out.extend_from_slice(b"#")?;
            out.extend_from_slice(text.as_slice())
        }
        Token::Name(name) => {
            out.extend_from_slice(b"'")?;
            out.extend_from_slice(name.as_bytes())
        }
    }
}

fn put_tokens(alloc: Global, out: &mut Vec<u8>, tokens: &[Token]) -> Result<(), AllocError> {
    for token in tokens {
        put_token(alloc, out, token)?;
        out.extend_from_slice(b" ")?;
    }
    Ok(())
}

fn put_reading(alloc: Global, out: &mut Vec<u8>, text: &str) -> Result<(), AllocError> {
    match read_tokens(alloc, text.as_bytes()) {
        Ok(tokens) => put_tokens(alloc, out, tokens.list.as_slice()),
        Err(NoTokens::At(_)) => out.extend_from_slice(b"fault"),
        Err(NoTokens::Memory) => out.extend_from_slice(b"stop"),
    }
}

// The texts that are refused alone in a line are among the trials of lines.
static READ: [(&str, &str); 37] = [
    (
        "c: a >= 5 => true, 0..1",
        "'c Colon 'a AtLeast #5 Arrow !True Comma #0 Dots #1 ",
    ),
    (
        "true and or in where group by count sum min max avg outside quantile",
        "!True !And !Or !In !Where !Group !By !Count !Sum !Min !Max !Avg !Outside !Quantile ",
    ),
    ("5..7", "#5 Dots #7 "),
    ("5.5..7", "#5.5 Dots #7 "),
    ("1..-2", "#1 Dots #-2 "),
    ("0.25,", "#0.25 Comma "),
    ("007", "#007 "),
    ("-3", "#-3 "),
    ("+3", "#+3 "),
    ("-3.5", "#-3.5 "),
    ("a-1", "'a #-1 "),
    ("a=b", "'a Equal 'b "),
    ("=>=", "Arrow Equal "),
    (">==", "AtLeast Equal "),
    ("> =", "Above Equal "),
    ("<=<", "AtMost Below "),
    ("{a}", "OpenSet 'a CloseSet "),
    ("count(*)", "!Count OpenGroup Star CloseGroup "),
    ("True", "'True "),
    ("counts", "'counts "),
    ("_x9", "'_x9 "),
    ("1a", "#1 'a "),
    ("a..b", "'a Dots 'b "),
    ("\"a\"\"b\"", "'a\"b "),
    ("\"\"\"\"", "'\" "),
    ("\"a\"b", "'a 'b "),
    ("\"a\" \"b\"", "'a 'b "),
    ("\"count\"", "'count "),
    ("\"a b\"", "'a b "),
    ("\"a\nb\"", "fault"),
    ("\"é\"", "'é "),
    ("a\tb", "'a 'b "),
    ("\t a", "'a "),
    ("a ", "'a "),
    (" ", ""),
    ("", ""),
    ("a\nb", "fault"),
];

#[test]
fn reads_tokens(rt: HostRuntime) -> Result<(), Fail> {
    let alloc = rt.alloc();
    let mut out = Vec::new(alloc);
    for (text, want) in READ.iter() {
        out.clear();
        put_reading(alloc, &mut out, text)?;
        assert!(rt; out.as_slice() == want.as_bytes(), "{text}");
    }
    Ok(())
}
