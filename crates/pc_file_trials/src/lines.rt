use crate::SHOP;
use pc_lang::{line_number, read_query};
use pc_model::{FileKind, Reason, Refusal};
use pc_schema::read_schema;
use std::test::Fail;

// A word of two lines, which no file of trials can have.
#[test]
fn query_with_a_line_feed(rt: HostRuntime) -> Result<(), Fail> {
    let schema = read_schema(rt.alloc(), SHOP)?;
    match read_query(rt.alloc(), &schema, "count\n", 3) {
        Err(Refusal::Fault(fault)) => {
            assert!(rt; fault.file == FileKind::Query);
            assert_eq!(rt; fault.place, 3);
            assert_eq!(rt; fault.reason, Reason::BadToken);
        }
        _ => assert!(rt; false, "no query is wanted"),
    }
    Ok(())
}

// The number of the line of a constraint, from its place among the constraints.
static NUMBERS: [(&str, usize, u64); 9] = [
    ("a: true => true, 0..1", 0, 1),
    (
        "a: true => true, 0..1\nb: true => true, 0..1\nc: true => true, 0..1\n",
        0,
        1,
    ),
    (
        "a: true => true, 0..1\nb: true => true, 0..1\nc: true => true, 0..1\n",
        1,
        2,
    ),
    (
        "a: true => true, 0..1\nb: true => true, 0..1\nc: true => true, 0..1\n",
        2,
        3,
    ),
    (
        "# x\n\na: true => true, 0..1\n \t\n# y\nb: true => true, 0..1\n",
        0,
        3,
    ),
    (
        "# x\n\na: true => true, 0..1\n \t\n# y\nb: true => true, 0..1\n",
        1,
        6,
    ),
    (
        "\r\na: true => true, 0..1\r\n# y\r\n\t\r\nb: true => true, 0..1",
        0,
        2,
    ),
    (
        "\r\na: true => true, 0..1\r\n# y\r\n\t\r\nb: true => true, 0..1",
        1,
        5,
    ),
    ("\u{feff}# x\na: true => true, 0..1", 0, 2),
];

#[test]
fn numbers_of_lines(rt: HostRuntime) {
    for (text, place, want) in NUMBERS.iter() {
        assert!(rt; line_number(text.as_bytes(), *place) == *want, "{text}");
    }
}
