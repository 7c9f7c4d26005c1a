use pc_document_format::{line_end, line_of};
use std::test::Fail;

#[test]
fn places_of_lines(rt: HostRuntime) -> Result<(), Fail> {
    let bytes = b"ab\n\nc";
    assert_eq!(rt; line_end(bytes, 0), Some(2));
    assert_eq!(rt; line_end(bytes, 3), Some(3));
    assert_eq!(rt; line_end(bytes, 4), None);
    assert_eq!(rt; line_of(bytes, 0), 1);
    assert_eq!(rt; line_of(bytes, 3), 2);
    assert_eq!(rt; line_of(bytes, 5), 3);
    Ok(())
}
