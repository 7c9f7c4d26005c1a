use csv::ByteRecord;
use pc_records::{Table, field};
use std::test::Fail;

#[test]
fn fields_past_the_last_are_empty(rt: HostRuntime) -> Result<(), Fail> {
    let alloc = rt.alloc();
    let mut table = Table::new(alloc, b"a,b\n");
    let mut row = ByteRecord::new(alloc);
    assert!(rt; table.next(&mut row)?);
    assert!(rt; field(&row, 1) == b"b".as_slice());
    assert!(rt; field(&row, 2).is_empty());
    assert!(rt; field(&row, usize::MAX).is_empty());
    assert!(rt; !table.next(&mut row)?);
    Ok(())
}
