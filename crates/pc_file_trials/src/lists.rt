use pc_list::{Seq, Text};
use std::test::Fail;

#[test]
fn lists(rt: HostRuntime) -> Result<(), Fail> {
    let alloc = rt.alloc();
    let mut list: Seq<u8> = Seq::new(alloc);
    assert!(rt; list.is_empty());
    list.push(2)?;
    list.push_front(1)?;
    list.extend_from_slice(&[3, 4])?;
    assert!(rt; list.as_slice() == [1, 2, 3, 4].as_slice());
    assert!(rt; !list.is_empty());
    assert_eq!(rt; list.len(), 4);

    let mut copy = list.clone()?;
    assert!(rt; copy == list);
    copy.push(5)?;
    assert!(rt; copy != list);
    assert_eq!(rt; copy.len(), 5);
    assert_eq!(rt; list.len(), 4);

    let other = Seq::from_slice(list.allocator(), &[1, 2, 3, 4])?;
    assert!(rt; Seq::from_vec(other.into_vec()) == list);
    Ok(())
}

#[test]
fn texts(rt: HostRuntime) -> Result<(), Fail> {
    let alloc = rt.alloc();
    let text = Text::from_text(alloc, "größe")?;
    assert!(rt; text.as_str() == "größe");
    assert_eq!(rt; text.as_bytes().len(), 7);

    let copy = text.clone()?;
    assert!(rt; copy == text);
    let other = Text::from_string(String::from_str(alloc, "große")?);
    assert!(rt; other != text);
    assert!(rt; other.into_string().as_str() == "große");
    Ok(())
}
