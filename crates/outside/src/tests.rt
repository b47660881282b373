use crate::CopyList;
use std::test::Fail;

#[test]
fn values_stand_in_their_order(rt: HostRuntime) -> Result<(), Fail> {
    let mut list = CopyList::new(rt.alloc());
    assert!(rt; list.is_empty());
    for item in [3u64, 1, 2] {
        list.add(item)?;
    }
    assert_eq!(rt; list.len(), 3);
    list.set(0, 4);
    assert_eq!(rt; list.get(0), 4);
    let rest = list.without_first(1);
    assert_eq!(rt; rest.as_slice(), [1, 2].as_slice());
    Ok(())
}
