// Groups on small examples.
use groups::forest::Groups;
use std::test::Fail;

#[test]
fn joined_items_have_one_root(rt: HostRuntime) -> Result<(), Fail> {
    let mut groups = Groups::new(rt.alloc(), 5)?;
    groups.join(1, 3);
    groups.join(3, 4);
    assert_eq!(rt; groups.find(4), 1);
    assert_eq!(rt; groups.find(3), 1);
    assert_eq!(rt; groups.find(2), 2);
    Ok(())
}
