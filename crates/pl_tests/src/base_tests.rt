// Permissions and lists, each call once.
use bitflags::Flags;
use pl_base::{Kind, Listed, Perms};
use std::test::Fail;

#[test]
fn permissions_are_the_bits_of_their_names(rt: HostRuntime) {
    let run = Perms::R.union(Perms::X);
    assert_eq!(rt; run, Perms(5));
    assert!(rt; run.grants(Kind::Fetch) && run.grants(Kind::Load) && !run.grants(Kind::Store));
    assert_eq!(rt; Perms::from_bits(8), None);
}

#[test]
fn a_list_is_the_vector_it_came_from(rt: HostRuntime) -> Result<(), Fail> {
    let mut list = Listed::new(rt.alloc());
    assert!(rt; list.is_empty());
    list.push(7u8)?;
    list.push(8)?;
    assert_eq!(rt; list.len(), 2);
    list.set(0, 9);
    assert_eq!(rt; list.get(0).copied(), Some(9));
    assert_eq!(rt; list.get(2).copied(), None);
    assert_eq!(rt;
        Listed::from_vec(list.into_vec()).as_slice(),
        [9u8, 8].as_slice()
    );
    Ok(())
}
