// Owners of pages, each call once.
ghost use Rattle.std.specs.Prelude.{◌≡◌, length};

use crate::owners::has_owner;
use mon_owner::{Owner, Owners};
use pl_base::EncNo;
use std::test::Fail;

fn map_once_more(owners: &mut Owners, page: u32)
    ensures { length owners.new ≡ length owners.old }
{
    if let Some(Owner::Host { maps }) = owners.of(page) {
        if maps < u32::MAX {
            owners.add_map(page);
        }
    }
}

fn map_once_less(owners: &mut Owners, page: u32)
    ensures { length owners.new ≡ length owners.old }
{
    if let Some(Owner::Host { maps }) = owners.of(page) {
        if maps > 0 {
            owners.drop_map(page);
        }
    }
}

#[test]
fn pages_change_hands(rt: HostRuntime) -> Result<(), Fail> {
    let mut owners = Owners::new(rt.alloc(), 2, 6)?;
    has_owner(&rt, &owners, 1, Some(Owner::Guard));
    has_owner(&rt, &owners, 2, Some(Owner::Host { maps: 0 }));
    has_owner(&rt, &owners, 6, None);
    owners.take_all(&[2, 4], Owner::Enclave(EncNo(3)));
    has_owner(&rt, &owners, 2, Some(Owner::Enclave(EncNo(3))));
    has_owner(&rt, &owners, 3, Some(Owner::Host { maps: 0 }));
    has_owner(&rt, &owners, 4, Some(Owner::Enclave(EncNo(3))));
    map_once_more(&mut owners, 5);
    map_once_more(&mut owners, 5);
    map_once_less(&mut owners, 5);
    has_owner(&rt, &owners, 5, Some(Owner::Host { maps: 1 }));
    owners.give_all(&[2]);
    has_owner(&rt, &owners, 2, Some(Owner::Host { maps: 0 }));
    has_owner(&rt, &owners, 4, Some(Owner::Enclave(EncNo(3))));
    Ok(())
}
