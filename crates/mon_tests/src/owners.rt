// What the tests ask of the owners of pages.
use mon_owner::{Owner, Owners};
use std::process::Abort;

/// A page has this owner; none is wanted where there is no such page.
pub(crate) fn has_owner(rt: &impl Abort, owners: &Owners, page: u32, want: Option<Owner>) {
    assert_eq!(rt; owners.of(page), want, "page {page}");
}

/// A page of the host that isn't mapped is mapped once.
pub(crate) fn map_once(owners: &mut Owners, page: u32) {
    if let Some(Owner::Host { maps: 0 }) = owners.of(page) {
        owners.add_map(page);
    }
}
