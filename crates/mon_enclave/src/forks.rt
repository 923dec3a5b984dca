// A record that is built as a fork of another one in the same list.
ghost use Rattle.std.specs.Prelude.{◌≡◌, ◌≢◌, ◌≤◌, ◌<◌, Some, [], ◌∷◌, ◌++◌, length, map, slice_get};
ghost use Rattle.mon_enclave.specs.Records.{as_shared, enclave_at, forked, with_enclave};

use crate::{Enclave, PageKind};
use pl_base::EncNo;
use rv_alone::Context;

// The number of a record's image.
fn image_of(all: &[Enclave], s: EncNo) -> u8
    requires { s.0 < length all.now }
    ensures { result ≡ (enclave_at all.now s.0).image }
{
    all[usize::from(s.0)].image
}

// A record's registers.
fn context_of(all: &[Enclave], s: EncNo) -> Context
    requires { s.0 < length all.now }
    ensures { result ≡ (enclave_at all.now s.0).context }
{
    all[usize::from(s.0)].context
}

// How many pages a record has.
fn page_count(all: &[Enclave], s: EncNo) -> usize
    requires { s.0 < length all.now }
    ensures count { result ≡ length (enclave_at all.now s.0).pages }
    ensures few { result ≤ 256 }
{
    all[usize::from(s.0)].pages.len()
}

// A page of a record.
fn page_at(all: &[Enclave], s: EncNo, index: usize) -> PageKind
    requires number { s.0 < length all.now }
    requires index { index < length (enclave_at all.now s.0).pages }
    ensures { slice_get (enclave_at all.now s.0).pages index ≡ Some result }
{
    all[usize::from(s.0)].pages.as_slice()[index]
}

// A record begins as a fork, with no page yet.
fn begin_in(all: &mut [Enclave], s: EncNo, e: EncNo, image: u8, context: Context, spares: &[u32])
    requires number { e.0 < length all.old }
    requires few { length spares.now ≤ 256 }
    ensures { all.new ≡ with_enclave all.old e.0 (forked s (record (enclave_at all.old e.0) { image = image; pages = []; context = context }) spares.now (enclave_at all.old e.0)) }
{
    all[usize::from(e.0)].begin_fork(s, image, context, spares);
}

// A record shares one more page.
fn share_one(all: &mut [Enclave], e: EncNo, kind: PageKind)
    requires number { e.0 < length all.old }
    requires few { length (enclave_at all.old e.0).pages < 256 }
    ensures { all.new ≡ with_enclave all.old e.0 (record (enclave_at all.old e.0) { pages = (enclave_at all.old e.0).pages ++ as_shared kind ∷ [] }) }
{
    all[usize::from(e.0)].share(kind.page());
}

// A record with no page shares those of another one.
fn share_pages(all: &mut [Enclave], s: EncNo, e: EncNo)
    requires shadow { s.0 < length all.old }
    requires number { e.0 < length all.old }
    requires other { s.0 ≢ e.0 }
    requires empty { (enclave_at all.old e.0).pages ≡ [] }
    ensures { all.new ≡ with_enclave all.old e.0 (record (enclave_at all.old e.0) { pages = map as_shared (enclave_at all.old s.0).pages }) }
{
    let count = page_count(all, s);
    for index in 0..count {
        let kind = page_at(all, s, index);
        share_one(all, e, kind);
    }
}

/// A record is built as a fork of another one.
pub(crate) fn fork_in(all: &mut [Enclave], s: EncNo, e: EncNo, spares: &[u32])
    requires shadow { s.0 < length all.old }
    requires number { e.0 < length all.old }
    requires other { s.0 ≢ e.0 }
    requires few { length spares.now ≤ 256 }
    ensures { all.new ≡ with_enclave all.old e.0 (forked s (enclave_at all.old s.0) spares.now (enclave_at all.old e.0)) }
{
    let image = image_of(all, s);
    let context = context_of(all, s);
    begin_in(all, s, e, image, context, spares);
    share_pages(all, s, e);
}
