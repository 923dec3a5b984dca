// What a translation asks for next.
ghost use Rattle.std.specs.Prelude.{◌≡◌, ◌<◌, find};
ghost use Rattle.pl_base.specs.Address.{IsPpn, vpn_of};
ghost use Rattle.rv_tlb.specs.Tlb.{is_of};
ghost use Rattle.rv_hart.specs.Seeking.{sought, sought_by, sought_table, sought_through};
ghost use Rattle.rv_hart.specs.Walks.{IsWalk};

use crate::walks::{View, Walk};
use pl_base::{Kind, PAGE_BYTES, Pa, Perms, Ppn, Va};
use rv_sv39::{canonical, entry_address};
use rv_tlb::Tlb;

/// The next access that a translation asks for.
#[derive(Clone, Copy, PartialEq, Eq, Debug)]
pub enum Sought {
    /// The word of a table of this level, at this address.
    Table { pa: Pa, level: u8 },
    /// The data itself.
    At { pa: Pa },
    /// None: no translation serves the access.
    PageFault,
}

/// What the walk of an address asks for next.
///
/// An address that isn't canonical gives a page fault before all else. Until the walk has found its page, an entry of the TLB is used
/// wherever it stands, so that a table is asked for only where there is none. An entry or a found page without the permission that the
/// kind needs gives a page fault.
pub fn seek(walk: &Walk, va: Va, kind: Kind, tlb: &Tlb, view: &View) -> Sought
    requires walk { IsWalk walk.now }
    requires root { IsPpn view.now.root }
    ensures { result ≡ sought walk.now va kind tlb.now view.now }
{
    if !canonical(va) {
        return Sought::PageFault;
    }
    match *walk {
        Walk::Start => seek_table(2, view.root, va, kind, tlb, view),
        Walk::Level { level, table } => seek_table(level, table, va, kind, tlb, view),
        Walk::Found { ppn, perms } => through(ppn, perms, va, kind),
    }
}

// The access by the TLB's entry, and without one the word of a table.
fn seek_table(level: u8, table: Ppn, va: Va, kind: Kind, tlb: &Tlb, view: &View) -> Sought
    requires level { level < 3 }
    requires table { IsPpn table }
    ensures { result ≡ sought_by (find (is_of view.now.space (vpn_of va)) tlb.now) va kind (sought_table level table va) }
{
    match tlb.find(view.space, va.vpn()) {
        Some(entry) => through(entry.ppn, entry.perms, va, kind),
        None => Sought::Table {
            pa: entry_address(va.vpn(), level, table),
            level,
        },
    }
}

// The access through a translation, where that permits its kind.
fn through(ppn: Ppn, perms: Perms, va: Va, kind: Kind) -> Sought
    requires { IsPpn ppn }
    ensures { result ≡ sought_through ppn perms va kind }
{
    if !perms.grants(kind) {
        return Sought::PageFault;
    }
    Sought::At {
        pa: Pa(PAGE_BYTES * ppn.0 + va.0 % PAGE_BYTES),
    }
}
