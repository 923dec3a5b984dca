// A hart's translations, in order of entry.
ghost use Rattle.std.specs.Prelude.{◌≡◌, [], find, filter, not, IsNone, IfSome};

use arrayvec::ArrayVec;
use pl_base::{Perms, Ppn, Space, Vpn};
use std::marker::Model;

// How many entries there are at most.
const ROOM: usize = 16;

/// What a leaf of a space's tables says of one page.
#[derive(Clone, Copy, PartialEq, Eq, Debug, Default)]
pub struct TlbEntry {
    pub space: Space,
    pub vpn: Vpn,
    pub ppn: Ppn,
    pub perms: Perms,
}

/// The translations that a hart keeps. Contracts see them as a list, the oldest first.
///
/// No two are of one space and page, and each physical page number is below 2^44.
#[derive(Debug, Drop)]
pub struct Tlb {
    entries: ArrayVec<TlbEntry, ROOM>,
}

impl Model for Tlb {
    ghost use Rattle.std.specs.Prelude.{List};
    ghost use Rattle.rv_tlb.specs.declared.tlb.TlbEntry.{TlbEntry};
    ghost use Rattle.rv_tlb.specs.Tlb.{IsTlb};

    ghost Value = { List TlbEntry };

    ghost view = { λ t. t.entries.items };

    ghost invariant = { λ t. IsTlb t.entries.items };
}

impl Tlb {
    ghost use Rattle.rv_tlb.specs.Tlb.{is_in, is_of, with_entry, HasPpn, IsTlb};

    /// No entry.
    pub fn new() -> Tlb
        ensures { result ≡ [] }
    {
        Tlb {
            entries: ArrayVec::new(),
        }
    }

    /// The entry of a page of a space.
    pub fn find(&self, space: Space, vpn: Vpn) -> Option<TlbEntry>
        ensures entry { result ≡ find (is_of space vpn) self.now }
        ensures ppn { IfSome result HasPpn }
        ensures kept { IsTlb self.now }
    {
        self.entries
            .as_slice()
            .iter()
            .copied()
            .find(|entry| entry.space == space && entry.vpn == vpn)
    }

    /// Puts an entry last. The first drops out where there are sixteen.
    pub fn put(&mut self, entry: TlbEntry)
        requires new { IsNone (find (is_of entry.space entry.vpn) self.old) }
        requires ppn { HasPpn entry }
        ensures { self.new ≡ with_entry self.old entry }
    {
        if self.entries.is_full() {
            self.entries.remove(0);
        }
        self.entries.push(entry);
    }

    /// Drops the entry of a page of a space.
    pub fn drop_page(&mut self, space: Space, vpn: Vpn)
        ensures { self.new ≡ filter (λ entry. not (is_of space vpn entry)) self.old }
    {
        self.entries
            .retain(|entry| !(entry.space == space && entry.vpn == vpn));
    }

    /// Drops the entries of a space.
    pub fn drop_space(&mut self, space: Space)
        ensures { self.new ≡ filter (λ entry. not (is_in space entry)) self.old }
    {
        self.entries.retain(|entry| entry.space != space);
    }
}
