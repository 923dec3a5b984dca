// The mounted zones, in order of mounting.
ghost use Rattle.std.specs.Prelude.{◌≡◌, ◌<◌, ◌≤◌, ◌==◌, ◌++◌, ◌∷◌, [], false, true, length, map, remove};
ghost use Rattle.mem_slots.specs.Slots.{is_full, is_mounted, list_of, root_of, rooted_slot, slot, slot_at, slots_of, use_of, used_slot, used_use};

use crate::slot_use::SlotUse;
use arrayvec::ArrayVec;
use std::marker::Model;

/// The mounted zones, in order of mounting, with the root of each. Contracts see how many there may be, and the list.
#[derive(Drop)]
pub struct Slots {
    limit: u8,
    uses: ArrayVec<SlotUse, 64>,
    roots: ArrayVec<[u8; 32], 64>,
}

impl Model for Slots {
    ghost use Rattle.std.specs.Prelude.{◌≡◌, ◌≤◌, length};
    ghost use Rattle.mem_slots.specs.Slots.{SlotList, list_of, slots_of};

    ghost Value = { SlotList };

    ghost view = { λ s. list_of s.limit (slots_of s.uses.items s.roots.items) };

    ghost invariant = { λ s. (length s.roots.items ≡ length s.uses.items) × (length s.uses.items ≤ s.limit) × (s.limit ≤ 64) };
}

impl Slots {
    /// So many free slots, at most 64.
    pub fn new(slots: u8) -> Slots
        requires { slots ≤ 64 }
        ensures { result ≡ list_of slots [] }
    {
        Slots {
            limit: slots,
            uses: ArrayVec::new(),
            roots: ArrayVec::new(),
        }
    }

    /// The mounted zones with their uses, in order of mounting.
    pub fn list(&self) -> &[SlotUse]
        ensures list { result.now ≡ map use_of self.now.mounted }
        ensures size { length result.now ≡ length self.now.mounted }
        ensures limit { length self.now.mounted ≤ self.now.limit }
        ensures most { self.now.limit ≤ 64 }
    {
        self.uses.as_slice()
    }

    /// Whether no slot is free.
    pub fn is_full(&self) -> bool
        ensures { result ≡ is_full self.now }
    {
        usize::from(self.limit) <= self.uses.len()
    }

    /// The root of a zone, where it is mounted.
    pub fn find(&self, zone: u8) -> Option<[u8; 32]>
        ensures { result ≡ root_of self.now.mounted zone }
    {
        root_in(self.uses.as_slice(), self.roots.as_slice(), zone)
    }

    /// Mounts a zone that is not mounted, with its root, as the last.
    pub fn add(&mut self, zone: u8, root: [u8; 32])
        requires room { is_full self.old ≡ false }
        requires absent { is_mounted self.old.mounted zone ≡ false }
        ensures { self.new ≡ list_of self.old.limit (self.old.mounted ++ slot zone 0 root ∷ []) }
    {
        self.uses.push(SlotUse { zone, uses: 0 });
        self.roots.push(root);
    }

    /// Frees the slot at a position. The result is its zone and its root.
    pub fn take_out(&mut self, position: usize) -> (u8, [u8; 32])
        requires { position < length self.old.mounted }
        ensures zone { result.0 ≡ (slot_at self.old.mounted position).zone }
        ensures root { result.1 ≡ (slot_at self.old.mounted position).root }
        ensures rest { self.new ≡ list_of self.old.limit (remove self.old.mounted position) }
    {
        let slot = self.uses.remove(position);
        let root = self.roots.remove(position);
        (slot.zone, root)
    }

    /// Gives a mounted zone another root.
    pub fn set(&mut self, zone: u8, root: [u8; 32])
        requires { is_mounted self.old.mounted zone ≡ true }
        ensures { self.new ≡ list_of self.old.limit (map (rooted_slot zone root) self.old.mounted) }
    {
        put_root(self.uses.as_slice(), self.roots.as_mut_slice(), zone, &root);
    }

    /// Counts one use more of a mounted zone.
    pub fn used(&mut self, zone: u8)
        requires { is_mounted self.old.mounted zone ≡ true }
        ensures { self.new ≡ list_of self.old.limit (map (used_slot zone) self.old.mounted) }
    {
        count_use(self.uses.as_mut_slice(), zone);
    }
}

// Counts one use more of a zone.
fn count_use(uses: &mut [SlotUse], zone: u8)
    ensures { uses.new ≡ map (used_use zone) uses.old }
{
    for i in 0..uses.len() {
        uses[i] = with_use(uses[i], zone);
    }
}

fn with_use(slot: SlotUse, zone: u8) -> SlotUse
    ensures { result ≡ used_use zone slot }
{
    if slot.zone == zone {
        SlotUse {
            zone: slot.zone,
            uses: slot.uses.saturating_add(1),
        }
    } else {
        slot
    }
}

// The root of a zone: it stands where the zone does.
fn root_in(uses: &[SlotUse], roots: &[[u8; 32]], zone: u8) -> Option<[u8; 32]>
    requires { length roots.now ≡ length uses.now }
    ensures { result ≡ root_of (slots_of uses.now roots.now) zone }
{
    for i in 0..uses.len() {
        if uses[i].zone == zone {
            return Some(roots[i]);
        }
    }
    None
}

// Puts another root where the zone stands.
fn put_root(uses: &[SlotUse], roots: &mut [[u8; 32]], zone: u8, root: &[u8; 32])
    requires { length roots.old ≡ length uses.now }
    ensures { slots_of uses.now roots.new ≡ map (rooted_slot zone root.now) (slots_of uses.now roots.old) }
{
    for i in 0..uses.len() {
        if uses[i].zone == zone {
            roots[i] = *root;
        }
    }
}
