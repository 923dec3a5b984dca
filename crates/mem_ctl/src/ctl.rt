// The controller's parts, and the calls that touch off-chip bytes alone.
ghost use Rattle.std.specs.Prelude.{◌≡◌, ◌≤◌, ◌<◌, ◌*◌, ◌%◌, ◌+◌, ◌-◌, ◌==◌, not, length, map, All, AllPairs};
ghost use Rattle.std.specs.Str.{bytes_eq};
ghost use Rattle.byteorder.specs.Endian.{little_bytes};
ghost use Rattle.pl_base.specs.Bytes.{bytes_at, with_bytes, zero_page};
ghost use Rattle.mem_geom.specs.Layout.{Exists, place_bytes, place_length};
ghost use Rattle.pl_digest.specs.Trees.{table_root};
ghost use Rattle.mem_slots.specs.Slots.{use_of};
ghost use Rattle.mem_ctl.specs.Kept.{root_entries};
ghost use Rattle.mem_ctl.specs.Raw.{attacked, raw_written, raw_zeroed};
ghost use Rattle.mem_ctl.specs.TreesHold.{AreUsesOfTwoZones};
ghost use Rattle.mem_ctl.specs.Writes.{word_at};

use crate::check::read_place;
use byteorder::{ByteOrder, LittleEndian};
use mem_geom::{Dram, page_start};
use mem_slots::{Choice, SlotUse, Slots};
use pl_base::Place;
use pl_digest::Digester;
use std::marker::Model;

/// The memory controller: off-chip memory of some zones, guarded by hash trees over its pages, of which those of the
/// mounted zones are open. It keeps a mirror of all bytes that it wrote through the trees.
///
/// Contracts see it as plain data, and the rule that names the slot to evict.
#[derive(Drop)]
pub struct Ctl<D: Digester, F> {
    pub(crate) digester: D,
    pub(crate) zones: u8,
    pub(crate) off_chip: Dram,
    pub(crate) mirror: Dram,
    pub(crate) slots: Slots,
    pub(crate) root: [u8; 32],
    pub(crate) choice: Choice<F>,
}

impl<D: Digester, F> Model for Ctl<D, F> {
    ghost use Rattle.mem_ctl.specs.Data.{CtlData, ctl_data};
    ghost use Rattle.mem_ctl.specs.TreesHold.{IsKept};

    ghost Value = { CtlData × F };

    ghost view = { λ c. (ctl_data c.zones c.slots.limit c.off_chip c.mirror c.slots.mounted c.root, c.choice) };

    ghost invariant = { λ c. IsKept D.digest_of (ctl_data c.zones c.slots.limit c.off_chip c.mirror c.slots.mounted c.root) };
}

impl<D: Digester, F> Ctl<D, F> {
    ghost use Rattle.mem_ctl.specs.TreesHold.{IsKept};

    /// The eight bytes of a page at an offset, a multiple of 8, as they stand off chip.
    pub fn raw_read(&self, page: u32, offset: u16) -> u64
        requires page { page < 64 * self.now.0.zones }
        requires offset { offset < 4096 }
        requires aligned { offset % 8 ≡ 0 }
        ensures { result ≡ word_at self.now.0.off_chip page offset }
    {
        let _zones = self.zones;
        let mut bytes = [0; 8];
        self.off_chip
            .read(page_start(page) + u64::from(offset), &mut bytes);
        LittleEndian::read_u64(&bytes)
    }

    /// Writes eight bytes of a page at an offset, a multiple of 8, off chip alone.
    pub fn raw_write(&mut self, page: u32, offset: u16, word: u64)
        requires page { page < 64 * self.old.0.zones }
        requires offset { offset < 4096 }
        requires aligned { offset % 8 ≡ 0 }
        ensures { self.new ≡ (raw_written self.old.0 page offset word, self.old.1) }
    {
        let _zones = self.zones;
        write_word(&mut self.off_chip, page, offset, word);
    }

    /// Makes all bytes of a page zero, off chip alone.
    pub fn raw_zero(&mut self, page: u32)
        requires { page < 64 * self.old.0.zones }
        ensures { self.new ≡ (raw_zeroed self.old.0 page, self.old.1) }
    {
        let _zones = self.zones;
        self.off_chip.write(page_start(page), &zeros());
    }

    /// Writes bytes from an address on, off chip alone. The result is whether one of them changed.
    pub fn attack(&mut self, pa: u64, bytes: &[u8]) -> bool
        requires from { 0x80000000 ≤ pa }
        requires to { pa + length bytes.now ≤ 0x80000000 + length self.old.0.off_chip }
        ensures write { self.new ≡ (attacked self.old.0 pa bytes.now, self.old.1) }
        ensures changed { result ≡ not (bytes_eq (bytes_at self.old.0.off_chip (pa - 0x80000000) (length bytes.now)) bytes.now) }
    {
        let _zones = self.zones;
        let changed = !self.off_chip.holds(pa, bytes);
        self.off_chip.write(pa, bytes);
        changed
    }

    /// Reads the bytes from an address on, as they stand off chip.
    pub fn peek(&self, pa: u64, into: &mut [u8])
        requires from { 0x80000000 ≤ pa }
        requires to { pa + length into.old ≤ 0x80000000 + length self.now.0.off_chip }
        ensures { into.new ≡ bytes_at self.now.0.off_chip (pa - 0x80000000) (length into.old) }
    {
        self.off_chip.read(pa, into);
    }

    /// Reads the bytes of a place as they were last written.
    pub fn written(&self, place: &Place, into: &mut [u8])
        requires exists { Exists self.now.0.zones place.now }
        requires length { length into.old ≡ place_length place.now }
        ensures { into.new ≡ place_bytes self.now.0.zones self.now.0.mirror place.now }
    {
        read_place(&self.mirror, self.zones, place, into);
    }

    /// The root on chip: that of the tree over the 64 entries of the root table.
    pub fn root(&self) -> [u8; 32]
        ensures root { result ≡ self.now.0.root }
        ensures table { result ≡ table_root D.digest_of (root_entries self.now.0.zones self.now.0.mirror) }
    {
        self.root
    }

    /// The mounted zones with their uses, in order of mounting.
    pub fn mounted(&self) -> &[SlotUse]
        ensures list { result.now ≡ map use_of self.now.0.mounted }
        ensures few { length result.now ≤ self.now.0.slots }
        ensures apart { AllPairs AreUsesOfTwoZones result.now }
        ensures there { All (λ slot. slot.zone < self.now.0.zones) result.now }
    {
        self.slots.list()
    }

    /// What the controller keeps between calls: its trees hold. It does nothing.
    pub fn trees_hold(&self)
        ensures { IsKept D.digest_of self.now.0 }
    {
        let _zones = self.zones;
    }

    /// The rule that names the slot to evict, again.
    pub fn into_choice(self) -> Choice<F>
        ensures { result ≡ self.1 }
    {
        let Ctl { choice, .. } = self;
        choice
    }
}

/// Writes eight bytes of a page at an offset.
pub(crate) fn write_word(memory: &mut Dram, page: u32, offset: u16, word: u64)
    requires { 4096 * page + offset + 8 ≤ length memory.old }
    ensures bytes { memory.new ≡ with_bytes memory.old (4096 * page + offset) (little_bytes 8 word) }
    ensures size { length memory.new ≡ length memory.old }
{
    let mut bytes = [0; 8];
    LittleEndian::write_u64(&mut bytes, word);
    memory.write(page_start(page) + u64::from(offset), &bytes);
}

/// A page of zero bytes.
#[tactic(auto, unfolding(pl_base::specs::Bytes::zero_page))]
pub(crate) fn zeros() -> [u8; 4096]
    ensures { result ≡ zero_page }
{
    [0; 4096]
}
