// Words through the trees.
ghost use Rattle.std.specs.Prelude.{◌≡◌, ◌≤◌, ◌<◌, ◌*◌, ◌/◌, ◌%◌, ◌+◌, true, [], length, IfOk, IfErr, OnErr, OnOk, IsTrue};
ghost use Rattle.std.specs.Fn.{FnReturnsAt};
ghost use Rattle.byteorder.specs.Endian.{little_bytes, little_number};
ghost use Rattle.pl_base.specs.Bytes.{bytes_at, with_bytes};
ghost use Rattle.pl_base.specs.Width.{is_width};
ghost use Rattle.mem_geom.specs.Layout.{memory_size};
ghost use Rattle.mem_geom.specs.PathPlaces.{word_places};
ghost use Rattle.mem_slots.specs.Choices.{NamesPosition};
ghost use Rattle.mem_slots.specs.Slots.{is_mounted};
ghost use Rattle.mem_tree.specs.Words.{parts_of, word_path};
ghost use Rattle.mem_ctl.specs.Access.{AllAsWritten, BothChange, BothStay, Leaves};
ghost use Rattle.mem_ctl.specs.Calls.{ask_of, read_word_of, slot_root, write_part_of};
ghost use Rattle.mem_ctl.specs.Causes.{IsCause};
ghost use Rattle.mem_ctl.specs.Laws.{PathIsTaken};
ghost use Rattle.mem_ctl.specs.Mounting.{taken};
ghost use Rattle.mem_ctl.specs.Opened.{IsOpened, IsRefused, asked_outcome, word_of_taken};
ghost use Rattle.mem_ctl.specs.Results.{IsCall, outcome_of};
ghost use Rattle.mem_ctl.specs.TreesHold.{IsKept};
ghost use Rattle.mem_ctl.specs.Words.{path_written, stored};
ghost use Rattle.mem_ctl.specs.Writes.{with_places, word_at};

use crate::broken::Broken;
use crate::check::{read_place, write_place};
use crate::ctl::Ctl;
use crate::sealed::{check_sealed, word_places};
use byteorder::{ByteOrder, LittleEndian};
use mem_geom::Dram;
use mem_slots::SlotUse;
use mem_tree::{NewPath, Sealed, Taken};
use pl_base::Place;
use pl_digest::Digester;

impl<D: Digester, F: Fn(&[SlotUse]) -> usize> Ctl<D, F> {
    /// The eight bytes of a page at an offset, a multiple of 8, read through the trees. This computes five digests where
    /// the zone is mounted.
    pub fn read_word(&mut self, page: u32, offset: u16) -> Result<u64, Broken>
        requires page { page < 64 * self.old.0.zones }
        requires offset { offset < 4096 }
        requires aligned { offset % 8 ≡ 0 }
        requires choice { NamesPosition F.Fn self.old.1 }

        // What it answers and leaves is its function of the data.
        ensures call { IsCall (FnReturnsAt F.Fn self.old.1) (read_word_of D.digest_of page offset) self.old.0 (outcome_of result) self.new.0 }

        // A word that it gives is the one that was written, and stands off chip too.
        ensures word { IfOk result (λ word. word ≡ word_at self.old.0.mirror page offset) }
        ensures held { IfOk result (λ word. word ≡ word_at self.old.0.off_chip page offset) }
        ensures whole { OnOk result (AllAsWritten self.old.0 (word_places page (offset / 64))) }
        ensures stay { BothStay self.old.0 self.new.0 }
        ensures leaves { Leaves D.digest_of self.old.0 self.new.0 }
        ensures cause { IfErr result (IsCause D.digest_of (word_places page (offset / 64)) self.new.0) }
        ensures choice { self.new.1 ≡ self.old.1 }
    {
        let _zones = self.zones;
        match self.open_word(page, (offset / 64) as u8) {
            Ok(sealed) => Ok(word_in(&sealed.taken().block, offset % 64)),
            Err(broken) => Err(broken),
        }
    }

    /// Writes the lowest `width` bytes of a value at an offset of a page, a multiple of the width, through the trees. This
    /// computes ten digests where the zone is mounted.
    pub fn write_part(
        &mut self,
        page: u32,
        offset: u16,
        width: u8,
        value: u64,
    ) -> Result<(), Broken>
        requires page { page < 64 * self.old.0.zones }
        requires offset { offset < 4096 }
        requires width { IsTrue (is_width width) }
        requires aligned { offset % width ≡ 0 }
        requires choice { NamesPosition F.Fn self.old.1 }
        ensures call { IsCall (FnReturnsAt F.Fn self.old.1) (write_part_of D.digest_of page offset width value) self.old.0 (outcome_of result) self.new.0 }
        ensures pages { OnOk result (BothChange page (λ bytes. with_bytes bytes offset (little_bytes width value)) self.old.0 self.new.0) }
        ensures whole { OnOk result (AllAsWritten self.old.0 (word_places page (offset / 64))) }
        ensures stay { OnErr result (BothStay self.old.0 self.new.0) }
        ensures leaves { Leaves D.digest_of self.old.0 self.new.0 }
        ensures cause { IfErr result (IsCause D.digest_of (word_places page (offset / 64)) self.new.0) }
        ensures choice { self.new.1 ≡ self.old.1 }
    {
        let _zones = self.zones;
        match self.open_word(page, (offset / 64) as u8) {
            Ok(sealed) => {
                let path = sealed.with_part((offset % 64) as u8, width, value);
                self.store(page, (offset / 64) as u8, &path);
                Ok(())
            }
            Err(broken) => Err(broken),
        }
    }

    /// Mounts the zone of a page, where it isn't yet, and takes the path of the block at an offset. It is not checked, and
    /// no use is counted.
    pub fn ask(&mut self, page: u32, offset: u16) -> Result<Taken<D>, Broken>
        requires page { page < 64 * self.old.0.zones }
        requires offset { offset < 4096 }
        requires choice { NamesPosition F.Fn self.old.1 }
        ensures call { IsCall (FnReturnsAt F.Fn self.old.1) (ask_of D.digest_of page offset) self.old.0 (asked_outcome result) self.new.0 }
        ensures path { IfOk result (λ taken. PathIsTaken page offset self.old.0 self.new.0 (word_of_taken taken)) }
        ensures stay { BothStay self.old.0 self.new.0 }
        ensures leaves { Leaves D.digest_of self.old.0 self.new.0 }
        ensures cause { IfErr result (IsCause D.digest_of [] self.new.0) }
        ensures choice { self.new.1 ≡ self.old.1 }
    {
        let _zones = self.zones;
        if let Err(broken) = self.mount((page / 64) as u8) {
            return Err(broken);
        }
        Ok(self.take_word(page, (offset / 64) as u8))
    }

    // Mounts the zone of a page, counts a use, and takes, seals and checks the path of one of its blocks.
    fn open_word(&mut self, page: u32, block: u8) -> Result<Sealed<D>, Broken>
        requires page { page < 64 * self.old.0.zones }
        requires block { block < 64 }
        requires choice { NamesPosition F.Fn self.old.1 }
        ensures ok { IfOk result (λ sealed. IsOpened (FnReturnsAt F.Fn self.old.1) D.digest_of page block self.old.0 sealed self.new.0) }
        ensures err { IfErr result (λ broken. IsRefused (FnReturnsAt F.Fn self.old.1) D.digest_of page (word_places page block) self.old.0 broken self.new.0) }
        ensures zones { self.new.0.zones ≡ self.old.0.zones }
        ensures choice { self.new.1 ≡ self.old.1 }
    {
        let _zones = self.zones;
        if let Err(broken) = self.mount((page / 64) as u8) {
            return Err(broken);
        }
        self.count((page / 64) as u8);
        let sealed = self.take_word(page, block).seal();
        if let Err(broken) = check_sealed(self.zones, &self.mirror, &sealed) {
            return Err(broken);
        }
        Ok(sealed)
    }
}

impl<D: Digester, F> Ctl<D, F> {
    // The path of a block of a mounted zone, as it stands off chip.
    fn take_word(&self, page: u32, block: u8) -> Taken<D>
        requires page { page < 64 * self.now.0.zones }
        requires block { block < 64 }
        requires mounted { is_mounted self.now.0.mounted (page / 64) ≡ true }
        ensures page { result.page ≡ page }
        ensures block { result.block_no ≡ block }
        ensures parts { parts_of result ≡ word_path (slot_root self.now.0 (page / 64)) (taken self.now.0) page block }
    {
        let root = self.slots.find((page / 64) as u8).unwrap_or([0; 32]);
        let places = word_places(page, block);
        let mut taken = Taken {
            digester: self.digester,
            page,
            block_no: block,
            block: [0; 64],
            level1: [0; 256],
            level2: [0; 256],
            level3: [0; 256],
            level4: [0; 256],
            root,
        };
        read_place(&self.off_chip, self.zones, &places[0], &mut taken.level4);
        read_place(&self.off_chip, self.zones, &places[1], &mut taken.level3);
        read_place(&self.off_chip, self.zones, &places[2], &mut taken.level2);
        read_place(&self.off_chip, self.zones, &places[3], &mut taken.level1);
        read_place(&self.off_chip, self.zones, &places[4], &mut taken.block);
        taken
    }
}

impl<D: Digester, F> Ctl<D, F> {
    /// Writes the parts of a word's path off chip and into the mirror, and gives the zone's slot its root.
    pub(crate) fn store(&mut self, page: u32, block: u8, path: &NewPath)
        requires page { page < 64 * self.old.0.zones }
        requires block { block < 64 }
        requires mounted { is_mounted self.old.0.mounted (page / 64) ≡ true }
        requires kept { IsKept D.digest_of (stored self.old.0 page block path.now) }
        ensures { self.new ≡ (stored self.old.0 page block path.now, self.old.1) }
    {
        let _zones = self.zones;
        write_path(&mut self.off_chip, self.zones, page, block, path);
        write_path(&mut self.mirror, self.zones, page, block, path);
        self.slots.set((page / 64) as u8, path.root);
    }
}

// Writes the places of a word's path.
fn write_path(memory: &mut Dram, zones: u8, page: u32, block: u8, path: &NewPath)
    requires few { zones ≤ 64 }
    requires page { page < 64 * zones }
    requires block { block < 64 }
    requires size { length memory.old ≡ memory_size zones }
    ensures bytes { memory.new ≡ with_places zones memory.old (path_written page block path.now) }
    ensures size { length memory.new ≡ length memory.old }
{
    let places = word_places(page, block);
    write_place(memory, zones, &places[4], &path.block);
    write_place(memory, zones, &places[3], &path.level1);
    write_place(memory, zones, &places[2], &path.level2);
    write_place(memory, zones, &places[1], &path.level3);
    write_place(memory, zones, &places[0], &path.level4);
}

/// The eight bytes of a block at an offset, as a number.
pub(crate) fn word_in(block: &[u8; 64], at: u16) -> u64
    requires { at + 8 ≤ 64 }
    ensures { result ≡ little_number 8 (bytes_at block.now at 8) }
{
    let at = usize::from(at);
    LittleEndian::read_u64(&block[at..at + 8])
}
