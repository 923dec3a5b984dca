// A controller on a bench: a call ends the test where a condition of its own isn't met.
ghost use Rattle.std.specs.Prelude.{◌≤◌, ◌*◌, IfOk};
ghost use Rattle.pl_base.specs.ListedWords.{AreWordsOf};
ghost use Rattle.mem_slots.specs.Choices.{NamesPosition};

use mem_ctl::{Broken, Ctl, Op, Told};
use mem_geom::{MEMORY_START, memory_end};
use mem_slots::{Choice, SlotUse};
use mem_tree::Sealed;
use pl_base::{Memory, Place};
use pl_digest::Digester;
use std::alloc::Global;
use std::marker::Model;
use std::process::Abort;

/// A controller and the number of its zones. Contracts see the rule that names the slot to evict.
#[derive(Drop)]
pub(crate) struct Bench<D: Digester, F> {
    zones: u8,
    ctl: Ctl<D, F>,
}

impl<D: Digester, F> Model for Bench<D, F> {
    ghost use Rattle.std.specs.Prelude.{◌≡◌, ◌≤◌};

    ghost Value = { F };

    ghost view = { λ bench. bench.ctl.1 };

    ghost invariant = { λ bench. (bench.ctl.0.zones ≡ bench.zones) × (bench.zones ≤ 64) };
}

/// An access to page 20: a read of its first word, a write of its first byte, a read of it, a write of zeros.
#[derive(Clone, Copy, PartialEq, Eq, Debug)]
pub(crate) enum Access {
    Read,
    Write,
    Get,
    Put,
}

impl<D: Digester, F: Fn(&[SlotUse]) -> usize + Drop> Bench<D, F> {
    pub(crate) fn new(
        alloc: Global,
        digester: D,
        zones: u8,
        slots: u8,
        start: &[(u32, u16, u64)],
        choice: Choice<F>,
    ) -> Result<Bench<D, F>, Memory>
        requires zone { 1 ≤ zones }
        requires zones { zones ≤ 64 }
        requires slot { 1 ≤ slots }
        requires slots { slots ≤ 64 }
        requires words { AreWordsOf (64 * zones) start.now }
        requires choice { NamesPosition F.Fn choice }
        ensures { IfOk result (λ bench. NamesPosition F.Fn bench) }
    {
        let ctl = Ctl::new(alloc, digester, zones, slots, start, choice)?;
        Ok(Bench { zones, ctl })
    }

    pub(crate) fn root(&self) -> [u8; 32] {
        self.ctl.root()
    }

    fn mounted(&self) -> &[SlotUse] {
        self.ctl.mounted()
    }

    pub(crate) fn read(&mut self, rt: &impl Abort, page: u32, offset: u16) -> Result<u64, Broken>
        requires { NamesPosition F.Fn self.old }
        ensures { NamesPosition F.Fn self.new }
    {
        assert!(rt; page < 64 * u32::from(self.zones));
        assert!(rt; offset < 4096);
        assert!(rt; offset % 8 == 0);
        self.ctl.read_word(page, offset)
    }

    /// Reads a word that is so.
    pub(crate) fn reads(&mut self, rt: &impl Abort, page: u32, offset: u16, word: u64)
        requires { NamesPosition F.Fn self.old }
        ensures { NamesPosition F.Fn self.new }
    {
        let answer = self.read(rt, page, offset);
        assert_eq!(rt; answer, Ok(word), "page {page}, offset {offset}");
    }

    /// Reads the first word of a page, for which a place is broken.
    pub(crate) fn breaks(&mut self, rt: &impl Abort, page: u32, place: Place)
        requires { NamesPosition F.Fn self.old }
        ensures { NamesPosition F.Fn self.new }
    {
        let answer = self.read(rt, page, 0);
        assert_eq!(rt; answer, Err(Broken::Fault(place)), "page {page}");
    }

    /// Has these zones mounted.
    pub(crate) fn mounts(&self, rt: &impl Abort, slots: &[SlotUse]) {
        assert_eq!(rt; self.mounted(), slots);
    }

    pub(crate) fn write(
        &mut self,
        rt: &impl Abort,
        page: u32,
        offset: u16,
        value: u64,
    ) -> Result<(), Broken>
        requires { NamesPosition F.Fn self.old }
        ensures { NamesPosition F.Fn self.new }
    {
        assert!(rt; page < 64 * u32::from(self.zones));
        assert!(rt; offset < 4096);
        assert!(rt; offset % 8 == 0);
        self.ctl.write_part(page, offset, 8, value)
    }

    pub(crate) fn put(
        &mut self,
        rt: &impl Abort,
        page: u32,
        bytes: &[u8; 4096],
    ) -> Result<(), Broken>
        requires { NamesPosition F.Fn self.old }
        ensures { NamesPosition F.Fn self.new }
    {
        assert!(rt; page < 64 * u32::from(self.zones));
        self.ctl.put_page(page, bytes)
    }

    /// What an access to page 20 answers where it is refused.
    pub(crate) fn attempt(&mut self, rt: &impl Abort, access: Access) -> Option<Broken>
        requires { NamesPosition F.Fn self.old }
        ensures { NamesPosition F.Fn self.new }
    {
        assert!(rt; self.zones > 0);
        let mut bytes = [0; 4096];
        match access {
            Access::Read => self.ctl.read_word(20, 0).err(),
            Access::Write => self.ctl.write_part(20, 0, 1, 0).err(),
            Access::Get => self.ctl.get_page(20, &mut bytes).err(),
            Access::Put => self.ctl.put_page(20, &bytes).err(),
        }
    }

    /// Asks for the path of a byte, which holds.
    pub(crate) fn asks(&mut self, rt: &impl Abort, page: u32, offset: u16) -> Sealed<D>
        requires { NamesPosition F.Fn self.old }
        ensures { NamesPosition F.Fn self.new }
    {
        assert!(rt; page < 64 * u32::from(self.zones));
        assert!(rt; offset < 4096);
        let Ok(taken) = self.ctl.ask(page, offset) else {
            panic!(rt; "page {page}, offset {offset}");
        };
        assert!(rt; taken.page == page && taken.block_no == (offset / 64) as u8);
        taken.seal()
    }

    /// Reads the first word of a sealed block by its path.
    pub(crate) fn tell_read(&mut self, rt: &impl Abort, sealed: &Sealed<D>) -> Result<u64, Told>
        requires { NamesPosition F.Fn self.old }
        ensures { NamesPosition F.Fn self.new }
    {
        let taken = sealed.taken();
        assert!(rt; taken.page < 64 * u32::from(self.zones));
        let offset = 64 * u16::from(taken.block_no);
        self.ctl.tell(sealed, Op::Read { offset })
    }

    /// Reads the first word of a sealed block, which is so, by its path.
    pub(crate) fn tells(&mut self, rt: &impl Abort, sealed: &Sealed<D>, word: u64)
        requires { NamesPosition F.Fn self.old }
        ensures { NamesPosition F.Fn self.new }
    {
        assert_eq!(rt; self.tell_read(rt, sealed), Ok(word));
    }

    /// Is refused a read by a path, since the zone has another root by now.
    pub(crate) fn has_another_root(&mut self, rt: &impl Abort, sealed: &Sealed<D>) -> bool
        requires { NamesPosition F.Fn self.old }
        ensures { NamesPosition F.Fn self.new }
    {
        let asked = sealed.taken().root;
        match self.tell_read(rt, sealed) {
            Err(
                Told::Again {
                    taken_root,
                    root: Some(root),
                },
            ) => taken_root == asked && root != asked,
            _ => false,
        }
    }

    /// Is refused a read by a path, since the zone isn't mounted by now.
    pub(crate) fn has_no_root(&mut self, rt: &impl Abort, sealed: &Sealed<D>) -> bool
        requires { NamesPosition F.Fn self.old }
        ensures { NamesPosition F.Fn self.new }
    {
        let again = Told::Again {
            taken_root: sealed.taken().root,
            root: None,
        };
        self.tell_read(rt, sealed) == Err(again)
    }

    /// Writes the first word of a sealed block by its path.
    pub(crate) fn tell_write(
        &mut self,
        rt: &impl Abort,
        sealed: &Sealed<D>,
        value: u64,
    ) -> Result<u64, Told>
        requires { NamesPosition F.Fn self.old }
        ensures { NamesPosition F.Fn self.new }
    {
        let taken = sealed.taken();
        assert!(rt; taken.page < 64 * u32::from(self.zones));
        let op = Op::Write {
            offset: 64 * u16::from(taken.block_no),
            width: 8,
            value,
        };
        self.ctl.tell(sealed, op)
    }
}

impl<D: Digester, F: Fn(&[SlotUse]) -> usize> Bench<D, F> {
    pub(crate) fn peek(&self, rt: &impl Abort, pa: u64, into: &mut [u8]) {
        self.ctl.trees_hold();
        let end = memory_end(self.zones);
        assert!(rt; MEMORY_START <= pa && pa <= end);
        assert!(rt; into.len() as u64 <= end - pa);
        self.ctl.peek(pa, into);
    }

    pub(crate) fn attack(&mut self, rt: &impl Abort, pa: u64, bytes: &[u8]) -> bool
        requires { NamesPosition F.Fn self.old }
        ensures { NamesPosition F.Fn self.new }
    {
        self.ctl.trees_hold();
        let end = memory_end(self.zones);
        assert!(rt; MEMORY_START <= pa && pa <= end);
        assert!(rt; bytes.len() as u64 <= end - pa);
        self.ctl.attack(pa, bytes)
    }

    /// Turns the lowest bit of a byte.
    pub(crate) fn flip(&mut self, rt: &impl Abort, pa: u64)
        requires { NamesPosition F.Fn self.old }
        ensures { NamesPosition F.Fn self.new }
    {
        let mut byte = [0];
        self.peek(rt, pa, &mut byte);
        byte[0] ^= 1;
        let changed = self.attack(rt, pa, &byte);
        assert!(rt; changed);
    }

    /// The block's bytes as they were last written.
    pub(crate) fn written(&self, rt: &impl Abort, page: u32, block: u8) -> [u8; 64] {
        assert!(rt; page < 64 * u32::from(self.zones));
        assert!(rt; block < 64);
        let mut bytes = [0; 64];
        self.ctl.written(&Place::Block { page, block }, &mut bytes);
        bytes
    }

    pub(crate) fn raw_write(&mut self, rt: &impl Abort, page: u32, offset: u16, word: u64)
        requires { NamesPosition F.Fn self.old }
        ensures { NamesPosition F.Fn self.new }
    {
        assert!(rt; page < 64 * u32::from(self.zones));
        assert!(rt; offset < 4096);
        assert!(rt; offset % 8 == 0);
        self.ctl.raw_write(page, offset, word);
    }

    pub(crate) fn raw_read(&self, rt: &impl Abort, page: u32, offset: u16) -> u64 {
        assert!(rt; page < 64 * u32::from(self.zones));
        assert!(rt; offset < 4096);
        assert!(rt; offset % 8 == 0);
        self.ctl.raw_read(page, offset)
    }

    pub(crate) fn raw_zero(&mut self, rt: &impl Abort, page: u32)
        requires { NamesPosition F.Fn self.old }
        ensures { NamesPosition F.Fn self.new }
    {
        assert!(rt; page < 64 * u32::from(self.zones));
        self.ctl.raw_zero(page);
    }

    pub(crate) fn into_choice(self) -> Choice<F> {
        let Bench { ctl, .. } = self;
        ctl.into_choice()
    }
}
