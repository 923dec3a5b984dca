// Paths that were sealed outside of the controller.
ghost use Rattle.std.specs.Prelude.{◌≡◌, ◌<◌, ◌*◌, ◌/◌, ◌%◌, ◌&&◌, true, None, not, IfErr, IfOk, OnErr, OnOk};
ghost use Rattle.std.specs.Fn.{FnReturnsAt};
ghost use Rattle.mem_slots.specs.Slots.{is_mounted, root_of};
ghost use Rattle.mem_tree.specs.Paths.{first_break};
ghost use Rattle.mem_tree.specs.Words.{taken_path, verdict_of};
ghost use Rattle.mem_ctl.specs.Access.{Leaves};
ghost use Rattle.mem_ctl.specs.Calls.{op_offset, root_stands, tell_of, told};
ghost use Rattle.mem_ctl.specs.Causes.{IsCauseOfTelling};
ghost use Rattle.mem_ctl.specs.Laws.{Obeyed};
ghost use Rattle.mem_ctl.specs.Mounting.{used};
ghost use Rattle.mem_ctl.specs.Opened.{word_of_taken};
ghost use Rattle.mem_ctl.specs.Results.{IsCall};
ghost use Rattle.mem_ctl.specs.Tellings.{IsOpIn, is_whole, told_outcome};
ghost use Rattle.mem_ctl.specs.TreesHold.{IsKept};
ghost use Rattle.mem_ctl.specs.Writes.{word_at};

use crate::broken::Broken;
use crate::ctl::Ctl;
use crate::sealed::check_sealed;
use crate::words::word_in;
use mem_slots::SlotUse;
use mem_tree::{Sealed, Taken, Verdict};
use pl_digest::Digester;

/// What a sealed path of a word is for. Offsets are in the page.
#[derive(Clone, Copy, PartialEq, Eq, Debug)]
pub enum Op {
    /// The word at an offset is read.
    Read { offset: u16 },
    /// The lowest `width` bytes of a value are written at an offset, a multiple of the width.
    Write { offset: u16, width: u8, value: u64 },
}

/// Why a sealed path isn't obeyed.
#[derive(Clone, PartialEq, Eq, Debug, Drop)]
pub enum Told {
    Broken(Broken),
    /// The path holds, and its root isn't the one of the zone's slot by now. It is to be asked for again.
    Again {
        taken_root: [u8; 32],
        root: Option<[u8; 32]>,
    },
}

impl<D: Digester, F: Fn(&[SlotUse]) -> usize> Ctl<D, F> {
    /// Reads or writes a word by its sealed path. The result is the eight bytes, at a multiple of 8, that hold the part, as
    /// they were before.
    pub fn tell(&mut self, sealed: &Sealed<D>, op: Op) -> Result<u64, Told>
        requires page { sealed.now.page < 64 * self.old.0.zones }
        requires op { IsOpIn sealed.now.block_no op }
        ensures call { IsCall (FnReturnsAt F.Fn self.old.1) (tell_of D.digest_of (word_of_taken sealed.now) op) self.old.0 (told_outcome result) self.new.0 }
        ensures word { IfOk result (λ word. word ≡ word_at self.old.0.mirror sealed.now.page (op_offset op / 8 * 8)) }
        ensures pages { OnOk result (Obeyed (word_of_taken sealed.now) op self.old.0 self.new.0) }
        ensures leaves { Leaves D.digest_of self.old.0 self.new.0 }
        ensures refused { OnErr result (self.new.0 ≡ self.old.0) }
        ensures cause { IfErr result (IsCauseOfTelling D.digest_of (word_of_taken sealed.now) self.old.0) }
        ensures choice { self.new.1 ≡ self.old.1 }
    {
        let _zones = self.zones;
        let taken = sealed.taken();
        if self.is_stale(sealed) {
            return Err(Told::Again {
                taken_root: taken.root,
                root: self.slots.find((taken.page / 64) as u8),
            });
        }
        if let Err(broken) = check_sealed(self.zones, &self.mirror, sealed) {
            return Err(Told::Broken(broken));
        }
        let word = word_in(&taken.block, word_start(op));
        self.obey(sealed, op);
        self.count((taken.page / 64) as u8);
        Ok(word)
    }
}

impl<D: Digester, F> Ctl<D, F> {
    // Whether a path's root is the one of its zone's slot.
    fn root_stands(&self, taken: &Taken<D>) -> bool
        requires { taken.now.page < 4096 }
        ensures { result ≡ root_stands taken.now.root (root_of self.now.0.mounted (taken.now.page / 64)) }
    {
        match self.slots.find((taken.page / 64) as u8) {
            Some(root) => taken.root == root,
            None => false,
        }
    }

    // Whether a path holds under another root than the one of its zone's slot, or its zone isn't mounted.
    fn is_stale(&self, sealed: &Sealed<D>) -> bool
        ensures { result ≡ (is_whole (verdict_of (first_break D.digest_of (taken_path sealed.now))) && not (root_stands sealed.now.root (root_of self.now.0.mounted (sealed.now.page / 64)))) }
    {
        is_whole(sealed.verdict()) && !self.root_stands(sealed.taken())
    }

    // Writes by a path that holds and stands; a read changes nothing.
    fn obey(&mut self, sealed: &Sealed<D>, op: Op)
        requires page { sealed.now.page < 64 * self.old.0.zones }
        requires op { IsOpIn sealed.now.block_no op }
        requires mounted { is_mounted self.old.0.mounted (sealed.now.page / 64) ≡ true }
        requires holds { first_break D.digest_of (taken_path sealed.now) ≡ None }
        requires kept { IsKept D.digest_of (told D.digest_of (word_of_taken sealed.now) op self.old.0) }
        ensures { self.new ≡ (told D.digest_of (word_of_taken sealed.now) op self.old.0, self.old.1) }
    {
        match op {
            Op::Read { .. } => {}
            Op::Write {
                offset,
                width,
                value,
            } => {
                let path = sealed.with_part((offset % 64) as u8, width, value);
                let taken = sealed.taken();
                self.store(taken.page, taken.block_no, &path);
            }
        }
    }

    /// Counts one use more of a mounted zone.
    pub(crate) fn count(&mut self, zone: u8)
        requires { is_mounted self.old.0.mounted zone ≡ true }
        ensures { self.new ≡ (used self.old.0 zone, self.old.1) }
    {
        self.slots.used(zone);
    }
}

// Whether a verdict is that the path holds.
fn is_whole(verdict: Verdict) -> bool
    ensures { result ≡ is_whole verdict }
{
    match verdict {
        Verdict::Holds => true,
        Verdict::Breaks(_) => false,
    }
}

// Where in its block the eight bytes begin that hold the part.
fn word_start(op: Op) -> u16
    ensures { result ≡ op_offset op % 64 / 8 * 8 }
{
    let offset = match op {
        Op::Read { offset } => offset,
        Op::Write { offset, .. } => offset,
    };
    offset % 64 / 8 * 8
}
