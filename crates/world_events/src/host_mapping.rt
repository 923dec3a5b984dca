// The events of `map` and `unmap`.
ghost use Rattle.std.specs.Prelude.{◌≡◌, ◌<◌, IsTrue, length};
ghost use Rattle.std.specs.Fn.{FnReturnsAt};
ghost use Rattle.std.specs.Option.{IsSomeAnd};
ghost use Rattle.mem_ctl.specs.Stops.{step_answer};
ghost use Rattle.mem_slots.specs.Choices.{NamesPosition};
ghost use Rattle.mon_fence.specs.Fences.{fence_of};
ghost use Rattle.mon_host.specs.Leaves.{IsHostEvent};
ghost use Rattle.mon_host.specs.Mapping.{map_of};
ghost use Rattle.mon_host.specs.Unmapping.{unmap_begun};
ghost use Rattle.mon_owner.specs.Owners.{is_mapped, owner_at};
ghost use Rattle.world_events.specs.Conditions.{CanEndUnmap, CanGo, CanMap, CanUnmap};
ghost use Rattle.world_events.specs.Events.{IsEvent, mapped_by, unmapped_by};
ghost use Rattle.world_events.specs.Turns.{IsTurn};
ghost use Rattle.world_machine.specs.HostMapping.{begins_unmap, ends_unmap, lacked_by, maps};
ghost use Rattle.world_machine.specs.Steps.{waiting_turn};

use crate::machine::Machine;
use mem_ctl::Stop;
use mem_slots::SlotUse;
use mon_host::{map, unmap_begin, unmap_end};
use pl_base::{HartNo, Perms, Space, Va};
use pl_digest::Digester;
use pl_history::Answer;
use world_machine::{Turned, Under, Wait};

impl<D: Digester, F> Machine<D, F> {
    // What the event of `map` answered.
    fn mapped(&mut self, hart: HartNo, done: Result<(), Stop>)
        requires { CanGo self.old.0 hart.0 }
        ensures { self.new ≡ (mapped_by self.old.0 hart.0 (step_answer done), self.old.1) }
    {
        match done {
            Ok(()) => self.answer(hart, Answer::Ok),
            Err(Stop::No(cause)) => self.answer(hart, Answer::No(cause)),
            Err(Stop::Collision(collision)) => self.keep(collision),
        }
    }

    // What the first event of `unmap` answered. The hart drops its own translation at once.
    fn unmapped(&mut self, hart: HartNo, va: Va, begun: Result<u32, Stop>)
        requires can { CanGo self.old.0 hart.0 }
        requires tlbs { hart.0 < length self.old.0.tlbs }
        ensures { self.new ≡ (unmapped_by self.old.0 hart.0 va (step_answer begun), self.old.1) }
    {
        match begun {
            Ok(page) => {
                self.drop_from(hart, Space::HOST, Some(va.vpn()));
                self.begin(hart, Under::Removing { page });
            }
            Err(Stop::No(cause)) => self.answer(hart, Answer::No(cause)),
            Err(Stop::Collision(collision)) => self.keep(collision),
        }
    }

    // The last event of `unmap`: the fence, for which nobody is lacking, is left, and the page has one mapping less.
    fn end_unmap(&mut self, hart: HartNo, page: u32)
        requires can { CanGo self.old.0 hart.0 }
        requires nobody { IsSomeAnd (fence_of self.old.0.fences hart.0) (λ fence. fence.need.0 ≡ 0) }
        requires mapped { IsTrue (is_mapped (owner_at self.old.0.owners page)) }
        ensures { self.new ≡ (ends_unmap self.old.0 hart.0 page, self.old.1) }
    {
        unmap_end(&mut self.owners, &mut self.fences, hart, page);
        self.answer(hart, Answer::Ok);
    }
}

impl<D: Digester, F: Fn(&[SlotUse]) -> usize> Machine<D, F> {
    // Sets the leaf of an address, and counts the mapping.
    fn set_leaf(&mut self, hart: HartNo, va: Va, page: u32, perms: Perms) -> Result<(), Stop>
        requires can { CanMap self.old.0 hart.0 page perms }
        requires choice { NamesPosition F.Fn self.old.1 }
        ensures event { IsHostEvent (FnReturnsAt F.Fn self.old.1) (map_of D.digest_of self.old.0.setup.tables self.old.0.fences self.old.0.owners va page perms)
            self.old.0.ctl (step_answer result) self.new.0.ctl self.new.0.owners }
        ensures rest { self.new ≡ (record self.old.0 { ctl = self.new.0.ctl; owners = self.new.0.owners }, self.old.1) }
    {
        let _hart = hart;
        let tables = self.setup.parts().tables;
        map(
            &mut self.ctl,
            &mut self.owners,
            &self.fences,
            tables,
            va,
            page,
            perms,
        )
    }

    /// `map`.
    pub fn map(&mut self, hart: HartNo, va: Va, page: u32, perms: Perms)
        requires can { CanMap self.old.0 hart.0 page perms }
        requires choice { NamesPosition F.Fn self.old.1 }
        ensures event { IsEvent (FnReturnsAt F.Fn self.old.1) (λ positions. maps D.digest_of self.old.0 hart.0 positions va page perms) self.new.0 }
        ensures choice { self.new.1 ≡ self.old.1 }
    {
        let done = self.set_leaf(hart, va, page, perms);
        self.mapped(hart, done);
    }

    // Clears the leaf of an address, and posts the hart's fence.
    fn clear_leaf(&mut self, hart: HartNo, va: Va) -> Result<u32, Stop>
        requires can { CanUnmap self.old.0 hart.0 }
        requires choice { NamesPosition F.Fn self.old.1 }
        ensures event { IsHostEvent (FnReturnsAt F.Fn self.old.1) (unmap_begun D.digest_of self.old.0.setup.tables self.old.0.fences hart.0 va)
            self.old.0.ctl (step_answer result) self.new.0.ctl self.new.0.fences }
        ensures rest { self.new ≡ (record self.old.0 { ctl = self.new.0.ctl; fences = self.new.0.fences }, self.old.1) }
    {
        let tables = self.setup.parts().tables;
        unmap_begin(&mut self.ctl, &mut self.fences, tables, hart, va)
    }

    /// The first event of `unmap`.
    pub fn begin_unmap(&mut self, hart: HartNo, va: Va)
        requires can { CanUnmap self.old.0 hart.0 }
        requires choice { NamesPosition F.Fn self.old.1 }
        ensures event { IsEvent (FnReturnsAt F.Fn self.old.1) (λ positions. begins_unmap D.digest_of self.old.0 hart.0 positions va) self.new.0 }
        ensures choice { self.new.1 ≡ self.old.1 }
    {
        let begun = self.clear_leaf(hart, va);
        self.unmapped(hart, va, begun);
    }

    /// The turn of an `unmap` that has begun: it waits for the harts that have yet to acknowledge its fence.
    pub fn unmap_turn(&mut self, hart: HartNo, page: u32) -> Turned
        requires can { CanEndUnmap self.old.0 hart.0 page }
        ensures turn { IsTurn (FnReturnsAt F.Fn self.old.1) (λ positions. waiting_turn (ends_unmap self.old.0 hart.0 page) (lacked_by self.old.0 hart.0)) result self.old.0 self.new.0 }
        ensures choice { self.new.1 ≡ self.old.1 }
    {
        match self.fences.waits(hart) {
            Some(harts) => Turned::Blocked(Wait::Acks(harts)),
            None => {
                self.end_unmap(hart, page);
                Turned::Moved
            }
        }
    }
}
