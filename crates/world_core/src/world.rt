// The world: the machine in a state that a run of its setup reaches.
ghost use Rattle.std.specs.Prelude.{◌≡◌, ◌≢◌, ℕ, List, IfSome, IfOk, IsTrue, option_map, map, length, ◌≤◌, ◌<◌};
ghost use Rattle.std.specs.Fn.{FnReturnsAt};
ghost use Rattle.std.specs.Option.{option_copied};
ghost use Rattle.mem_slots.specs.Choices.{NamesPosition};
ghost use Rattle.pl_io.specs.Puts.{Puts};
ghost use Rattle.world_core.specs.Report.{world_report};
ghost use Rattle.mem_slots.specs.Slots.{use_of};
ghost use Rattle.pl_history.specs.Rules.{is_actor};
ghost use Rattle.world_machine.specs.Adding.{AnswersAtMostOne, moves_after};
ghost use Rattle.world_machine.specs.Reached.{Reached, opening_world};
ghost use Rattle.world_events.specs.Parts.{collision_data};
ghost use Rattle.world_machine.specs.Runs.{over_of};
ghost use Rattle.world_machine.specs.Standing.{Kept};
ghost use Rattle.world_machine.specs.Steps.{StepOf, turn_of, turned_by};
ghost use Rattle.world_machine.specs.Worlds.{tlb_at};

use crate::over::over;
use crate::report::put_report;
use crate::turns::turn;
use mem_ctl::Collision;
use mem_slots::{Choice, SlotUse};
use pl_base::{Actor, Failed, HartNo, Memory};
use pl_digest::Digester;
use pl_history::{History, Setup};
use pl_io::Sink;
use rv_tlb::Tlb;
use std::alloc::Global;
use std::marker::Model;
use world_events::Machine;
use world_machine::{Finished, Turned, numbers_fit};

/// A setup's harts, enclaves, memory controller and history, at some point of a run. Contracts see the world as plain data, and the rule
/// that names the slot to evict.
///
/// Every world is one that turns reach from the world that `new` gives.
#[derive(Drop)]
pub struct World<D: Digester, F> {
    machine: Machine<D, F>,
}

impl<D: Digester, F> Model for World<D, F> {
    ghost use Rattle.world_machine.specs.Reached.{Reached};
    ghost use Rattle.world_machine.specs.Worlds.{WorldData};

    ghost Value = { WorldData × F };

    ghost view = { λ w. w.machine };

    ghost invariant = { λ w. Reached D.digest_of w.machine.0 };
}

impl<D: Digester, F: Drop> World<D, F> {
    /// The world with which a run of a setup begins. It takes all memory that the run needs, and fails for want of memory alone.
    pub fn new(
        alloc: Global,
        digester: D,
        setup: Setup,
        choice: Choice<F>,
    ) -> Result<World<D, F>, Memory>
        ensures { IfOk result (λ world. world ≡ (opening_world D.digest_of setup, choice)) }
    {
        let _rules = setup.parts();
        numbers_fit(&setup);
        let machine = Machine::opening(alloc, digester, setup, choice)?;
        Ok(World { machine })
    }
}

impl<D: Digester, F: Fn(&[SlotUse]) -> usize> World<D, F> {
    /// An actor's turn: its next event, or why it makes none. Anything but `Moved` changes nothing. At most one answer joins the history, to
    /// the actor's first line that isn't answered; an acknowledgement answers nothing. The hart, if it is one, is there.
    pub fn turn(&mut self, actor: Actor) -> Turned
        requires actor { IsTrue (is_actor self.old.0.setup.harts actor) }
        requires choice { NamesPosition F.Fn self.old.1 }
        ensures step { StepOf D.digest_of (FnReturnsAt F.Fn self.old.1) self.old.0 actor self.new.0 }
        ensures turned { (positions : List ℕ) → result ≡ turned_by (turn_of D.digest_of self.old.0 actor positions) }
        ensures still { result ≢ Turned.Moved → self.new ≡ self.old }
        ensures answer { AnswersAtMostOne self.old.0 actor self.new.0 }
        ensures moves { self.new.0.moves ≡ moves_after result self.old.0.moves }
        ensures choice { self.new.1 ≡ self.old.1 }
    {
        turn(&mut self.machine, actor)
    }
}

impl<D: Digester, F> World<D, F> {
    /// How the run is over, if it is: a collision is kept, or all lines are answered, or each actor with lines left waits for another.
    pub fn over(&self) -> Option<Finished>
        ensures { result ≡ over_of D.digest_of self.now.0 }
    {
        over(&self.machine)
    }

    /// What every world keeps: turns reach it from the world that its run begins with, so its history is legal, and it stands to the abstract
    /// monitor's state that this history gives. It does nothing.
    pub fn stands(&self)
        ensures reached { Reached D.digest_of self.now.0 }
        ensures kept { Kept D.digest_of self.now.0 }
    {
        let _machine = &self.machine;
    }

    /// The collision that is kept, if one is: two unequal strings of bytes of one digest.
    pub fn collision(&self) -> Option<&Collision>
        ensures { option_map collision_data (option_copied result) ≡ self.now.0.collision }
    {
        self.machine.collision()
    }

    /// How many events were made so far, up to the greatest count.
    pub fn moves(&self) -> u64
        ensures { result ≡ self.now.0.moves }
    {
        self.machine.moves()
    }

    /// The setup of the run.
    pub fn setup(&self) -> &Setup
        ensures { result.now ≡ self.now.0.setup }
    {
        self.machine.setup()
    }

    /// What was answered so far: a legal history.
    pub fn history(&self) -> &History
        ensures history { result.now ≡ self.now.0.history }
        ensures kept { Kept D.digest_of self.now.0 }
    {
        self.machine.history()
    }

    /// The translations that a hart has. The hart is there.
    pub fn tlb(&self, h: HartNo) -> &Tlb
        requires { h.0 < self.now.0.setup.harts }
        ensures { result.now ≡ tlb_at self.now.0.tlbs h.0 }
    {
        self.machine.tlb(h)
    }

    /// The root of the root table, on chip.
    pub fn root(&self) -> [u8; 32]
        ensures { result ≡ self.now.0.ctl.root }
    {
        self.machine.root()
    }

    /// The mounted zones with their uses, in order of mounting.
    pub fn mounted(&self) -> &[SlotUse]
        ensures list { result.now ≡ map use_of self.now.0.ctl.mounted }
        ensures few { length result.now ≤ self.now.0.ctl.slots }
    {
        self.machine.mounted()
    }

    /// Writes the report of a run that is over: the root on chip, the mounted zones, and how it ended.
    pub fn put_report<K: Sink>(&self, sink: &mut K) -> Result<(), Failed>
        requires over { over_of D.digest_of self.now.0 ≢ None }
        ensures { IfSome (over_of D.digest_of self.now.0) (λ end. Puts (K.written sink.old) (K.written sink.new) (K.faults sink.old) (K.faults sink.new) (world_report self.now.0 end) result) }
    {
        let Some(end) = self.over() else {
            return Ok(());
        };
        let root = self.root();
        put_report(sink, &root, self.mounted(), self.collision(), end)
    }

    /// The rule that names the slot to evict, again.
    pub fn into_choice(self) -> Choice<F>
        ensures { result ≡ self.1 }
    {
        let World { machine } = self;
        machine.into_choice()
    }
}
