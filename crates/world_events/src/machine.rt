// The parts of the machine, and how a line is begun, goes on, and is answered.
ghost use Rattle.std.specs.Prelude.{◌≡◌, ◌<◌, ◌≤◌, ◌+◌, is_some, slice_set, length, map, option_map, Some};
ghost use Rattle.std.specs.Option.{option_copied};
ghost use Rattle.std.specs.Result.{result_err};
ghost use Rattle.mem_slots.specs.Slots.{use_of};
ghost use Rattle.mon_enclave.specs.Records.{enclave_at};
ghost use Rattle.pl_history.specs.History.{part_end};
ghost use Rattle.world_events.specs.Conditions.{CanAnswer, CanGo};
ghost use Rattle.world_events.specs.Parts.{collision_data};
ghost use Rattle.world_machine.specs.Answering.{answers, begins, entry_now, goes_on, keeps_collision, with_entry};
ghost use Rattle.world_machine.specs.Making.{answers_by, begins_unless};
ghost use Rattle.world_machine.specs.Steps.{counted};
ghost use Rattle.world_machine.specs.Worlds.{answered_at, under_at};

use crate::tlbs::Tlbs;
use mem_ctl::{Collision, Ctl};
use mem_slots::{Choice, SlotUse};
use mon_enclave::Enclaves;
use mon_fence::Fences;
use mon_owner::Owners;
use pl_base::{EncNo, HartNo, Listed, No};
use pl_digest::Digester;
use pl_history::{Answer, Entry, History, Setup};
use rv_alone::Context;
use rv_pmp::Pmp;
use std::marker::Model;
use world_machine::Under;

/// The parts of the machine: its setup, memory controller, owners, records, TLBs, fences, how far each line is, and the history. Contracts see
/// them as plain data, and the rule that names the slot to evict.
///
/// Each call is one event of an actor, or looks at a part. What an event needs is in its `requires`.
#[derive(Drop)]
pub struct Machine<D: Digester, F> {
    pub(crate) setup: Setup,
    pub(crate) pmp: Pmp,
    pub(crate) ctl: Ctl<D, F>,
    pub(crate) owners: Owners,
    pub(crate) enclaves: Enclaves,
    pub(crate) tlbs: Tlbs,
    pub(crate) fences: Fences,
    pub(crate) under: Listed<Under>,
    pub(crate) answered: Listed<u32>,
    pub(crate) history: History,
    pub(crate) collision: Option<Collision>,
    pub(crate) moves: u64,
}

impl<D: Digester, F> Model for Machine<D, F> {
    ghost use Rattle.std.specs.Prelude.{◌≡◌};
    ghost use Rattle.pl_history.specs.Protection.{pmp_of};
    ghost use Rattle.world_events.specs.Parts.{world_data};
    ghost use Rattle.world_machine.specs.Worlds.{WorldData};

    ghost Value = { WorldData × F };

    ghost view = { λ m. (world_data m.setup m.ctl.0 m.owners m.enclaves m.tlbs m.fences m.under m.answered m.history m.collision m.moves, m.ctl.1) };

    ghost invariant = { λ m. m.pmp ≡ pmp_of m.setup };
}

// Adds an entry that names no bytes.
fn add_entry(history: &mut History, entry: Entry)
    requires room { 0 < history.old.entry_room }
    requires part { part_end entry.answer ≡ 0 }
    ensures { history.new ≡ with_entry history.old entry }
{
    history.add(entry);
}

impl<D: Digester, F> Machine<D, F> {
    /// How many lines of an actor are answered; the attacker is the actor after the last hart.
    pub fn answered_by(&self, actor: u8) -> u32
        requires { actor < length self.now.0.answered }
        ensures { result ≡ answered_at self.now.0.answered actor }
    {
        self.answered.as_slice()[usize::from(actor)]
    }

    /// How many lines an actor has answered; 0 where it isn't there.
    pub fn answered_of(&self, actor: u8) -> u32
        ensures { result ≡ answered_at self.now.0.answered actor }
    {
        self.answered.get(usize::from(actor)).copied().unwrap_or(0)
    }

    /// The setup of the run.
    pub fn setup(&self) -> &Setup
        ensures { result.now ≡ self.now.0.setup }
    {
        &self.setup
    }

    /// What was answered so far.
    pub fn history(&self) -> &History
        ensures { result.now ≡ self.now.0.history }
    {
        &self.history
    }

    /// The root of the root table, on chip.
    pub fn root(&self) -> [u8; 32]
        ensures { result ≡ self.now.0.ctl.root }
    {
        self.ctl.root()
    }

    /// The mounted zones with their uses, in order of mounting.
    pub fn mounted(&self) -> &[SlotUse]
        ensures list { result.now ≡ map use_of self.now.0.ctl.mounted }
        ensures few { length result.now ≤ self.now.0.ctl.slots }
    {
        self.ctl.mounted()
    }

    /// The collision that is kept, if one is.
    pub fn collision(&self) -> Option<&Collision>
        ensures { option_map collision_data (option_copied result) ≡ self.now.0.collision }
    {
        self.collision.as_ref()
    }

    /// Whether a collision is kept.
    pub fn is_halted(&self) -> bool
        ensures { result ≡ is_some self.now.0.collision }
    {
        self.collision.is_some()
    }

    /// How many events were counted, up to the greatest count.
    pub fn moves(&self) -> u64
        ensures { result ≡ self.now.0.moves }
    {
        self.moves
    }

    /// Counts a move, up to the greatest count.
    pub fn count_move(&mut self)
        ensures { self.new ≡ (counted self.old.0, self.old.1) }
    {
        self.moves = self.moves.saturating_add(1);
    }

    /// The rule that names the slot to evict, again.
    pub fn into_choice(self) -> Choice<F>
        ensures { result ≡ self.1 }
    {
        let Machine { ctl, .. } = self;
        ctl.into_choice()
    }

    /// How far a hart's line is.
    pub fn under_way(&self, hart: HartNo) -> Under
        requires { hart.0 < length self.now.0.under }
        ensures { result ≡ under_at self.now.0.under hart.0 }
    {
        self.under.as_slice()[usize::from(hart.0)]
    }

    /// The registers of a number, and the address of its next instruction.
    pub fn context(&self, e: EncNo) -> Context
        requires { e.0 < length self.now.0.enclaves }
        ensures { result ≡ (enclave_at self.now.0.enclaves e.0).context }
    {
        self.enclaves.get(e).context
    }

    /// Adds an answer to an actor's first line that isn't answered.
    pub(crate) fn log(&mut self, actor: u8, now: Answer)
        requires can { CanAnswer self.old.0 actor }
        requires part { part_end now ≡ 0 }
        ensures { self.new ≡ (record self.old.0 { history = with_entry self.old.0.history (entry_now self.old.0 actor now) }, self.old.1) }
    {
        let line = self.answered.as_slice()[usize::from(actor)];
        let entry = Entry {
            actor,
            line,
            answer: now,
        };
        add_entry(&mut self.history, entry);
    }

    /// Counts one more answered line of an actor.
    pub(crate) fn count_line(&mut self, actor: u8)
        requires actors { actor < length self.old.0.answered }
        requires few { answered_at self.old.0.answered actor < 65536 }
        ensures { self.new ≡ (record self.old.0 { answered = slice_set self.old.0.answered actor (answered_at self.old.0.answered actor + 1) }, self.old.1) }
    {
        let at = usize::from(actor);
        let line = self.answered.as_slice()[at];
        self.answered.set(at, line + 1);
    }

    /// A begun line goes on.
    pub fn go_on(&mut self, hart: HartNo, under: Under)
        requires { hart.0 < length self.old.0.under }
        ensures { self.new ≡ (goes_on self.old.0 hart.0 under, self.old.1) }
    {
        self.under.set(usize::from(hart.0), under);
    }

    /// A hart's line begins, and is so far.
    pub(crate) fn begin(&mut self, hart: HartNo, under: Under)
        requires { CanGo self.old.0 hart.0 }
        ensures { self.new ≡ (begins self.old.0 hart.0 under, self.old.1) }
    {
        self.log(hart.0, Answer::Begun);
        self.go_on(hart, under);
    }

    /// A hart's line is answered, and its next one hasn't begun.
    pub fn answer(&mut self, hart: HartNo, now: Answer)
        requires can { CanGo self.old.0 hart.0 }
        requires part { part_end now ≡ 0 }
        ensures { self.new ≡ (answers self.old.0 hart.0 now, self.old.1) }
    {
        self.log(hart.0, now);
        self.count_line(hart.0);
        self.go_on(hart, Under::Idle);
    }

    /// A hart's line begins where it isn't refused, and else it is answered.
    pub(crate) fn begin_unless(&mut self, hart: HartNo, under: Under, begun: Result<(), No>)
        requires { CanGo self.old.0 hart.0 }
        ensures { self.new ≡ (begins_unless (result_err begun) self.old.0 hart.0 under, self.old.1) }
    {
        match begun {
            Ok(()) => self.begin(hart, under),
            Err(cause) => self.answer(hart, Answer::No(cause)),
        }
    }

    /// A hart's line is answered at once, by its refusal or `ok`.
    pub(crate) fn answer_by(&mut self, hart: HartNo, done: Result<(), No>)
        requires { CanGo self.old.0 hart.0 }
        ensures { self.new ≡ (answers_by (result_err done) self.old.0 hart.0, self.old.1) }
    {
        match done {
            Ok(()) => self.answer(hart, Answer::Ok),
            Err(cause) => self.answer(hart, Answer::No(cause)),
        }
    }

    /// Keeps a collision; all else stays as it is.
    pub fn keep(&mut self, collision: Collision)
        ensures { self.new ≡ (keeps_collision self.old.0 collision.place collision.held.items collision.written.items, self.old.1) }
    {
        self.collision = Some(collision);
    }
}
