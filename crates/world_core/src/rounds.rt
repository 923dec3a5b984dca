// Whole rounds: a turn of every hart, of every acknowledgement, and then of the attacker.
ghost use Rattle.std.specs.Prelude.{◌≡◌, ◌<◌, None};
ghost use Rattle.std.specs.Fn.{FnReturnsAt};
ghost use Rattle.mem_slots.specs.Choices.{NamesPosition};
ghost use Rattle.world_machine.specs.Reached.{Reached};
ghost use Rattle.world_machine.specs.Runs.{Finishes, acknowledgements, hart_turns, over_of, remaining, round_of};
ghost use Rattle.world_machine.specs.Steps.{Ran};

use crate::world::World;
use mem_slots::SlotUse;
use pl_base::{Actor, HartNo};
use pl_digest::Digester;
use world_machine::Finished;

impl<D: Digester, F: Fn(&[SlotUse]) -> usize> World<D, F> {
    // A turn of every hart.
    fn turn_harts(&mut self)
        requires { NamesPosition F.Fn self.old.1 }
        ensures ran { Ran D.digest_of (FnReturnsAt F.Fn self.old.1) self.old.0 (hart_turns self.old.0.setup.harts) self.new.0 }
        ensures choice { self.new.1 ≡ self.old.1 }
    {
        let harts = self.setup().parts().harts;
        for hart in 0..harts {
            self.turn(Actor::Hart(HartNo(hart)));
        }
    }

    // A turn of every hart's acknowledgement.
    fn turn_acknowledgements(&mut self)
        requires { NamesPosition F.Fn self.old.1 }
        ensures ran { Ran D.digest_of (FnReturnsAt F.Fn self.old.1) self.old.0 (acknowledgements self.old.0.setup.harts) self.new.0 }
        ensures choice { self.new.1 ≡ self.old.1 }
    {
        let harts = self.setup().parts().harts;
        for hart in 0..harts {
            self.turn(Actor::Ack(HartNo(hart)));
        }
    }

    // A round. Where the run isn't over, some actor moves in it, and fewer events are left.
    fn round(&mut self)
        requires { NamesPosition F.Fn self.old.1 }
        ensures ran { Ran D.digest_of (FnReturnsAt F.Fn self.old.1) self.old.0 (round_of self.old.0.setup) self.new.0 }
        ensures choice { self.new.1 ≡ self.old.1 }
        ensures less { over_of D.digest_of self.old.0 ≡ None → remaining self.new.0 < remaining self.old.0 }
    {
        self.stands();
        self.turn_harts();
        self.turn_acknowledgements();
        self.turn(Actor::Attacker);
    }

    /// Whole rounds until the run is over: a turn of every hart, of every acknowledgement, and then of the attacker. It answers how the run
    /// is over then, and it always returns.
    pub fn finish(&mut self) -> Finished
        requires choice { NamesPosition F.Fn self.old.1 }
        ensures finishes { Finishes D.digest_of (FnReturnsAt F.Fn self.old.1) self.old.0 self.new.0 result }
        ensures choice { self.new.1 ≡ self.old.1 }
    {
        loop {
            if let Some(end) = self.over() {
                return end;
            }
            self.round();
        }
    }
}
