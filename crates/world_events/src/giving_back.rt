// The events of `destroy`, and that of `drop`.
ghost use Rattle.std.specs.Prelude.{◌≡◌, ◌<◌, length};
ghost use Rattle.std.specs.Fn.{FnReturnsAt};
ghost use Rattle.std.specs.Option.{IsSomeAnd};
ghost use Rattle.std.specs.Result.{result_err};
ghost use Rattle.mon_fence.specs.Fences.{fence_of};
ghost use Rattle.mon_life.specs.Destroying.{destroy_begun};
ghost use Rattle.mon_shadow.specs.Dropping.{shadow_dropped};
ghost use Rattle.world_events.specs.Conditions.{CanDestroy, CanDrop, CanEndDestroy, CanGo};
ghost use Rattle.world_events.specs.Turns.{IsTurn};
ghost use Rattle.world_machine.specs.GivingBack.{begins_destroy, destroys_unless, drops_shadow, ends_destroy};
ghost use Rattle.world_machine.specs.HostMapping.{lacked_by};
ghost use Rattle.world_machine.specs.Steps.{waiting_turn};

use crate::machine::Machine;
use mem_slots::SlotUse;
use mon_life::{destroy_begin, destroy_end};
use mon_shadow::drop_shadow;
use pl_base::{EncNo, HartNo, No, Space};
use pl_digest::Digester;
use pl_history::Answer;
use world_machine::{Turned, Under, Wait};

impl<D: Digester, F> Machine<D, F> {
    // The number is dying, and the hart posts its fence of all of the number's space.
    fn post_destroy(&mut self, hart: HartNo, e: EncNo) -> Result<(), No>
        requires can { CanDestroy self.old.0 hart.0 e.0 }
        ensures refusal { result_err result ≡ (destroy_begun self.old.0.enclaves self.old.0.fences hart.0 e).refusal }
        ensures world { self.new ≡ (record self.old.0 { enclaves = (destroy_begun self.old.0.enclaves self.old.0.fences hart.0 e).enclaves; fences = (destroy_begun self.old.0.enclaves self.old.0.fences hart.0 e).fences }, self.old.1) }
    {
        destroy_begin(&mut self.enclaves, &mut self.fences, hart, e)
    }

    // The line begins where it isn't refused, and the hart then drops its own translations of the number's space at once.
    fn begin_destroying(&mut self, hart: HartNo, e: EncNo, begun: Result<(), No>)
        requires can { CanGo self.old.0 hart.0 }
        requires tlbs { hart.0 < length self.old.0.tlbs }
        ensures { self.new ≡ (destroys_unless (result_err begun) self.old.0 hart.0 e, self.old.1) }
    {
        match begun {
            Ok(()) => {
                self.drop_from(hart, Space::of_number(e), None);
                self.begin(hart, Under::Destroying);
            }
            Err(cause) => self.answer(hart, Answer::No(cause)),
        }
    }

    /// The first event of `destroy`.
    pub fn begin_destroy(&mut self, hart: HartNo, e: EncNo)
        requires { CanDestroy self.old.0 hart.0 e.0 }
        ensures { self.new ≡ ((begins_destroy self.old.0 hart.0 e).world, self.old.1) }
    {
        let begun = self.post_destroy(hart, e);
        self.begin_destroying(hart, e, begun);
    }

    // The last event of `destroy`: nobody is lacking, all pages of the number are zeroed and the host's, and the number is free.
    fn end_destroy(&mut self, hart: HartNo, e: EncNo)
        requires can { CanEndDestroy self.old.0 hart.0 e.0 }
        requires nobody { IsSomeAnd (fence_of self.old.0.fences hart.0) (λ fence. fence.need.0 ≡ 0) }
        ensures { self.new ≡ (ends_destroy self.old.0 hart.0 e, self.old.1) }
    {
        destroy_end(
            &mut self.ctl,
            &mut self.owners,
            &mut self.enclaves,
            &mut self.fences,
            hart,
            e,
        );
        self.answer(hart, Answer::Ok);
    }

    // Zeroes the pages of a shadow and gives them back, and frees its number.
    fn give_shadow_back(&mut self, hart: HartNo, s: EncNo) -> Result<(), No>
        requires can { CanDrop self.old.0 hart.0 s.0 }
        ensures refusal { result_err result ≡ (shadow_dropped self.old.0.ctl self.old.0.owners self.old.0.enclaves s.0).refusal }
        ensures world { self.new ≡ (
          record self.old.0 {
            ctl = (shadow_dropped self.old.0.ctl self.old.0.owners self.old.0.enclaves s.0).ctl;
            owners = (shadow_dropped self.old.0.ctl self.old.0.owners self.old.0.enclaves s.0).owners;
            enclaves = (shadow_dropped self.old.0.ctl self.old.0.owners self.old.0.enclaves s.0).enclaves;
          },
          self.old.1,
        ) }
    {
        let _hart = hart;
        drop_shadow(&mut self.ctl, &mut self.owners, &mut self.enclaves, s)
    }

    /// `drop`.
    pub fn drop_shadow(&mut self, hart: HartNo, s: EncNo)
        requires { CanDrop self.old.0 hart.0 s.0 }
        ensures { self.new ≡ ((drops_shadow self.old.0 hart.0 s.0).world, self.old.1) }
    {
        let dropped = self.give_shadow_back(hart, s);
        self.answer_by(hart, dropped);
    }
}

impl<D: Digester, F: Fn(&[SlotUse]) -> usize> Machine<D, F> {
    /// The turn of a `destroy` that has begun: it waits for the harts that have yet to acknowledge its fence.
    pub fn destroy_turn(&mut self, hart: HartNo, e: EncNo) -> Turned
        requires can { CanEndDestroy self.old.0 hart.0 e.0 }
        ensures turn { IsTurn (FnReturnsAt F.Fn self.old.1) (λ positions. waiting_turn (ends_destroy self.old.0 hart.0 e) (lacked_by self.old.0 hart.0)) result self.old.0 self.new.0 }
        ensures choice { self.new.1 ≡ self.old.1 }
    {
        match self.fences.waits(hart) {
            Some(harts) => Turned::Blocked(Wait::Acks(harts)),
            None => {
                self.end_destroy(hart, e);
                Turned::Moved
            }
        }
    }
}
