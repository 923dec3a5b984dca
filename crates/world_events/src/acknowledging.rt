// The event of an acknowledgement: the hart drops what a fence of another one covers, and an access under way there starts anew.
ghost use Rattle.std.specs.Prelude.{◌≡◌, ◌<◌, IfSome, IsTrue, Some, length, option_map};
ghost use Rattle.std.specs.Fn.{FnReturnsAt};
ghost use Rattle.mon_fence.specs.Fences.{acked, fence_of, needs};
ghost use Rattle.world_events.specs.Conditions.{CanAcknowledge};
ghost use Rattle.world_events.specs.Acknowledging.{micro_restarted, restarted_due};
ghost use Rattle.world_events.specs.Turns.{IsTurn};
ghost use Rattle.world_machine.specs.Acknowledging.{acknowledged, owed};
ghost use Rattle.world_machine.specs.Steps.{ack_turn};

use crate::dues::Due;
use crate::machine::Machine;
use mem_slots::SlotUse;
use mon_fence::Fence;
use pl_base::{HartNo, Space};
use pl_digest::Digester;
use rv_hart::{Micro, Walk};
use world_machine::{Turned, Under};

// Where an instruction is after a fence of a space was acknowledged: that of an enclave in this space starts anew.
fn restarted_micro(space: Space, due: Due, micro: Micro) -> Micro
    ensures { result ≡ micro_restarted space due micro }
{
    match due {
        Due::Run { e, .. } if space == Space::of_number(e) => Micro::Fetching(Walk::Start),
        _ => micro,
    }
}

// How far a line is after a fence of a space was acknowledged.
fn restarted(space: Space, due: Due, under: Under) -> Under
    ensures { result ≡ restarted_due space due under }
{
    match under {
        Under::Seeking { .. } if space == Space::HOST => Under::Seeking { walk: Walk::Start },
        Under::Running { micro, count } => Under::Running {
            micro: restarted_micro(space, due, micro),
            count,
        },
        _ => under,
    }
}

impl<D: Digester, F> Machine<D, F> {
    /// The hart with the lowest number whose fence needs this one.
    pub fn owed(&self, hart: HartNo) -> Option<HartNo>
        requires { hart.0 < length self.now.0.fences }
        ensures lowest { result ≡ option_map (λ requester. record { 0 = requester }) (owed self.now.0.fences hart.0) }
        ensures needed { IfSome result (λ requester. IsTrue (needs (fence_of self.now.0.fences requester.0) hart.0)) }
    {
        self.fences.owed(hart)
    }

    // The fence of another hart needs this one no more. The answer is the fence as it was.
    fn ack(&mut self, hart: HartNo, requester: HartNo) -> Fence
        requires hart { hart.0 < length self.old.0.fences }
        requires needed { IsTrue (needs (fence_of self.old.0.fences requester.0) hart.0) }
        ensures fence { Some result ≡ fence_of self.old.0.fences requester.0 }
        ensures world { self.new ≡ (record self.old.0 { fences = acked self.old.0.fences hart.0 requester.0 }, self.old.1) }
    {
        self.fences.ack(hart, requester)
    }

    // A hart acknowledges the fence of another one, which needs it.
    fn acknowledge(&mut self, hart: HartNo, requester: HartNo)
        requires can { CanAcknowledge self.old.0 hart.0 }
        requires needed { IsTrue (needs (fence_of self.old.0.fences requester.0) hart.0) }
        ensures { self.new ≡ (acknowledged self.old.0 hart.0 requester.0 (fence_of self.old.0.fences requester.0), self.old.1) }
    {
        let due = self.due(hart);
        let under = self.under_way(hart);
        let fence = self.ack(hart, requester);
        self.drop_from(hart, fence.space, fence.vpn);
        self.go_on(hart, restarted(fence.space, due, under));
    }
}

impl<D: Digester, F: Fn(&[SlotUse]) -> usize> Machine<D, F> {
    /// The turn of a hart's acknowledgement.
    pub fn ack_turn(&mut self, hart: HartNo) -> Turned
        requires can { CanAcknowledge self.old.0 hart.0 }
        ensures turn { IsTurn (FnReturnsAt F.Fn self.old.1) (λ positions. ack_turn self.old.0 hart.0 (owed self.old.0.fences hart.0)) result self.old.0 self.new.0 }
        ensures choice { self.new.1 ≡ self.old.1 }
    {
        match self.owed(hart) {
            Some(requester) => {
                self.acknowledge(hart, requester);
                Turned::Moved
            }
            None => Turned::Nothing,
        }
    }
}
