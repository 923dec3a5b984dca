// How `run` and `resume` begin, how the number goes on, and how a run is left.
ghost use Rattle.std.specs.Prelude.{◌≡◌, ◌<◌, ◌-◌, ◌^◌, length};
ghost use Rattle.mon_enclave.specs.Records.{enclave_at};
ghost use Rattle.world_events.specs.Conditions.{CanGo, CanLeave, with_record};
ghost use Rattle.world_events.specs.Running.{run_now};
ghost use Rattle.world_events.specs.Translating.{request_now};
ghost use Rattle.world_machine.specs.Running.{begin_run, leaves, retired_with, run_request};

use crate::machine::Machine;
use crate::translating::{Request, number_view};
use mon_life::run_begin;
use pl_base::{EncNo, HartNo, Kind, Va, Why};
use pl_digest::Digester;
use pl_history::Answer;
use rv_alone::Context;
use rv_hart::{Micro, Walk};
use world_machine::Under;

/// A run under way, with its hart and its number.
#[derive(Clone, Copy)]
pub struct Run {
    pub hart: HartNo,
    pub e: EncNo,
    /// How many instructions the line may retire.
    pub budget: u32,
    /// How many retired since the line began.
    pub count: u32,
}

impl<D: Digester, F> Machine<D, F> {
    /// `run` begins, and `resume`, which isn't the first run.
    pub fn begin_run(&mut self, hart: HartNo, e: EncNo, first: bool)
        requires can { CanGo self.old.0 hart.0 }
        requires number { e.0 < length self.old.0.enclaves }
        ensures { self.new ≡ ((begin_run self.old.0 hart.0 e.0 first).world, self.old.1) }
    {
        let begun = run_begin(&mut self.enclaves, hart, e, first);
        let under = Under::Running {
            micro: Micro::Fetching(Walk::Start),
            count: 0,
        };
        self.begin_unless(hart, under, begun);
    }

    /// The run leaves its enclave, and shows all words that the enclave sent out.
    pub fn leave(&mut self, run: Run, count: u32, why: Why)
        requires { CanLeave self.old.0 (run_now run) }
        ensures { self.new ≡ (leaves self.old.0 (run_now run) (enclave_at self.old.0.enclaves run.e.0) count why, self.old.1) }
    {
        self.enclaves.left(run.e, why);
        self.answer(run.hart, Answer::Left { count, why });
    }

    /// One more instruction of a number is retired, and leaves this context.
    pub fn set_context(&mut self, e: EncNo, context: Context)
        requires number { e.0 < length self.old.0.enclaves }
        requires count { (enclave_at self.old.0.enclaves e.0).retired < 2 ^ 64 - 1 }
        ensures { self.new ≡ (with_record self.old.0 e.0 (retired_with (enclave_at self.old.0.enclaves e.0) context), self.old.1) }
    {
        self.enclaves.retire(e, context);
    }

    /// An access of an instruction as its hart translates it.
    pub fn run_request(&self, run: Run, va: u64, kind: Kind) -> Request
        ensures { request_now result ≡ run_request self.now.0 (run_now run) va kind }
    {
        Request {
            hart: run.hart,
            va: Va(va),
            kind,
            view: number_view(self.setup.parts().tables, run.e),
        }
    }
}
