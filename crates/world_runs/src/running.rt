// How a run goes on after an instruction, and how it traps.
ghost use Rattle.std.specs.Prelude.{◌≡◌, ◌<◌, length};
ghost use Rattle.mon_enclave.specs.Records.{enclave_at};
ghost use Rattle.world_events.specs.Conditions.{CanLeave, CanRun};
ghost use Rattle.world_events.specs.Running.{run_now};
ghost use Rattle.world_machine.specs.Running.{fetches_next, leaves, retired_with, retires, traps};

use pl_base::Why;
use pl_digest::Digester;
use rv_alone::Context;
use rv_hart::{Micro, Walk};
use world_events::{Machine, Run};
use world_machine::Under;

// The hart's next event is about the next instruction, after so many.
fn fetch_next<D: Digester, F>(machine: &mut Machine<D, F>, run: Run, count: u32)
    requires { run.hart.0 < length machine.old.0.under }
    ensures { machine.new ≡ (fetches_next machine.old.0 (run_now run) count, machine.old.1) }
{
    let under = Under::Running {
        micro: Micro::Fetching(Walk::Start),
        count,
    };
    machine.go_on(run.hart, under);
}

/// An instruction retires, and leaves this context.
pub(crate) fn retire<D: Digester, F>(machine: &mut Machine<D, F>, run: Run, context: Context)
    requires { CanRun machine.old.0 (run_now run) }
    ensures { machine.new ≡ (retires machine.old.0 (run_now run) (retired_with (enclave_at machine.old.0.enclaves run.e.0) context), machine.old.1) }
{
    machine.set_context(run.e, context);
    let count = run.count + 1;
    if count == run.budget {
        machine.leave(run, count, Why::Budget);
    } else {
        fetch_next(machine, run, count);
    }
}

/// The run leaves its enclave, since it traps.
pub(crate) fn trap<D: Digester, F>(machine: &mut Machine<D, F>, run: Run, cause: u8, value: u64)
    requires { CanLeave machine.old.0 (run_now run) }
    ensures { machine.new ≡ (traps machine.old.0 (run_now run) (enclave_at machine.old.0.enclaves run.e.0) cause value, machine.old.1) }
{
    machine.leave(run, run.count, Why::Trapped { cause, value });
}
