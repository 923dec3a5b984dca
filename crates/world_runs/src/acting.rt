// What a fetched instruction does that neither loads nor stores, and ECALL: 1 is EXIT, 2 is RECV, 3 is SEND (own).
ghost use Rattle.std.specs.Prelude.{◌≡◌, ◌<◌, ◌+◌, length};
ghost use Rattle.mon_enclave.specs.Records.{enclave_at, received_word};
ghost use Rattle.world_events.specs.Conditions.{CanRun};
ghost use Rattle.world_events.specs.Running.{run_now};
ghost use Rattle.world_machine.specs.Answering.{goes_on};
ghost use Rattle.world_machine.specs.Running.{acts, calls, exits, receives, sends};

use crate::running::{retire, trap};
use pl_base::Why;
use pl_digest::Digester;
use rv_alone::{Act, loaded, passed};
use rv_hart::{Micro, Walk};
use world_events::{Machine, Run};
use world_machine::Under;

// The register that RECV puts its word into, `a0`.
const A0: u8 = 10;

// EXIT retires, and leaves `pc`.
fn exit<D: Digester, F>(machine: &mut Machine<D, F>, run: Run, code: u64)
    requires { CanRun machine.old.0 (run_now run) }
    ensures { machine.new ≡ (exits machine.old.0 (run_now run) (enclave_at machine.old.0.enclaves run.e.0) code, machine.old.1) }
{
    let context = machine.context(run.e);
    machine.set_context(run.e, context);
    machine.leave(run, run.count + 1, Why::Ended(code));
}

// RECV puts the next word into `a0`, where there is one.
fn receive<D: Digester, F>(machine: &mut Machine<D, F>, run: Run)
    requires { CanRun machine.old.0 (run_now run) }
    ensures { machine.new ≡ (receives machine.old.0 (run_now run) (enclave_at machine.old.0.enclaves run.e.0) (received_word (enclave_at machine.old.0.enclaves run.e.0)), machine.old.1) }
{
    let context = machine.context(run.e);
    match machine.next_word(run.e) {
        Some(word) => retire(machine, run, loaded(&context, A0, 8, false, word)),
        None => machine.leave(run, run.count, Why::Waiting),
    }
}

// SEND sends a word out, where there is room for it.
fn send_out<D: Digester, F>(machine: &mut Machine<D, F>, run: Run, word: u64)
    requires { CanRun machine.old.0 (run_now run) }
    ensures { machine.new ≡ (sends machine.old.0 (run_now run) (enclave_at machine.old.0.enclaves run.e.0) word, machine.old.1) }
{
    let context = machine.context(run.e);
    if machine.put_out(run.e, word) {
        retire(machine, run, passed(&context));
    } else {
        machine.leave(run, run.count, Why::OutFull);
    }
}

// An ECALL.
fn call<D: Digester, F>(machine: &mut Machine<D, F>, run: Run, number: u64, value: u64)
    requires { CanRun machine.old.0 (run_now run) }
    ensures { machine.new ≡ (calls machine.old.0 (run_now run) (enclave_at machine.old.0.enclaves run.e.0) number value, machine.old.1) }
{
    match number {
        1 => exit(machine, run, value),
        2 => receive(machine, run),
        3 => send_out(machine, run, value),
        _ => trap(machine, run, 8, number),
    }
}

/// Does what a fetched word says; for a load or a store, its data is sought next.
pub(crate) fn act<D: Digester, F>(machine: &mut Machine<D, F>, run: Run, word: u32, act: Act)
    requires { CanRun machine.old.0 (run_now run) }
    ensures { machine.new ≡ (acts machine.old.0 (run_now run) (enclave_at machine.old.0.enclaves run.e.0) word act, machine.old.1) }
{
    match act {
        Act::Set(context) => retire(machine, run, context),
        Act::Load { .. } => seek(machine, run, word),
        Act::Store { .. } => seek(machine, run, word),
        Act::Call { number, value } => call(machine, run, number, value),
        Act::Trap { cause, value } => trap(machine, run, cause, value),
    }
}

// The hart's next event reaches the data of this instruction.
fn seek<D: Digester, F>(machine: &mut Machine<D, F>, run: Run, word: u32)
    requires { run.hart.0 < length machine.old.0.under }
    ensures { machine.new ≡ (goes_on machine.old.0 run.hart.0 (Under.Running (Micro.Reaching word Walk.Start) run.count), machine.old.1) }
{
    let under = Under::Running {
        micro: Micro::Reaching {
            word,
            walk: Walk::Start,
        },
        count: run.count,
    };
    machine.go_on(run.hart, under);
}
