// The last event of an instruction's access, in its page.
ghost use Rattle.std.specs.Prelude.{◌≡◌, ◌<◌, ◌*◌, ◌%◌, IsTrue, Some};
ghost use Rattle.std.specs.Fn.{FnReturnsAt};
ghost use Rattle.pl_base.specs.Width.{is_width};
ghost use Rattle.mem_ctl.specs.Results.{outcome_of};
ghost use Rattle.mem_slots.specs.Choices.{NamesPosition};
ghost use Rattle.world_events.specs.Conditions.{CanRun};
ghost use Rattle.world_events.specs.Events.{IsEvent};
ghost use Rattle.world_events.specs.Running.{run_now, runner};
ghost use Rattle.world_machine.specs.Answering.{decided};
ghost use Rattle.world_machine.specs.Pages.{part_of_word, word_offset};
ghost use Rattle.world_machine.specs.Running.{fetched_in, loads_in, stores_in};
ghost use Rattle.world_runs.specs.Running.{fetch_goes, load_goes, run_faults, store_goes};

use crate::acting::act;
use crate::running::retire;
use mem_ctl::Broken;
use mem_slots::SlotUse;
use pl_base::{PAGE_BYTES, Why};
use pl_digest::Digester;
use rv_alone::{loaded, next, passed};
use world_events::{Machine, Run};

// The offset in its page of the eight bytes, at a multiple of 8, that hold a part at an address.
fn word_offset(address: u64) -> u16
    ensures { result ≡ word_offset address }
{
    (address % 4096 / 8 * 8) as u16
}

// A part of so many bytes at an address, of the eight bytes that hold it.
fn part_of_word(word: u64, address: u64, width: u8) -> u64
    requires { IsTrue (is_width width) }
    ensures { result ≡ part_of_word word address width }
{
    let part = word >> (8 * (address % 8));
    if width == 8 {
        return part;
    }
    part % (1u64 << (8 * width))
}

// What the fetch of an instruction comes to.
fn after_fetch<D: Digester, F>(machine: &mut Machine<D, F>, run: Run, eight: Result<u64, Broken>)
    requires { CanRun machine.old.0 (run_now run) }
    ensures { machine.new ≡ (decided machine.old.0 (fetch_goes (run_now run) machine.old.0) (run_faults (run_now run) machine.old.0) (outcome_of eight), machine.old.1) }
{
    match eight {
        Ok(eight) => {
            let context = machine.context(run.e);
            let word = part_of_word(eight, context.pc, 4) as u32;
            act(machine, run, word, next(&context, word));
        }
        Err(Broken::Fault(place)) => machine.leave(run, run.count, Why::Fault(place)),
        Err(Broken::Collision(collision)) => machine.keep(collision),
    }
}

// What a load comes to.
fn after_load<D: Digester, F>(
    machine: &mut Machine<D, F>,
    run: Run,
    address: u64,
    width: u8,
    signed: bool,
    rd: u8,
    eight: Result<u64, Broken>,
)
    requires can { CanRun machine.old.0 (run_now run) }
    requires width { IsTrue (is_width width) }
    requires rd { rd < 32 }
    ensures { machine.new ≡ (decided machine.old.0 (load_goes (run_now run) address width signed rd machine.old.0) (run_faults (run_now run) machine.old.0) (outcome_of eight), machine.old.1) }
{
    match eight {
        Ok(eight) => {
            let context = machine.context(run.e);
            let part = part_of_word(eight, address, width);
            retire(machine, run, loaded(&context, rd, width, signed, part));
        }
        Err(Broken::Fault(place)) => machine.leave(run, run.count, Why::Fault(place)),
        Err(Broken::Collision(collision)) => machine.keep(collision),
    }
}

// What a store comes to.
fn after_store<D: Digester, F>(machine: &mut Machine<D, F>, run: Run, done: Result<(), Broken>)
    requires { CanRun machine.old.0 (run_now run) }
    ensures { machine.new ≡ (decided machine.old.0 (store_goes (run_now run) machine.old.0) (run_faults (run_now run) machine.old.0) (outcome_of done), machine.old.1) }
{
    match done {
        Ok(()) => {
            let context = machine.context(run.e);
            retire(machine, run, passed(&context));
        }
        Err(Broken::Fault(place)) => machine.leave(run, run.count, Why::Fault(place)),
        Err(Broken::Collision(collision)) => machine.keep(collision),
    }
}

/// The word at `pc` is read, in this page.
pub(crate) fn fetch_in<D: Digester, F: Fn(&[SlotUse]) -> usize>(
    machine: &mut Machine<D, F>,
    run: Run,
    page: u32,
)
    requires can { CanRun machine.old.0 (run_now run) }
    requires page { page < 64 * machine.old.0.ctl.zones }
    requires choice { NamesPosition F.Fn machine.old.1 }
    ensures event { IsEvent (FnReturnsAt F.Fn machine.old.1) (λ positions. fetched_in D.digest_of machine.old.0 (run_now run) (runner machine.old.0 (run_now run)) positions (Some page)) machine.new.0 }
    ensures choice { machine.new.1 ≡ machine.old.1 }
{
    let pc = machine.context(run.e).pc;
    let eight = machine.read(page, word_offset(pc));
    after_fetch(machine, run, eight);
}

/// The data of a load is read, in this page.
pub(crate) fn load_in<D: Digester, F: Fn(&[SlotUse]) -> usize>(
    machine: &mut Machine<D, F>,
    run: Run,
    address: u64,
    width: u8,
    signed: bool,
    rd: u8,
    page: u32,
)
    requires can { CanRun machine.old.0 (run_now run) }
    requires width { IsTrue (is_width width) }
    requires rd { rd < 32 }
    requires page { page < 64 * machine.old.0.ctl.zones }
    requires choice { NamesPosition F.Fn machine.old.1 }
    ensures event { IsEvent (FnReturnsAt F.Fn machine.old.1) (λ positions. loads_in D.digest_of machine.old.0 (run_now run) (runner machine.old.0 (run_now run)) positions address width signed rd (Some page)) machine.new.0 }
    ensures choice { machine.new.1 ≡ machine.old.1 }
{
    let eight = machine.read(page, word_offset(address));
    after_load(machine, run, address, width, signed, rd, eight);
}

/// The data of a store is written, in this page.
pub(crate) fn store_in<D: Digester, F: Fn(&[SlotUse]) -> usize>(
    machine: &mut Machine<D, F>,
    run: Run,
    address: u64,
    width: u8,
    value: u64,
    page: u32,
)
    requires can { CanRun machine.old.0 (run_now run) }
    requires width { IsTrue (is_width width) }
    requires aligned { address % width ≡ 0 }
    requires page { page < 64 * machine.old.0.ctl.zones }
    requires choice { NamesPosition F.Fn machine.old.1 }
    ensures event { IsEvent (FnReturnsAt F.Fn machine.old.1) (λ positions. stores_in D.digest_of machine.old.0 (run_now run) (runner machine.old.0 (run_now run)) positions address width value (Some page)) machine.new.0 }
    ensures choice { machine.new.1 ≡ machine.old.1 }
{
    let done = machine.write(page, (address % PAGE_BYTES) as u16, width, value);
    after_store(machine, run, done);
}
