// Where no page serves an access: the enclave traps, or, where a page that it shares would, that is broken (copy on write).
ghost use Rattle.std.specs.Prelude.{◌≡◌, ◌<◌, OnErr, length};
ghost use Rattle.std.specs.Fn.{FnReturnsAt};
ghost use Rattle.mem_ctl.specs.Results.{outcome_of};
ghost use Rattle.mem_slots.specs.Choices.{NamesPosition};
ghost use Rattle.world_events.specs.Conditions.{CanBreak, CanBreakAt, CanLeave};
ghost use Rattle.world_events.specs.Events.{IsEvent};
ghost use Rattle.world_events.specs.Running.{run_now, runner};
ghost use Rattle.world_machine.specs.Answering.{decided};
ghost use Rattle.world_machine.specs.Pages.{fault_cause};
ghost use Rattle.world_machine.specs.Running.{breaks_or_leaves, breaks_page, page_faults};
ghost use Rattle.world_runs.specs.Running.{break_goes, run_faults};

use crate::running::trap;
use mem_ctl::Broken;
use mem_slots::SlotUse;
use mon_tables::vpn_of_page;
use pl_base::{Kind, Space, Why};
use pl_digest::Digester;
use world_events::{Machine, Run};
use world_machine::Under;

// The cause of the trap where no page lets an access through.
fn fault_cause(kind: Kind) -> u8
    ensures { result ≡ fault_cause kind }
{
    match kind {
        Kind::Fetch => 12,
        Kind::Load => 13,
        Kind::Store => 15,
    }
}

// What the break of a page came to. The hart drops its own translation of the page at once.
fn broke<D: Digester, F>(
    machine: &mut Machine<D, F>,
    run: Run,
    index: u32,
    done: Result<(), Broken>,
)
    requires can { OnErr done (CanLeave machine.old.0 (run_now run)) }
    requires harts { run.hart.0 < length machine.old.0.under }
    requires tlbs { run.hart.0 < length machine.old.0.tlbs }
    ensures { machine.new ≡ (decided machine.old.0 (break_goes (run_now run) index machine.old.0) (run_faults (run_now run) machine.old.0) (outcome_of done), machine.old.1) }
{
    match done {
        Ok(()) => {
            machine.drop_from(run.hart, Space::of_number(run.e), Some(vpn_of_page(index)));
            let under = Under::Breaking {
                count: run.count,
                index,
            };
            machine.go_on(run.hart, under);
        }
        Err(Broken::Fault(place)) => machine.leave(run, run.count, Why::Fault(place)),
        Err(Broken::Collision(collision)) => machine.keep(collision),
    }
}

// A page is broken, for which there is a spare.
fn break_page<D: Digester, F: Fn(&[SlotUse]) -> usize>(
    machine: &mut Machine<D, F>,
    run: Run,
    index: u32,
)
    requires can { CanBreakAt machine.old.0 (run_now run) index }
    requires spare { 0 < length (runner machine.old.0 (run_now run)).spares }
    requires choice { NamesPosition F.Fn machine.old.1 }
    ensures event { IsEvent (FnReturnsAt F.Fn machine.old.1) (λ positions. breaks_page D.digest_of machine.old.0 (run_now run) (runner machine.old.0 (run_now run)) positions index) machine.new.0 }
    ensures choice { machine.new.1 ≡ machine.old.1 }
{
    let done = machine.copy_page(run, index);
    broke(machine, run, index, done);
}

// A page is to be broken, which needs a spare.
fn break_or_leave<D: Digester, F: Fn(&[SlotUse]) -> usize>(
    machine: &mut Machine<D, F>,
    run: Run,
    index: u32,
)
    requires can { CanBreakAt machine.old.0 (run_now run) index }
    requires choice { NamesPosition F.Fn machine.old.1 }
    ensures event { IsEvent (FnReturnsAt F.Fn machine.old.1) (λ positions. breaks_or_leaves D.digest_of machine.old.0 (run_now run) (runner machine.old.0 (run_now run)) positions index
        (runner machine.old.0 (run_now run)).spares) machine.new.0 }
    ensures choice { machine.new.1 ≡ machine.old.1 }
{
    if machine.has_spare(run.e) {
        break_page(machine, run, index);
    } else {
        machine.leave(run, run.count, Why::NeedPage);
    }
}

/// No page serves an access: a page that the enclave shares is broken, or the enclave traps.
pub(crate) fn page_fault<D: Digester, F: Fn(&[SlotUse]) -> usize>(
    machine: &mut Machine<D, F>,
    run: Run,
    kind: Kind,
    address: u64,
)
    requires can { CanBreak machine.old.0 (run_now run) }
    requires choice { NamesPosition F.Fn machine.old.1 }
    ensures event { IsEvent (FnReturnsAt F.Fn machine.old.1) (λ positions. page_faults D.digest_of machine.old.0 (run_now run) (runner machine.old.0 (run_now run)) positions kind address) machine.new.0 }
    ensures choice { machine.new.1 ≡ machine.old.1 }
{
    match machine.to_break(run.e, kind, address) {
        Some(index) => break_or_leave(machine, run, index),
        None => trap(machine, run, fault_cause(kind), address),
    }
}
