// Whether a run is over, and how.
ghost use Rattle.std.specs.Prelude.{◌≡◌, ◌≤◌, ◌<◌, ◌+◌, length};
ghost use Rattle.std.specs.List.{list_all, range_with_len};
ghost use Rattle.pl_history.specs.Monitor.{line_count};
ghost use Rattle.world_core.specs.Over.{HasLengths, ack_still, attack_still, attacker_still, due_still, hart_still, is_done, waits_still};
ghost use Rattle.world_machine.specs.Runs.{all_answered, nobody_moves, over_of};

use pl_base::HartNo;
use pl_digest::Digester;
use pl_history::SetupParts;
use world_events::{Attack, Due, Machine};
use world_machine::{Finished, Under};

// How many lines an actor has.
fn line_count(setup: &SetupParts, actor: u8) -> usize
    requires scripts { length setup.now.lines ≡ setup.now.harts }
    requires actor { actor ≤ setup.now.harts }
    ensures { result ≡ line_count setup.now actor }
{
    if actor == setup.harts {
        return setup.attacker.len();
    }
    setup.lines.as_slice()[usize::from(actor)].len()
}

// Whether a line that hasn't begun waits, or there is none.
fn waits_still<D: Digester, F>(machine: &Machine<D, F>, due: Due) -> bool
    ensures { result ≡ waits_still machine.now.0 due }
{
    match due {
        Due::After { actor, count } => machine.answered_of(actor) < count,
        Due::Nothing => true,
        Due::Load { .. } => false,
        Due::Store { .. } => false,
        Due::Map { .. } => false,
        Due::Unmap { .. } => false,
        Due::Create { .. } => false,
        Due::Fork { .. } => false,
        Due::Grant { .. } => false,
        Due::Run { .. } => false,
        Due::Send { .. } => false,
        Due::Take { .. } => false,
        Due::Destroy { .. } => false,
        Due::Drop { .. } => false,
    }
}

// Whether a line, so far, has no event.
fn due_still<D: Digester, F>(machine: &Machine<D, F>, due: Due, under: Under) -> bool
    ensures { result ≡ due_still machine.now.0 due under }
{
    match (due, under) {
        (_, Under::Idle) => waits_still(machine, due),
        (Due::Load { .. }, Under::Seeking { .. }) => false,
        (Due::Store { .. }, Under::Seeking { .. }) => false,
        (Due::Unmap { .. }, Under::Removing { .. }) => false,
        (Due::Create { .. }, Under::Putting { .. }) => false,
        (Due::Fork { .. }, Under::Putting { .. }) => false,
        (Due::Run { .. }, Under::Running { .. }) => false,
        (Due::Run { .. }, Under::Breaking { .. }) => false,
        (Due::Destroy { .. }, Under::Destroying) => false,
        _ => true,
    }
}

// Whether a line of the attacker waits, or there is none.
fn attack_still<D: Digester, F>(machine: &Machine<D, F>, line: Attack) -> bool
    ensures { result ≡ attack_still machine.now.0 line }
{
    match line {
        Attack::Nothing => true,
        Attack::After { actor, count } => machine.answered_of(actor) < count,
        Attack::Line => false,
    }
}

// Whether a hart has no event.
fn hart_still<D: Digester, F>(machine: &Machine<D, F>, hart: HartNo) -> bool
    requires lengths { HasLengths machine.now.0 }
    requires hart { hart.0 < machine.now.0.setup.harts }
    ensures { result ≡ hart_still D.digest_of machine.now.0 hart.0 }
{
    let due = machine.due(hart);
    let under = machine.under_way(hart);
    due_still(machine, due, under)
}

// Whether no fence needs a hart's acknowledgement.
fn ack_still<D: Digester, F>(machine: &Machine<D, F>, hart: HartNo) -> bool
    requires lengths { HasLengths machine.now.0 }
    requires hart { hart.0 < machine.now.0.setup.harts }
    ensures { result ≡ ack_still D.digest_of machine.now.0 hart.0 }
{
    machine.owed(hart).is_none()
}

// Whether the attacker has no event.
fn attacker_still<D: Digester, F>(machine: &Machine<D, F>) -> bool
    requires { HasLengths machine.now.0 }
    ensures { result ≡ attacker_still D.digest_of machine.now.0 }
{
    let line = machine.attack_due();
    attack_still(machine, line)
}

// Whether no hart has an event.
fn harts_still<D: Digester, F>(machine: &Machine<D, F>) -> bool
    requires { HasLengths machine.now.0 }
    ensures { result ≡ list_all (hart_still D.digest_of machine.now.0) (range_with_len 0 machine.now.0.setup.harts) }
{
    let harts = machine.attacker();
    for hart in 0..harts {
        if !hart_still(machine, HartNo(hart)) {
            return false;
        }
    }
    true
}

// Whether no fence needs an acknowledgement.
fn acks_still<D: Digester, F>(machine: &Machine<D, F>) -> bool
    requires { HasLengths machine.now.0 }
    ensures { result ≡ list_all (ack_still D.digest_of machine.now.0) (range_with_len 0 machine.now.0.setup.harts) }
{
    let harts = machine.attacker();
    for hart in 0..harts {
        if !ack_still(machine, HartNo(hart)) {
            return false;
        }
    }
    true
}

// Whether all lines of an actor are answered.
fn is_done<D: Digester, F>(machine: &Machine<D, F>, actor: u8) -> bool
    requires lengths { HasLengths machine.now.0 }
    requires actor { actor ≤ machine.now.0.setup.harts }
    ensures { result ≡ is_done machine.now.0 actor }
{
    machine.answered_of(actor) as usize == line_count(machine.setup().parts(), actor)
}

// Whether the lines of every actor are answered.
fn all_answered<D: Digester, F>(machine: &Machine<D, F>) -> bool
    requires lengths { HasLengths machine.now.0 }
    requires few { machine.now.0.setup.harts ≤ 8 }
    ensures { result ≡ all_answered machine.now.0 }
{
    let actors = machine.attacker() + 1;
    for actor in 0..actors {
        if !is_done(machine, actor) {
            return false;
        }
    }
    true
}

// Whether no actor has an event.
fn nobody_moves<D: Digester, F>(machine: &Machine<D, F>) -> bool
    requires { HasLengths machine.now.0 }
    ensures { result ≡ nobody_moves D.digest_of machine.now.0 }
{
    let harts = harts_still(machine);
    let acks = acks_still(machine);
    let attacker = attacker_still(machine);
    harts & acks & attacker
}

/// How the run is over, if it is.
#[tactic(auto, unfolding(world_machine::specs::Runs::over_of))]
pub(crate) fn over<D: Digester, F>(machine: &Machine<D, F>) -> Option<Finished>
    requires lengths { HasLengths machine.now.0 }
    requires few { machine.now.0.setup.harts ≤ 8 }
    ensures { result ≡ over_of D.digest_of machine.now.0 }
{
    if machine.is_halted() {
        return Some(Finished::Collision);
    }
    if all_answered(machine) {
        return Some(Finished::Done);
    }
    if nobody_moves(machine) {
        return Some(Finished::Stuck);
    }
    None
}
