// What a hart's line does next, a row for each line and how far it is.
ghost use Rattle.std.specs.Prelude.{◌≡◌, ◌<◌, length};
ghost use Rattle.std.specs.Fn.{FnReturnsAt};
ghost use Rattle.mem_slots.specs.Choices.{NamesPosition};
ghost use Rattle.world_events.specs.Conditions.{CanGo, pages_due};
ghost use Rattle.world_events.specs.HostAccessing.{access_now};
ghost use Rattle.world_core.specs.Steps.{CanAccessSoFar, CanCreateSoFar, CanDestroySoFar, CanDue, CanForkSoFar, CanMapSoFar, CanRunSoFar, CanSay, CanSayIdle, CanUnmapSoFar, access_turn, begun_turn, create_turn, destroy_so_far, due_turn, fork_turn, map_turn, run_turn, say_turn, unmap_so_far};
ghost use Rattle.world_events.specs.Turns.{IsTurn};
ghost use Rattle.world_machine.specs.Answering.{answers, quiet};
ghost use Rattle.world_machine.specs.Steps.{waits};

use mem_slots::SlotUse;
use pl_base::{EncNo, HartNo, Perms, Va};
use pl_digest::Digester;
use pl_history::Answer;
use world_events::{Due, Machine, Run, WordAccess};
use world_machine::{Turned, Under, Wait};
use world_runs::advance_run;

// `load` and `store`, so far.
fn access<D: Digester, F: Fn(&[SlotUse]) -> usize>(
    machine: &mut Machine<D, F>,
    hart: HartNo,
    va: Va,
    access: WordAccess,
    under: Under,
) -> Turned
    requires can { CanAccessSoFar machine.old.0 hart.0 va (access_now access) under }
    requires choice { NamesPosition F.Fn machine.old.1 }
    ensures turn { IsTurn (FnReturnsAt F.Fn machine.old.1) (λ positions. access_turn D.digest_of machine.old.0 hart.0 positions va (access_now access) under) result machine.old.0 machine.new.0 }
    ensures choice { machine.new.1 ≡ machine.old.1 }
{
    match under {
        Under::Idle => machine.begin_access(hart, va, access),
        Under::Seeking { walk } => machine.access_host(hart, va, access, walk),
        Under::Removing { .. } => return Turned::Done,
        Under::Destroying => return Turned::Done,
        Under::Putting { .. } => return Turned::Done,
        Under::Running { .. } => return Turned::Done,
        Under::Breaking { .. } => return Turned::Done,
    }
    Turned::Moved
}

// `map`, which is one event.
fn map_line<D: Digester, F: Fn(&[SlotUse]) -> usize>(
    machine: &mut Machine<D, F>,
    hart: HartNo,
    va: Va,
    page: u32,
    perms: Perms,
    under: Under,
) -> Turned
    requires can { CanMapSoFar machine.old.0 hart.0 page perms under }
    requires choice { NamesPosition F.Fn machine.old.1 }
    ensures turn { IsTurn (FnReturnsAt F.Fn machine.old.1) (λ positions. map_turn D.digest_of machine.old.0 hart.0 positions va page perms under) result machine.old.0 machine.new.0 }
    ensures choice { machine.new.1 ≡ machine.old.1 }
{
    match under {
        Under::Idle => machine.map(hart, va, page, perms),
        Under::Seeking { .. } => return Turned::Done,
        Under::Removing { .. } => return Turned::Done,
        Under::Destroying => return Turned::Done,
        Under::Putting { .. } => return Turned::Done,
        Under::Running { .. } => return Turned::Done,
        Under::Breaking { .. } => return Turned::Done,
    }
    Turned::Moved
}

// `unmap`, so far.
fn unmap_line<D: Digester, F: Fn(&[SlotUse]) -> usize>(
    machine: &mut Machine<D, F>,
    hart: HartNo,
    va: Va,
    under: Under,
) -> Turned
    requires can { CanUnmapSoFar machine.old.0 hart.0 under }
    requires choice { NamesPosition F.Fn machine.old.1 }
    ensures turn { IsTurn (FnReturnsAt F.Fn machine.old.1) (λ positions. unmap_so_far D.digest_of machine.old.0 hart.0 positions va under) result machine.old.0 machine.new.0 }
    ensures choice { machine.new.1 ≡ machine.old.1 }
{
    match under {
        Under::Idle => {
            machine.begin_unmap(hart, va);
            Turned::Moved
        }
        Under::Removing { page } => machine.unmap_turn(hart, page),
        Under::Seeking { .. } => Turned::Done,
        Under::Destroying => Turned::Done,
        Under::Putting { .. } => Turned::Done,
        Under::Running { .. } => Turned::Done,
        Under::Breaking { .. } => Turned::Done,
    }
}

// `create` and `shadow`, so far.
fn create<D: Digester, F: Fn(&[SlotUse]) -> usize>(
    machine: &mut Machine<D, F>,
    hart: HartNo,
    e: EncNo,
    image: u8,
    shadow: bool,
    under: Under,
) -> Turned
    requires can { CanCreateSoFar machine.old.0 hart.0 e.0 image shadow under }
    requires choice { NamesPosition F.Fn machine.old.1 }
    ensures turn { IsTurn (FnReturnsAt F.Fn machine.old.1) (λ positions. create_turn D.digest_of machine.old.0 hart.0 positions (pages_due machine.old.0 hart.0) e.0 image shadow under) result machine.old.0 machine.new.0 }
    ensures choice { machine.new.1 ≡ machine.old.1 }
{
    match under {
        Under::Idle => machine.begin_create(hart, e, image, shadow),
        Under::Putting { done } => machine.put_next(hart, e, image, shadow, done),
        Under::Seeking { .. } => return Turned::Done,
        Under::Removing { .. } => return Turned::Done,
        Under::Destroying => return Turned::Done,
        Under::Running { .. } => return Turned::Done,
        Under::Breaking { .. } => return Turned::Done,
    }
    Turned::Moved
}

// `fork`, so far.
fn fork<D: Digester, F: Fn(&[SlotUse]) -> usize>(
    machine: &mut Machine<D, F>,
    hart: HartNo,
    s: EncNo,
    e: EncNo,
    under: Under,
) -> Turned
    requires can { CanForkSoFar machine.old.0 hart.0 s.0 e.0 under }
    requires choice { NamesPosition F.Fn machine.old.1 }
    ensures turn { IsTurn (FnReturnsAt F.Fn machine.old.1) (λ positions. fork_turn D.digest_of machine.old.0 hart.0 positions (pages_due machine.old.0 hart.0) s e.0 under) result machine.old.0 machine.new.0 }
    ensures choice { machine.new.1 ≡ machine.old.1 }
{
    match under {
        Under::Idle => machine.begin_fork(hart, s, e),
        Under::Putting { done } => machine.put_fork(hart, e, done),
        Under::Seeking { .. } => return Turned::Done,
        Under::Removing { .. } => return Turned::Done,
        Under::Destroying => return Turned::Done,
        Under::Running { .. } => return Turned::Done,
        Under::Breaking { .. } => return Turned::Done,
    }
    Turned::Moved
}

// `run` and `resume`, so far.
fn run<D: Digester, F: Fn(&[SlotUse]) -> usize>(
    machine: &mut Machine<D, F>,
    hart: HartNo,
    e: EncNo,
    budget: u32,
    first: bool,
    under: Under,
) -> Turned
    requires can { CanRunSoFar machine.old.0 hart.0 e.0 budget under }
    requires choice { NamesPosition F.Fn machine.old.1 }
    ensures turn { IsTurn (FnReturnsAt F.Fn machine.old.1) (λ positions. run_turn D.digest_of machine.old.0 hart.0 positions e.0 budget first under) result machine.old.0 machine.new.0 }
    ensures choice { machine.new.1 ≡ machine.old.1 }
{
    match under {
        Under::Idle => machine.begin_run(hart, e, first),
        Under::Running { micro, count } => {
            let run = Run {
                hart,
                e,
                budget,
                count,
            };
            advance_run(machine, run, micro);
        }
        Under::Breaking { count, .. } => return machine.breaking_turn(hart, count),
        Under::Seeking { .. } => return Turned::Done,
        Under::Removing { .. } => return Turned::Done,
        Under::Destroying => return Turned::Done,
        Under::Putting { .. } => return Turned::Done,
    }
    Turned::Moved
}

// `destroy`, so far.
fn destroy<D: Digester, F: Fn(&[SlotUse]) -> usize>(
    machine: &mut Machine<D, F>,
    hart: HartNo,
    e: EncNo,
    under: Under,
) -> Turned
    requires can { CanDestroySoFar machine.old.0 hart.0 e.0 under }
    ensures turn { IsTurn (FnReturnsAt F.Fn machine.old.1) (λ positions. destroy_so_far machine.old.0 hart.0 e under) result machine.old.0 machine.new.0 }
    ensures choice { machine.new.1 ≡ machine.old.1 }
{
    match under {
        Under::Idle => {
            machine.begin_destroy(hart, e);
            Turned::Moved
        }
        Under::Destroying => machine.destroy_turn(hart, e),
        Under::Seeking { .. } => Turned::Done,
        Under::Removing { .. } => Turned::Done,
        Under::Putting { .. } => Turned::Done,
        Under::Running { .. } => Turned::Done,
        Under::Breaking { .. } => Turned::Done,
    }
}

// `after`: it waits until that actor has answered so many lines.
fn wait<D: Digester, F: Fn(&[SlotUse]) -> usize>(
    machine: &mut Machine<D, F>,
    hart: HartNo,
    actor: u8,
    count: u32,
) -> Turned
    requires can { CanGo machine.old.0 hart.0 }
    requires actors { actor < length machine.old.0.answered }
    ensures turn { IsTurn (FnReturnsAt F.Fn machine.old.1) (λ positions. waits machine.old.0 actor count (quiet (answers machine.old.0 hart.0 Answer.Ok))) result machine.old.0 machine.new.0 }
    ensures choice { machine.new.1 ≡ machine.old.1 }
{
    if count > machine.answered_by(actor) {
        return Turned::Blocked(Wait::After { actor, count });
    }
    machine.answer(hart, Answer::Ok);
    Turned::Moved
}

// A line that is answered at once.
fn say<D: Digester, F: Fn(&[SlotUse]) -> usize>(
    machine: &mut Machine<D, F>,
    hart: HartNo,
    due: Due,
) -> Turned
    requires can { CanSay machine.old.0 hart.0 due }
    ensures turn { IsTurn (FnReturnsAt F.Fn machine.old.1) (λ positions. say_turn machine.old.0 hart.0 due) result machine.old.0 machine.new.0 }
    ensures choice { machine.new.1 ≡ machine.old.1 }
{
    match due {
        Due::Send { e, word } => machine.send(hart, e, word),
        Due::Take { e } => machine.take(hart, e),
        Due::Grant { e, page } => machine.grant(hart, e, page),
        Due::Drop { s } => machine.drop_shadow(hart, s),
        Due::After { actor, count } => return wait(machine, hart, actor, count),
        Due::Load { .. } => return Turned::Done,
        Due::Store { .. } => return Turned::Done,
        Due::Map { .. } => return Turned::Done,
        Due::Unmap { .. } => return Turned::Done,
        Due::Create { .. } => return Turned::Done,
        Due::Fork { .. } => return Turned::Done,
        Due::Run { .. } => return Turned::Done,
        Due::Destroy { .. } => return Turned::Done,
        Due::Nothing => return Turned::Done,
    }
    Turned::Moved
}

// A line that is answered at once, where it hasn't begun.
fn say_idle<D: Digester, F: Fn(&[SlotUse]) -> usize>(
    machine: &mut Machine<D, F>,
    hart: HartNo,
    due: Due,
    under: Under,
) -> Turned
    requires can { CanSayIdle machine.old.0 hart.0 due under }
    ensures turn { IsTurn (FnReturnsAt F.Fn machine.old.1) (λ positions. begun_turn under (say_turn machine.old.0 hart.0 due)) result machine.old.0 machine.new.0 }
    ensures choice { machine.new.1 ≡ machine.old.1 }
{
    match under {
        Under::Idle => say(machine, hart, due),
        Under::Seeking { .. } => Turned::Done,
        Under::Removing { .. } => Turned::Done,
        Under::Destroying => Turned::Done,
        Under::Putting { .. } => Turned::Done,
        Under::Running { .. } => Turned::Done,
        Under::Breaking { .. } => Turned::Done,
    }
}

/// A line's next event, so far.
pub(crate) fn make<D: Digester, F: Fn(&[SlotUse]) -> usize>(
    machine: &mut Machine<D, F>,
    hart: HartNo,
    due: Due,
    under: Under,
) -> Turned
    requires can { CanDue machine.old.0 hart.0 due under }
    requires choice { NamesPosition F.Fn machine.old.1 }
    ensures turn { IsTurn (FnReturnsAt F.Fn machine.old.1) (λ positions. due_turn D.digest_of machine.old.0 hart.0 positions (pages_due machine.old.0 hart.0) due under) result machine.old.0 machine.new.0 }
    ensures choice { machine.new.1 ≡ machine.old.1 }
{
    match due {
        Due::Load { va } => access(machine, hart, va, WordAccess::Load, under),
        Due::Store { va, word } => access(machine, hart, va, WordAccess::Store { word }, under),
        Due::Map { va, page, perms } => map_line(machine, hart, va, page, perms, under),
        Due::Unmap { va } => unmap_line(machine, hart, va, under),
        Due::Create { e, image, shadow } => create(machine, hart, e, image, shadow, under),
        Due::Fork { s, e } => fork(machine, hart, s, e, under),
        Due::Run { e, budget, first } => run(machine, hart, e, budget, first, under),
        Due::Destroy { e } => destroy(machine, hart, e, under),
        Due::Send { .. } => say_idle(machine, hart, due, under),
        Due::Grant { .. } => say_idle(machine, hart, due, under),
        Due::Drop { .. } => say_idle(machine, hart, due, under),
        Due::Take { .. } => say_idle(machine, hart, due, under),
        Due::After { .. } => say_idle(machine, hart, due, under),
        Due::Nothing => say_idle(machine, hart, due, under),
    }
}
