// A run of a setup: the turns of its order, whole rounds until it is over, and its output.
ghost use Rattle.std.specs.Prelude.{◌≡◌, ◌<◌, length, slice_get, Some};
ghost use Rattle.std.specs.Fn.{FnReturnsAt};
ghost use Rattle.mem_slots.specs.Choices.{NamesPosition};
ghost use Rattle.pl_io.specs.Puts.{Puts};
ghost use Rattle.penglai_main.specs.Ends.{Later, ends};
ghost use Rattle.penglai_main.specs.Play.{PlayedTo, RunEnds, history_text, run_text};
ghost use Rattle.penglai_main.specs.declared.solo.Printed.TheVariants as printed_is;
ghost use Rattle.penglai_main.specs.Top.{status_of};
ghost use Rattle.world_machine.specs.Reached.{opening_world};
ghost use Rattle.world_machine.specs.Runs.{Plays, over_of};
ghost use Rattle.world_machine.specs.Steps.{Ran};

use crate::status::Status;
use mem_slots::{Choice, SlotUse};
use pl_base::{Actor, Failed};
use pl_digest::Digester;
use pl_history::{Setup, put_history, put_summary};
use pl_io::Sink;
use std::alloc::Global;
use world_core::World;
use world_machine::Finished;

/// What is printed of a run's history, before the report.
#[derive(Clone, Copy)]
pub(crate) enum Printed {
    /// Each entry, in a line.
    History,
    /// How many lines were answered and words taken, and the exclusive or of these words.
    Summary,
}

// The actor at a place of an order.
fn actor_at(order: &[Actor], turn: usize) -> Actor
    requires { turn < length order.now }
    ensures { slice_get order.now turn ≡ Some result }
{
    order[turn]
}

// The turns of the setup's order. One that has no event is passed over.
fn take_ordered_turns<D: Digester, F: Fn(&[SlotUse]) -> usize>(world: &mut World<D, F>)
    requires { NamesPosition F.Fn world.old.1 }
    ensures ran { Ran D.digest_of (FnReturnsAt F.Fn world.old.1) world.old.0 world.old.0.setup.order world.new.0 }
    ensures choice { world.new.1 ≡ world.old.1 }
{
    let turns = world.setup().parts().order.as_slice().len();
    for turn in 0..turns {
        let actor = actor_at(world.setup().parts().order.as_slice(), turn);
        world.turn(actor);
    }
}

// The turns of the order, and then whole rounds until the run is over.
fn run_out<D: Digester, F: Fn(&[SlotUse]) -> usize>(world: &mut World<D, F>) -> Finished
    requires { NamesPosition F.Fn world.old.1 }
    ensures plays { Plays D.digest_of (FnReturnsAt F.Fn world.old.1) world.old.0 world.new.0 result }
    ensures choice { world.new.1 ≡ world.old.1 }
{
    take_ordered_turns(world);
    world.finish()
}

// Writes the history or its summary.
fn put_entries<D: Digester, F, K: Sink>(
    world: &World<D, F>,
    printed: Printed,
    sink: &mut K,
) -> Result<(), Failed>
    ensures { Puts (K.written sink.old) (K.written sink.new) (K.faults sink.old) (K.faults sink.new) (history_text printed world.now.0) result }
{
    match printed {
        Printed::History => put_history(sink, world.setup().parts().harts, world.history()),
        Printed::Summary => put_summary(sink, world.history()),
    }
}

// Writes the history or its summary, and the report.
fn put_run<D: Digester, F, K: Sink>(
    world: &World<D, F>,
    end: Finished,
    printed: Printed,
    sink: &mut K,
) -> Result<(), Failed>
    requires { over_of D.digest_of world.now.0 ≡ Some end }
    ensures { Puts (K.written sink.old) (K.written sink.new) (K.faults sink.old) (K.faults sink.new) (run_text printed world.now.0 end) result }
{
    if put_entries(world, printed, sink).is_err() {
        return Err(Failed);
    }
    world.put_report(sink)
}

// The status of a run that ended so, where all is written.
fn status_of(end: Finished) -> Status
    ensures { result ≡ status_of end }
{
    match end {
        Finished::Done => Status::Done,
        Finished::Collision => Status::Collision,
        Finished::Stuck => Status::Stuck,
    }
}

// Makes the turns of the setup's order and then whole rounds until the run is over, and writes the history, or its summary, and the report.
fn play_and_print<D: Digester, K: Sink, F: Fn(&[SlotUse]) -> usize>(
    world: &mut World<D, F>,
    printed: Printed,
    sink: &mut K,
) -> Status
    requires opening { world.old.0 ≡ opening_world D.digest_of world.old.0.setup }
    requires choice { NamesPosition F.Fn world.old.1 }
    ensures played { PlayedTo D.digest_of (FnReturnsAt F.Fn world.old.1) world.old.0.setup printed world.new.0 (ends K.written K.faults sink.old sink.new) result }
    ensures choice { world.new.1 ≡ world.old.1 }
    ensures later { Later (ends K.written K.faults sink.old sink.new) }
{
    world.stands();
    let end = run_out(world);
    match put_run(world, end, printed, sink) {
        Ok(()) => status_of(end),
        Err(Failed) => Status::WriteFault,
    }
}

/// A run of a setup, and what is printed of it. Where no world can be made, nothing is written.
pub(crate) fn run_and_print<D: Digester, K: Sink, F: Fn(&[SlotUse]) -> usize + Drop>(
    alloc: Global,
    digester: D,
    setup: Setup,
    printed: Printed,
    sink: &mut K,
    choice: Choice<F>,
) -> Status
    requires choice { NamesPosition F.Fn choice }
    ensures ends { RunEnds D.digest_of (FnReturnsAt F.Fn choice) setup printed (ends K.written K.faults sink.old sink.new) result }
    ensures later { Later (ends K.written K.faults sink.old sink.new) }
{
    let Ok(mut world) = World::new(alloc, digester, setup, choice) else {
        return Status::NoMemory;
    };
    play_and_print(&mut world, printed, sink)
}

/// Makes the turns of the setup's order and then whole rounds until the run is over, and writes the history and the report. The world is one
/// that `World::new` gives, and the choice names a position in the list of slots. It takes no memory, and answers Done, Collision, Stuck or
/// WriteFault.
pub fn play<D: Digester, K: Sink, F: Fn(&[SlotUse]) -> usize>(
    world: &mut World<D, F>,
    sink: &mut K,
) -> Status
    requires opening { world.old.0 ≡ opening_world D.digest_of world.old.0.setup }
    requires choice { NamesPosition F.Fn world.old.1 }
    ensures played { PlayedTo D.digest_of (FnReturnsAt F.Fn world.old.1) world.old.0.setup printed_is.History world.new.0 (ends K.written K.faults sink.old sink.new) result }
    ensures choice { world.new.1 ≡ world.old.1 }
    ensures later { Later (ends K.written K.faults sink.old sink.new) }
{
    play_and_print(world, Printed::History, sink)
}

/// A run of a setup with this digest function and this rule that names the slot to evict: its history and report are written. It answers
/// what `play` answers, or NoMemory where no world can be made, with nothing written.
pub fn solo_with<D: Digester, K: Sink, F: Fn(&[SlotUse]) -> usize + Drop>(
    alloc: Global,
    digester: D,
    setup: Setup,
    sink: &mut K,
    choice: Choice<F>,
) -> Status
    requires choice { NamesPosition F.Fn choice }
    ensures ends { RunEnds D.digest_of (FnReturnsAt F.Fn choice) setup printed_is.History (ends K.written K.faults sink.old sink.new) result }
    ensures later { Later (ends K.written K.faults sink.old sink.new) }
{
    run_and_print(alloc, digester, setup, Printed::History, sink, choice)
}
