// The top call.
ghost use Rattle.std.specs.Prelude.{◌≡◌, ◌≤◌, ◌↔◌, map, option_map, string_bytes, None, IfSome};
ghost use Rattle.penglai_main.specs.declared.solo.Printed.TheVariants as printed_is;
ghost use Rattle.penglai_main.specs.declared.top.Command.TheVariants.{Solo, Measure, Generate};
ghost use Rattle.penglai_main.specs.Ends.{Later, WritesNothing, ends};
ghost use Rattle.std.specs.Fn.{FnReturnsAt};
ghost use Rattle.mem_slots.specs.Choices.{NamesPosition};
ghost use Rattle.penglai_main.specs.Play.{RunEnds};
ghost use Rattle.penglai_main.specs.Top.{Explains, NumberFits, Untouched, choice_gives, command_of, no_choice};
ghost use Rattle.pl_io.specs.Numbers.{dec_value};
ghost use Rattle.sha2.specs.Sha256.{sha256};
ghost use Rattle.world_lines.specs.Arguments.{within};
ghost use Rattle.world_setup.specs.Generating.{generated};

use crate::measure::put_measurements;
use crate::solo::{Printed, run_and_print, solo_with};
use crate::status::Status;
use crate::unread::{decline, setup_from};
use mem_slots::{Choice, SlotUse};
use pl_base::Failed;
use pl_digest::Sha;
use pl_history::ChoiceName;
use pl_io::{Sink, Source, read_dec};
use std::alloc::Global;
use world_lines::within;
use world_setup::generate;

// The greatest number of a generated load.
const MOST_NUMBER: u32 = 65535;

// What the words ask for.
#[derive(Clone, Copy)]
enum Command {
    // Runs the setup in one order.
    Solo,
    // Measures the setup's images.
    Measure,
    // Runs the generated load with this number.
    Generate(u32),
}

// The generated load whose number is this text.
fn load_of(number: &str) -> Option<Command>
    ensures command { result ≡ option_map Generate (within 0 65535 (dec_value number.now)) }
    ensures fits { IfSome result NumberFits }
{
    let n = within(0, MOST_NUMBER, read_dec(number.as_bytes()))?;
    Some(Command::Generate(n))
}

fn command_of(words: &Vec<String>) -> Option<Command>
    ensures command { result ≡ command_of (map string_bytes words.now.items) }
    ensures fits { IfSome result NumberFits }
{
    match words.as_slice() {
        [word] if word.as_str() == "solo" => Some(Command::Solo),
        [word] if word.as_str() == "measure" => Some(Command::Measure),
        [word, number] if word.as_str() == "generate" => load_of(number.as_str()),
        _ => None,
    }
}

// Runs the setup that the source holds, with the rule that it names.
fn solo<S: Source, K: Sink, F: Fn(&[SlotUse]) -> usize + Drop, O: Fn(&[SlotUse]) -> usize + Drop>(
    alloc: Global,
    source: &mut S,
    sink: &mut K,
    oldest: Choice<F>,
    least: Choice<O>,
) -> Status
    requires oldest { NamesPosition F.Fn oldest }
    requires least { NamesPosition O.Fn least }
    ensures explains { Explains (choice_gives (FnReturnsAt F.Fn oldest) (FnReturnsAt O.Fn least)) Solo (ends S.left S.faults source.old source.new) (ends K.written K.faults sink.old sink.new) result }
    ensures source_later { Later (ends S.left S.faults source.old source.new) }
    ensures sink_later { Later (ends K.written K.faults sink.old sink.new) }
{
    let setup = match setup_from(alloc, source) {
        Ok(setup) => setup,
        Err(unread) => return decline(sink, unread),
    };
    match setup.parts().choice {
        ChoiceName::Oldest => solo_with(alloc, Sha, setup, sink, oldest),
        ChoiceName::Least => solo_with(alloc, Sha, setup, sink, least),
    }
}

// Measures the images of the setup that the source holds.
fn measure<S: Source, K: Sink>(alloc: Global, source: &mut S, sink: &mut K) -> Status
    ensures explains { Explains no_choice Measure (ends S.left S.faults source.old source.new) (ends K.written K.faults sink.old sink.new) result }
    ensures source_later { Later (ends S.left S.faults source.old source.new) }
    ensures sink_later { Later (ends K.written K.faults sink.old sink.new) }
{
    let setup = match setup_from(alloc, source) {
        Ok(setup) => setup,
        Err(unread) => return decline(sink, unread),
    };
    let images = setup.parts().images.as_slice();
    match put_measurements(sink, images) {
        Ok(()) => Status::Done,
        Err(Failed) => Status::WriteFault,
    }
}

// Runs the generated load with this number.
fn load<K: Sink, F: Fn(&[SlotUse]) -> usize + Drop>(
    alloc: Global,
    n: u32,
    sink: &mut K,
    oldest: Choice<F>,
) -> Status
    requires number { n ≤ 65535 }
    requires oldest { NamesPosition F.Fn oldest }
    ensures ends { RunEnds sha256 (FnReturnsAt F.Fn oldest) (generated n) printed_is.Summary (ends K.written K.faults sink.old sink.new) result }
    ensures later { Later (ends K.written K.faults sink.old sink.new) }
{
    let Ok(setup) = generate(alloc, n) else {
        return Status::NoMemory;
    };
    run_and_print(alloc, Sha, setup, Printed::Summary, sink, oldest)
}

// Does what a command asks.
fn carry_out<
    S: Source,
    K: Sink,
    F: Fn(&[SlotUse]) -> usize + Drop,
    O: Fn(&[SlotUse]) -> usize + Drop,
>(
    alloc: Global,
    command: Command,
    source: &mut S,
    sink: &mut K,
    oldest: Choice<F>,
    least: Choice<O>,
) -> Status
    requires number { NumberFits command }
    requires oldest { NamesPosition F.Fn oldest }
    requires least { NamesPosition O.Fn least }
    ensures explains { Explains (choice_gives (FnReturnsAt F.Fn oldest) (FnReturnsAt O.Fn least)) command (ends S.left S.faults source.old source.new) (ends K.written K.faults sink.old sink.new) result }
    ensures untouched { Untouched command source.old source.new }
    ensures source_later { Later (ends S.left S.faults source.old source.new) }
    ensures sink_later { Later (ends K.written K.faults sink.old sink.new) }
{
    match command {
        Command::Solo => solo(alloc, source, sink, oldest, least),
        Command::Measure => measure(alloc, source, sink),
        Command::Generate(n) => load(alloc, n, sink, oldest),
    }
}

/// Does what the words ask. Of the setup that the source holds, `solo` runs it, in the order of turns that it gives, and writes its history
/// and report; `measure` writes the measurement of each image. They read at most 16 MiB. `generate N` reads nothing: it runs the generated
/// load with this number, and writes the summary of its history and its report. Where a zone is mounted and all slots are taken, the rule
/// that the setup names tells which makes room: `oldest` or `least`.
pub fn quick<
    S: Source,
    K: Sink,
    F: Fn(&[SlotUse]) -> usize + Drop,
    O: Fn(&[SlotUse]) -> usize + Drop,
>(
    alloc: Global,
    words: &Vec<String>,
    source: &mut S,
    sink: &mut K,
    oldest: Choice<F>,
    least: Choice<O>,
) -> Status
    requires oldest { NamesPosition F.Fn oldest }
    requires least { NamesPosition O.Fn least }

    // BadWords comes exactly where the words are none of `solo`, `measure` and `generate N`, and nothing is written then.
    ensures bad_words { (result ≡ Status.BadWords) ↔ (command_of (map string_bytes words.now.items) ≡ None) }
    ensures unwritten { result ≡ Status.BadWords → WritesNothing (ends K.written K.faults sink.old sink.new) }

    // What every other status says.
    ensures explains { IfSome (command_of (map string_bytes words.now.items)) (λ command.
        Explains (choice_gives (FnReturnsAt F.Fn oldest) (FnReturnsAt O.Fn least)) command (ends S.left S.faults source.old source.new) (ends K.written K.faults sink.old sink.new) result) }

    // A command that takes no setup leaves the source as it is.
    ensures untouched { IfSome (command_of (map string_bytes words.now.items)) (λ command. Untouched command source.old source.new) }

    // No count falls.
    ensures source_later { Later (ends S.left S.faults source.old source.new) }
    ensures sink_later { Later (ends K.written K.faults sink.old sink.new) }
{
    let Some(command) = command_of(words) else {
        return Status::BadWords;
    };
    carry_out(alloc, command, source, sink, oldest, least)
}
