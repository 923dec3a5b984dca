// The events of a run: the words of the walks to an instruction's word and to its data, and then the word or the data itself.
ghost use Rattle.std.specs.Prelude.{◌≡◌, ◌<◌, ◌%◌, IsTrue, length};
ghost use Rattle.std.specs.Fn.{FnReturnsAt};
ghost use Rattle.pl_base.specs.Width.{is_width};
ghost use Rattle.mem_ctl.specs.Results.{outcome_of};
ghost use Rattle.mem_slots.specs.Choices.{NamesPosition};
ghost use Rattle.mon_enclave.specs.Records.{enclave_at};
ghost use Rattle.rv_alone.specs.Effect.{IsAccess, act_of};
ghost use Rattle.world_events.specs.Conditions.{CanBreak, CanReach, CanRun, CanSeekData};
ghost use Rattle.world_events.specs.Events.{IsEvent};
ghost use Rattle.world_events.specs.Running.{run_now, runner};
ghost use Rattle.world_events.specs.Translating.{CanLearn, CanSeek, IsInside, table_goes};
ghost use Rattle.world_machine.specs.Answering.{decided};
ghost use Rattle.world_machine.specs.Running.{faults, fetched_in, loads_in, reaches, run_learns, run_request, run_translates, runs, stores_in};
ghost use Rattle.world_machine.specs.Translating.{offset_at, reads_table};
ghost use Rattle.world_runs.specs.Running.{micro_with, run_faults};

use crate::breaking::page_fault;
use crate::reaching::{fetch_in, load_in, store_in};
use mem_ctl::Broken;
use mem_slots::SlotUse;
use pl_base::{EncNo, Kind, Pa, Why};
use pl_digest::Digester;
use rv_alone::{Act, next};
use rv_hart::{Micro, PageFault, Sought, Walk};
use world_events::{Machine, Run, offset_at, page_at};
use world_machine::Under;

/// What the walk of an instruction is for: its word, or the data of a load or a store with this word.
#[derive(Clone, Copy)]
pub(crate) enum Purpose {
    Word,
    Data { word: u32 },
}

// Where an instruction is, whose walk is so far.
fn micro_with(purpose: Purpose, walk: Walk) -> Micro
    ensures { result ≡ micro_with purpose walk }
{
    match purpose {
        Purpose::Word => Micro::Fetching(walk),
        Purpose::Data { word } => Micro::Reaching { word, walk },
    }
}

// A walk that has learned goes on, or it is noted that no page serves the access.
fn run_learned<D: Digester, F>(
    machine: &mut Machine<D, F>,
    run: Run,
    purpose: Purpose,
    va: u64,
    kind: Kind,
    learned: Result<Walk, PageFault>,
)
    requires { run.hart.0 < length machine.old.0.under }
    ensures { machine.new ≡ (run_learns (run_now run) (micro_with purpose) va kind machine.old.0 learned, machine.old.1) }
{
    let micro = match learned {
        Ok(walk) => micro_with(purpose, walk),
        Err(PageFault) => Micro::Faulting { va, kind },
    };
    let under = Under::Running {
        micro,
        count: run.count,
    };
    machine.go_on(run.hart, under);
}

// What the read of a table's word comes to.
fn run_word<D: Digester, F>(
    machine: &mut Machine<D, F>,
    run: Run,
    purpose: Purpose,
    va: u64,
    kind: Kind,
    walk: Walk,
    word: Result<u64, Broken>,
)
    requires can { CanRun machine.old.0 (run_now run) }
    requires learns { CanLearn machine.old.0 (run_request machine.old.0 (run_now run) va kind) walk }
    ensures { machine.new ≡ (
      decided machine.old.0 (table_goes (run_learns (run_now run) (micro_with purpose) va kind) (run_request machine.old.0 (run_now run) va kind) walk machine.old.0)
          (run_faults (run_now run) machine.old.0) (outcome_of word),
      machine.old.1,
    ) }
{
    match word {
        Ok(word) => {
            let request = machine.run_request(run, va, kind);
            let learned = machine.learn(request, walk, word);
            run_learned(machine, run, purpose, va, kind, learned);
        }
        Err(Broken::Fault(place)) => machine.leave(run, run.count, Why::Fault(place)),
        Err(Broken::Collision(collision)) => machine.keep(collision),
    }
}

// What the word of the next instruction does.
fn act_of<D: Digester, F>(machine: &Machine<D, F>, e: EncNo, word: u32) -> Act
    requires { e.0 < length machine.now.0.enclaves }
    ensures act { result ≡ act_of (enclave_at machine.now.0.enclaves e.0).context word }
    ensures access { IsAccess result }
{
    next(&machine.context(e), word)
}

// The word of a table is read through the trees, and the walk learns from it.
fn read_run_table<D: Digester, F: Fn(&[SlotUse]) -> usize>(
    machine: &mut Machine<D, F>,
    run: Run,
    purpose: Purpose,
    va: u64,
    kind: Kind,
    walk: Walk,
    pa: Pa,
)
    requires can { CanRun machine.old.0 (run_now run) }
    requires learns { CanLearn machine.old.0 (run_request machine.old.0 (run_now run) va kind) walk }
    requires inside { IsInside machine.old.0.ctl.zones pa }
    requires aligned { offset_at pa % 8 ≡ 0 }
    requires choice { NamesPosition F.Fn machine.old.1 }
    ensures event { IsEvent (FnReturnsAt F.Fn machine.old.1) (λ positions. reads_table D.digest_of machine.old.0 (run_request machine.old.0 (run_now run) va kind) positions walk
        (run_learns (run_now run) (micro_with purpose) va kind) (faults (run_now run) (runner machine.old.0 (run_now run))) pa) machine.new.0 }
    ensures choice { machine.new.1 ≡ machine.old.1 }
{
    let word = machine.read(page_at(pa), offset_at(pa));
    run_word(machine, run, purpose, va, kind, walk, word);
}

// The word at `pc` is fetched, whose walk is so far.
fn fetch<D: Digester, F: Fn(&[SlotUse]) -> usize>(machine: &mut Machine<D, F>, run: Run, walk: Walk)
    requires can { CanReach machine.old.0 (run_now run) (Micro.Fetching walk) }
    requires choice { NamesPosition F.Fn machine.old.1 }
    ensures event { IsEvent (FnReturnsAt F.Fn machine.old.1) (λ positions. run_translates D.digest_of machine.old.0 (run_now run) (runner machine.old.0 (run_now run)) positions Micro.Fetching walk
        (runner machine.old.0 (run_now run)).context.pc Kind.Fetch (fetched_in D.digest_of machine.old.0 (run_now run) (runner machine.old.0 (run_now run)) positions)) machine.new.0 }
    ensures choice { machine.new.1 ≡ machine.old.1 }
{
    let pc = machine.context(run.e).pc;
    let request = machine.run_request(run, pc, Kind::Fetch);
    match machine.sought(request, walk) {
        Sought::Table { pa, .. } => {
            read_run_table(machine, run, Purpose::Word, pc, Kind::Fetch, walk, pa);
        }
        Sought::At { pa } => fetch_in(machine, run, page_at(pa)),
        Sought::PageFault => page_fault(machine, run, Kind::Fetch, pc),
    }
}

// The data of a load is reached, whose walk is so far.
fn load<D: Digester, F: Fn(&[SlotUse]) -> usize>(
    machine: &mut Machine<D, F>,
    run: Run,
    word: u32,
    walk: Walk,
    address: u64,
    width: u8,
    signed: bool,
    rd: u8,
)
    requires can { CanRun machine.old.0 (run_now run) }
    requires breaks { CanBreak machine.old.0 (run_now run) }
    requires seeks { CanSeek machine.old.0 (run_request machine.old.0 (run_now run) address Kind.Load) walk }
    requires width { IsTrue (is_width width) }
    requires rd { rd < 32 }
    requires choice { NamesPosition F.Fn machine.old.1 }
    ensures event { IsEvent (FnReturnsAt F.Fn machine.old.1) (λ positions. run_translates D.digest_of machine.old.0 (run_now run) (runner machine.old.0 (run_now run)) positions (Micro.Reaching word) walk
        address Kind.Load (loads_in D.digest_of machine.old.0 (run_now run) (runner machine.old.0 (run_now run)) positions address width signed rd)) machine.new.0 }
    ensures choice { machine.new.1 ≡ machine.old.1 }
{
    let request = machine.run_request(run, address, Kind::Load);
    match machine.sought(request, walk) {
        Sought::Table { pa, .. } => {
            let purpose = Purpose::Data { word };
            read_run_table(machine, run, purpose, address, Kind::Load, walk, pa);
        }
        Sought::At { pa } => load_in(machine, run, address, width, signed, rd, page_at(pa)),
        Sought::PageFault => page_fault(machine, run, Kind::Load, address),
    }
}

// The data of a store is reached, whose walk is so far.
fn store<D: Digester, F: Fn(&[SlotUse]) -> usize>(
    machine: &mut Machine<D, F>,
    run: Run,
    word: u32,
    walk: Walk,
    address: u64,
    width: u8,
    value: u64,
)
    requires can { CanRun machine.old.0 (run_now run) }
    requires breaks { CanBreak machine.old.0 (run_now run) }
    requires seeks { CanSeek machine.old.0 (run_request machine.old.0 (run_now run) address Kind.Store) walk }
    requires width { IsTrue (is_width width) }
    requires aligned { address % width ≡ 0 }
    requires choice { NamesPosition F.Fn machine.old.1 }
    ensures event { IsEvent (FnReturnsAt F.Fn machine.old.1) (λ positions. run_translates D.digest_of machine.old.0 (run_now run) (runner machine.old.0 (run_now run)) positions (Micro.Reaching word) walk
        address Kind.Store (stores_in D.digest_of machine.old.0 (run_now run) (runner machine.old.0 (run_now run)) positions address width value)) machine.new.0 }
    ensures choice { machine.new.1 ≡ machine.old.1 }
{
    let request = machine.run_request(run, address, Kind::Store);
    match machine.sought(request, walk) {
        Sought::Table { pa, .. } => {
            let purpose = Purpose::Data { word };
            read_run_table(machine, run, purpose, address, Kind::Store, walk, pa);
        }
        Sought::At { pa } => store_in(machine, run, address, width, value, page_at(pa)),
        Sought::PageFault => page_fault(machine, run, Kind::Store, address),
    }
}

// The data of an instruction that loads or stores is reached; no other instruction seeks data.
fn reach<D: Digester, F: Fn(&[SlotUse]) -> usize>(
    machine: &mut Machine<D, F>,
    run: Run,
    word: u32,
    walk: Walk,
    act: Act,
)
    requires can { CanRun machine.old.0 (run_now run) }
    requires breaks { CanBreak machine.old.0 (run_now run) }
    requires seeks { CanSeekData machine.old.0 (run_now run) walk act }
    requires access { IsAccess act }
    requires choice { NamesPosition F.Fn machine.old.1 }
    ensures event { IsEvent (FnReturnsAt F.Fn machine.old.1) (λ positions. reaches D.digest_of machine.old.0 (run_now run) (runner machine.old.0 (run_now run)) positions word walk act) machine.new.0 }
    ensures choice { machine.new.1 ≡ machine.old.1 }
{
    match act {
        Act::Load {
            address,
            width,
            signed,
            rd,
        } => load(machine, run, word, walk, address, width, signed, rd),
        Act::Store {
            address,
            width,
            value,
        } => store(machine, run, word, walk, address, width, value),
        Act::Set(_) => {}
        Act::Call { .. } => {}
        Act::Trap { .. } => {}
    }
}

/// The next event of a run, by where its instruction is.
pub fn advance_run<D: Digester, F: Fn(&[SlotUse]) -> usize>(
    machine: &mut Machine<D, F>,
    run: Run,
    micro: Micro,
)
    requires can { CanReach machine.old.0 (run_now run) micro }
    requires choice { NamesPosition F.Fn machine.old.1 }
    ensures event { IsEvent (FnReturnsAt F.Fn machine.old.1) (λ positions. runs D.digest_of machine.old.0 run.hart.0 positions run.e.0 run.budget micro run.count) machine.new.0 }
    ensures choice { machine.new.1 ≡ machine.old.1 }
{
    match micro {
        Micro::Fetching(walk) => fetch(machine, run, walk),
        Micro::Reaching { word, walk } => {
            let act = act_of(machine, run.e, word);
            reach(machine, run, word, walk, act);
        }
        Micro::Faulting { va, kind } => page_fault(machine, run, kind, va),
    }
}
