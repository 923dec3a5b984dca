// The machine that a run begins with.
ghost use Rattle.std.specs.Prelude.{◌≡◌, ◌≤◌, ◌+◌, [], IfOk, replicate};
ghost use Rattle.mon_enclave.specs.Records.{free_enclave};
ghost use Rattle.mon_owner.specs.Owners.{first_owners};
ghost use Rattle.pl_history.specs.Rules.{guarded_of, pages_of};
ghost use Rattle.world_machine.specs.Reached.{empty_history, opening_world};

use crate::machine::Machine;
use crate::tlbs::Tlbs;
use mem_ctl::Ctl;
use mem_slots::Choice;
use mon_enclave::Enclaves;
use mon_fence::Fences;
use mon_owner::Owners;
use mon_tables::start_words;
use pl_base::{Listed, Memory};
use pl_digest::Digester;
use pl_history::{History, Setup, all_pages, guarded_pages};
use std::alloc::{AllocError, Global};
use world_attack::room_for;
use world_machine::Under;

// So many lines that haven't begun.
fn idle_lines(alloc: Global, harts: u8) -> Result<Listed<Under>, AllocError>
    ensures { IfOk result (λ lines. lines ≡ replicate harts Under.Idle) }
{
    let mut lines = Vec::with_capacity(alloc, usize::from(harts))?;
    lines.resize(usize::from(harts), Under::Idle)?;
    Ok(Listed::from_vec(lines))
}

// So many counts of 0.
fn zero_counts(alloc: Global, actors: usize) -> Result<Listed<u32>, AllocError>
    ensures { IfOk result (λ counts. counts ≡ replicate actors 0) }
{
    let mut counts = Vec::with_capacity(alloc, actors)?;
    counts.resize(actors, 0)?;
    Ok(Listed::from_vec(counts))
}

// The owners of all pages, and the records of all numbers, of which each is free.
fn free_records(
    alloc: Global,
    zones: u8,
    tables: u8,
    enclaves: u8,
) -> Result<(Owners, Enclaves), Memory>
    requires some { 1 ≤ enclaves }
    requires few { enclaves ≤ 64 }
    requires room { guarded_of tables enclaves ≤ pages_of zones }
    ensures { IfOk result (λ records. records ≡ (first_owners (guarded_of tables enclaves) (pages_of zones), replicate enclaves free_enclave)) }
{
    let guarded = guarded_pages(tables, enclaves);
    let owners = Owners::new(alloc, guarded, all_pages(zones))?;
    let enclaves = Enclaves::new(alloc, enclaves)?;
    Ok((owners, enclaves))
}

// Of so many harts the translations, which are none, and how far each one's line is; and the counts of answered lines, the
// attacker's last.
fn idle_harts(alloc: Global, harts: u8) -> Result<(Tlbs, Listed<Under>, Listed<u32>), AllocError>
    ensures { IfOk result (λ idle. idle ≡ (replicate harts [], replicate harts Under.Idle, replicate (harts + 1) 0)) }
{
    let tlbs = Tlbs::new(alloc, harts)?;
    let under = idle_lines(alloc, harts)?;
    let answered = zero_counts(alloc, usize::from(harts) + 1)?;
    Ok((tlbs, under, answered))
}

// The history that a run of a setup begins with: empty, with room for all that the run adds.
fn history_of(alloc: Global, setup: &Setup) -> Result<History, Memory>
    ensures { IfOk result (λ history. history ≡ empty_history setup.now) }
{
    let (entries, bytes) = room_for(setup);
    Ok(History::new(alloc, entries, bytes)?)
}

// All parts that a machine begins with but its controller.
fn all_but_controller(
    alloc: Global,
    setup: &Setup,
) -> Result<
    (
        (Owners, Enclaves),
        (Tlbs, Listed<Under>, Listed<u32>),
        History,
    ),
    Memory,
>
    ensures records { IfOk result (λ parts. parts.0 ≡ (first_owners (guarded_of setup.now.tables setup.now.enclaves) (pages_of setup.now.zones), replicate setup.now.enclaves free_enclave)) }
    ensures idle { IfOk result (λ parts. parts.1 ≡ (replicate setup.now.harts [], replicate setup.now.harts Under.Idle, replicate (setup.now.harts + 1) 0)) }
    ensures history { IfOk result (λ parts. parts.2 ≡ empty_history setup.now) }
{
    let parts = setup.parts();
    let records = free_records(alloc, parts.zones, parts.tables, parts.enclaves)?;
    let idle = idle_harts(alloc, parts.harts)?;
    let history = history_of(alloc, setup)?;
    Ok((records, idle, history))
}

impl<D: Digester, F: Drop> Machine<D, F> {
    /// The machine with which a run of a setup begins. It takes all memory that the run needs.
    pub fn opening(
        alloc: Global,
        digester: D,
        setup: Setup,
        choice: Choice<F>,
    ) -> Result<Machine<D, F>, Memory>
        ensures { IfOk result (λ m. m ≡ (opening_world D.digest_of setup, choice)) }
    {
        let rest = all_but_controller(alloc, &setup)?;
        let parts = setup.parts();
        let words = start_words(parts.tables);
        let ctl = Ctl::new(
            alloc,
            digester,
            parts.zones,
            parts.slots,
            words.as_slice(),
            choice,
        )?;
        let fences = Fences::new(parts.harts);
        let pmp = parts.protection();
        let ((owners, enclaves), (tlbs, under, answered), history) = rest;
        Ok(Machine {
            setup,
            pmp,
            ctl,
            owners,
            enclaves,
            tlbs,
            fences,
            under,
            answered,
            history,
            collision: None,
            moves: 0,
        })
    }
}
