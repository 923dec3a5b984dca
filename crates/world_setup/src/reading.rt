// A setup from its text.
ghost use Rattle.toml.specs.View.{table_view};
ghost use Rattle.world_setup.specs.Answers.{Answers};
ghost use Rattle.world_setup.specs.SetupOf.{AreFew, lines_known, setup_of_table, setup_of};

use crate::fault::{SetupFault, after, none_at, unless, wide};
use crate::images::images_of;
use crate::keys::has_known_keys;
use crate::numbers::{Numbers, numbers_of};
use crate::protection::{order_at, protection_of};
use crate::references::{counts_of, first_attack, first_unknown, first_wait};
use crate::scripts::{Scripts, count_lines, scripts_of};
use pl_history::{Setup, SetupParts};
use std::alloc::Global;
use toml::Table;

/// The longest text of a setup, in bytes.
pub const MOST_TEXT: usize = 16_777_216;

// Rules 23 and 24.
#[tactic(auto, using(crate::proofs::Chains::fault_on), unfolding(crate::specs::SetupOf::lines_known))]
fn lines_known(
    alloc: Global,
    numbers: &Numbers,
    images: usize,
    scripts: &Scripts,
) -> Result<(), SetupFault>
    requires { AreFew images scripts.now }
    ensures { Answers (lines_known numbers.now images scripts.now) result }
{
    let lines = scripts.lines.as_slice();
    let attacks = scripts.attacker.as_slice();
    none_at(
        wide(first_unknown(numbers.enclaves, images as u8, lines)),
        23,
    )?;
    let counts = counts_of(alloc, lines, attacks)?;
    let counts = counts.as_slice();
    none_at(wide(first_wait(counts, lines)), 24)?;
    let attack = first_attack(alloc, numbers.zones, counts, numbers.harts, attacks)?;
    none_at(after(count_lines(lines), wide(attack)), 24)
}

// The setup of a table.
#[tactic(auto, using(crate::proofs::Chains::fault_on), unfolding(crate::specs::SetupOf::setup_of_table))]
fn setup_of_table(alloc: Global, table: &Table) -> Result<Setup, SetupFault>
    ensures { Answers (setup_of_table (table_view table.now)) result }
{
    unless(has_known_keys(table), 3)?;
    let numbers = numbers_of(table)?;
    let pmp = protection_of(alloc, table)?;
    let order = order_at(alloc, numbers.harts, table)?;
    let images = images_of(alloc, table)?;
    let scripts = scripts_of(alloc, numbers.harts, table)?;
    lines_known(alloc, &numbers, images.len(), &scripts)?;
    let Scripts { lines, attacker } = scripts;
    Ok(Setup::new(SetupParts {
        harts: numbers.harts,
        zones: numbers.zones,
        slots: numbers.slots,
        tables: numbers.tables,
        enclaves: numbers.enclaves,
        choice: numbers.choice,
        pmp,
        order,
        images,
        lines,
        attacker,
    }))
}

/// The setup of a text, or the first rule of 1 to 24 that fails, with the position of its item.
/// Want of memory may come in the place of any answer.
pub fn read_setup(alloc: Global, bytes: &[u8]) -> Result<Setup, SetupFault>
    ensures { Answers (setup_of bytes.now) result }
{
    if bytes.len() > MOST_TEXT {
        return Err(SetupFault::Bad { rule: 1, item: 0 });
    }
    match toml::table_from_slice(alloc, bytes) {
        Ok(table) => setup_of_table(alloc, &table),
        Err(cause) => {
            if cause.is_memory() {
                return Err(SetupFault::Memory);
            }
            Err(SetupFault::NotToml(cause))
        }
    }
}
