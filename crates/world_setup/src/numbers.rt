// Rules 4 to 11: the numbers of a setup, and the choice.
ghost use Rattle.std.specs.Prelude.{◌≡◌, nat_lt, option_and_then, codes};
ghost use Rattle.toml.specs.View.{table_view};
ghost use Rattle.world_setup.specs.Answers.{Answers};
ghost use Rattle.world_setup.specs.Numbers.{numbers_of, choice_of};
ghost use Rattle.world_setup.specs.TomlData.{text_at};
ghost use Rattle.pl_history.specs.Rules.{guarded_of, pages_of};

use crate::fault::{SetupFault, some_of, unless};
use crate::toml_data::{number_at, text_at};
use pl_history::ChoiceName;
use toml::Table;

/// The numbers of a setup, and the choice.
#[derive(Clone, Copy)]
pub(crate) struct Numbers {
    pub(crate) harts: u8,
    pub(crate) zones: u8,
    pub(crate) slots: u8,
    pub(crate) tables: u8,
    pub(crate) enclaves: u8,
    pub(crate) choice: ChoiceName,
}

fn choice_of(text: &str) -> Option<ChoiceName>
    ensures { result ≡ choice_of text.now }
{
    match text {
        "oldest" => Some(ChoiceName::Oldest),
        "least" => Some(ChoiceName::Least),
        _ => None,
    }
}

fn choice_at(table: &Table) -> Option<ChoiceName>
    ensures { result ≡ option_and_then choice_of (text_at (codes "choice") (table_view table.now)) }
{
    choice_of(text_at(table, "choice")?)
}

// Whether the guarded pages leave some for the pool.
fn leaves_pool(zones: u8, tables: u8, enclaves: u8) -> bool
    ensures { result ≡ nat_lt (guarded_of tables enclaves) (pages_of zones) }
{
    2 + u32::from(tables) + 3 * u32::from(enclaves) < 64 * u32::from(zones)
}

/// The numbers and the choice of a table, or the first of rules 4 to 11 that fails.
#[tactic(auto, using(crate::proofs::Chains::fault_on), unfolding(crate::specs::Numbers::numbers_of))]
pub(crate) fn numbers_of(table: &Table) -> Result<Numbers, SetupFault>
    ensures { Answers (numbers_of (table_view table.now)) result }
{
    some_of(number_at(table, "version", 1, 1), 4)?;
    let harts = some_of(number_at(table, "harts", 1, 8), 5)?;
    let zones = some_of(number_at(table, "zones", 1, 64), 6)?;
    let slots = some_of(number_at(table, "slots", 1, 64), 7)?;
    let tables = some_of(number_at(table, "tables", 1, 32), 8)?;
    let enclaves = some_of(number_at(table, "enclaves", 1, 64), 9)?;
    unless(leaves_pool(zones, tables, enclaves), 10)?;
    let choice = some_of(choice_at(table), 11)?;
    Ok(Numbers {
        harts,
        zones,
        slots,
        tables,
        enclaves,
        choice,
    })
}
