// Rules 12 and 13: the protection entries, and the order of the first turns.
ghost use Rattle.std.specs.Prelude.{◌≡◌, ◌≤◌, map, option_map, IfSome};
ghost use Rattle.toml.specs.View.{view, table_view};
ghost use Rattle.world_setup.specs.Answers.{Answers};
ghost use Rattle.world_setup.specs.Protection.{entry_above, entries_from, entries_of, protection_of, order_in, order_at};

use crate::fault::SetupFault;
use crate::toml_data::member;
use pl_base::{Actor, Listed};
use rv_pmp::Rule;
use std::alloc::Global;
use toml::{Table, Value};
use world_lines::{entry_of, order_of};

// The entry of a string, above the one before.
fn entry_above(before: u8, item: &Value) -> Option<(u8, Rule)>
    requires { before ≤ 12 }
    ensures value { result ≡ entry_above before (view item.now) }
    ensures most { IfSome result (λ entry. entry.0 ≤ 12) }
{
    let Value::String(text) = item else {
        return None;
    };
    match entry_of(text.as_bytes()) {
        Some(entry) if before + 1 <= entry.0 && entry.0 <= 12 => Some(entry),
        _ => None,
    }
}

// The entries of the items, or the position of the first that is none above the one before.
fn entries_of(alloc: Global, items: &[Value]) -> Result<Listed<(u8, Rule)>, SetupFault>
    ensures { Answers (entries_from 1 0 (map view items.now)) result }
{
    let mut entries = Vec::new(alloc);
    let mut before = 1;
    for item in items {
        let Some(entry) = entry_above(before, item) else {
            return Err(SetupFault::Bad {
                rule: 12,
                item: entries.len() as u32,
            });
        };
        before = entry.0;
        entries.push(entry)?;
    }
    Ok(Listed::from_vec(entries))
}

#[tactic(auto, using(crate::proofs::ViewRules::views))]
fn entries_in(alloc: Global, value: Option<&Value>) -> Result<Listed<(u8, Rule)>, SetupFault>
    ensures { Answers (entries_of (option_map (λ v. view v.now) value.entry)) result }
{
    match value {
        None => Ok(Listed::new(alloc)),
        Some(Value::Array(items)) => entries_of(alloc, items.as_slice()),
        Some(_) => Err(SetupFault::Bad { rule: 12, item: 0 }),
    }
}

/// The protection entries of a setup.
#[tactic(auto, unfolding(crate::specs::Protection::protection_of))]
pub(crate) fn protection_of(alloc: Global, table: &Table) -> Result<Listed<(u8, Rule)>, SetupFault>
    ensures { Answers (protection_of (table_view table.now)) result }
{
    entries_in(alloc, member(table, "pmp"))
}

fn order_in(alloc: Global, harts: u8, value: Option<&Value>) -> Result<Listed<Actor>, SetupFault>
    ensures { Answers (order_in harts (option_map (λ v. view v.now) value.entry)) result }
{
    match value {
        None => Ok(Listed::new(alloc)),
        Some(Value::String(text)) => match order_of(alloc, harts, text.as_bytes())? {
            Ok(actors) => Ok(actors),
            Err(item) => Err(SetupFault::Bad { rule: 13, item }),
        },
        Some(_) => Err(SetupFault::Bad { rule: 13, item: 0 }),
    }
}

/// The order of a setup's first turns.
#[tactic(auto, unfolding(crate::specs::Protection::order_at))]
pub(crate) fn order_at(alloc: Global, harts: u8, table: &Table) -> Result<Listed<Actor>, SetupFault>
    ensures { Answers (order_at harts (table_view table.now)) result }
{
    order_in(alloc, harts, member(table, "order"))
}
