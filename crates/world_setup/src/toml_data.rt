// Readers of the untyped data that `toml` parses a text to.
ghost use Rattle.std.specs.Prelude.{◌≡◌, map, option_map};
ghost use Rattle.std.specs.List.{list_all, list_any};
ghost use Rattle.std.specs.Str.{bytes_eq};
ghost use Rattle.toml.specs.Data.{get_member};
ghost use Rattle.toml.specs.View.{view, table_view};
ghost use Rattle.world_setup.specs.TomlData.{has_only, members_in, items_at, text_at, number_in, is_table, is_text};

use toml::{Table, Value};

/// The value at a key.
pub(crate) fn member<'a>(table: &'a Table, key: &str) -> Option<&'a Value>
    ensures { option_map (λ v. view v.now) result ≡ get_member key.now (table_view table.now) }
{
    table.get(key)
}

/// The value at a key of a table, and none of anything else.
pub(crate) fn member_of<'a>(value: &'a Value, key: &str) -> Option<&'a Value>
    ensures { option_map (λ v. view v.now) result ≡ get_member key.now (members_in (view value.now)) }
{
    match value {
        Value::Table(table) => member(table, key),
        _ => None,
    }
}

/// The items of an array, and none of anything else.
#[tactic(auto, using(crate::proofs::ViewRules::views))]
pub(crate) fn items_of<'a>(value: Option<&'a Value>) -> &'a [Value]
    ensures { map view result.now ≡ items_at (option_map (λ v. view v.now) value.entry) }
{
    match value {
        Some(Value::Array(items)) => items.as_slice(),
        _ => &[],
    }
}

/// The items of the array at a key.
pub(crate) fn items_at<'a>(table: &'a Table, key: &str) -> &'a [Value]
    ensures { map view result.now ≡ items_at (get_member key.now (table_view table.now)) }
{
    items_of(member(table, key))
}

/// The text at a key.
pub(crate) fn text_at<'a>(table: &'a Table, key: &str) -> Option<&'a str>
    ensures { option_map (λ t. t.now) result ≡ text_at key.now (table_view table.now) }
{
    match member(table, key) {
        Some(Value::String(text)) => Some(text.as_str()),
        _ => None,
    }
}

/// The text at a key of a table, and none of anything else.
pub(crate) fn text_of<'a>(value: &'a Value, key: &str) -> Option<&'a str>
    ensures { option_map (λ t. t.now) result ≡ text_at key.now (members_in (view value.now)) }
{
    match value {
        Value::Table(table) => text_at(table, key),
        _ => None,
    }
}

/// The whole number at a key, where it is from `low` to `high`.
pub(crate) fn number_at(table: &Table, key: &str, low: u8, high: u8) -> Option<u8>
    ensures { result ≡ number_in low high (get_member key.now (table_view table.now)) }
{
    match member(table, key) {
        Some(Value::Integer(number)) if i64::from(low) <= *number && *number <= i64::from(high) => {
            Some(*number as u8)
        }
        _ => None,
    }
}

fn is_among(key: &str, names: &[&str]) -> bool
    ensures { result ≡ list_any (λ n. bytes_eq key.now n.now) names.now }
{
    names.iter().any(|name| key == *name)
}

/// Whether each key of the table is one of the names.
pub(crate) fn has_only(table: &Table, names: &[&str]) -> bool
    ensures { result ≡ has_only (map (λ n. n.now) names.now) (table_view table.now) }
{
    for key in table.keys() {
        if !is_among(key.as_str(), names) {
            return false;
        }
    }
    true
}

fn is_table(value: &Value) -> bool
    ensures { result ≡ is_table (view value.now) }
{
    matches!(value, Value::Table(_))
}

fn is_text(value: &Value) -> bool
    ensures { result ≡ is_text (view value.now) }
{
    matches!(value, Value::String(_))
}

/// Whether each value is a table.
pub(crate) fn are_tables(values: &[Value]) -> bool
    ensures { result ≡ list_all (λ v. is_table (view v)) values.now }
{
    values.iter().all(|value| is_table(value))
}

/// Whether each value is a string.
pub(crate) fn are_texts(values: &[Value]) -> bool
    ensures { result ≡ list_all (λ v. is_text (view v)) values.now }
{
    values.iter().all(|value| is_text(value))
}
