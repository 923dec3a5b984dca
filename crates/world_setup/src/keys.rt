// Rule 3: which keys a setup has.
ghost use Rattle.std.specs.Prelude.{◌≡◌, map};
ghost use Rattle.std.specs.List.{list_all};
ghost use Rattle.toml.specs.View.{view, table_view};
ghost use Rattle.world_setup.specs.TomlData.{has_only};
ghost use Rattle.world_setup.specs.Keys.{top_keys, hart_keys, page_keys, table_has_only, images_in, harts_in, pages_in, is_known_image, has_known_keys};

use crate::toml_data::{has_only, items_at, items_of, member_of};
use toml::{Table, Value};

/// The pages of an image.
pub(crate) fn pages_in(image: &Value) -> &[Value]
    ensures { map view result.now ≡ pages_in (view image.now) }
{
    items_of(member_of(image, "pages"))
}

// Whether an item that is a table has only these keys.
fn table_has_only(value: &Value, names: &[&str]) -> bool
    ensures { result ≡ table_has_only (map (λ n. n.now) names.now) (view value.now) }
{
    match value {
        Value::Table(table) => has_only(table, names),
        _ => true,
    }
}

fn all_have_only(values: &[Value], names: &[&str]) -> bool
    ensures { result ≡ list_all (λ v. table_has_only (map (λ n. n.now) names.now) (view v)) values.now }
{
    values.iter().all(|value| table_has_only(value, names))
}

fn has_known_pages(image: &Value) -> bool
    ensures { result ≡ list_all (table_has_only page_keys) (pages_in (view image.now)) }
{
    all_have_only(pages_in(image), &["perms", "bytes"])
}

// Whether an image, where it is a table, and its pages have no other key.
fn is_known_image(image: &Value) -> bool
    ensures { result ≡ is_known_image (view image.now) }
{
    if !table_has_only(image, &["entry", "pages"]) {
        return false;
    }
    has_known_pages(image)
}

fn all_are_known(images: &[Value]) -> bool
    ensures { result ≡ list_all (λ v. is_known_image (view v)) images.now }
{
    images.iter().all(|image| is_known_image(image))
}

fn has_known_images(table: &Table) -> bool
    ensures { result ≡ list_all is_known_image (images_in (table_view table.now)) }
{
    all_are_known(items_at(table, "image"))
}

fn has_known_harts(table: &Table) -> bool
    ensures { result ≡ list_all (table_has_only hart_keys) (harts_in (table_view table.now)) }
{
    all_have_only(items_at(table, "hart"), &["lines"])
}

#[tactic(auto, unfolding(crate::specs::Keys::top_keys))]
fn has_top_keys(table: &Table) -> bool
    ensures { result ≡ has_only top_keys (table_view table.now) }
{
    has_only(
        table,
        &[
            "version", "harts", "zones", "slots", "tables", "enclaves", "choice", "pmp", "order",
            "attacker", "image", "hart",
        ],
    )
}

/// Whether no other key stands in the top table, in an image, in a page or in a hart.
pub(crate) fn has_known_keys(table: &Table) -> bool
    ensures { result ≡ has_known_keys (table_view table.now) }
{
    if !has_top_keys(table) {
        return false;
    }
    if !has_known_images(table) {
        return false;
    }
    has_known_harts(table)
}
