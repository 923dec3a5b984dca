// Rules 14 to 18: the images, and their pages.
ghost use Rattle.std.specs.Prelude.{◌≡◌, ◌<◌, ◌≤◌, ◌++◌, not, is_some, map, length, position, option_map, IfOk, IfSome, OnOk, Ok};
ghost use Rattle.std.specs.List.{filter_map, flat_map};
ghost use Rattle.std.specs.Option.{option_to_list};
ghost use Rattle.toml.specs.View.{view, table_view};
ghost use Rattle.pl_history.specs.Rules.{is_entry};
ghost use Rattle.world_lines.specs.Arguments.{bytes_of_hex};
ghost use Rattle.world_setup.specs.Answers.{Answers};
ghost use Rattle.world_setup.specs.Keys.{images_in, pages_in};
ghost use Rattle.world_setup.specs.Images.{is_image_array, entry_at, enters, has_entry, is_page_array, has_pages, perms_at, bytes_at, has_perms, has_bytes, page_of_bytes, page_of, image_pages_of, image_from, image_of, pages_hold, images_hold, images_of};

use crate::fault::{SetupFault, none_at, unless};
use crate::keys::pages_in;
use crate::toml_data::{are_tables, items_at, member, member_of, text_of};
use mon_image::{Image, ImagePage, ImagePages, PageBytes};
use pl_base::{IMAGE_START, Listed, Memory, PAGE_BYTES, Perms};
use pl_io::read_hex;
use std::alloc::Global;
use toml::{Table, Value};
use world_lines::{bytes_of_hex, is_hex_text, perms_of_text};

// Absent, or an array of at most 64 tables.
#[tactic(auto, using(crate::proofs::ViewRules::views))]
fn is_image_array(value: Option<&Value>) -> bool
    ensures { result ≡ is_image_array (option_map (λ v. view v.now) value.entry) }
{
    match value {
        None => true,
        Some(Value::Array(items)) => items.len() <= 64 && are_tables(items.as_slice()),
        Some(_) => false,
    }
}

fn entry_at(image: &Value) -> Option<u64>
    ensures { result ≡ entry_at (view image.now) }
{
    read_hex(text_of(image, "entry")?.as_bytes())
}

// A multiple of 4 in an image of so many pages.
fn is_entry(pages: usize, entry: u64) -> bool
    ensures { result ≡ is_entry pages entry }
{
    entry % 4 == 0 && IMAGE_START <= entry && (entry - IMAGE_START) / PAGE_BYTES < pages as u64
}

// The same, or where the image has no array of pages, a multiple of 4 from 0x10000 on.
#[tactic(auto, using(crate::proofs::ViewRules::views))]
fn enters(pages: Option<&Value>, entry: u64) -> bool
    ensures { result ≡ enters (option_map (λ v. view v.now) pages.entry) entry }
{
    match pages {
        Some(Value::Array(items)) => is_entry(items.len(), entry),
        _ => entry % 4 == 0 && IMAGE_START <= entry,
    }
}

fn has_entry(image: &Value) -> bool
    ensures { result ≡ has_entry (view image.now) }
{
    match entry_at(image) {
        Some(entry) => enters(member_of(image, "pages"), entry),
        None => false,
    }
}

// An array of 1 to 256 tables.
#[tactic(auto, using(crate::proofs::ViewRules::views))]
fn is_page_array(value: Option<&Value>) -> bool
    ensures { result ≡ is_page_array (option_map (λ v. view v.now) value.entry) }
{
    match value {
        Some(Value::Array(items)) => {
            1 <= items.len() && items.len() <= 256 && are_tables(items.as_slice())
        }
        _ => false,
    }
}

fn has_pages(image: &Value) -> bool
    ensures { result ≡ has_pages (view image.now) }
{
    is_page_array(member_of(image, "pages"))
}

fn perms_at(page: &Value) -> Option<Perms>
    ensures { result ≡ perms_at (view page.now) }
{
    perms_of_text(text_of(page, "perms")?.as_bytes())
}

fn bytes_at(alloc: Global, page: &Value) -> Result<Option<Vec<u8>>, Memory>
    ensures { IfOk result (λ found. option_map (λ v. v.items) found ≡ bytes_at (view page.now)) }
{
    match text_of(page, "bytes") {
        Some(text) => bytes_of_hex(alloc, text.as_bytes()),
        None => Ok(None),
    }
}

fn has_perms(page: &Value) -> bool
    ensures { result ≡ has_perms (view page.now) }
{
    perms_at(page).is_some()
}

fn has_bytes(page: &Value) -> bool
    ensures { result ≡ has_bytes (view page.now) }
{
    match text_of(page, "bytes") {
        Some(text) => is_hex_text(text.as_bytes()),
        None => false,
    }
}

/// The bytes, filled up with zeros to a page.
pub(crate) fn page_of_bytes(mut bytes: Vec<u8>) -> Result<PageBytes, Memory>
    ensures { IfOk result (λ page. page ≡ page_of_bytes bytes.items) }
{
    bytes.resize(PAGE_BYTES as usize, 0)?;
    Ok(PageBytes::new(bytes))
}

fn page_of(alloc: Global, page: &Value) -> Result<Option<ImagePage>, Memory>
    ensures { IfOk result (λ found. found ≡ page_of (view page.now)) }
{
    let Some(perms) = perms_at(page) else {
        return Ok(None);
    };
    let Some(bytes) = bytes_at(alloc, page)? else {
        return Ok(None);
    };
    let bytes = page_of_bytes(bytes)?;
    Ok(Some(ImagePage { perms, bytes }))
}

// A page for each item.
fn image_pages_of(alloc: Global, items: &[Value]) -> Result<Option<Vec<ImagePage>>, Memory>
    ensures { IfOk result (λ found. option_map (λ v. v.items) found ≡ image_pages_of (map view items.now)) }
{
    let mut pages = Vec::new(alloc);
    for item in items {
        let Some(page) = page_of(alloc, item)? else {
            return Ok(None);
        };
        pages.push(page)?;
    }
    Ok(Some(pages))
}

fn image_from(entry: Option<u64>, pages: Vec<ImagePage>) -> Option<Image>
    ensures { result ≡ image_from entry pages.items }
{
    let entry = entry?;
    if !is_entry(pages.len(), entry) || pages.is_empty() || pages.len() > 256 {
        return None;
    }
    Some(Image {
        entry,
        pages: ImagePages::new(pages),
    })
}

fn image_of(alloc: Global, image: &Value) -> Result<Option<Image>, Memory>
    ensures { IfOk result (λ found. found ≡ image_of (view image.now)) }
{
    match image_pages_of(alloc, pages_in(image))? {
        Some(pages) => Ok(image_from(entry_at(image), pages)),
        None => Ok(None),
    }
}

fn without_entry(images: &[Value]) -> Option<usize>
    ensures first { result ≡ position (λ v. not (has_entry (view v))) images.now }
    ensures within { IfSome result (λ at. at < length images.now) }
{
    images.iter().position(|image| !has_entry(image))
}

fn first_without_entry(table: &Table) -> Option<usize>
    ensures first { result ≡ position (λ image. not (has_entry image)) (images_in (table_view table.now)) }
    ensures within { IfSome result (λ at. at < length (images_in (table_view table.now))) }
{
    without_entry(items_at(table, "image"))
}

fn without_pages(images: &[Value]) -> Option<usize>
    ensures first { result ≡ position (λ v. not (has_pages (view v))) images.now }
    ensures within { IfSome result (λ at. at < length images.now) }
{
    images.iter().position(|image| !has_pages(image))
}

fn first_without_pages(table: &Table) -> Option<usize>
    ensures first { result ≡ position (λ image. not (has_pages image)) (images_in (table_view table.now)) }
    ensures within { IfSome result (λ at. at < length (images_in (table_view table.now))) }
{
    without_pages(items_at(table, "image"))
}

fn without_perms(pages: &[&Value]) -> Option<usize>
    ensures first { result ≡ position (λ r. not (has_perms (view r.now))) pages.now }
    ensures within { IfSome result (λ at. at < length pages.now) }
{
    pages.iter().position(|page| !has_perms(page))
}

fn first_without_perms(pages: &[&Value]) -> Option<usize>
    ensures first { result ≡ position (λ page. not (has_perms page)) (map (λ r. view r.now) pages.now) }
    ensures within { IfSome result (λ at. at < length pages.now) }
{
    without_perms(pages)
}

fn without_bytes(pages: &[&Value]) -> Option<usize>
    ensures first { result ≡ position (λ r. not (has_bytes (view r.now))) pages.now }
    ensures within { IfSome result (λ at. at < length pages.now) }
{
    pages.iter().position(|page| !has_bytes(page))
}

fn first_without_bytes(pages: &[&Value]) -> Option<usize>
    ensures first { result ≡ position (λ page. not (has_bytes page)) (map (λ r. view r.now) pages.now) }
    ensures within { IfSome result (λ at. at < length pages.now) }
{
    without_bytes(pages)
}

// Adds the pages of an image.
fn push_pages<'a>(all: &mut Vec<&'a Value>, image: &'a Value) -> Result<(), Memory>
    ensures { OnOk result (map (λ r. view r.now) all.new.items ≡ map (λ r. view r.now) all.old.items ++ pages_in (view image.entry.now)) }
{
    for page in pages_in(image) {
        all.push(page)?;
    }
    Ok(())
}

fn gather_pages<'a>(alloc: Global, images: &'a [Value]) -> Result<Vec<&'a Value>, Memory>
    ensures { IfOk result (λ pages. map (λ r. view r.now) pages.items ≡ flat_map (λ v. pages_in (view v)) images.now) }
{
    let mut all = Vec::new(alloc);
    for image in images {
        push_pages(&mut all, image)?;
    }
    Ok(all)
}

// The pages of all images.
fn all_pages(alloc: Global, table: &Table) -> Result<Vec<&Value>, Memory>
    ensures { IfOk result (λ pages. map (λ r. view r.now) pages.items ≡ flat_map pages_in (images_in (table_view table.now))) }
{
    gather_pages(alloc, items_at(table, "image"))
}

// Rules 17 and 18.
#[tactic(auto, using(crate::proofs::Chains::fault_on), unfolding(crate::specs::Images::pages_hold))]
fn pages_hold(pages: &[&Value]) -> Result<(), SetupFault>
    requires { length pages.now ≤ 16384 }
    ensures { Answers (pages_hold (map (λ r. view r.now) pages.now)) result }
{
    none_at(first_without_perms(pages), 17)?;
    none_at(first_without_bytes(pages), 18)
}

// The same, over the pages of all images, of which so many were read: where all were, their pages hold.
fn all_pages_hold(alloc: Global, table: &Table, images: usize) -> Result<(), SetupFault>
    requires rules { images_hold (table_view table.now) ≡ Ok tt }
    requires images { images ≡ length (filter_map image_of (images_in (table_view table.now))) }
    ensures { Answers (pages_hold (flat_map pages_in (images_in (table_view table.now)))) result }
{
    if images == items_at(table, "image").len() {
        return Ok(());
    }
    let pages = all_pages(alloc, table)?;
    pages_hold(pages.as_slice())
}

// Rules 14 to 16.
#[tactic(auto, using(crate::proofs::Chains::fault_on), unfolding(crate::specs::Images::images_hold))]
fn images_hold(table: &Table) -> Result<(), SetupFault>
    ensures { Answers (images_hold (table_view table.now)) result }
{
    unless(is_image_array(member(table, "image")), 14)?;
    none_at(first_without_entry(table), 15)?;
    none_at(first_without_pages(table), 16)
}

// Adds the image of an item, where it is one.
fn push_image(alloc: Global, images: &mut Vec<Image>, item: &Value) -> Result<(), Memory>
    ensures { OnOk result (images.new.items ≡ images.old.items ++ option_to_list (image_of (view item.now))) }
{
    if let Some(image) = image_of(alloc, item)? {
        images.push(image)?;
    }
    Ok(())
}

fn gather_images(alloc: Global, items: &[Value]) -> Result<Listed<Image>, Memory>
    ensures { IfOk result (λ images. images ≡ filter_map (λ v. image_of (view v)) items.now) }
{
    let mut images = Vec::new(alloc);
    for item in items {
        push_image(alloc, &mut images, item)?;
    }
    Ok(Listed::from_vec(images))
}

// The images of all items.
fn all_images(alloc: Global, table: &Table) -> Result<Listed<Image>, Memory>
    ensures { IfOk result (λ images. images ≡ filter_map image_of (images_in (table_view table.now))) }
{
    gather_images(alloc, items_at(table, "image"))
}

/// The images of a setup.
#[tactic(auto, using(crate::proofs::Chains::fault_on), unfolding(crate::specs::Images::images_of))]
pub(crate) fn images_of(alloc: Global, table: &Table) -> Result<Listed<Image>, SetupFault>
    ensures images { Answers (images_of (table_view table.now)) result }
    ensures all { IfOk result (λ images. length images ≡ length (images_in (table_view table.now))) }
{
    images_hold(table)?;
    let images = all_images(alloc, table)?;
    all_pages_hold(alloc, table, images.len())?;
    Ok(images)
}
