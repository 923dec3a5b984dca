// A list of pages: numbers and ranges, with commas between.
ghost use Rattle.std.specs.Prelude.{◌≡◌, ◌++◌, nat_le, sum_by, option_map, Some, None, if◌then◌else◌, IfOk, OnOk};
ghost use Rattle.std.specs.List.{flat_map};
ghost use Rattle.world_lines.specs.Words.{parts_of};
ghost use Rattle.world_lines.specs.PageLists.{range_from, range_of, all_ranges, range_length, range_pages, page_list_of};

use crate::arguments::small_number_of;
use crate::words::first_part;
use pl_base::{Listed, Memory};
use std::alloc::Global;

// The most pages of a list.
const MOST_PAGES: u64 = 512;

/// Pages from the first to the last, both in it.
#[derive(Clone, Copy)]
pub(crate) struct PageRange {
    first: u32,
    last: u32,
}

impl PageRange {
    fn count(&self) -> u64
        ensures { result ≡ range_length self.now }
    {
        (u64::from(self.last) + 1).saturating_sub(u64::from(self.first))
    }
}

fn range_from(first: Option<u32>, last: Option<u32>) -> Option<PageRange>
    ensures { result ≡ range_from first last }
{
    match (first, last) {
        (Some(first), Some(last)) if first <= last => Some(PageRange { first, last }),
        _ => None,
    }
}

// `a`, or `a-b`.
fn range_of(text: &[u8]) -> Option<PageRange>
    ensures { result ≡ range_of text.now }
{
    let first = first_part(b'-', text);
    let Some(rest) = first.rest else {
        return range_from(small_number_of(first.part), small_number_of(first.part));
    };
    let last = first_part(b'-', rest);
    match last.rest {
        None => range_from(small_number_of(first.part), small_number_of(last.part)),
        Some(_) => None,
    }
}

// A range for each part of a text.
fn all_ranges(alloc: Global, text: &[u8]) -> Result<Option<Vec<PageRange>>, Memory>
    ensures { IfOk result (λ found. option_map (λ v. v.items) found ≡ all_ranges (parts_of 44 text.now)) }
{
    let mut ranges = Vec::new(alloc);
    let mut rest = Some(text);
    while let Some(left) = rest {
        let first = first_part(b',', left);
        let Some(range) = range_of(first.part) else {
            return Ok(None);
        };
        ranges.push(range)?;
        rest = first.rest;
    }
    Ok(Some(ranges))
}

// How many pages the ranges have together, where these are at most 512.
fn few_pages(ranges: &[PageRange]) -> Option<u64>
    ensures { result ≡ (if nat_le (sum_by range_length ranges.now) 512 then Some (sum_by range_length ranges.now) else None) }
{
    let mut count = 0;
    for range in ranges {
        if range.count() > MOST_PAGES - count {
            return None;
        }
        count += range.count();
    }
    Some(count)
}

// Puts the pages of a range behind others.
fn push_range(pages: &mut Vec<u32>, range: &PageRange) -> Result<(), Memory>
    ensures { OnOk result (pages.new.items ≡ pages.old.items ++ range_pages range.now) }
{
    if range.first > range.last {
        return Ok(());
    }
    pages.extend(range.first..range.last)?;
    pages.push(range.last)?;
    Ok(())
}

// The pages of all ranges, one after the other. There are `count` of them.
fn spread(alloc: Global, ranges: &[PageRange], count: usize) -> Result<Vec<u32>, Memory>
    ensures { IfOk result (λ pages. pages.items ≡ flat_map range_pages ranges.now) }
{
    let mut pages = Vec::with_capacity(alloc, count)?;
    for range in ranges {
        push_range(&mut pages, range)?;
    }
    Ok(pages)
}

/// `-`, or ranges with commas between. A range is counted before it is spread.
pub(crate) fn page_list_of(alloc: Global, text: &[u8]) -> Result<Option<Listed<u32>>, Memory>
    ensures { IfOk result (λ found. found ≡ page_list_of text.now) }
{
    if text == b"-".as_slice() {
        return Ok(Some(Listed::new(alloc)));
    }
    let Some(ranges) = all_ranges(alloc, text)? else {
        return Ok(None);
    };
    let Some(count) = few_pages(&ranges) else {
        return Ok(None);
    };
    let pages = spread(alloc, &ranges, count as usize)?;
    Ok(Some(Listed::from_vec(pages)))
}
