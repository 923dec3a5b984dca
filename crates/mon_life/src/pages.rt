// The page that a step puts, and its bytes.
ghost use Rattle.std.specs.Prelude.{◌≡◌, ◌≤◌, ◌<◌, ◌+◌, ◌*◌, IsTrue, All, length, slice_index_or};
ghost use Rattle.std.specs.Fn.{FnReturnsAt};
ghost use Rattle.pl_base.specs.Perms.{are_page_perms};
ghost use Rattle.mem_slots.specs.Choices.{NamesPosition};
ghost use Rattle.mem_ctl.specs.Calls.{put_page_of};
ghost use Rattle.mem_ctl.specs.Results.{IsCall, outcome_of};
ghost use Rattle.mon_enclave.specs.Records.{page_number_of};
ghost use Rattle.mon_tables.specs.Space.{without_write};
ghost use Rattle.mon_tables.specs.Tables.{number_table_bytes, table_number};
ghost use Rattle.mon_life.specs.Pages.{leaf_for, leaves_of, page_put_at};

use arrayvec::ArrayVec;
use mem_ctl::{Broken, Ctl};
use mem_slots::SlotUse;
use mon_enclave::PageKind;
use mon_image::{Image, ImagePage};
use mon_tables::{Leaf, table_number, table_page};
use pl_base::{EncNo, MOST_IMAGE_PAGES, Perms};
use pl_digest::Digester;

/// Puts the page of step `at` of the line that makes a number in these pages.
#[tactic(auto, unfolding(crate::specs::Pages::page_put_at))]
pub(crate) fn put_page_at<D: Digester, F: Fn(&[SlotUse]) -> usize>(
    ctl: &mut Ctl<D, F>,
    kinds: &[PageKind],
    e: EncNo,
    image: &Image,
    tables: u8,
    at: u32,
) -> Result<(), Broken>
    requires count { length kinds.now ≡ length image.now.pages }
    requires at { at < length image.now.pages + 3 }
    requires inside { All (λ kind. page_number_of kind < 64 * ctl.old.0.zones) kinds.now }
    requires guarded { 2 + tables + 3 * (e.0 + 1) ≤ 64 * ctl.old.0.zones }
    requires perms { All (λ page. IsTrue (are_page_perms page.perms)) image.now.pages }
    requires choice { NamesPosition F.Fn ctl.old.1 }
    ensures call { let put = page_put_at tables e.0 image.now kinds.now at in
        IsCall (FnReturnsAt F.Fn ctl.old.1) (put_page_of D.digest_of put.page put.bytes) ctl.old.0 (outcome_of result) ctl.new.0 }
    ensures choice { ctl.new.1 ≡ ctl.old.1 }
{
    let pages = image.pages.as_slice();
    let at = at as usize;
    if at < pages.len() {
        return ctl.put_page(kinds[at].page(), pages[at].bytes.as_array());
    }
    put_table(ctl, kinds, e, pages, tables, 2 - (at - pages.len()) as u8)
}

// Puts a table of a number with these pages: 2 the root, 1 the middle, 0 the last.
fn put_table<D: Digester, F: Fn(&[SlotUse]) -> usize>(
    ctl: &mut Ctl<D, F>,
    kinds: &[PageKind],
    e: EncNo,
    image: &[ImagePage],
    tables: u8,
    level: u8,
) -> Result<(), Broken>
    requires count { length kinds.now ≡ length image.now }
    requires few { length image.now ≤ 256 }
    requires level { level < 3 }
    requires guarded { 2 + tables + 3 * (e.0 + 1) ≤ 64 * ctl.old.0.zones }
    requires perms { All (λ page. IsTrue (are_page_perms page.perms)) image.now }
    requires choice { NamesPosition F.Fn ctl.old.1 }
    ensures call { IsCall (FnReturnsAt F.Fn ctl.old.1)
        (put_page_of D.digest_of (table_number tables e.0 level) (number_table_bytes tables e.0 level (leaves_of kinds.now image.now)))
        ctl.old.0 (outcome_of result) ctl.new.0 }
    ensures choice { ctl.new.1 ≡ ctl.old.1 }
{
    let leaves = leaves_of(kinds, image);
    let mut bytes = [0; 4096];
    table_page(tables, e, level, leaves.as_slice(), &mut bytes);
    ctl.put_page(table_number(tables, e, level), &bytes)
}

// The leaves of a number with these pages, in the image's order.
fn leaves_of(kinds: &[PageKind], image: &[ImagePage]) -> ArrayVec<Leaf, MOST_IMAGE_PAGES>
    requires count { length kinds.now ≡ length image.now }
    requires few { length image.now ≤ 256 }
    ensures { result.items ≡ leaves_of kinds.now image.now }
{
    let mut leaves = ArrayVec::new();
    for (i, kind) in kinds.iter().enumerate() {
        leaves.push(leaf_for(*kind, image[i].perms));
    }
    leaves
}

// The leaf of a page of an image: a shared page may not be written.
fn leaf_for(kind: PageKind, perms: Perms) -> Leaf
    ensures { result ≡ leaf_for kind perms }
{
    match kind {
        PageKind::Own(page) => Leaf { page, perms },
        PageKind::Shared(page) => Leaf {
            page,
            perms: without_write(perms),
        },
    }
}

// Permissions without W.
fn without_write(perms: Perms) -> Perms
    ensures { result ≡ without_write perms }
{
    Perms(perms.0 & (Perms::R.0 | Perms::X.0))
}
