// The first event of `create` and `shadow`.
ghost use Rattle.std.specs.Prelude.{◌≡◌, ◌<◌, length, unwrap_or};
ghost use Rattle.std.specs.Result.{result_err};
ghost use Rattle.pl_base.specs.Pages.{first_twice};
ghost use Rattle.pl_base.specs.Refusals.{first_refusal};
ghost use Rattle.mon_life.specs.Making.{create_begun, create_refusal_of, first_barred, first_mapped, first_not_host, is_host, page_refusals, taker};
ghost use Rattle.mon_owner.specs.Owners.{is_mapped};

use mon_enclave::Enclaves;
use mon_image::Image;
use mon_owner::{Owner, Owners};
use pl_base::{EncNo, HartNo, No};
use rv_pmp::Pmp;

/// Takes all pages for a free number, and begins to build it from the image of number `number`, as an enclave or as a shadow.
///
/// Refused in this order: `Exists` where the number isn't free; `Count` where the list hasn't the image's length; `Twice` with the first page
/// that stands in the list more than once; `NotYours` with the first that isn't the host's; `StillMapped` with the first that has mappings;
/// `Barred` with the first of which physical memory protection bars a part. A refusal changes nothing. The hart of the number stays as it was.
#[tactic(auto, using(crate::proofs::BegunLemmas::free_pages), unfolding(crate::specs::Making::create_begun))]
pub fn create_begin(
    owners: &mut Owners,
    enclaves: &mut Enclaves,
    pmp: &Pmp,
    _h: HartNo,
    e: EncNo,
    number: u8,
    image: &Image,
    pages: &[u32],
    shadow: bool,
) -> Result<(), No>
    requires { e.0 < length enclaves.old }
    ensures refusal { result_err result ≡ (create_begun owners.old enclaves.old pmp.now e.0 number image.now pages.now shadow).refusal }
    ensures owners { owners.new ≡ (create_begun owners.old enclaves.old pmp.now e.0 number image.now pages.now shadow).owners }
    ensures enclaves { enclaves.new ≡ (create_begun owners.old enclaves.old pmp.now e.0 number image.now pages.now shadow).enclaves }
{
    if let Some(cause) = create_refusal(owners, enclaves, pmp, e, image, pages) {
        return Err(cause);
    }
    owners.take_all(pages, taker(e, shadow));
    enclaves.build(e, number, image, pages);
    Ok(())
}

/// Who owns the pages that a number takes.
pub fn taker(e: EncNo, shadow: bool) -> Owner
    ensures { result ≡ taker e.0 shadow }
{
    if shadow {
        Owner::Shadow(e)
    } else {
        Owner::Enclave(e)
    }
}

// Why a number can't be made of an image and these pages.
fn create_refusal(
    owners: &Owners,
    enclaves: &Enclaves,
    pmp: &Pmp,
    e: EncNo,
    image: &Image,
    pages: &[u32],
) -> Option<No>
    requires { e.0 < length enclaves.now }
    ensures { result ≡ create_refusal_of owners.now enclaves.now pmp.now (length image.now.pages) e.0 pages.now }
{
    if !enclaves.get(e).state.is_free() {
        return Some(No::Exists);
    }
    if pages.len() != image.pages.as_slice().len() {
        return Some(No::Count);
    }
    if let Some(page) = first_twice(pages) {
        return Some(No::Twice(page));
    }
    page_refusal(owners, pmp, pages)
}

/// The first page in a list that stands in it more than once.
pub fn first_twice(pages: &[u32]) -> Option<u32>
    ensures { result ≡ first_twice pages.now }
{
    pages.iter().copied().find(|page| pages.iter().filter(|other| **other == *page).count() > 1)
}

/// Why these pages can't be taken, one cause over the whole list and then the next.
pub fn page_refusal(owners: &Owners, pmp: &Pmp, pages: &[u32]) -> Option<No>
    ensures { result ≡ first_refusal (page_refusals owners.now pmp.now pages.now) }
{
    if let Some(page) = first_not_host(owners, pages) {
        return Some(No::NotYours(page));
    }
    if let Some(page) = first_mapped(owners, pages) {
        return Some(No::StillMapped(page));
    }
    first_barred(pmp, pages).map(No::Barred)
}

// The first page in a list that isn't the host's.
fn first_not_host(owners: &Owners, pages: &[u32]) -> Option<u32>
    ensures { result ≡ first_not_host owners.now pages.now }
{
    pages
        .iter()
        .copied()
        .find(|page| !is_host(owners.of(*page)))
}

// The first page in a list that is mapped.
fn first_mapped(owners: &Owners, pages: &[u32]) -> Option<u32>
    ensures { result ≡ first_mapped owners.now pages.now }
{
    pages
        .iter()
        .copied()
        .find(|page| is_mapped(owners.of(*page)))
}

// The first page in a list that the protection entries don't leave open.
fn first_barred(pmp: &Pmp, pages: &[u32]) -> Option<u32>
    ensures { result ≡ first_barred pmp.now pages.now }
{
    pages.iter().copied().find(|page| !pmp.page_allowed(*page))
}

// Whether the owner is the host. A page past the pool has none.
fn is_host(owner: Option<Owner>) -> bool
    ensures { result ≡ is_host (unwrap_or owner Owner.Guard) }
{
    matches!(owner, Some(Owner::Host { .. }))
}

// Whether the owner is the host, with mappings.
fn is_mapped(owner: Option<Owner>) -> bool
    ensures { result ≡ is_mapped (unwrap_or owner Owner.Guard) }
{
    matches!(owner, Some(Owner::Host { maps: 1.. }))
}
