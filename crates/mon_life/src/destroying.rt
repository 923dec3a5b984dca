// The events of `destroy`.
ghost use Rattle.std.specs.Prelude.{◌≡◌, ◌≤◌, ◌<◌, ◌*◌, None, All, filter_map, length};
ghost use Rattle.std.specs.Option.{IsSomeAnd};
ghost use Rattle.std.specs.Result.{result_err};
ghost use Rattle.mon_enclave.specs.Records.{page_if_own};
ghost use Rattle.mon_fence.specs.Fences.{fence_of};
ghost use Rattle.mon_life.specs.Destroying.{all_zeroed, destroy_begun, destroy_ended, held_by};

use arrayvec::ArrayVec;
use mem_ctl::Ctl;
use mon_enclave::{Enclaves, PageKind};
use mon_fence::Fences;
use mon_owner::Owners;
use pl_base::{EncNo, HartNo, MOST_IMAGE_PAGES, MOST_SPARES, No, Space, State};
use pl_digest::Digester;

/// How many pages a number holds at most.
pub const MOST_HELD: usize = MOST_IMAGE_PAGES + MOST_SPARES;

/// Begins to give a number back: it is dying, and the hart posts its fence of all of the number's space.
///
/// Refused with `NoEnclave` where the number is free or sealed, and then with `WrongState` where it is on, building or dying. A refusal
/// changes nothing, and posts no fence.
#[tactic(auto, unfolding(crate::specs::Destroying::destroy_begun))]
pub fn destroy_begin(
    enclaves: &mut Enclaves,
    fences: &mut Fences,
    h: HartNo,
    e: EncNo,
) -> Result<(), No>
    requires number { e.0 < length enclaves.old }
    requires hart { h.0 < length fences.old }
    requires none { fence_of fences.old h.0 ≡ None }
    ensures refusal { result_err result ≡ (destroy_begun enclaves.old fences.old h.0 e).refusal }
    ensures enclaves { enclaves.new ≡ (destroy_begun enclaves.old fences.old h.0 e).enclaves }
    ensures fences { fences.new ≡ (destroy_begun enclaves.old fences.old h.0 e).fences }
{
    let state = enclaves.get(e).state;
    if state.is_absent() {
        return Err(No::NoEnclave);
    }
    if state.is_under_way() {
        return Err(No::WrongState(state));
    }
    enclaves.set_state(e, State::Dying);
    fences.post(h, Space::of_number(e), None);
    Ok(())
}

/// Gives a number back, where nobody is lacking: each page that it holds is zeroed off chip and the host's, with no mappings; the number is
/// free; and the hart leaves its fence. Pages that it shares stay the shadow's.
#[tactic(auto, unfolding(crate::specs::Destroying::destroy_ended))]
pub fn destroy_end<D: Digester, F>(
    ctl: &mut Ctl<D, F>,
    owners: &mut Owners,
    enclaves: &mut Enclaves,
    fences: &mut Fences,
    h: HartNo,
    e: EncNo,
)
    requires number { e.0 < length enclaves.old }
    requires nobody { IsSomeAnd (fence_of fences.old h.0) (λ fence. fence.need.0 ≡ 0) }
    requires inside { All (λ page. page < 64 * ctl.old.0.zones) (held_by enclaves.old e.0) }
    requires owned { All (λ page. page < length owners.old) (held_by enclaves.old e.0) }
    ensures ctl { ctl.new ≡ ((destroy_ended ctl.old.0 owners.old enclaves.old fences.old h.0 e.0).ctl, ctl.old.1) }
    ensures owners { owners.new ≡ (destroy_ended ctl.old.0 owners.old enclaves.old fences.old h.0 e.0).owners }
    ensures enclaves { enclaves.new ≡ (destroy_ended ctl.old.0 owners.old enclaves.old fences.old h.0 e.0).enclaves }
    ensures fences { fences.new ≡ (destroy_ended ctl.old.0 owners.old enclaves.old fences.old h.0 e.0).fences }
{
    let pages = held_by(enclaves, e);
    zero_all(ctl, pages.as_slice());
    owners.give_all(pages.as_slice());
    enclaves.free(e);
    fences.leave(h);
}

/// The pages that a number holds: those that are its own, and then its spares.
pub fn held_by(enclaves: &Enclaves, e: EncNo) -> ArrayVec<u32, MOST_HELD>
    requires { e.0 < length enclaves.now }
    ensures { result.items ≡ held_by enclaves.now e.0 }
{
    let enclave = enclaves.get(e);
    let mut pages = own_pages(enclave.pages.as_slice());
    for page in enclave.spares.as_slice() {
        pages.push(*page);
    }
    pages
}

// The pages in a list that are a number's own.
fn own_pages(kinds: &[PageKind]) -> ArrayVec<u32, MOST_HELD>
    requires { length kinds.now ≤ 256 }
    ensures pages { result.items ≡ filter_map page_if_own kinds.now }
    ensures few { length result.items ≤ 256 }
{
    let mut pages = ArrayVec::new();
    for kind in kinds {
        match *kind {
            PageKind::Own(page) => pages.push(page),
            PageKind::Shared(_) => {}
        }
    }
    pages
}

/// Makes all bytes of these pages zero, off chip alone.
pub fn zero_all<D: Digester, F>(ctl: &mut Ctl<D, F>, pages: &[u32])
    requires { All (λ page. page < 64 * ctl.old.0.zones) pages.now }
    ensures { ctl.new ≡ (all_zeroed ctl.old.0 pages.now, ctl.old.1) }
{
    for page in pages {
        ctl.raw_zero(*page);
    }
}
