// The first event of `fork`.
ghost use Rattle.std.specs.Prelude.{◌≡◌, ◌<◌, length};
ghost use Rattle.std.specs.Result.{result_err};
ghost use Rattle.mon_shadow.specs.Forking.{fork_begun, fork_refusal_of};

use mon_enclave::Enclaves;
use mon_life::{first_twice, page_refusal, taker};
use mon_owner::Owners;
use pl_base::{EncNo, HartNo, MOST_SPARES, No};
use rv_pmp::Pmp;

/// Takes these pages as the spares of a free number, and begins to build it as a fork of shadow `s`, whose pages it shares.
///
/// Refused in this order: `NoEnclave` where `s` isn't sealed; `Exists` where the number isn't free; `Twice` with the first page that stands in
/// the list more than once; `NotYours` with the first that isn't the host's; `StillMapped` with the first that has mappings; `Barred` with the
/// first of which physical memory protection bars a part; `TooMany` where there are more than 256. A refusal changes nothing. The hart of the
/// number stays as it was.
#[tactic(auto, using(crate::proofs::ForkLemmas::free_pages), unfolding(crate::specs::Forking::fork_begun))]
pub fn fork_begin(
    owners: &mut Owners,
    enclaves: &mut Enclaves,
    pmp: &Pmp,
    _h: HartNo,
    s: EncNo,
    e: EncNo,
    pages: &[u32],
) -> Result<(), No>
    requires shadow { s.0 < length enclaves.old }
    requires number { e.0 < length enclaves.old }
    ensures refusal { result_err result ≡ (fork_begun owners.old enclaves.old pmp.now s e.0 pages.now).refusal }
    ensures owners { owners.new ≡ (fork_begun owners.old enclaves.old pmp.now s e.0 pages.now).owners }
    ensures enclaves { enclaves.new ≡ (fork_begun owners.old enclaves.old pmp.now s e.0 pages.now).enclaves }
{
    if let Some(cause) = fork_refusal(owners, enclaves, pmp, s, e, pages) {
        return Err(cause);
    }
    owners.take_all(pages, taker(e, false));
    enclaves.build_fork(s, e, pages);
    Ok(())
}

// Why a number can't be forked from a shadow with these spares.
fn fork_refusal(
    owners: &Owners,
    enclaves: &Enclaves,
    pmp: &Pmp,
    s: EncNo,
    e: EncNo,
    pages: &[u32],
) -> Option<No>
    requires shadow { s.0 < length enclaves.now }
    requires number { e.0 < length enclaves.now }
    ensures { result ≡ fork_refusal_of owners.now enclaves.now pmp.now s.0 e.0 pages.now }
{
    if !enclaves.get(s).state.is_sealed() {
        return Some(No::NoEnclave);
    }
    if !enclaves.get(e).state.is_free() {
        return Some(No::Exists);
    }
    if let Some(page) = first_twice(pages) {
        return Some(No::Twice(page));
    }
    if let Some(cause) = page_refusal(owners, pmp, pages) {
        return Some(cause);
    }
    (pages.len() > MOST_SPARES).then_some(No::TooMany)
}
