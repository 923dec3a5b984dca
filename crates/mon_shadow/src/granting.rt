// The event of `grant`.
ghost use Rattle.std.specs.Prelude.{◌≡◌, ◌<◌, length};
ghost use Rattle.std.specs.Result.{result_err};
ghost use Rattle.mon_shadow.specs.Granting.{grant_made, grant_refusal_of};

use mon_enclave::Enclaves;
use mon_life::{page_refusal, taker};
use mon_owner::Owners;
use pl_base::{EncNo, MOST_SPARES, No};
use rv_pmp::Pmp;

/// Gives a number a page of the host as its last spare.
///
/// Refused in this order: `NoEnclave` where the number is free or sealed; `WrongState` where it is on, building or dying; `NotYours` where the
/// page isn't the host's; `StillMapped` where it has mappings; `Barred` where physical memory protection bars a part of it; `TooMany` where 256
/// were given since the number was made. A refusal changes nothing.
#[tactic(auto, unfolding(crate::specs::Granting::grant_made))]
pub fn grant(
    owners: &mut Owners,
    enclaves: &mut Enclaves,
    pmp: &Pmp,
    e: EncNo,
    page: u32,
) -> Result<(), No>
    requires { e.0 < length enclaves.old }
    ensures refusal { result_err result ≡ (grant_made owners.old enclaves.old pmp.now e.0 page).refusal }
    ensures owners { owners.new ≡ (grant_made owners.old enclaves.old pmp.now e.0 page).owners }
    ensures enclaves { enclaves.new ≡ (grant_made owners.old enclaves.old pmp.now e.0 page).enclaves }
{
    if let Some(cause) = grant_refusal(owners, enclaves, pmp, e, page) {
        return Err(cause);
    }
    owners.take_all(&[page], taker(e, false));
    enclaves.add_spare(e, page);
    Ok(())
}

// Why a number can't be given a page as a spare.
fn grant_refusal(owners: &Owners, enclaves: &Enclaves, pmp: &Pmp, e: EncNo, page: u32) -> Option<No>
    requires { e.0 < length enclaves.now }
    ensures { result ≡ grant_refusal_of owners.now enclaves.now pmp.now e.0 page }
{
    let enclave = enclaves.get(e);
    if enclave.state.is_absent() {
        return Some(No::NoEnclave);
    }
    if enclave.state.is_under_way() {
        return Some(No::WrongState(enclave.state));
    }
    if let Some(cause) = page_refusal(owners, pmp, &[page]) {
        return Some(cause);
    }
    (enclave.given as usize >= MOST_SPARES).then_some(No::TooMany)
}
