// The event of `drop`.
ghost use Rattle.std.specs.Prelude.{◌≡◌, ◌<◌, ◌*◌, All, IsTrue, length, option_map};
ghost use Rattle.std.specs.Result.{result_err};
ghost use Rattle.pl_base.specs.States.{is_sealed};
ghost use Rattle.mon_enclave.specs.Records.{enclave_at};
ghost use Rattle.mon_life.specs.Destroying.{held_by};
ghost use Rattle.mon_shadow.specs.Dropping.{drop_refusal_of, first_child_of, is_child_of, shadow_dropped};

use mem_ctl::Ctl;
use mon_enclave::Enclaves;
use mon_life::{held_by, zero_all};
use mon_owner::Owners;
use pl_base::{EncNo, No};
use pl_digest::Digester;

/// Gives a shadow back: each of its pages is zeroed off chip and the host's, with no mappings, and its number is free.
///
/// Refused with `NoEnclave` where the number isn't sealed, and then with `InUse` and the lowest number that was forked from it. A refusal
/// changes nothing.
#[tactic(auto, unfolding(crate::specs::Dropping::shadow_dropped))]
pub fn drop_shadow<D: Digester, F>(
    ctl: &mut Ctl<D, F>,
    owners: &mut Owners,
    enclaves: &mut Enclaves,
    s: EncNo,
) -> Result<(), No>
    requires number { s.0 < length enclaves.old }
    requires inside { IsTrue (is_sealed (enclave_at enclaves.old s.0).state) → All (λ page. page < 64 * ctl.old.0.zones) (held_by enclaves.old s.0) }
    requires owned { IsTrue (is_sealed (enclave_at enclaves.old s.0).state) → All (λ page. page < length owners.old) (held_by enclaves.old s.0) }
    ensures refusal { result_err result ≡ (shadow_dropped ctl.old.0 owners.old enclaves.old s.0).refusal }
    ensures ctl { ctl.new ≡ ((shadow_dropped ctl.old.0 owners.old enclaves.old s.0).ctl, ctl.old.1) }
    ensures owners { owners.new ≡ (shadow_dropped ctl.old.0 owners.old enclaves.old s.0).owners }
    ensures enclaves { enclaves.new ≡ (shadow_dropped ctl.old.0 owners.old enclaves.old s.0).enclaves }
{
    if let Some(cause) = drop_refusal(enclaves, s) {
        return Err(cause);
    }
    let pages = held_by(enclaves, s);
    zero_all(ctl, pages.as_slice());
    owners.give_all(pages.as_slice());
    enclaves.free(s);
    Ok(())
}

// Why a shadow can't be given back.
fn drop_refusal(enclaves: &Enclaves, s: EncNo) -> Option<No>
    requires { s.0 < length enclaves.now }
    ensures { result ≡ drop_refusal_of enclaves.now s.0 }
{
    if !enclaves.get(s).state.is_sealed() {
        return Some(No::NoEnclave);
    }
    first_child(enclaves, s).map(No::InUse)
}

// The lowest number that was forked from a shadow.
fn first_child(enclaves: &Enclaves, s: EncNo) -> Option<EncNo>
    ensures { option_map (λ (child : EncNo). child.0) result ≡ first_child_of enclaves.now s.0 }
{
    for child in 0..enclaves.len() as u8 {
        if is_child(enclaves, EncNo(child), s) {
            return Some(EncNo(child));
        }
    }
    None
}

// Whether a number was forked from a shadow.
fn is_child(enclaves: &Enclaves, child: EncNo, s: EncNo) -> bool
    requires { child.0 < length enclaves.now }
    ensures { result ≡ is_child_of s.0 (enclave_at enclaves.now child.0) }
{
    match enclaves.get(child).parent {
        Some(parent) => parent.0 == s.0,
        None => false,
    }
}
