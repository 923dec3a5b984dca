// The leaf of an address in the host's tables.
ghost use Rattle.std.specs.Prelude.{◌≡◌, ◌+◌, ◌<◌, ◌%◌, IfOk};
ghost use Rattle.std.specs.Result.{result_err};
ghost use Rattle.mon_host.specs.Leaves.{early_refusal, leaf_slot};

use mon_fence::Fences;
use mon_tables::host_slot;
use pl_base::{No, PAGE_BYTES, Space, Va, Vpn};

/// The bytes of a word.
pub(crate) const WORD_BYTES: u8 = 8;

/// Page and offset of the leaf's word of an address.
///
/// Refused in this order: `BadAddress` where it isn't a page's address, or is past those that the last-level tables reach; `Busy` where a
/// removal of it is under way.
pub(crate) fn leaf_slot(fences: &Fences, tables: u8, va: Va) -> Result<(u32, u16), No>
    ensures refusal { result_err result ≡ early_refusal tables fences.now va }
    ensures slot { IfOk result (λ slot. slot ≡ leaf_slot tables va) }
    ensures page { IfOk result (λ slot. slot.0 < 2 + tables) }
    ensures offset { IfOk result (λ slot. slot.1 < 4096) }
    ensures aligned { IfOk result (λ slot. slot.1 % 8 ≡ 0) }
{
    if va.0 % PAGE_BYTES != 0 {
        return Err(No::BadAddress);
    }
    let vpn = Vpn(va.0 / PAGE_BYTES);
    let Some(slot) = host_slot(tables, vpn) else {
        return Err(No::BadAddress);
    };
    if fences.covers(Space::HOST, vpn) {
        return Err(No::Busy);
    }
    Ok(slot)
}
