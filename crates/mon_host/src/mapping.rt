// The event of `map`.
ghost use Rattle.std.specs.Prelude.{◌≡◌, ◌+◌, ◌*◌, ◌≤◌, IsTrue, unwrap_or};
ghost use Rattle.std.specs.Fn.{FnReturnsAt};
ghost use Rattle.pl_base.specs.Perms.{are_page_perms};
ghost use Rattle.mem_slots.specs.Choices.{NamesPosition};
ghost use Rattle.mem_ctl.specs.Access.{Leaves};
ghost use Rattle.mem_ctl.specs.Stops.{step_answer};
ghost use Rattle.mon_owner.specs.Owners.{is_host, may_be_mapped, owner_at};
ghost use Rattle.mon_host.specs.Leaves.{IsHostEvent};
ghost use Rattle.mon_host.specs.Mapping.{map_of, map_refusal};

use crate::leaves::{WORD_BYTES, leaf_slot};
use mem_ctl::{Ctl, Stop};
use mem_slots::SlotUse;
use mon_fence::Fences;
use mon_owner::{Owner, Owners};
use mon_tables::leaf_word;
use pl_base::{Mode, No, Perms, Va};
use pl_digest::Digester;

/// Maps a page of the host at an address, and counts the mapping.
///
/// Refused in this order: `BadAddress`, `Busy`, a fault of the read, `Mapped`, `NotYours` with the page, a fault of the write. A refusal
/// maps and counts nothing; what the read and the write did to the slots stays.
pub fn map<D: Digester, F: Fn(&[SlotUse]) -> usize>(
    ctl: &mut Ctl<D, F>,
    owners: &mut Owners,
    fences: &Fences,
    tables: u8,
    va: Va,
    page: u32,
    perms: Perms,
) -> Result<(), Stop>
    requires guarded { 2 + tables ≤ 64 * ctl.old.0.zones }
    requires perms { IsTrue (are_page_perms perms) }
    requires few { IsTrue (is_host (owner_at owners.old page)) → IsTrue (may_be_mapped (owner_at owners.old page)) }
    requires choice { NamesPosition F.Fn ctl.old.1 }
    ensures event { IsHostEvent (FnReturnsAt F.Fn ctl.old.1) (map_of D.digest_of tables fences.now owners.old va page perms) ctl.old.0 (step_answer result) ctl.new.0 owners.new }
    ensures leaves { Leaves D.digest_of ctl.old.0 ctl.new.0 }
    ensures choice { ctl.new.1 ≡ ctl.old.1 }
{
    ctl.trees_hold();
    let (at, offset) = match leaf_slot(fences, tables, va) {
        Ok(slot) => slot,
        Err(cause) => return Err(Stop::No(cause)),
    };
    let word = ctl.read_word(at, offset)?;
    if let Some(cause) = map_refusal(owners, page, word) {
        return Err(Stop::No(cause));
    }
    ctl.write_part(at, offset, WORD_BYTES, leaf_word(page, perms, Mode::Super))?;
    owners.add_map(page);
    Ok(())
}

// Why a page isn't mapped where this word stands.
fn map_refusal(owners: &Owners, page: u32, word: u64) -> Option<No>
    ensures { result ≡ map_refusal owners.now page word }
{
    if word != 0 {
        return Some(No::Mapped);
    }
    if !is_host(owners.of(page)) {
        return Some(No::NotYours(page));
    }
    None
}

// Whether the owner is the host. A page past the pool has none.
fn is_host(owner: Option<Owner>) -> bool
    ensures { result ≡ is_host (unwrap_or owner Owner.Guard) }
{
    matches!(owner, Some(Owner::Host { .. }))
}
