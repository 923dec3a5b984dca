// The events of `unmap`.
ghost use Rattle.std.specs.Prelude.{◌≡◌, ◌≢◌, ◌+◌, ◌*◌, ◌^◌, ◌<◌, ◌≤◌, ◌==◌, IsTrue, None, length};
ghost use Rattle.std.specs.Fn.{FnReturnsAt};
ghost use Rattle.std.specs.Option.{IsSomeAnd};
ghost use Rattle.rv_sv39.specs.Word.{ppn_of};
ghost use Rattle.mem_slots.specs.Choices.{NamesPosition};
ghost use Rattle.mem_ctl.specs.Access.{Leaves};
ghost use Rattle.mem_ctl.specs.Stops.{step_answer};
ghost use Rattle.mon_fence.specs.Fences.{fence_of};
ghost use Rattle.mon_owner.specs.Owners.{is_mapped, owner_at};
ghost use Rattle.mon_tables.specs.Words.{ppn_of_page};
ghost use Rattle.mon_host.specs.Leaves.{IsHostEvent};
ghost use Rattle.mon_host.specs.Unmapping.{HaveHostLeaves, page_of_leaf, unmap_begun, unmap_ended};

use crate::leaves::{WORD_BYTES, leaf_slot};
use mem_ctl::{Ctl, Stop};
use mem_geom::MEMORY_START;
use mem_slots::SlotUse;
use mon_fence::Fences;
use mon_owner::Owners;
use pl_base::{HartNo, No, PAGE_BYTES, Space, Va};
use pl_digest::Digester;

// The physical page number of page 0 of off-chip memory.
const FIRST_PPN: u64 = MEMORY_START / PAGE_BYTES;

// A leaf's page number stands from bit 10 on.
const PPN_BIT: u32 = 10;

// One past the last physical page number.
const PPN_END: u64 = 1 << 44;

/// Takes the mapping at an address away, and posts the hart's fence of it. The answer is the page, which stays counted as mapped.
///
/// Refused in this order: `BadAddress`, `Busy`, a fault of the read, `NotMapped`, a fault of the write. A refusal takes nothing away and
/// posts no fence; what the read and the write did to the slots stays.
pub fn unmap_begin<D: Digester, F: Fn(&[SlotUse]) -> usize>(
    ctl: &mut Ctl<D, F>,
    fences: &mut Fences,
    tables: u8,
    h: HartNo,
    va: Va,
) -> Result<u32, Stop>
    requires guarded { 2 + tables ≤ 64 * ctl.old.0.zones }
    requires leaves { HaveHostLeaves tables ctl.old.0 }
    requires hart { h.0 < length fences.old }
    requires none { fence_of fences.old h.0 ≡ None }
    requires choice { NamesPosition F.Fn ctl.old.1 }
    ensures event { IsHostEvent (FnReturnsAt F.Fn ctl.old.1) (unmap_begun D.digest_of tables fences.old h.0 va) ctl.old.0 (step_answer result) ctl.new.0 fences.new }
    ensures leaves { Leaves D.digest_of ctl.old.0 ctl.new.0 }
    ensures choice { ctl.new.1 ≡ ctl.old.1 }
{
    ctl.trees_hold();
    let (at, offset) = match leaf_slot(fences, tables, va) {
        Ok(slot) => slot,
        Err(cause) => return Err(Stop::No(cause)),
    };
    let word = ctl.read_word(at, offset)?;
    if word == 0 {
        return Err(Stop::No(No::NotMapped));
    }
    ctl.write_part(at, offset, WORD_BYTES, 0)?;
    fences.post(h, Space::HOST, Some(va.vpn()));
    Ok(page_of_leaf(word))
}

// The page that a leaf names.
fn page_of_leaf(word: u64) -> u32
    requires inside { ppn_of_page 0 ≤ ppn_of word }
    requires small { ppn_of word < ppn_of_page (2 ^ 32) }
    ensures { result ≡ page_of_leaf word }
{
    ((word >> PPN_BIT) % PPN_END - FIRST_PPN) as u32
}

/// Ends a removal for which nobody is lacking: the hart leaves its fence, and the page has one mapping less.
#[tactic(auto, unfolding(crate::specs::Unmapping::unmap_ended))]
pub fn unmap_end(owners: &mut Owners, fences: &mut Fences, h: HartNo, page: u32)
    requires nobody { IsSomeAnd (fence_of fences.old h.0) (λ fence. fence.need.0 ≡ 0) }
    requires mapped { IsTrue (is_mapped (owner_at owners.old page)) }
    ensures owners { owners.new ≡ (unmap_ended owners.old fences.old h.0 page).owners }
    ensures fences { fences.new ≡ (unmap_ended owners.old fences.old h.0 page).fences }
{
    fences.leave(h);
    owners.drop_map(page);
}
