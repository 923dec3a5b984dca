// The event that breaks a page of a forked number.
ghost use Rattle.std.specs.Prelude.{◌≡◌, ◌≤◌, ◌<◌, ◌+◌, ◌*◌, true, None, Some, IsTrue, All, OnErr, length};
ghost use Rattle.std.specs.Fn.{FnReturnsAt};
ghost use Rattle.pl_base.specs.HartSet.{space_of_number};
ghost use Rattle.pl_base.specs.Perms.{are_page_perms};
ghost use Rattle.mem_slots.specs.Choices.{NamesPosition};
ghost use Rattle.mem_ctl.specs.Results.{IsCall, outcome_of};
ghost use Rattle.mon_enclave.specs.Records.{enclave_at, is_shared_at, page_number_of, with_enclave, with_own_page};
ghost use Rattle.mon_fence.specs.Fences.{fence_of, posted};
ghost use Rattle.mon_shadow.specs.Breaking.{IsPageBroken, page_broken, page_copied, page_number_at};
ghost use Rattle.mon_tables.specs.Space.{vpn_of_page};

use mem_ctl::{Broken, Ctl};
use mem_slots::SlotUse;
use mon_enclave::{Enclaves, PageKind};
use mon_fence::Fences;
use mon_tables::{leaf_word, number_slot, vpn_of_page};
use pl_base::{EncNo, HartNo, Mode, Perms, Space};
use pl_digest::Digester;

/// Breaks a page of a forked number (copy on write): the shared page is read through the trees and put into the number's next spare, its leaf
/// leads there with these permissions, the page is the number's own, and the hart posts a fence of its address.
///
/// A refusal changes no record, and posts no fence; it may leave the spare with the shared page's bytes.
pub fn break_page<D: Digester, F: Fn(&[SlotUse]) -> usize>(
    ctl: &mut Ctl<D, F>,
    enclaves: &mut Enclaves,
    fences: &mut Fences,
    tables: u8,
    h: HartNo,
    e: EncNo,
    index: u32,
    perms: Perms,
) -> Result<(), Broken>
    requires number { e.0 < length enclaves.old }
    requires hart { h.0 < length fences.old }
    requires none { fence_of fences.old h.0 ≡ None }
    requires shared { is_shared_at (enclave_at enclaves.old e.0) index ≡ true }
    requires spare { 0 < length (enclave_at enclaves.old e.0).spares }
    requires inside { All (λ kind. page_number_of kind < 64 * ctl.old.0.zones) (enclave_at enclaves.old e.0).pages }
    requires spares { All (λ page. page < 64 * ctl.old.0.zones) (enclave_at enclaves.old e.0).spares }
    requires guarded { 2 + tables + 3 * length enclaves.old ≤ 64 * ctl.old.0.zones }
    requires perms { IsTrue (are_page_perms perms) }
    requires choice { NamesPosition F.Fn ctl.old.1 }
    ensures event { IsPageBroken (FnReturnsAt F.Fn ctl.old.1) (page_broken D.digest_of tables h.0 e index perms enclaves.old fences.old)
        ctl.old.0 (outcome_of result) ctl.new.0 enclaves.new fences.new }
    ensures records { OnErr result (enclaves.new ≡ enclaves.old) }
    ensures no_fence { OnErr result (fences.new ≡ fences.old) }
    ensures choice { ctl.new.1 ≡ ctl.old.1 }
{
    let enclave = enclaves.get(e);
    let shared = page_number_at(enclave.pages.as_slice(), index);
    let spare = enclave.spares.as_slice()[0];
    if let Err(broken) = copy_page(ctl, tables, e, index, shared, spare, perms) {
        return Err(broken);
    }
    take_spare(enclaves, fences, h, e, index);
    Ok(())
}

// A shared page is the number's own, and the hart posts a fence of its address.
fn take_spare(enclaves: &mut Enclaves, fences: &mut Fences, h: HartNo, e: EncNo, index: u32)
    requires number { e.0 < length enclaves.old }
    requires hart { h.0 < length fences.old }
    requires none { fence_of fences.old h.0 ≡ None }
    requires shared { is_shared_at (enclave_at enclaves.old e.0) index ≡ true }
    requires spare { 0 < length (enclave_at enclaves.old e.0).spares }
    ensures enclaves { enclaves.new ≡ with_enclave enclaves.old e.0 (with_own_page (enclave_at enclaves.old e.0) index) }
    ensures fences { fences.new ≡ posted fences.old h.0 (space_of_number e) (Some (vpn_of_page index)) }
{
    enclaves.own_page(e, index);
    fences.post(h, Space::of_number(e), Some(vpn_of_page(index)));
}

// Reads a page and puts its bytes into another one, to which the leaf of page `index` of the number then leads.
fn copy_page<D: Digester, F: Fn(&[SlotUse]) -> usize>(
    ctl: &mut Ctl<D, F>,
    tables: u8,
    e: EncNo,
    index: u32,
    shared: u32,
    spare: u32,
    perms: Perms,
) -> Result<(), Broken>
    requires index { index < 256 }
    requires shared { shared < 64 * ctl.old.0.zones }
    requires spare { spare < 64 * ctl.old.0.zones }
    requires guarded { 2 + tables + 3 * (e.0 + 1) ≤ 64 * ctl.old.0.zones }
    requires perms { IsTrue (are_page_perms perms) }
    requires choice { NamesPosition F.Fn ctl.old.1 }
    ensures call { IsCall (FnReturnsAt F.Fn ctl.old.1) (page_copied D.digest_of tables e.0 index shared spare perms) ctl.old.0 (outcome_of result) ctl.new.0 }
    ensures choice { ctl.new.1 ≡ ctl.old.1 }
{
    let mut bytes = [0; 4096];
    if let Err(broken) = ctl.get_page(shared, &mut bytes) {
        return Err(broken);
    }
    if let Err(broken) = ctl.put_page(spare, &bytes) {
        return Err(broken);
    }
    let (table, offset) = number_slot(tables, e, index);
    ctl.write_part(table, offset, 8, leaf_word(spare, perms, Mode::User))
}

// The number of page `index`.
fn page_number_at(pages: &[PageKind], index: u32) -> u32
    requires { index < length pages.now }
    ensures { result ≡ page_number_at pages.now index }
{
    pages[index as usize].page()
}
