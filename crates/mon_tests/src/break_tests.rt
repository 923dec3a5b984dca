// A page that is broken, by hand.
ghost use Rattle.std.specs.Prelude.{◌≡◌, ◌<◌, [], ◌∷◌, None, IfOk, length};
ghost use Rattle.mem_slots.specs.Choices.{NamesPosition};
ghost use Rattle.mon_enclave.specs.Records.{enclave_at};
ghost use Rattle.mon_enclave.specs.declared.enclave.PageKind.TheVariants.{Shared};
ghost use Rattle.mon_fence.specs.Fences.{fence_of};

use crate::images::image;
use crate::zone::{oldest, zone};
use mem_ctl::{Broken, Ctl};
use mem_slots::{Choice, SlotUse};
use mon_enclave::Enclaves;
use mon_fence::Fences;
use mon_shadow::{break_page, breaks_tell};
use pl_base::{EncNo, HartNo, Perms, Space, State, Vpn};
use pl_digest::{Digester, OneByte};
use std::alloc::Global;
use std::process::Abort;
use std::test::Fail;

const READ_WRITE: Perms = Perms(3);

// A word is written into page 20.
fn writes<F: Fn(&[SlotUse]) -> usize>(rt: &impl Abort, ctl: &mut Ctl<OneByte, F>)
    requires zone { ctl.old.0.zones ≡ 1 }
    requires choice { NamesPosition F.Fn ctl.old.1 }
    ensures zone { ctl.new.0.zones ≡ 1 }
    ensures choice { NamesPosition F.Fn ctl.new.1 }
{
    assert_eq!(rt; ctl.write_part(20, 8, 8, 9), Ok(()));
}

// Number 0 is a shadow in page 20, and number 1 its fork, with page 21 as a spare.
fn forked(rt: &impl Abort, alloc: Global) -> Result<Enclaves, Fail>
    ensures two { IfOk result (λ all. length all ≡ 2) }
    ensures pages { IfOk result (λ all. (enclave_at all 1).pages ≡ Shared 20 ∷ []) }
    ensures spares { IfOk result (λ all. (enclave_at all 1).spares ≡ 21 ∷ []) }
{
    let image = image(rt, alloc, 0x10000, &[READ_WRITE])?;
    assert!(rt; image.pages.as_slice().len() == 1);
    let mut enclaves = Enclaves::new(alloc, 2)?;
    enclaves.build(EncNo(0), 7, &image, &[20]);
    enclaves.set_state(EncNo(0), State::Sealed);
    enclaves.build_fork(EncNo(0), EncNo(1), &[21]);
    Ok(enclaves)
}

// Page 0 of number 1 is broken on hart 0.
fn break_first<D: Digester, F: Fn(&[SlotUse]) -> usize>(
    ctl: &mut Ctl<D, F>,
    enclaves: &mut Enclaves,
    fences: &mut Fences,
) -> Result<(), Broken>
    requires zone { ctl.old.0.zones ≡ 1 }
    requires two { length enclaves.old ≡ 2 }
    requires pages { (enclave_at enclaves.old 1).pages ≡ Shared 20 ∷ [] }
    requires spares { (enclave_at enclaves.old 1).spares ≡ 21 ∷ [] }
    requires hart { 0 < length fences.old }
    requires none { fence_of fences.old 0 ≡ None }
    requires choice { NamesPosition F.Fn ctl.old.1 }
    ensures zone { ctl.new.0.zones ≡ 1 }
{
    breaks_tell();
    ctl.trees_hold();
    break_page(ctl, enclaves, fences, 1, HartNo(0), EncNo(1), 0, READ_WRITE)
}

// It is broken under a fence: the spare has the word, and number 1's leaf of page 0, which stands in page 8 at word 16, names the spare.
fn breaks<F: Fn(&[SlotUse]) -> usize>(
    rt: &impl Abort,
    ctl: &mut Ctl<OneByte, F>,
    enclaves: &mut Enclaves,
) -> Result<(), Broken>
    requires zone { ctl.old.0.zones ≡ 1 }
    requires two { length enclaves.old ≡ 2 }
    requires pages { (enclave_at enclaves.old 1).pages ≡ Shared 20 ∷ [] }
    requires spares { (enclave_at enclaves.old 1).spares ≡ 21 ∷ [] }
    requires choice { NamesPosition F.Fn ctl.old.1 }
{
    let mut fences = Fences::new(2);
    break_first(ctl, enclaves, &mut fences)?;
    assert!(rt; fences.covers(Space(2), Vpn(16)));
    assert_eq!(rt;
        [ctl.raw_read(21, 8), ctl.raw_read(8, 128)],
        [9, 0x2000_54d7]
    );
    Ok(())
}

#[test]
fn a_page_is_broken_under_a_fence(rt: HostRuntime) -> Result<(), Fail> {
    let mut ctl = zone(rt.alloc(), Choice::new(oldest))?;
    let mut enclaves = forked(&rt, rt.alloc())?;
    writes(&rt, &mut ctl);
    assert_eq!(rt; breaks(&rt, &mut ctl, &mut enclaves), Ok(()));
    Ok(())
}
