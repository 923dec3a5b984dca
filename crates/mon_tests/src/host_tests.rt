// Pages of the host are mapped, and a mapping is taken away, by hand.
ghost use Rattle.std.specs.Prelude.{◌≡◌, IfOk};
ghost use Rattle.mem_slots.specs.Choices.{NamesPosition};
ghost use Rattle.mon_host.specs.Unmapping.{HaveHostLeaves};

use crate::owners::{has_owner, map_once};
use crate::zone::oldest;
use mem_ctl::{Ctl, Stop};
use mem_slots::{Choice, SlotUse};
use mon_fence::Fences;
use mon_host::{map, maps_tell, spaces_have_leaves, starts_in_empty_space, unmap_begin, unmap_end};
use mon_owner::{Owner, Owners};
use mon_tables::start_words;
use pl_base::{HartNo, Memory, No, Perms, Space, Va, Vpn};
use pl_digest::{Digester, OneByte};
use std::alloc::Global;
use std::process::Abort;
use std::test::Fail;

const READ_WRITE: Perms = Perms(3);

// One zone, in which the host has one last-level table, without leaves.
fn start<F: Fn(&[SlotUse]) -> usize>(
    alloc: Global,
    choice: Choice<F>,
) -> Result<Ctl<OneByte, F>, Memory>
    requires { NamesPosition F.Fn choice }
    ensures zones { IfOk result (λ ctl. ctl.0.zones ≡ 1) }
    ensures leaves { IfOk result (λ ctl. HaveHostLeaves 1 ctl.0) }
    ensures choice { IfOk result (λ ctl. NamesPosition F.Fn ctl.1) }
{
    starts_in_empty_space();
    spaces_have_leaves();
    let words = start_words(1);
    let ctl = Ctl::new(alloc, OneByte, 1, 1, words.as_slice(), choice)?;
    Ok(ctl)
}

// A page of the zone is mapped at an address.
fn map_page<D: Digester, F: Fn(&[SlotUse]) -> usize>(
    rt: &impl Abort,
    ctl: &mut Ctl<D, F>,
    owners: &mut Owners,
    fences: &Fences,
    va: u64,
    page: u32,
) -> Result<(), Stop>
    requires zone { ctl.old.0.zones ≡ 1 }
    requires leaves { HaveHostLeaves 1 ctl.old.0 }
    requires choice { NamesPosition F.Fn ctl.old.1 }
    ensures zone { ctl.new.0.zones ≡ 1 }
    ensures leaves { HaveHostLeaves 1 ctl.new.0 }
    ensures choice { NamesPosition F.Fn ctl.new.1 }
{
    maps_tell();
    ctl.trees_hold();
    assert!(rt; page < 64);
    if let Some(Owner::Host { maps }) = owners.of(page) {
        assert!(rt; maps < u32::MAX);
    }
    map(ctl, owners, fences, 1, Va(va), page, READ_WRITE)
}

// An address, a page, and what its mapping is answered.
const MAPPED: [(u64, u32, Result<(), Stop>); 7] = [
    (0x1001, 5, Err(Stop::No(No::BadAddress))),
    (0x20_0000, 20, Err(Stop::No(No::BadAddress))),
    (0x3000, 5, Err(Stop::No(No::Busy))),
    (0x1000, 5, Err(Stop::No(No::NotYours(5)))),
    (0x1000, 20, Ok(())),
    (0x1000, 5, Err(Stop::No(No::Mapped))),
    (0x2000, 20, Ok(())),
];

// The table's mappings are answered in order, with a fence open.
fn answers<F: Fn(&[SlotUse]) -> usize>(
    rt: &impl Abort,
    ctl: &mut Ctl<OneByte, F>,
    owners: &mut Owners,
)
    requires zone { ctl.old.0.zones ≡ 1 }
    requires leaves { HaveHostLeaves 1 ctl.old.0 }
    requires choice { NamesPosition F.Fn ctl.old.1 }
    ensures zone { ctl.new.0.zones ≡ 1 }
{
    let mut fences = Fences::new(2);
    fences.post(HartNo(1), Space::HOST, Some(Vpn(3)));
    for (va, page, want) in &MAPPED {
        let answer = map_page(rt, ctl, owners, &fences, *va, *page);
        assert_eq!(rt; answer, *want, "{va}");
    }
}

#[test]
fn pages_are_mapped_or_refused_in_order(rt: HostRuntime) -> Result<(), Fail> {
    let mut ctl = start(rt.alloc(), Choice::new(oldest))?;
    let mut owners = Owners::new(rt.alloc(), 6, 64)?;
    answers(&rt, &mut ctl, &mut owners);
    has_owner(&rt, &owners, 20, Some(Owner::Host { maps: 2 }));
    assert_eq!(rt; ctl.raw_read(2, 8), 0x2000_50c7);
    Ok(())
}

#[test]
fn a_mapping_is_taken_away_under_a_fence(rt: HostRuntime) -> Result<(), Fail> {
    let mut ctl = start(rt.alloc(), Choice::new(oldest))?;
    let mut owners = Owners::new(rt.alloc(), 6, 64)?;
    let mut fences = Fences::new(2);
    let mapped = map_page(&rt, &mut ctl, &mut owners, &fences, 0x1000, 20);
    assert_eq!(rt; mapped, Ok(()));
    let begun = unmap_begin(&mut ctl, &mut fences, 1, HartNo(0), Va(0x1000));
    assert_eq!(rt; begun, Ok(20));
    assert!(rt; fences.covers(Space::HOST, Vpn(1)));
    has_owner(&rt, &owners, 20, Some(Owner::Host { maps: 1 }));
    Ok(())
}

#[test]
fn a_page_has_one_mapping_less_in_the_end(rt: HostRuntime) -> Result<(), Fail> {
    let mut owners = Owners::new(rt.alloc(), 6, 64)?;
    let mut fences = Fences::new(1);
    fences.post(HartNo(0), Space::HOST, Some(Vpn(1)));
    map_once(&mut owners, 20);
    if let Some(Owner::Host { maps: 1.. }) = owners.of(20) {
        unmap_end(&mut owners, &mut fences, HartNo(0), 20);
    }
    has_owner(&rt, &owners, 20, Some(Owner::Host { maps: 0 }));
    assert!(rt; !fences.covers(Space::HOST, Vpn(1)));
    Ok(())
}
