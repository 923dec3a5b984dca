// Shadows that are forked and given back, by hand.
ghost use Rattle.std.specs.Prelude.{◌≡◌, IfOk, length};

use crate::entries::entries;
use crate::images::image;
use crate::owners::{has_owner, map_once};
use crate::zone::{oldest, words, write, zone};
use mem_ctl::Ctl;
use mem_slots::Choice;
use mon_enclave::Enclaves;
use mon_life::held_by;
use mon_owner::{Owner, Owners};
use mon_shadow::{drop_shadow, fork_begin, grant};
use pl_base::{EncNo, HartNo, Memory, No, Perms, State};
use pl_digest::OneByte;
use rv_pmp::Pmp;
use std::alloc::Global;
use std::process::Abort;
use std::test::Fail;

// The number of the shadow, and that of its fork.
const SHADOW: EncNo = EncNo(0);

const FORK: EncNo = EncNo(1);

// A line, or what follows once it is done.
#[derive(Clone, Copy, Debug)]
enum Line {
    // Number e is forked from number s, with the first of these spares.
    Fork(u8, u8, [u32; 2], usize),
    Grant(u8, u32),
    Is(u8, State),
}

// Three numbers, of which number 0 is a shadow in pages 22 and 63.
fn numbers(rt: &impl Abort, alloc: Global) -> Result<Enclaves, Fail> {
    let image = image(rt, alloc, 0x10000, &[Perms(5), Perms(3)])?;
    assert!(rt; image.pages.as_slice().len() == 2);
    let mut enclaves = Enclaves::new(alloc, 3)?;
    enclaves.build(SHADOW, 7, &image, &[22, 63]);
    enclaves.set_state(SHADOW, State::Sealed);
    Ok(enclaves)
}

// The owners of 64 pages, nine of them guarded; the shadow has its two.
fn owners(alloc: Global) -> Result<Owners, Memory>
    ensures { IfOk result (λ owners. length owners ≡ 64) }
{
    let mut owners = Owners::new(alloc, 9, 64)?;
    owners.take_all(&[22, 63], Owner::Shadow(SHADOW));
    Ok(owners)
}

fn answer(
    rt: &impl Abort,
    owners: &mut Owners,
    enclaves: &mut Enclaves,
    pmp: &Pmp,
    line: Line,
) -> Result<(), No> {
    assert!(rt; 2 < enclaves.len());
    match line {
        Line::Fork(s, e, pages, len) => {
            assert!(rt; s < 3 && e < 3 && len <= 2);
            fork_begin(
                owners,
                enclaves,
                pmp,
                HartNo(0),
                EncNo(s),
                EncNo(e),
                &pages[..len],
            )
        }
        Line::Grant(e, page) => {
            assert!(rt; e < 3);
            grant(owners, enclaves, pmp, EncNo(e), page)
        }
        Line::Is(e, state) => {
            assert!(rt; e < 3);
            enclaves.set_state(EncNo(e), state);
            Ok(())
        }
    }
}

// A line, and what it is answered.
const LINES: [(Line, Result<(), No>); 16] = [
    (Line::Fork(1, 0, [20, 20], 2), Err(No::NoEnclave)),
    (Line::Fork(0, 0, [20, 20], 2), Err(No::Exists)),
    (Line::Fork(0, 1, [20, 20], 2), Err(No::Twice(20))),
    (Line::Fork(0, 1, [20, 22], 2), Err(No::NotYours(22))),
    (Line::Fork(0, 1, [21, 20], 2), Err(No::StillMapped(20))),
    (Line::Fork(0, 1, [23, 21], 2), Err(No::Barred(21))),
    (Line::Grant(1, 23), Err(No::NoEnclave)),
    (Line::Fork(0, 1, [23, 21], 1), Ok(())),
    (Line::Grant(1, 8), Err(No::WrongState(State::Building))),
    (Line::Is(1, State::Fresh), Ok(())),
    (Line::Grant(1, 23), Err(No::NotYours(23))),
    (Line::Grant(1, 20), Err(No::StillMapped(20))),
    (Line::Grant(1, 21), Err(No::Barred(21))),
    (Line::Grant(1, 9), Ok(())),
    (Line::Fork(0, 1, [24, 0], 1), Err(No::Exists)),
    (Line::Fork(0, 2, [0, 0], 0), Ok(())),
];

#[test]
fn forks_and_grants_are_refused_in_order(rt: HostRuntime) -> Result<(), Fail> {
    let mut owners = owners(rt.alloc())?;
    map_once(&mut owners, 20);
    let mut enclaves = numbers(&rt, rt.alloc())?;
    let pmp = entries(&rt);
    for &(line, want) in &LINES {
        let got = answer(&rt, &mut owners, &mut enclaves, &pmp, line);
        assert_eq!(rt; got, want, "{line:?}");
    }
    has_owner(&rt, &owners, 9, Some(Owner::Enclave(FORK)));
    has_owner(&rt, &owners, 23, Some(Owner::Enclave(FORK)));
    has_owner(&rt, &owners, 22, Some(Owner::Shadow(SHADOW)));
    Ok(())
}

// Number 1 is a fork of the shadow, with no spare.
fn fork(rt: &impl Abort, enclaves: &mut Enclaves) {
    assert!(rt; 1 < enclaves.len());
    let (State::Sealed, State::Free) = (enclaves.get(SHADOW).state, enclaves.get(FORK).state) else {
        panic!(rt; "it can't be forked");
    };
    enclaves.build_fork(SHADOW, FORK, &[]);
}

fn give_back<F>(
    rt: &impl Abort,
    ctl: &mut Ctl<OneByte, F>,
    owners: &mut Owners,
    enclaves: &mut Enclaves,
    s: EncNo,
) -> Result<(), No>
    requires zone { ctl.old.0.zones ≡ 1 }
    requires owners { length owners.old ≡ 64 }
    ensures zone { ctl.new.0.zones ≡ 1 }
    ensures owners { length owners.new ≡ 64 }
{
    assert!(rt; usize::from(s.0) < enclaves.len());
    assert!(rt;
        held_by(enclaves, s)
            .as_slice()
            .iter()
            .all(|page| *page < 64)
    );
    drop_shadow(ctl, owners, enclaves, s)
}

// A number isn't given back as a shadow, for this cause.
fn is_kept<F>(
    rt: &impl Abort,
    ctl: &mut Ctl<OneByte, F>,
    owners: &mut Owners,
    enclaves: &mut Enclaves,
    s: EncNo,
    cause: No,
)
    requires zone { ctl.old.0.zones ≡ 1 }
    requires owners { length owners.old ≡ 64 }
    ensures zone { ctl.new.0.zones ≡ 1 }
    ensures owners { length owners.new ≡ 64 }
{
    assert_eq!(rt; give_back(rt, ctl, owners, enclaves, s), Err(cause));
}

#[test]
fn a_shadow_is_kept_while_it_has_a_fork(rt: HostRuntime) -> Result<(), Fail> {
    let mut ctl = zone(rt.alloc(), Choice::new(oldest))?;
    let mut owners = owners(rt.alloc())?;
    let mut enclaves = numbers(&rt, rt.alloc())?;
    fork(&rt, &mut enclaves);
    is_kept(
        &rt,
        &mut ctl,
        &mut owners,
        &mut enclaves,
        FORK,
        No::NoEnclave,
    );
    is_kept(
        &rt,
        &mut ctl,
        &mut owners,
        &mut enclaves,
        SHADOW,
        No::InUse(FORK),
    );
    Ok(())
}

// The shadow had a fork, which was given back.
fn left_alone(rt: &impl Abort, alloc: Global) -> Result<Enclaves, Fail> {
    let mut enclaves = numbers(rt, alloc)?;
    fork(rt, &mut enclaves);
    assert!(rt; 1 < enclaves.len());
    enclaves.free(FORK);
    Ok(enclaves)
}

// Of three pages with a word each, those of the shadow are zeroed pages of the host then, and it is free.
fn is_given_back<F>(
    rt: &impl Abort,
    ctl: &mut Ctl<OneByte, F>,
    owners: &mut Owners,
    enclaves: &mut Enclaves,
)
    requires zone { ctl.old.0.zones ≡ 1 }
    requires owners { length owners.old ≡ 64 }
{
    write(ctl, 21);
    write(ctl, 22);
    write(ctl, 63);
    assert_eq!(rt; give_back(rt, ctl, owners, enclaves, SHADOW), Ok(()));
    assert_eq!(rt; words(ctl), [9, 0, 0]);
    has_owner(rt, owners, 22, Some(Owner::Host { maps: 0 }));
    has_owner(rt, owners, 63, Some(Owner::Host { maps: 0 }));
    assert!(rt; 0 < enclaves.len());
    assert_eq!(rt; enclaves.get(SHADOW).state, State::Free);
}

#[test]
fn a_shadow_is_given_back_after_its_forks(rt: HostRuntime) -> Result<(), Fail> {
    let mut ctl = zone(rt.alloc(), Choice::new(oldest))?;
    let mut owners = owners(rt.alloc())?;
    let mut enclaves = left_alone(&rt, rt.alloc())?;
    is_given_back(&rt, &mut ctl, &mut owners, &mut enclaves);
    Ok(())
}
