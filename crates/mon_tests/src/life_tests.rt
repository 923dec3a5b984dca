// Numbers that are begun, entered and given back, by hand.
ghost use Rattle.std.specs.Prelude.{◌≡◌, [], ◌∷◌, IfOk, length};
ghost use Rattle.mon_life.specs.Destroying.{held_by};

use crate::entries::entries;
use crate::images;
use crate::owners::{has_owner, map_once};
use crate::zone::{oldest, words, write, zone};
use mem_ctl::Ctl;
use mem_slots::Choice;
use mon_enclave::Enclaves;
use mon_fence::Fences;
use mon_image::Image;
use mon_life::{create_begin, destroy_begin, destroy_end, run_begin};
use mon_owner::{Owner, Owners};
use pl_base::{EncNo, HartNo, Memory, No, Perms, Space, State, Vpn};
use pl_digest::OneByte;
use std::alloc::{AllocError, Global};
use std::process::Abort;
use std::test::Fail;

// An image of `count` pages, 1 to 4.
fn image(rt: &impl Abort, alloc: Global, count: usize) -> Result<Image, AllocError> {
    assert!(rt; 1 <= count && count <= 4);
    images::image(rt, alloc, 0x10000, &[Perms(5); 4][..count])
}

// The owners of 64 pages, nine of them guarded; page 20 is mapped once.
fn owners(alloc: Global) -> Result<Owners, Fail> {
    let mut owners = Owners::new(alloc, 9, 64)?;
    map_once(&mut owners, 20);
    Ok(owners)
}

// The number, how many pages its image has, the pages it is begun in, whether it is a shadow, and the answer.
type Begun = (u8, usize, &'static [u32], bool, Result<(), No>);

fn begin(
    rt: &impl Abort,
    owners: &mut Owners,
    enclaves: &mut Enclaves,
    image: &Image,
    begun: &Begun,
) -> Result<(), No> {
    let (e, _, pages, shadow, _) = *begun;
    assert!(rt; usize::from(e) < enclaves.len());
    create_begin(
        owners,
        enclaves,
        &entries(rt),
        HartNo(0),
        EncNo(e),
        7,
        image,
        pages,
        shadow,
    )
}

fn run(rt: &impl Abort, enclaves: &mut Enclaves, state: State, first: bool) -> Result<(), No> {
    assert!(rt; 1 < enclaves.len());
    enclaves.set_state(EncNo(1), state);
    run_begin(enclaves, HartNo(2), EncNo(1), first)
}

const BEGUN: [Begun; 12] = [
    (0, 1, &[20], false, Err(No::StillMapped(20))),
    (0, 1, &[22, 22], false, Err(No::Count)),
    (0, 4, &[22, 23, 24], false, Err(No::Count)),
    (0, 4, &[22, 21, 21, 22], false, Err(No::Twice(22))),
    (0, 4, &[20, 21, 8, 22], false, Err(No::NotYours(8))),
    (0, 2, &[21, 64], true, Err(No::NotYours(64))),
    (0, 2, &[21, 20], false, Err(No::StillMapped(20))),
    (0, 2, &[63, 21], false, Err(No::Barred(21))),
    (0, 2, &[63, 9], false, Ok(())),
    (0, 1, &[8, 8], false, Err(No::Exists)),
    (1, 2, &[22, 9], true, Err(No::NotYours(9))),
    (1, 1, &[22], true, Ok(())),
];

// Every line of the table is answered as it says.
fn answers(
    rt: &impl Abort,
    alloc: Global,
    owners: &mut Owners,
    enclaves: &mut Enclaves,
) -> Result<(), AllocError> {
    for begun in &BEGUN {
        let (_, count, pages, _, want) = *begun;
        let image = image(rt, alloc, count)?;
        let answer = begin(rt, owners, enclaves, &image, begun);
        assert_eq!(rt; answer, want, "{pages:?}");
    }
    Ok(())
}

#[test]
fn numbers_are_begun_or_refused_in_order(rt: HostRuntime) -> Result<(), Fail> {
    let mut owners = owners(rt.alloc())?;
    let mut enclaves = Enclaves::new(rt.alloc(), 2)?;
    answers(&rt, rt.alloc(), &mut owners, &mut enclaves)?;
    has_owner(&rt, &owners, 63, Some(Owner::Enclave(EncNo(0))));
    has_owner(&rt, &owners, 22, Some(Owner::Shadow(EncNo(1))));
    has_owner(&rt, &owners, 21, Some(Owner::Host { maps: 0 }));
    Ok(())
}

// A state, whether the run is the first, and its answer.
const ENTERED: [(State, bool, Result<(), No>); 8] = [
    (State::Free, true, Err(No::NoEnclave)),
    (State::Sealed, false, Err(No::NoEnclave)),
    (State::Paused, true, Err(No::WrongState(State::Paused))),
    (State::Fresh, false, Err(No::WrongState(State::Fresh))),
    (State::Building, true, Err(No::WrongState(State::Building))),
    (State::Fresh, true, Ok(())),
    (State::On, false, Err(No::WrongState(State::On))),
    (State::Paused, false, Ok(())),
];

#[test]
fn an_enclave_is_entered_from_fresh_or_paused(rt: HostRuntime) -> Result<(), Fail> {
    let mut enclaves = Enclaves::new(rt.alloc(), 2)?;
    for &(state, first, want) in &ENTERED {
        assert_eq!(rt; run(&rt, &mut enclaves, state, first), want, "{state:?}");
    }
    assert!(rt; 1 < enclaves.len());
    assert_eq!(rt; enclaves.get(EncNo(1)).hart, HartNo(2));
    assert_eq!(rt; enclaves.get(EncNo(1)).state, State::On);
    Ok(())
}

// Whether giving number 1 back fences the number's space, where it begins.
fn give_back(rt: &impl Abort, enclaves: &mut Enclaves, state: State) -> Result<bool, No> {
    assert!(rt; 1 < enclaves.len());
    let mut fences = Fences::new(2);
    enclaves.set_state(EncNo(1), state);
    destroy_begin(enclaves, &mut fences, HartNo(1), EncNo(1))?;
    Ok(fences.covers(Space(2), Vpn(7)) && !fences.covers(Space(1), Vpn(7)))
}

// A state, and whether the space is fenced.
const GIVEN_BACK: [(State, Result<bool, No>); 7] = [
    (State::Free, Err(No::NoEnclave)),
    (State::Sealed, Err(No::NoEnclave)),
    (State::On, Err(No::WrongState(State::On))),
    (State::Building, Err(No::WrongState(State::Building))),
    (State::Dying, Err(No::WrongState(State::Dying))),
    (State::Fresh, Ok(true)),
    (State::Faulted, Ok(true)),
];

#[test]
fn an_enclave_is_given_back_where_no_line_has_it(rt: HostRuntime) -> Result<(), Fail> {
    let mut enclaves = Enclaves::new(rt.alloc(), 2)?;
    for &(state, want) in &GIVEN_BACK {
        assert_eq!(rt; give_back(&rt, &mut enclaves, state), want, "{state:?}");
    }
    assert!(rt; 1 < enclaves.len());
    assert_eq!(rt; enclaves.get(EncNo(1)).state, State::Dying);
    Ok(())
}

// The owners of 64 pages, of which three are number 0's.
fn taken(alloc: Global) -> Result<Owners, Memory>
    ensures { IfOk result (λ owners. length owners ≡ 64) }
{
    let mut owners = Owners::new(alloc, 9, 64)?;
    owners.take_all(&[21, 22, 63], Owner::Enclave(EncNo(0)));
    Ok(owners)
}

// Number 0 is built in two of them.
fn built(rt: &impl Abort, alloc: Global) -> Result<Enclaves, Fail>
    ensures one { IfOk result (λ all. length all ≡ 1) }
    ensures held { IfOk result (λ all. held_by all 0 ≡ 21 ∷ 63 ∷ []) }
{
    let image = image(rt, alloc, 2)?;
    assert!(rt; image.pages.as_slice().len() == 2);
    let mut enclaves = Enclaves::new(alloc, 1)?;
    enclaves.build(EncNo(0), 7, &image, &[21, 63]);
    Ok(enclaves)
}

// Number 0 is given back by the one hart.
fn end<F>(ctl: &mut Ctl<OneByte, F>, owners: &mut Owners, enclaves: &mut Enclaves)
    requires zone { ctl.old.0.zones ≡ 1 }
    requires owners { length owners.old ≡ 64 }
    requires one { length enclaves.old ≡ 1 }
    requires held { held_by enclaves.old 0 ≡ 21 ∷ 63 ∷ [] }
    ensures zone { ctl.new.0.zones ≡ 1 }
    ensures one { length enclaves.new ≡ 1 }
{
    let mut fences = Fences::new(1);
    fences.post(HartNo(0), Space(1), None);
    destroy_end(ctl, owners, enclaves, &mut fences, HartNo(0), EncNo(0));
}

// Of three pages with a word each, those that it was built in are zeroed, and all but the other are the host's.
fn zeroes_its_pages<F>(
    rt: &impl Abort,
    ctl: &mut Ctl<OneByte, F>,
    owners: &mut Owners,
    enclaves: &mut Enclaves,
)
    requires zone { ctl.old.0.zones ≡ 1 }
    requires owners { length owners.old ≡ 64 }
    requires one { length enclaves.old ≡ 1 }
    requires held { held_by enclaves.old 0 ≡ 21 ∷ 63 ∷ [] }
{
    write(ctl, 21);
    write(ctl, 22);
    write(ctl, 63);
    end(ctl, owners, enclaves);
    assert_eq!(rt; words(ctl), [0, 9, 0]);
    has_owner(rt, owners, 21, Some(Owner::Host { maps: 0 }));
    has_owner(rt, owners, 22, Some(Owner::Enclave(EncNo(0))));
    has_owner(rt, owners, 63, Some(Owner::Host { maps: 0 }));
    assert_eq!(rt; enclaves.get(EncNo(0)).state, State::Free);
}

#[test]
fn its_pages_are_zeroed_pages_of_the_host(rt: HostRuntime) -> Result<(), Fail> {
    let mut ctl = zone(rt.alloc(), Choice::new(oldest))?;
    let mut owners = taken(rt.alloc())?;
    let mut enclaves = built(&rt, rt.alloc())?;
    zeroes_its_pages(&rt, &mut ctl, &mut owners, &mut enclaves);
    Ok(())
}
