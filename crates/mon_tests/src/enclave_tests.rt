// Records that were worked out by hand.
use crate::images::image;
use mon_enclave::{Enclave, Enclaves, PageKind};
use mon_image::Image;
use pl_base::{EncNo, HartNo, No, Perms, State, Why};
use std::alloc::{AllocError, Global};
use std::process::Abort;
use std::test::Fail;

// The number that the tests change.
const ONE: EncNo = EncNo(1);

// The number that is forked from it.
const TWO: EncNo = EncNo(2);

// A call on number 1.
#[derive(Clone, Copy, Debug)]
enum Call {
    Build,
    SetState(State),
    Enter(u8),
    Send(u64),
    Receive,
    Retire(u64),
    SendOut(u64),
    Left(Why),
    Take,
    Free,
}

fn build(rt: &impl Abort, enclaves: &mut Enclaves, image: &Image) {
    assert!(rt; 1 < enclaves.len());
    assert!(rt; image.pages.as_slice().len() == 2);
    let State::Free = enclaves.get(ONE).state else {
        panic!(rt; "it isn't free");
    };
    enclaves.build(ONE, 3, image, &[9, 4]);
}

fn retire(rt: &impl Abort, enclaves: &mut Enclaves, pc: u64) {
    assert!(rt; 1 < enclaves.len());
    let mut context = enclaves.get(ONE).context;
    context.pc = pc;
    assert!(rt; enclaves.get(ONE).retired < 9);
    enclaves.retire(ONE, context);
}

fn left(rt: &impl Abort, enclaves: &mut Enclaves, why: Why) {
    assert!(rt; 1 < enclaves.len());
    let State::On = enclaves.get(ONE).state else {
        panic!(rt; "it isn't on");
    };
    enclaves.left(ONE, why);
}

// Number 1 is a shadow, and number 2 its fork.
fn fork(rt: &impl Abort, enclaves: &mut Enclaves) {
    assert!(rt; 2 < enclaves.len());
    enclaves.set_state(ONE, State::Sealed);
    let State::Free = enclaves.get(TWO).state else {
        panic!(rt; "it isn't free");
    };
    enclaves.build_fork(ONE, TWO, &[20, 21]);
}

fn add_spare(rt: &impl Abort, enclaves: &mut Enclaves, page: u32) {
    assert!(rt; 2 < enclaves.len());
    assert!(rt; enclaves.get(TWO).given < 256);
    enclaves.add_spare(TWO, page);
}

// Page 1 of number 2 becomes its own.
fn own_page(rt: &impl Abort, enclaves: &mut Enclaves) -> u32 {
    assert!(rt; 2 < enclaves.len());
    assert!(rt; enclaves.get(TWO).spares.len() > 0);
    let Some(kind) = enclaves.get(TWO).pages.as_slice().get(1) else {
        panic!(rt; "there is no page 1");
    };
    assert!(rt; kind.is_shared());
    enclaves.own_page(TWO, 1)
}

// What a call answers.
fn answer(
    rt: &impl Abort,
    enclaves: &mut Enclaves,
    image: &Image,
    call: Call,
) -> Result<Option<u64>, No> {
    assert!(rt; 1 < enclaves.len());
    match call {
        Call::Build => build(rt, enclaves, image),
        Call::SetState(state) => enclaves.set_state(ONE, state),
        Call::Enter(h) => enclaves.enter(ONE, HartNo(h)),
        Call::Send(word) => enclaves.send(ONE, word)?,
        Call::Receive => return Ok(enclaves.receive(ONE)),
        Call::Retire(pc) => retire(rt, enclaves, pc),
        Call::SendOut(word) => return Ok(enclaves.send_out(ONE, word).then_some(word)),
        Call::Left(why) => left(rt, enclaves, why),
        Call::Take => return Ok(Some(enclaves.take(ONE)?)),
        Call::Free => enclaves.free(ONE),
    }
    Ok(None)
}

// The pages of a record, and where they are from.
fn image_part(alloc: Global, enclave: &Enclave) -> Result<String, AllocError> {
    format!(in alloc;
        "image {} pages {:?} spares {:?} of {} parent {:?}",
        enclave.image,
        enclave.pages.as_slice(),
        enclave.spares.as_slice(),
        enclave.given,
        enclave.parent,
    )
}

// Its words.
fn words_part(alloc: Global, enclave: &Enclave) -> Result<String, AllocError> {
    format!(in alloc;
        "sent {:?} {} out {:?} {} {}",
        enclave.sent.as_slice(),
        enclave.received,
        enclave.out.as_slice(),
        enclave.shown,
        enclave.taken,
    )
}

// The whole record of a number, but for the registers that stay 0.
fn record(rt: &impl Abort, alloc: Global, enclaves: &Enclaves, e: u8) -> Result<String, Fail> {
    assert!(rt; usize::from(e) < enclaves.len());
    let enclave = enclaves.get(EncNo(e));
    let image = image_part(alloc, enclave)?;
    let words = words_part(alloc, enclave)?;
    Ok(format!(in alloc;
        "{:?} on {} pc {:x} x2 {:x} retired {} {words} {image}",
        enclave.state, enclave.hart.0, enclave.context.pc, enclave.context.regs[2], enclave.retired,
    )?)
}

// The record of a number is this one.
fn is_record(
    rt: &impl Abort,
    alloc: Global,
    enclaves: &Enclaves,
    e: u8,
    want: &str,
) -> Result<(), Fail> {
    assert_eq!(rt; record(rt, alloc, enclaves, e)?.as_str(), want);
    Ok(())
}

// A call answers `want`.
fn answers(
    rt: &impl Abort,
    enclaves: &mut Enclaves,
    image: &Image,
    call: Call,
    want: Result<Option<u64>, No>,
) {
    assert_eq!(rt; answer(rt, enclaves, image, call), want, "{call:?}");
}

// A call answers `want`, and number 1 has this record then; where none is given, the one that it had.
fn step(
    rt: &impl Abort,
    alloc: Global,
    enclaves: &mut Enclaves,
    image: &Image,
    call: Call,
    want: Result<Option<u64>, No>,
    after: &str,
) -> Result<(), Fail> {
    let before = record(rt, alloc, enclaves, 1)?;
    answers(rt, enclaves, image, call, want);
    if after.is_empty() {
        return is_record(rt, alloc, enclaves, 1, before.as_str());
    }
    is_record(
        rt,
        alloc,
        enclaves,
        1,
        format!(in alloc; "{after} {OWN}")?.as_str(),
    )
}

const FREE: &str =
    "Free on 0 pc 0 x2 0 retired 0 sent [] 0 out [] 0 0 image 0 pages [] spares [] of 0 parent None";

const FREED: &str =
    "Free on 2 pc 1000c x2 12000 retired 0 sent [] 0 out [] 0 0 image 3 pages [] spares [] of 0 parent None";

const FORKED: &str =
    "Building on 0 pc 10008 x2 12000 retired 0 sent [] 0 out [] 0 0 image 3 pages [Shared(9), Shared(4)] spares [20, 21] of 2 parent Some(EncNo(1))";

const BROKEN: &str =
    "Building on 0 pc 10008 x2 12000 retired 0 sent [] 0 out [] 0 0 image 3 pages [Shared(9), Own(20)] spares [21, 8] of 3 parent Some(EncNo(1))";

const OWN: &str = "image 3 pages [Own(9), Own(4)] spares [] of 0 parent None";

// Calls on number 1, what each answers, and the record then, where it changes.
const CALLS: [(Call, Result<Option<u64>, No>, &str); 18] = [
    (Call::Send(5), Err(No::NoEnclave), ""),
    (
        Call::Build,
        Ok(None),
        "Building on 0 pc 10008 x2 12000 retired 0 sent [] 0 out [] 0 0",
    ),
    (Call::Take, Err(No::NoEnclave), ""),
    (
        Call::SetState(State::Fresh),
        Ok(None),
        "Fresh on 0 pc 10008 x2 12000 retired 0 sent [] 0 out [] 0 0",
    ),
    (
        Call::Send(5),
        Ok(None),
        "Fresh on 0 pc 10008 x2 12000 retired 0 sent [5] 0 out [] 0 0",
    ),
    (
        Call::Enter(2),
        Ok(None),
        "On on 2 pc 10008 x2 12000 retired 0 sent [5] 0 out [] 0 0",
    ),
    (
        Call::Receive,
        Ok(Some(5)),
        "On on 2 pc 10008 x2 12000 retired 0 sent [5] 1 out [] 0 0",
    ),
    (Call::Receive, Ok(None), ""),
    (
        Call::Send(8),
        Ok(None),
        "On on 2 pc 10008 x2 12000 retired 0 sent [5, 8] 1 out [] 0 0",
    ),
    (
        Call::Retire(0x1000c),
        Ok(None),
        "On on 2 pc 1000c x2 12000 retired 1 sent [5, 8] 1 out [] 0 0",
    ),
    (
        Call::SendOut(6),
        Ok(Some(6)),
        "On on 2 pc 1000c x2 12000 retired 1 sent [5, 8] 1 out [6] 0 0",
    ),
    (Call::Take, Err(No::Empty), ""),
    (
        Call::SendOut(7),
        Ok(Some(7)),
        "On on 2 pc 1000c x2 12000 retired 1 sent [5, 8] 1 out [6, 7] 0 0",
    ),
    (
        Call::Left(Why::Budget),
        Ok(None),
        "Paused on 2 pc 1000c x2 12000 retired 1 sent [5, 8] 1 out [6, 7] 2 0",
    ),
    (
        Call::Take,
        Ok(Some(6)),
        "Paused on 2 pc 1000c x2 12000 retired 1 sent [5, 8] 1 out [6, 7] 2 1",
    ),
    (
        Call::Take,
        Ok(Some(7)),
        "Paused on 2 pc 1000c x2 12000 retired 1 sent [5, 8] 1 out [6, 7] 2 2",
    ),
    (Call::Take, Err(No::Empty), ""),
    (
        Call::Receive,
        Ok(Some(8)),
        "Paused on 2 pc 1000c x2 12000 retired 1 sent [5, 8] 2 out [6, 7] 2 2",
    ),
];

#[test]
fn a_number_from_free_to_built_again(rt: HostRuntime) -> Result<(), Fail> {
    let alloc = rt.alloc();
    let image = image(&rt, alloc, 0x10008, &[Perms(5), Perms(3)])?;
    let mut enclaves = Enclaves::new(alloc, 2)?;
    is_record(&rt, alloc, &enclaves, 1, FREE)?;
    for &(call, want, after) in &CALLS {
        step(&rt, alloc, &mut enclaves, &image, call, want, after)?;
    }
    answers(&rt, &mut enclaves, &image, Call::Free, Ok(None));
    is_record(&rt, alloc, &enclaves, 1, FREED)?;
    let again = "Building on 2 pc 10008 x2 12000 retired 0 sent [] 0 out [] 0 0";
    step(
        &rt,
        alloc,
        &mut enclaves,
        &image,
        Call::Build,
        Ok(None),
        again,
    )?;
    is_record(&rt, alloc, &enclaves, 0, FREE)
}

#[test]
fn a_fork_shares_its_pages_until_they_are_broken(rt: HostRuntime) -> Result<(), Fail> {
    let alloc = rt.alloc();
    let image = image(&rt, alloc, 0x10008, &[Perms(5), Perms(3)])?;
    let mut enclaves = Enclaves::new(alloc, 3)?;
    build(&rt, &mut enclaves, &image);
    fork(&rt, &mut enclaves);
    is_record(&rt, alloc, &enclaves, 2, FORKED)?;
    add_spare(&rt, &mut enclaves, 8);
    assert_eq!(rt; own_page(&rt, &mut enclaves), 20);
    is_record(&rt, alloc, &enclaves, 2, BROKEN)
}

#[test]
fn no_more_than_4096_words_go_in_or_out(rt: HostRuntime) -> Result<(), Fail> {
    let alloc = rt.alloc();
    let image = image(&rt, alloc, 0x10008, &[Perms(5), Perms(3)])?;
    let mut enclaves = Enclaves::new(alloc, 2)?;
    let on = Call::SetState(State::On);
    answers(&rt, &mut enclaves, &image, Call::Build, Ok(None));
    answers(&rt, &mut enclaves, &image, on, Ok(None));
    for word in 0..4096 {
        let out = Call::SendOut(word);
        answers(&rt, &mut enclaves, &image, Call::Send(word), Ok(None));
        answers(&rt, &mut enclaves, &image, out, Ok(Some(word)));
    }
    answers(&rt, &mut enclaves, &image, Call::Send(1), Err(No::Full));
    answers(&rt, &mut enclaves, &image, Call::SendOut(1), Ok(None));
    Ok(())
}

#[test]
fn sixty_four_numbers_are_free(rt: HostRuntime) -> Result<(), Fail> {
    let enclaves = Enclaves::new(rt.alloc(), 64)?;
    assert_eq!(rt; enclaves.len(), 64);
    for e in 0..64 {
        is_record(&rt, rt.alloc(), &enclaves, e, FREE)?;
    }
    assert_eq!(rt;
        (PageKind::Own(9).page(), PageKind::Shared(4).page()),
        (9, 4)
    );
    Ok(())
}
