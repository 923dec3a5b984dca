// The controller with its trees, by addresses worked by hand from the layout, and digests from another program.
ghost use Rattle.mem_slots.specs.Choices.{NamesPosition};

use crate::bench::{Access, Bench};
use mem_ctl::{Broken, Collision, Told};
use mem_slots::{Choice, SlotUse, fewest_uses, first_mounted};
use pl_base::Place;
use pl_digest::{OneByte, Sha};
use std::alloc::Global;
use std::process::Abort;
use std::test::Fail;

const TOP: Place = Place::RootNode { level: 2, index: 0 };

fn node(level: u8, index: u16) -> Place {
    Place::Node {
        level,
        zone: 0,
        index,
    }
}

// The root of one zone, with word 1 at the start of page 0, and 2 and 3 at the start of page 1.
const START_ROOT: [u8; 32] = [
    0xb3, 0x51, 0xf6, 0x19, 0xa5, 0x06, 0xe1, 0xed, 0x16, 0xba, 0xa8, 0xf4, 0x4c, 0x9d, 0xdd, 0x07,
    0xe2, 0x71, 0x0e, 0x4f, 0xde, 0x33, 0x4a, 0x73, 0x62, 0xe1, 0x32, 0xb8, 0xa1, 0xae, 0xe1, 0xb9,
];

// The root of that zone and one of zeros.
const TWO_ZONES_ROOT: [u8; 32] = [
    0x79, 0xa8, 0xa2, 0xe0, 0xd5, 0x6e, 0x04, 0xaf, 0xb9, 0xc1, 0xf3, 0x8f, 0xdc, 0xb1, 0x50, 0x8d,
    0x61, 0x25, 0xc9, 0x00, 0x84, 0x47, 0xe7, 0x6a, 0xda, 0xcb, 0x4a, 0xd6, 0x77, 0x61, 0x8f, 0x20,
];

#[test]
fn start_words_stand_under_the_root(rt: HostRuntime) -> Result<(), Fail> {
    let words = [(0, 0, 1), (1, 0, 2), (1, 8, 3)];
    let oldest = Choice::new(|slots: &[SlotUse]| first_mounted(slots));
    let mut bench = Bench::new(rt.alloc(), Sha, 1, 1, &words, oldest)?;
    assert_eq!(rt; bench.root(), START_ROOT);
    bench.mounts(&rt, &[]);
    bench.reads(&rt, 1, 8, 3);
    assert_eq!(rt; bench.write(&rt, 63, 4088, 4), Ok(()));
    bench.reads(&rt, 63, 4088, 4);
    bench.mounts(&rt, &[slot(0, 3)]);
    Ok(())
}

#[test]
fn two_zones_stand_under_one_root(rt: HostRuntime) -> Result<(), Fail> {
    let words = [(0, 0, 1), (1, 0, 2), (1, 8, 3)];
    let oldest = Choice::new(|slots: &[SlotUse]| first_mounted(slots));
    let two = Bench::new(rt.alloc(), Sha, 2, 1, &words, oldest)?;
    assert_eq!(rt; two.root(), TWO_ZONES_ROOT);
    Ok(())
}

const ACCESSES: [Access; 4] = [Access::Read, Access::Write, Access::Get, Access::Put];

// A place is broken by one bit before each access to page 20, and mended after it. Those that check it must name it.
fn breaks<F: Fn(&[SlotUse]) -> usize + Drop>(
    rt: &impl Abort,
    bench: &mut Bench<Sha, F>,
    pa: u64,
    place: Place,
    checked: [bool; 4],
)
    requires { NamesPosition F.Fn bench.old }
    ensures { NamesPosition F.Fn bench.new }
{
    let mut right = [0];
    bench.peek(rt, pa, &mut right);
    for i in 0..4usize {
        let changed = bench.attack(rt, pa, &[right[0] ^ 1]);
        assert!(rt; changed);
        let answer = bench.attempt(rt, ACCESSES[i]);
        let wanted = if checked[i] {
            Some(Broken::Fault(place))
        } else {
            None
        };
        assert_eq!(rt; answer, wanted, "{place:?}, {:?}", ACCESSES[i]);
        bench.attack(rt, pa, &right);
    }
}

#[test]
fn each_place_of_a_path_breaks_as_itself(rt: HostRuntime) -> Result<(), Fail> {
    let oldest = Choice::new(|slots: &[SlotUse]| first_mounted(slots));
    let mut bench = Bench::new(rt.alloc(), Sha, 1, 1, &[], oldest)?;
    bench.flip(&rt, 0x8006_5100);
    assert_eq!(rt; bench.attempt(&rt, Access::Put), Some(Broken::Fault(TOP)));
    bench.flip(&rt, 0x8006_5100);
    bench.flip(&rt, 0x8006_4900);
    let over = Some(Broken::Fault(table_node(0)));
    assert_eq!(rt; bench.attempt(&rt, Access::Get), over);
    bench.flip(&rt, 0x8006_4900);
    bench.mounts(&rt, &[]);
    bench.reads(&rt, 20, 0, 0);
    let all = [true, true, true, true];
    let not_new = [true, true, true, false];
    let whole = [false, false, true, false];
    breaks(&rt, &mut bench, 0x8006_4800, node(4, 0), all);
    breaks(&rt, &mut bench, 0x8006_4200, node(3, 2), all);
    breaks(&rt, &mut bench, 0x8006_1400, node(2, 20), not_new);
    breaks(&rt, &mut bench, 0x8004_a000, node(1, 160), not_new);
    breaks(&rt, &mut bench, 0x8004_a7ff, node(1, 167), whole);
    let first = Place::Block { page: 20, block: 0 };
    breaks(&rt, &mut bench, 0x8001_4000, first, not_new);
    let last = Place::Block {
        page: 20,
        block: 63,
    };
    breaks(&rt, &mut bench, 0x8001_4fff, last, whole);
    Ok(())
}

// Over the first byte of SHA-256: other bytes that another program found, with the digest of the right ones. All pages are zero, so the
// nodes of a zone are eight times f5 and 31 zero bytes.
#[test]
fn other_bytes_of_the_same_digest_collide(rt: HostRuntime) -> Result<(), Fail> {
    let oldest = Choice::new(|slots: &[SlotUse]| first_mounted(slots));
    let mut bench = Bench::new(rt.alloc(), OneByte, 1, 1, &[], oldest)?;
    collides(&rt, &mut bench, 0x8006_5100, (255, 46), TOP);
    collides(&rt, &mut bench, 0x8006_4900, (255, 106), table_node(0));
    bench.mounts(&rt, &[]);
    bench.reads(&rt, 20, 0, 0);
    collides(&rt, &mut bench, 0x8006_4800, (254, 84), node(4, 0));
    collides(&rt, &mut bench, 0x8006_4200, (254, 84), node(3, 2));
    collides(&rt, &mut bench, 0x8006_1400, (254, 84), node(2, 20));
    collides(&rt, &mut bench, 0x8004_a000, (254, 84), node(1, 160));
    let block = Place::Block { page: 20, block: 0 };
    collides(&rt, &mut bench, 0x8001_4000, (0, 100), block);
    Ok(())
}

// A collision is at this place, and of these bytes there: the one that is held, and the one that was written.
fn is_found(rt: &impl Abort, found: &Collision, place: Place, at: usize, bytes: (u8, u8)) {
    let (held, written) = bytes;
    assert_eq!(rt; found.place, place);
    assert_eq!(rt; found.held.get(at), Some(&held));
    assert_eq!(rt; found.written.get(at), Some(&written));
}

// A byte of a place becomes another, a read of page 20 finds the collision, and the byte is mended.
fn collides<F: Fn(&[SlotUse]) -> usize + Drop>(
    rt: &impl Abort,
    bench: &mut Bench<OneByte, F>,
    pa: u64,
    other: (u64, u8),
    place: Place,
)
    requires { NamesPosition F.Fn bench.old }
    ensures { NamesPosition F.Fn bench.new }
{
    let (at, byte) = other;
    let mut right = [0];
    assert!(rt; at < 256 && pa < 0x9000_0000);
    bench.peek(rt, pa + at, &mut right);
    bench.attack(rt, pa + at, &[byte]);
    match bench.attempt(rt, Access::Read) {
        Some(Broken::Collision(found)) => {
            is_found(rt, &found, place, at as usize, (byte, right[0]));
        }
        other => panic!(rt; "{place:?}: {other:?}"),
    }
    bench.attack(rt, pa + at, &right);
}

// The level-2 node of page 21 is written over that of page 20: page 20 breaks there, and page 21 is as it was. When the node of page 20
// then goes to the place of page 21's, page 21 breaks too.
#[test]
fn a_page_breaks_under_the_node_of_another(rt: HostRuntime) -> Result<(), Fail> {
    let oldest = Choice::new(|slots: &[SlotUse]| first_mounted(slots));
    let mut bench = Bench::new(rt.alloc(), Sha, 1, 1, &[], oldest)?;
    assert_eq!(rt; bench.put(&rt, 20, &[1; 4096]), Ok(()));
    assert_eq!(rt; bench.put(&rt, 21, &[2; 4096]), Ok(()));
    let mut of_20 = [0; 256];
    let mut of_21 = [0; 256];
    bench.peek(&rt, 0x8006_1400, &mut of_20);
    bench.peek(&rt, 0x8006_1500, &mut of_21);
    bench.attack(&rt, 0x8006_1400, &of_21);
    bench.breaks(&rt, 20, node(2, 20));
    bench.reads(&rt, 21, 0, 0x0202_0202_0202_0202);
    bench.attack(&rt, 0x8006_1500, &of_20);
    bench.breaks(&rt, 21, node(2, 21));
    Ok(())
}

// Nine zones and one slot: the root table stands behind nine times 411,904 bytes; zones 0 to 7 are in its first node, zone 8 in the second.
const NINE_ZONES_TABLE: u64 = 0x8000_0000 + 9 * 411_904;

#[test]
fn an_eviction_is_refused_or_stays(rt: HostRuntime) -> Result<(), Fail> {
    let oldest = Choice::new(|slots: &[SlotUse]| first_mounted(slots));
    let mut bench = Bench::new(rt.alloc(), Sha, 9, 1, &[], oldest)?;
    bench.reads(&rt, 0, 0, 0);
    bench.flip(&rt, NINE_ZONES_TABLE + 8 * 256);
    bench.breaks(&rt, 512, TOP);
    bench.flip(&rt, NINE_ZONES_TABLE + 8 * 256);
    bench.flip(&rt, NINE_ZONES_TABLE);
    bench.breaks(&rt, 512, table_node(0));
    bench.mounts(&rt, &[slot(0, 1)]);
    bench.flip(&rt, NINE_ZONES_TABLE);
    let root = bench.root();
    bench.flip(&rt, NINE_ZONES_TABLE + 256);
    bench.breaks(&rt, 512, table_node(1));
    bench.mounts(&rt, &[]);
    assert_eq!(rt; bench.root(), root);
    bench.flip(&rt, NINE_ZONES_TABLE + 256);
    bench.reads(&rt, 512, 0, 0);
    bench.mounts(&rt, &[slot(8, 1)]);
    Ok(())
}

fn table_node(index: u8) -> Place {
    Place::RootNode { level: 1, index }
}

// Three zones and two slots, the first word of each zone its number and 7: they are read alike whichever zone is evicted.
fn reads_in_turn<F: Fn(&[SlotUse]) -> usize + Drop>(
    rt: &impl Abort,
    alloc: Global,
    choice: Choice<F>,
    slots: [SlotUse; 2],
) -> Result<(), Fail>
    requires { NamesPosition F.Fn choice }
{
    let words = [(0, 0, 7), (64, 0, 8), (128, 0, 9)];
    let mut bench = Bench::new(alloc, Sha, 3, 2, &words, choice)?;
    for page in [0u32, 64, 128, 0, 64, 64] {
        bench.reads(rt, page, 0, u64::from(page) / 64 + 7);
    }
    bench.mounts(rt, &slots);
    Ok(())
}

#[test]
fn each_choice_reads_the_same_words(rt: HostRuntime) -> Result<(), Fail> {
    let oldest = Choice::new(|slots: &[SlotUse]| first_mounted(slots));
    reads_in_turn(&rt, rt.alloc(), oldest, [slot(0, 1), slot(1, 2)])?;
    let last = Choice::new(|slots: &[SlotUse]| slots.len() - 1);
    reads_in_turn(&rt, rt.alloc(), last, [slot(0, 2), slot(1, 2)])?;
    let least = Choice::new(|slots: &[SlotUse]| fewest_uses(slots));
    reads_in_turn(&rt, rt.alloc(), least, [slot(0, 1), slot(1, 2)])
}

fn slot(zone: u8, uses: u64) -> SlotUse {
    SlotUse { zone, uses }
}

// A path that was asked for is obeyed while the root of its zone stands. Asking counts no use, and a path that is obeyed counts one.
#[test]
fn an_asked_path_is_told_under_its_root(rt: HostRuntime) -> Result<(), Fail> {
    let oldest = Choice::new(|slots: &[SlotUse]| first_mounted(slots));
    let mut bench = Bench::new(rt.alloc(), Sha, 1, 1, &[(20, 0, 5)], oldest)?;
    let sealed = bench.asks(&rt, 20, 0);
    bench.mounts(&rt, &[slot(0, 0)]);
    bench.tells(&rt, &sealed, 5);
    bench.mounts(&rt, &[slot(0, 1)]);
    Ok(())
}

// It is obeyed more than once. After a write, and where the zone isn't mounted by now, it is to be asked for again.
#[test]
fn a_path_is_asked_for_again_under_another_root(rt: HostRuntime) -> Result<(), Fail> {
    let oldest = Choice::new(|slots: &[SlotUse]| first_mounted(slots));
    let mut bench = Bench::new(rt.alloc(), Sha, 2, 1, &[(20, 0, 5)], oldest)?;
    let sealed = bench.asks(&rt, 20, 0);
    bench.tells(&rt, &sealed, 5);
    assert_eq!(rt; bench.tell_write(&rt, &sealed, 9), Ok(5));
    bench.reads(&rt, 20, 0, 9);
    assert!(rt; bench.has_another_root(&rt, &sealed));
    bench.reads(&rt, 64, 0, 0);
    assert!(rt; bench.has_no_root(&rt, &sealed));
    Ok(())
}

// The block's bytes have the digest of the written ones when the path is taken.
#[test]
fn a_collision_is_told(rt: HostRuntime) -> Result<(), Fail> {
    let oldest = Choice::new(|slots: &[SlotUse]| first_mounted(slots));
    let mut bench = Bench::new(rt.alloc(), OneByte, 1, 1, &[], oldest)?;
    bench.attack(&rt, 0x8001_4000, &[100]);
    let sealed = bench.asks(&rt, 20, 0);
    match bench.tell_read(&rt, &sealed) {
        Err(Told::Broken(Broken::Collision(found))) => {
            assert_eq!(rt; found.place, Place::Block { page: 20, block: 0 });
        }
        other => panic!(rt; "{other:?}"),
    }
    Ok(())
}

#[test]
fn raw_calls_touch_off_chip_bytes_alone(rt: HostRuntime) -> Result<(), Fail> {
    let oldest = Choice::new(|slots: &[SlotUse]| first_mounted(slots));
    let mut bench = Bench::new(rt.alloc(), Sha, 1, 1, &[(20, 8, 5)], oldest)?;
    bench.raw_write(&rt, 20, 8, 0x0807_0605_0403_0201);
    assert_eq!(rt; bench.raw_read(&rt, 20, 8), 0x0807_0605_0403_0201);
    let mut bytes = [0; 4];
    bench.peek(&rt, 0x8001_4006, &mut bytes);
    assert_eq!(rt; bytes, [0, 0, 1, 2]);
    assert_eq!(rt; bench.written(&rt, 20, 0)[8], 5);
    bench.raw_zero(&rt, 20);
    assert_eq!(rt; bench.raw_read(&rt, 20, 8), 0);
    assert!(rt; !bench.attack(&rt, 0x8001_4000, &[0; 64]));
    assert!(rt; bench.attack(&rt, 0x8001_4008, &[5]));
    bench.reads(&rt, 20, 8, 5);
    assert_eq!(rt; bench.into_choice().pick(&[slot(0, 1)]), 0);
    Ok(())
}
