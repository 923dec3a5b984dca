// Paths that hold, break, and are renewed, over two digest functions.
ghost use Rattle.std.specs.Prelude.{◌≡◌, ◌<◌};

use crate::nodes::eight;
use crate::threads::sent;
use mem_tree::{Taken, Verdict, page_nodes};
use pl_base::Place;
use pl_digest::{OneByte, Sha};
use std::process::Abort;

// SHA-256 of 64 zero bytes; of eight of that; and so on up to the root of a zone of zero bytes.
const ZERO_DIGESTS: [[u8; 32]; 5] = [
    [
        0xf5, 0xa5, 0xfd, 0x42, 0xd1, 0x6a, 0x20, 0x30, 0x27, 0x98, 0xef, 0x6e, 0xd3, 0x09, 0x97,
        0x9b, 0x43, 0x00, 0x3d, 0x23, 0x20, 0xd9, 0xf0, 0xe8, 0xea, 0x98, 0x31, 0xa9, 0x27, 0x59,
        0xfb, 0x4b,
    ],
    [
        0xc9, 0x3d, 0xb1, 0xd3, 0xac, 0xab, 0x7e, 0xe0, 0x82, 0x5d, 0xd8, 0x4f, 0x2f, 0x10, 0xf5,
        0xba, 0x21, 0x3b, 0x92, 0xf0, 0x17, 0x00, 0xc7, 0x90, 0x99, 0x21, 0x32, 0xde, 0xe8, 0x88,
        0x35, 0x52,
    ],
    [
        0xa7, 0x32, 0x6e, 0xe1, 0x89, 0xb9, 0x6e, 0x02, 0x7c, 0x58, 0x26, 0x92, 0xed, 0x38, 0xe0,
        0x2b, 0x9b, 0xb8, 0xf2, 0xa4, 0xf4, 0xd8, 0xa9, 0xb0, 0x8f, 0xf0, 0x49, 0x0a, 0x7d, 0x4a,
        0x00, 0xb5,
    ],
    [
        0xf6, 0x6e, 0xfb, 0x95, 0x9f, 0x78, 0x91, 0x5a, 0x52, 0x20, 0xf1, 0x9e, 0x27, 0x1f, 0x2d,
        0x2a, 0xd5, 0xe0, 0x05, 0x86, 0x69, 0xd9, 0x79, 0x50, 0x4d, 0x60, 0x66, 0x65, 0xe2, 0x17,
        0x49, 0x5c,
    ],
    [
        0xbc, 0x3d, 0x64, 0x2d, 0xbf, 0x8b, 0x2f, 0x54, 0xc9, 0xa6, 0x29, 0x3d, 0xdb, 0x65, 0xe8,
        0xbd, 0x7f, 0x5d, 0xfc, 0x2d, 0xdb, 0x5a, 0x07, 0x8e, 0xf0, 0x39, 0xe0, 0x4b, 0xa2, 0x3b,
        0x65, 0x30,
    ],
];

// The root of that zone with the bytes 88 77 66 55 at offset 8 of block 13 of page 37.
const ROOT_AFTER: [u8; 32] = [
    0xe0, 0xc3, 0x0b, 0xd0, 0xfe, 0x8c, 0x26, 0x1d, 0xaf, 0x2e, 0x5a, 0x15, 0xbd, 0xa7, 0x0f, 0xf7,
    0x97, 0x1d, 0xf2, 0x55, 0xae, 0xe4, 0xb8, 0x73, 0x45, 0x62, 0x01, 0xc2, 0x5d, 0xa3, 0x3e, 0x7e,
];

// The path of block 13 of page 37 of zone 3, where all pages are zero.
fn zero_path() -> Taken<Sha>
    ensures page { result.page ≡ 229 }
    ensures block { result.block_no ≡ 13 }
{
    Taken {
        digester: Sha,
        page: 229,
        block_no: 13,
        block: [0; 64],
        level1: eight(&ZERO_DIGESTS[0]),
        level2: eight(&ZERO_DIGESTS[1]),
        level3: eight(&ZERO_DIGESTS[2]),
        level4: eight(&ZERO_DIGESTS[3]),
        root: ZERO_DIGESTS[4],
    }
}

#[test]
fn a_zero_page_has_the_nodes_of_a_plain_loop(rt: HostRuntime) {
    let mut level1 = [0; 2048];
    let mut level2 = [0; 256];
    page_nodes::<Sha>(&[0; 4096], &mut level1, &mut level2);
    for k in 0..64usize {
        assert_eq!(rt;
            &level1[32 * k..32 * k + 32],
            ZERO_DIGESTS[0].as_slice(),
            "block {k}"
        );
    }
    for k in 0..8usize {
        assert_eq!(rt;
            &level2[32 * k..32 * k + 32],
            ZERO_DIGESTS[1].as_slice(),
            "node {k}"
        );
    }
}

// The path breaks at a place.
fn breaks(rt: &impl Abort, taken: &Taken<Sha>, place: Place)
    requires page { taken.now.page < 4096 }
    requires block { taken.now.block_no < 64 }
{
    let verdict = taken.seal().verdict();
    assert_eq!(rt; verdict, Verdict::Breaks(place));
}

// A node over page 229.
fn node(level: u8, index: u16) -> Place {
    Place::Node {
        level,
        zone: 3,
        index,
    }
}

#[test]
fn a_path_breaks_at_the_first_changed_place(rt: HostRuntime) {
    assert_eq!(rt; zero_path().seal().verdict(), Verdict::Holds);
    let mut changed = zero_path();
    changed.block[63] ^= 1;
    let block = Place::Block {
        page: 229,
        block: 13,
    };
    breaks(&rt, &changed, block);
    changed.level1[255] ^= 128;
    breaks(&rt, &changed, node(1, 297));
    changed.level2[0] ^= 1;
    breaks(&rt, &changed, node(2, 37));
    changed.level3[1] ^= 2;
    breaks(&rt, &changed, node(3, 4));
    changed.level4[31] ^= 4;
    breaks(&rt, &changed, node(4, 0));
    let mut under_another_root = zero_path();
    under_another_root.root[0] ^= 1;
    breaks(&rt, &under_another_root, node(4, 0));
}

#[test]
fn a_part_changes_the_path_up_to_the_root(rt: HostRuntime) {
    // A sealed path may go to another thread.
    let sealed = sent(zero_path().seal());
    assert_eq!(rt; sealed.taken().page, 229);
    match sealed.verdict() {
        Verdict::Holds => {
            let after = sealed.with_part(8, 4, 0x1122_3344_5566_7788);
            assert_eq!(rt;
                &after.block[6..14],
                [0, 0, 0x88, 0x77, 0x66, 0x55, 0, 0].as_slice()
            );
            assert_eq!(rt; after.root, ROOT_AFTER);
        }
        Verdict::Breaks(_) => panic!(rt; "the path of zero pages breaks"),
    }
}

// The first bytes of the digests of 64 zero bytes, and of the number 100 and 60 zero bytes, are both 245; so are those
// of all nodes above.
#[test]
fn digests_are_compared_and_not_bytes(rt: HostRuntime) {
    let mut digest = [0; 32];
    digest[0] = 245;
    let mut taken = Taken {
        digester: OneByte,
        page: 4095,
        block_no: 63,
        block: [0; 64],
        level1: eight(&digest),
        level2: eight(&digest),
        level3: eight(&digest),
        level4: eight(&digest),
        root: digest,
    };
    assert_eq!(rt; taken.seal().verdict(), Verdict::Holds);
    taken.block[0] = 100;
    assert_eq!(rt; taken.seal().verdict(), Verdict::Holds);
}
