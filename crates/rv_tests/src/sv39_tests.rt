// Steps of walks, against the standard's cases.
use crate::table_words::{A, D, R, U, V, W, word};
use pl_base::Kind::{Fetch, Load, Store};
use pl_base::Mode::{Super, User};
use pl_base::{Kind, Mode, Perms, Ppn, Va, Vpn};
use rv_sv39::{Walked, canonical, steps_give_walks, walk_step};

const X: u64 = 1 << 3;

const G: u64 = 1 << 5;

const RSW: u64 = 3 << 8;

// Three fields of nine bits: 1, 2 and 3.
const PAGE: Vpn = Vpn((1 << 18) + (2 << 9) + 3);

// An address, and whether it is canonical.
const ADDRESSES: [(u64, bool); 9] = [
    (0u64, true),
    (0x3f_ffff_ffff, true),
    (0x40_0000_0000, false),
    (0x7f_ffff_ffff, false),
    (0x80_0000_0000, false),
    (0x8000_0000_0000_0000, false),
    (0xffff_ffbf_ffff_ffff, false),
    (0xffff_ffc0_0000_0000, true),
    (0xffff_ffff_ffff_ffff, true),
];

#[test]
fn an_address_is_canonical_by_its_upper_bits(rt: HostRuntime) {
    for &(va, expected) in &ADDRESSES {
        assert_eq!(rt; canonical(Va(va)), expected, "{va:x}");
    }
}

// Every bit of a leaf but U and those that are ignored.
const ALL: u64 = V | R | W | X | A | D;

// The last page number.
const LAST: u64 = (1 << 44) - 1;

const FAULT: Walked = Walked::PageFault;

const NEXT: Walked = Walked::Next(Ppn(0x80123));

const READ: Walked = Walked::Leaf(Ppn(0x80123), Perms(1));

const READ_WRITE: Walked = Walked::Leaf(Ppn(0x80123), Perms(3));

const WHOLE: Walked = Walked::Leaf(Ppn(0x80123), Perms(7));

// A level, the page number and bits of a table word, the access and its mode, and what the step gives.
const STEPS: [(u8, u64, u64, Kind, Mode, Walked); 45] = [
    // Rule 1: V, W without R, bits 63:54.
    (0, 0x80123, R | A, Load, Super, FAULT),
    (2, 0x80123, 0, Load, Super, FAULT),
    (2, 0x80123, V | W, Load, Super, FAULT),
    (0, 0x80123, V | W | X | A, Fetch, Super, FAULT),
    (2, 0x80123, V | 1 << 54, Load, Super, FAULT),
    (0, 0x80123, V | R | A | 1 << 63, Load, Super, FAULT),
    // Rule 2: pointers.
    (2, 0x80123, V, Load, Super, NEXT),
    (1, 0x80123, V, Load, Super, NEXT),
    (0, 0x80123, V, Load, Super, FAULT),
    (2, 0x80123, V | U, Load, User, FAULT),
    (2, 0x80123, V | A, Load, Super, FAULT),
    (2, 0x80123, V | D, Load, Super, FAULT),
    (2, 0x80123, V | G | RSW, Load, Super, NEXT),
    // A pointer comes before the rules of leaves: mode, kind, A and D.
    (2, 0x80123, V, Load, User, NEXT),
    (2, 0x80123, V, Store, Super, NEXT),
    (1, 0x80123, V, Fetch, User, NEXT),
    // Rule 3: superpages.
    (
        1,
        0x80200,
        V | R | A,
        Load,
        Super,
        Walked::Leaf(Ppn(0x80203), Perms(1)),
    ),
    (1, 0x80201, V | R | A, Load, Super, FAULT),
    (1, 0x80300, V | R | A, Load, Super, FAULT),
    (
        2,
        0x80000,
        V | R | A,
        Load,
        Super,
        Walked::Leaf(Ppn(0x80403), Perms(1)),
    ),
    (2, 0x80200, V | R | A, Load, Super, FAULT),
    (2, 0x80001, V | R | A, Load, Super, FAULT),
    (0, 0x80123, V | R | A, Load, Super, READ),
    // Rule 4: the U bit and the mode.
    (0, 0x80123, V | R | A, Load, User, FAULT),
    (0, 0x80123, V | R | U | A, Load, Super, FAULT),
    (0, 0x80123, V | R | U | A, Load, User, READ),
    // Rule 5: the kind.
    (0, 0x80123, V | R | A | D, Store, Super, FAULT),
    (0, 0x80123, V | R | A | D, Fetch, Super, FAULT),
    (0, 0x80123, V | X | A, Load, Super, FAULT),
    (
        0,
        0x80123,
        V | X | A,
        Fetch,
        Super,
        Walked::Leaf(Ppn(0x80123), Perms(4)),
    ),
    (0, 0x80123, V | R | W | A | D, Store, Super, READ_WRITE),
    // Rule 6: A and D.
    (0, 0x80123, V | R | W, Load, Super, FAULT),
    (0, 0x80123, V | R | W | D, Load, Super, FAULT),
    (0, 0x80123, V | R | W | A, Store, Super, FAULT),
    (0, 0x80123, V | R | W | D, Store, Super, FAULT),
    (0, 0x80123, V | X, Fetch, Super, FAULT),
    (0, 0x80123, V | R | W | A, Load, Super, READ_WRITE),
    // Rule 7: G and RSW are ignored, and permissions are given whole.
    (0, 0x80123, ALL, Load, Super, WHOLE),
    (0, 0x80123, ALL | G | RSW, Fetch, Super, WHOLE),
    (0, 0x80123, ALL | U, Store, User, WHOLE),
    // Two rules at once.
    (1, 0x80201, V | R | U, Store, Super, FAULT),
    (2, 0x80001, V | W, Load, Super, FAULT),
    (0, 0x80123, V | W | U, Load, User, FAULT),
    // The highest page number.
    (2, LAST, V, Load, Super, Walked::Next(Ppn(LAST))),
    (
        0,
        LAST,
        V | R | A,
        Load,
        Super,
        Walked::Leaf(Ppn(LAST), Perms(1)),
    ),
];

#[test]
fn each_rule_of_a_step_acts_in_its_place(rt: HostRuntime) {
    for (i, &(level, ppn, bits, kind, mode, expected)) in STEPS.iter().enumerate() {
        assert!(rt; level < 3);
        let step = walk_step(level, word(ppn, bits), PAGE, kind, mode);
        assert_eq!(rt; step, expected, "case {i}");
    }
    steps_give_walks();
}
