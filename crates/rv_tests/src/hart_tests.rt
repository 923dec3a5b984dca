// Each stage of a walk, with values worked out by hand from the standard.
ghost use Rattle.std.specs.Prelude.{IsTrue};
ghost use Rattle.rv_hart.specs.Walks.{IsWalk};

use crate::table_words::{A, D, R, U, V, W, word};
use pl_base::Kind::{Fetch, Load, Store};
use pl_base::{Kind, Mode, Pa, Perms, Ppn, Space, Va, Vpn};
use rv_hart::{PageFault, Sought, View, Walk, learn, repeated_steps_translate, seek};
use rv_tlb::{Tlb, TlbEntry};
use std::process::Abort;

// Three fields of nine bits, 1, 2 and 3, and the offset 0x45.
const VA: u64 = (1 << 30) + (2 << 21) + (3 << 12) + 0x45;

const VPN: Vpn = Vpn((1 << 18) + (2 << 9) + 3);

const USER: View = View {
    space: Space(1),
    root: Ppn(0x80000),
    mode: Mode::User,
};

const LEVEL1: Walk = Walk::Level {
    level: 1,
    table: Ppn(0x80123),
};

const LEVEL0: Walk = Walk::Level {
    level: 0,
    table: Ppn(0x80124),
};

const FOUND: Walk = Walk::Found {
    ppn: Ppn(0x80456),
    perms: Perms(1),
};

// The space and page of an entry of the TLB.
type Held = Option<(u16, Vpn)>;

const OWN: Held = Some((1, VPN));

// Entries of another space, and of another page.
const HOSTS: Held = Some((0, VPN));

const NEXT: Held = Some((1, Vpn(VPN.0 + 1)));

// A TLB with at most one entry, which may be read and executed.
fn holding(held: Held) -> Tlb {
    let mut tlb = Tlb::new();
    if let Some((space, vpn)) = held {
        tlb.put(TlbEntry {
            space: Space(space),
            vpn,
            ppn: Ppn(0x80789),
            perms: Perms(5),
        });
    }
    tlb
}

// No entry, or one of another space or page: the address and level of the word of the walk's table.
const TABLES: [(Walk, u64, Kind, Held, u64, u8); 6] = [
    (Walk::Start, VA, Load, None, 0x8000_0008, 2),
    (LEVEL1, VA, Store, None, 0x8012_3010, 1),
    (LEVEL0, VA, Fetch, None, 0x8012_4018, 0),
    (Walk::Start, u64::MAX, Load, None, 0x8000_0ff8, 2),
    (Walk::Start, VA, Load, HOSTS, 0x8000_0008, 2),
    (LEVEL0, VA, Load, NEXT, 0x8012_4018, 0),
];

#[test]
fn tables_are_asked_for_where_no_entry_is(rt: HostRuntime) {
    for &(walk, va, kind, held, pa, level) in &TABLES {
        let table = Sought::Table { pa: Pa(pa), level };
        check_seek(&rt, &walk, va, kind, held, table);
    }
}

// An entry is used wherever the walk stands, and by its permissions; a found page comes before an entry.
const PLACES: [(Walk, u64, Kind, Held, u64); 5] = [
    (Walk::Start, VA, Load, OWN, 0x8078_9045),
    (LEVEL1, VA, Fetch, OWN, 0x8078_9045),
    (LEVEL0, VA + 0xfba, Load, OWN, 0x8078_9fff),
    (FOUND, VA, Load, None, 0x8045_6045),
    (FOUND, VA, Load, OWN, 0x8045_6045),
];

#[test]
fn an_entry_or_a_found_page_is_used(rt: HostRuntime) {
    for &(walk, va, kind, held, pa) in &PLACES {
        check_seek(&rt, &walk, va, kind, held, Sought::At { pa: Pa(pa) });
    }
}

// No permission, or an address that isn't canonical.
const FAULTS: [(Walk, u64, Kind, Held); 9] = [
    (Walk::Start, VA, Store, OWN),
    (LEVEL1, VA, Store, OWN),
    (LEVEL0, VA, Store, OWN),
    (FOUND, VA, Fetch, OWN),
    (FOUND, VA, Store, None),
    (Walk::Start, VA + (1 << 38), Load, None),
    (LEVEL1, VA + (1 << 39), Load, OWN),
    (LEVEL0, VA + (1 << 63), Load, OWN),
    (FOUND, VA + (1 << 40), Load, None),
];

#[test]
fn what_is_not_permitted_is_a_fault(rt: HostRuntime) {
    for &(walk, va, kind, held) in &FAULTS {
        check_seek(&rt, &walk, va, kind, held, Sought::PageFault);
    }
    repeated_steps_translate();
}

fn check_seek(rt: &impl Abort, walk: &Walk, va: u64, kind: Kind, held: Held, expected: Sought) {
    let tlb = holding(held);
    assert!(rt; is_walk(walk));
    assert_eq!(rt;
        seek(walk, Va(va), kind, &tlb, &USER),
        expected,
        "{walk:?} {va:x} {kind:?}"
    );
}

// Whether a walk has a level and page numbers as `seek` and `learn` take them.
fn is_walk(walk: &Walk) -> bool
    ensures { IsTrue result → IsWalk walk.now }
{
    match *walk {
        Walk::Start => true,
        Walk::Level { level, table } => level < 3 && table.0 < 1 << 44,
        Walk::Found { ppn, .. } => ppn.0 < 1 << 44,
    }
}

// The bits of a leaf of a number that may be read.
const READ: u64 = V | R | U | A;

const FOUND_TO_WRITE: Walk = Walk::Found {
    ppn: Ppn(0x80456),
    perms: Perms(3),
};

// The third page of two megabytes.
const FOUND_IN_2_MIB: Walk = Walk::Found {
    ppn: Ppn(0x80203),
    perms: Perms(1),
};

// The page of the same fields in a gigabyte.
const FOUND_IN_1_GIB: Walk = Walk::Found {
    ppn: Ppn(0x80403),
    perms: Perms(1),
};

// A walk, the page number and bits of a word, the access, and what the word teaches.
const TAUGHT: [(Walk, u64, u64, Kind, Result<Walk, PageFault>); 14] = [
    // Pointers.
    (Walk::Start, 0x80123, V, Load, Ok(LEVEL1)),
    (LEVEL1, 0x80124, V, Store, Ok(LEVEL0)),
    (LEVEL0, 0x80125, V, Load, Err(PageFault)),
    // Leaves.
    (LEVEL0, 0x80456, READ, Load, Ok(FOUND)),
    (LEVEL0, 0x80456, READ | W | D, Store, Ok(FOUND_TO_WRITE)),
    (LEVEL1, 0x80200, READ, Load, Ok(FOUND_IN_2_MIB)),
    (Walk::Start, 0x80000, READ, Load, Ok(FOUND_IN_1_GIB)),
    // A fault at each level: no valid word, a superpage that isn't aligned, the host's page, no permission, no D.
    (Walk::Start, 0, 0, Load, Err(PageFault)),
    (LEVEL1, 0, 0, Load, Err(PageFault)),
    (LEVEL0, 0, 0, Load, Err(PageFault)),
    (LEVEL1, 0x80201, READ, Load, Err(PageFault)),
    (LEVEL0, 0x80456, V | R | A, Load, Err(PageFault)),
    (LEVEL0, 0x80456, READ, Store, Err(PageFault)),
    (LEVEL0, 0x80456, READ | W, Store, Err(PageFault)),
];

#[test]
fn what_a_word_teaches_at_each_level(rt: HostRuntime) {
    for (i, &(walk, ppn, bits, kind, expected)) in TAUGHT.iter().enumerate() {
        let tlb = check_learn(&rt, i, walk, word(ppn, bits), kind, expected);
        check_kept(&rt, i, &tlb, expected);
    }
}

// What a word teaches, over an empty TLB.
fn check_learn(
    rt: &impl Abort,
    i: usize,
    walk: Walk,
    word: u64,
    kind: Kind,
    expected: Result<Walk, PageFault>,
) -> Tlb {
    let mut tlb = Tlb::new();
    assert!(rt; is_walk(&walk));
    let Sought::Table { .. } = seek(&walk, Va(VA), kind, &tlb, &USER) else {
        panic!(rt; "no table is asked for in case {i}");
    };
    let taught = learn(walk, word, Va(VA), kind, &mut tlb, &USER);
    assert_eq!(rt; taught, expected, "case {i}");
    tlb
}

// A leaf that was found is in the TLB, and nothing else.
fn check_kept(rt: &impl Abort, i: usize, tlb: &Tlb, taught: Result<Walk, PageFault>) {
    let kept = tlb
        .find(USER.space, VPN)
        .map(|entry| (entry.ppn, entry.perms));
    let found = match taught {
        Ok(Walk::Found { ppn, perms }) => Some((ppn, perms)),
        _ => None,
    };
    assert_eq!(rt; kept, found, "case {i}");
}
