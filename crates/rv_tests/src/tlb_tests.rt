// Translations put, found and dropped.
use pl_base::{Perms, Ppn, Space, Vpn};
use rv_tlb::{Tlb, TlbEntry};
use std::process::Abort;

// The entry of a page of a space, at a physical page that tells both apart.
fn entry(space: u16, vpn: u16) -> TlbEntry {
    TlbEntry {
        space: Space(space),
        vpn: Vpn(u64::from(vpn)),
        ppn: Ppn(0x80000 + 64 * u64::from(space) + u64::from(vpn)),
        perms: Perms::R,
    }
}

fn put(rt: &impl Abort, tlb: &mut Tlb, entry: TlbEntry) {
    assert!(rt; tlb.find(entry.space, entry.vpn).is_none());
    assert!(rt; entry.ppn.0 < 1 << 44);
    tlb.put(entry);
}

// Whether exactly these pages of spaces 0 and 1 are found, among the first twenty of each.
fn holds(tlb: &Tlb, first: &[u16], second: &[u16]) -> bool {
    (0..20).all(|vpn| {
        let at = Vpn(u64::from(vpn));
        let zero = first.contains(&vpn).then_some(entry(0, vpn));
        let one = second.contains(&vpn).then_some(entry(1, vpn));
        tlb.find(Space(0), at) == zero && tlb.find(Space(1), at) == one
    })
}

#[test]
fn the_first_of_seventeen_drops_out(rt: HostRuntime) {
    let mut tlb = Tlb::new();
    assert!(rt; holds(&tlb, &[], &[]));
    for vpn in 0..17 {
        put(&rt, &mut tlb, entry(0, vpn));
    }
    assert!(rt;
        holds(
            &tlb,
            &[1, 2, 3, 4, 5, 6, 7, 8, 9, 10, 11, 12, 13, 14, 15, 16],
            &[]
        )
    );
    put(&rt, &mut tlb, entry(1, 3));
    assert!(rt;
        holds(
            &tlb,
            &[2, 3, 4, 5, 6, 7, 8, 9, 10, 11, 12, 13, 14, 15, 16],
            &[3]
        )
    );
}

#[test]
fn a_page_or_a_space_is_dropped_alone(rt: HostRuntime) {
    let mut tlb = Tlb::new();
    for vpn in 3..6 {
        put(&rt, &mut tlb, entry(0, vpn));
        put(&rt, &mut tlb, entry(1, vpn));
    }
    tlb.drop_page(Space(1), Vpn(4));
    assert!(rt; holds(&tlb, &[3, 4, 5], &[3, 5]));
    tlb.drop_page(Space(2), Vpn(4));
    assert!(rt; holds(&tlb, &[3, 4, 5], &[3, 5]));
    tlb.drop_space(Space(0));
    assert!(rt; holds(&tlb, &[], &[3, 5]));
    put(&rt, &mut tlb, entry(0, 4));
    assert!(rt; holds(&tlb, &[4], &[3, 5]));
}
