// Fences of several harts, each call once.
use mon_fence::Fences;
use pl_base::{HartNo, HartSet, Space, Vpn};

#[test]
fn the_lowest_requester_is_acknowledged_first(rt: HostRuntime) {
    let mut fences = Fences::new(3);
    fences.post(HartNo(1), Space(0), Some(Vpn(1)));
    fences.post(HartNo(0), Space(2), None);
    assert_eq!(rt; fences.waits(HartNo(1)), Some(HartSet(5)));
    assert_eq!(rt; fences.owed(HartNo(2)), Some(HartNo(0)));
    assert_eq!(rt; fences.owed(HartNo(0)), Some(HartNo(1)));
    let fence = fences.ack(HartNo(2), HartNo(0));
    assert_eq!(rt; (fence.space, fence.vpn), (Space(2), None));
    assert_eq!(rt; fences.owed(HartNo(2)), Some(HartNo(1)));
    assert_eq!(rt; fences.waits(HartNo(0)), Some(HartSet(2)));
}

#[test]
fn a_fence_covers_its_page_or_its_whole_space(rt: HostRuntime) {
    let mut fences = Fences::new(2);
    fences.post(HartNo(1), Space(0), Some(Vpn(1)));
    assert!(rt; fences.covers(Space(0), Vpn(1)));
    assert!(rt; !fences.covers(Space(0), Vpn(2)));
    assert!(rt; !fences.covers(Space(1), Vpn(1)));
    fences.post(HartNo(0), Space(1), None);
    assert!(rt; fences.covers(Space(1), Vpn(1)));
    assert!(rt; !fences.covers(Space(2), Vpn(1)));
}

#[test]
fn one_hart_waits_for_nobody(rt: HostRuntime) {
    let mut fences = Fences::new(1);
    fences.post(HartNo(0), Space(0), Some(Vpn(1)));
    assert_eq!(rt; fences.waits(HartNo(0)), None);
    assert_eq!(rt; fences.owed(HartNo(0)), None);
    assert!(rt; fences.covers(Space(0), Vpn(1)));
    fences.leave(HartNo(0));
    assert!(rt; !fences.covers(Space(0), Vpn(1)));
}
