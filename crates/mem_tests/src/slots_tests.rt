// Slots and choices, each call once.
use crate::threads::sent;
use mem_slots::{Choice, SlotUse, Slots, fewest_uses, first_mounted};
use std::test::Fail;

#[test]
fn slots_are_a_list_in_order_of_mounting(rt: HostRuntime) -> Result<(), Fail> {
    // Slots may go to another thread.
    let mut slots = sent(Slots::new(2));
    assert!(rt; slots.find(5).is_none() && !slots.is_full());
    slots.add(5, [7; 32]);
    slots.used(5);
    let mounted = SlotUse { zone: 5, uses: 1 };
    assert_eq!(rt; slots.list(), [mounted].as_slice());
    slots.set(5, [8; 32]);
    assert_eq!(rt; slots.find(5), Some([8; 32]));
    assert_eq!(rt; slots.take_out(0), (5, [8; 32]));
    assert!(rt; slots.list().is_empty());
    Ok(())
}

#[test]
fn rules_name_a_slot(rt: HostRuntime) {
    let slots = [
        SlotUse { zone: 3, uses: 4 },
        SlotUse { zone: 1, uses: 2 },
        SlotUse { zone: 0, uses: 2 },
    ];
    assert_eq!(rt; first_mounted(&slots), 0);
    assert_eq!(rt; fewest_uses(&slots), 1);
    assert_eq!(rt; Choice::new(|list| fewest_uses(list)).pick(&slots), 1);
    let last = Choice::new(|list: &[SlotUse]| list.len() - 1);
    assert_eq!(rt; last.pick(&slots), 2);
}
