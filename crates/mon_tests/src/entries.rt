// The protection entries that numbers are made under.
use rv_pmp::{Pmp, Rule};
use std::process::Abort;

// An entry, its configuration and its address.
const RULES: [(usize, u8, u64); 5] = [
    (0, 0, 0x2000_0000),
    (1, 0x09, 0x2000_2400),
    (2, 0x19, 0x2000_55ff),
    (13, 0, 0x2000_0000),
    (14, 0x0f, 0x2001_0000),
];

/// The entries of one zone with nine guarded pages, in which the rule of entry 2 bars writing in page 21.
pub(crate) fn entries(rt: &impl Abort) -> Pmp {
    let mut rules = [Rule::default(); 16];
    for &(i, cfg, addr) in &RULES {
        assert!(rt; i < 16);
        rules[i] = Rule { cfg, addr };
    }
    assert!(rt; rules.iter().all(|rule| rule.valid()));
    Pmp::new(rules)
}
