// Decisions, against the standard's cases.
use pl_base::Kind::{Fetch, Load, Store};
use pl_base::{Kind, Pa};
use rv_pmp::{Pmp, Rule, registers_name_ranges};
use std::process::Abort;

const R: u8 = 1;

const W: u8 = 2;

const X: u8 = 4;

const TOR: u8 = 1 << 3;

const NA4: u8 = 2 << 3;

const NAPOT: u8 = 3 << 3;

const ALL: u8 = R | W | X;

// The address that most rules begin at.
const BASE: u64 = 0x8000_0000;

// The register of BASE, which holds bits 55:2 of an address.
const AT: u64 = BASE >> 2;

// The register of page 21, at 0x8001_5000.
const PAGE: u64 = 0x2000_5400;

// The words of the first rules.
type Rules = &'static [(u8, u64)];

// The first rules, 16 at most, and OFF after them.
fn with_rules(rt: &impl Abort, first: Rules) -> Pmp {
    let mut rules = [Rule::default(); 16];
    for (i, (cfg, addr)) in first.iter().enumerate() {
        assert!(rt; i < 16);
        rules[i] = Rule {
            cfg: *cfg,
            addr: *addr,
        };
    }
    assert!(rt; rules.iter().all(|rule| rule.valid()));
    Pmp::new(rules)
}

// The two words of a rule, and whether it is valid.
const RULES: [(u8, u64, bool); 9] = [
    (0u8, 0u64, true),
    (R, 0, true),
    (W, 0, false),
    (X | W, 0, false),
    (ALL | NAPOT, (1 << 54) - 1, true),
    (R, 1 << 54, false),
    (1 << 5, 0, false),
    (1 << 6, 0, false),
    (1 << 7 | R, 0, true),
];

#[test]
fn a_rule_is_valid_by_its_bits(rt: HostRuntime) {
    for &(cfg, addr, valid) in &RULES {
        assert_eq!(rt; Rule { cfg, addr }.valid(), valid, "{cfg:02x} {addr:x}");
    }
}

const UP_TO: Rules = &[(0, AT), (TOR | R, AT + 0x400)];

const UPSIDE_DOWN: Rules = &[(0, AT + 2), (TOR | R, AT), (TOR | R, AT + 0x400)];

const FOUR: Rules = &[(NA4 | R, AT)];

const EIGHT: Rules = &[(NAPOT | R, AT)];

const SIXTEEN: Rules = &[(NAPOT | R, AT | 1)];

const ONE_PAGE: Rules = &[(NAPOT | R, 0x2000_55ff)];

const WHOLE: Rules = &[(NAPOT | ALL, (1 << 54) - 1)];

const HALVES: Rules = &[(NA4 | R, AT), (NA4 | R, AT + 1)];

const HOLE: Rules = &[(NA4 | X, AT), (NAPOT | R, AT)];

// The rules, an access, and whether it is allowed.
const ACCESSES: [(Rules, u64, u8, Kind, bool); 40] = [
    (&[], BASE, 8, Load, false),
    (&[(ALL, AT)], BASE, 1, Load, false),
    (UP_TO, BASE, 8, Load, true),
    (UP_TO, BASE - 1, 1, Load, false),
    (UP_TO, BASE - 8, 8, Load, false),
    (UP_TO, BASE + 0xff8, 8, Load, true),
    (UP_TO, BASE + 0xfff, 1, Load, true),
    (UP_TO, BASE + 0x1000, 1, Load, false),
    (UP_TO, BASE, 8, Store, false),
    (UP_TO, BASE, 4, Fetch, false),
    (&[(TOR | R, 2)], 0, 8, Load, true),
    (&[(TOR | R, 2)], 8, 1, Load, false),
    (UPSIDE_DOWN, BASE, 8, Load, true),
    (UPSIDE_DOWN, BASE + 8, 8, Load, true),
    (FOUR, BASE, 4, Load, true),
    (FOUR, BASE + 3, 1, Load, true),
    (FOUR, BASE + 4, 1, Load, false),
    (FOUR, BASE - 1, 1, Load, false),
    (FOUR, BASE, 8, Load, false),
    (EIGHT, BASE, 8, Load, true),
    (EIGHT, BASE + 7, 1, Load, true),
    (EIGHT, BASE + 8, 1, Load, false),
    (EIGHT, BASE - 1, 1, Load, false),
    (SIXTEEN, BASE + 8, 8, Load, true),
    (SIXTEEN, BASE + 16, 1, Load, false),
    (ONE_PAGE, 0x8001_5000, 8, Load, true),
    (ONE_PAGE, 0x8001_5fff, 1, Load, true),
    (ONE_PAGE, 0x8001_4fff, 1, Load, false),
    (ONE_PAGE, 0x8001_6000, 1, Load, false),
    (WHOLE, 0, 1, Store, true),
    (WHOLE, (1 << 57) - 8, 8, Fetch, true),
    (WHOLE, 1 << 57, 8, Load, false),
    (WHOLE, u64::MAX - 7, 8, Load, false),
    (HALVES, BASE, 4, Load, true),
    (HALVES, BASE + 4, 4, Load, true),
    (HALVES, BASE, 8, Load, false),
    (HOLE, BASE, 4, Load, false),
    (HOLE, BASE, 4, Fetch, true),
    (HOLE, BASE + 4, 4, Load, true),
    (HOLE, BASE + 4, 4, Fetch, false),
];

#[test]
fn the_first_match_decides(rt: HostRuntime) {
    for (i, &(rules, pa, width, kind, allowed)) in ACCESSES.iter().enumerate() {
        let pmp = with_rules(&rt, rules);
        assert_eq!(rt; pmp.allows(Pa(pa), width, kind), allowed, "case {i}");
    }
}

const WHOLE_PAGE: (u8, u64) = (NAPOT | ALL, 0x2000_55ff);

// The rules, a page, and whether all of it is allowed.
const PAGES: [(Rules, u32, bool); 14] = [
    (&[], 21, false),
    (&[WHOLE_PAGE], 21, true),
    (&[WHOLE_PAGE], 20, false),
    (&[WHOLE_PAGE], 22, false),
    (&[(NAPOT | R | W, 0x2000_55ff)], 21, false),
    (&[WHOLE_PAGE, (NAPOT | R, PAGE)], 21, true),
    (&[(NAPOT | R, PAGE), WHOLE_PAGE], 21, false),
    (&[(NAPOT | R, PAGE + 0x3fe), WHOLE_PAGE], 21, false),
    (&[(NA4 | ALL, PAGE + 0x40), WHOLE_PAGE], 21, false),
    (&[(NAPOT | ALL, PAGE + 0x40), WHOLE_PAGE], 21, true),
    (
        &[
            (0, PAGE),
            (TOR | ALL, PAGE + 0x200),
            (TOR | ALL, PAGE + 0x400),
        ],
        21,
        true,
    ),
    (
        &[
            (0, PAGE),
            (TOR | ALL, PAGE + 0x201),
            (TOR | ALL, PAGE + 0x400),
        ],
        21,
        false,
    ),
    (&[(0, PAGE), (TOR | ALL, PAGE + 0x3fe)], 21, false),
    (
        &[(NA4 | R, PAGE - 1), (NA4 | R, PAGE + 0x400), WHOLE_PAGE],
        21,
        true,
    ),
];

#[test]
fn a_page_is_allowed_piece_by_piece(rt: HostRuntime) {
    for (i, &(rules, page, allowed)) in PAGES.iter().enumerate() {
        let pmp = with_rules(&rt, rules);
        assert_eq!(rt; pmp.page_allowed(page), allowed, "case {i}");
    }
    registers_name_ranges();
}
