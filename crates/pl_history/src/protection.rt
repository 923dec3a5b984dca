// The protection entries of every hart.
ghost use Rattle.std.specs.Prelude.{◌≡◌, ◌<◌, ◌^◌, ◌==◌, ℕ, true, find};
ghost use Rattle.rv_pmp.specs.declared.rule.Rule.{Rule};
ghost use Rattle.rv_pmp.specs.Rule.{is_valid};
ghost use Rattle.pl_history.specs.Protection.{rule_at, entry_of_setup, pmp_of};
ghost use Rattle.pl_history.specs.Rules.{IsSetup, is_protection};

use crate::pages::{all_pages, guarded_pages};
use crate::setup::SetupParts;
use mem_geom::page_start;
use rv_pmp::{Pmp, Rule};

// Configurations: OFF, TOR with R, and TOR with R, W and X.
const OFF: u8 = 0;

const UP_TO_READABLE: u8 = 9;

const UP_TO_OPEN: u8 = 15;

// The entry whose register holds bits 55:2 of an address.
fn rule_at(cfg: u8, address: u64) -> Rule
    requires cfg { is_valid (rule_at cfg 0) ≡ true }
    requires address { address < 2 ^ 56 }
    ensures value { result ≡ rule_at cfg address }
    ensures valid { is_valid result ≡ true }
{
    Rule {
        cfg,
        addr: address / 4,
    }
}

// What a setup has for a number, where it has an entry.
fn given_entry(entries: &[(u8, Rule)], number: u8) -> Option<(u8, Rule)>
    ensures { result ≡ find (λ (entry : ℕ × Rule). entry.0 == number) entries.now }
{
    entries.iter().copied().find(|entry| entry.0 == number)
}

// The entry that a setup has for a number.
fn entry_of_setup(entries: &[(u8, Rule)], number: u8) -> Rule
    requires { is_protection entries.now ≡ true }
    ensures value { result ≡ entry_of_setup entries.now number }
    ensures valid { is_valid result ≡ true }
{
    match given_entry(entries, number) {
        Some(entry) => entry.1,
        None => rule_at(OFF, 0),
    }
}

impl SetupParts {
    /// The sixteen protection entries of every hart.
    pub fn protection(&self) -> Pmp
        requires { IsSetup self.now }
        ensures { result ≡ pmp_of self.now }
    {
        let entries = self.pmp.as_slice();
        Pmp::new([
            rule_at(OFF, page_start(0)),
            rule_at(
                UP_TO_READABLE,
                page_start(guarded_pages(self.tables, self.enclaves)),
            ),
            entry_of_setup(entries, 2),
            entry_of_setup(entries, 3),
            entry_of_setup(entries, 4),
            entry_of_setup(entries, 5),
            entry_of_setup(entries, 6),
            entry_of_setup(entries, 7),
            entry_of_setup(entries, 8),
            entry_of_setup(entries, 9),
            entry_of_setup(entries, 10),
            entry_of_setup(entries, 11),
            entry_of_setup(entries, 12),
            rule_at(OFF, page_start(0)),
            rule_at(UP_TO_OPEN, page_start(all_pages(self.zones))),
            rule_at(OFF, 0),
        ])
    }
}
