// The sixteen entries, and what they allow.
ghost use Rattle.std.specs.Prelude.{◌≡◌, ◌+◌, ◌↔◌, IsTrue};
ghost use Rattle.std.specs.List.{AllPass};
ghost use Rattle.rv_pmp.specs.Rule.{is_valid};
ghost use Rattle.rv_pmp.specs.Pmp.{permits, page_allowed, PageAllowed, AccessesAllowed};

use crate::decision::{decides, page_is_open};
use crate::rule::Rule;
use mem_geom::page_start;
use pl_base::{Kind, Pa, Span};
use std::marker::Model;

/// The sixteen rules that a hart's accesses pass. Contracts see them as a list.
#[derive(Clone, Copy, PartialEq, Eq, Debug)]
pub struct Pmp {
    rules: [Rule; 16],
}

impl Model for Pmp {
    ghost use Rattle.std.specs.Prelude.{List};
    ghost use Rattle.std.specs.List.{AllPass};
    ghost use Rattle.rv_pmp.specs.declared.rule.Rule.{Rule};
    ghost use Rattle.rv_pmp.specs.Rule.{is_valid};

    ghost Value = { List Rule };

    ghost view = { λ p. p.rules };

    ghost invariant = { λ p. AllPass is_valid p.rules };

    ghost inverse = { λ rules. record { rules = rules } };
}

impl Pmp {
    /// Takes sixteen rules, the first of which is tried first.
    pub fn new(rules: [Rule; 16]) -> Pmp
        requires { AllPass is_valid rules }
        ensures { result ≡ rules }
    {
        Pmp { rules }
    }

    /// Whether an access of `width` bytes at `pa` is let through: by the first rule that matches one of its bytes.
    ///
    /// An access of a hart has 1, 2, 4 or 8 bytes and is aligned; others are answered by the same rule.
    pub fn allows(&self, pa: Pa, width: u8, kind: Kind) -> bool
        ensures { result ≡ permits self.now pa.0 width kind }
    {
        match pa.0.checked_add(u64::from(width)) {
            Some(stop) => decides(&self.rules, Span { start: pa.0, stop }, kind),
            // No rule reaches so far.
            None => false,
        }
    }

    /// Whether each aligned eight-byte piece of a page of off-chip memory is let through for all three kinds.
    pub fn page_allowed(&self, page: u32) -> bool
        ensures allowed { result ≡ page_allowed self.now page }
        ensures pieces { IsTrue result ↔ PageAllowed self.now page }
        ensures accesses { IsTrue result → AccessesAllowed self.now page }
    {
        page_is_open(&self.rules, page_start(page))
    }
}
