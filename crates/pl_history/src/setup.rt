// The setup of a run.
ghost use Rattle.std.specs.Prelude.{◌≡◌};
ghost use Rattle.pl_history.specs.Rules.{IsSetup};

use crate::line::{AttackLine, Line};
use mon_image::Image;
use pl_base::{Actor, Listed};
use rv_pmp::Rule;
use std::marker::Model;

/// Which mounted zone makes room for another.
#[derive(Clone, Copy, PartialEq, Eq, Debug)]
pub enum ChoiceName {
    /// The one that was mounted first.
    Oldest,
    /// The one that was used least since it was mounted.
    Least,
}

/// The parts of a setup.
#[derive(Debug, Drop)]
pub struct SetupParts {
    /// 1 to 8.
    pub harts: u8,
    /// Zones of 64 pages, 1 to 64.
    pub zones: u8,
    /// Places for mounted zones, 1 to 64.
    pub slots: u8,
    /// Last-level tables of the host, 1 to 32.
    pub tables: u8,
    /// Enclave numbers, 1 to 64.
    pub enclaves: u8,
    pub choice: ChoiceName,
    /// Protection entries by their number, 2 to 12, ascending.
    pub pmp: Listed<(u8, Rule)>,
    /// The order of the first turns, at most 100,000.
    pub order: Listed<Actor>,
    /// At most 64.
    pub images: Listed<Image>,
    /// Each hart's script.
    pub lines: Listed<Listed<Line>>,
    /// The attacker's script.
    pub attacker: Listed<AttackLine>,
}

/// A setup that meets every rule. Contracts see its parts.
#[derive(Debug, Drop)]
pub struct Setup {
    parts: SetupParts,
}

impl Model for Setup {
    ghost use Rattle.pl_history.specs.declared.setup.SetupParts.{SetupParts};
    ghost use Rattle.pl_history.specs.Rules.{IsSetup};

    ghost Value = { SetupParts };

    ghost view = { λ s. s.parts };

    ghost invariant = { λ s. IsSetup s.parts };
}

impl Setup {
    /// Of parts that meet every rule, without memory.
    pub fn new(parts: SetupParts) -> Setup
        requires { IsSetup parts }
        ensures { result ≡ parts }
    {
        Setup { parts }
    }

    pub fn parts(&self) -> &SetupParts
        ensures parts { result.now ≡ self.now }
        ensures rules { IsSetup self.now }
    {
        &self.parts
    }
}
