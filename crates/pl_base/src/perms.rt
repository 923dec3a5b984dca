// Permissions of a page, and kinds of access.
ghost use Rattle.std.specs.Prelude.{⊤, ◌≡◌, [], ◌∷◌, codes};
ghost use Rattle.pl_base.specs.Perms.{grants};

use crate::access::Kind;
use bitflags::{Flag, Flags, bitflag_items};

/// What may be done with a page, as a number of bits: `R` 1, `W` 2, `X` 4.
#[derive(Clone, Copy, PartialEq, Eq, Debug, Default)]
pub struct Perms(pub u8);

bitflag_items! {
    impl Perms: u8 {
        const R = 1;
        const W = 2;
        const X = 4;
    }
}

impl Flags for Perms {
    type Bits = u8;

    ghost exact = { ⊤ };

    ghost table = { (codes "R", 1) ∷ (codes "W", 2) ∷ (codes "X", 4) ∷ [] };

    ghost set_of = { λ p. p.0 };

    fn flags<'a>() -> &'a [Flag<Perms>] {
        Perms::FLAGS
    }

    fn bits(&self) -> u8 {
        self.0
    }

    fn from_bits_retain(bits: u8) -> Perms {
        Perms(bits)
    }
}

impl Perms {
    /// Whether an access of this kind is permitted: a fetch needs X, a load R, a store W.
    pub fn grants(self, kind: Kind) -> bool
        ensures { result ≡ grants self kind }
    {
        self.contains(match kind {
            Kind::Fetch => Perms::X,
            Kind::Load => Perms::R,
            Kind::Store => Perms::W,
        })
    }
}
