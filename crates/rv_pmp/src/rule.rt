// One protection entry.
ghost use Rattle.std.specs.Prelude.{◌≡◌, ◌<◌, ◌^◌, IsTrue};
ghost use Rattle.rv_pmp.specs.Rule.{perms_of, matching_of, is_valid, aligned_span, span_of};

use pl_base::{Kind, Perms, Span};

/// How a rule's register is read: field A of its configuration.
#[derive(Clone, Copy, PartialEq, Eq, Debug)]
pub enum Matching {
    /// The rule matches nothing.
    Off,
    /// Top of range: from the register of the rule before up to its own.
    Tor,
    /// Four bytes.
    Na4,
    /// A power of two of bytes, at least eight, naturally aligned.
    Napot,
}

/// One rule: a `pmpcfg` byte and a `pmpaddr` register.
///
/// `cfg` has R in bit 0, W in bit 1, X in bit 2, A in bits 4:3 and L in bit 7, which changes nothing here.
/// `addr` holds bits 55:2 of an address.
#[derive(Clone, Copy, PartialEq, Eq, Debug, Default)]
pub struct Rule {
    pub cfg: u8,
    pub addr: u64,
}

impl Rule {
    // The end of the registers: they have 54 bits.
    const ADDR_END: u64 = 1 << 54;

    /// Whether bits 6:5 of `cfg` are zero, W does not stand without R, and `addr` is below 2^54.
    pub fn valid(&self) -> bool
        ensures { result ≡ is_valid self.now }
    {
        let perms = self.perms();
        let reserved = self.cfg >> 5 & 3;
        reserved == 0
            && (!perms.grants(Kind::Store) || perms.grants(Kind::Load))
            && self.addr < Rule::ADDR_END
    }

    /// What the rule lets through.
    pub(crate) fn perms(&self) -> Perms
        ensures { result ≡ perms_of self.now }
    {
        Perms(self.cfg & 7)
    }

    fn matching(&self) -> Matching
        ensures { result ≡ matching_of self.now }
    {
        match self.cfg >> 3 & 3 {
            0 => Matching::Off,
            1 => Matching::Tor,
            2 => Matching::Na4,
            _ => Matching::Napot,
        }
    }

    /// The addresses that the rule matches after a rule whose register is `before`, or 0 for the first rule.
    pub(crate) fn span(&self, before: u64) -> Span
        requires valid { IsTrue (is_valid self.now) }
        requires before { before < 2 ^ 54 }
        ensures { result ≡ span_of before self.now }
    {
        match self.matching() {
            Matching::Off => Span { start: 0, stop: 0 },
            Matching::Tor => Span {
                start: 4 * before,
                stop: 4 * self.addr,
            },
            Matching::Na4 => Span {
                start: 4 * self.addr,
                stop: 4 * self.addr + 4,
            },
            Matching::Napot => aligned(self.addr),
        }
    }
}

// The naturally aligned range that a register names by its trailing ones.
fn aligned(addr: u64) -> Span
    requires { addr < 2 ^ 54 }
    ensures { result ≡ aligned_span addr }
{
    let ones = addr.trailing_ones();
    let size = 8u64 << ones;
    let start = (addr >> (ones + 1)) * size;
    Span {
        start,
        stop: start + size,
    }
}
