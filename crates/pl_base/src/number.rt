// Numbers that name spaces, harts and enclaves.
ghost use Rattle.std.specs.Prelude.{◌≡◌, ◌≢◌, ◌+◌, ◌<◌, ◌≤◌, ◌==◌, nat_lt, ℕ, false};
ghost use Rattle.pl_base.specs.HartSet.{has_hart, harts_below, without_hart, space_of_number};

/// An address space: 0 is the host's, `e + 1` that of enclave number `e`.
#[derive(Clone, Copy, PartialEq, Eq, Debug, Default)]
pub struct Space(pub u16);

/// A hart, from 0 to 7.
#[derive(Clone, Copy, PartialEq, Eq, Debug, Default)]
pub struct HartNo(pub u8);

/// An enclave number, from 0 to 63.
#[derive(Clone, Copy, PartialEq, Eq, Debug, Default)]
pub struct EncNo(pub u8);

impl Space {
    /// The host's space.
    pub const HOST: Space = Space(0);

    /// The space of an enclave number.
    pub fn of_number(e: EncNo) -> Space
        ensures { result ≡ space_of_number e }
    {
        Space(u16::from(e.0) + 1)
    }
}

/// A set of harts: bit `h` stands for hart `h`.
#[derive(Clone, Copy, PartialEq, Eq, Debug, Default)]
pub struct HartSet(pub u8);

impl HartSet {
    /// The harts below a number of harts, which is at most 8.
    pub fn below(harts: u8) -> HartSet
        requires { harts ≤ 8 }
        ensures value { result ≡ harts_below harts }
        ensures members { (k : ℕ) → has_hart result k ≡ nat_lt k harts }
    {
        HartSet(((1u16 << harts) - 1) as u8)
    }

    /// Whether a hart is in the set.
    pub fn has(self, h: HartNo) -> bool
        requires { h.0 < 8 }
        ensures { result ≡ has_hart self h.0 }
    {
        self.0 >> h.0 & 1 == 1
    }

    /// The set without a hart.
    pub fn without(self, h: HartNo) -> HartSet
        requires { h.0 < 8 }
        ensures value { result ≡ without_hart self h.0 }
        ensures gone { has_hart result h.0 ≡ false }
        ensures others { (k : ℕ) → k < 8 → k ≢ h.0 → has_hart result k ≡ has_hart self k }
    {
        HartSet(self.0 & !(1 << h.0))
    }

    /// Whether no hart is in it.
    pub fn is_empty(self) -> bool
        ensures { result ≡ (self.0 == 0) }
    {
        self.0 == 0
    }
}
