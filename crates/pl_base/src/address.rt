// Addresses and page numbers of the machine.
ghost use Rattle.std.specs.Prelude.{◌≡◌};
ghost use Rattle.pl_base.specs.Address.{vpn_of};

/// A virtual page number: bits 38:12 of an address (Sv39).
#[derive(Clone, Copy, PartialEq, Eq, Debug, Default)]
pub struct Vpn(pub u64);

/// A physical page number: a physical address over 4,096. Those that a translation gives are below 2^44.
#[derive(Clone, Copy, PartialEq, Eq, Debug, Default)]
pub struct Ppn(pub u64);

/// A physical address, in bytes.
#[derive(Clone, Copy, PartialEq, Eq, Debug, Default)]
pub struct Pa(pub u64);

/// A virtual address, in bytes.
#[derive(Clone, Copy, PartialEq, Eq, Debug, Default)]
pub struct Va(pub u64);

impl Va {
    /// The page number of the address: its bits 38:12 (RISC-V Privileged Architecture, Sv39).
    pub fn vpn(self) -> Vpn
        ensures { result ≡ vpn_of self }
    {
        Vpn(self.0 >> 12 & 0x7ff_ffff)
    }
}
