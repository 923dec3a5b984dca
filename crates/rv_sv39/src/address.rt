// Canonical addresses.
ghost use Rattle.std.specs.Prelude.{◌≡◌, ◌↔◌, IsTrue};
ghost use Rattle.rv_sv39.specs.Canonical.{is_canonical, ExtendsBit38};

use pl_base::Va;

// The ones that bits 63:38 of an address may be.
const ALL_ONES: u64 = (1 << 26) - 1;

/// Whether bits 63:39 of an address equal bit 38.
pub fn canonical(va: Va) -> bool
    ensures value { result ≡ is_canonical va.0 }
    ensures bits { IsTrue result ↔ ExtendsBit38 va.0 }
{
    let top = va.0 >> 38;
    top == 0 || top == ALL_ONES
}
