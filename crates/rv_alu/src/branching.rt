// Whether a branch is taken.
ghost use Rattle.std.specs.Prelude.{◌≡◌};
ghost use Rattle.rv_alu.specs.Values.{is_taken};

use rv_insn::Cond;

/// Whether a branch by this comparison is taken, at these two registers.
pub fn taken(cond: Cond, a: u64, b: u64) -> bool
    ensures { result ≡ is_taken cond a b }
{
    match cond {
        Cond::Beq => a == b,
        Cond::Bne => a != b,
        Cond::Blt => a.cast_signed() < b.cast_signed(),
        Cond::Bge => a.cast_signed() >= b.cast_signed(),
        Cond::Bltu => a < b,
        Cond::Bgeu => a >= b,
    }
}
