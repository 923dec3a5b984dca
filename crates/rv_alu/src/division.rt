// The laws of division with remainder.
ghost use Rattle.rv_insn.specs.declared.insn.AluOp.TheVariants.{Div, Divu, Rem, Remu, Divw, Divuw, Remw, Remuw};
ghost use Rattle.rv_alu.specs.Values.{GivesBack, LeavesRemainder, LeavesUnsignedRemainder};

/// Laws of the values. Each quotient times the divisor, plus the remainder, gives back the dividend,
/// modulo 2^64, and at 32 bits modulo 2^32; at a divisor of zero and at an overflow too. By another
/// divisor than zero the remainder is of smaller magnitude than the divisor, and has the dividend's sign.
#[tactic(auto, using(crate::proofs::GivenBack::laws, crate::proofs::Remainders::remainders))]
pub fn division_law()
    ensures signed { GivesBack 64 Div Rem }
    ensures unsigned { GivesBack 64 Divu Remu }
    ensures narrow_signed { GivesBack 32 Divw Remw }
    ensures narrow_unsigned { GivesBack 32 Divuw Remuw }
    ensures signed_rest { LeavesRemainder 64 Rem }
    ensures unsigned_rest { LeavesUnsignedRemainder 64 Remu }
    ensures narrow_signed_rest { LeavesRemainder 32 Remw }
    ensures narrow_unsigned_rest { LeavesUnsignedRemainder 32 Remuw }
{}
