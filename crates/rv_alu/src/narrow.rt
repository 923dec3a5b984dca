// The operations on 32 bits.
ghost use Rattle.std.specs.Prelude.{◌≡◌, ◌%◌, ◌^◌};
ghost use Rattle.rv_insn.specs.Word.{signed};
ghost use Rattle.rv_alu.specs.Values.{wrapped, signed_shifted_right, quotient, remainder};

/// The low 32 bits.
pub fn low(a: u64) -> u32
    ensures { result ≡ a % 2 ^ 32 }
{
    (a & 0xffff_ffff) as u32
}

/// A number of 32 bits, sign-extended.
pub fn extended(a: u32) -> u64
    ensures { result ≡ wrapped 64 (signed 32 a) }
{
    i64::from(a.cast_signed()).cast_unsigned()
}

pub fn sra(a: u32, b: u32) -> u32
    ensures { result ≡ signed_shifted_right 32 a b }
{
    (a.cast_signed() >> (b % 32)).cast_unsigned()
}

pub fn div(a: u32, b: u32) -> u32
    ensures { result ≡ quotient 32 a b }
{
    if b == 0 {
        return u32::MAX;
    }
    a.cast_signed()
        .wrapping_div(b.cast_signed())
        .cast_unsigned()
}

pub fn rem(a: u32, b: u32) -> u32
    ensures { result ≡ remainder 32 a b }
{
    if b == 0 {
        return a;
    }
    a.cast_signed()
        .wrapping_rem(b.cast_signed())
        .cast_unsigned()
}
