// The fields of an instruction word, and its immediates.
ghost use Rattle.std.specs.Prelude.{◌≡◌, ◌+◌, ◌-◌, ◌^◌, ◌<◌, ◌≤◌};
ghost use Rattle.rv_insn.specs.Word.{bits, signed, opcode, rd, funct3, rs1, rs2, funct7, i_immediate, s_immediate, b_immediate, u_immediate, j_immediate};

/// Bits `high` down to `low` of a word.
pub fn bits(word: u32, high: u32, low: u32) -> u32
    requires order { low ≤ high }
    requires within { high < 31 + low }
    requires last { high < 32 }
    ensures value { result ≡ bits word high low }
    ensures bound { result < 2 ^ (high + 1 - low) }
{
    (word >> low) & ((1 << (high + 1 - low)) - 1)
}

/// The number that `width` bits stand for in two's complement.
pub fn signed(width: u32, value: u32) -> i32
    requires some { 1 ≤ width }
    requires all { width ≤ 32 }
    requires fits { value < 2 ^ width }
    ensures { result ≡ signed width value }
{
    let unused = 32 - width;
    (value << unused).cast_signed() >> unused
}

/// Bits 6:0.
pub fn opcode(word: u32) -> u32
    ensures { result ≡ opcode word }
{
    bits(word, 6, 0)
}

/// Bits 11:7.
pub fn rd(word: u32) -> u8
    ensures { result ≡ rd word }
{
    bits(word, 11, 7) as u8
}

/// Bits 14:12.
pub fn funct3(word: u32) -> u32
    ensures { result ≡ funct3 word }
{
    bits(word, 14, 12)
}

/// Bits 19:15.
pub fn rs1(word: u32) -> u8
    ensures { result ≡ rs1 word }
{
    bits(word, 19, 15) as u8
}

/// Bits 24:20.
pub fn rs2(word: u32) -> u8
    ensures { result ≡ rs2 word }
{
    bits(word, 24, 20) as u8
}

/// Bits 31:25.
pub fn funct7(word: u32) -> u32
    ensures { result ≡ funct7 word }
{
    bits(word, 31, 25)
}

/// The immediate of the I format.
pub fn i_immediate(word: u32) -> i32
    ensures { result ≡ i_immediate word }
{
    signed(12, bits(word, 31, 20))
}

/// The immediate of the S format.
pub fn s_immediate(word: u32) -> i32
    ensures { result ≡ s_immediate word }
{
    signed(12, bits(word, 31, 25) << 5 | bits(word, 11, 7))
}

/// The immediate of the B format.
pub fn b_immediate(word: u32) -> i32
    ensures { result ≡ b_immediate word }
{
    signed(
        13,
        bits(word, 31, 31) << 12
            | (bits(word, 7, 7) << 11 | (bits(word, 30, 25) << 5 | bits(word, 11, 8) << 1)),
    )
}

/// The immediate of the U format, with its low 12 bits.
pub fn u_immediate(word: u32) -> i32
    ensures { result ≡ u_immediate word }
{
    signed(32, bits(word, 31, 12) << 12)
}

/// The immediate of the J format.
pub fn j_immediate(word: u32) -> i32
    ensures { result ≡ j_immediate word }
{
    signed(
        21,
        bits(word, 31, 31) << 20
            | (bits(word, 19, 12) << 12 | (bits(word, 20, 20) << 11 | bits(word, 30, 21) << 1)),
    )
}
