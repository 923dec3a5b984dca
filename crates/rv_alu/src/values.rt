// The value of each arithmetic operation.
ghost use Rattle.std.specs.Prelude.{◌≡◌};
ghost use Rattle.rv_insn.specs.declared.insn.AluOp.TheVariants.{Mulh, Mulhsu, Mulhu, Div, Rem};
ghost use Rattle.rv_alu.specs.Values.{alu_value, upper_half};

use crate::narrow::{self, extended, low};
use rv_insn::AluOp;

/// The value of an operation on two registers.
pub fn alu(op: AluOp, a: u64, b: u64) -> u64
    ensures { result ≡ alu_value op a b }
{
    match op {
        AluOp::Add => a.wrapping_add(b),
        AluOp::Sub => a.wrapping_sub(b),
        AluOp::Sll => a << (b % 64),
        AluOp::Slt => u64::from(a.cast_signed() < b.cast_signed()),
        AluOp::Sltu => u64::from(a < b),
        AluOp::Xor => a ^ b,
        AluOp::Srl => a >> (b % 64),
        AluOp::Sra => (a.cast_signed() >> (b % 64)).cast_unsigned(),
        AluOp::Or => a | b,
        AluOp::And => a & b,
        AluOp::Mul => a.wrapping_mul(b),
        AluOp::Mulh => mulh(a, b),
        AluOp::Mulhsu => mulhsu(a, b),
        AluOp::Mulhu => mulhu(a, b),
        AluOp::Div => div(a, b),
        AluOp::Divu => a.checked_div(b).unwrap_or(u64::MAX),
        AluOp::Rem => rem(a, b),
        AluOp::Remu => a.checked_rem(b).unwrap_or(a),
        AluOp::Addw => extended(low(a).wrapping_add(low(b))),
        AluOp::Subw => extended(low(a).wrapping_sub(low(b))),
        AluOp::Sllw => extended(low(a) << (low(b) % 32)),
        AluOp::Srlw => extended(low(a) >> (low(b) % 32)),
        AluOp::Sraw => extended(narrow::sra(low(a), low(b))),
        AluOp::Mulw => extended(low(a).wrapping_mul(low(b))),
        AluOp::Divw => extended(narrow::div(low(a), low(b))),
        AluOp::Divuw => extended(low(a).checked_div(low(b)).unwrap_or(u32::MAX)),
        AluOp::Remw => extended(narrow::rem(low(a), low(b))),
        AluOp::Remuw => extended(low(a).checked_rem(low(b)).unwrap_or(low(a))),
    }
}

fn mulh(a: u64, b: u64) -> u64
    ensures { result ≡ alu_value Mulh a b }
{
    upper_half(i128::from(a.cast_signed()) * i128::from(b.cast_signed()))
}

fn mulhsu(a: u64, b: u64) -> u64
    ensures { result ≡ alu_value Mulhsu a b }
{
    upper_half(i128::from(a.cast_signed()) * i128::from(b))
}

fn mulhu(a: u64, b: u64) -> u64
    ensures { result ≡ alu_value Mulhu a b }
{
    ((u128::from(a) * u128::from(b)) >> 64) as u64
}

// Bits 127:64 of a product.
fn upper_half(product: i128) -> u64
    ensures { result ≡ upper_half product }
{
    ((product >> 64) as i64).cast_unsigned()
}

fn div(a: u64, b: u64) -> u64
    ensures { result ≡ alu_value Div a b }
{
    if b == 0 {
        return u64::MAX;
    }
    a.cast_signed()
        .wrapping_div(b.cast_signed())
        .cast_unsigned()
}

fn rem(a: u64, b: u64) -> u64
    ensures { result ≡ alu_value Rem a b }
{
    if b == 0 {
        return a;
    }
    a.cast_signed()
        .wrapping_rem(b.cast_signed())
        .cast_unsigned()
}
