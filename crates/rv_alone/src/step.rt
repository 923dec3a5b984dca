// What one instruction does to a context.
ghost use Rattle.std.specs.Prelude.{◌≡◌, ◌<◌, ◌*◌, ◌/◌, ◌%◌, IsTrue};
ghost use Rattle.pl_base.specs.Width.{is_width};
ghost use Rattle.rv_insn.specs.Table.{IsWellFormed};
ghost use Rattle.rv_alu.specs.Values.{wrapped};
ghost use Rattle.rv_alone.specs.Effect.{IsAligned, IsAccess, act_of, advanced, effect_of, goes_to, links, loaded, loaded_value, load_act, register, sets, store_act, sum_of, with_register};

use rv_alu::{alu, taken};
use rv_insn::{Insn, decode};

/// The registers `x0` to `x31`, and the address of the next instruction.
#[derive(Clone, Copy, PartialEq, Eq, Debug)]
pub struct Context {
    pub regs: [u64; 32],
    pub pc: u64,
}

/// What an instruction does.
#[derive(Clone, Copy, PartialEq, Eq, Debug)]
pub enum Act {
    /// It retires, and this context follows.
    Set(Context),
    /// It loads `width` bytes at `address`, a multiple of `width`, into register `rd`.
    Load {
        address: u64,
        width: u8,
        signed: bool,
        rd: u8,
    },
    /// It stores the lowest `width` bytes of `value` at `address`, a multiple of `width`.
    Store {
        address: u64,
        width: u8,
        value: u64,
    },
    /// It is an ECALL, with `a7` and `a0`.
    Call {
        number: u64,
        value: u64,
    },
    /// It traps, with a cause and a value of the standard's table of exceptions.
    Trap {
        cause: u8,
        value: u64,
    },
}

fn register(context: &Context, at: u8) -> u64
    requires { at < 32 }
    ensures { result ≡ register context.now.regs at }
{
    if at == 0 {
        0
    } else {
        context.regs[usize::from(at)]
    }
}

// The context with a value in a register; a write to `x0` is dropped.
fn with_register(context: &Context, at: u8, value: u64) -> Context
    requires { at < 32 }
    ensures { result ≡ with_register context.now at value }
{
    let mut after = *context;
    if at != 0 {
        after.regs[usize::from(at)] = value;
    }
    after
}

/// The context after an instruction that leaves the registers alone: `pc` is 4 higher.
pub fn passed(context: &Context) -> Context
    ensures { result ≡ advanced context.now }
{
    Context {
        regs: context.regs,
        pc: context.pc.wrapping_add(4),
    }
}

fn extended(imm: i32) -> u64
    ensures { result ≡ wrapped 64 imm }
{
    i64::from(imm).cast_unsigned()
}

fn sum_of(a: u64, imm: i32) -> u64
    ensures { result ≡ sum_of a imm }
{
    a.wrapping_add_signed(i64::from(imm))
}

fn set(context: &Context, rd: u8, value: u64) -> Act
    requires { rd < 32 }
    ensures { result ≡ sets context.now rd value }
{
    Act::Set(passed(&with_register(context, rd, value)))
}

// A target with bit 1 set is misaligned.
fn go(context: &Context, target: u64) -> Act
    ensures { result ≡ goes_to context.now target }
{
    if target >> 1 & 1 == 1 {
        return Act::Trap {
            cause: 0,
            value: target,
        };
    }
    Act::Set(Context {
        regs: context.regs,
        pc: target,
    })
}

fn link(context: &Context, rd: u8, target: u64) -> Act
    requires { rd < 32 }
    ensures { result ≡ links context.now rd target }
{
    go(
        &with_register(context, rd, context.pc.wrapping_add(4)),
        target,
    )
}

// A target of JALR has bit 0 cleared.
fn even(target: u64) -> u64
    ensures { result ≡ target / 2 * 2 }
{
    target & !1
}

fn load(address: u64, width: u8, signed: bool, rd: u8) -> Act
    requires { IsTrue (is_width width) }
    ensures { result ≡ load_act address width signed rd }
{
    if address % u64::from(width) != 0 {
        return Act::Trap {
            cause: 4,
            value: address,
        };
    }
    Act::Load {
        address,
        width,
        signed,
        rd,
    }
}

fn store(address: u64, width: u8, value: u64) -> Act
    requires { IsTrue (is_width width) }
    ensures { result ≡ store_act address width value }
{
    if address % u64::from(width) != 0 {
        return Act::Trap {
            cause: 6,
            value: address,
        };
    }
    Act::Store {
        address,
        width,
        value,
    }
}

fn effect(context: &Context, insn: Insn) -> Act
    requires { IsWellFormed insn }
    ensures { result ≡ effect_of context.now insn }
{
    match insn {
        Insn::Lui { rd, imm } => set(context, rd, extended(imm)),
        Insn::Auipc { rd, imm } => set(context, rd, sum_of(context.pc, imm)),
        Insn::Jal { rd, offset } => link(context, rd, sum_of(context.pc, offset)),
        Insn::Jalr { rd, rs1, imm } => {
            link(context, rd, even(sum_of(register(context, rs1), imm)))
        }
        Insn::Branch {
            cond,
            rs1,
            rs2,
            offset,
        } => {
            if taken(cond, register(context, rs1), register(context, rs2)) {
                go(context, sum_of(context.pc, offset))
            } else {
                Act::Set(passed(context))
            }
        }
        Insn::Load {
            width,
            signed,
            rd,
            rs1,
            imm,
        } => load(sum_of(register(context, rs1), imm), width, signed, rd),
        Insn::Store {
            width,
            rs1,
            rs2,
            imm,
        } => store(
            sum_of(register(context, rs1), imm),
            width,
            register(context, rs2),
        ),
        Insn::OpImm { op, rd, rs1, imm } => {
            let value = alu(op, register(context, rs1), extended(imm));
            set(context, rd, value)
        }
        Insn::Op { op, rd, rs1, rs2 } => {
            let value = alu(op, register(context, rs1), register(context, rs2));
            set(context, rd, value)
        }
        Insn::Fence { .. } => Act::Set(passed(context)),
        Insn::Ecall => Act::Call {
            number: register(context, 17),
            value: register(context, 10),
        },
        Insn::Ebreak => Act::Trap {
            cause: 3,
            value: context.pc,
        },
    }
}

/// What the word at `pc` does.
pub fn next(context: &Context, word: u32) -> Act
    ensures act { result ≡ act_of context.now word }
    ensures aligned { context.now.pc % 4 ≡ 0 → IsAligned result }
    ensures access { IsAccess result }
{
    match decode(word) {
        Some(insn) => effect(context, insn),
        None => Act::Trap {
            cause: 2,
            value: u64::from(word),
        },
    }
}

// The lowest bytes of what was read, sign-extended or not.
fn loaded_value(width: u8, signed: bool, raw: u64) -> u64
    requires { IsTrue (is_width width) }
    ensures { result ≡ loaded_value width signed raw }
{
    match (width, signed) {
        (1, true) => i64::from(((raw & 0xff) as u8).cast_signed()).cast_unsigned(),
        (2, true) => i64::from(((raw & 0xffff) as u16).cast_signed()).cast_unsigned(),
        (4, true) => i64::from(((raw & 0xffff_ffff) as u32).cast_signed()).cast_unsigned(),
        (1, false) => raw & 0xff,
        (2, false) => raw & 0xffff,
        (4, false) => raw & 0xffff_ffff,
        _ => raw,
    }
}

/// The context after a load of `width` bytes, the lowest of `raw`.
pub fn loaded(context: &Context, rd: u8, width: u8, signed: bool, raw: u64) -> Context
    requires rd { rd < 32 }
    requires width { IsTrue (is_width width) }
    ensures { result ≡ loaded context.now rd width signed raw }
{
    passed(&with_register(context, rd, loaded_value(width, signed, raw)))
}
