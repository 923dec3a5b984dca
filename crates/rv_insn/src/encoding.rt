// The word of an instruction.
ghost use Rattle.std.specs.Prelude.{◌≡◌, ◌+◌, ◌*◌, ◌%◌, ◌^◌, ◌<◌, ℕ, ℤ, Some, IsTrue, ◌↔◌};
ghost use Rattle.rv_insn.specs.Codes.{IsFieldsOf, IsBranchCode, IsLoadCode, IsStoreCode, IsOpCode};
ghost use Rattle.rv_insn.specs.Table.{instruction_of, IsValid};
ghost use Rattle.rv_insn.specs.Word.{bits, fields_of, s_immediate, b_immediate, j_immediate};

use crate::decoding::decode;
use crate::fields::Fields;
use crate::insn::{AluOp, Cond, Insn};
use crate::word::bits;

/// The word of an instruction.
pub fn encode(insn: Insn) -> u32
    requires { IsValid insn }
    ensures decodes { instruction_of result ≡ Some insn }
    ensures only { (word : ℕ) → word < 2 ^ 32 → instruction_of word ≡ Some insn → result ≡ word }
{
    word_of(insn)
}

/// The word of an instruction that has one, and some number for any other.
pub fn word_of(insn: Insn) -> u32
    ensures { (word : ℕ) → word < 2 ^ 32 → instruction_of word ≡ Some insn → result ≡ word }
{
    fields(insn).word()
}

fn fields(insn: Insn) -> Fields
    ensures { IsFieldsOf insn result }
{
    match insn {
        Insn::Lui { rd, imm } => upper(0x37, rd, bits(imm.cast_unsigned(), 31, 12)),
        Insn::Auipc { rd, imm } => upper(0x17, rd, bits(imm.cast_unsigned(), 31, 12)),
        Insn::Jal { rd, offset } => jump(rd, offset),
        Insn::Jalr { rd, rs1, imm } => immediate(0x67, 0, rd, rs1, imm.cast_unsigned()),
        Insn::Branch {
            cond,
            rs1,
            rs2,
            offset,
        } => branch(branch_code(cond), rs1, rs2, offset),
        Insn::Load {
            width,
            signed,
            rd,
            rs1,
            imm,
        } => immediate(0x03, load_code(width, signed), rd, rs1, imm.cast_unsigned()),
        Insn::Store {
            width,
            rs1,
            rs2,
            imm,
        } => store(store_code(width), rs1, rs2, imm),
        Insn::OpImm { op, rd, rs1, imm } => operation_immediate(op, rd, rs1, imm),
        Insn::Op { op, rd, rs1, rs2 } => operation(op, rd, rs1, rs2),
        Insn::Fence { high, rd } => upper(0x0f, rd, high << 3),
        Insn::Ecall => upper(0x73, 0, 0),
        Insn::Ebreak => upper(0x73, 0, 0x100),
    }
}

// The U and J formats: `top` is bits 31:12.
fn upper(opcode: u32, rd: u8, top: u32) -> Fields
    ensures { (word : ℕ) → (fields_of word).opcode ≡ opcode → (fields_of word).rd ≡ rd → bits word 31 12 ≡ top % 2 ^ 20 → result ≡ fields_of word }
{
    Fields {
        opcode,
        rd: u32::from(rd),
        funct3: bits(top, 2, 0),
        rs1: bits(top, 7, 3),
        rs2: bits(top, 12, 8),
        funct7: bits(top, 19, 13),
    }
}

// The I format: `low` has the immediate in its low 12 bits.
fn immediate(opcode: u32, funct3: u32, rd: u8, rs1: u8, low: u32) -> Fields
    ensures { (word : ℕ) → (fields_of word).opcode ≡ opcode → (fields_of word).funct3 ≡ funct3 → (fields_of word).rd ≡ rd → (fields_of word).rs1 ≡ rs1 → bits word 31 20 ≡ low % 2 ^ 12 → result ≡ fields_of word }
{
    Fields {
        opcode,
        rd: u32::from(rd),
        funct3,
        rs1: u32::from(rs1),
        rs2: bits(low, 4, 0),
        funct7: bits(low, 11, 5),
    }
}

fn store(funct3: u32, rs1: u8, rs2: u8, imm: i32) -> Fields
    ensures { (word : ℕ) → (fields_of word).opcode ≡ 35 → (fields_of word).funct3 ≡ funct3 → (fields_of word).rs1 ≡ rs1 → (fields_of word).rs2 ≡ rs2 → s_immediate word ≡ imm → result ≡ fields_of word }
{
    let imm = imm.cast_unsigned();
    Fields {
        opcode: 0x23,
        rd: bits(imm, 4, 0),
        funct3,
        rs1: u32::from(rs1),
        rs2: u32::from(rs2),
        funct7: bits(imm, 11, 5),
    }
}

fn branch(funct3: u32, rs1: u8, rs2: u8, offset: i32) -> Fields
    ensures { (word : ℕ) → (fields_of word).opcode ≡ 99 → (fields_of word).funct3 ≡ funct3 → (fields_of word).rs1 ≡ rs1 → (fields_of word).rs2 ≡ rs2 → b_immediate word ≡ offset → result ≡ fields_of word }
{
    let offset = offset.cast_unsigned();
    Fields {
        opcode: 0x63,
        rd: bits(offset, 4, 1) << 1 | bits(offset, 11, 11),
        funct3,
        rs1: u32::from(rs1),
        rs2: u32::from(rs2),
        funct7: bits(offset, 12, 12) << 6 | bits(offset, 10, 5),
    }
}

fn jump(rd: u8, offset: i32) -> Fields
    ensures { (word : ℕ) → (fields_of word).opcode ≡ 111 → (fields_of word).rd ≡ rd → j_immediate word ≡ offset → result ≡ fields_of word }
{
    upper(0x6f, rd, jump_bits(offset.cast_unsigned()))
}

// Bits 31:12 of a jump by this offset.
fn jump_bits(offset: u32) -> u32
    ensures { result ≡ bits offset 20 20 * 2 ^ 19 + bits offset 10 1 * 2 ^ 9 + bits offset 11 11 * 2 ^ 8 + bits offset 19 12 }
{
    bits(offset, 20, 20) << 19
        | (bits(offset, 10, 1) << 9 | (bits(offset, 11, 11) << 8 | bits(offset, 19, 12)))
}

fn operation(op: AluOp, rd: u8, rs1: u8, rs2: u8) -> Fields
    ensures { IsFieldsOf (Insn.Op op rd rs1 rs2) result }
{
    let code = op_code(op);
    Fields {
        opcode: if code.word { 0x3b } else { 0x33 },
        rd: u32::from(rd),
        funct3: code.funct3,
        rs1: u32::from(rs1),
        rs2: u32::from(rs2),
        funct7: code.funct7,
    }
}

fn operation_immediate(op: AluOp, rd: u8, rs1: u8, imm: i32) -> Fields
    ensures { IsFieldsOf (Insn.OpImm op rd rs1 imm) result }
{
    let code = op_code(op);
    let opcode = if code.word { 0x1b } else { 0x13 };
    // A shift has its funct7 above the amount.
    let low = code.funct7 << 5 | imm.cast_unsigned();
    immediate(opcode, code.funct3, rd, rs1, low)
}

#[tactic(auto, using(crate::proofs::Spelled::branch_codes))]
fn branch_code(cond: Cond) -> u32
    ensures { IsBranchCode cond result }
{
    match cond {
        Cond::Beq => 0,
        Cond::Bne => 1,
        Cond::Blt => 4,
        Cond::Bge => 5,
        Cond::Bltu => 6,
        Cond::Bgeu => 7,
    }
}

#[tactic(auto, using(crate::proofs::Spelled::load_codes))]
fn load_code(width: u8, signed: bool) -> u32
    ensures { IsLoadCode width signed result }
{
    match (width, signed) {
        (1, true) => 0,
        (2, true) => 1,
        (4, true) => 2,
        (8, true) => 3,
        (1, false) => 4,
        (2, false) => 5,
        _ => 6,
    }
}

#[tactic(auto, using(crate::proofs::Spelled::store_codes))]
fn store_code(width: u8) -> u32
    ensures { IsStoreCode width result }
{
    match width {
        1 => 0,
        2 => 1,
        4 => 2,
        _ => 3,
    }
}

/// What is fixed in the words of an operation.
#[derive(Clone, Copy)]
pub struct OpCode {
    /// Whether it works on the low 32 bits.
    pub word: bool,
    pub funct7: u32,
    pub funct3: u32,
}

impl OpCode {
    fn new(word: bool, funct7: u32, funct3: u32) -> OpCode
        ensures { result ≡ record { word = word; funct7 = funct7; funct3 = funct3 } }
    {
        OpCode {
            word,
            funct7,
            funct3,
        }
    }
}

#[tactic(auto, using(crate::proofs::Spelled::op_codes))]
fn op_code(op: AluOp) -> OpCode
    ensures { IsOpCode op result }
{
    match op {
        AluOp::Add => OpCode::new(false, 0x00, 0),
        AluOp::Sub => OpCode::new(false, 0x20, 0),
        AluOp::Sll => OpCode::new(false, 0x00, 1),
        AluOp::Slt => OpCode::new(false, 0x00, 2),
        AluOp::Sltu => OpCode::new(false, 0x00, 3),
        AluOp::Xor => OpCode::new(false, 0x00, 4),
        AluOp::Srl => OpCode::new(false, 0x00, 5),
        AluOp::Sra => OpCode::new(false, 0x20, 5),
        AluOp::Or => OpCode::new(false, 0x00, 6),
        AluOp::And => OpCode::new(false, 0x00, 7),
        AluOp::Mul => OpCode::new(false, 0x01, 0),
        AluOp::Mulh => OpCode::new(false, 0x01, 1),
        AluOp::Mulhsu => OpCode::new(false, 0x01, 2),
        AluOp::Mulhu => OpCode::new(false, 0x01, 3),
        AluOp::Div => OpCode::new(false, 0x01, 4),
        AluOp::Divu => OpCode::new(false, 0x01, 5),
        AluOp::Rem => OpCode::new(false, 0x01, 6),
        AluOp::Remu => OpCode::new(false, 0x01, 7),
        AluOp::Addw => OpCode::new(true, 0x00, 0),
        AluOp::Subw => OpCode::new(true, 0x20, 0),
        AluOp::Sllw => OpCode::new(true, 0x00, 1),
        AluOp::Srlw => OpCode::new(true, 0x00, 5),
        AluOp::Sraw => OpCode::new(true, 0x20, 5),
        AluOp::Mulw => OpCode::new(true, 0x01, 0),
        AluOp::Divw => OpCode::new(true, 0x01, 4),
        AluOp::Divuw => OpCode::new(true, 0x01, 5),
        AluOp::Remw => OpCode::new(true, 0x01, 6),
        AluOp::Remuw => OpCode::new(true, 0x01, 7),
    }
}

impl Insn {
    /// Whether some word of 32 bits is this instruction.
    pub fn valid(&self) -> bool
        ensures { IsTrue result ↔ IsValid self.now }
    {
        decode(word_of(*self)) == Some(*self)
    }
}
