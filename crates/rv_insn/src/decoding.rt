// The instruction of a word.
ghost use Rattle.std.specs.Prelude.{◌≡◌, ◌↔◌, IfSome};
ghost use Rattle.std.specs.Option.{option_map};
ghost use Rattle.rv_insn.specs.Word.{opcode, rd, rs1, rs2, i_immediate, b_immediate};
ghost use Rattle.rv_insn.specs.Table.{instruction_of, Decodes, IsWellFormed};
ghost use Rattle.rv_insn.specs.declared.insn.Insn.{Insn};

use crate::insn::{AluOp, Cond, Insn};
use crate::word::{
    b_immediate, bits, funct3, funct7, i_immediate, j_immediate, opcode, rd, rs1, rs2, s_immediate,
    u_immediate,
};

/// The instruction of a word (RISC-V Unprivileged ISA, RV64I and M); None where the word is illegal.
pub fn decode(word: u32) -> Option<Insn>
    ensures value { result ≡ instruction_of word }
    // It is the instruction that a row of the table makes of the word, and no row makes another one.
    ensures rows { (insn : Insn) → (result ≡ Some insn) ↔ Decodes word insn }
    // Its registers are below 32, the width of an access is 1, 2, 4 or 8, and an offset is even.
    ensures well_formed { IfSome result IsWellFormed }
{
    by_opcode(word)
}

#[tactic(auto, using(crate::proofs::Rows::unlisted))]
fn by_opcode(word: u32) -> Option<Insn>
    ensures { result ≡ instruction_of word }
{
    match opcode(word) {
        0x37 => lui(word),
        0x17 => auipc(word),
        0x6f => jal(word),
        0x67 => jalr(word),
        0x63 => branch(word),
        0x03 => load(word),
        0x23 => store(word),
        0x13 => immediate(word),
        0x1b => word_immediate(word),
        0x33 => operation(word),
        0x3b => word_operation(word),
        0x0f => fence(word),
        0x73 => call(word),
        _ => None,
    }
}

#[tactic(auto, using(crate::proofs::Rows::uppers))]
fn lui(word: u32) -> Option<Insn>
    requires { opcode word ≡ 55 }
    ensures { result ≡ instruction_of word }
{
    Some(Insn::Lui {
        rd: rd(word),
        imm: u_immediate(word),
    })
}

#[tactic(auto, using(crate::proofs::Rows::pc_uppers))]
fn auipc(word: u32) -> Option<Insn>
    requires { opcode word ≡ 23 }
    ensures { result ≡ instruction_of word }
{
    Some(Insn::Auipc {
        rd: rd(word),
        imm: u_immediate(word),
    })
}

#[tactic(auto, using(crate::proofs::Rows::links))]
fn jal(word: u32) -> Option<Insn>
    requires { opcode word ≡ 111 }
    ensures { result ≡ instruction_of word }
{
    Some(Insn::Jal {
        rd: rd(word),
        offset: j_immediate(word),
    })
}

#[tactic(auto, using(crate::proofs::Rows::jumps))]
fn jalr(word: u32) -> Option<Insn>
    requires { opcode word ≡ 103 }
    ensures { result ≡ instruction_of word }
{
    if funct3(word) != 0 {
        return None;
    }
    Some(Insn::Jalr {
        rd: rd(word),
        rs1: rs1(word),
        imm: i_immediate(word),
    })
}

fn branch(word: u32) -> Option<Insn>
    requires { opcode word ≡ 99 }
    ensures { result ≡ instruction_of word }
{
    let cond = condition(word)?;
    Some(Insn::Branch {
        cond,
        rs1: rs1(word),
        rs2: rs2(word),
        offset: b_immediate(word),
    })
}

#[tactic(auto, using(crate::proofs::Rows::branches))]
fn condition(word: u32) -> Option<Cond>
    requires { opcode word ≡ 99 }
    ensures { option_map (λ cond. Insn.Branch cond (rs1 word) (rs2 word) (b_immediate word)) result ≡ instruction_of word }
{
    match funct3(word) {
        0 => Some(Cond::Beq),
        1 => Some(Cond::Bne),
        4 => Some(Cond::Blt),
        5 => Some(Cond::Bge),
        6 => Some(Cond::Bltu),
        7 => Some(Cond::Bgeu),
        _ => None,
    }
}

fn load(word: u32) -> Option<Insn>
    requires { opcode word ≡ 3 }
    ensures { result ≡ instruction_of word }
{
    let (width, signed) = loaded_width(word)?;
    Some(Insn::Load {
        width,
        signed,
        rd: rd(word),
        rs1: rs1(word),
        imm: i_immediate(word),
    })
}

#[tactic(auto, using(crate::proofs::Rows::loads))]
fn loaded_width(word: u32) -> Option<(u8, bool)>
    requires { opcode word ≡ 3 }
    ensures { option_map (λ t. Insn.Load t.0 t.1 (rd word) (rs1 word) (i_immediate word)) result ≡ instruction_of word }
{
    match funct3(word) {
        0 => Some((1, true)),
        1 => Some((2, true)),
        2 => Some((4, true)),
        3 => Some((8, true)),
        4 => Some((1, false)),
        5 => Some((2, false)),
        6 => Some((4, false)),
        _ => None,
    }
}

#[tactic(auto, using(crate::proofs::Rows::stores))]
fn store(word: u32) -> Option<Insn>
    requires { opcode word ≡ 35 }
    ensures { result ≡ instruction_of word }
{
    let width = match funct3(word) {
        0 => 1,
        1 => 2,
        2 => 4,
        3 => 8,
        _ => return None,
    };
    Some(Insn::Store {
        width,
        rs1: rs1(word),
        rs2: rs2(word),
        imm: s_immediate(word),
    })
}

fn operation(word: u32) -> Option<Insn>
    requires { opcode word ≡ 51 }
    ensures { result ≡ instruction_of word }
{
    let op = operation_of(word)?;
    Some(Insn::Op {
        op,
        rd: rd(word),
        rs1: rs1(word),
        rs2: rs2(word),
    })
}

#[tactic(auto, using(crate::proofs::Rows::operations))]
fn operation_of(word: u32) -> Option<AluOp>
    requires { opcode word ≡ 51 }
    ensures { option_map (λ op. Insn.Op op (rd word) (rs1 word) (rs2 word)) result ≡ instruction_of word }
{
    match (funct7(word), funct3(word)) {
        (0x00, 0) => Some(AluOp::Add),
        (0x20, 0) => Some(AluOp::Sub),
        (0x00, 1) => Some(AluOp::Sll),
        (0x00, 2) => Some(AluOp::Slt),
        (0x00, 3) => Some(AluOp::Sltu),
        (0x00, 4) => Some(AluOp::Xor),
        (0x00, 5) => Some(AluOp::Srl),
        (0x20, 5) => Some(AluOp::Sra),
        (0x00, 6) => Some(AluOp::Or),
        (0x00, 7) => Some(AluOp::And),
        (0x01, 0) => Some(AluOp::Mul),
        (0x01, 1) => Some(AluOp::Mulh),
        (0x01, 2) => Some(AluOp::Mulhsu),
        (0x01, 3) => Some(AluOp::Mulhu),
        (0x01, 4) => Some(AluOp::Div),
        (0x01, 5) => Some(AluOp::Divu),
        (0x01, 6) => Some(AluOp::Rem),
        (0x01, 7) => Some(AluOp::Remu),
        _ => None,
    }
}

fn word_operation(word: u32) -> Option<Insn>
    requires { opcode word ≡ 59 }
    ensures { result ≡ instruction_of word }
{
    let op = word_operation_of(word)?;
    Some(Insn::Op {
        op,
        rd: rd(word),
        rs1: rs1(word),
        rs2: rs2(word),
    })
}

#[tactic(auto, using(crate::proofs::Rows::word_operations))]
fn word_operation_of(word: u32) -> Option<AluOp>
    requires { opcode word ≡ 59 }
    ensures { option_map (λ op. Insn.Op op (rd word) (rs1 word) (rs2 word)) result ≡ instruction_of word }
{
    match (funct7(word), funct3(word)) {
        (0x00, 0) => Some(AluOp::Addw),
        (0x20, 0) => Some(AluOp::Subw),
        (0x00, 1) => Some(AluOp::Sllw),
        (0x00, 5) => Some(AluOp::Srlw),
        (0x20, 5) => Some(AluOp::Sraw),
        (0x01, 0) => Some(AluOp::Mulw),
        (0x01, 4) => Some(AluOp::Divw),
        (0x01, 5) => Some(AluOp::Divuw),
        (0x01, 6) => Some(AluOp::Remw),
        (0x01, 7) => Some(AluOp::Remuw),
        _ => None,
    }
}

fn immediate(word: u32) -> Option<Insn>
    requires { opcode word ≡ 19 }
    ensures { result ≡ instruction_of word }
{
    let (op, imm) = immediate_of(word)?;
    Some(Insn::OpImm {
        op,
        rd: rd(word),
        rs1: rs1(word),
        imm,
    })
}

#[tactic(auto, using(crate::proofs::Rows::immediates))]
fn immediate_of(word: u32) -> Option<(AluOp, i32)>
    requires { opcode word ≡ 19 }
    ensures { option_map (λ t. Insn.OpImm t.0 (rd word) (rs1 word) t.1) result ≡ instruction_of word }
{
    match (funct3(word), bits(word, 31, 26)) {
        (0, _) => Some((AluOp::Add, i_immediate(word))),
        (1, 0x00) => Some((AluOp::Sll, bits(word, 25, 20) as i32)),
        (2, _) => Some((AluOp::Slt, i_immediate(word))),
        (3, _) => Some((AluOp::Sltu, i_immediate(word))),
        (4, _) => Some((AluOp::Xor, i_immediate(word))),
        (5, 0x00) => Some((AluOp::Srl, bits(word, 25, 20) as i32)),
        (5, 0x10) => Some((AluOp::Sra, bits(word, 25, 20) as i32)),
        (6, _) => Some((AluOp::Or, i_immediate(word))),
        (7, _) => Some((AluOp::And, i_immediate(word))),
        _ => None,
    }
}

fn word_immediate(word: u32) -> Option<Insn>
    requires { opcode word ≡ 27 }
    ensures { result ≡ instruction_of word }
{
    let (op, imm) = word_immediate_of(word)?;
    Some(Insn::OpImm {
        op,
        rd: rd(word),
        rs1: rs1(word),
        imm,
    })
}

#[tactic(auto, using(crate::proofs::Rows::word_immediates))]
fn word_immediate_of(word: u32) -> Option<(AluOp, i32)>
    requires { opcode word ≡ 27 }
    ensures { option_map (λ t. Insn.OpImm t.0 (rd word) (rs1 word) t.1) result ≡ instruction_of word }
{
    match (funct3(word), funct7(word)) {
        (0, _) => Some((AluOp::Addw, i_immediate(word))),
        (1, 0x00) => Some((AluOp::Sllw, i32::from(rs2(word)))),
        (5, 0x00) => Some((AluOp::Srlw, i32::from(rs2(word)))),
        (5, 0x20) => Some((AluOp::Sraw, i32::from(rs2(word)))),
        _ => None,
    }
}

#[tactic(auto, using(crate::proofs::Rows::fences))]
fn fence(word: u32) -> Option<Insn>
    requires { opcode word ≡ 15 }
    ensures { result ≡ instruction_of word }
{
    if funct3(word) != 0 {
        return None;
    }
    Some(Insn::Fence {
        high: bits(word, 31, 15),
        rd: rd(word),
    })
}

#[tactic(auto, using(crate::proofs::Rows::calls))]
fn call(word: u32) -> Option<Insn>
    requires { opcode word ≡ 115 }
    ensures { result ≡ instruction_of word }
{
    match word {
        0x0000_0073 => Some(Insn::Ecall),
        0x0010_0073 => Some(Insn::Ebreak),
        _ => None,
    }
}
