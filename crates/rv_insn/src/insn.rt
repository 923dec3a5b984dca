// The instructions of RV64I and M.

/// An operation on two numbers of 64 bits: the instruction's name, without the `I` of its immediate form.
/// Those that end in `w` work on the low 32 bits (RISC-V Unprivileged ISA, RV64I and the M extension).
#[derive(Clone, Copy, PartialEq, Eq, Debug)]
pub enum AluOp {
    Add,
    Sub,
    Sll,
    Slt,
    Sltu,
    Xor,
    Srl,
    Sra,
    Or,
    And,
    Mul,
    Mulh,
    Mulhsu,
    Mulhu,
    Div,
    Divu,
    Rem,
    Remu,
    Addw,
    Subw,
    Sllw,
    Srlw,
    Sraw,
    Mulw,
    Divw,
    Divuw,
    Remw,
    Remuw,
}

/// The comparison of a branch, by the branch's name.
#[derive(Clone, Copy, PartialEq, Eq, Debug)]
pub enum Cond {
    Beq,
    Bne,
    Blt,
    Bge,
    Bltu,
    Bgeu,
}

/// An instruction with its operands. Registers are numbers from 0 to 31, offsets and immediates are in bytes, sign-extended.
#[derive(Clone, Copy, PartialEq, Eq, Debug)]
pub enum Insn {
    /// `imm` has its low 12 bits zero, here and in `Auipc`.
    Lui {
        rd: u8,
        imm: i32,
    },
    Auipc {
        rd: u8,
        imm: i32,
    },
    Jal {
        rd: u8,
        offset: i32,
    },
    Jalr {
        rd: u8,
        rs1: u8,
        imm: i32,
    },
    Branch {
        cond: Cond,
        rs1: u8,
        rs2: u8,
        offset: i32,
    },
    /// `width` is 1, 2, 4 or 8 bytes. LD is signed.
    Load {
        width: u8,
        signed: bool,
        rd: u8,
        rs1: u8,
        imm: i32,
    },
    Store {
        width: u8,
        rs1: u8,
        rs2: u8,
        imm: i32,
    },
    /// At a shift `imm` is the amount.
    OpImm {
        op: AluOp,
        rd: u8,
        rs1: u8,
        imm: i32,
    },
    Op {
        op: AluOp,
        rd: u8,
        rs1: u8,
        rs2: u8,
    },
    /// `high` is bits 31:15 of the word.
    Fence {
        high: u32,
        rd: u8,
    },
    Ecall,
    Ebreak,
}
