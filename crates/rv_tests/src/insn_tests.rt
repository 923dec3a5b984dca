// Words of the standard's tables, and words beside them; `tools/check_encodings` assembles each comment that begins with a mnemonic.
use rv_insn::{AluOp, Cond, Insn, decode, encode};
use std::process::Abort;

fn check(rt: &impl Abort, word: u32, insn: Insn) {
    assert_eq!(rt; decode(word), Some(insn), "{word:x}");
    assert!(rt; insn.valid(), "{word:x}");
    assert_eq!(rt; encode(insn), word);
}

// A word and the fields of its `auipc`.
const AUIPCS: [(u32, u8, i32); 4] = [
    (0x0000_0097, 1, 0), // auipc x1, 0
    (0xffff_ff97, 31, -4096), // auipc x31, 1048575
    (0x8000_0297, 5, -2147483648), // auipc x5, 524288
    (0x7fff_f317, 6, 2147479552), // auipc x6, 524287
];

// A word and the fields of its `lui`.
const LUIS: [(u32, u8, i32); 4] = [
    (0x0000_00b7, 1, 0), // lui x1, 0
    (0xffff_ffb7, 31, -4096), // lui x31, 1048575
    (0x8000_02b7, 5, -2147483648), // lui x5, 524288
    (0x7fff_f337, 6, 2147479552), // lui x6, 524287
];

// A word and the fields of its `jal`.
const JUMPS: [(u32, u8, i32); 5] = [
    (0x0010_00ef, 1, 2048), // jal x1, 2048
    (0x8000_006f, 0, -1048576), // jal x0, -1048576
    (0x7fff_ffef, 31, 1048574), // jal x31, 1048574
    (0xffff_f2ef, 5, -2), // jal x5, -2
    (0x0000_006f, 0, 0), // jal x0, 0
];

// A word and the fields of its `jalr`.
const INDIRECT_JUMPS: [(u32, u8, u8, i32); 3] = [
    (0x8001_00e7, 1, 2, -2048), // jalr x1, -2048(x2)
    (0x0000_8067, 0, 1, 0), // jalr x0, 0(x1)
    (0x7fff_0fe7, 31, 30, 2047), // jalr x31, 2047(x30)
];

#[test]
fn upper_immediates_and_jumps(rt: HostRuntime) {
    for &(word, rd, imm) in &LUIS {
        check(&rt, word, Insn::Lui { rd, imm });
    }
    for &(word, rd, imm) in &AUIPCS {
        check(&rt, word, Insn::Auipc { rd, imm });
    }
    for &(word, rd, offset) in &JUMPS {
        check(&rt, word, Insn::Jal { rd, offset });
    }
    for &(word, rd, rs1, imm) in &INDIRECT_JUMPS {
        check(&rt, word, Insn::Jalr { rd, rs1, imm });
    }
}

// A word and the fields of its branch.
const BRANCHES: [(u32, Cond, u8, u8, i32); 6] = [
    (0x81f0_8063, Cond::Beq, 1, 31, -4096), // beq x1, x31, -4096
    (0x7fa3_9fe3, Cond::Bne, 7, 26, 4094), // bne x7, x26, 4094
    (0x0156_c0e3, Cond::Blt, 13, 21, 2048), // blt x13, x21, 2048
    (0xff09_dfe3, Cond::Bge, 19, 16, -2), // bge x19, x16, -2
    (0x00bc_e863, Cond::Bltu, 25, 11, 16), // bltu x25, x11, 16
    (0xaa6f_f5e3, Cond::Bgeu, 31, 6, -1366), // bgeu x31, x6, -1366
];

#[test]
fn branches(rt: HostRuntime) {
    for &(word, cond, rs1, rs2, offset) in &BRANCHES {
        check(
            &rt,
            word,
            Insn::Branch {
                cond,
                rs1,
                rs2,
                offset,
            },
        );
    }
}

// A word and the fields of its load.
const LOADS: [(u32, u8, bool, u8, u8, i32); 7] = [
    (0x8000_0f83, 1, true, 31, 0, -2048), // lb x31, -2048(x0)
    (0x7ff2_9d83, 2, true, 27, 5, 2047), // lh x27, 2047(x5)
    (0xfff5_2b83, 4, true, 23, 10, -1), // lw x23, -1(x10)
    (0x4007_b983, 8, true, 19, 15, 1024), // ld x19, 1024(x15)
    (0x000a_4783, 1, false, 15, 20, 0), // lbu x15, 0(x20)
    (0xaaac_d583, 2, false, 11, 25, -1366), // lhu x11, -1366(x25)
    (0x555f_6383, 4, false, 7, 30, 1365), // lwu x7, 1365(x30)
];

// A word and the fields of its store.
const STORES: [(u32, u8, u8, u8, i32); 4] = [
    (0x81f0_0023, 1, 0, 31, -2048), // sb x31, -2048(x0)
    (0x7f84_9fa3, 2, 9, 24, 2047), // sh x24, 2047(x9)
    (0xff19_2fa3, 4, 18, 17, -1), // sw x17, -1(x18)
    (0x54ad_baa3, 8, 27, 10, 1365), // sd x10, 1365(x27)
];

#[test]
fn loads_and_stores(rt: HostRuntime) {
    for &(word, width, signed, rd, rs1, imm) in &LOADS {
        check(
            &rt,
            word,
            Insn::Load {
                width,
                signed,
                rd,
                rs1,
                imm,
            },
        );
    }
    for &(word, width, rs1, rs2, imm) in &STORES {
        check(
            &rt,
            word,
            Insn::Store {
                width,
                rs1,
                rs2,
                imm,
            },
        );
    }
}

// A word and the fields of its operation with an immediate.
const IMMEDIATE: [(u32, AluOp, u8, u8, i32); 18] = [
    (0x8000_0f93, AluOp::Add, 31, 0, -2048), // addi x31, x0, -2048
    (0x7ff3_8e13, AluOp::Add, 28, 7, 2047), // addi x28, x7, 2047
    (0xfff7_2c93, AluOp::Slt, 25, 14, -1), // slti x25, x14, -1
    (0x7ffa_bb13, AluOp::Sltu, 22, 21, 2047), // sltiu x22, x21, 2047
    (0xaaae_4993, AluOp::Xor, 19, 28, -1366), // xori x19, x28, -1366
    (0x5551_e813, AluOp::Or, 16, 3, 1365), // ori x16, x3, 1365
    (0x8005_7693, AluOp::And, 13, 10, -2048), // andi x13, x10, -2048
    (0x03f8_9513, AluOp::Sll, 10, 17, 63), // slli x10, x17, 63
    (0x000c_1393, AluOp::Sll, 7, 24, 0), // slli x7, x24, 0
    (0x03ff_d213, AluOp::Srl, 4, 31, 63), // srli x4, x31, 63
    (0x0013_5093, AluOp::Srl, 1, 6, 1), // srli x1, x6, 1
    (0x43f6_df13, AluOp::Sra, 30, 13, 63), // srai x30, x13, 63
    (0x420a_5d93, AluOp::Sra, 27, 20, 32), // srai x27, x20, 32
    (0x800d_8c1b, AluOp::Addw, 24, 27, -2048), // addiw x24, x27, -2048
    (0x01f1_1a9b, AluOp::Sllw, 21, 2, 31), // slliw x21, x2, 31
    (0x01f4_d91b, AluOp::Srlw, 18, 9, 31), // srliw x18, x9, 31
    (0x41f8_579b, AluOp::Sraw, 15, 16, 31), // sraiw x15, x16, 31
    (0x400b_d61b, AluOp::Sraw, 12, 23, 0), // sraiw x12, x23, 0
];

#[test]
fn immediate_operations(rt: HostRuntime) {
    for &(word, op, rd, rs1, imm) in &IMMEDIATE {
        check(&rt, word, Insn::OpImm { op, rd, rs1, imm });
    }
}

// A word and the fields of its operation.
const OPERATIONS: [(u32, AluOp, u8, u8, u8); 28] = [
    (0x0050_0fb3, AluOp::Add, 31, 0, 5), // add x31, x0, x5
    (0x4103_8e33, AluOp::Sub, 28, 7, 16), // sub x28, x7, x16
    (0x01b7_1cb3, AluOp::Sll, 25, 14, 27), // sll x25, x14, x27
    (0x006a_ab33, AluOp::Slt, 22, 21, 6), // slt x22, x21, x6
    (0x011e_39b3, AluOp::Sltu, 19, 28, 17), // sltu x19, x28, x17
    (0x01c1_c833, AluOp::Xor, 16, 3, 28), // xor x16, x3, x28
    (0x0075_56b3, AluOp::Srl, 13, 10, 7), // srl x13, x10, x7
    (0x4128_d533, AluOp::Sra, 10, 17, 18), // sra x10, x17, x18
    (0x01dc_63b3, AluOp::Or, 7, 24, 29), // or x7, x24, x29
    (0x008f_f233, AluOp::And, 4, 31, 8), // and x4, x31, x8
    (0x0333_00b3, AluOp::Mul, 1, 6, 19), // mul x1, x6, x19
    (0x03e6_9f33, AluOp::Mulh, 30, 13, 30), // mulh x30, x13, x30
    (0x029a_2db3, AluOp::Mulhsu, 27, 20, 9), // mulhsu x27, x20, x9
    (0x034d_bc33, AluOp::Mulhu, 24, 27, 20), // mulhu x24, x27, x20
    (0x03f1_4ab3, AluOp::Div, 21, 2, 31), // div x21, x2, x31
    (0x02a4_d933, AluOp::Divu, 18, 9, 10), // divu x18, x9, x10
    (0x0358_67b3, AluOp::Rem, 15, 16, 21), // rem x15, x16, x21
    (0x020b_f633, AluOp::Remu, 12, 23, 0), // remu x12, x23, x0
    (0x00bf_04bb, AluOp::Addw, 9, 30, 11), // addw x9, x30, x11
    (0x4162_833b, AluOp::Subw, 6, 5, 22), // subw x6, x5, x22
    (0x0016_11bb, AluOp::Sllw, 3, 12, 1), // sllw x3, x12, x1
    (0x00c9_d03b, AluOp::Srlw, 0, 19, 12), // srlw x0, x19, x12
    (0x417d_5ebb, AluOp::Sraw, 29, 26, 23), // sraw x29, x26, x23
    (0x0220_8d3b, AluOp::Mulw, 26, 1, 2), // mulw x26, x1, x2
    (0x02d4_4bbb, AluOp::Divw, 23, 8, 13), // divw x23, x8, x13
    (0x0387_da3b, AluOp::Divuw, 20, 15, 24), // divuw x20, x15, x24
    (0x023b_68bb, AluOp::Remw, 17, 22, 3), // remw x17, x22, x3
    (0x02ee_f73b, AluOp::Remuw, 14, 29, 14), // remuw x14, x29, x14
];

#[test]
fn operations(rt: HostRuntime) {
    for &(word, op, rd, rs1, rs2) in &OPERATIONS {
        check(&rt, word, Insn::Op { op, rd, rs1, rs2 });
    }
}

// A word and the fields of its fence.
const FENCES: [(u32, u32, u8); 4] = [
    (0x0ff0_000f, 0x1fe0, 0), // fence iorw, iorw
    (0x0310_000f, 0x620, 0), // fence rw, w
    (0x8330_000f, 0x10660, 0), // fence.tso
    (0xffff_8f8f, 0x1ffff, 31),
];

#[test]
fn fences_and_calls(rt: HostRuntime) {
    for &(word, high, rd) in &FENCES {
        check(&rt, word, Insn::Fence { high, rd });
    }
    check(&rt, 0x0000_0073, Insn::Ecall); // ecall
    check(&rt, 0x0010_0073, Insn::Ebreak); // ebreak
}

// One bit or one field beside a word of the table.
const ILLEGAL: [u32; 32] = [
    0x0000_0000, // All zeros
    0xffff_ffff, // All ones
    0x0000_0012, // A compressed form: not 11 in the low bits
    0x0000_10e7, // JALR with funct3 1
    0x0000_2063, // A branch with funct3 2
    0x0000_3063, // A branch with funct3 3
    0x0000_7003, // A load with funct3 7
    0x0000_4023, // A store with funct3 4
    0x0400_1013, // SLLI with bit 26
    0x8000_1013, // SLLI with bit 31
    0x0400_5013, // SRLI with bit 26
    0x4400_5013, // SRAI with bit 26
    0x0200_101b, // SLLIW with an amount of 6 bits
    0x0200_501b, // SRLIW with an amount of 6 bits
    0x4200_501b, // SRAIW with an amount of 6 bits
    0x0000_201b, // Opcode 0x1b with funct3 2
    0x4000_1033, // SLL with funct7 0x20
    0x0400_0033, // ADD with funct7 2
    0x4200_0033, // MUL with funct7 0x21
    0x0000_203b, // Opcode 0x3b with funct3 2
    0x0200_103b, // MULHW is none
    0x4000_103b, // SLLW with funct7 0x20
    0x0000_100f, // FENCE.I
    0x0000_00f3, // ECALL with rd 1
    0x0000_8073, // ECALL with rs1 1
    0x0020_0073, // EBREAK's neighbour
    0x1050_0073, // WFI
    0x3020_0073, // MRET
    0xc000_2573, // RDCYCLE
    0x0000_202f, // An atomic
    0x0000_2007, // A float load
    0x0000_0053, // A float operation
];

#[test]
fn other_words_are_illegal(rt: HostRuntime) {
    for &word in &ILLEGAL {
        assert_eq!(rt; decode(word), None, "{word:x}");
    }
}

// A field that no word holds, or one of an operation that has no such word.
const UNENCODED: [Insn; 21] = [
    Insn::Lui { rd: 32, imm: 0 },
    Insn::Auipc { rd: 0, imm: 1 },
    Insn::Jal { rd: 0, offset: 1 },
    Insn::Jal {
        rd: 0,
        offset: 1048576,
    },
    Insn::Jalr {
        rd: 0,
        rs1: 32,
        imm: 0,
    },
    Insn::Jalr {
        rd: 0,
        rs1: 0,
        imm: 2048,
    },
    Insn::Branch {
        cond: Cond::Beq,
        rs1: 0,
        rs2: 0,
        offset: 4096,
    },
    Insn::Branch {
        cond: Cond::Beq,
        rs1: 0,
        rs2: 0,
        offset: -3,
    },
    Insn::Load {
        width: 8,
        signed: false,
        rd: 0,
        rs1: 0,
        imm: 0,
    },
    Insn::Load {
        width: 3,
        signed: true,
        rd: 0,
        rs1: 0,
        imm: 0,
    },
    Insn::Store {
        width: 0,
        rs1: 0,
        rs2: 0,
        imm: 0,
    },
    Insn::Store {
        width: 8,
        rs1: 0,
        rs2: 255,
        imm: 0,
    },
    Insn::OpImm {
        op: AluOp::Add,
        rd: 0,
        rs1: 0,
        imm: -2049,
    },
    Insn::OpImm {
        op: AluOp::Sub,
        rd: 0,
        rs1: 0,
        imm: 0,
    },
    Insn::OpImm {
        op: AluOp::Mul,
        rd: 0,
        rs1: 0,
        imm: 0,
    },
    Insn::OpImm {
        op: AluOp::Sll,
        rd: 0,
        rs1: 0,
        imm: 64,
    },
    Insn::OpImm {
        op: AluOp::Srl,
        rd: 0,
        rs1: 0,
        imm: -1,
    },
    Insn::OpImm {
        op: AluOp::Sraw,
        rd: 0,
        rs1: 0,
        imm: 32,
    },
    Insn::Op {
        op: AluOp::Add,
        rd: 0,
        rs1: 0,
        rs2: 32,
    },
    Insn::Fence {
        high: 0x20000,
        rd: 0,
    },
    Insn::Fence { high: 0, rd: 32 },
];

#[test]
fn other_instructions_have_no_word(rt: HostRuntime) {
    for &insn in &UNENCODED {
        assert!(rt; !insn.valid(), "{insn:?}");
    }
}
