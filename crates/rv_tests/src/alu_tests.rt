// Values worked out apart from the program, by whole numbers of any size.
use rv_alu::{alu, taken};
use rv_insn::{AluOp, Cond};

// An operation, its two operands and its result.
const OPERATIONS: [(AluOp, u64, u64, u64); 61] = [
    (AluOp::Add, 0xffff_ffff_ffff_ffff, 1, 0),
    (AluOp::Sub, 0, 1, 0xffff_ffff_ffff_ffff),
    (AluOp::Sll, 1, 63, 0x8000_0000_0000_0000),
    (AluOp::Sll, 3, 127, 0x8000_0000_0000_0000),
    (AluOp::Slt, 0x8000_0000_0000_0000, 0, 1),
    (AluOp::Slt, 0, 0x8000_0000_0000_0000, 0),
    (AluOp::Sltu, 0x8000_0000_0000_0000, 0, 0),
    (AluOp::Sltu, 0, 0xffff_ffff_ffff_ffff, 1),
    (
        AluOp::Xor,
        0x0123_4567_89ab_cdef,
        0xffff_ffff_ffff_ffff,
        0xfedc_ba98_7654_3210,
    ),
    (AluOp::Srl, 0x8000_0000_0000_0000, 63, 1),
    (AluOp::Srl, 0xffff_ffff_ffff_ffff, 64, 0xffff_ffff_ffff_ffff),
    (AluOp::Sra, 0x8000_0000_0000_0000, 63, 0xffff_ffff_ffff_ffff),
    (AluOp::Sra, 0xffff_ffff_ffff_fff9, 65, 0xffff_ffff_ffff_fffc),
    (
        AluOp::Or,
        0x0123_4567_89ab_cdef,
        0xfedc_ba98_7654_3210,
        0xffff_ffff_ffff_ffff,
    ),
    (AluOp::And, 0x0123_4567_89ab_cdef, 0xff00, 0xcd00),
    (
        AluOp::Mul,
        0x0123_4567_89ab_cdef,
        0xfedc_ba98_7654_3210,
        0x2236_d88f_e561_8cf0,
    ),
    (
        AluOp::Mul,
        0x8000_0000_0000_0000,
        0xffff_ffff_ffff_ffff,
        0x8000_0000_0000_0000,
    ),
    (
        AluOp::Mulh,
        0x8000_0000_0000_0000,
        0x8000_0000_0000_0000,
        0x4000_0000_0000_0000,
    ),
    (
        AluOp::Mulh,
        0x8000_0000_0000_0000,
        0x7fff_ffff_ffff_ffff,
        0xc000_0000_0000_0000,
    ),
    (AluOp::Mulh, 0xffff_ffff_ffff_ffff, 0xffff_ffff_ffff_ffff, 0),
    (
        AluOp::Mulh,
        0x0123_4567_89ab_cdef,
        0xfedc_ba98_7654_3210,
        0xfffe_b499_23cc_0953,
    ),
    (
        AluOp::Mulhsu,
        0x8000_0000_0000_0000,
        0xffff_ffff_ffff_ffff,
        0x8000_0000_0000_0000,
    ),
    (
        AluOp::Mulhsu,
        0xffff_ffff_ffff_ffff,
        0xffff_ffff_ffff_ffff,
        0xffff_ffff_ffff_ffff,
    ),
    (
        AluOp::Mulhsu,
        0x0123_4567_89ab_cdef,
        0xfedc_ba98_7654_3210,
        0x0121_fa00_ad77_d742,
    ),
    (
        AluOp::Mulhu,
        0xffff_ffff_ffff_ffff,
        0xffff_ffff_ffff_ffff,
        0xffff_ffff_ffff_fffe,
    ),
    (
        AluOp::Mulhu,
        0x0123_4567_89ab_cdef,
        0xfedc_ba98_7654_3210,
        0x0121_fa00_ad77_d742,
    ),
    (AluOp::Div, 0xffff_ffff_ffff_fff9, 2, 0xffff_ffff_ffff_fffd),
    (AluOp::Div, 7, 0xffff_ffff_ffff_fffe, 0xffff_ffff_ffff_fffd),
    (
        AluOp::Div,
        0x8000_0000_0000_0000,
        0xffff_ffff_ffff_ffff,
        0x8000_0000_0000_0000,
    ),
    (AluOp::Div, 7, 0, 0xffff_ffff_ffff_ffff),
    (AluOp::Divu, 0xffff_ffff_ffff_fff9, 2, 0x7fff_ffff_ffff_fffc),
    (AluOp::Divu, 5, 0, 0xffff_ffff_ffff_ffff),
    (AluOp::Rem, 0xffff_ffff_ffff_fff9, 2, 0xffff_ffff_ffff_ffff),
    (AluOp::Rem, 7, 0xffff_ffff_ffff_fffe, 1),
    (AluOp::Rem, 0x8000_0000_0000_0000, 0xffff_ffff_ffff_ffff, 0),
    (AluOp::Rem, 7, 0, 7),
    (AluOp::Rem, 0xffff_ffff_ffff_fffb, 0, 0xffff_ffff_ffff_fffb),
    (AluOp::Remu, 0xffff_ffff_ffff_fff9, 10, 9),
    (AluOp::Remu, 5, 0, 5),
    (AluOp::Addw, 0x7fff_ffff, 1, 0xffff_ffff_8000_0000),
    (
        AluOp::Addw,
        0x0123_4567_89ab_cdef,
        0xfedc_ba98_7654_3210,
        0xffff_ffff_ffff_ffff,
    ),
    (AluOp::Subw, 0, 1, 0xffff_ffff_ffff_ffff),
    (AluOp::Subw, 0x0001_0000_0000, 1, 0xffff_ffff_ffff_ffff),
    (AluOp::Sllw, 1, 31, 0xffff_ffff_8000_0000),
    (AluOp::Sllw, 3, 32, 3),
    (AluOp::Srlw, 0xffff_ffff_8000_0000, 31, 1),
    (AluOp::Srlw, 0x8000_0000, 0, 0xffff_ffff_8000_0000),
    (AluOp::Sraw, 0x8000_0000, 31, 0xffff_ffff_ffff_ffff),
    (AluOp::Sraw, 0xffff_ffff_7fff_ffff, 4, 0x07ff_ffff),
    (AluOp::Mulw, 0x0001_0000, 0x8000, 0xffff_ffff_8000_0000),
    (
        AluOp::Mulw,
        0x0123_4567_89ab_cdef,
        0xfedc_ba98_7654_3210,
        0xffff_ffff_e561_8cf0,
    ),
    (
        AluOp::Divw,
        0x8000_0000,
        0xffff_ffff_ffff_ffff,
        0xffff_ffff_8000_0000,
    ),
    (AluOp::Divw, 0xffff_ffff_ffff_fff9, 2, 0xffff_ffff_ffff_fffd),
    (AluOp::Divw, 5, 0x0001_0000_0000, 0xffff_ffff_ffff_ffff),
    (AluOp::Divuw, 0xffff_fffe, 1, 0xffff_ffff_ffff_fffe),
    (AluOp::Divuw, 5, 0, 0xffff_ffff_ffff_ffff),
    (AluOp::Remw, 0x8000_0000, 0xffff_ffff_ffff_ffff, 0),
    (AluOp::Remw, 0xffff_ffff_ffff_fff9, 2, 0xffff_ffff_ffff_ffff),
    (AluOp::Remw, 0x8000_0005, 0, 0xffff_ffff_8000_0005),
    (AluOp::Remuw, 0xffff_ffff, 16, 15),
    (AluOp::Remuw, 0x8000_0005, 0, 0xffff_ffff_8000_0005),
];

#[test]
fn operations_at_their_edges(rt: HostRuntime) {
    for &(op, a, b, value) in &OPERATIONS {
        assert_eq!(rt; alu(op, a, b), value, "{op:?} {a:x} {b:x}");
    }
}

// The least number with a sign.
const LEAST: u64 = 1 << 63;

// A condition, its two operands and whether it is so.
const COMPARISONS: [(Cond, u64, u64, bool); 15] = [
    (Cond::Beq, 7, 7, true),
    (Cond::Beq, 7, LEAST, false),
    (Cond::Bne, 7, LEAST, true),
    (Cond::Bne, LEAST, LEAST, false),
    (Cond::Blt, LEAST, 0, true),
    (Cond::Blt, 0, LEAST, false),
    (Cond::Blt, 3, 3, false),
    (Cond::Bge, 0, LEAST, true),
    (Cond::Bge, LEAST, 0, false),
    (Cond::Bge, 3, 3, true),
    (Cond::Bltu, 0, LEAST, true),
    (Cond::Bltu, LEAST, 0, false),
    (Cond::Bgeu, LEAST, 0, true),
    (Cond::Bgeu, 0, LEAST, false),
    (Cond::Bgeu, LEAST, LEAST, true),
];

#[test]
fn comparisons_at_their_edges(rt: HostRuntime) {
    for &(cond, a, b, answer) in &COMPARISONS {
        assert_eq!(rt; taken(cond, a, b), answer, "{cond:?} {a:x} {b:x}");
    }
}
