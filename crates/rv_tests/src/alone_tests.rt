// Single instructions, with values worked out by hand from the standard.
use rv_alone::{Act, Context, loaded, next, passed};

const PC: u64 = 0x1_0000;

const BASE: u64 = 0x2_0000;

const NEGATIVE: u64 = 0xffff_ffff_8000_0000;

fn start() -> Context {
    let mut regs = [0; 32];
    regs[1] = BASE;
    regs[4] = NEGATIVE;
    regs[10] = 7;
    regs[17] = 9;
    Context { regs, pc: PC }
}

// A word, and the program counter and a register after it.
const RETIRED: [(u32, u64, usize, u64); 15] = [
    (0x0050_8013, PC + 4, 0, 0), // addi x0, x1, 5
    (0xfff0_8193, PC + 4, 3, 0x1_ffff), // addi x3, x1, -1
    (0x4042_519b, PC + 4, 3, 0xffff_ffff_f800_0000), // sraiw x3, x4, 4
    (0x8000_01b7, PC + 4, 3, NEGATIVE), // lui x3, 524288
    (0x8000_0197, PC + 4, 3, 0xffff_ffff_8001_0000), // auipc x3, 524288
    (0x0000_11ef, 0x1_1000, 3, PC + 4), // jal x3, 4096
    (0x0010_81e7, BASE, 3, PC + 4), // jalr x3, 1(x1)
    (0x0000_80e7, BASE, 1, PC + 4), // jalr x1, 0(x1)
    (0xfe00_0ee3, PC - 4, 0, 0), // beq x0, x0, -4
    (0x0000_1163, PC + 4, 0, 0), // bne x0, x0, 2
    (0x0002_4463, PC + 8, 0, 0), // blt x4, x0, 8
    (0x0002_6463, PC + 4, 0, 0), // bltu x4, x0, 8
    (0x0242_31b3, PC + 4, 3, 0xffff_ffff_0000_0000), // mulhu x3, x4, x4
    (0x0202_41b3, PC + 4, 3, u64::MAX), // div x3, x4, x0
    (0x0ff0_000f, PC + 4, 0, 0), // fence iorw, iorw
];

#[test]
fn instructions_that_retire(rt: HostRuntime) {
    let start = start();
    for &(word, pc, rd, value) in &RETIRED {
        let mut after = start;
        after.pc = pc;
        assert!(rt; rd < 32);
        after.regs[rd] = value;
        assert_eq!(rt; next(&start, word), Act::Set(after), "{word:x}");
    }
}

// A word, and the address, width, sign and register of its load.
const LOADS: [(u32, u64, u8, bool, u8); 2] = [
    (0x0040_a183, BASE + 4, 4, true, 3), // lw x3, 4(x1)
    (0x0070_c003, BASE + 7, 1, false, 0), // lbu x0, 7(x1)
];

#[test]
fn loads(rt: HostRuntime) {
    for &(word, address, width, signed, rd) in &LOADS {
        let act = Act::Load {
            address,
            width,
            signed,
            rd,
        };
        assert_eq!(rt; next(&start(), word), act, "{word:x}");
    }
}

// A word, and the address, width and value of its store.
const STORES: [(u32, u64, u8, u64); 2] = [
    (0x0040_b423, BASE + 8, 8, NEGATIVE), // sd x4, 8(x1)
    (0xfe40_8fa3, BASE - 1, 1, NEGATIVE), // sb x4, -1(x1)
];

#[test]
fn stores_and_calls(rt: HostRuntime) {
    for &(word, address, width, value) in &STORES {
        let act = Act::Store {
            address,
            width,
            value,
        };
        assert_eq!(rt; next(&start(), word), act, "{word:x}");
    }
    let call = Act::Call {
        number: 9,
        value: 7,
    };
    assert_eq!(rt; next(&start(), 0x0000_0073), call); // ecall
}

// A word, the cause of its trap, and the value that goes with it.
const TRAPS: [(u32, u8, u64); 12] = [
    (0x0000_0000, 2, 0), // All zeros
    (0xffff_ffff, 2, 0xffff_ffff), // All ones
    (0x0010_0073, 3, PC), // ebreak
    (0x0020_01ef, 0, PC + 2), // jal x3, 2
    (0x0020_81e7, 0, BASE + 2), // jalr x3, 2(x1)
    (0x0000_0163, 0, PC + 2), // beq x0, x0, 2
    (0x0010_9183, 4, BASE + 1), // lh x3, 1(x1)
    (0x0020_a183, 4, BASE + 2), // lw x3, 2(x1)
    (0x0040_b183, 4, BASE + 4), // ld x3, 4(x1)
    (0x0040_90a3, 6, BASE + 1), // sh x4, 1(x1)
    (0x0040_a0a3, 6, BASE + 1), // sw x4, 1(x1)
    (0x0040_b223, 6, BASE + 4), // sd x4, 4(x1)
];

#[test]
fn traps(rt: HostRuntime) {
    let start = start();
    for &(word, cause, value) in &TRAPS {
        assert_eq!(rt; next(&start, word), Act::Trap { cause, value }, "{word:x}");
    }
}

// The eight bytes that are loaded.
const RAW: u64 = 0x8182_8384_8586_8788;

// A width, whether it is signed, and the register after the load.
const LOADED: [(u8, bool, u64); 7] = [
    (1, true, 0xffff_ffff_ffff_ff88),
    (1, false, 0x88),
    (2, true, 0xffff_ffff_ffff_8788),
    (2, false, 0x8788),
    (4, true, 0xffff_ffff_8586_8788),
    (4, false, 0x8586_8788),
    (8, true, RAW),
];

#[test]
fn loaded_values(rt: HostRuntime) {
    let start = start();
    for &(width, signed, value) in &LOADED {
        assert!(rt; matches!(width, 1 | 2 | 4 | 8));
        let mut after = start;
        after.regs[3] = value;
        after.pc = PC + 4;
        assert_eq!(rt; loaded(&start, 3, width, signed, RAW), after, "{width}");
    }
    assert_eq!(rt; loaded(&start, 0, 1, true, RAW), passed(&start));
}
