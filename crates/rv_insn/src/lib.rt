//! The instructions of RV64I with the M extension: their words decoded and encoded (RISC-V Unprivileged ISA).
#![tactic(auto)]

mod decoding;
mod encoding;
mod fields;
mod insn;
mod word;

pub use decoding::decode;
pub use encoding::encode;
pub use insn::{AluOp, Cond, Insn};
