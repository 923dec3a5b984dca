//! The values of the operations of RV64I with the M extension, and the comparisons of its branches (RISC-V Unprivileged ISA).
#![tactic(auto)]

mod branching;
mod division;
mod narrow;
mod values;

pub use branching::taken;
pub use division::division_law;
pub use values::alu;
