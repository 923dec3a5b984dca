//! Physical memory protection: which accesses sixteen rules let through (RISC-V Privileged Architecture, PMP).
#![tactic(auto)]

mod decision;
mod law;
mod pmp;
mod rule;

pub use law::registers_name_ranges;
pub use pmp::Pmp;
pub use rule::Rule;
