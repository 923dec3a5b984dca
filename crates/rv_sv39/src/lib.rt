//! Sv39 address translation: canonical addresses, and one step of a page walk (RISC-V Privileged Architecture, Sv39).
#![tactic(auto)]

mod address;
mod law;
mod walk;
mod word;

pub use address::canonical;
pub use law::steps_give_walks;
pub use walk::{Walked, entry_address, walk_step};
pub use word::{A, D, U, V};
