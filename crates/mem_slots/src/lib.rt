//! The mounted zones with their uses and their roots, and the rule that names the one to evict.
#![tactic(auto)]

mod choice;
mod slot_use;
mod slots;

pub use choice::{Choice, fewest_uses, first_mounted};
pub use slot_use::SlotUse;
pub use slots::Slots;
