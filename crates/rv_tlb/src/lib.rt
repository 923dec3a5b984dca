//! The translations that a hart keeps: sixteen entries, of which the oldest drops out first.
#![tactic(auto)]

mod tlb;

pub use tlb::{Tlb, TlbEntry};
