//! The record of each enclave number, and the calls that change a record. The layers above change records by these calls alone.
#![tactic(auto)]

mod bounded;
mod enclave;
mod enclaves;
mod forks;

pub use bounded::Bounded;
pub use enclave::{Enclave, PageKind};
pub use enclaves::Enclaves;
