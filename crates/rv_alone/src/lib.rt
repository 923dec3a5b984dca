//! One instruction of an enclave, and the enclave image run alone on a flat machine.
#![tactic(auto)]

mod laws;
mod step;
mod words;

pub use laws::run_laws;
pub use step::{Act, Context, loaded, next, passed};
pub use words::MOST_WORDS;
