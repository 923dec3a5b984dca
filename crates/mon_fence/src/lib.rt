//! Fences: which harts still have to acknowledge that a mapping is taken away.
#![tactic(auto)]

mod fences;
mod laws;

pub use fences::{Fence, Fences};
pub use laws::fences_need_others;
