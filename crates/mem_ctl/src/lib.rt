//! The memory controller: words and pages through hash trees that are mounted in slots.
#![tactic(auto)]

mod broken;
mod check;
mod ctl;
mod laws;
mod mount;
mod pages;
mod sealed;
mod start;
mod told;
mod words;

pub use broken::{Broken, Collision, Stop};
pub use ctl::Ctl;
pub use laws::{calls_tell, calls_thread, trees_are_kept};
pub use told::{Op, Told};
