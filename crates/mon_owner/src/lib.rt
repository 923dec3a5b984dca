//! The owner of each page.
#![tactic(auto)]

mod owners;

pub use owners::{Owner, Owners};
