//! A zone's root in the root table: its check and its replacement.
#![tactic(auto)]

mod roots;

pub use roots::{check_root, replace_root};
