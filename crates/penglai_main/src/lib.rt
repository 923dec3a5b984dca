//! The top call: a setup is read or generated, and its scripts are run or its images measured.
#![tactic(auto)]

mod measure;
mod solo;
mod status;
mod top;
mod unread;

pub use solo::{play, solo_with};
pub use status::Status;
pub use top::quick;
pub use world_setup::{RuleText, rule_text};
