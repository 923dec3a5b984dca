//! A setup from its text: the first rule that fails, or the setup; and the setup of the generated load from its number.
#![tactic(auto)]

mod fault;
mod generating;
mod images;
mod keys;
mod numbers;
mod protection;
mod reading;
mod references;
mod scripts;
mod sentences;
mod toml_data;

pub use fault::SetupFault;
pub use generating::generate;
pub use reading::{MOST_TEXT, read_setup};
pub use sentences::{RuleText, rule_text};
