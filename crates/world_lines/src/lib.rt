//! A line of a script, an order's word and a protection entry, from their words.
#![tactic(auto)]

mod arguments;
mod entries;
mod forms;
mod order;
mod page_lists;
mod words;

pub use arguments::{bytes_of_hex, is_hex_text, perms_of_text, within};
pub use entries::entry_of;
pub use forms::{attack_line_of, line_of};
pub use order::order_of;
