//! The page tables of the host and of the enclave numbers: where they stand, their words, and the address spaces that they stand for.
#![tactic(auto)]

mod host_tables;
mod laws;
mod number_tables;
mod words;

pub use host_tables::{host_slot, root_of, start_words};
pub use laws::{host_tables_walk, number_tables_walk};
pub use number_tables::{Leaf, number_slot, table_number, table_page, vpn_of_page};
pub use words::leaf_word;
