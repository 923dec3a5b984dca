//! Where each place of off-chip memory stands, and the off-chip bytes themselves.
#![tactic(auto)]

mod dram;
mod laws;
mod layout;

pub use dram::Dram;
pub use laws::{
    bytes_have_one_place, nodes_follow_one_another, parts_are_places, ranges_are_apart,
    writes_change_one_place, writes_change_range,
};
pub use layout::{MEMORY_START, memory_end, page_start, place_range};
