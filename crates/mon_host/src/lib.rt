//! The monitor's events of the host's mappings: `map` sets a leaf of the host's tables; `unmap` clears one, waits for all harts, and ends.
#![tactic(auto)]

mod laws;
mod leaves;
mod mapping;
mod unmapping;

pub use laws::{maps_tell, spaces_have_leaves, starts_in_empty_space, unmaps_tell};
pub use mapping::map;
pub use unmapping::{unmap_begin, unmap_end};
