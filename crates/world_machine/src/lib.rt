//! The world as a pure machine: plain data, the event that each actor makes next, and what every world that is reached keeps.
#![tactic(auto)]

mod laws;
mod number_laws;
mod numbers;
mod turned;
mod under;

pub use laws::{
    accesses_reach_own_pages, faults_need_an_attack, harts_wait_for_fences, moves_lessen,
    reached_worlds_stand, removed_mappings_stay_unused, roots_walk_to_spaces,
};
pub use number_laws::{dying_numbers_have_fences, numbers_are_their_images};
pub use numbers::numbers_fit;
pub use turned::{Finished, Turned, Wait};
pub use under::Under;
