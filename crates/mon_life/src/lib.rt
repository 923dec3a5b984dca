//! The monitor's steps that make enclaves and shadows, enter enclaves, and give them back.
#![tactic(auto)]

mod destroying;
mod laws;
mod making;
mod pages;
mod putting;
mod running;

pub use destroying::{MOST_HELD, destroy_begin, destroy_end, held_by, zero_all};
pub use laws::{
    creates_are_refused, destroys_begin, numbers_are_given_back, steps_put_pages, steps_put_tables,
};
pub use making::{create_begin, first_twice, page_refusal, taker};
pub use putting::create_step;
pub use running::run_begin;
