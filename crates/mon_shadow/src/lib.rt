//! The monitor's steps for shadows and their forks.
#![tactic(auto)]

mod break_laws;
mod breaking;
mod dropping;
mod forking;
mod granting;
mod laws;

pub use break_laws::breaks_tell;
pub use breaking::break_page;
pub use dropping::drop_shadow;
pub use forking::fork_begin;
pub use granting::grant;
pub use laws::{forks_are_refused, forks_share_pages, shadows_are_given_back};
