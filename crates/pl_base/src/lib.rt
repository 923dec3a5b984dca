//! Plain types that every layer shares: addresses, numbers, permissions, places, states and refusals.
#![tactic(auto)]

mod access;
mod actor;
mod address;
mod fault;
mod listed;
mod number;
mod page;
mod perms;
mod place;
mod refusal;
mod span;
mod state;

pub use access::{Kind, Mode};
pub use actor::Actor;
pub use address::{Pa, Ppn, Va, Vpn};
pub use fault::{Failed, Memory};
pub use listed::Listed;
pub use number::{EncNo, HartNo, HartSet, Space};
pub use page::{IMAGE_START, MOST_IMAGE_PAGES, MOST_SPARES, PAGE_BYTES};
pub use perms::Perms;
pub use place::Place;
pub use refusal::No;
pub use span::Span;
pub use state::{State, Why};
