//! The machine's parts, and each event of an actor but the accesses of a run as a call that moves them, as plain data moves.
#![tactic(auto)]

mod acknowledging;
mod attacking;
mod breaking;
mod dues;
mod giving_back;
mod host_accessing;
mod host_mapping;
mod machine;
mod making;
mod opening;
mod running;
mod talking;
mod tlbs;
mod translating;

pub use dues::{Attack, Due};
pub use host_accessing::WordAccess;
pub use machine::Machine;
pub use running::Run;
pub use translating::{Request, offset_at, page_at};
