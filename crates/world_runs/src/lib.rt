//! The accesses of a run, and what its instructions do, over the calls of the machine; how a run begins stands with the machine.
#![tactic(auto)]

mod acting;
mod breaking;
mod reaching;
mod running;
mod walking;

pub use walking::advance_run;
