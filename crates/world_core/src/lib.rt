//! The world: the machine that every actor's turns move, from the world that its run begins with until it is over.
#![tactic(auto)]

mod over;
mod report;
mod rounds;
mod steps;
mod turns;
mod world;

pub use world::World;
pub use world_machine::{Finished, Turned, Wait};
