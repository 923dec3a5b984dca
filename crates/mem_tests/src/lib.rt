//! Tests of off-chip memory: its places, its trees, its slots, and the controller over them. There is nothing here but tests.
#![tactic(auto)]

#[cfg(test)]
mod bench;
#[cfg(test)]
mod ctl_tests;
#[cfg(test)]
mod geom_tests;
#[cfg(test)]
mod nodes;
#[cfg(test)]
mod roots_tests;
#[cfg(test)]
mod slots_tests;
#[cfg(test)]
mod threads;
#[cfg(test)]
mod tree_tests;
