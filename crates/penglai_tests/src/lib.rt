//! Tests of the top call and of whole runs, over sources and sinks in memory: what no row of `rows/` can show.
#![tactic(auto)]

#[cfg(test)]
mod attack_tests;
#[cfg(test)]
mod choice_tests;
#[cfg(test)]
mod collision_tests;
#[cfg(test)]
mod generate_tests;
#[cfg(test)]
mod runs;
#[cfg(test)]
mod setup_tests;
#[cfg(test)]
mod top_tests;
