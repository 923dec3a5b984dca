//! Tests of plain types, digests, sources, sinks and printed lines. There is nothing here but tests.
#![tactic(auto)]

#[cfg(test)]
mod base_tests;
#[cfg(test)]
mod digest_tests;
#[cfg(test)]
mod history_tests;
#[cfg(test)]
mod io_tests;
