//! Tests of instructions, translation and protection. There is nothing here but tests.
#![tactic(auto)]

#[cfg(test)]
mod alone_tests;
#[cfg(test)]
mod alu_tests;
#[cfg(test)]
mod hart_tests;
#[cfg(test)]
mod insn_tests;
#[cfg(test)]
mod pmp_tests;
#[cfg(test)]
mod sv39_tests;
#[cfg(test)]
mod table_words;
#[cfg(test)]
mod tlb_tests;
