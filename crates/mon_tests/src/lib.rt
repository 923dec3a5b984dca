//! Tests of images, page tables, owners, fences, records and the monitor's steps. There is nothing here but tests.
#![tactic(auto)]

#[cfg(test)]
mod break_tests;
#[cfg(test)]
mod enclave_tests;
#[cfg(test)]
mod entries;
#[cfg(test)]
mod fence_tests;
#[cfg(test)]
mod host_tests;
#[cfg(test)]
mod image_tests;
#[cfg(test)]
mod images;
#[cfg(test)]
mod life_tests;
#[cfg(test)]
mod owner_tests;
#[cfg(test)]
mod owners;
#[cfg(test)]
mod shadow_tests;
#[cfg(test)]
mod tables_tests;
#[cfg(test)]
mod zone;
