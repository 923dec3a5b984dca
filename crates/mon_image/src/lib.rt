//! Enclave images, and their measurement.
#![tactic(auto)]

mod image;
mod measurement;
mod page;

pub use image::{Image, ImagePages};
pub use page::{ImagePage, PageBytes};
