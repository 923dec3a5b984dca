//! Digests of bytes, and the hash trees over them.
#![tactic(auto)]

mod digester;
mod node;

pub use digester::{Digester, OneByte, Sha};
pub use node::{DIGEST_BYTES, entry, has_digest_of, set_entry, with_digest_of};
