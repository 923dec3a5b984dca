//! A path through the tree of a zone: its check, the path after a write, and the nodes over a page.
#![tactic(auto)]

mod laws;
mod new_path;
mod nodes;
mod part;
mod sealed;
mod taken;

pub use laws::{checks_tell, own_bytes_matter, paths_hold, trees_change};
pub use new_path::NewPath;
pub use nodes::{digest_pieces, page_nodes};
pub use sealed::{Sealed, Verdict};
pub use taken::Taken;
