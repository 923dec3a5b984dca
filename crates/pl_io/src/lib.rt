//! What the program reads from and writes to: sources and sinks that count their faults, numbers as texts, and texts of several pieces.
#![tactic(auto)]

mod edge;
mod memory;
mod numbers;
mod outside;
mod pieces;
mod reading;
mod writing;

pub use edge::{StdSink, StdSource};
pub use memory::{MemSink, MemSource};
pub use numbers::{read_dec, read_hex};
pub use outside::{Sink, Source};
pub use pieces::{Piece, put_pieces};
pub use pl_base::{Failed, Memory};
pub use reading::{ReadAll, read_all};
pub use writing::{put_bytes, put_dec, put_hex, put_short};
