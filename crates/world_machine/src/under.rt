// How far a hart's line is.
use rv_hart::{Micro, Walk};

/// How far the first line of a hart's script that isn't answered is.
#[derive(Clone, Copy, PartialEq, Eq, Debug)]
pub enum Under {
    /// It hasn't begun.
    Idle,
    /// The host loads or stores: how far the walk of its address is. No answer came yet.
    Seeking { walk: Walk },
    /// A mapping to this page is taken away: it ends once every other hart has acknowledged that.
    Removing { page: u32 },
    /// A number is given back: that ends once every other hart has acknowledged the fence of its space.
    Destroying,
    /// A number is being made: the steps that are done, a page each.
    Putting { done: u32 },
    /// An enclave runs: where its next instruction is, and how many retired since the line began.
    Running { micro: Micro, count: u32 },
    /// An enclave broke the page of its image with this index: its instruction, which stores there, starts anew once every other hart has
    /// acknowledged the fence of that page. So many instructions retired since the line began.
    Breaking { count: u32, index: u32 },
}
