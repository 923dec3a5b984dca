// Places of off-chip memory.

/// A place of off-chip memory that a tree guards.
#[derive(Clone, Copy, PartialEq, Eq, Debug)]
pub enum Place {
    /// A block of 64 bytes: its page, and its number in the page, from 0 to 63.
    Block { page: u32, block: u8 },
    /// A node of a zone's tree: its level, 1 to 4, its zone, and its number among the level's nodes.
    Node { level: u8, zone: u8, index: u16 },
    /// A node of the root table: level 1 with a number from 0 to 7, or level 2 with number 0.
    RootNode { level: u8, index: u8 },
}
