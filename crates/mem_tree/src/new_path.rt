// What a write leaves of a path.

/// A block after a write, the four nodes over it, and the root of the zone.
#[derive(Clone, Copy, PartialEq, Eq, Debug)]
pub struct NewPath {
    pub block: [u8; 64],
    pub level1: [u8; 256],
    pub level2: [u8; 256],
    pub level3: [u8; 256],
    pub level4: [u8; 256],
    pub root: [u8; 32],
}
