// How often a mounted zone was used.

/// A mounted zone, below 64, and how often it was used since it was mounted. The count stays at its greatest value.
#[derive(Clone, Copy, PartialEq, Eq, Debug, Default)]
pub struct SlotUse {
    pub zone: u8,
    pub uses: u64,
}
