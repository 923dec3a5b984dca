// Words of page tables, from their bits (RISC-V Privileged Architecture, Sv39).

pub(crate) const V: u64 = 1;

pub(crate) const R: u64 = 1 << 1;

pub(crate) const W: u64 = 1 << 2;

pub(crate) const U: u64 = 1 << 4;

pub(crate) const A: u64 = 1 << 6;

pub(crate) const D: u64 = 1 << 7;

/// A table word with a page number and these bits.
pub(crate) fn word(ppn: u64, bits: u64) -> u64 {
    (ppn << 10) | bits
}
