// The sizes that every layer shares.

/// The bytes of a page.
pub const PAGE_BYTES: u64 = 4096;

/// The virtual address of the first page of an enclave image: page `i` stands at `IMAGE_START + 4096·i`.
pub const IMAGE_START: u64 = 0x1_0000;

/// How many pages an image has at most.
pub const MOST_IMAGE_PAGES: usize = 256;

/// How many spares a number may be given since it was made.
pub const MOST_SPARES: usize = 256;
