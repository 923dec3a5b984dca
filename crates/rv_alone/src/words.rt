// The words that go to and from an enclave.

/// How many words may be sent to an enclave, and sent out by it.
pub const MOST_WORDS: usize = 4096;
