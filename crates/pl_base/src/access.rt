// What an access is for, and in which mode it is made.

/// What an access does (RISC-V Privileged Architecture, Sv39 and PMP).
#[derive(Clone, Copy, PartialEq, Eq, Debug)]
pub enum Kind {
    Fetch,
    Load,
    Store,
}

/// The privilege that an access is made with: the host's is `Super`, an enclave's `User`.
#[derive(Clone, Copy, PartialEq, Eq, Debug)]
pub enum Mode {
    Super,
    User,
}
