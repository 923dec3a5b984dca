// The lines of scripts.
use pl_base::{EncNo, Listed, Perms, Va};

/// A line of a hart's script. A page is named by its number from the start of off-chip memory.
#[derive(Debug, Drop)]
pub enum Line {
    /// Reads the eight bytes at an address of the host.
    Load {
        va: Va,
    },
    /// Writes eight bytes there.
    Store {
        va: Va,
        word: u64,
    },
    /// Maps a page at an address of the host.
    Map {
        va: Va,
        page: u32,
        perms: Perms,
    },
    /// Takes the mapping of an address away.
    Unmap {
        va: Va,
    },
    /// Makes an enclave number of an image, from these pages.
    Create {
        e: EncNo,
        image: u8,
        pages: Listed<u32>,
    },
    /// Makes a number of an image that is never run itself, for forks to share.
    Shadow {
        e: EncNo,
        image: u8,
        pages: Listed<u32>,
    },
    /// Makes an enclave that shares the pages of a shadow, with these spare pages.
    Fork {
        s: EncNo,
        e: EncNo,
        pages: Listed<u32>,
    },
    /// Gives an enclave one more spare page.
    Grant {
        e: EncNo,
        page: u32,
    },
    /// Runs a fresh enclave for at most so many instructions, at least 1.
    Run {
        e: EncNo,
        budget: u32,
    },
    /// Runs a paused enclave on, for at most so many instructions, at least 1.
    Resume {
        e: EncNo,
        budget: u32,
    },
    /// Sends a word to an enclave.
    Send {
        e: EncNo,
        word: u64,
    },
    /// Takes the next word that an enclave sent out.
    Take {
        e: EncNo,
    },
    /// Gives an enclave's pages back to the host.
    Destroy {
        e: EncNo,
    },
    /// Gives a shadow's pages back.
    Drop {
        s: EncNo,
    },
    /// Waits until an actor has answered so many lines. The attacker is the actor after the last hart.
    After {
        actor: u8,
        count: u32,
    },
}

/// A line of the attacker's script. Addresses are physical, in bytes.
#[derive(Debug, Drop)]
pub enum AttackLine {
    /// Writes 1 to 4,096 bytes.
    Write { pa: u64, bytes: Listed<u8> },
    /// Keeps 1 to 4,096 bytes under a name of 1 to 16 characters `a-z` and `0-9`.
    Keep { name: Listed<u8>, pa: u64, len: u32 },
    /// Writes the bytes back that the latest earlier line kept under this name.
    Back { name: Listed<u8> },
    /// Waits until an actor has answered so many lines.
    After { actor: u8, count: u32 },
}
