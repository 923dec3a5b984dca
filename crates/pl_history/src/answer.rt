// What a line is answered.
use pl_base::{No, Why};

/// The answer to a line.
#[derive(Clone, Copy, PartialEq, Eq, Debug)]
pub enum Answer {
    /// The line is under way.
    Begun,
    /// It is done.
    Ok,
    /// The eight bytes that a load read.
    Value(u64),
    /// The word that was taken.
    Word(u64),
    /// A run left its enclave: how many instructions retired since it began, and why.
    Left {
        count: u32,
        why: Why,
    },
    /// It is refused.
    No(No),
    /// The attacker wrote bytes at `pa`: whether one changed, and where they stand among the history's bytes.
    Wrote {
        changed: bool,
        pa: u64,
        from: u32,
        len: u32,
    },
    /// The attacker kept the bytes at `pa`, and where they stand among the history's bytes.
    Kept {
        pa: u64,
        from: u32,
        len: u32,
    },
}

/// An answer, with the actor that it was given to and the number of its line, from 0. The actor after the last hart is the attacker.
#[derive(Clone, Copy, PartialEq, Eq, Debug)]
pub struct Entry {
    pub actor: u8,
    pub line: u32,
    pub answer: Answer,
}
