// What a turn comes to, and how a run ends.
use pl_base::HartSet;

/// What an actor waits for.
#[derive(Clone, Copy, PartialEq, Eq, Debug)]
pub enum Wait {
    /// These harts have yet to acknowledge the hart's own fence.
    Acks(HartSet),
    /// This actor has answered fewer than so many lines.
    After { actor: u8, count: u32 },
}

/// What a turn of an actor comes to.
#[derive(Clone, Copy, PartialEq, Eq, Debug)]
pub enum Turned {
    /// Its next event is made.
    Moved,
    /// It has to wait.
    Blocked(Wait),
    /// No fence needs the hart.
    Nothing,
    /// All its lines are answered.
    Done,
    /// A collision was kept before.
    Halted,
}

/// How a run ends.
#[derive(Clone, Copy, PartialEq, Eq, Debug)]
pub enum Finished {
    /// All lines are answered.
    Done,
    /// A collision is kept.
    Collision,
    /// Each actor with lines left waits for another.
    Stuck,
}
