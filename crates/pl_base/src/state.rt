// The states of an enclave number, and why a run leaves.
ghost use Rattle.std.specs.Prelude.{◌≡◌};
ghost use Rattle.pl_base.specs.States.{is_absent, is_free, is_fresh, is_paused, is_sealed, is_under_way, is_wordless, state_left};

use crate::place::Place;

/// The state of an enclave number.
#[derive(Clone, Copy, PartialEq, Eq, Debug)]
pub enum State {
    Free,
    Building,
    Fresh,
    On,
    Paused,
    Ended,
    Trapped,
    Faulted,
    Dying,
    Sealed,
}

impl State {
    /// Whether nothing was made of the number.
    pub fn is_free(self) -> bool
        ensures { result ≡ is_free self }
    {
        matches!(self, State::Free)
    }

    /// Whether it was made and hasn't run: `run` needs that.
    pub fn is_fresh(self) -> bool
        ensures { result ≡ is_fresh self }
    {
        matches!(self, State::Fresh)
    }

    /// Whether a run left it and another may go on: `resume` needs that.
    pub fn is_paused(self) -> bool
        ensures { result ≡ is_paused self }
    {
        matches!(self, State::Paused)
    }

    /// Whether forks may share its pages.
    pub fn is_sealed(self) -> bool
        ensures { result ≡ is_sealed self }
    {
        matches!(self, State::Sealed)
    }

    /// Whether a line has the number under way: it is on, building or dying.
    pub fn is_under_way(self) -> bool
        ensures { result ≡ is_under_way self }
    {
        matches!(self, State::On | State::Building | State::Dying)
    }

    /// Whether there is no enclave to run: the number is free or sealed.
    pub fn is_absent(self) -> bool
        ensures { result ≡ is_absent self }
    {
        matches!(self, State::Free | State::Sealed)
    }

    /// Whether no word goes in or out: the number is free, sealed, building or dying.
    pub fn is_wordless(self) -> bool
        ensures { result ≡ is_wordless self }
    {
        matches!(
            self,
            State::Free | State::Sealed | State::Building | State::Dying
        )
    }
}

/// Why a run left its enclave.
#[derive(Clone, Copy, PartialEq, Eq, Debug)]
pub enum Why {
    /// It ended with this code.
    Ended(u64),
    /// As many instructions retired as the budget has.
    Budget,
    /// It wants a word, and has received all that were sent.
    Waiting,
    /// It would send the 4,097th word.
    OutFull,
    /// It stores to a shared page, and no spare is left.
    NeedPage,
    /// Its instruction trapped, with a cause and a value of the standard's table of exceptions.
    Trapped { cause: u8, value: u64 },
    /// This place wasn't as its parent has it.
    Fault(Place),
}

impl Why {
    /// The state in which a run leaves its enclave.
    pub fn state_left(self) -> State
        ensures { result ≡ state_left self }
    {
        match self {
            Why::Ended(_) => State::Ended,
            Why::Trapped { .. } => State::Trapped,
            Why::Fault(_) => State::Faulted,
            Why::Budget | Why::Waiting | Why::OutFull | Why::NeedPage => State::Paused,
        }
    }
}
