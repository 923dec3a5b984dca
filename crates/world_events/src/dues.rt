// The lines of harts without the pages that they name, and those of the attacker without their bytes.
ghost use Rattle.std.specs.Prelude.{◌≡◌, ◌<◌, length, slice_get};
ghost use Rattle.std.specs.Option.{option_copied};
ghost use Rattle.pl_history.specs.Monitor.{script_of};
ghost use Rattle.world_events.specs.Dues.{attack_of, due_of};
ghost use Rattle.world_machine.specs.Worlds.{attacker_line, hart_line};

use crate::machine::Machine;
use pl_base::{EncNo, HartNo, Perms, Va};
use pl_digest::Digester;
use pl_history::{AttackLine, Line, SetupParts};

/// A hart's line without the pages that it names.
#[derive(Clone, Copy)]
pub enum Due {
    /// No line.
    Nothing,
    /// `load`.
    Load { va: Va },
    /// `store`.
    Store { va: Va, word: u64 },
    /// `map`.
    Map { va: Va, page: u32, perms: Perms },
    /// `unmap`.
    Unmap { va: Va },
    /// `create`, or where it is a shadow, `shadow`.
    Create { e: EncNo, image: u8, shadow: bool },
    /// `fork`, of shadow `s`.
    Fork { s: EncNo, e: EncNo },
    /// `grant`.
    Grant { e: EncNo, page: u32 },
    /// `run`, where it is the first run, and else `resume`.
    Run { e: EncNo, budget: u32, first: bool },
    /// `send`.
    Send { e: EncNo, word: u64 },
    /// `take`.
    Take { e: EncNo },
    /// `destroy`.
    Destroy { e: EncNo },
    /// `drop`, of shadow `s`.
    Drop { s: EncNo },
    /// `after`: it waits for so many answered lines of an actor.
    After { actor: u8, count: u32 },
}

// A line without the pages that it names.
fn due_of(line: Option<&Line>) -> Due
    ensures { result ≡ due_of (option_copied line.entry) }
{
    match line {
        Some(Line::Load { va }) => Due::Load { va: *va },
        Some(Line::Store { va, word }) => Due::Store {
            va: *va,
            word: *word,
        },
        Some(Line::Map { va, page, perms }) => Due::Map {
            va: *va,
            page: *page,
            perms: *perms,
        },
        Some(Line::Unmap { va }) => Due::Unmap { va: *va },
        Some(Line::Create { e, image, .. }) => Due::Create {
            e: *e,
            image: *image,
            shadow: false,
        },
        Some(Line::Shadow { e, image, .. }) => Due::Create {
            e: *e,
            image: *image,
            shadow: true,
        },
        Some(Line::Fork { s, e, .. }) => Due::Fork { s: *s, e: *e },
        Some(Line::Grant { e, page }) => Due::Grant { e: *e, page: *page },
        Some(Line::Run { e, budget }) => Due::Run {
            e: *e,
            budget: *budget,
            first: true,
        },
        Some(Line::Resume { e, budget }) => Due::Run {
            e: *e,
            budget: *budget,
            first: false,
        },
        Some(Line::Send { e, word }) => Due::Send { e: *e, word: *word },
        Some(Line::Take { e }) => Due::Take { e: *e },
        Some(Line::Destroy { e }) => Due::Destroy { e: *e },
        Some(Line::Drop { s }) => Due::Drop { s: *s },
        Some(Line::After { actor, count }) => Due::After {
            actor: *actor,
            count: *count,
        },
        _ => Due::Nothing,
    }
}

// A hart's line at a position, without the pages that it names.
fn line_due(setup: &SetupParts, hart: HartNo, at: u32) -> Due
    requires { hart.0 < length setup.now.lines }
    ensures { result ≡ due_of (slice_get (script_of setup.now hart.0) at) }
{
    due_of(setup.lines.as_slice()[usize::from(hart.0)].get(at as usize))
}

impl<D: Digester, F> Machine<D, F> {
    /// A hart's first line that isn't answered, without the pages that it names.
    pub fn due(&self, hart: HartNo) -> Due
        requires actors { hart.0 < length self.now.0.answered }
        requires scripts { hart.0 < length self.now.0.setup.lines }
        ensures { result ≡ due_of (hart_line self.now.0 hart.0) }
    {
        line_due(self.setup.parts(), hart, self.answered_by(hart.0))
    }
}

/// What the attacker's line is, without its bytes.
#[derive(Clone, Copy)]
pub enum Attack {
    /// No line.
    Nothing,
    /// `write`, `keep` or `back`.
    Line,
    /// `after`: it waits for so many answered lines of an actor.
    After { actor: u8, count: u32 },
}

// A line of the attacker, without its bytes.
fn attack_of(line: Option<&AttackLine>) -> Attack
    ensures { result ≡ attack_of (option_copied line.entry) }
{
    match line {
        Some(AttackLine::After { actor, count }) => Attack::After {
            actor: *actor,
            count: *count,
        },
        Some(_) => Attack::Line,
        None => Attack::Nothing,
    }
}

// The attacker's line at a position, without its bytes.
fn attack_at(setup: &SetupParts, at: u32) -> Attack
    ensures { result ≡ attack_of (slice_get setup.now.attacker at) }
{
    attack_of(setup.attacker.as_slice().get(at as usize))
}

impl<D: Digester, F> Machine<D, F> {
    /// The attacker's first line that isn't answered, without its bytes.
    pub fn attack_due(&self) -> Attack
        requires { self.now.0.setup.harts < length self.now.0.answered }
        ensures { result ≡ attack_of (attacker_line self.now.0) }
    {
        attack_at(self.setup.parts(), self.answered_by(self.attacker()))
    }
}
