// What each actor does next.
ghost use Rattle.std.specs.Prelude.{◌≡◌, ◌≢◌, ◌<◌, ℕ, IsTrue, List, length};
ghost use Rattle.std.specs.Fn.{FnReturnsAt};
ghost use Rattle.mem_slots.specs.Choices.{NamesPosition};
ghost use Rattle.pl_history.specs.Rules.{is_actor};
ghost use Rattle.world_events.specs.Conditions.{CanAnswer};
ghost use Rattle.world_core.specs.Turns.{CanActor, CanAttackBy, CanAttackTurn, CanTurn, attack_turn};
ghost use Rattle.world_events.specs.Turns.{IsTurn};
ghost use Rattle.world_machine.specs.Attacking.{attacker_waited};
ghost use Rattle.world_machine.specs.Steps.{StepOf, actor_turn, attacker_turn, hart_turn, turn_of, turned_by, waits};
ghost use Rattle.world_machine.specs.Worlds.{attacker_line, hart_line};

use crate::steps::make;
use mem_slots::SlotUse;
use pl_base::{Actor, HartNo};
use pl_digest::Digester;
use world_events::{Attack, Machine};
use world_machine::{Turned, Wait};

// A hart's turn, where no collision is kept.
fn hart_turn<D: Digester, F: Fn(&[SlotUse]) -> usize>(
    machine: &mut Machine<D, F>,
    hart: HartNo,
) -> Turned
    requires can { CanTurn machine.old.0 hart.0 }
    requires choice { NamesPosition F.Fn machine.old.1 }
    ensures turn { IsTurn (FnReturnsAt F.Fn machine.old.1) (λ positions. hart_turn D.digest_of machine.old.0 hart.0 positions (hart_line machine.old.0 hart.0)) result machine.old.0 machine.new.0 }
    ensures choice { machine.new.1 ≡ machine.old.1 }
{
    let due = machine.due(hart);
    let under = machine.under_way(hart);
    make(machine, hart, due, under)
}

// The attacker's `after`.
fn attacker_wait<D: Digester, F: Fn(&[SlotUse]) -> usize>(
    machine: &mut Machine<D, F>,
    actor: u8,
    count: u32,
) -> Turned
    requires can { CanAnswer machine.old.0 machine.old.0.setup.harts }
    requires actors { actor < length machine.old.0.answered }
    ensures turn { IsTurn (FnReturnsAt F.Fn machine.old.1) (λ positions. waits machine.old.0 actor count (attacker_waited machine.old.0)) result machine.old.0 machine.new.0 }
    ensures choice { machine.new.1 ≡ machine.old.1 }
{
    if count > machine.answered_by(actor) {
        return Turned::Blocked(Wait::After { actor, count });
    }
    machine.attacker_waited();
    Turned::Moved
}

// A line of the attacker.
fn attack_by<D: Digester, F: Fn(&[SlotUse]) -> usize>(
    machine: &mut Machine<D, F>,
    line: Attack,
) -> Turned
    requires can { CanAttackBy machine.old.0 line }
    ensures turn { IsTurn (FnReturnsAt F.Fn machine.old.1) (λ positions. attack_turn machine.old.0 line) result machine.old.0 machine.new.0 }
    ensures choice { machine.new.1 ≡ machine.old.1 }
{
    match line {
        Attack::Nothing => Turned::Done,
        Attack::Line => {
            machine.attack();
            Turned::Moved
        }
        Attack::After { actor, count } => attacker_wait(machine, actor, count),
    }
}

// The attacker's turn, where no collision is kept.
fn attacker_turn<D: Digester, F: Fn(&[SlotUse]) -> usize>(machine: &mut Machine<D, F>) -> Turned
    requires can { CanAttackTurn machine.old.0 }
    ensures turn { IsTurn (FnReturnsAt F.Fn machine.old.1) (λ positions. attacker_turn D.digest_of machine.old.0 (attacker_line machine.old.0)) result machine.old.0 machine.new.0 }
    ensures choice { machine.new.1 ≡ machine.old.1 }
{
    let line = machine.attack_due();
    attack_by(machine, line)
}

// An actor's turn, where no collision is kept.
fn actor_turn<D: Digester, F: Fn(&[SlotUse]) -> usize>(
    machine: &mut Machine<D, F>,
    actor: Actor,
) -> Turned
    requires can { CanActor machine.old.0 actor }
    requires choice { NamesPosition F.Fn machine.old.1 }
    ensures turn { IsTurn (FnReturnsAt F.Fn machine.old.1) (actor_turn D.digest_of machine.old.0 actor) result machine.old.0 machine.new.0 }
    ensures choice { machine.new.1 ≡ machine.old.1 }
{
    match actor {
        Actor::Hart(hart) => hart_turn(machine, hart),
        Actor::Ack(hart) => machine.ack_turn(hart),
        Actor::Attacker => attacker_turn(machine),
    }
}

// An actor's turn. Once a collision is kept, nobody moves.
#[tactic(auto, unfolding(world_machine::specs::Steps::turn_of))]
fn uncounted<D: Digester, F: Fn(&[SlotUse]) -> usize>(
    machine: &mut Machine<D, F>,
    actor: Actor,
) -> Turned
    requires can { CanActor machine.old.0 actor }
    requires choice { NamesPosition F.Fn machine.old.1 }
    ensures turn { IsTurn (FnReturnsAt F.Fn machine.old.1) (turn_of D.digest_of machine.old.0 actor) result machine.old.0 machine.new.0 }
    ensures choice { machine.new.1 ≡ machine.old.1 }
{
    if machine.is_halted() {
        return Turned::Halted;
    }
    actor_turn(machine, actor)
}

/// An actor's turn, which is counted where it moves.
pub(crate) fn turn<D: Digester, F: Fn(&[SlotUse]) -> usize>(
    machine: &mut Machine<D, F>,
    actor: Actor,
) -> Turned
    requires can { CanActor machine.old.0 actor }
    requires actor { IsTrue (is_actor machine.old.0.setup.harts actor) }
    requires choice { NamesPosition F.Fn machine.old.1 }
    ensures step { StepOf D.digest_of (FnReturnsAt F.Fn machine.old.1) machine.old.0 actor machine.new.0 }
    ensures turned { (positions : List ℕ) → result ≡ turned_by (turn_of D.digest_of machine.old.0 actor positions) }
    ensures still { result ≢ Turned.Moved → machine.new ≡ machine.old }
    ensures choice { machine.new.1 ≡ machine.old.1 }
{
    let turned = uncounted(machine, actor);
    if let Turned::Moved = turned {
        machine.count_move();
    }
    turned
}
