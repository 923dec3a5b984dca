// The attacker's lines.
ghost use Rattle.std.specs.Prelude.{◌≡◌, ◌<◌, ◌≤◌, true, slice_get, length};
ghost use Rattle.world_attack.specs.Lines.{KeepsAnsweredFor, is_attack, line_bytes};
ghost use Rattle.world_events.specs.Conditions.{CanAnswer, CanAttack};
ghost use Rattle.world_machine.specs.Attacking.{attacker_goes_on, attacker_waited, attacks};

use crate::machine::Machine;
use pl_digest::Digester;
use pl_history::Answer;
use world_attack::attack_line;

impl<D: Digester, F> Machine<D, F> {
    /// The attacker's number among the actors.
    pub fn attacker(&self) -> u8
        ensures { result ≡ self.now.0.setup.harts }
    {
        self.setup.parts().harts
    }

    /// `write`, `keep` and `back`.
    pub fn attack(&mut self)
        requires can { CanAttack self.old.0 }
        ensures { self.new ≡ ((attacks self.old.0).world, self.old.1) }
    {
        let actor = self.attacker();
        let at = self.answered.as_slice()[usize::from(actor)];
        attack_line(&mut self.ctl, &mut self.history, &self.setup, at);
        self.count_line(actor);
    }

    /// `after`.
    pub fn attacker_waited(&mut self)
        requires can { CanAnswer self.old.0 self.old.0.setup.harts }
        ensures { self.new ≡ ((attacker_waited self.old.0).world, self.old.1) }
    {
        let actor = self.attacker();
        self.log(actor, Answer::Ok);
        self.count_line(actor);
    }
}
