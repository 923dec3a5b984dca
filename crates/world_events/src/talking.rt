// Words into and out of enclaves: the events of `send` and `take`, and what RECV and SEND of an enclave move.
ghost use Rattle.std.specs.Prelude.{◌≡◌, ◌<◌, ◌+◌, [], ◌∷◌, ◌++◌, length, OnSome, IfNone};
ghost use Rattle.std.specs.Bool.{OnTrue, OnFalse};
ghost use Rattle.mon_enclave.specs.Records.{enclave_at, has_room, received_word};
ghost use Rattle.world_events.specs.Conditions.{CanGo, with_record};
ghost use Rattle.world_machine.specs.Talking.{sends_word, takes_word};

use crate::machine::Machine;
use pl_base::{EncNo, HartNo};
use pl_digest::Digester;
use pl_history::Answer;

impl<D: Digester, F> Machine<D, F> {
    /// `send e word`.
    pub fn send(&mut self, hart: HartNo, e: EncNo, word: u64)
        requires can { CanGo self.old.0 hart.0 }
        requires number { e.0 < length self.old.0.enclaves }
        ensures { self.new ≡ ((sends_word self.old.0 hart.0 e.0 word).world, self.old.1) }
    {
        match self.enclaves.send(e, word) {
            Ok(()) => self.answer(hart, Answer::Ok),
            Err(cause) => self.answer(hart, Answer::No(cause)),
        }
    }

    /// `take e`.
    pub fn take(&mut self, hart: HartNo, e: EncNo)
        requires can { CanGo self.old.0 hart.0 }
        requires number { e.0 < length self.old.0.enclaves }
        ensures { self.new ≡ ((takes_word self.old.0 hart.0 e.0).world, self.old.1) }
    {
        match self.enclaves.take(e) {
            Ok(word) => self.answer(hart, Answer::Word(word)),
            Err(cause) => self.answer(hart, Answer::No(cause)),
        }
    }

    /// The next word that was sent to a number, which then has received it.
    pub fn next_word(&mut self, e: EncNo) -> Option<u64>
        requires { e.0 < length self.old.0.enclaves }
        ensures word { result ≡ received_word (enclave_at self.old.0.enclaves e.0) }
        ensures some { OnSome result (self.new ≡ (with_record self.old.0 e.0 (record (enclave_at self.old.0.enclaves e.0) { received = (enclave_at self.old.0.enclaves e.0).received + 1 }), self.old.1)) }
        ensures none { IfNone result (self.new ≡ self.old) }
    {
        self.enclaves.receive(e)
    }

    /// Puts a word behind those that a number sent out, where there is room.
    pub fn put_out(&mut self, e: EncNo, word: u64) -> bool
        requires { e.0 < length self.old.0.enclaves }
        ensures room { result ≡ has_room (enclave_at self.old.0.enclaves e.0) }
        ensures sent { OnTrue result (self.new ≡ (with_record self.old.0 e.0 (record (enclave_at self.old.0.enclaves e.0) { out = (enclave_at self.old.0.enclaves e.0).out ++ word ∷ [] }), self.old.1)) }
        ensures full { OnFalse result (self.new ≡ self.old) }
    {
        self.enclaves.send_out(e, word)
    }
}
