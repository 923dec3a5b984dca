// The records of all enclave numbers.
ghost use Rattle.std.specs.Prelude.{◌≡◌, ◌≤◌, ◌<◌, ◌+◌, ◌-◌, ◌^◌, true, [], ◌∷◌, ◌++◌, length, replicate, IfOk, OnOk, OnErr, OnSome, IfNone};
ghost use Rattle.std.specs.Bool.{OnTrue, OnFalse};
ghost use Rattle.std.specs.Result.{result_err};
ghost use Rattle.pl_base.specs.States.{state_left};

use crate::Enclave;
use crate::forks::fork_in;
use mon_image::Image;
use pl_base::{EncNo, HartNo, Memory, No, State, Why};
use rv_alone::Context;
use std::alloc::Global;
use std::marker::Model;

/// The record of each enclave number. Contracts see a list, with the record of number `e` at place `e`.
#[derive(Debug, Drop)]
pub struct Enclaves {
    enclaves: Vec<Enclave>,
}

impl Model for Enclaves {
    ghost use Rattle.std.specs.Prelude.{List, All, length, ◌≤◌};
    ghost use Rattle.mon_enclave.specs.declared.enclave.Enclave.{Enclave};

    ghost Value = { List Enclave };

    ghost use Rattle.mon_enclave.specs.Records.{IsEnclave};

    ghost view = { λ a. a.enclaves.items };

    ghost invariant = { λ a. All IsEnclave a.enclaves.items × (length a.enclaves.items ≤ 64) };
}

impl Enclaves {
    ghost use Rattle.mon_enclave.specs.Records.{IsEnclave, built, enclave_at, forked, free_enclave, freed, has_room, is_shared_at, next_spare, received_word, send_refusal, take_refusal, taken_word, with_enclave, with_own_page, with_spare};

    /// So many free numbers, 1 to 64, with room for all that they may hold.
    pub fn new(alloc: Global, count: u8) -> Result<Enclaves, Memory>
        requires some { 1 ≤ count }
        requires few { count ≤ 64 }
        ensures { IfOk result (λ all. all ≡ replicate count free_enclave) }
    {
        let mut enclaves = Vec::with_capacity(alloc, usize::from(count))?;
        for _ in 0..count {
            enclaves.push(Enclave::new(alloc)?)?;
        }
        Ok(Enclaves { enclaves })
    }

    /// How many numbers there are.
    pub fn len(&self) -> usize
        ensures value { result ≡ length self.now }
        ensures few { result ≤ 64 }
    {
        self.enclaves.len()
    }

    /// The record of a number.
    pub fn get(&self, e: EncNo) -> &Enclave
        requires { e.0 < length self.now }
        ensures record_of { result.now ≡ enclave_at self.now e.0 }
        ensures kept { IsEnclave result.now }
    {
        &self.enclaves[usize::from(e.0)]
    }

    /// Sends a word to an enclave.
    ///
    /// Refused with `NoEnclave` where the state is free, sealed, building or dying, and then with `Full` where 4,096 words were sent to it.
    pub fn send(&mut self, e: EncNo, word: u64) -> Result<(), No>
        requires { e.0 < length self.old }
        ensures refusal { result_err result ≡ send_refusal (enclave_at self.old e.0) }
        ensures ok { OnOk result (self.new ≡ with_enclave self.old e.0 (record (enclave_at self.old e.0) { sent = (enclave_at self.old e.0).sent ++ word ∷ [] })) }
        ensures err { OnErr result (self.new ≡ self.old) }
    {
        self.enclaves[usize::from(e.0)].send(word)
    }

    /// Takes the next word that an enclave sent out.
    ///
    /// Refused with `NoEnclave` where the state is free, sealed, building or dying, and then with `Empty` where each word that is shown was
    /// taken.
    pub fn take(&mut self, e: EncNo) -> Result<u64, No>
        requires { e.0 < length self.old }
        ensures refusal { result_err result ≡ take_refusal (enclave_at self.old e.0) }
        ensures word { IfOk result (λ word. Some word ≡ taken_word (enclave_at self.old e.0)) }
        ensures ok { OnOk result (self.new ≡ with_enclave self.old e.0 (record (enclave_at self.old e.0) { taken = (enclave_at self.old e.0).taken + 1 })) }
        ensures err { OnErr result (self.new ≡ self.old) }
    {
        self.enclaves[usize::from(e.0)].take()
    }

    /// A run leaves an enclave that is on: all words that it sent out are shown.
    pub fn left(&mut self, e: EncNo, why: Why)
        requires number { e.0 < length self.old }
        requires on { (enclave_at self.old e.0).state ≡ State.On }
        ensures { self.new ≡ with_enclave self.old e.0 (record (enclave_at self.old e.0) { state = state_left why; shown = length (enclave_at self.old e.0).out }) }
    {
        self.enclaves[usize::from(e.0)].left(why);
    }

    /// Begins to build a free number from the image of number `number`, in these pages of its own, one for each of the image's.
    ///
    /// Its registers are those at the start of the image, and no word was sent to it or out. `hart` stays.
    pub fn build(&mut self, e: EncNo, number: u8, image: &Image, pages: &[u32])
        requires number { e.0 < length self.old }
        requires free { (enclave_at self.old e.0).state ≡ State.Free }
        requires count { length pages.now ≡ length image.now.pages }
        ensures { self.new ≡ with_enclave self.old e.0 (built number image.now pages.now (enclave_at self.old e.0)) }
    {
        self.enclaves[usize::from(e.0)].build(number, image, pages);
    }

    /// A number is free again, with no pages, no words and no parent. Its image, registers and `hart` stay, which mean nothing then.
    pub fn free(&mut self, e: EncNo)
        requires { e.0 < length self.old }
        ensures { self.new ≡ with_enclave self.old e.0 (freed (enclave_at self.old e.0)) }
    {
        self.enclaves[usize::from(e.0)].free();
    }

    /// Puts a number into a state.
    pub fn set_state(&mut self, e: EncNo, state: State)
        requires { e.0 < length self.old }
        ensures { self.new ≡ with_enclave self.old e.0 (record (enclave_at self.old e.0) { state = state }) }
    {
        self.enclaves[usize::from(e.0)].state = state;
    }

    /// An enclave is on, on hart `h`.
    pub fn enter(&mut self, e: EncNo, h: HartNo)
        requires { e.0 < length self.old }
        ensures { self.new ≡ with_enclave self.old e.0 (record (enclave_at self.old e.0) { state = State.On; hart = h }) }
    {
        let enclave = &mut self.enclaves[usize::from(e.0)];
        enclave.state = State::On;
        enclave.hart = h;
    }

    /// An instruction of an enclave retires, and leaves this context.
    pub fn retire(&mut self, e: EncNo, context: Context)
        requires number { e.0 < length self.old }
        requires count { (enclave_at self.old e.0).retired < 2 ^ 64 - 1 }
        ensures { self.new ≡ with_enclave self.old e.0 (record (enclave_at self.old e.0) { context = context; retired = (enclave_at self.old e.0).retired + 1 }) }
    {
        let enclave = &mut self.enclaves[usize::from(e.0)];
        enclave.context = context;
        enclave.retired += 1;
    }

    /// The next word that was sent to an enclave, which it then has received. None exactly where it has received all of them; then nothing
    /// changes.
    pub fn receive(&mut self, e: EncNo) -> Option<u64>
        requires { e.0 < length self.old }
        ensures word { result ≡ received_word (enclave_at self.old e.0) }
        ensures some { OnSome result (self.new ≡ with_enclave self.old e.0 (record (enclave_at self.old e.0) { received = (enclave_at self.old e.0).received + 1 })) }
        ensures none { IfNone result (self.new ≡ self.old) }
    {
        self.enclaves[usize::from(e.0)].receive()
    }

    /// Puts a word behind those that an enclave sent out. False exactly where it sent out 4,096; then nothing changes.
    pub fn send_out(&mut self, e: EncNo, word: u64) -> bool
        requires { e.0 < length self.old }
        ensures room { result ≡ has_room (enclave_at self.old e.0) }
        ensures sent { OnTrue result (self.new ≡ with_enclave self.old e.0 (record (enclave_at self.old e.0) { out = (enclave_at self.old e.0).out ++ word ∷ [] })) }
        ensures full { OnFalse result (self.new ≡ self.old) }
    {
        self.enclaves[usize::from(e.0)].send_out(word)
    }

    /// Begins to build a free number as a fork of shadow `s`, with these spares: it has the image and the registers of `s`, and shares its pages.
    ///
    /// No word was sent to it or out. `hart` stays.
    pub fn build_fork(&mut self, s: EncNo, e: EncNo, spares: &[u32])
        requires shadow { s.0 < length self.old }
        requires number { e.0 < length self.old }
        requires sealed { (enclave_at self.old s.0).state ≡ State.Sealed }
        requires free { (enclave_at self.old e.0).state ≡ State.Free }
        requires few { length spares.now ≤ 256 }
        ensures { self.new ≡ with_enclave self.old e.0 (forked s (enclave_at self.old s.0) spares.now (enclave_at self.old e.0)) }
    {
        fork_in(&mut self.enclaves, s, e, spares);
    }

    /// Gives a number one more spare, behind those that it has.
    pub fn add_spare(&mut self, e: EncNo, page: u32)
        requires number { e.0 < length self.old }
        requires given { (enclave_at self.old e.0).given < 256 }
        ensures { self.new ≡ with_enclave self.old e.0 (with_spare (enclave_at self.old e.0) page) }
    {
        self.enclaves[usize::from(e.0)].add_spare(page);
    }

    /// The first spare, which takes the place of shared page `index` of the image: that page is the number's own now.
    pub fn own_page(&mut self, e: EncNo, index: u32) -> u32
        requires number { e.0 < length self.old }
        requires shared { is_shared_at (enclave_at self.old e.0) index ≡ true }
        requires spare { 0 < length (enclave_at self.old e.0).spares }
        ensures page { result ≡ next_spare (enclave_at self.old e.0) }
        ensures now { self.new ≡ with_enclave self.old e.0 (with_own_page (enclave_at self.old e.0) index) }
    {
        self.enclaves[usize::from(e.0)].own_page(index)
    }
}
