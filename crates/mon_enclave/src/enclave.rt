// The record of one enclave number.
ghost use Rattle.std.specs.Prelude.{◌≡◌, ◌≤◌, ◌<◌, ◌+◌, true, [], ◌∷◌, ◌++◌, length, map, IfOk, OnOk, OnErr, OnSome, IfNone};
ghost use Rattle.std.specs.Bool.{OnTrue, OnFalse};
ghost use Rattle.std.specs.Result.{result_err};
ghost use Rattle.pl_base.specs.States.{state_left};
ghost use Rattle.rv_alone.specs.Flat.{start_registers};

use crate::Bounded;
use mon_image::Image;
use pl_base::{
    EncNo, HartNo, IMAGE_START, MOST_IMAGE_PAGES, MOST_SPARES, No, PAGE_BYTES, State, Why,
};
use rv_alone::{Context, MOST_WORDS};
use std::alloc::{AllocError, Global};

/// A page of an enclave, by its number: its own, or one of the number that it was forked from.
#[derive(Clone, Copy, PartialEq, Eq, Debug)]
pub enum PageKind {
    Own(u32),
    Shared(u32),
}

impl PageKind {
    ghost use Rattle.mon_enclave.specs.Records.{is_shared, page_number_of};

    /// The page's number.
    pub fn page(self) -> u32
        ensures { result ≡ page_number_of self }
    {
        match self {
            PageKind::Own(page) | PageKind::Shared(page) => page,
        }
    }

    /// Whether it is a shadow's.
    pub fn is_shared(self) -> bool
        ensures { result ≡ is_shared self }
    {
        matches!(self, PageKind::Shared(_))
    }
}

/// The record of an enclave number.
#[derive(Debug, Drop)]
pub struct Enclave {
    /// The number of its image.
    pub image: u8,
    /// Its pages, in the image's order.
    pub pages: Bounded<PageKind, MOST_IMAGE_PAGES>,
    /// The pages that it was given for its copies and that aren't used yet.
    pub spares: Bounded<u32, MOST_SPARES>,
    /// How many spares it was ever given.
    pub given: u32,
    /// Its registers, and the address of its next instruction.
    pub context: Context,
    /// The words that were sent to it, the first ones first.
    pub sent: Bounded<u64, MOST_WORDS>,
    /// How many of them it has received.
    pub received: u32,
    /// The words that it sent out, the first ones first.
    pub out: Bounded<u64, MOST_WORDS>,
    /// How many of them may be taken: those sent out before it was last left.
    pub shown: u32,
    /// How many of them were taken.
    pub taken: u32,
    /// How many of its instructions retired.
    pub retired: u64,
    pub state: State,
    /// The hart that it was last entered on.
    pub hart: HartNo,
    /// The number that it was forked from.
    pub parent: Option<EncNo>,
}

// The registers at the start of an image of so many pages.
fn start_registers(pages: usize) -> [u64; 32]
    requires { pages ≤ 256 }
    ensures { result ≡ start_registers pages }
{
    let mut regs = [0; 32];
    regs[2] = IMAGE_START + PAGE_BYTES * pages as u64;
    regs
}

// Fills the empty list with these pages.
fn own(list: &mut Bounded<PageKind, MOST_IMAGE_PAGES>, pages: &[u32])
    requires empty { list.old ≡ [] }
    requires few { length pages.now ≤ 256 }
    ensures { list.new ≡ map PageKind.Own pages.now }
{
    for page in pages {
        list.push(PageKind::Own(*page));
    }
}

// Fills the empty list with these spares.
fn fill(list: &mut Bounded<u32, MOST_SPARES>, spares: &[u32])
    requires empty { list.old ≡ [] }
    requires few { length spares.now ≤ 256 }
    ensures { list.new ≡ spares.now }
{
    for page in spares {
        list.push(*page);
    }
}

impl Enclave {
    ghost use Rattle.mon_enclave.specs.Records.{IsEnclave, built, forked, free_enclave, freed, has_room, is_shared_at, next_spare, received_word, send_refusal, take_refusal, taken_word, with_own_page, with_spare};

    /// The record of a free number, with room for all that it may hold.
    pub(crate) fn new(alloc: Global) -> Result<Enclave, AllocError>
        ensures { IfOk result (λ enclave. enclave ≡ free_enclave) }
    {
        Ok(Enclave {
            image: 0,
            pages: Bounded::new(alloc)?,
            spares: Bounded::new(alloc)?,
            given: 0,
            context: Context {
                regs: [0; 32],
                pc: 0,
            },
            sent: Bounded::new(alloc)?,
            received: 0,
            out: Bounded::new(alloc)?,
            shown: 0,
            taken: 0,
            retired: 0,
            state: State::Free,
            hart: HartNo(0),
            parent: None,
        })
    }

    pub(crate) fn send(&mut self, word: u64) -> Result<(), No>
        requires { IsEnclave self.old }
        ensures refusal { result_err result ≡ send_refusal self.old }
        ensures ok { OnOk result (self.new ≡ record self.old { sent = self.old.sent ++ word ∷ [] }) }
        ensures err { OnErr result (self.new ≡ self.old) }
        ensures kept { IsEnclave self.new }
    {
        if self.state.is_wordless() {
            return Err(No::NoEnclave);
        }
        if self.sent.len() == MOST_WORDS {
            return Err(No::Full);
        }
        self.sent.push(word);
        Ok(())
    }

    pub(crate) fn take(&mut self) -> Result<u64, No>
        requires { IsEnclave self.old }
        ensures refusal { result_err result ≡ take_refusal self.old }
        ensures word { IfOk result (λ word. Some word ≡ taken_word self.old) }
        ensures ok { OnOk result (self.new ≡ record self.old { taken = self.old.taken + 1 }) }
        ensures err { OnErr result (self.new ≡ self.old) }
        ensures kept { IsEnclave self.new }
    {
        if self.state.is_wordless() {
            return Err(No::NoEnclave);
        }
        if self.taken == self.shown {
            return Err(No::Empty);
        }
        let word = self.out.as_slice()[self.taken as usize];
        self.taken += 1;
        Ok(word)
    }

    pub(crate) fn left(&mut self, why: Why)
        requires { IsEnclave self.old }
        ensures now { self.new ≡ record self.old { state = state_left why; shown = length self.old.out } }
        ensures kept { IsEnclave self.new }
    {
        self.state = why.state_left();
        self.shown = self.out.len() as u32;
    }

    pub(crate) fn build(&mut self, number: u8, image: &Image, pages: &[u32])
        requires { length pages.now ≡ length image.now.pages }
        ensures now { self.new ≡ built number image.now pages.now self.old }
        ensures kept { IsEnclave self.new }
    {
        let count = image.pages.as_slice().len();
        self.free();
        self.image = number;
        own(&mut self.pages, pages);
        self.context = Context {
            regs: start_registers(count),
            pc: image.entry,
        };
        self.state = State::Building;
    }

    pub(crate) fn free(&mut self)
        ensures now { self.new ≡ freed self.old }
        ensures kept { IsEnclave self.new }
    {
        self.pages.clear();
        self.spares.clear();
        self.given = 0;
        self.sent.clear();
        self.received = 0;
        self.out.clear();
        self.shown = 0;
        self.taken = 0;
        self.retired = 0;
        self.state = State::Free;
        self.parent = None;
    }

    pub(crate) fn receive(&mut self) -> Option<u64>
        requires { IsEnclave self.old }
        ensures word { result ≡ received_word self.old }
        ensures some { OnSome result (self.new ≡ record self.old { received = self.old.received + 1 }) }
        ensures none { IfNone result (self.new ≡ self.old) }
        ensures kept { IsEnclave self.new }
    {
        let word = self.sent.as_slice().get(self.received as usize).copied()?;
        self.received += 1;
        Some(word)
    }

    pub(crate) fn send_out(&mut self, word: u64) -> bool
        requires { IsEnclave self.old }
        ensures room { result ≡ has_room self.old }
        ensures sent { OnTrue result (self.new ≡ record self.old { out = self.old.out ++ word ∷ [] }) }
        ensures full { OnFalse result (self.new ≡ self.old) }
        ensures kept { IsEnclave self.new }
    {
        if self.out.len() == MOST_WORDS {
            return false;
        }
        self.out.push(word);
        true
    }

    /// Begins to build it as a fork of shadow `s`, with this image and these registers, and no page yet.
    pub(crate) fn begin_fork(&mut self, s: EncNo, image: u8, context: Context, spares: &[u32])
        requires { length spares.now ≤ 256 }
        ensures { self.new ≡ forked s (record self.old { image = image; pages = []; context = context }) spares.now self.old }
    {
        self.free();
        self.image = image;
        fill(&mut self.spares, spares);
        self.given = spares.len() as u32;
        self.context = context;
        self.state = State::Building;
        self.parent = Some(s);
    }

    /// It shares one more page.
    pub(crate) fn share(&mut self, page: u32)
        requires { length self.old.pages < 256 }
        ensures { self.new ≡ record self.old { pages = self.old.pages ++ PageKind.Shared page ∷ [] } }
    {
        self.pages.push(PageKind::Shared(page));
    }

    pub(crate) fn add_spare(&mut self, page: u32)
        requires kept { IsEnclave self.old }
        requires given { self.old.given < 256 }
        ensures now { self.new ≡ with_spare self.old page }
        ensures kept { IsEnclave self.new }
    {
        self.spares.push(page);
        self.given += 1;
    }

    pub(crate) fn own_page(&mut self, index: u32) -> u32
        requires kept { IsEnclave self.old }
        requires shared { is_shared_at self.old index ≡ true }
        requires spare { 0 < length self.old.spares }
        ensures page { result ≡ next_spare self.old }
        ensures now { self.new ≡ with_own_page self.old index }
        ensures kept { IsEnclave self.new }
    {
        let spare = self.spares.as_slice()[0];
        self.pages.set(index as usize, PageKind::Own(spare));
        self.spares.remove_first();
        spare
    }
}
