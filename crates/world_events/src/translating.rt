// How a hart translates an access, and how words of pages are read and written through the trees.
ghost use Rattle.std.specs.Prelude.{◌≡◌, ◌≤◌, ◌<◌, ◌*◌, ◌%◌, IsTrue, length};
ghost use Rattle.std.specs.Fn.{FnReturnsAt};
ghost use Rattle.pl_base.specs.Width.{is_width};
ghost use Rattle.mem_ctl.specs.Calls.{read_word_of, write_part_of};
ghost use Rattle.mem_ctl.specs.Results.{IsCall, outcome_of};
ghost use Rattle.mem_slots.specs.Choices.{NamesPosition};
ghost use Rattle.rv_hart.specs.Learning.{learned};
ghost use Rattle.world_events.specs.Translating.{AsksInside, CanLearn, CanSeek, request_now, with_learned};
ghost use Rattle.world_machine.specs.Acknowledging.{without_covered};
ghost use Rattle.world_machine.specs.Translating.{host_view, number_view, offset_at, page_at, sought_in};
ghost use Rattle.world_machine.specs.Worlds.{tlb_at, with_tlb};

use crate::machine::Machine;
use mem_ctl::Broken;
use mem_geom::MEMORY_START;
use mem_slots::SlotUse;
use mon_tables::root_of;
use pl_base::{EncNo, HartNo, Kind, Mode, PAGE_BYTES, Pa, Space, Va, Vpn};
use pl_digest::Digester;
use rv_hart::{PageFault, Sought, View, Walk, seek};
use rv_tlb::Tlb;

/// An access that a hart translates.
#[derive(Clone, Copy)]
pub struct Request {
    pub hart: HartNo,
    pub va: Va,
    pub kind: Kind,
    pub view: View,
}

/// The view of the host's accesses.
pub(crate) fn host_view(tables: u8) -> View
    ensures { result ≡ host_view tables }
{
    View {
        space: Space::HOST,
        root: root_of(tables, Space::HOST),
        mode: Mode::Super,
    }
}

/// The view of an enclave number's accesses.
pub(crate) fn number_view(tables: u8, e: EncNo) -> View
    ensures { result ≡ number_view tables e.0 }
{
    let space = Space::of_number(e);
    View {
        space,
        root: root_of(tables, space),
        mode: Mode::User,
    }
}

/// The page of off-chip memory with a physical address.
pub fn page_at(pa: Pa) -> u32
    requires from { 0x80000000 ≤ pa.0 }
    requires small { page_at pa < 4096 }
    ensures { result ≡ page_at pa }
{
    ((pa.0 - MEMORY_START) / PAGE_BYTES) as u32
}

/// The offset in its page.
pub fn offset_at(pa: Pa) -> u16
    ensures { result ≡ offset_at pa }
{
    (pa.0 % PAGE_BYTES) as u16
}

impl<D: Digester, F> Machine<D, F> {
    /// The translations of a hart.
    pub fn tlb(&self, hart: HartNo) -> &Tlb
        requires { hart.0 < length self.now.0.tlbs }
        ensures { result.now ≡ tlb_at self.now.0.tlbs hart.0 }
    {
        self.tlbs.of(hart)
    }

    /// What a request asks for next, whose walk is so far.
    pub fn sought(&self, request: Request, walk: Walk) -> Sought
        requires { CanSeek self.now.0 (request_now request) walk }
        ensures sought { result ≡ sought_in self.now.0 (request_now request) walk }
        ensures inside { AsksInside self.now.0.ctl.zones result }
    {
        seek(
            &walk,
            request.va,
            request.kind,
            self.tlb(request.hart),
            &request.view,
        )
    }

    /// What the word of a table teaches the walk of a request.
    pub fn learn(&mut self, request: Request, walk: Walk, word: u64) -> Result<Walk, PageFault>
        requires { CanLearn self.old.0 (request_now request) walk }
        ensures learned { result ≡ learned walk word request.va request.kind request.view }
        ensures world { self.new ≡ (with_learned self.old.0 (request_now request) walk word, self.old.1) }
    {
        self.tlbs.learn(request, walk, word)
    }

    /// A hart drops its translation of a page of a space, or those of the whole space.
    pub fn drop_from(&mut self, hart: HartNo, space: Space, vpn: Option<Vpn>)
        requires { hart.0 < length self.old.0.tlbs }
        ensures { self.new ≡ (with_tlb self.old.0 hart.0 (without_covered (tlb_at self.old.0.tlbs hart.0) space vpn), self.old.1) }
    {
        self.tlbs.drop_from(hart, space, vpn);
    }
}

impl<D: Digester, F: Fn(&[SlotUse]) -> usize> Machine<D, F> {
    /// The eight bytes of a page at an offset, read through the trees.
    pub fn read(&mut self, page: u32, offset: u16) -> Result<u64, Broken>
        requires page { page < 64 * self.old.0.ctl.zones }
        requires offset { offset < 4096 }
        requires aligned { offset % 8 ≡ 0 }
        requires choice { NamesPosition F.Fn self.old.1 }
        ensures call { IsCall (FnReturnsAt F.Fn self.old.1) (read_word_of D.digest_of page offset) self.old.0.ctl (outcome_of result) self.new.0.ctl }
        ensures rest { self.new ≡ (record self.old.0 { ctl = self.new.0.ctl }, self.old.1) }
    {
        self.ctl.read_word(page, offset)
    }

    /// Writes the lowest bytes of a value into a page through the trees.
    pub fn write(&mut self, page: u32, offset: u16, width: u8, value: u64) -> Result<(), Broken>
        requires page { page < 64 * self.old.0.ctl.zones }
        requires offset { offset < 4096 }
        requires width { IsTrue (is_width width) }
        requires aligned { offset % width ≡ 0 }
        requires choice { NamesPosition F.Fn self.old.1 }
        ensures call { IsCall (FnReturnsAt F.Fn self.old.1) (write_part_of D.digest_of page offset width value) self.old.0.ctl (outcome_of result) self.new.0.ctl }
        ensures rest { self.new ≡ (record self.old.0 { ctl = self.new.0.ctl }, self.old.1) }
    {
        self.ctl.write_part(page, offset, width, value)
    }
}
