// The events of `load` and `store`: the words of the walk, and then the bytes themselves, which no tree guards.
ghost use Rattle.std.specs.Prelude.{◌≡◌, ◌%◌, Some};
ghost use Rattle.std.specs.Fn.{FnReturnsAt};
ghost use Rattle.mem_ctl.specs.Results.{outcome_of};
ghost use Rattle.mem_slots.specs.Choices.{NamesPosition};
ghost use Rattle.pl_history.specs.Protection.{pmp_of};
ghost use Rattle.rv_pmp.specs.Pmp.{permits};
ghost use Rattle.world_events.specs.Conditions.{CanAccess, CanGo};
ghost use Rattle.world_events.specs.Events.{IsEvent};
ghost use Rattle.world_events.specs.HostAccessing.{access_now};
ghost use Rattle.world_events.specs.Translating.{CanLearn, IsInside, request_now, table_goes};
ghost use Rattle.world_machine.specs.Answering.{decided};
ghost use Rattle.world_machine.specs.HostAccessing.{accesses_host, begins_access, host_faults, host_learns, host_request, kind_of, made, reaches_host};
ghost use Rattle.world_machine.specs.Translating.{offset_at, reads_table};

use crate::machine::Machine;
use crate::translating::{Request, host_view, offset_at, page_at};
use mem_ctl::Broken;
use mem_slots::SlotUse;
use pl_base::{HartNo, Kind, No, Pa, Va};
use pl_digest::Digester;
use pl_history::Answer;
use rv_hart::{PageFault, Sought, Walk};
use world_machine::Under;

// The bytes of an access.
const WORD_BYTES: u8 = 8;

/// A load, or a store of a word.
#[derive(Clone, Copy)]
pub enum WordAccess {
    /// A load.
    Load,
    /// A store of this word.
    Store { word: u64 },
}

// The kind of an access.
fn kind_of(access: WordAccess) -> Kind
    ensures { result ≡ kind_of (access_now access) }
{
    match access {
        WordAccess::Load => Kind::Load,
        WordAccess::Store { .. } => Kind::Store,
    }
}

impl<D: Digester, F> Machine<D, F> {
    // An access of the host as its hart translates it.
    fn host_request(&self, hart: HartNo, va: Va, access: WordAccess) -> Request
        ensures { request_now result ≡ host_request self.now.0 hart.0 va (access_now access) }
    {
        Request {
            hart,
            va,
            kind: kind_of(access),
            view: host_view(self.setup.parts().tables),
        }
    }

    // Whether the protection entries let an access through.
    fn is_allowed(&self, pa: Pa, kind: Kind) -> bool
        ensures { result ≡ permits (pmp_of self.now.0.setup) pa.0 8 kind }
    {
        self.pmp.allows(pa, WORD_BYTES, kind)
    }

    // The eight bytes are read as they stand off chip, or written there.
    fn make_access(&mut self, hart: HartNo, pa: Pa, access: WordAccess)
        requires can { CanGo self.old.0 hart.0 }
        requires inside { IsInside self.old.0.ctl.zones pa }
        requires aligned { offset_at pa % 8 ≡ 0 }
        ensures { self.new ≡ (made self.old.0 hart.0 pa (access_now access), self.old.1) }
    {
        let page = page_at(pa);
        let offset = offset_at(pa);
        match access {
            WordAccess::Load => {
                let word = self.ctl.raw_read(page, offset);
                self.answer(hart, Answer::Value(word));
            }
            WordAccess::Store { word } => {
                self.ctl.raw_write(page, offset, word);
                self.answer(hart, Answer::Ok);
            }
        }
    }

    // An access at its address, which is made where the protection entries let it through.
    fn reach_host(&mut self, hart: HartNo, pa: Pa, access: WordAccess)
        requires can { CanGo self.old.0 hart.0 }
        requires inside { IsInside self.old.0.ctl.zones pa }
        requires aligned { offset_at pa % 8 ≡ 0 }
        ensures { self.new ≡ ((reaches_host self.old.0 hart.0 (access_now access) (Some pa)).world, self.old.1) }
    {
        if self.is_allowed(pa, kind_of(access)) {
            self.make_access(hart, pa, access);
        } else {
            self.answer(hart, Answer::No(No::AccessFault));
        }
    }

    // A walk that has learned goes on, or the line is answered that there is no page.
    fn host_learned(&mut self, hart: HartNo, learned: Result<Walk, PageFault>)
        requires { CanGo self.old.0 hart.0 }
        ensures { self.new ≡ (host_learns hart.0 self.old.0 learned, self.old.1) }
    {
        match learned {
            Ok(walk) => self.go_on(hart, Under::Seeking { walk }),
            Err(PageFault) => self.answer(hart, Answer::No(No::PageFault)),
        }
    }

    // What the read of a table's word comes to.
    fn host_word(&mut self, request: Request, walk: Walk, word: Result<u64, Broken>)
        requires can { CanGo self.old.0 request.hart.0 }
        requires learns { CanLearn self.old.0 (request_now request) walk }
        ensures { self.new ≡ (decided self.old.0 (table_goes (host_learns request.hart.0) (request_now request) walk self.old.0) (host_faults request.hart.0 self.old.0) (outcome_of word), self.old.1) }
    {
        match word {
            Ok(word) => {
                let learned = self.learn(request, walk, word);
                self.host_learned(request.hart, learned);
            }
            Err(Broken::Fault(place)) => self.answer(request.hart, Answer::No(No::Fault(place))),
            Err(Broken::Collision(collision)) => self.keep(collision),
        }
    }
}

impl<D: Digester, F: Fn(&[SlotUse]) -> usize> Machine<D, F> {
    // The word of a table is read through the trees, and the walk learns from it.
    fn read_host_table(&mut self, request: Request, walk: Walk, pa: Pa)
        requires can { CanGo self.old.0 request.hart.0 }
        requires learns { CanLearn self.old.0 (request_now request) walk }
        requires inside { IsInside self.old.0.ctl.zones pa }
        requires aligned { offset_at pa % 8 ≡ 0 }
        requires choice { NamesPosition F.Fn self.old.1 }
        ensures event { IsEvent (FnReturnsAt F.Fn self.old.1) (λ positions. reads_table D.digest_of self.old.0 (request_now request) positions walk (host_learns request.hart.0) (host_faults request.hart.0) pa) self.new.0 }
        ensures choice { self.new.1 ≡ self.old.1 }
    {
        let word = self.read(page_at(pa), offset_at(pa));
        self.host_word(request, walk, word);
    }

    /// The next event of an access whose walk is so far.
    pub fn access_host(&mut self, hart: HartNo, va: Va, access: WordAccess, walk: Walk)
        requires can { CanAccess self.old.0 hart.0 va (access_now access) walk }
        requires aligned { va.0 % 8 ≡ 0 }
        requires choice { NamesPosition F.Fn self.old.1 }
        ensures event { IsEvent (FnReturnsAt F.Fn self.old.1) (λ positions. accesses_host D.digest_of self.old.0 hart.0 positions va (access_now access) walk) self.new.0 }
        ensures choice { self.new.1 ≡ self.old.1 }
    {
        let request = self.host_request(hart, va, access);
        match self.sought(request, walk) {
            Sought::Table { pa, .. } => self.read_host_table(request, walk, pa),
            Sought::At { pa } => self.reach_host(hart, pa, access),
            Sought::PageFault => self.answer(hart, Answer::No(No::PageFault)),
        }
    }

    /// The first event of an access: an address that isn't a multiple of 8 is refused.
    pub fn begin_access(&mut self, hart: HartNo, va: Va, access: WordAccess)
        requires can { CanAccess self.old.0 hart.0 va (access_now access) Walk.Start }
        requires choice { NamesPosition F.Fn self.old.1 }
        ensures event { IsEvent (FnReturnsAt F.Fn self.old.1) (λ positions. begins_access D.digest_of self.old.0 hart.0 positions va (access_now access)) self.new.0 }
        ensures choice { self.new.1 ≡ self.old.1 }
    {
        if va.0 % 8 == 0 {
            self.access_host(hart, va, access, Walk::Start);
        } else {
            self.answer(hart, Answer::No(No::Misaligned));
        }
    }
}
