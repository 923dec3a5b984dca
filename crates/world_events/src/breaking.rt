// What breaking a page takes (copy on write): which page an access is to break, its copy, and the instruction that starts anew.
ghost use Rattle.std.specs.Prelude.{◌≡◌, ◌≤◌, ◌<◌, ◌↔◌, IsTrue, OnErr, length, slice_get};
ghost use Rattle.std.specs.Fn.{FnReturnsAt};
ghost use Rattle.std.specs.Option.{IsSomeAnd, option_and_then, option_copied, option_map_or};
ghost use Rattle.mem_ctl.specs.Results.{outcome_of};
ghost use Rattle.mem_slots.specs.Choices.{NamesPosition};
ghost use Rattle.mon_enclave.specs.Records.{enclave_at};
ghost use Rattle.mon_fence.specs.Fences.{fence_of};
ghost use Rattle.mon_shadow.specs.Breaking.{IsPageBroken, page_broken};
ghost use Rattle.world_events.specs.Conditions.{CanBreakAt, CanRestart};
ghost use Rattle.world_events.specs.Running.{run_now, runner};
ghost use Rattle.world_events.specs.Turns.{IsTurn};
ghost use Rattle.world_machine.specs.HostMapping.{lacked_by};
ghost use Rattle.world_machine.specs.Making.{image_of};
ghost use Rattle.world_machine.specs.Pages.{page_for, shared_place, to_break};
ghost use Rattle.world_machine.specs.Running.{perms_at, restarts};
ghost use Rattle.world_machine.specs.Steps.{waiting_turn};

use crate::machine::Machine;
use crate::making::image_at;
use crate::running::Run;
use mem_ctl::Broken;
use mem_slots::SlotUse;
use mon_enclave::PageKind;
use mon_image::ImagePage;
use mon_shadow::break_page;
use pl_base::{EncNo, HartNo, IMAGE_START, Kind, PAGE_BYTES, Perms};
use pl_digest::Digester;
use rv_hart::{Micro, Walk};
use world_machine::{Turned, Under, Wait};

// The place in the image of a page that an access would store to but for its being shared.
fn shared_place(kind: Kind, page: PageKind, place: u32) -> Option<u32>
    ensures { result ≡ shared_place kind page place }
{
    match (kind, page) {
        (Kind::Store, PageKind::Shared(_)) => Some(place),
        _ => None,
    }
}

// That of the page at a place.
fn shared_at(kind: Kind, pages: &[PageKind], place: usize) -> Option<u32>
    requires { length pages.now ≤ 256 }
    ensures { result ≡ option_and_then (λ page. shared_place kind page place) (slice_get pages.now place) }
{
    match pages.get(place) {
        Some(page) => shared_place(kind, *page, place as u32),
        None => None,
    }
}

// This number, where a page of the image lets an access of a kind through.
fn page_for(kind: Kind, page: Option<&ImagePage>, number: Option<u32>) -> Option<u32>
    ensures { result ≡ page_for kind (option_copied page.entry) number }
{
    match page {
        Some(page) => if page.perms.grants(kind) {
            number
        } else {
            None
        },
        None => None,
    }
}

// The place in the image of the page that an access is to break: one that it would store to but for its being shared.
fn to_break(kind: Kind, image: &[ImagePage], pages: &[PageKind], address: u64) -> Option<u32>
    requires { length pages.now ≤ 256 }
    ensures { result ≡ to_break kind image.now pages.now address }
{
    if address < IMAGE_START {
        return None;
    }
    let place = ((address - IMAGE_START) / PAGE_BYTES) as usize;
    page_for(kind, image.get(place), shared_at(kind, pages, place))
}

// What may be done with a page of an image.
fn perms_in(image: &[ImagePage], index: u32) -> Perms
    ensures { result ≡ option_map_or (λ page. page.perms) (slice_get image.now index) (record { 0 = 0 }) }
{
    match image.get(index as usize) {
        Some(page) => page.perms,
        None => Perms(0),
    }
}

impl<D: Digester, F> Machine<D, F> {
    /// The place in the image of the page that an access of a number is to break.
    pub fn to_break(&self, e: EncNo, kind: Kind, address: u64) -> Option<u32>
        requires number { e.0 < length self.now.0.enclaves }
        requires image { (enclave_at self.now.0.enclaves e.0).image < length self.now.0.setup.images }
        ensures { result ≡ to_break kind (image_of self.now.0.setup (enclave_at self.now.0.enclaves e.0).image).pages (enclave_at self.now.0.enclaves e.0).pages address }
    {
        let enclave = self.enclaves.get(e);
        let image = image_at(self.setup.parts(), enclave.image);
        to_break(
            kind,
            image.pages.as_slice(),
            enclave.pages.as_slice(),
            address,
        )
    }

    // What may be done with a page of a number's image.
    fn perms_at(&self, e: EncNo, index: u32) -> Perms
        requires number { e.0 < length self.now.0.enclaves }
        requires image { (enclave_at self.now.0.enclaves e.0).image < length self.now.0.setup.images }
        ensures { result ≡ perms_at self.now.0.setup (enclave_at self.now.0.enclaves e.0) index }
    {
        let enclave = self.enclaves.get(e);
        let image = image_at(self.setup.parts(), enclave.image);
        perms_in(image.pages.as_slice(), index)
    }

    /// Whether a number has a spare.
    pub fn has_spare(&self, e: EncNo) -> bool
        requires { e.0 < length self.now.0.enclaves }
        ensures { IsTrue result ↔ (0 < length (enclave_at self.now.0.enclaves e.0).spares) }
    {
        !self.enclaves.get(e).spares.as_slice().is_empty()
    }

    // The instruction starts anew, since nobody is lacking for the hart's fence, which it leaves.
    fn restart(&mut self, hart: HartNo, count: u32)
        requires hart { hart.0 < length self.old.0.under }
        requires nobody { IsSomeAnd (fence_of self.old.0.fences hart.0) (λ fence. fence.need.0 ≡ 0) }
        ensures { self.new ≡ (restarts self.old.0 hart.0 count, self.old.1) }
    {
        self.fences.leave(hart);
        let under = Under::Running {
            micro: Micro::Fetching(Walk::Start),
            count,
        };
        self.go_on(hart, under);
    }
}

impl<D: Digester, F: Fn(&[SlotUse]) -> usize> Machine<D, F> {
    /// The shared page is copied into the next spare, which takes its place, and the hart posts a fence of its address.
    pub fn copy_page(&mut self, run: Run, index: u32) -> Result<(), Broken>
        requires can { CanBreakAt self.old.0 (run_now run) index }
        requires spare { 0 < length (runner self.old.0 (run_now run)).spares }
        requires choice { NamesPosition F.Fn self.old.1 }
        ensures event { IsPageBroken (FnReturnsAt F.Fn self.old.1)
            (page_broken D.digest_of self.old.0.setup.tables run.hart.0 run.e index (perms_at self.old.0.setup (runner self.old.0 (run_now run)) index) self.old.0.enclaves self.old.0.fences)
            self.old.0.ctl (outcome_of result) self.new.0.ctl self.new.0.enclaves self.new.0.fences }
        ensures records { OnErr result (self.new.0.enclaves ≡ self.old.0.enclaves) }
        ensures rest { self.new ≡ (record self.old.0 { ctl = self.new.0.ctl; enclaves = self.new.0.enclaves; fences = self.new.0.fences }, self.old.1) }
    {
        let perms = self.perms_at(run.e, index);
        let tables = self.setup.parts().tables;
        break_page(
            &mut self.ctl,
            &mut self.enclaves,
            &mut self.fences,
            tables,
            run.hart,
            run.e,
            index,
            perms,
        )
    }

    /// The turn of a run that broke a page: it waits for the harts that have yet to acknowledge its fence.
    pub fn breaking_turn(&mut self, hart: HartNo, count: u32) -> Turned
        requires can { CanRestart self.old.0 hart.0 }
        ensures turn { IsTurn (FnReturnsAt F.Fn self.old.1) (λ positions. waiting_turn (restarts self.old.0 hart.0 count) (lacked_by self.old.0 hart.0)) result self.old.0 self.new.0 }
        ensures choice { self.new.1 ≡ self.old.1 }
    {
        match self.fences.waits(hart) {
            Some(harts) => Turned::Blocked(Wait::Acks(harts)),
            None => {
                self.restart(hart, count);
                Turned::Moved
            }
        }
    }
}
