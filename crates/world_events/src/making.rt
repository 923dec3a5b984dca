// The events of `create`, `shadow` and `fork`, and that of `grant`.
ghost use Rattle.std.specs.Prelude.{◌≡◌, ◌<◌, length, slice_get, false};
ghost use Rattle.std.specs.Result.{result_err};
ghost use Rattle.std.specs.Fn.{FnReturnsAt};
ghost use Rattle.std.specs.Option.{option_copied};
ghost use Rattle.mem_ctl.specs.Stops.{step_answer};
ghost use Rattle.mem_slots.specs.Choices.{NamesPosition};
ghost use Rattle.mon_enclave.specs.Records.{enclave_at};
ghost use Rattle.mon_life.specs.Putting.{IsCreatePut, create_put};
ghost use Rattle.pl_history.specs.Monitor.{script_of};
ghost use Rattle.world_events.specs.Conditions.{CanFork, CanGo, CanMake, CanPut, create_due, fork_due, grant_due, pages_due, pages_named};
ghost use Rattle.world_events.specs.Events.{IsEvent, put_by};
ghost use Rattle.world_machine.specs.Making.{begin_create, begin_fork, grants_page, image_of, put_next};

use crate::machine::Machine;
use mem_ctl::Stop;
use mem_slots::SlotUse;
use mon_image::Image;
use mon_life::{create_begin, create_step};
use mon_shadow::{fork_begin, grant};
use pl_base::{EncNo, HartNo, No};
use pl_digest::Digester;
use pl_history::{Answer, Line, SetupParts};
use world_machine::Under;

// The pages that a line of a hart names, which makes a number.
fn pages_named(setup: &SetupParts, hart: HartNo, at: u32) -> &[u32]
    requires { hart.0 < length setup.now.lines }
    ensures { result.now ≡ pages_named (slice_get (script_of setup.now hart.0) at) }
{
    pages_in(setup.lines.as_slice()[usize::from(hart.0)].get(at as usize))
}

// The pages of a line that makes a number.
fn pages_in(line: Option<&Line>) -> &[u32]
    ensures { result.now ≡ pages_named (option_copied line.entry) }
{
    match line {
        Some(Line::Create { pages, .. }) => pages.as_slice(),
        Some(Line::Shadow { pages, .. }) => pages.as_slice(),
        Some(Line::Fork { pages, .. }) => pages.as_slice(),
        _ => &[],
    }
}

/// An image of the setup.
pub(crate) fn image_at(setup: &SetupParts, number: u8) -> &Image
    requires { number < length setup.now.images }
    ensures { result.now ≡ image_of setup.now number }
{
    &setup.images.as_slice()[usize::from(number)]
}

// How many pages an image of the setup has; none where it isn't there.
fn image_pages(setup: &SetupParts, number: u8) -> u32
    ensures { result ≡ length (image_of setup.now number).pages }
{
    match setup.images.as_slice().get(usize::from(number)) {
        Some(image) => image.pages.as_slice().len() as u32,
        None => 0,
    }
}

impl<D: Digester, F> Machine<D, F> {
    // The number of a record's image.
    fn image_number(&self, e: EncNo) -> u8
        requires { e.0 < length self.now.0.enclaves }
        ensures { result ≡ (enclave_at self.now.0.enclaves e.0).image }
    {
        self.enclaves.get(e).image
    }

    // Takes the pages of the hart's line, and begins to make its number.
    fn take_pages(&mut self, hart: HartNo, e: EncNo, image: u8, shadow: bool) -> Result<(), No>
        requires can { CanMake self.old.0 hart.0 e.0 image }
        ensures refusal { result_err result ≡ (create_due self.old.0 hart.0 e.0 image shadow).refusal }
        ensures world { self.new ≡ (record self.old.0 { owners = (create_due self.old.0 hart.0 e.0 image shadow).owners; enclaves = (create_due self.old.0 hart.0 e.0 image shadow).enclaves }, self.old.1) }
    {
        let at = self.answered_by(hart.0);
        let parts = self.setup.parts();
        create_begin(
            &mut self.owners,
            &mut self.enclaves,
            &self.pmp,
            hart,
            e,
            image,
            image_at(parts, image),
            pages_named(parts, hart, at),
            shadow,
        )
    }

    /// The line's first event: all pages are taken, and the number is being made, as an enclave or as a shadow.
    pub fn begin_create(&mut self, hart: HartNo, e: EncNo, image: u8, shadow: bool)
        requires { CanMake self.old.0 hart.0 e.0 image }
        ensures { self.new ≡ ((begin_create self.old.0 hart.0 e.0 image (pages_due self.old.0 hart.0) shadow).world, self.old.1) }
    {
        let begun = self.take_pages(hart, e, image, shadow);
        self.begin_unless(hart, Under::Putting { done: 0 }, begun);
    }

    // Takes the pages of the hart's line as spares, and begins to make its number, which shares the shadow's pages.
    fn take_spares(&mut self, hart: HartNo, s: EncNo, e: EncNo) -> Result<(), No>
        requires can { CanFork self.old.0 hart.0 s.0 e.0 }
        ensures refusal { result_err result ≡ (fork_due self.old.0 hart.0 s e.0).refusal }
        ensures world { self.new ≡ (record self.old.0 { owners = (fork_due self.old.0 hart.0 s e.0).owners; enclaves = (fork_due self.old.0 hart.0 s e.0).enclaves }, self.old.1) }
    {
        let at = self.answered_by(hart.0);
        let parts = self.setup.parts();
        fork_begin(
            &mut self.owners,
            &mut self.enclaves,
            &self.pmp,
            hart,
            s,
            e,
            pages_named(parts, hart, at),
        )
    }

    /// The first event of `fork`: the spares are taken, and the number's tables are put next.
    pub fn begin_fork(&mut self, hart: HartNo, s: EncNo, e: EncNo)
        requires { CanFork self.old.0 hart.0 s.0 e.0 }
        ensures { self.new ≡ ((begin_fork self.old.0 hart.0 s e.0 (pages_due self.old.0 hart.0)).world, self.old.1) }
    {
        let done = image_pages(self.setup.parts(), self.image_number(s));
        let begun = self.take_spares(hart, s, e);
        self.begin_unless(hart, Under::Putting { done }, begun);
    }

    // What a step that put a page answered.
    fn put(&mut self, hart: HartNo, done: u32, last: Result<bool, Stop>)
        requires can { CanGo self.old.0 hart.0 }
        requires few { done < 65536 }
        ensures { self.new ≡ (put_by self.old.0 hart.0 done (step_answer last), self.old.1) }
    {
        match last {
            Ok(true) => self.answer(hart, Answer::Ok),
            Ok(false) => self.go_on(hart, Under::Putting { done: done + 1 }),
            Err(Stop::No(cause)) => self.answer(hart, Answer::No(cause)),
            Err(Stop::Collision(collision)) => self.keep(collision),
        }
    }

    // Gives a number a page as its last spare.
    fn give_spare(&mut self, e: EncNo, page: u32) -> Result<(), No>
        requires number { e.0 < length self.old.0.enclaves }
        ensures refusal { result_err result ≡ (grant_due self.old.0 e.0 page).refusal }
        ensures world { self.new ≡ (record self.old.0 { owners = (grant_due self.old.0 e.0 page).owners; enclaves = (grant_due self.old.0 e.0 page).enclaves }, self.old.1) }
    {
        grant(&mut self.owners, &mut self.enclaves, &self.pmp, e, page)
    }

    /// `grant`.
    pub fn grant(&mut self, hart: HartNo, e: EncNo, page: u32)
        requires can { CanGo self.old.0 hart.0 }
        requires number { e.0 < length self.old.0.enclaves }
        ensures { self.new ≡ ((grants_page self.old.0 hart.0 e.0 page).world, self.old.1) }
    {
        let given = self.give_spare(e, page);
        self.answer_by(hart, given);
    }
}

impl<D: Digester, F: Fn(&[SlotUse]) -> usize> Machine<D, F> {
    // Puts the page of a step.
    fn put_page(
        &mut self,
        hart: HartNo,
        e: EncNo,
        image: u8,
        shadow: bool,
        done: u32,
    ) -> Result<bool, Stop>
        requires can { CanPut self.old.0 hart.0 e.0 image shadow done }
        requires choice { NamesPosition F.Fn self.old.1 }
        ensures step { IsCreatePut (FnReturnsAt F.Fn self.old.1) (create_put D.digest_of self.old.0.setup.tables e.0 (image_of self.old.0.setup image) shadow done self.old.0.enclaves)
            self.old.0.ctl (step_answer result) self.new.0.ctl self.new.0.enclaves }
        ensures rest { self.new ≡ (record self.old.0 { ctl = self.new.0.ctl; enclaves = self.new.0.enclaves }, self.old.1) }
    {
        let _hart = hart;
        let parts = self.setup.parts();
        create_step(
            &mut self.ctl,
            &mut self.enclaves,
            e,
            image_at(parts, image),
            parts.tables,
            shadow,
            done,
        )
    }

    /// A later event of the line: one page is put.
    pub fn put_next(&mut self, hart: HartNo, e: EncNo, image: u8, shadow: bool, done: u32)
        requires can { CanPut self.old.0 hart.0 e.0 image shadow done }
        requires choice { NamesPosition F.Fn self.old.1 }
        ensures event { IsEvent (FnReturnsAt F.Fn self.old.1) (λ positions. put_next D.digest_of self.old.0 hart.0 positions e.0 image shadow done) self.new.0 }
        ensures choice { self.new.1 ≡ self.old.1 }
    {
        let last = self.put_page(hart, e, image, shadow, done);
        self.put(hart, done, last);
    }

    /// A later event of `fork`: one of its tables is put, by the image that its number has from the shadow.
    pub fn put_fork(&mut self, hart: HartNo, e: EncNo, done: u32)
        requires can { CanPut self.old.0 hart.0 e.0 (enclave_at self.old.0.enclaves e.0).image false done }
        requires choice { NamesPosition F.Fn self.old.1 }
        ensures event { IsEvent (FnReturnsAt F.Fn self.old.1) (λ positions. put_next D.digest_of self.old.0 hart.0 positions e.0 (enclave_at self.old.0.enclaves e.0).image false done) self.new.0 }
        ensures choice { self.new.1 ≡ self.old.1 }
    {
        let image = self.image_number(e);
        self.put_next(hart, e, image, false, done);
    }
}
