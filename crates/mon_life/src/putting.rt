// The later events of `create`, `shadow` and `fork`.
ghost use Rattle.std.specs.Prelude.{◌≡◌, ◌≤◌, ◌<◌, ◌+◌, ◌*◌, ◌==◌, IsTrue, All, length};
ghost use Rattle.std.specs.Fn.{FnReturnsAt};
ghost use Rattle.pl_base.specs.Perms.{are_page_perms};
ghost use Rattle.mem_slots.specs.Choices.{NamesPosition};
ghost use Rattle.mem_ctl.specs.Data.{Value};
ghost use Rattle.mem_ctl.specs.Stops.{step_answer};
ghost use Rattle.mon_enclave.specs.Records.{enclave_at, page_number_of};
ghost use Rattle.mon_life.specs.Putting.{IsCreatePut, create_put, enclaves_after, made_state, steps_of};

use crate::pages::put_page_at;
use mem_ctl::{Broken, Ctl, Stop};
use mem_slots::SlotUse;
use mon_enclave::Enclaves;
use mon_image::Image;
use pl_base::{EncNo, No, State};
use pl_digest::Digester;

/// Step `at` of the line that makes a number: one page is put.
///
/// For an image of `n` pages, `at` below `n` puts that page of the image into that page of the record, and `n`, `n + 1` and `n + 2` put the
/// root, the middle and the last table. A `create` has the numbers 0 to `n + 2`, a `shadow` 0 to `n - 1`, and a `fork` `n` to `n + 2`. True
/// at the last, where the number becomes fresh, a shadow sealed. A fault is the line's refusal, and leaves the number faulted with its pages; a
/// collision leaves it as it is.
pub fn create_step<D: Digester, F: Fn(&[SlotUse]) -> usize>(
    ctl: &mut Ctl<D, F>,
    enclaves: &mut Enclaves,
    e: EncNo,
    image: &Image,
    tables: u8,
    shadow: bool,
    at: u32,
) -> Result<bool, Stop>
    requires number { e.0 < length enclaves.old }
    requires building { (enclave_at enclaves.old e.0).state ≡ State.Building }
    requires count { length (enclave_at enclaves.old e.0).pages ≡ length image.now.pages }
    requires at { at < steps_of shadow (length image.now.pages) }
    requires inside { All (λ kind. page_number_of kind < 64 * ctl.old.0.zones) (enclave_at enclaves.old e.0).pages }
    requires guarded { 2 + tables + 3 * length enclaves.old ≤ 64 * ctl.old.0.zones }
    requires perms { All (λ page. IsTrue (are_page_perms page.perms)) image.now.pages }
    requires choice { NamesPosition F.Fn ctl.old.1 }
    ensures step { IsCreatePut (FnReturnsAt F.Fn ctl.old.1) (create_put D.digest_of tables e.0 image.now shadow at enclaves.old) ctl.old.0 (step_answer result) ctl.new.0 enclaves.new }
    ensures choice { ctl.new.1 ≡ ctl.old.1 }
{
    let kinds = enclaves.get(e).pages.as_slice();
    match put_page_at(ctl, kinds, e, image, tables, at) {
        Ok(()) => Ok(finish(enclaves, e, shadow, at, image)),
        Err(Broken::Fault(place)) => {
            enclaves.set_state(e, State::Faulted);
            Err(Stop::No(No::Fault(place)))
        }
        Err(Broken::Collision(collision)) => Err(Stop::Collision(collision)),
    }
}

// Whether step `at` was the last; then the number is made.
fn finish(enclaves: &mut Enclaves, e: EncNo, shadow: bool, at: u32, image: &Image) -> bool
    requires number { e.0 < length enclaves.old }
    requires at { at < steps_of shadow (length image.now.pages) }
    ensures last { result ≡ (at + 1 == steps_of shadow (length image.now.pages)) }
    ensures enclaves { enclaves.new ≡ enclaves_after (Value result) shadow enclaves.old e.0 }
{
    let last = at as usize + 1 == steps_of(shadow, image.pages.as_slice().len());
    if last {
        enclaves.set_state(e, made_state(shadow));
    }
    last
}

// How many pages the line puts, counted from the image's first.
fn steps_of(shadow: bool, image_pages: usize) -> usize
    requires { image_pages ≤ 256 }
    ensures { result ≡ steps_of shadow image_pages }
{
    if shadow { image_pages } else { image_pages + 3 }
}

// The state of a number that is made.
fn made_state(shadow: bool) -> State
    ensures { result ≡ made_state shadow }
{
    if shadow { State::Sealed } else { State::Fresh }
}
