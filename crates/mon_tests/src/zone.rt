// A controller of one zone, its rule, and the ends of its pages.
ghost use Rattle.std.specs.Prelude.{◌≡◌, ◌<◌, IfOk, length};
ghost use Rattle.mem_slots.specs.Choices.{NamesPosition};

use mem_ctl::Ctl;
use mem_slots::{Choice, SlotUse, first_mounted};
use pl_base::Memory;
use pl_digest::OneByte;
use std::alloc::Global;

/// The slot that was mounted first.
pub(crate) fn oldest(slots: &[SlotUse]) -> usize
    requires { 0 < length slots.now }
    ensures { result ≡ 0 }
{
    first_mounted(slots)
}

/// One zone, with nothing in it.
pub(crate) fn zone<F: Fn(&[SlotUse]) -> usize>(
    alloc: Global,
    choice: Choice<F>,
) -> Result<Ctl<OneByte, F>, Memory>
    requires { NamesPosition F.Fn choice }
    ensures zone { IfOk result (λ ctl. ctl.0.zones ≡ 1) }
    ensures choice { IfOk result (λ ctl. NamesPosition F.Fn ctl.1) }
{
    let ctl = Ctl::new(alloc, OneByte, 1, 1, &[], choice)?;
    Ok(ctl)
}

/// A word is written at the end of a page.
pub(crate) fn write<F>(ctl: &mut Ctl<OneByte, F>, page: u32)
    requires zone { ctl.old.0.zones ≡ 1 }
    requires page { page < 64 }
    ensures { ctl.new.0.zones ≡ 1 }
{
    ctl.raw_write(page, 4088, 9);
}

/// The words at the end of three pages.
pub(crate) fn words<F>(ctl: &Ctl<OneByte, F>) -> [u64; 3]
    requires { ctl.now.0.zones ≡ 1 }
{
    [
        ctl.raw_read(21, 4088),
        ctl.raw_read(22, 4088),
        ctl.raw_read(63, 4088),
    ]
}
