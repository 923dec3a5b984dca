// Whatever the rule of eviction, a run without an attack answers the same.
ghost use Rattle.mem_slots.specs.Choices.{NamesPosition};

use crate::runs::run_of;
use mem_slots::{Choice, SlotUse, first_mounted};
use penglai_main::Status;
use pl_digest::Sha;
use std::alloc::Global;
use std::test::Fail;

// Pages in three zones and tables in a fourth, with slots for two.
const SETUP: &str =
    "version = 1\nharts = 1\nzones = 4\nslots = 2\ntables = 1\nenclaves = 1\nchoice = \"oldest\"\n[[image]]\nentry = \"10000\"\npages = [{ perms = \"rx\", bytes = \"233c21fe033581ff9308100073000000\" }, { perms = \"rw\", bytes = \"\" }, { perms = \"rw\", bytes = \"\" }]\n[[hart]]\nlines = [\"create 0 0 70,140,200\", \"run 0 10\"]\n";

const HISTORY: &str = "h0 0 begun\nh0 0 ok\nh0 1 begun\nh0 1 left 4 ended 0000000000013000\n";

// Whether a run by this rule is done, with that history.
fn answers_the_same<F: Fn(&[SlotUse]) -> usize + Drop>(
    alloc: Global,
    rule: Choice<F>,
) -> Result<bool, Fail>
    requires { NamesPosition F.Fn rule }
{
    let (status, written) = run_of(alloc, Sha, SETUP, rule)?;
    Ok(status == Status::Done && written.as_slice().starts_with(HISTORY.as_bytes()))
}

#[test]
fn each_rule_gives_the_same_history(rt: HostRuntime) -> Result<(), Fail> {
    let first = Choice::new(|slots: &[SlotUse]| first_mounted(slots));
    assert!(rt; answers_the_same(rt.alloc(), first)?);
    let last = Choice::new(|slots: &[SlotUse]| slots.len() - 1);
    assert!(rt; answers_the_same(rt.alloc(), last)?);
    Ok(())
}
