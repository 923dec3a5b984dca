// A run whose digests are a single byte: the attacker finds another block of the same digest, and the run says so.
use crate::runs::run_of;
use mem_slots::{Choice, SlotUse, first_mounted};
use penglai_main::Status;
use pl_digest::OneByte;
use std::test::Fail;

// The attacker's block is the one with the least first byte, and zeros after it, whose digest has the first byte of the image's.
const SETUP: &str =
    "version = 1\nharts = 1\nzones = 1\nslots = 1\ntables = 1\nenclaves = 1\nchoice = \"oldest\"\nattacker = [\"after 0 1\", \"write 80014000 24000000000000000000000000000000000000000000000000000000000000000000000000000000000000000000000000000000000000000000000000000000\"]\n[[image]]\nentry = \"10000\"\npages = [{ perms = \"rx\", bytes = \"930810001305a00273000000\" }]\n[[hart]]\nlines = [\"create 0 0 20\", \"after 1 2\", \"run 0 10\", \"destroy 0\", \"map 1000 20 r\", \"load 1000\"]\n";

const PRINTED: &str =
    "h0 0 begun\nh0 0 ok\nx 0 ok\nx 1 wrote 1 80014000 24000000000000000000000000000000000000000000000000000000000000000000000000000000000000000000000000000000000000000000000000000000\nh0 1 ok\nh0 2 begun\nroot a000000000000000000000000000000000000000000000000000000000000000\nmounted 0\nend collision block 20 0 24000000000000000000000000000000000000000000000000000000000000000000000000000000000000000000000000000000000000000000000000000000 930810001305a0027300000000000000000000000000000000000000000000000000000000000000000000000000000000000000000000000000000000000000\n";

#[test]
fn a_collision_ends_the_run(rt: HostRuntime) -> Result<(), Fail> {
    let oldest = Choice::new(|slots: &[SlotUse]| first_mounted(slots));
    let (status, written) = run_of(rt.alloc(), OneByte, SETUP, oldest)?;
    assert_eq!(rt; status, Status::Collision);
    assert_eq!(rt; written.as_slice(), PRINTED.as_bytes());
    Ok(())
}
