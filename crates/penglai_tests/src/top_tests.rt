// The top call over sources and sinks in memory: what no row of `rows/` can show.
use mem_slots::{Choice, SlotUse, fewest_uses, first_mounted};
use penglai_main::{Status, quick};
use pl_io::{MemSink, MemSource};
use std::alloc::Global;
use std::test::Fail;

// EXIT with 42, run by one line.
const SETUP: &str =
    "version = 1\nharts = 1\nzones = 1\nslots = 1\ntables = 1\nenclaves = 1\nchoice = \"oldest\"\n[[image]]\nentry = \"10000\"\npages = [{ perms = \"rx\", bytes = \"930810001305a00273000000\" }]\n[[hart]]\nlines = [\"create 0 0 20\", \"run 0 10\"]\n";

const HISTORY: &str =
    "h0 0 begun\nh0 0 ok\nh0 1 begun\nh0 1 left 3 ended 000000000000002a\nroot b5de57ef1e171639b3a019b1f5c11f0efc7b324ed2c4625345014d412d67883c\nmounted 0\nend done\n";

/// What a call with this word and input ended with and wrote, where these reads and puts fail.
pub(crate) fn outcome(
    alloc: Global,
    word: &str,
    input: &str,
    failing_reads: &[u32],
    failing_puts: &[u32],
) -> Result<(Status, Vec<u8>), Fail> {
    let mut words = Vec::new(alloc);
    words.push(String::from_str(alloc, word)?)?;
    let input = Vec::from_slice(alloc, input.as_bytes())?;
    let mut source = MemSource::new(input, Vec::from_slice(alloc, failing_reads)?);
    let mut sink = MemSink::new(alloc, 65536, Vec::from_slice(alloc, failing_puts)?)?;
    let oldest = Choice::new(|slots: &[SlotUse]| first_mounted(slots));
    let least = Choice::new(|slots: &[SlotUse]| fewest_uses(slots));
    let status = quick(alloc, &words, &mut source, &mut sink, oldest, least);
    Ok((status, Vec::from_slice(alloc, sink.bytes())?))
}

#[test]
fn with_ample_memory_a_run_is_done(rt: HostRuntime) -> Result<(), Fail> {
    let (status, written) = outcome(rt.alloc(), "solo", SETUP, &[], &[])?;
    assert_eq!(rt; status, Status::Done);
    assert_eq!(rt; written.as_slice(), HISTORY.as_bytes());
    Ok(())
}

#[test]
fn each_failing_read_is_told(rt: HostRuntime) -> Result<(), Fail> {
    // The text comes in one read, and a second one shows its end.
    for read in 0..2 {
        let (status, written) = outcome(rt.alloc(), "solo", SETUP, &[read], &[])?;
        assert_eq!(rt; status, Status::ReadFault);
        assert!(rt; written.is_empty());
    }
    Ok(())
}

#[test]
fn each_failing_put_is_told(rt: HostRuntime) -> Result<(), Fail> {
    for put in 0..60 {
        let (status, written) = outcome(rt.alloc(), "solo", SETUP, &[], &[put])?;
        if written.as_slice() != HISTORY.as_bytes() {
            assert_eq!(rt; status, Status::WriteFault);
            assert!(rt; HISTORY.as_bytes().starts_with(written.as_slice()));
        }
    }
    let (status, _) = outcome(rt.alloc(), "solo", "=", &[], &[0])?;
    assert_eq!(rt; status, Status::WriteFault);
    Ok(())
}
