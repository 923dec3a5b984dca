// Runs of a setup, written to memory.
ghost use Rattle.mem_slots.specs.Choices.{NamesPosition};

use mem_slots::{Choice, SlotUse};
use penglai_main::{Status, solo_with};
use pl_digest::Digester;
use pl_io::MemSink;
use std::alloc::Global;
use std::test::Fail;
use world_setup::read_setup;

/// What a run of a setup under this digest function, by this rule, ends with and writes.
pub(crate) fn run_of<D: Digester, F: Fn(&[SlotUse]) -> usize + Drop>(
    alloc: Global,
    digester: D,
    setup: &str,
    rule: Choice<F>,
) -> Result<(Status, Vec<u8>), Fail>
    requires { NamesPosition F.Fn rule }
{
    let setup = read_setup(alloc, setup.as_bytes())?;
    let mut sink = MemSink::new(alloc, 65536, Vec::new(alloc))?;
    let status = solo_with(alloc, digester, setup, &mut sink, rule);
    Ok((status, Vec::from_slice(alloc, sink.bytes())?))
}
