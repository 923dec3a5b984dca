// Why a text isn't a setup.
ghost use Rattle.std.specs.Prelude.{◌≡◌, ◌+◌, ◌^◌, ◌<◌, option_map, IfSome};
ghost use Rattle.world_setup.specs.Checked.{unless, some_of, none_at};
ghost use Rattle.world_setup.specs.Answers.{Answers};

use pl_base::Memory;
use std::alloc::{AllocError, AllocFailed};
use thiserror::Error;

/// Why a text isn't a setup.
#[derive(Debug, Drop, Error)]
pub enum SetupFault {
    /// Memory ran out.
    #[error("out of memory")]
    Memory,
    /// The first rule that fails, 1 to 24, and the position of its item, from 0.
    #[error("bad setup {rule} {item}")]
    Bad { rule: u8, item: u32 },
    /// Rule 2 fails, for the cause that the parser gives.
    #[error("bad setup 2 0: {0}")]
    NotToml(toml::de::Error),
}

impl From<Memory> for SetupFault {
    ghost use Rattle.world_setup.specs.declared.fault.SetupFault.{SetupFault};

    ghost from_gives = { λ _ fault. fault ≡ SetupFault.Memory };

    fn from(_error: Memory) -> SetupFault {
        SetupFault::Memory
    }
}

impl From<AllocError> for SetupFault {
    ghost use Rattle.world_setup.specs.declared.fault.SetupFault.{SetupFault};

    ghost from_gives = { λ _ fault. fault ≡ SetupFault.Memory };

    fn from(_error: AllocError) -> SetupFault {
        SetupFault::Memory
    }
}

impl<T: Drop> From<AllocFailed<T>> for SetupFault {
    ghost use Rattle.world_setup.specs.declared.fault.SetupFault.{SetupFault};

    ghost from_gives = { λ _ fault. fault ≡ SetupFault.Memory };

    fn from(_error: AllocFailed<T>) -> SetupFault {
        SetupFault::Memory
    }
}

/// The rule fails where the test does.
pub(crate) fn unless(test: bool, rule: u8) -> Result<(), SetupFault>
    ensures { Answers (unless test rule) result }
{
    if test {
        return Ok(());
    }
    Err(SetupFault::Bad { rule, item: 0 })
}

/// The rule fails where there is no value.
pub(crate) fn some_of<T: Drop>(found: Option<T>, rule: u8) -> Result<T, SetupFault>
    ensures { Answers (some_of found rule) result }
{
    match found {
        Some(value) => Ok(value),
        None => Err(SetupFault::Bad { rule, item: 0 }),
    }
}

/// The rule fails at the position that was found.
pub(crate) fn none_at(found: Option<usize>, rule: u8) -> Result<(), SetupFault>
    requires { IfSome found (λ at. at < 2 ^ 32) }
    ensures { Answers (none_at found rule) result }
{
    match found {
        Some(at) => Err(SetupFault::Bad {
            rule,
            item: at as u32,
        }),
        None => Ok(()),
    }
}

/// A position that was found, with so many before.
pub(crate) fn after(before: usize, found: Option<usize>) -> Option<usize>
    requires { IfSome found (λ at. before + at < 2 ^ 32) }
    ensures value { result ≡ option_map (λ at. before + at) found }
    ensures small { IfSome result (λ at. at < 2 ^ 32) }
{
    match found {
        Some(at) => Some(before + at),
        None => None,
    }
}

/// The same position, as a `usize`.
pub(crate) fn wide(found: Option<u32>) -> Option<usize>
    ensures value { result ≡ found }
    ensures small { IfSome result (λ at. at < 2 ^ 32) }
{
    match found {
        Some(at) => Some(at as usize),
        None => None,
    }
}
