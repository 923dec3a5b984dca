// All bytes of a source.
ghost use Rattle.std.specs.Prelude.{◌≡◌, ◌<◌, ◌≤◌, ◌^◌, IsErrOf};
ghost use Rattle.pl_io.specs.Causes.{Rose};
ghost use Rattle.pl_io.specs.Bytes.{ReadsAll};

use crate::outside::Source;
use std::alloc::Global;
use thiserror::Error;

/// Why not all bytes of a source were read.
#[derive(Debug, Drop, Error)]
pub enum ReadAll {
    /// Memory ran out.
    #[error("out of memory")]
    Memory,
    /// A read failed.
    #[error("a read failed")]
    ReadFault,
    /// More bytes than the limit came.
    #[error("the input is too long")]
    TooLong,
}

/// Reads to the end, or until more than `limit` bytes have come, which is below 2^32.
pub fn read_all<S: Source>(alloc: Global, source: &mut S, limit: usize) -> Result<Vec<u8>, ReadAll>
    requires { limit < 2 ^ 32 }
    ensures read { ReadsAll (S.left source.old) (S.left source.new) limit result }
    ensures fault { IsErrOf result ReadAll.ReadFault → Rose (S.faults source.old) (S.faults source.new) }
    ensures later { S.faults source.old ≤ S.faults source.new }
{
    let mut all = Vec::new(alloc);
    let mut piece = [0u8; 4096];
    loop {
        let Ok(count) = source.read(&mut piece) else {
            return Err(ReadAll::ReadFault);
        };
        if count == 0 {
            return Ok(all);
        }
        if limit - all.len() < count {
            return Err(ReadAll::TooLong);
        }
        if all.extend_from_slice(&piece[..count]).is_err() {
            return Err(ReadAll::Memory);
        }
    }
}
