// Parts of a block.
ghost use Rattle.std.specs.Prelude.{◌≡◌};
ghost use Rattle.byteorder.specs.Endian.{little_bytes};
ghost use Rattle.pl_base.specs.Bytes.{with_bytes};
ghost use Rattle.mem_tree.specs.Words.{IsPart};

use byteorder::{ByteOrder, LittleEndian};

/// The block with the lowest bytes of a value from an offset on, the lowest first.
pub(crate) fn block_with_part(block: &[u8; 64], offset: u8, width: u8, value: u64) -> [u8; 64]
    requires { IsPart offset width }
    ensures { result ≡ with_bytes block.now offset (little_bytes width value) }
{
    let mut bytes = [0u8; 8];
    LittleEndian::write_u64(&mut bytes, value);
    let (from, count) = (usize::from(offset), usize::from(width));
    let mut changed = *block;
    changed[from..from + count].copy_from_slice(&bytes[..count]);
    changed
}
