// Off-chip memory: its bytes by address.
ghost use Rattle.std.specs.Prelude.{◌≡◌, ◌+◌, ◌-◌, ◌≤◌, length, All, IfOk};
ghost use Rattle.std.specs.Str.{bytes_eq};
ghost use Rattle.pl_base.specs.Bytes.{bytes_at, with_bytes};
ghost use Rattle.mem_geom.specs.Layout.{memory_size};

use crate::layout::{MEMORY_START, TABLE_BYTES, ZONE_BYTES, ZONE_NODE_BYTES};
use pl_base::Memory;
use std::alloc::Global;
use std::marker::Model;

/// The bytes of off-chip memory, which contracts see as a list: the first stands at 0x80000000.
#[derive(Drop)]
pub struct Dram {
    bytes: Vec<u8>,
}

impl Model for Dram {
    ghost use Rattle.std.specs.Prelude.{List, ℕ, ◌≤◌, length};
    ghost use Rattle.mem_geom.specs.Layout.{memory_size};

    ghost Value = { List ℕ };

    ghost view = { λ dram. dram.bytes.items };

    ghost invariant = { λ dram. length dram.bytes.items ≤ memory_size 64 };
}

impl Dram {
    /// The memory of so many zones, of which there are at most 64. All its bytes are zero.
    pub fn new(alloc: Global, zones: u8) -> Result<Dram, Memory>
        requires { zones ≤ 64 }
        ensures size { IfOk result (λ dram. length dram ≡ memory_size zones) }
        ensures zero { IfOk result (λ dram. All (λ byte. byte ≡ 0) dram) }
    {
        let bytes = vec![in alloc; 0; memory_size(zones)]?;
        Ok(Dram { bytes })
    }

    /// Another memory with the same bytes.
    pub fn copied(&self, alloc: Global) -> Result<Dram, Memory>
        ensures { IfOk result (λ dram. dram ≡ self.now) }
    {
        let bytes = Vec::from_slice(alloc, &self.bytes)?;
        Ok(Dram { bytes })
    }

    /// The address after the last byte.
    pub fn end(&self) -> u64
        ensures { result ≡ 0x80000000 + length self.now }
    {
        MEMORY_START + self.bytes.len() as u64
    }

    /// Reads the bytes from an address on.
    pub fn read(&self, pa: u64, into: &mut [u8])
        requires from { 0x80000000 ≤ pa }
        requires to { pa + length into.old ≤ 0x80000000 + length self.now }
        ensures { into.new ≡ bytes_at self.now (pa - 0x80000000) (length into.old) }
    {
        let at = (pa - MEMORY_START) as usize;
        into.copy_from_slice(&self.bytes[at..at + into.len()]);
    }

    /// Whether these bytes stand from an address on.
    pub fn holds(&self, pa: u64, bytes: &[u8]) -> bool
        requires from { 0x80000000 ≤ pa }
        requires to { pa + length bytes.now ≤ 0x80000000 + length self.now }
        ensures { result ≡ bytes_eq (bytes_at self.now (pa - 0x80000000) (length bytes.now)) bytes.now }
    {
        let at = (pa - MEMORY_START) as usize;
        &self.bytes[at..at + bytes.len()] == bytes
    }

    /// Writes bytes from an address on. All others stay.
    pub fn write(&mut self, pa: u64, bytes: &[u8])
        requires from { 0x80000000 ≤ pa }
        requires to { pa + length bytes.now ≤ 0x80000000 + length self.old }
        ensures bytes { self.new ≡ with_bytes self.old (pa - 0x80000000) bytes.now }
        ensures size { length self.new ≡ length self.old }
    {
        let at = (pa - MEMORY_START) as usize;
        self.bytes[at..at + bytes.len()].copy_from_slice(bytes);
    }
}

// How many bytes the memory of so many zones has.
fn memory_size(zones: u8) -> usize
    ensures { result ≡ memory_size zones }
{
    (ZONE_BYTES + ZONE_NODE_BYTES) as usize * usize::from(zones) + TABLE_BYTES as usize
}
