// What was answered to the lines, in order.
ghost use Rattle.std.specs.Prelude.{◌≡◌, ◌<◌, ◌≤◌, ◌+◌, ◌^◌, [], ◌∷◌, ◌++◌, length, IfOk};
ghost use Rattle.pl_history.specs.History.{NamesPart, IsHistory};

use crate::answer::Entry;
use pl_base::Memory;
use std::alloc::Global;
use std::marker::Model;

/// The answers of a run so far, and the bytes that the attacker wrote and kept. Contracts see both, and how many more fit.
///
/// The part that an entry names lies in the bytes. There are fewer than 2^32 bytes, those that still fit among them.
#[derive(Debug, Drop)]
pub struct History {
    entries: Vec<Entry>,
    bytes: Vec<u8>,
    entry_room: usize,
    byte_room: usize,
}

impl Model for History {
    ghost use Rattle.std.specs.Prelude.{◌≤◌, ◌+◌, vec_len, vec_capacity};
    ghost use Rattle.pl_history.specs.History.{HistoryData, IsHistory};

    ghost Value = { HistoryData };

    ghost view = { λ h. record { entries = h.entries.items; bytes = h.bytes.items; entry_room = h.entry_room; byte_room = h.byte_room } };

    ghost invariant = { λ h. (vec_len h.entries + h.entry_room ≤ vec_capacity h.entries)
        × (vec_len h.bytes + h.byte_room ≤ vec_capacity h.bytes)
        × IsHistory (record { entries = h.entries.items; bytes = h.bytes.items; entry_room = h.entry_room; byte_room = h.byte_room }) };
}

impl History {
    /// Empty, with room for so many entries and so many bytes.
    pub fn new(alloc: Global, entries: usize, bytes: usize) -> Result<History, Memory>
        requires { bytes < 2 ^ 32 }
        ensures { IfOk result (λ h. h ≡ record { entries = []; bytes = []; entry_room = entries; byte_room = bytes }) }
    {
        Ok(History {
            entries: Vec::with_capacity(alloc, entries)?,
            bytes: Vec::with_capacity(alloc, bytes)?,
            entry_room: entries,
            byte_room: bytes,
        })
    }

    /// How many entries and how many bytes still fit.
    pub fn room(&self) -> (usize, usize)
        ensures entries { result.0 ≡ self.now.entry_room }
        ensures bytes { result.1 ≡ self.now.byte_room }
    {
        (self.entry_room, self.byte_room)
    }

    /// The entries, the first first.
    pub fn entries(&self) -> &[Entry]
        ensures entries { result.now ≡ self.now.entries }
        ensures rules { IsHistory self.now }
    {
        self.entries.as_slice()
    }

    /// The bytes that entries name parts of.
    pub fn bytes(&self) -> &[u8]
        ensures bytes { result.now ≡ self.now.bytes }
        ensures rules { IsHistory self.now }
    {
        self.bytes.as_slice()
    }

    /// Adds an entry, which takes no memory.
    pub fn add(&mut self, entry: Entry)
        requires room { 0 < self.old.entry_room }
        requires part { NamesPart self.old.bytes entry }
        ensures entries { self.new.entries ≡ self.old.entries ++ entry ∷ [] }
        ensures entry_room { self.new.entry_room + 1 ≡ self.old.entry_room }
        ensures bytes { self.new.bytes ≡ self.old.bytes }
        ensures byte_room { self.new.byte_room ≡ self.old.byte_room }
    {
        self.entry_room -= 1;
        self.entries.push(entry).unwrap();
    }

    /// Adds bytes, which takes no memory, and says where they stand.
    pub fn add_bytes(&mut self, bytes: &[u8]) -> u32
        requires { length bytes.now ≤ self.old.byte_room }
        ensures position { result ≡ length self.old.bytes }
        ensures bytes { self.new.bytes ≡ self.old.bytes ++ bytes.now }
        ensures byte_room { self.new.byte_room + length bytes.now ≡ self.old.byte_room }
        ensures entries { self.new.entries ≡ self.old.entries }
        ensures entry_room { self.new.entry_room ≡ self.old.entry_room }
    {
        let from = self.bytes.len() as u32;
        self.byte_room -= bytes.len();
        self.bytes.extend_from_slice(bytes).unwrap();
        from
    }
}
