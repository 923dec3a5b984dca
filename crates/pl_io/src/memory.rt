// A source and a sink in memory, which fail by a list.
ghost use Rattle.std.specs.Prelude.{◌≡◌, ◌≤◌, ◌||◌, ◌++◌, Some, [], take, drop, length, min, IfOk, OnOk, OnErr, is_err};
ghost use Rattle.std.specs.Io.{ReadsAtMost};
ghost use Rattle.std.specs.Io.KnownBytes.{Appends, ReadConsumes};
ghost use Rattle.pl_io.specs.Causes.{HasCause};
ghost use Rattle.pl_io.specs.Bytes.{AppendsPrefix};
ghost use Rattle.pl_io.specs.Held.{is_listed, is_over, one_more, after_put};

use crate::outside::{Sink, Source};
use pl_base::{Failed, Memory};
use std::alloc::Global;
use std::marker::Model;

/// A source of given bytes, whose listed reads fail.
#[derive(Drop)]
pub struct MemSource {
    bytes: Vec<u8>,
    at: usize,
    fails: Vec<u32>,
    turn: u64,
    faults: u64,
}

impl Model for MemSource {
    ghost use Rattle.std.specs.Prelude.{◌≤◌, vec_len, drop};
    ghost use Rattle.pl_io.specs.Held.{SourceData};

    ghost Value = { SourceData };

    ghost view = { λ s. record { left = drop s.at s.bytes.items; fails = s.fails.items; turn = s.turn; faults = s.faults } };

    ghost invariant = { λ s. s.at ≤ vec_len s.bytes };
}

// Whether the number of a turn is listed.
fn is_listed(fails: &[u32], turn: u64) -> bool
    ensures { result ≡ is_listed fails.now turn }
{
    fails.iter().any(|number| u64::from(*number) == turn)
}

// Copies as many bytes as both have, and says how many.
fn copy_front(from: &[u8], to: &mut [u8]) -> usize
    ensures count { result ≡ min (length from.now) (length to.old) }
    ensures copied { to.new ≡ take result from.now ++ drop result to.old }
{
    let count = from.len().min(to.len());
    to[..count].copy_from_slice(&from[..count]);
    count
}

impl MemSource {
    /// The reads whose numbers, from 0, are in `fails` fail.
    pub fn new(bytes: Vec<u8>, fails: Vec<u32>) -> MemSource
        ensures { result ≡ record { left = bytes.items; fails = fails.items; turn = 0; faults = 0 } }
    {
        MemSource {
            bytes,
            at: 0,
            fails,
            turn: 0,
            faults: 0,
        }
    }
}

impl Source for MemSource {
    ghost left = { λ s. Some s.left };

    ghost faults = { λ s. s.faults };

    fn read(&mut self, into: &mut [u8]) -> Result<usize, Failed>
        ensures bound { ReadsAtMost result into.new }
        ensures bytes { ReadConsumes (Some self.old.left) (Some self.new.left) result into.new }
        ensures cause { HasCause self.old.faults self.new.faults result }
        ensures listed { is_err result ≡ is_listed self.old.fails self.old.turn }
        ensures count { IfOk result (λ n. n ≡ min (length self.old.left) (length into.old)) }
        ensures rest { IfOk result (λ n. drop n into.new ≡ drop n into.old) }
        ensures unread { OnErr result ((self.new.left ≡ self.old.left) × (into.new ≡ into.old)) }
        ensures quiet { OnOk result (self.new.faults ≡ self.old.faults) }
        ensures fault { OnErr result (self.new.faults ≡ one_more self.old.faults) }
        ensures turn { self.new.turn ≡ one_more self.old.turn }
        ensures same { self.new.fails ≡ self.old.fails }
    {
        let turn = self.turn;
        self.turn = turn.saturating_add(1);
        if is_listed(&self.fails, turn) {
            self.faults = self.faults.saturating_add(1);
            return Err(Failed);
        }
        let count = copy_front(&self.bytes[self.at..], into);
        self.at += count;
        Ok(count)
    }
}

/// A sink with a given room, whose listed puts fail.
#[derive(Drop)]
pub struct MemSink {
    bytes: Vec<u8>,
    room: usize,
    fails: Vec<u32>,
    turn: u64,
    faults: u64,
}

impl Model for MemSink {
    ghost use Rattle.std.specs.Prelude.{◌≤◌, vec_len, vec_capacity};
    ghost use Rattle.pl_io.specs.Held.{SinkData};

    ghost Value = { SinkData };

    ghost view = { λ s. record { bytes = s.bytes.items; room = s.room; fails = s.fails.items; turn = s.turn; faults = s.faults } };

    ghost invariant = { λ s. (vec_len s.bytes ≤ s.room) × (s.room ≤ vec_capacity s.bytes) };
}

impl MemSink {
    /// Takes memory for `room` bytes, and none later. The puts whose numbers, from 0, are in `fails` fail.
    pub fn new(alloc: Global, room: usize, fails: Vec<u32>) -> Result<MemSink, Memory>
        ensures { IfOk result (λ s. s ≡ record { bytes = []; room = room; fails = fails.items; turn = 0; faults = 0 }) }
    {
        let bytes = Vec::with_capacity(alloc, room)?;
        Ok(MemSink {
            bytes,
            room,
            fails,
            turn: 0,
            faults: 0,
        })
    }

    /// What was written.
    pub fn bytes(&self) -> &[u8]
        ensures { result.now ≡ self.now.bytes }
    {
        &self.bytes
    }
}

impl Sink for MemSink {
    ghost written = { λ s. Some s.bytes };

    ghost faults = { λ s. s.faults };

    fn put(&mut self, piece: &[u8]) -> Result<(), Failed>
        ensures whole { OnOk result (Appends (Some self.old.bytes) (Some self.new.bytes) piece.now) }
        ensures part { OnErr result (AppendsPrefix (Some self.old.bytes) (Some self.new.bytes) piece.now) }
        ensures cause { HasCause self.old.faults self.new.faults result }
        ensures failed { is_err result ≡ (is_over self.old piece.now || is_listed self.old.fails self.old.turn) }
        ensures bytes { self.new.bytes ≡ after_put self.old piece.now }
        ensures quiet { OnOk result (self.new.faults ≡ self.old.faults) }
        ensures fault { OnErr result (self.new.faults ≡ one_more self.old.faults) }
        ensures turn { self.new.turn ≡ one_more self.old.turn }
        ensures same { (self.new.room ≡ self.old.room) × (self.new.fails ≡ self.old.fails) }
    {
        let turn = self.turn;
        self.turn = turn.saturating_add(1);
        if self.room - self.bytes.len() < piece.len() {
            self.faults = self.faults.saturating_add(1);
            return Err(Failed);
        }
        if is_listed(&self.fails, turn) {
            self.faults = self.faults.saturating_add(1);
            let half = &piece[..piece.len() / 2];
            self.bytes.extend_from_slice(half).unwrap();
            return Err(Failed);
        }
        self.bytes.extend_from_slice(piece).unwrap();
        Ok(())
    }
}
