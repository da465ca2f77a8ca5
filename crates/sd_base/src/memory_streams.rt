//! Streams in memory, which fail exactly where they are told to.

ghost use Rattle.std.specs.Prelude.{◌≡◌, [], ◌<◌, ◌≤◌, ◌+◌, ◌↔◌, ◌⊎◌, length, min, take, Contains, IsErr, IfOk, OnErr, Some};
ghost use Rattle.sd_base.specs.Streams.{Rises, Gives, Appends, next_call};

use crate::refusal::{Failed, Memory};
use crate::streams::{Sink, Source};
use std::alloc::Global;
use std::marker::Model;

/// Bytes in memory, with the numbers of the calls that are to fail, counted from 1.
#[derive(Drop)]
pub struct MemSource {
    bytes: Vec<u8>,
    at: usize,
    calls: u64,
    failing: Vec<u64>,
    faults: u64,
}

impl Model for MemSource {
    ghost use Rattle.std.specs.Prelude.{◌≤◌, drop, length};
    ghost use Rattle.sd_base.specs.Streams.{Supply};

    ghost Value = { Supply };

    ghost view = { λ s. record { left = drop s.at s.bytes.items; calls = s.calls; failing = s.failing.items; faults = s.faults } };

    ghost invariant = { λ s. s.at ≤ length s.bytes.items };
}

impl MemSource {
    /// A source of these bytes, whose calls of these numbers fail. It takes no memory.
    pub fn new(bytes: Vec<u8>, failing: Vec<u64>) -> Self
        ensures { result ≡ record { left = bytes.items; calls = 0; failing = failing.items; faults = 0 } }
    {
        MemSource {
            bytes,
            at: 0,
            calls: 0,
            failing,
            faults: 0,
        }
    }

    /// How many calls failed.
    pub fn faults(&self) -> u64
        ensures { result ≡ self.now.faults }
    {
        self.faults
    }
}

// Copies as much of the front of `from` as fits, and answers how much.
fn fill(out: &mut [u8], from: &[u8]) -> usize
    ensures count { result ≡ min (length out.old) (length from.now) }
    ensures bytes { take result out.new ≡ take result from.now }
{
    let n = out.len().min(from.len());
    out[..n].copy_from_slice(&from[..n]);
    n
}

impl Source for MemSource {
    ghost left = { λ s. Some s.left };

    ghost faults = { λ s. s.faults };

    /// Fails exactly where its number is one of those that are to fail.
    fn take(&mut self, out: &mut [u8]) -> Result<usize, Failed>
        ensures fails { IsErr result ↔ Contains self.old.failing (next_call self.old.calls) }
        ensures exact { IfOk result (λ n. n ≡ min (length out.new) (length self.old.left)) }
        ensures calls { self.new.calls ≡ next_call self.old.calls }
        ensures failing { self.new.failing ≡ self.old.failing }

        ensures bound { IfOk result (λ n. n ≤ length out.new) }
        ensures gives { IfOk result (λ n. Gives (Some self.old.left) n out.new (Some self.new.left)) }
        ensures stays { OnErr result (Some self.new.left ≡ Some self.old.left) }
        ensures cause { OnErr result (Rises self.old.faults self.new.faults) }
        ensures count { self.old.faults ≤ self.new.faults }
    {
        self.calls = self.calls.saturating_add(1);
        if self.failing.contains(&self.calls) {
            self.faults = self.faults.saturating_add(1);
            return Err(Failed);
        }
        let n = fill(out, &self.bytes[self.at..]);
        self.at += n;
        Ok(n)
    }
}

/// A sink in memory. Its room is taken when it is made.
#[derive(Drop)]
pub struct MemSink {
    bytes: Vec<u8>,
    room: usize,
    calls: u64,
    failing: Vec<u64>,
    faults: u64,
}

impl Model for MemSink {
    ghost use Rattle.std.specs.Prelude.{◌+◌, ◌≤◌, vec_capacity, vec_len};
    ghost use Rattle.sd_base.specs.Streams.{Store};

    ghost Value = { Store };

    ghost view = { λ s. record { text = s.bytes.items; room = s.room; calls = s.calls; failing = s.failing.items; faults = s.faults } };

    ghost invariant = { λ s. vec_len s.bytes + s.room ≤ vec_capacity s.bytes };
}

impl MemSink {
    /// An empty sink with room for so many bytes, whose calls of these numbers fail.
    pub fn new(alloc: Global, room: usize, failing: Vec<u64>) -> Result<Self, Memory>
        ensures { IfOk result (λ s. s ≡ record { text = []; room = room; calls = 0; failing = failing.items; faults = 0 }) }
    {
        Ok(MemSink {
            bytes: Vec::with_capacity(alloc, room)?,
            room,
            calls: 0,
            failing,
            faults: 0,
        })
    }

    /// What was written.
    pub fn text(&self) -> &[u8]
        ensures { result.now ≡ self.now.text }
    {
        &self.bytes
    }

    /// How many calls failed.
    pub fn faults(&self) -> u64
        ensures { result ≡ self.now.faults }
    {
        self.faults
    }
}

impl Sink for MemSink {
    ghost written = { λ s. Some s.text };

    ghost faults = { λ s. s.faults };

    /// Fails exactly where its number is one of those that are to fail, or a non-empty piece finds no room.
    fn put(&mut self, bytes: &[u8]) -> Result<usize, Failed>
        ensures told { Contains self.old.failing (next_call self.old.calls) → IsErr result }
        ensures full { 0 < length bytes.now → self.old.room ≡ 0 → IsErr result }
        ensures fails { IsErr result → Contains self.old.failing (next_call self.old.calls) ⊎ ((0 < length bytes.now) × (self.old.room ≡ 0)) }
        ensures exact { IfOk result (λ n. n ≡ min (length bytes.now) self.old.room) }
        ensures room { IfOk result (λ n. self.new.room + n ≡ self.old.room) }
        ensures calls { self.new.calls ≡ next_call self.old.calls }
        ensures failing { self.new.failing ≡ self.old.failing }

        ensures bound { IfOk result (λ n. n ≤ length bytes.now) }
        ensures goes_on { IfOk result (λ n. 0 < length bytes.now → 0 < n) }
        ensures appends { IfOk result (λ n. Appends (Some self.old.text) (take n bytes.now) (Some self.new.text)) }
        ensures stays { OnErr result (Some self.new.text ≡ Some self.old.text) }
        ensures cause { OnErr result (Rises self.old.faults self.new.faults) }
        ensures count { self.old.faults ≤ self.new.faults }
    {
        self.calls = self.calls.saturating_add(1);
        if self.failing.contains(&self.calls) {
            self.faults = self.faults.saturating_add(1);
            return Err(Failed);
        }
        let n = bytes.len().min(self.room);
        if n == 0 && !bytes.is_empty() {
            self.faults = self.faults.saturating_add(1);
            return Err(Failed);
        }
        self.bytes.extend_from_slice(&bytes[..n]).unwrap();
        self.room -= n;
        Ok(n)
    }
}
