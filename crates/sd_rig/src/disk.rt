//! One device in memory: what it reads, and of the part that was written since the last sync what it was then and which bytes
//! are pending.

ghost use Rattle.std.specs.Prelude.{◌≡◌, ◌+◌, ◌≤◌, ◌<◌, ◌↔◌, ◌++◌, ℕ, List, false, get_or, length, take, drop, slice_range, vec_capacity, IfOk, IsTrue, if◌then◌else◌};
ghost use Rattle.sd_rig.specs.Devices.{overwritten};
ghost use Rattle.sd_rig.specs.Disk.{IsSettled, IsSound, blank, copies, marked, picked, poked, settled, whole, written};

use crate::front::Front;
use sd_base::{Memory, Pick};
use std::alloc::Global;
use std::marker::Model;

/// One device. What it was at the last sync and which bytes are pending is kept of one part alone, from `base` on: outside it
/// nothing is pending, and a sync empties it, so that the same memory serves again. There is memory for the whole from the
/// beginning, so no later call takes any.
#[derive(Drop)]
pub struct Disk {
    seen: Front,
    base: usize,
    synced: Vec<u8>,
    pending: Vec<bool>,
}

impl Model for Disk {
    ghost use Rattle.std.specs.Prelude.{vec_capacity};
    ghost use Rattle.sd_rig.specs.Disk.{DiskState, IsHeld, disk_code, whole};

    ghost Value = { DiskState };

    ghost coded = { disk_code };

    ghost view = { λ k. whole k.base k.seen k.synced.items k.pending.items };

    ghost invariant = { λ k. IsHeld k.base k.seen k.synced.items k.pending.items (vec_capacity k.synced) (vec_capacity k.pending) };
}

impl Disk {
    /// A device of so many zeros.
    pub fn blank(alloc: Global, len: usize) -> Result<Disk, Memory>
        ensures { IfOk result (λ k. k ≡ blank len) }
    {
        Ok(Disk {
            seen: Front::zeros(alloc, len)?,
            base: 0,
            synced: Vec::with_capacity(alloc, len)?,
            pending: Vec::with_capacity(alloc, len)?,
        })
    }

    /// The bytes as read.
    pub fn image(&self, alloc: Global) -> Result<Vec<u8>, Memory>
        ensures { IfOk result (λ image. image.items ≡ self.now.seen) }
    {
        Ok(self.seen.image(alloc)?)
    }

    /// Fills `out` with the bytes at `at`.
    pub fn read(&self, at: usize, out: &mut [u8])
        requires { at + length out.old ≤ length self.now.seen }
        ensures { out.new ≡ slice_range self.now.seen at (at + length out.old) }
    {
        self.seen.read(at, out);
    }

    /// Writes the bytes at `at`, pending.
    pub fn write(&mut self, at: usize, bytes: &[u8])
        requires { at + length bytes.now ≤ length self.old.seen }
        ensures { self.new ≡ written at bytes.now self.old }
    {
        self.base = reach(
            &self.seen,
            &mut self.synced,
            &mut self.pending,
            self.base,
            at,
            bytes.len(),
        );
        self.seen.write(at, bytes);
    }

    /// Whether no byte is pending.
    pub fn is_settled(&self) -> bool
        ensures { IsTrue result ↔ IsSettled self.now }
    {
        is_unmarked(&self.pending)
    }

    /// Makes what a crash leaves stable. A sync does so too, as a crash that keeps pending bytes.
    pub fn settle(&mut self, pick: Pick)
        ensures { self.new ≡ settled pick self.old }
    {
        let end = self.base + self.synced.len();
        settle_part(
            &mut self.seen,
            &self.synced,
            &self.pending,
            self.base,
            end,
            pick,
        );
        self.synced.clear();
        self.pending.clear();
    }

    /// Sets the byte at `at`, stable.
    pub fn poke(&mut self, at: usize, byte: u8)
        requires { at < length self.old.seen }
        ensures { self.new ≡ poked at byte self.old }
    {
        self.base = cover(
            &self.seen,
            &mut self.synced,
            &mut self.pending,
            self.base,
            at,
            at + 1,
        );
        let place = at - self.base;
        self.seen.set(at, byte);
        self.synced[place] = byte;
        self.pending[place] = false;
    }
}

// Lets the part have so many places from `at` on, each of them pending, and says where it begins.
fn reach(
    seen: &Front,
    synced: &mut Vec<u8>,
    pending: &mut Vec<bool>,
    base: usize,
    at: usize,
    count: usize,
) -> usize
    requires even { length pending.old.items ≡ length synced.old.items }
    requires within { base + length synced.old.items ≤ length seen.now }
    requires fits { at + count ≤ length seen.now }
    requires room { length seen.now ≤ vec_capacity synced.old }
    requires marks_room { length seen.now ≤ vec_capacity pending.old }
    ensures written { (bytes : List ℕ) → length bytes ≡ count → whole result (overwritten at bytes seen.now) synced.new.items pending.new.items ≡ written at bytes (whole base seen.now synced.old.items pending.old.items) }
    ensures even { length pending.new.items ≡ length synced.new.items }
    ensures within { result + length synced.new.items ≤ length seen.now }
    ensures room { vec_capacity synced.old ≤ vec_capacity synced.new }
    ensures marks_room { vec_capacity pending.old ≤ vec_capacity pending.new }
{
    if synced.is_empty() {
        seen.copy(at, count, synced);
        pending.resize(count, true).unwrap();
        return at;
    }
    reach_more(seen, synced, pending, base, at, count)
}

// The same, whatever the part has.
#[inline(never)]
fn reach_more(
    seen: &Front,
    synced: &mut Vec<u8>,
    pending: &mut Vec<bool>,
    base: usize,
    at: usize,
    count: usize,
) -> usize
    requires even { length pending.old.items ≡ length synced.old.items }
    requires within { base + length synced.old.items ≤ length seen.now }
    requires fits { at + count ≤ length seen.now }
    requires room { length seen.now ≤ vec_capacity synced.old }
    requires marks_room { length seen.now ≤ vec_capacity pending.old }
    ensures written { (bytes : List ℕ) → length bytes ≡ count → whole result (overwritten at bytes seen.now) synced.new.items pending.new.items ≡ written at bytes (whole base seen.now synced.old.items pending.old.items) }
    ensures even { length pending.new.items ≡ length synced.new.items }
    ensures within { result + length synced.new.items ≤ length seen.now }
    ensures room { vec_capacity synced.old ≤ vec_capacity synced.new }
    ensures marks_room { vec_capacity pending.old ≤ vec_capacity pending.new }
{
    let from = cover(seen, synced, pending, base, at, at + count);
    mark_range(pending, at - from, count);
    from
}

// Lets the part begin at `at` or before it and reach to `end`, and says where it begins.
fn cover(
    seen: &Front,
    synced: &mut Vec<u8>,
    pending: &mut Vec<bool>,
    base: usize,
    at: usize,
    end: usize,
) -> usize
    requires even { length pending.old.items ≡ length synced.old.items }
    requires within { base + length synced.old.items ≤ length seen.now }
    requires ordered { at ≤ end }
    requires fits { end ≤ length seen.now }
    requires room { length seen.now ≤ vec_capacity synced.old }
    requires marks_room { length seen.now ≤ vec_capacity pending.old }
    ensures same { whole result seen.now synced.new.items pending.new.items ≡ whole base seen.now synced.old.items pending.old.items }
    ensures even { length pending.new.items ≡ length synced.new.items }
    ensures within { result + length synced.new.items ≤ length seen.now }
    ensures from { result ≤ at }
    ensures to { end ≤ result + length synced.new.items }
    ensures room { vec_capacity synced.old ≤ vec_capacity synced.new }
    ensures marks_room { vec_capacity pending.old ≤ vec_capacity pending.new }
{
    let from = cover_front(seen, synced, pending, base, at);
    cover_back(seen, synced, pending, from, end);
    from
}

// Lets the part begin at `at` or before it, and says where it begins.
fn cover_front(
    seen: &Front,
    synced: &mut Vec<u8>,
    pending: &mut Vec<bool>,
    base: usize,
    at: usize,
) -> usize
    requires even { length pending.old.items ≡ length synced.old.items }
    requires within { base + length synced.old.items ≤ length seen.now }
    requires fits { at ≤ length seen.now }
    requires room { length seen.now ≤ vec_capacity synced.old }
    requires marks_room { length seen.now ≤ vec_capacity pending.old }
    ensures same { whole result seen.now synced.new.items pending.new.items ≡ whole base seen.now synced.old.items pending.old.items }
    ensures even { length pending.new.items ≡ length synced.new.items }
    ensures within { result + length synced.new.items ≤ length seen.now }
    ensures from { result ≤ at }
    ensures room { vec_capacity synced.old ≤ vec_capacity synced.new }
    ensures marks_room { vec_capacity pending.old ≤ vec_capacity pending.new }
{
    if synced.is_empty() {
        return at;
    }
    if base <= at {
        return base;
    }
    put_front(synced, seen, at, base - at);
    clear_front(pending, base - at);
    at
}

// Lets the part reach to `end`.
fn cover_back(seen: &Front, synced: &mut Vec<u8>, pending: &mut Vec<bool>, base: usize, end: usize)
    requires even { length pending.old.items ≡ length synced.old.items }
    requires within { base + length synced.old.items ≤ length seen.now }
    requires fits { end ≤ length seen.now }
    requires room { length seen.now ≤ vec_capacity synced.old }
    requires marks_room { length seen.now ≤ vec_capacity pending.old }
    ensures same { whole base seen.now synced.new.items pending.new.items ≡ whole base seen.now synced.old.items pending.old.items }
    ensures even { length pending.new.items ≡ length synced.new.items }
    ensures within { base + length synced.new.items ≤ length seen.now }
    ensures to { end ≤ base + length synced.new.items }
    ensures room { vec_capacity synced.old ≤ vec_capacity synced.new }
    ensures marks_room { vec_capacity pending.old ≤ vec_capacity pending.new }
{
    let from = base + synced.len();
    if from < end {
        seen.copy(from, end - from, synced);
        pending.resize(end - base, false).unwrap();
    }
}

// Puts so many bytes from `at` on before the others.
fn put_front(to: &mut Vec<u8>, seen: &Front, at: usize, count: usize)
    requires fits { at + count ≤ length seen.now }
    requires room { length to.old.items + count ≤ vec_capacity to.old }
    ensures items { to.new.items ≡ take count (drop at seen.now) ++ to.old.items }
    ensures room { vec_capacity to.old ≤ vec_capacity to.new }
{
    seen.copy(at, count, to);
    to.rotate_right(count);
}

// Puts so many marks, none set, before the others.
fn clear_front(to: &mut Vec<bool>, count: usize)
    requires { length to.old.items + count ≤ vec_capacity to.old }
    ensures items { to.new.items ≡ copies count false ++ to.old.items }
    ensures room { vec_capacity to.old ≤ vec_capacity to.new }
{
    let len = to.len();
    to.resize(len + count, false).unwrap();
    to.rotate_right(count);
}

// Marks so many places from `at` on.
#[tactic(auto, unfolding(crate::specs::Disk::copies))]
fn mark_range(to: &mut [bool], at: usize, count: usize)
    requires { at + count ≤ length to.old }
    ensures { to.new ≡ marked at count to.old }
{
    to[at..at + count].fill(true);
}

// Whether no mark is set.
fn is_unmarked(marks: &[bool]) -> bool
    ensures { IsTrue result ↔ ((i : ℕ) → get_or marks.now i false ≡ false) }
{
    for i in 0..marks.len() {
        if marks[i] {
            return false;
        }
    }
    true
}

// What a crash leaves at a place that reads as `now` and was `old` at the last sync.
fn left_byte(pick: Pick, place: usize, now: u8, old: u8, pending: bool) -> u8
    ensures { result ≡ (if pending then picked pick place now old else old) }
{
    if !pending {
        return old;
    }
    match pick {
        Pick::Keep => now,
        Pick::Lose => old,
        Pick::Tear => { if place % 2 == 0 { now } else { old } }
        Pick::Junk => 0xA5,
    }
}

// Lets the device read as a crash leaves it. A pick that keeps pending bytes leaves what is read.
fn settle_part(
    seen: &mut Front,
    synced: &[u8],
    pending: &[bool],
    base: usize,
    end: usize,
    pick: Pick,
)
    requires even { length pending.now ≡ length synced.now }
    requires part { end ≡ base + length synced.now }
    requires within { end ≤ length seen.old }
    requires sound { IsSound (whole base seen.old synced.now pending.now) }
    ensures { seen.new ≡ (settled pick (whole base seen.old synced.now pending.now)).seen }
{
    if let Pick::Keep = pick {
        return;
    }
    for i in base..end {
        seen.set(
            i,
            left_byte(pick, i, seen.get(i), synced[i - base], pending[i - base]),
        );
    }
}
