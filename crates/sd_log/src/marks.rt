//! Where the groups of a log stand, with a mark for each. It knows nothing of the records themselves.

ghost use Rattle.std.specs.Prelude.{◌≡◌, [], ◌∷◌, ◌++◌, ◌+◌, ◌^◌, ◌-◌, ◌<◌, ◌≤◌, List, drop, nat_le, nat_lt, position, take, IsOk, OnOk};
ghost use Rattle.sd_log.specs.declared.placed.Placed.{Placed};
ghost use Rattle.sd_log.specs.Logs.{IsStartFor};
ghost use Rattle.sd_log.specs.Marks.{MarksState, counted, gone_before};
ghost use Rattle.sd_log.specs.Parts.{IsParted, groups_of};

use sd_base::{Lsn, Memory};
use sd_logrec::GROUP_HEAD;
use std::alloc::Global;
use std::marker::Model;

/// A group: where it ends, how many records it has, and the greatest LSN of these.
#[derive(Clone, Copy)]
pub struct Mark {
    pub end: u32,
    pub count: usize,
    pub high: Lsn,
}

/// The groups from `start` to `gate`, and how many records they have.
#[derive(Drop)]
pub struct Marks {
    start: u32,
    gate: u32,
    marks: Vec<Mark>,
    forced: usize,
}

impl Model for Marks {
    ghost use Rattle.std.specs.Prelude.{◌-◌, vec_len, vec_capacity};
    ghost use Rattle.sd_log.specs.Marks.{MarksState};

    ghost Value = { MarksState };

    ghost view = { λ m. record { start = m.start; gate = m.gate; marks = m.marks.items; forced = m.forced; room = vec_capacity m.marks - vec_len m.marks } };
}

impl Marks {
    /// No groups yet. It takes no memory.
    pub fn new(alloc: Global, start: u32) -> Self
        ensures { result ≡ record { start = start; gate = start; marks = []; forced = 0; room = 0 } }
    {
        Marks {
            start,
            gate: start,
            marks: Vec::new(alloc),
            forced: 0,
        }
    }

    /// Where the next group's gate stands.
    pub fn gate(&self) -> u32
        ensures { result ≡ self.now.gate }
    {
        self.gate
    }

    /// How many records the groups have.
    pub fn forced(&self) -> usize
        ensures { result ≡ self.now.forced }
    {
        self.forced
    }

    /// Makes room for so many groups more.
    pub fn reserve(&mut self, room: usize) -> Result<(), Memory>
        requires { room < 2 ^ 33 }
        ensures same { self.new ≡ record self.old { room = self.new.room } }
        ensures ok { OnOk result (room ≤ self.new.room) }
        ensures stays { self.old.room ≤ self.new.room }
        ensures there { room ≤ self.old.room → IsOk result }
    {
        self.marks.reserve(room)?;
        Ok(())
    }

    /// One group more, with a body of `len` bytes and so many records, the greatest LSN of which is this one. It takes no
    /// memory.
    pub fn close(&mut self, len: u32, count: usize, greatest: Lsn)
        requires room { 1 ≤ self.old.room }
        requires fits { self.old.gate + GROUP_HEAD + len < 2 ^ 32 }
        requires few { self.old.forced + count < 2 ^ 64 }
        ensures start { self.new.start ≡ self.old.start }
        ensures gate { self.new.gate ≡ self.old.gate + GROUP_HEAD + len }
        ensures marks { self.new.marks ≡ self.old.marks ++ record { end = self.old.gate + GROUP_HEAD + len; count = count; high = greatest } ∷ [] }
        ensures forced { self.new.forced ≡ self.old.forced + count }
        ensures room { self.old.room ≤ self.new.room + 1 }
    {
        let end = self.gate + GROUP_HEAD as u32 + len;
        self.marks.push_reserved(Mark {
            end,
            count,
            high: greatest,
        });
        self.gate = end;
        self.forced += count;
    }

    /// The greatest boundary of groups before which each record has an LSN below `low`.
    pub fn start_for(&self, low: Lsn) -> u32
        ensures exact { (ps : List Placed) → IsParted self.now ps → IsStartFor low (groups_of self.now ps) self.now.gate result }
        ensures start { (ps : List Placed) → IsParted self.now ps → self.now.start ≤ result }
    {
        match first_from(&self.marks, low) {
            None => self.gate,
            Some(0) => self.start,
            Some(n) => self.marks[n - 1].end,
        }
    }

    /// Forgets the groups that end at this place or before it, and tells how many records they had. It takes no memory.
    pub fn forget(&mut self, place: u32) -> usize
        requires count { counted self.old.marks ≤ self.old.forced }
        requires few { self.old.forced < 2 ^ 64 }
        ensures count { result ≡ counted (take (gone_before place self.old.marks) self.old.marks) }
        ensures start { self.new.start ≡ place }
        ensures gate { self.new.gate ≡ self.old.gate }
        ensures marks { self.new.marks ≡ drop (gone_before place self.old.marks) self.old.marks }
        ensures forced { self.new.forced + result ≡ self.old.forced }
        ensures room { self.old.room ≤ self.new.room }
    {
        let gone = first_behind(&self.marks, place).unwrap_or(self.marks.len());
        let count = counted(&self.marks[..gone]);
        self.marks.drain(..gone);
        self.start = place;
        self.forced -= count;
        count
    }
}

// Where the first of these groups stands that has an LSN from `low` on.
fn first_from(marks: &[Mark], low: Lsn) -> Option<usize>
    ensures { result ≡ position (λ m. nat_le low m.high) marks.now }
{
    marks.iter().position(|mark| mark.high >= low)
}

// Where the first of these groups stands that ends behind this place.
fn first_behind(marks: &[Mark], place: u32) -> Option<usize>
    ensures { result ≡ position (λ m. nat_lt place m.end) marks.now }
{
    marks.iter().position(|mark| mark.end > place)
}

// How many records these groups have.
fn counted(marks: &[Mark]) -> usize
    requires { counted marks.now < 2 ^ 64 }
    ensures { result ≡ counted marks.now }
{
    let mut count = 0;
    for mark in marks {
        count += mark.count;
    }
    count
}
