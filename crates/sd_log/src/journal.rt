//! The records of the groups that are read, one by one, with a mark for each group, and those of the group that is being read
//! behind them.

ghost use Rattle.std.specs.Prelude.{◌≡◌, ◌≢◌, [], ◌++◌, ◌+◌, ◌-◌, ◌^◌, ◌<◌, ◌≤◌, drop, length, map, take, vec_len, vec_capacity, IsOk, OnOk};
ghost use Rattle.sd_logrec.specs.Kept.{spelled};
ghost use Rattle.sd_log.specs.JournalStates.{JournalState, pushed, settled};
ghost use Rattle.sd_log.specs.Logs.{placed_groups, placed_tail};
ghost use Rattle.sd_log.specs.Marks.{as_forced, greatest_lsn};
ghost use Rattle.sd_log.specs.Parts.{IsParted, groups_of, tail_of};

use crate::marks::Marks;
use crate::placed::Placed;
use sd_base::{Lsn, Memory};
use sd_logrec::{AREA_LEN, END_LEN, GROUP_HEAD, Record};
use std::alloc::Global;
use std::marker::Model;

/// How many records memory is taken for at once, at least: those of a full area of which none is shorter than a Commit. It is
/// touched as they come, and records are hardly ever moved to a wider place.
pub const WIDE: usize = AREA_LEN as usize / END_LEN;

/// The groups from `start` to `gate` and the records behind them. `room` is how many records more find memory, each with
/// a mark of its own.
#[derive(Drop)]
pub struct Journal {
    marks: Marks,
    placed: Vec<Placed>,
    room: usize,
}

impl Model for Journal {
    ghost use Rattle.sd_log.specs.JournalStates.{JournalState};

    ghost Value = { JournalState };

    ghost use Rattle.sd_log.specs.Journals.{journal_view, IsJournal};

    ghost view = { journal_view };

    ghost invariant = { IsJournal };
}

impl Journal {
    /// A log that begins at this place and has nothing in it. It takes no memory.
    pub fn new(alloc: Global, start: u32) -> Self
        ensures { result ≡ record { start = start; gate = start; groups = []; tail = []; room = 0 } }
    {
        Journal {
            marks: Marks::new(alloc, start),
            placed: Vec::new(alloc),
            room: 0,
        }
    }

    /// The place of the next gate.
    pub fn gate(&self) -> u32
        ensures { result ≡ self.now.gate }
    {
        self.marks.gate()
    }

    /// All records in their order.
    pub fn placed(&self) -> &[Placed]
        ensures { result.now ≡ placed_groups self.now.groups ++ placed_tail self.now.gate self.now.tail }
    {
        &self.placed
    }

    /// All records in their order, and the journal no more.
    pub fn into_placed(self) -> Vec<Placed>
        ensures { result.items ≡ placed_groups self.groups ++ placed_tail self.gate self.tail }
    {
        self.placed
    }

    /// The marks and all records, and the journal no more.
    pub fn into_parts(self) -> (Marks, Vec<Placed>)
        ensures parted { IsParted result.0 result.1.items }
        ensures start { result.0.start ≡ self.start }
        ensures gate { result.0.gate ≡ self.gate }
        ensures groups { groups_of result.0 result.1.items ≡ self.groups }
        ensures tail { tail_of result.0 result.1.items ≡ self.tail }
    {
        (self.marks, self.placed)
    }

    /// Makes room for so many records more.
    pub fn reserve(&mut self, room: usize) -> Result<(), Memory>
        requires { room < 2 ^ 32 }
        ensures same { self.new ≡ record self.old { room = self.new.room } }
        ensures ok { OnOk result (room ≤ self.new.room) }
        ensures stays { self.old.room ≤ self.new.room }
        ensures there { room ≤ self.old.room → IsOk result }
    {
        if room <= self.room {
            return Ok(());
        }
        self.widen(room)
    }

    // Takes memory for so many records more, or for more than these.
    #[inline(never)]
    fn widen(&mut self, room: usize) -> Result<(), Memory>
        requires more { self.old.room < room }
        requires small { room < 2 ^ 32 }
        ensures same { self.new ≡ record self.old { room = self.new.room } }
        ensures ok { OnOk result (room ≤ self.new.room) }
        ensures stays { self.old.room ≤ self.new.room }
    {
        let wide = room.max(WIDE);
        self.placed.reserve(wide)?;
        self.marks.reserve(wide + 1)?;
        self.room = wide;
        Ok(())
    }

    /// Puts a record behind the others, without memory. `place` is where it stands.
    pub fn push(&mut self, rec: Record, place: u32)
        requires room { 1 ≤ self.old.room }
        requires place { place ≡ self.old.gate + GROUP_HEAD + length (spelled self.old.tail) }
        ensures { self.new ≡ pushed rec self.old }
    {
        let forced = false;
        self.placed.push_reserved(Placed { place, rec, forced });
        self.room -= 1;
    }

    /// Makes the records behind the groups a group with a body of `len` bytes, without memory.
    pub fn close_group(&mut self, len: u32)
        requires tail { self.old.tail ≢ [] }
        requires fits { self.old.gate + GROUP_HEAD + len < 2 ^ 32 }
        ensures { self.new ≡ settled len self.old }
    {
        let from = self.marks.forced();
        let count = self.placed.len() - from;
        let greatest = greatest_lsn(&self.placed[from..]);
        mark_forced(&mut self.placed, from);
        self.marks.close(len, count, greatest);
    }
}

// The greatest LSN of these records, or 0.
fn greatest_lsn(placed: &[Placed]) -> Lsn
    ensures { result ≡ greatest_lsn placed.now }
{
    let mut greatest = 0;
    for p in placed {
        greatest = greatest.max(p.rec.lsn());
    }
    greatest
}

// Tells of the records from this index on that they are forced.
fn mark_forced(placed: &mut Vec<Placed>, from: usize)
    requires { from ≤ vec_len placed.old }
    ensures items { placed.new.items ≡ take from placed.old.items ++ map as_forced (drop from placed.old.items) }
    ensures len { vec_len placed.new ≡ vec_len placed.old }
    ensures capacity { vec_capacity placed.new ≡ vec_capacity placed.old }
{
    for i in from..placed.len() {
        let p = &mut placed[i];
        p.forced = true;
    }
}
