//! The records of a log as their bytes: those of its groups, with a mark for each group, and those of the tail behind them.

ghost use Rattle.std.specs.Prelude.{◌≡◌, ◌≢◌, [], ◌+◌, ◌^◌, ◌<◌, ◌≤◌, drop, length, slice_get, Some, IfOk, IsOk, OnOk};
ghost use Rattle.std.specs.List.{list_any};
ghost use Rattle.sd_logrec.specs.Kept.{spelled};
ghost use Rattle.sd_logrec.specs.Spelling.{HasSpelling, spelling};
ghost use Rattle.sd_logrec.specs.View.{is_commit_of};
ghost use Rattle.sd_log.specs.declared.placed.Placed.{Placed};
ghost use Rattle.sd_log.specs.Logs.{AreSpelled, IsBoundary, IsStartFor, last_lsn, lsn_of, placed_groups};
ghost use Rattle.sd_log.specs.Parts.{text_of};
ghost use Rattle.sd_log.specs.WrittenStates.{Forgets, WrittenState, all_in, closed, dropped, greatest_in, put};

use crate::journal::{Journal, WIDE};
use crate::marks::Marks;
use crate::placed::Placed;
use crate::spellings::Spellings;
use sd_base::{Lsn, Memory, TxnId};
use sd_logrec::{AREA_LEN, GROUP_HEAD, Lent};
use std::alloc::Global;
use std::marker::Model;

/// The groups from `start` to `gate` and the records of the tail. `room` is how many records more find memory, each with
/// a mark of its own.
#[derive(Drop)]
pub struct Written {
    marks: Marks,
    records: Spellings,
    room: usize,
}

impl Model for Written {
    ghost use Rattle.sd_log.specs.WrittenStates.{WrittenState};

    ghost Value = { WrittenState };

    ghost use Rattle.sd_log.specs.WrittenInside.{written_view, IsWritten};

    ghost view = { written_view };

    ghost invariant = { IsWritten };
}

impl Written {
    /// A log that begins at this place and has nothing in it. It takes no memory.
    pub fn new(alloc: Global, start: u32) -> Self
        ensures { result ≡ record { start = start; gate = start; groups = []; tail = []; text = 0; room = 0 } }
    {
        Written {
            marks: Marks::new(alloc, start),
            records: Spellings::new(alloc),
            room: 0,
        }
    }

    /// The groups that were read, and the bytes of their records.
    pub fn of(alloc: Global, read: Journal, text: Vec<u8>) -> Result<Self, Memory>
        requires none { read.tail ≡ [] }
        requires spelled { AreSpelled (placed_groups read.groups) }
        requires text { text.items ≡ text_of read.groups }
        requires within { read.start + length (text_of read.groups) ≤ read.gate }
        requires gate { read.gate < 2 ^ 32 }
        ensures start { IfOk result (λ w. w.start ≡ read.start) }
        ensures gate { IfOk result (λ w. w.gate ≡ read.gate) }
        ensures groups { IfOk result (λ w. w.groups ≡ read.groups) }
        ensures tail { IfOk result (λ w. w.tail ≡ []) }
    {
        let (marks, placed) = read.into_parts();
        let records = Spellings::of(alloc, text, &placed)?;
        Ok(Written {
            marks,
            records,
            room: 0,
        })
    }

    /// The place of the next gate.
    pub fn gate(&self) -> u32
        ensures { result ≡ self.now.gate }
    {
        self.marks.gate()
    }

    /// How many records there are.
    pub fn len(&self) -> usize
        ensures { result ≡ length (all_in self.now) }
    {
        self.records.len()
    }

    /// The LSN of the last record, or 0.
    pub fn last_lsn(&self) -> Lsn
        ensures { result ≡ last_lsn (all_in self.now) }
    {
        let len = self.records.len();
        if len == 0 {
            return 0;
        }
        self.records.lsn(len - 1)
    }

    /// The greatest boundary of groups before which each record has an LSN below `low`.
    pub fn start_for(&self, low: Lsn) -> u32
        ensures exact { IsStartFor low self.now.groups self.now.gate result }
        ensures start { self.now.start ≤ result }
    {
        self.marks.start_for(low)
    }

    /// The bytes of the tail's records.
    pub fn tail(&self) -> &[u8]
        ensures { result.now ≡ spelled self.now.tail }
    {
        self.records.from(self.marks.forced())
    }

    /// Makes room for so many records more, of so many bytes in all.
    pub fn reserve(&mut self, text: usize, room: usize) -> Result<(), Memory>
        requires small { (text < 2 ^ 32) × (room < 2 ^ 32) }
        ensures same { self.new ≡ record self.old { text = self.new.text; room = self.new.room } }
        ensures ok { OnOk result ((text ≤ self.new.text) × (room ≤ self.new.room)) }
        ensures stays { (self.old.text ≤ self.new.text) × (self.old.room ≤ self.new.room) }
        ensures there { text ≤ self.old.text → room ≤ self.old.room → IsOk result }
    {
        if room <= self.room {
            return self.records.reserve(text, 0);
        }
        self.widen(text, room)
    }

    // Takes memory for all that the area still has room for, or for more than that.
    #[inline(never)]
    fn widen(&mut self, text: usize, room: usize) -> Result<(), Memory>
        requires more { self.old.room < room }
        requires small { (text < 2 ^ 32) × (room < 2 ^ 32) }
        ensures same { self.new ≡ record self.old { text = self.new.text; room = self.new.room } }
        ensures ok { OnOk result ((text ≤ self.new.text) × (room ≤ self.new.room)) }
        ensures stays { (self.old.text ≤ self.new.text) × (self.old.room ≤ self.new.room) }
    {
        let wide = room.max(WIDE);
        let rest = (AREA_LEN as usize).saturating_sub(self.marks.gate() as usize);
        self.records.reserve(text.max(rest), wide)?;
        self.marks.reserve(wide + 1)?;
        self.room = wide;
        Ok(())
    }

    /// Puts a record at the end of the tail, without memory. `place` is where it comes to stand.
    pub fn push(&mut self, rec: &Lent, place: u32)
        requires fits { HasSpelling rec.now }
        requires text { length (spelling rec.now) ≤ self.old.text }
        requires room { 1 ≤ self.old.room }
        requires place { place ≡ self.old.gate + GROUP_HEAD + length (spelled self.old.tail) }
        requires fits_area { place < 2 ^ 32 }
        ensures record { self.new ≡ put rec.now self.new.text self.old }
        ensures text { self.old.text ≤ self.new.text + length (spelling rec.now) }
    {
        self.records.push(rec, place);
        self.room -= 1;
    }

    /// Makes the tail a group with a body of `len` bytes, without memory.
    pub fn close_group(&mut self, len: u32)
        requires tail { self.old.tail ≢ [] }
        requires len { len ≡ length (spelled self.old.tail) }
        requires fits { self.old.gate + GROUP_HEAD + len < 2 ^ 32 }
        ensures { self.new ≡ closed len self.old }
    {
        let from = self.marks.forced();
        let count = self.records.len() - from;
        let greatest = greatest_from(&self.records, from);
        self.marks.close(len, count, greatest);
    }

    /// Forgets the groups in front of this place, of a log without a tail, and tells how many records they had. It takes no
    /// memory.
    pub fn forget(&mut self, place: u32) -> usize
        requires bare { self.old.tail ≡ [] }
        requires boundary { IsBoundary place self.old.groups self.old.gate }
        ensures { Forgets place result self.old self.new }
    {
        let count = self.marks.forget(place);
        self.records.forget(count);
        count
    }

    /// Forgets the tail.
    pub fn drop_tail(&mut self)
        ensures rest { self.new ≡ dropped self.new.text self.new.room self.old }
        ensures room { (self.old.text ≤ self.new.text) × (self.old.room ≤ self.new.room) }
    {
        self.records.truncate(self.marks.forced());
    }

    /// The LSN of the record of this index.
    pub fn lsn(&self, index: usize) -> Lsn
        requires { index < length (all_in self.now) }
        ensures { (p : Placed) → slice_get (all_in self.now) index ≡ Some p → result ≡ lsn_of p }
    {
        self.records.lsn(index)
    }

    /// The record of this index.
    pub fn get(&self, index: usize) -> Result<Placed, Memory>
        requires { index < length (all_in self.now) }
        ensures { IfOk result (λ found. slice_get (all_in self.now) index ≡ Some found) }
    {
        let (place, rec) = self.records.get(index)?;
        Ok(Placed {
            place,
            rec,
            forced: index < self.marks.forced(),
        })
    }

    /// Whether there is a Commit of this transaction. It takes no memory.
    pub fn has_commit(&self, t: &TxnId) -> bool
        ensures { result ≡ list_any (λ p. is_commit_of t.now p.rec) (all_in self.now) }
    {
        any_commit(&self.records, t)
    }
}

// Whether one of the records is a Commit of the transaction.
fn any_commit(records: &Spellings, t: &TxnId) -> bool
    ensures { result ≡ list_any (λ e. is_commit_of t.now e.1) records.now.entries }
{
    for index in 0..records.len() {
        if records.is_commit(index, t) {
            return true;
        }
    }
    false
}

// The greatest LSN of the records from this index on, or 0.
fn greatest_from(records: &Spellings, from: usize) -> Lsn
    requires { from ≤ length records.now.entries }
    ensures { result ≡ greatest_in (drop from records.now.entries) }
{
    let mut greatest = 0;
    for index in from..records.len() {
        greatest = greatest.max(records.lsn(index));
    }
    greatest
}
