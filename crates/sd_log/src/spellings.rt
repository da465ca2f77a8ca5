//! Records as their bytes, one behind the other. A record is read of its bytes when it is asked for.

ghost use Rattle.std.specs.Prelude.{◌≡◌, [], ◌∷◌, ◌++◌, ◌+◌, ◌^◌, ◌<◌, ◌≤◌, ℕ, drop, length, map, slice_get, take, Some, IfOk, IsOk, OnOk};
ghost use Rattle.sd_logrec.specs.declared.record.Record.{Record};
ghost use Rattle.sd_logrec.specs.Kept.{spelled};
ghost use Rattle.sd_logrec.specs.Spelling.{HasSpelling, spelling};
ghost use Rattle.sd_logrec.specs.View.{flat, is_commit_of};
ghost use Rattle.sd_log.specs.Logs.{AreSpelled};
ghost use Rattle.sd_log.specs.Marks.{entry};
ghost use Rattle.sd_log.specs.Parts.{record_of};
ghost use Rattle.sd_log.specs.Spellings.{SpellingsState, record_in};
ghost use Rattle.sd_log.specs.SpellingsInside.{AreSlots, at_slots, lowered};
ghost use Rattle.sd_log.specs.declared.spellings.Slot.{Slot};

use crate::placed::Placed;
use sd_base::{Lsn, Memory, TxnId};
use sd_logrec::{Lent, Record};
use std::alloc::Global;
use std::marker::Model;

/// Where the bytes of a record begin, its place in the area, and its LSN.
#[derive(Clone, Copy)]
pub struct Slot {
    pub lsn: Lsn,
    pub place: u32,
    pub at: u32,
}

/// Records, each with its place in the area.
#[derive(Drop)]
pub struct Spellings {
    bytes: Vec<u8>,
    slots: Vec<Slot>,
}

impl Model for Spellings {
    ghost use Rattle.sd_log.specs.Spellings.{SpellingsState};

    ghost Value = { SpellingsState };

    ghost use Rattle.sd_log.specs.SpellingsInside.{spellings_view, IsSpellings};

    ghost view = { spellings_view };

    ghost invariant = { IsSpellings };
}

impl Spellings {
    /// No records. It takes no memory.
    pub fn new(alloc: Global) -> Self
        ensures { result ≡ record { entries = []; text = 0; room = 0 } }
    {
        Spellings {
            bytes: Vec::new(alloc),
            slots: Vec::new(alloc),
        }
    }

    /// These records, of which this is the text.
    pub fn of(alloc: Global, text: Vec<u8>, placed: &[Placed]) -> Result<Self, Memory>
        requires spelled { AreSpelled placed.now }
        requires text { text.items ≡ spelled (map record_of placed.now) }
        requires small { length text.items < 2 ^ 32 }
        ensures { IfOk result (λ s. s.entries ≡ map entry placed.now) }
    {
        let slots = slots_of(alloc, placed)?;
        Ok(Spellings { bytes: text, slots })
    }

    /// How many records there are.
    pub fn len(&self) -> usize
        ensures { result ≡ length self.now.entries }
    {
        self.slots.len()
    }

    /// The bytes of the records from this index on.
    pub fn from(&self, index: usize) -> &[u8]
        requires { index ≤ length self.now.entries }
        ensures { result.now ≡ spelled (map record_in (drop index self.now.entries)) }
    {
        let at = start_of(&self.slots, index, self.bytes.len());
        let (_, rest) = self.bytes.split_at(at);
        rest
    }

    /// Makes room for so many records more, of so many bytes in all.
    pub fn reserve(&mut self, text: usize, room: usize) -> Result<(), Memory>
        requires small { (text < 2 ^ 32) × (room < 2 ^ 32) }
        ensures same { self.new ≡ record { entries = self.old.entries; text = self.new.text; room = self.new.room } }
        ensures ok { OnOk result ((text ≤ self.new.text) × (room ≤ self.new.room)) }
        ensures stays { (self.old.text ≤ self.new.text) × (self.old.room ≤ self.new.room) }
        ensures there { text ≤ self.old.text → room ≤ self.old.room → IsOk result }
    {
        self.bytes.reserve(text)?;
        self.slots.reserve(room)?;
        Ok(())
    }

    /// Puts a record behind the others, without memory.
    pub fn push(&mut self, rec: &Lent, place: u32)
        requires fits { HasSpelling rec.now }
        requires text { length (spelling rec.now) ≤ self.old.text }
        requires room { 1 ≤ self.old.room }
        requires small { length (spelled (map record_in self.old.entries)) < 2 ^ 32 }
        ensures entries { self.new.entries ≡ self.old.entries ++ (place, rec.now) ∷ [] }
        ensures text { self.old.text ≤ self.new.text + length (spelling rec.now) }
        ensures room { self.old.room ≤ self.new.room + 1 }
    {
        let at = self.bytes.len() as u32;
        let lsn = rec.lsn();
        self.slots.push_reserved(Slot { lsn, place, at });
        rec.write(&mut self.bytes);
    }

    /// Forgets all records but the first `count`.
    pub fn truncate(&mut self, count: usize)
        ensures entries { self.new.entries ≡ take count self.old.entries }
        ensures text { self.old.text ≤ self.new.text }
        ensures room { self.old.room ≤ self.new.room }
    {
        if count < self.slots.len() {
            let at = self.slots[count].at as usize;
            self.bytes.truncate(at);
            self.slots.truncate(count);
        }
    }

    /// Forgets the first `count` records. It takes no memory.
    pub fn forget(&mut self, count: usize)
        requires there { count ≤ length self.old.entries }
        requires small { length (spelled (map record_in self.old.entries)) < 2 ^ 32 }
        ensures entries { self.new.entries ≡ drop count self.old.entries }
        ensures text { self.old.text ≤ self.new.text }
        ensures room { self.old.room ≤ self.new.room }
    {
        let at = start_of(&self.slots, count, self.bytes.len());
        self.bytes.drain(..at);
        self.slots.drain(..count);
        lower(&mut self.slots, at as u32);
    }

    /// The LSN of the record of this index.
    pub fn lsn(&self, index: usize) -> Lsn
        requires { index < length self.now.entries }
        ensures { (e : ℕ × Record) → slice_get self.now.entries index ≡ Some e → result ≡ (flat e.1).lsn }
    {
        self.slots[index].lsn
    }

    /// The record of this index, and its place.
    pub fn get(&self, index: usize) -> Result<(u32, Record), Memory>
        requires { index < length self.now.entries }
        ensures { IfOk result (λ e. slice_get self.now.entries index ≡ Some e) }
    {
        let alloc = *self.bytes.allocator();
        let slot = self.slots[index];
        match Record::take(alloc, &self.bytes, slot.at as usize) {
            Ok((rec, _)) => Ok((slot.place, rec)),
            Err(_) => Err(Memory),
        }
    }

    /// Whether the record of this index is a Commit of the transaction. It takes no memory.
    pub fn is_commit(&self, index: usize, t: &TxnId) -> bool
        requires { index < length self.now.entries }
        ensures { (e : ℕ × Record) → slice_get self.now.entries index ≡ Some e → result ≡ is_commit_of t.now e.1 }
    {
        Record::is_commit_at(&self.bytes, self.slots[index].at as usize, t)
    }
}

// Where the bytes of the record of this index begin; where there is none, this end.
fn start_of(slots: &[Slot], index: usize, end: usize) -> usize
    ensures slot { (s : Slot) → slice_get slots.now index ≡ Some s → result ≡ s.at }
    ensures end { length slots.now ≤ index → result ≡ end }
{
    if index < slots.len() {
        slots[index].at as usize
    } else {
        end
    }
}

// Where the bytes of each record begin.
fn slots_of(alloc: Global, placed: &[Placed]) -> Result<Vec<Slot>, Memory>
    requires spelled { AreSpelled placed.now }
    requires small { length (spelled (map record_of placed.now)) < 2 ^ 32 }
    ensures slots { IfOk result (λ slots. AreSlots 0 slots.items (map record_of placed.now)) }
    ensures entries { IfOk result (λ slots. at_slots slots.items (map record_of placed.now) ≡ map entry placed.now) }
{
    let mut slots = Vec::with_capacity(alloc, placed.len())?;
    let mut at = 0;
    for p in placed {
        slots.push_reserved(Slot {
            lsn: p.rec.lsn(),
            place: p.place,
            at: at as u32,
        });
        at += p.rec.len();
    }
    Ok(slots)
}

// Tells slots of records of which so many bytes in front are gone.
fn lower(slots: &mut [Slot], gone: u32)
    ensures { slots.new ≡ map (lowered gone) slots.old }
{
    for slot in slots.iter_mut() {
        slot.at = slot.at.saturating_sub(gone);
    }
}
