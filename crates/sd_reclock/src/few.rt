//! The locks on a few records, the last that were locked, in place. They see no index and no wait.

ghost use Rattle.std.specs.Prelude.{◌≡◌, ◌&&◌, ◌+◌, ◌<◌, ◌≤◌, ◌++◌, ◌∷◌, ℕ, [], length, option_copied, slice_index_or, cond, None, Some, OnOk, OnErr, IfSome};
ghost use Rattle.std.specs.Map.{lookup};
ghost use Rattle.sd_base.specs.declared.ids.TxnId.{TxnId};
ghost use Rattle.sd_base.specs.declared.ids.Rid.{Rid};
ghost use Rattle.sd_base.specs.Ids.{same_txn, same_rid};
ghost use Rattle.sd_reclock.specs.Locks.{held_in, mode_of, raised, Agree, IsLowestOwner, IsNoStronger, Modes};
ghost use Rattle.sd_reclock.specs.Placing.{AddsNone, HasNone, IsOneEach, IsPlace};
ghost use Rattle.sd_reclock.specs.Singles.{IsSingle};

use crate::holders::{Holders, lower_of};
use sd_base::{Memory, Mode, PageNo, Rid, TxnId};
use std::alloc::Global;
use std::marker::Model;

// So many records stay in place.
const ROOM: usize = 8;

// A record with several locks stays too, up to so many records.
const MOST: usize = 16;

// Where so many further records came and none of those in place was released, only each sixteenth one finds place.
const PATIENCE: u8 = 8;

/// A record with a single lock: the place of its row, and the lock.
#[derive(Clone, Copy)]
pub struct Single {
    pub at: usize,
    pub rid: Rid,
    pub txn: TxnId,
    pub mode: Mode,
}

/// Who holds which record, of a few records. Contracts see the list of locked records, each with its holders.
#[derive(Drop)]
pub struct Few {
    rows: Vec<(Rid, Holders)>,
    // So many locks were given while there was no room, since a record was released here.
    misses: u8,
}

impl Model for Few {
    ghost use Rattle.std.specs.Prelude.{List};
    ghost use Rattle.sd_base.specs.declared.ids.TxnId.{TxnId};
    ghost use Rattle.sd_base.specs.declared.ids.Rid.{Rid};
    ghost use Rattle.sd_base.specs.declared.place.Mode.{Mode};

    ghost Value = { List (Rid × List (TxnId × Mode)) };

    ghost use Rattle.sd_reclock.specs.Placing.{IsOneEach};

    ghost view = { λ f. f.rows.items };

    ghost invariant = { λ f. IsOneEach f.rows.items };
}

impl Few {
    /// No locks. It takes no memory.
    pub fn new(alloc: Global) -> Few
        ensures { result ≡ [] }
    {
        Few {
            rows: Vec::new(alloc),
            misses: 0,
        }
    }

    /// Whether there is a place for a further record.
    pub fn has_place(&self) -> bool {
        let count = self.rows.len();
        count < ROOM || count < MOST && (self.misses < PATIENCE || self.misses % 16 == 0)
    }

    /// Notes that a lock was given, and tells whether a record is to leave. All locks stay.
    pub fn is_crowded(&mut self) -> bool
        ensures same { self.new ≡ self.old }
    {
        let count = self.rows.len();
        if count >= ROOM {
            self.misses = self.misses.wrapping_add(1);
        }
        count > ROOM
    }

    /// The record that has a single lock and was locked first.
    pub fn single(&self) -> Option<Single>
        ensures { IfSome result (IsSingle self.now) }
    {
        single_among(&self.rows)
    }

    /// Takes out the record at a place, with its locks. It takes no memory.
    pub fn take(&mut self, at: usize)
        requires inside { at < length self.old }
        ensures taken { (d : Rid × Modes) (q : Rid) → lookup (same_rid q) self.new
            ≡ cond (same_rid (slice_index_or self.old at d).0 q) None (lookup (same_rid q) self.old) }
    {
        self.rows.remove(at);
    }

    /// The locks on a record; `None` where it has none.
    pub fn get(&self, r: &Rid) -> Option<&Holders>
        ensures { option_copied result ≡ lookup (same_rid r.now) self.now }
    {
        match self.place_of(r) {
            Some(at) => Some(&self.rows[at].1),
            None => None,
        }
    }

    /// The place of a record.
    pub fn place_of(&self, r: &Rid) -> Option<usize>
        ensures { IsPlace self.now r.now result }
    {
        place_among(&self.rows, r)
    }

    /// Gives the lock on the record at a place, or raises one that is there. After `Memory` all is as before.
    pub fn raise(&mut self, at: usize, t: &TxnId, mode: Mode) -> Result<(), Memory>
        requires inside { at < length self.old }
        ensures raised { OnOk result ((d : Rid × Modes) (u : TxnId) (q : Rid) → held_in self.new u q
            ≡ cond (same_txn t.now u && same_rid (slice_index_or self.old at d).0 q)
            (Some (raised (held_in self.old t.now (slice_index_or self.old at d).0) mode)) (held_in self.old u q)) }
        ensures rows { AddsNone self.old self.new }
        ensures same { OnErr result (self.new ≡ self.old) }
    {
        self.rows[at].1.put(t, mode)
    }

    /// Gives the lock on a further record. After `Memory` all is as before.
    pub fn add(&mut self, t: &TxnId, r: &Rid, mode: Mode) -> Result<(), Memory>
        requires further { lookup (same_rid r.now) self.old ≡ None }
        ensures added { OnOk result (self.new ≡ self.old ++ (r.now, (t.now, mode) ∷ []) ∷ []) }
        ensures same { OnErr result (self.new ≡ self.old) }
    {
        let holders = Holders::of(*self.rows.allocator(), t, mode);
        self.rows.push((*r, holders))?;
        Ok(())
    }

    /// Lowers the lock on the record at a place, or takes it away. It takes no memory.
    pub fn lower(&mut self, at: usize, t: &TxnId, to: Option<Mode>)
        requires inside { at < length self.old }
        requires weaker { (d : Rid × Modes) → IsNoStronger to (held_in self.old t.now (slice_index_or self.old at d).0) }
        ensures lowered { (d : Rid × Modes) (u : TxnId) (q : Rid) → held_in self.new u q
            ≡ cond (same_txn t.now u && same_rid (slice_index_or self.old at d).0 q) to (held_in self.old u q) }
        ensures rows { AddsNone self.old self.new }
    {
        lower_at(&mut self.rows, at, t, to);
    }

    /// The lowest transaction with an `Excl` lock on a record of the page.
    pub fn owner_in(&self, p: PageNo) -> Option<TxnId>
        requires agree { Agree self.now }
        ensures { IsLowestOwner self.now p result }
    {
        owner_among(&self.rows, p)
    }

    /// Takes all locks of a transaction away. It takes no memory.
    pub fn release_all(&mut self, t: &TxnId)
        ensures released { (u : TxnId) (q : Rid) → held_in self.new u q ≡ cond (same_txn t.now u) None (held_in self.old u q) }
        ensures rows { AddsNone self.old self.new }
    {
        let count = self.rows.len();
        free_all(&mut self.rows, t);
        if self.rows.len() < count {
            self.misses = 0;
        }
    }
}

// The first row with a single lock.
fn single_among(rows: &[(Rid, Holders)]) -> Option<Single>
    requires { IsOneEach rows.now }
    ensures { IfSome result (IsSingle rows.now) }
{
    let mut at = 0;
    while at < rows.len() {
        let row = &rows[at];
        if let Some((txn, mode)) = row.1.only() {
            let rid = row.0;
            return Some(Single { at, rid, txn, mode });
        }
        at += 1;
    }
    None
}

// The place of a record.
fn place_among(rows: &[(Rid, Holders)], r: &Rid) -> Option<usize>
    ensures { IsPlace rows.now r.now result }
{
    let mut at = 0;
    while at < rows.len() {
        if rows[at].0 == *r {
            return Some(at);
        }
        at += 1;
    }
    None
}

// Takes all locks of a transaction away, from the last row on.
fn free_all(rows: &mut Vec<(Rid, Holders)>, t: &TxnId)
    requires { IsOneEach rows.old.items }
    ensures released { (u : TxnId) (q : Rid) → held_in rows.new.items u q
        ≡ cond (same_txn t.now u) None (held_in rows.old.items u q) }
    ensures rows { AddsNone rows.old.items rows.new.items }
    ensures one { IsOneEach rows.new.items }
{
    let mut at = rows.len();
    while at > 0 {
        at -= 1;
        free_at(rows, at, t);
    }
}

// Takes a transaction's lock on the record at a place away.
fn free_at(rows: &mut Vec<(Rid, Holders)>, at: usize, t: &TxnId)
    requires one { IsOneEach rows.old.items }
    requires inside { at < length rows.old.items }
    ensures lowered { (d : Rid × Modes) (u : TxnId) (q : Rid) → held_in rows.new.items u q
        ≡ cond (same_txn t.now u && same_rid (slice_index_or rows.old.items at d).0 q) None (held_in rows.old.items u q) }
    ensures rows { AddsNone rows.old.items rows.new.items }
    ensures one { IsOneEach rows.new.items }
    ensures inside { at ≤ length rows.new.items }
    ensures behind { HasNone t.now (at + 1) rows.old.items → HasNone t.now at rows.new.items }
{
    if rows[at].1.lacks(t) {
        return;
    }
    lower_at(rows, at, t, None);
}

// The lowest transaction with an `Excl` lock on a record of the page.
fn owner_among(rows: &[(Rid, Holders)], p: PageNo) -> Option<TxnId>
    requires one { IsOneEach rows.now }
    requires agree { Agree rows.now }
    ensures { IsLowestOwner rows.now p result }
{
    let mut lowest: Option<TxnId> = None;
    for row in rows {
        if row.0.page == p {
            lowest = lower_of(lowest, row.1.owner());
        }
    }
    lowest
}

// Lowers a transaction's lock on the record at a place, or takes it away. A record without locks leaves.
fn lower_at(rows: &mut Vec<(Rid, Holders)>, at: usize, t: &TxnId, to: Option<Mode>)
    requires one { IsOneEach rows.old.items }
    requires inside { at < length rows.old.items }
    requires weaker { (d : Rid × Modes) → IsNoStronger to (mode_of (slice_index_or rows.old.items at d).1 t.now) }
    ensures lowered { (d : Rid × Modes) (u : TxnId) (q : Rid) → held_in rows.new.items u q
        ≡ cond (same_txn t.now u && same_rid (slice_index_or rows.old.items at d).0 q) to (held_in rows.old.items u q) }
    ensures rows { AddsNone rows.old.items rows.new.items }
    ensures one { IsOneEach rows.new.items }
    ensures inside { at ≤ length rows.new.items }
    ensures behind { to ≡ None → HasNone t.now (at + 1) rows.old.items → HasNone t.now at rows.new.items }
{
    let holders = &mut rows[at].1;
    holders.lower(t, to);
    if holders.is_empty() {
        rows.remove(at);
    }
}
