//! The locks on records, and an index from a transaction to its records. They see no wait.

ghost use Rattle.std.specs.Prelude.{◌≡◌, ◌⊎◌, ◌+◌, ◌||◌, ◌&&◌, [], ℕ, None, Some, cond, option_copied, slice_index_or, true, false, IsTrue, IfOk, OnOk, OnErr};
ghost use Rattle.std.specs.List.{list_any};
ghost use Rattle.std.specs.Map.{lookup};
ghost use Rattle.std.specs.declared.ops.Bound.TheVariants.{Excluded, Unbounded};
ghost use Rattle.sd_base.specs.declared.ids.TxnId.{TxnId};
ghost use Rattle.sd_base.specs.declared.ids.Rid.{Rid};
ghost use Rattle.sd_base.specs.Ids.{same_txn, same_rid};
ghost use Rattle.sd_reclock.specs.Waiting.{wait_of};
ghost use Rattle.sd_reclock.specs.Locks.{held_in, raised, Agree, IsLowestOwner, IsNoStronger, StandsIn};
ghost use Rattle.sd_reclock.specs.Answers.{IsFree};
ghost use Rattle.sd_reclock.specs.Indexing.{names, IsIndexed};
ghost use Rattle.sd_reclock.specs.Marking.{AreMarked};

use crate::Asked;
use crate::holders::{Holders, lower_of};
use sd_base::{Memory, Mode, PAGES, PageNo, Rid, TxnId};
use std::alloc::Global;
use std::collections::BTreeMap;
use std::marker::Model;
use std::ops::Bound;

// One mark a page.
const MARKS: usize = PAGES as usize;

/// Who holds which record, of any number of records. Contracts see the list of locked records, each with its holders.
#[derive(Drop)]
pub struct Many {
    records: BTreeMap<Rid, Holders>,
    // It may name a record too many, after a want of memory, and never one too few.
    index: BTreeMap<TxnId, Vec<Rid>>,
    // Lists of transactions that ended, whose room others use again. There is room for all that are in use.
    spare: Vec<Vec<Rid>>,
    // Of each page whether a record of it may be here.
    pages: [bool; MARKS],
    alloc: Global,
}

impl Model for Many {
    ghost use Rattle.std.specs.Prelude.{List};
    ghost use Rattle.sd_base.specs.declared.ids.TxnId.{TxnId};
    ghost use Rattle.sd_base.specs.declared.ids.Rid.{Rid};
    ghost use Rattle.sd_base.specs.declared.place.Mode.{Mode};

    ghost Value = { List (Rid × List (TxnId × Mode)) };

    ghost use Rattle.sd_reclock.specs.Indexing.{IsIndexed};
    ghost use Rattle.sd_reclock.specs.Locks.{Agree};
    ghost use Rattle.sd_reclock.specs.Marking.{AreMarked};

    ghost view = { λ l. l.records.entries };

    ghost invariant = { λ l. IsIndexed l.records.entries l.index.entries × Agree l.records.entries × AreMarked l.records.entries l.pages };
}

impl Many {
    /// No locks. It takes no memory.
    pub fn new(alloc: Global) -> Many
        ensures { result ≡ [] }
    {
        Many {
            records: BTreeMap::new(alloc),
            index: BTreeMap::new(alloc),
            spare: Vec::new(alloc),
            pages: [false; MARKS],
            alloc,
        }
    }

    /// The locks on a record; `None` where it has none.
    pub fn get(&self, r: &Rid) -> Option<&Holders>
        ensures found { option_copied result ≡ lookup (same_rid r.now) self.now }
        ensures agree { Agree self.now }
    {
        self.records.get(r)
    }

    /// Whether nobody has a lock on the record. Where nobody has one in its page, it looks at no record.
    pub fn is_unlocked(&self, r: &Rid) -> bool
        ensures { IsTrue result → (u : TxnId) → held_in self.now u r.now ≡ None }
    {
        if self.pages[r.page.get() as usize] {
            self.get(r).is_none()
        } else {
            true
        }
    }

    /// Gives the lock, or raises one that is there. After `Memory` the locks are as before.
    pub fn put(&mut self, t: &TxnId, wait: &Asked) -> Result<(), Memory>
        requires free { IsFree (StandsIn self.old) t.now (wait_of wait.now) }
        ensures put { OnOk result ((u : TxnId) (q : Rid) → held_in self.new u q ≡ cond (same_txn t.now u && same_rid wait.now.rid q)
            (Some (raised (held_in self.old t.now wait.now.rid) wait.now.mode)) (held_in self.old u q)) }
        ensures agree { Agree self.new }
        ensures same { OnErr result (self.new ≡ self.old) }
    {
        mark(&mut self.pages, wait.rid.page);
        put(
            self.alloc,
            &mut self.records,
            &mut self.index,
            &mut self.spare,
            t,
            wait,
        )
    }

    /// Lowers a lock, or takes it away. It takes no memory.
    pub fn lower(&mut self, t: &TxnId, r: &Rid, to: Option<Mode>)
        requires weaker { IsNoStronger to (held_in self.old t.now r.now) }
        ensures lowered { (u : TxnId) (q : Rid) → held_in self.new u q
            ≡ cond (same_txn t.now u && same_rid r.now q) to (held_in self.old u q) }
        ensures agree { Agree self.new }
    {
        lower(&mut self.records, t, r, to);
        unname(&mut self.index, t, r, to);
    }

    /// The lowest transaction with an `Excl` lock on a record of the page.
    pub fn owner_in(&self, p: PageNo) -> Option<TxnId>
        ensures { IsLowestOwner self.now p result }
    {
        let from = Bound::Included(Rid { page: p, slot: 0 });
        let mut lowest: Option<TxnId> = None;
        for (rid, holders) in self.records.range((from, end_of(p))) {
            if rid.page == p {
                lowest = lower_of(lowest, holders.owner());
            }
        }
        lowest
    }

    /// Takes all locks of a transaction away. It takes no memory.
    pub fn release_all(&mut self, t: &TxnId)
        ensures released { (u : TxnId) (q : Rid) → held_in self.new u q ≡ cond (same_txn t.now u) None (held_in self.old u q) }
        ensures agree { Agree self.new }
    {
        if let Some(rids) = self.index.remove(t) {
            release_each(&mut self.records, t, &rids);
            keep(&mut self.spare, rids);
            unmark(&self.records, &mut self.pages);
        }
    }
}

// Marks the page.
fn mark(pages: &mut [bool; MARKS], p: PageNo)
    ensures marked { slice_index_or pages.new p false ≡ true }
    ensures more { (q : ℕ) → slice_index_or pages.new q false ≡ false → slice_index_or pages.old q false ≡ false }
{
    pages[p.get() as usize] = true;
}

// Takes all marks away where there are no records.
fn unmark(records: &BTreeMap<Rid, Holders>, pages: &mut [bool; MARKS])
    ensures { AreMarked records.now.entries pages.old → AreMarked records.now.entries pages.new }
{
    if records.is_empty() {
        *pages = [false; MARKS];
    }
}

// Where the records of the page end.
fn end_of(p: PageNo) -> Bound<Rid>
    ensures { (result ≡ Unbounded) ⊎ (result ≡ Excluded (record { page = p + 1; slot = 0 })) }
{
    match PageNo::new(p.get() + 1) {
        Some(page) => Bound::Excluded(Rid { page, slot: 0 }),
        None => Bound::Unbounded,
    }
}

// Names the record at the transaction, unless it had it. After `Memory` the index is as before.
fn name(
    alloc: Global,
    index: &mut BTreeMap<TxnId, Vec<Rid>>,
    spare: &mut Vec<Vec<Rid>>,
    t: &TxnId,
    r: &Rid,
    had: bool,
) -> Result<(), Memory>
    requires had { IsTrue had → names index.old.entries t.now r.now ≡ true }
    ensures named { OnOk result ((u : TxnId) (q : Rid) → names index.new.entries u q
        ≡ (names index.old.entries u q || (same_txn t.now u && same_rid q r.now))) }
    ensures same { OnErr result ((u : TxnId) (q : Rid) → names index.new.entries u q ≡ names index.old.entries u q) }
{
    if had {
        return Ok(());
    }
    if let Some(rids) = index.get_mut(t) {
        rids.push(*r)?;
        return Ok(());
    }
    let mut rids = emptied(alloc, spare, index.len())?;
    rids.push(*r)?;
    index.insert(*t, rids)?;
    Ok(())
}

// A list without records, for one more transaction beside so many.
fn emptied(alloc: Global, spare: &mut Vec<Vec<Rid>>, beside: usize) -> Result<Vec<Rid>, Memory>
    ensures { IfOk result (λ rids. rids.items ≡ []) }
{
    match spare.pop() {
        Some(mut rids) => {
            rids.clear();
            Ok(rids)
        }
        None => {
            spare.reserve(beside.saturating_add(1))?;
            Ok(Vec::new(alloc))
        }
    }
}

// Keeps the list's room for another transaction. It takes no memory.
fn keep(spare: &mut Vec<Vec<Rid>>, rids: Vec<Rid>) {
    if spare.len() < spare.capacity() {
        let _kept = spare.push(rids);
    }
}

// Takes the record's name from the transaction's, where the lock is taken away and it was the last that was named:
// so it is where a call takes back what it gave. It takes no memory.
fn unname(index: &mut BTreeMap<TxnId, Vec<Rid>>, t: &TxnId, r: &Rid, to: Option<Mode>)
    ensures { (u : TxnId) (q : Rid) → names index.new.entries u q ≡ false
        → (names index.old.entries u q ≡ false) ⊎ ((to ≡ None) × (t.now ≡ u) × (q ≡ r.now)) }
{
    match to {
        Some(_) => return,
        None => {
            if let Some(rids) = index.get_mut(t) {
                if let Some(last) = rids.last().copied() {
                    if last == *r {
                        rids.pop();
                    }
                }
            }
        }
    }
}

// Names the record at the transaction, and gives the lock, or raises one that is there. After `Memory` the records are as
// before.
fn put(
    alloc: Global,
    records: &mut BTreeMap<Rid, Holders>,
    index: &mut BTreeMap<TxnId, Vec<Rid>>,
    spare: &mut Vec<Vec<Rid>>,
    t: &TxnId,
    wait: &Asked,
) -> Result<(), Memory>
    requires { IsIndexed records.old.entries index.old.entries }
    ensures put { OnOk result ((u : TxnId) (q : Rid) → held_in records.new.entries u q ≡ cond (same_txn t.now u && same_rid wait.now.rid q)
        (Some (raised (held_in records.old.entries t.now wait.now.rid) wait.now.mode)) (held_in records.old.entries u q)) }
    ensures same { OnErr result (records.new.entries ≡ records.old.entries) }
    ensures more { (u : TxnId) (q : Rid) → names index.new.entries u q ≡ false → names index.old.entries u q ≡ false }
    ensures named { OnOk result ((u : TxnId) (q : Rid) → names index.new.entries u q
        ≡ (names index.old.entries u q || (same_txn t.now u && same_rid q wait.now.rid))) }
{
    if let Some(holders) = records.get_mut(&wait.rid) {
        let had = holders.mode_of(t).is_some();
        name(alloc, index, spare, t, &wait.rid, had)?;
        return holders.put(t, wait.mode);
    }
    name(alloc, index, spare, t, &wait.rid, false)?;
    records.insert(wait.rid, Holders::of(alloc, t, wait.mode))?;
    Ok(())
}

// Takes a transaction's locks on these records away.
fn release_each(records: &mut BTreeMap<Rid, Holders>, t: &TxnId, rids: &[Rid])
    ensures { (u : TxnId) (q : Rid) → held_in records.new.entries u q
        ≡ cond (same_txn t.now u && list_any (same_rid q) rids.now) None (held_in records.old.entries u q) }
{
    for rid in rids {
        lower(records, t, rid, None);
    }
}

// Lowers a transaction's lock on a record, or takes it away. A record without locks leaves the table.
fn lower(records: &mut BTreeMap<Rid, Holders>, t: &TxnId, r: &Rid, to: Option<Mode>)
    requires weaker { IsNoStronger to (held_in records.old.entries t.now r.now) }
    ensures { (u : TxnId) (q : Rid) → held_in records.new.entries u q
        ≡ cond (same_txn t.now u && same_rid r.now q) to (held_in records.old.entries u q) }
{
    let Some(holders) = records.get_mut(r) else {
        return;
    };
    holders.lower(t, to);
    if holders.is_empty() {
        records.remove(r);
    }
}
