//! The locks on all records: on the last of them in place, on the others with an index. They see no wait.

ghost use Rattle.std.specs.Prelude.{◌≡◌, ◌&&◌, ◌↔◌, ◌++◌, [], None, Some, cond, option_copied, IsTrue, IfOk, OnOk, OnErr, MatchOption, IfSome};
ghost use Rattle.std.specs.Map.{lookup};
ghost use Rattle.sd_base.specs.declared.ids.TxnId.{TxnId};
ghost use Rattle.sd_base.specs.declared.ids.Rid.{Rid};
ghost use Rattle.sd_base.specs.Ids.{same_txn, same_rid, IsBelow};
ghost use Rattle.sd_reclock.specs.Waiting.{wait_of};
ghost use Rattle.sd_reclock.specs.Locks.{held_in, raised, Agree, IsLowestHolder, IsLowestOwner, IsNoStronger, StandsIn};
ghost use Rattle.sd_reclock.specs.Answers.{IsFree};
ghost use Rattle.sd_reclock.specs.Placing.{IsApartFrom};

use crate::few::Few;
use crate::holders::{Holders, lower_of};
use crate::many::Many;
use crate::{Asked, Standing, clashes};
use sd_base::{Memory, Mode, PageNo, Rid, TxnId};
use std::alloc::Global;
use std::marker::Model;

/// Who holds which record. Contracts see the list of locked records, each with its holders.
#[derive(Drop)]
pub struct Locks {
    few: Few,
    many: Many,
}

impl Model for Locks {
    ghost use Rattle.std.specs.Prelude.{◌++◌, List};
    ghost use Rattle.sd_base.specs.declared.ids.TxnId.{TxnId};
    ghost use Rattle.sd_base.specs.declared.ids.Rid.{Rid};
    ghost use Rattle.sd_base.specs.declared.place.Mode.{Mode};
    ghost use Rattle.sd_reclock.specs.Locks.{Agree};
    ghost use Rattle.sd_reclock.specs.Placing.{IsApartFrom};

    ghost Value = { List (Rid × List (TxnId × Mode)) };

    ghost view = { λ l. l.few ++ l.many };

    ghost invariant = { λ l. IsApartFrom l.few l.many × Agree (l.few ++ l.many) };
}

impl Locks {
    /// No locks. It takes no memory.
    pub fn new(alloc: Global) -> Locks
        ensures { result ≡ [] }
    {
        Locks {
            few: Few::new(alloc),
            many: Many::new(alloc),
        }
    }

    // The locks on a record.
    fn get(&self, r: &Rid) -> Option<&Holders>
        ensures found { option_copied result ≡ lookup (same_rid r.now) self.now }
        ensures agree { Agree self.now }
    {
        match self.few.get(r) {
            Some(holders) => Some(holders),
            None => self.many.get(r),
        }
    }

    /// Whether nobody has a lock on the record.
    pub fn is_unlocked(&self, r: &Rid) -> bool
        ensures { IsTrue result → (u : TxnId) → held_in self.now u r.now ≡ None }
    {
        match self.few.place_of(r) {
            Some(_at) => false,
            None => self.many.is_unlocked(r),
        }
    }

    /// The mode in which a transaction holds a record; `None` where it doesn't.
    pub fn mode_of(&self, t: &TxnId, r: &Rid) -> Option<Mode>
        ensures { result ≡ held_in self.now t.now r.now }
    {
        match self.get(r) {
            Some(holders) => holders.mode_of(t),
            None => None,
        }
    }

    /// The lowest transaction with a lock on the record, other than this one.
    pub fn holder(&self, r: &Rid, not: &TxnId) -> Option<TxnId>
        ensures lowest { IsLowestHolder (λ u. held_in self.now u r.now) not.now result }
        ensures agree { Agree self.now }
    {
        match self.get(r) {
            Some(holders) => holders.lowest_but(not),
            None => None,
        }
    }

    /// The lowest transaction that stands in the way. Where the lowest other holder doesn't, nobody does,
    /// since the locks on a record agree.
    pub fn obstacle(&self, t: &TxnId, wait: &Asked) -> Option<TxnId>
        ensures stands { MatchOption result (IsFree (StandsIn self.now) t.now (wait_of wait.now)) (StandsIn self.now t.now (wait_of wait.now)) }
        ensures lowest { IfSome result (λ by. (u : TxnId) → StandsIn self.now t.now (wait_of wait.now) u → IsBelow u by → ⊥) }
    {
        let other = self.holder(&wait.rid, t)?;
        if self.stands(t, wait, &other) {
            Some(other)
        } else {
            None
        }
    }

    // Whether the last one stands in the way of the first.
    fn stands(&self, t: &TxnId, wait: &Asked, u: &TxnId) -> bool
        ensures { IsTrue result ↔ StandsIn self.now t.now (wait_of wait.now) u.now }
    {
        if t == u {
            return false;
        }
        match self.mode_of(u, &wait.rid) {
            Some(mode) => clashes(wait.mode, mode),
            None => false,
        }
    }

    /// Gives the lock, or raises one that is there. After `Memory` the locks are as before.
    pub fn put(&mut self, t: &TxnId, wait: &Asked) -> Result<(), Memory>
        requires free { IsFree (StandsIn self.old) t.now (wait_of wait.now) }
        ensures put { OnOk result ((u : TxnId) (q : Rid) → held_in self.new u q ≡ cond (same_txn t.now u && same_rid wait.now.rid q)
            (Some (raised (held_in self.old t.now wait.now.rid) wait.now.mode)) (held_in self.old u q)) }
        ensures agree { Agree self.new }
        ensures same { OnErr result (self.new ≡ self.old) }
    {
        if let Some(at) = self.few.place_of(&wait.rid) {
            return self.few.raise(at, t, wait.mode);
        }
        if has_place(&self.few, &self.many, &wait.rid) {
            return self.few.add(t, &wait.rid, wait.mode);
        }
        self.many.put(t, wait)
    }

    /// Makes place for a further record, where there is none and memory is found: all locks stay.
    pub fn make_place(&mut self)
        ensures held { (u : TxnId) (q : Rid) → held_in self.new u q ≡ held_in self.old u q }
        ensures agree { Agree self.new }
    {
        if self.few.is_crowded() {
            move_single(&mut self.few, &mut self.many);
        }
    }

    /// Lowers a lock, or takes it away. It takes no memory.
    pub fn lower(&mut self, t: &TxnId, r: &Rid, to: Option<Mode>)
        requires weaker { IsNoStronger to (held_in self.old t.now r.now) }
        ensures lowered { (u : TxnId) (q : Rid) → held_in self.new u q
            ≡ cond (same_txn t.now u && same_rid r.now q) to (held_in self.old u q) }
        ensures agree { Agree self.new }
    {
        match self.few.place_of(r) {
            Some(at) => self.few.lower(at, t, to),
            None => self.many.lower(t, r, to),
        }
    }

    /// The lowest transaction with an `Excl` lock on a record of the page.
    pub fn owner_in(&self, p: PageNo) -> Option<TxnId>
        ensures { IsLowestOwner self.now p result }
    {
        lower_of(self.few.owner_in(p), self.many.owner_in(p))
    }

    /// Takes all locks of a transaction away. It takes no memory.
    pub fn release_all(&mut self, t: &TxnId)
        ensures released { (u : TxnId) (q : Rid) → held_in self.new u q ≡ cond (same_txn t.now u) None (held_in self.old u q) }
        ensures agree { Agree self.new }
    {
        self.few.release_all(t);
        self.many.release_all(t);
    }
}

impl Standing for Locks {
    ghost stands = { StandsIn };

    fn obstacles(&self, alloc: Global, t: &TxnId, wait: &Asked) -> Result<Vec<TxnId>, Memory> {
        if self.obstacle(t, wait).is_none() {
            return Ok(Vec::new(alloc));
        }
        match self.get(&wait.rid) {
            Some(holders) => holders.clashing(alloc, t, wait.mode),
            None => Ok(Vec::new(alloc)),
        }
    }
}

// Whether a record that isn't among the few finds a place there: one is free, and the record isn't among the many.
fn has_place(few: &Few, many: &Many, r: &Rid) -> bool
    ensures { IsTrue result → (u : TxnId) → held_in many.now u r.now ≡ None }
{
    few.has_place() && many.is_unlocked(r)
}

// Moves a record with a single lock from the few to the many, where memory is found.
fn move_single(few: &mut Few, many: &mut Many)
    requires apart { IsApartFrom few.old many.old }
    ensures held { (u : TxnId) (q : Rid) → held_in (few.new ++ many.new) u q ≡ held_in (few.old ++ many.old) u q }
    ensures apart { IsApartFrom few.new many.new }
{
    let Some(single) = few.single() else {
        return;
    };
    let lock = Asked {
        rid: single.rid,
        mode: single.mode,
    };
    match many.put(&single.txn, &lock) {
        Ok(()) => few.take(single.at),
        Err(_) => {}
    }
}
