//! The table of record locks: it tells who may have a lock, and keeps who holds and who waits for what.

ghost use Rattle.std.specs.Prelude.{◌≡◌, ◌&&◌, [], None, Some, cond, nat_eq, IsOk, IfErr, OnOk, OnErr};
ghost use Rattle.sd_base.specs.declared.ids.TxnId.{TxnId};
ghost use Rattle.sd_base.specs.declared.ids.Rid.{Rid};
ghost use Rattle.sd_base.specs.Ids.{same_txn, same_rid};
ghost use Rattle.sd_base.specs.Waits.{with_wait};
ghost use Rattle.sd_reclock.specs.Locks.{Agree, IsLowestHolder, IsLowestOwner, IsNoStronger, held, raised, stands, wait_for, waits};
ghost use Rattle.sd_reclock.specs.Answers.{IsFree, IsRefused};

use crate::locks::Locks;
use crate::{Asked, Asking};
use sd_base::{InstNo, Memory, Mode, PageNo, Refusal, Rid, TxnId};
use std::alloc::Global;
use std::collections::BTreeMap;
use std::marker::Model;

/// Who holds which record, and who waits for which. Contracts see it as a `LockTable`.
///
/// A call looks first, does what else may find no memory, and changes last: after `look` is Ok it
/// can `grant`; after `Blocked` it notes the `wait`; else it ends the wait by `calm`.
#[derive(Drop)]
pub struct RecordLocks {
    locks: Locks,
    waits: BTreeMap<TxnId, Asked>,
    alloc: Global,
}

impl Model for RecordLocks {
    ghost use Rattle.sd_reclock.specs.Locks.{LockTable, Agree};

    ghost Value = { LockTable };

    ghost view = { λ t. record { locks = t.locks; waiting = t.waits.entries } };

    ghost invariant = { λ t. Agree t.locks };
}

impl RecordLocks {
    /// No locks and no waits. It takes no memory.
    pub fn new(alloc: Global) -> RecordLocks
        ensures locks { result.locks ≡ [] }
        ensures waits { result.waiting ≡ [] }
    {
        RecordLocks {
            locks: Locks::new(alloc),
            waits: BTreeMap::new(alloc),
            alloc,
        }
    }

    /// Tells whether the transaction may have the lock. It changes no lock and no wait.
    ///
    /// Ok comes exactly where no other transaction holds a conflicting lock: then it may be granted.
    /// `Blocked` comes where the wait would close no cycle, and names the lowest transaction that
    /// stands in the way; `Deadlock` comes where it would close one, and tells a shortest, the lowest
    /// by numbers. `Memory` comes where somebody stands in the way and the search finds no memory.
    pub fn look(&self, t: &TxnId, r: &Rid, mode: Mode) -> Result<(), Refusal>
        ensures ok { OnOk result (IsFree (stands self.now) t.now (wait_for r.now mode)) }
        ensures free { IsFree (stands self.now) t.now (wait_for r.now mode) → IsOk result }
        ensures refused { IfErr result (IsRefused (stands self.now) (waits self.now) t.now (wait_for r.now mode)) }
    {
        if self.locks.is_unlocked(r) {
            return Ok(());
        }
        self.look_among(t, r, mode)
    }

    // The same where somebody may hold the record.
    #[inline(never)]
    fn look_among(&self, t: &TxnId, r: &Rid, mode: Mode) -> Result<(), Refusal>
        ensures ok { OnOk result (IsFree (stands self.now) t.now (wait_for r.now mode)) }
        ensures free { IsFree (stands self.now) t.now (wait_for r.now mode) → IsOk result }
        ensures refused { IfErr result (IsRefused (stands self.now) (waits self.now) t.now (wait_for r.now mode)) }
    {
        let wait = Asked { rid: *r, mode };
        let Some(by) = self.locks.obstacle(t, &wait) else {
            return Ok(());
        };
        let asking = Asking {
            locks: &self.locks,
            waits: &self.waits,
            asker: *t,
            wait,
        };
        match asking.cycle(self.alloc)? {
            Some(cycle) => Err(Refusal::Deadlock { cycle }),
            None => Err(Refusal::Blocked { by }),
        }
    }

    /// Notes that the transaction waits for this lock, in place of what it waited for. All locks
    /// stay, and all other waits. After `Memory` the table is as before.
    pub fn wait(&mut self, t: &TxnId, r: &Rid, mode: Mode) -> Result<(), Memory>
        ensures waits { OnOk result ((u : TxnId) → waits self.new u
            ≡ with_wait t.now (Some (wait_for r.now mode)) (waits self.old) u) }
        ensures locks { self.new.locks ≡ self.old.locks }
        ensures same { OnErr result (self.new ≡ self.old) }
    {
        self.waits.insert(*t, Asked { rid: *r, mode })?;
        Ok(())
    }

    /// Gives the lock, or raises one that is there, where nobody stands in the way: `Excl` stays.
    /// All other locks stay, and all waits, its own too. After `Memory` the table is as before.
    pub fn grant(&mut self, t: &TxnId, r: &Rid, mode: Mode) -> Result<(), Memory>
        requires free { IsFree (stands self.old) t.now (wait_for r.now mode) }
        ensures given { OnOk result ((u : TxnId) (q : Rid) → held self.new u q
            ≡ cond (same_txn t.now u && same_rid r.now q)
            (Some (raised (held self.old t.now r.now) mode)) (held self.old u q)) }
        ensures same { OnErr result (self.new ≡ self.old) }
        ensures waits { self.new.waiting ≡ self.old.waiting }
        ensures agree { Agree self.new.locks }
    {
        self.locks.put(t, &Asked { rid: *r, mode })?;
        self.locks.make_place();
        Ok(())
    }

    /// The mode in which the transaction holds the record; `None` where it doesn't.
    pub fn mode(&self, t: &TxnId, r: &Rid) -> Option<Mode>
        ensures held { result ≡ held self.now t.now r.now }
    {
        self.locks.mode_of(t, r)
    }

    /// Lowers the transaction's lock on the record to what `mode` told before it was raised or given:
    /// `Shared`, or none. All other locks stay, and all waits. It takes no memory.
    pub fn lower(&mut self, t: &TxnId, r: &Rid, to: Option<Mode>)
        requires weaker { IsNoStronger to (held self.old t.now r.now) }
        ensures lowered { (u : TxnId) (q : Rid) → held self.new u q
            ≡ cond (same_txn t.now u && same_rid r.now q) to (held self.old u q) }
        ensures waits { self.new.waiting ≡ self.old.waiting }
        ensures agree { Agree self.new.locks }
    {
        self.locks.lower(t, r, to);
    }

    /// Ends the transaction's wait. All locks stay, and all other waits. It takes no memory.
    pub fn calm(&mut self, t: &TxnId)
        ensures waits { (u : TxnId) → waits self.new u ≡ with_wait t.now None (waits self.old) u }
        ensures locks { self.new.locks ≡ self.old.locks }
    {
        self.waits.remove(t);
    }

    /// The lowest transaction with an `Excl` lock on a record of the page, whatever its slot;
    /// `None` exactly where there is none.
    pub fn owner_in(&self, p: PageNo) -> Option<TxnId>
        ensures lowest { IsLowestOwner self.now.locks p result }
    {
        self.locks.owner_in(p)
    }

    /// The lowest transaction other than `not` with a lock on the record; `None` exactly where
    /// there is none.
    pub fn holder(&self, r: &Rid, not: &TxnId) -> Option<TxnId>
        ensures lowest { IsLowestHolder (λ u. held self.now u r.now) not.now result }
        ensures agree { Agree self.now.locks }
    {
        self.locks.holder(r, not)
    }

    /// What holds of every table: the locks on a record agree, so beside an `Excl` lock there is no other.
    pub fn keeps(&self)
        ensures agree { Agree self.now.locks }
    {
        let _ = &self.locks;
    }

    /// Takes all locks of the transaction away, and its wait. All others stay. It takes no memory.
    pub fn release_all(&mut self, t: &TxnId)
        ensures locks { (u : TxnId) (q : Rid) → held self.new u q ≡ cond (same_txn t.now u) None (held self.old u q) }
        ensures waits { (u : TxnId) → waits self.new u ≡ cond (same_txn t.now u) None (waits self.old u) }
        ensures agree { Agree self.new.locks }
    {
        self.calm(t);
        self.locks.release_all(t);
    }

    /// Drops the waits of an instance's transactions; their locks stay. It takes no memory.
    pub fn retain(&mut self, i: InstNo)
        ensures waits { (u : TxnId) → waits self.new u ≡ cond (nat_eq u.inst i) None (waits self.old u) }
        ensures locks { self.new.locks ≡ self.old.locks }
    {
        self.waits.retain(|t, _wait| t.inst != i);
    }
}
