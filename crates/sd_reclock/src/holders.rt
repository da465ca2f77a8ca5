//! The locks on one record: one of them in place, the others in the order of their transactions. They see no other
//! record and no wait.

ghost use Rattle.std.specs.Prelude.{◌≡◌, [], ◌∷◌, None, Some, cond, IsTrue, IfOk, IfSome, OnOk, OnErr, ◌↔◌};
ghost use Rattle.sd_base.specs.declared.ids.TxnId.{TxnId};
ghost use Rattle.sd_base.specs.Ids.{same_txn};
ghost use Rattle.sd_reclock.specs.Locks.{mode_of, raised, AgreeAmong, ClashesIn, IsLowestHolder, IsNoStronger, IsOwner};
ghost use Rattle.sd_reclock.specs.Holding.{with_first, first_of};
ghost use Rattle.sd_reclock.specs.Owning.{IsLowerOf};
ghost use Rattle.sd_reclock.specs.Reaching.{AreThose};

use crate::clashes;
use crate::others::{Others, raise};
use sd_base::{Memory, Mode, TxnId};
use std::alloc::Global;
use std::marker::Model;

/// The locks on one record. Contracts see the list of holders, each with its mode. A lock that is the only one takes
/// no memory.
#[derive(Drop)]
pub struct Holders {
    first: Option<(TxnId, Mode)>,
    others: Others,
}

impl Model for Holders {
    ghost use Rattle.std.specs.Prelude.{List};
    ghost use Rattle.sd_base.specs.declared.ids.TxnId.{TxnId};
    ghost use Rattle.sd_base.specs.declared.place.Mode.{Mode};
    ghost use Rattle.sd_reclock.specs.Holding.{with_first, IsApart};

    ghost Value = { List (TxnId × Mode) };

    ghost view = { λ h. with_first h.first h.others };

    ghost invariant = { λ h. IsApart h.first h.others };
}

impl Holders {
    /// The lock of one transaction. It takes no memory.
    pub fn of(alloc: Global, t: &TxnId, mode: Mode) -> Holders
        ensures { result ≡ (t.now, mode) ∷ [] }
    {
        Holders {
            first: Some((*t, mode)),
            others: Others::new(alloc),
        }
    }

    /// Whether nobody has a lock.
    pub fn is_empty(&self) -> bool
        ensures { IsTrue result ↔ (self.now ≡ []) }
    {
        self.first.is_none() && self.others.is_empty()
    }

    /// The only lock; `None` where there is none, or there may be several.
    pub fn only(&self) -> Option<(TxnId, Mode)>
        ensures { IfSome result (λ row. self.now ≡ row ∷ []) }
    {
        if self.others.is_empty() {
            self.first
        } else {
            None
        }
    }

    /// Whether there is a single lock at most, and a transaction hasn't it.
    pub fn lacks(&self, t: &TxnId) -> bool
        ensures { IsTrue result → mode_of self.now t.now ≡ None }
    {
        match self.first {
            None => self.others.is_empty(),
            Some((u, _mode)) => {
                if u == *t {
                    return false;
                }
                self.others.is_empty()
            }
        }
    }

    /// The mode of a transaction's lock; `None` where it has none.
    pub fn mode_of(&self, t: &TxnId) -> Option<Mode>
        ensures { result ≡ mode_of self.now t.now }
    {
        match self.first {
            None => self.others.mode_of(t),
            Some((u, mode)) => {
                if u == *t {
                    return Some(mode);
                }
                self.others.mode_of(t)
            }
        }
    }

    /// The lowest transaction with a lock, other than this one.
    pub fn lowest_but(&self, not: &TxnId) -> Option<TxnId>
        ensures { IsLowestHolder (mode_of self.now) not.now result }
    {
        lower_of(first_but(&self.first, not), self.others.lowest_but(not))
    }

    /// All other transactions whose lock conflicts with one in the mode.
    pub fn clashing(&self, alloc: Global, not: &TxnId, mode: Mode) -> Result<Vec<TxnId>, Memory>
        ensures { IfOk result (λ all. AreThose (ClashesIn self.now not.now mode) all.items) }
    {
        let mut all = self.others.clashing(alloc, not, mode)?;
        if let Some((t, held)) = self.first {
            if t != *not && clashes(mode, held) {
                all.push(t)?;
            }
        }
        Ok(all)
    }

    /// Gives the lock, or raises one that is there. After `Memory` all is as before.
    pub fn put(&mut self, t: &TxnId, mode: Mode) -> Result<(), Memory>
        ensures put { OnOk result ((u : TxnId) → mode_of self.new u
            ≡ cond (same_txn t.now u) (Some (raised (mode_of self.old t.now) mode)) (mode_of self.old u)) }
        ensures same { OnErr result (self.new ≡ self.old) }
    {
        if let Some((u, had)) = self.first {
            if u == *t {
                self.first = Some((u, raise(Some(had), mode)));
                return Ok(());
            }
        } else if self.others.is_empty() {
            self.first = Some((*t, mode));
            return Ok(());
        }
        self.others.put(t, mode)
    }

    /// Lowers a transaction's lock, or takes it away. It takes no memory.
    pub fn lower(&mut self, t: &TxnId, to: Option<Mode>)
        requires weaker { IsNoStronger to (mode_of self.old t.now) }
        ensures { (u : TxnId) → mode_of self.new u ≡ cond (same_txn t.now u) to (mode_of self.old u) }
    {
        if let Some((u, _had)) = self.first {
            if u == *t {
                self.first = row_of(u, to);
                return;
            }
        }
        self.others.lower(t, to);
    }

    /// The transaction with an `Excl` lock: it has the only one.
    pub fn owner(&self) -> Option<TxnId>
        requires agree { AgreeAmong (mode_of self.now) }
        ensures { IsOwner (mode_of self.now) result }
    {
        match self.first {
            None => self.others.owner(),
            Some((t, mode)) => match mode {
                Mode::Excl => Some(t),
                Mode::Shared => None,
            },
        }
    }
}

// A transaction with its lock, where it has one.
fn row_of(t: TxnId, mode: Option<Mode>) -> Option<(TxnId, Mode)>
    ensures { result ≡ first_of t mode }
{
    match mode {
        Some(mode) => Some((t, mode)),
        None => None,
    }
}

// The transaction of the lock, unless it is this one.
fn first_but(first: &Option<(TxnId, Mode)>, not: &TxnId) -> Option<TxnId>
    ensures { IsLowestHolder (mode_of (with_first first.now [])) not.now result }
{
    match first {
        Some((t, _mode)) if t != not => Some(*t),
        _ => None,
    }
}

/// The lower of two, either of which may be missing.
pub fn lower_of(first: Option<TxnId>, second: Option<TxnId>) -> Option<TxnId>
    ensures { IsLowerOf first second result }
{
    match (first, second) {
        (Some(a), Some(b)) => Some(if b < a { b } else { a }),
        (Some(a), None) => Some(a),
        (None, b) => b,
    }
}
