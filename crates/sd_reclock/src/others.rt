//! The locks on one record behind the first, in the order of their transactions.

ghost use Rattle.std.specs.Prelude.{◌≡◌, [], None, Some, cond, IsTrue, IfOk, OnOk, OnErr, ◌↔◌};
ghost use Rattle.sd_base.specs.declared.ids.TxnId.{TxnId};
ghost use Rattle.sd_base.specs.Ids.{same_txn};
ghost use Rattle.sd_reclock.specs.Locks.{mode_of, raised, AgreeAmong, ClashesIn, IsLowestHolder, IsNoStronger, IsOwner};
ghost use Rattle.sd_reclock.specs.Reaching.{AreThose};

use crate::clashes;
use sd_base::{Memory, Mode, TxnId};
use std::alloc::Global;
use std::collections::BTreeMap;
use std::marker::Model;
use std::ops::Bound;

/// Locks on one record. Contracts see the list of holders, each with its mode.
#[derive(Drop)]
pub struct Others {
    modes: BTreeMap<TxnId, Mode>,
}

impl Model for Others {
    ghost use Rattle.std.specs.Prelude.{List};
    ghost use Rattle.sd_base.specs.declared.ids.TxnId.{TxnId};
    ghost use Rattle.sd_base.specs.declared.place.Mode.{Mode};

    ghost Value = { List (TxnId × Mode) };

    ghost view = { λ h. h.modes.entries };
}

impl Others {
    /// No locks. It takes no memory.
    pub fn new(alloc: Global) -> Others
        ensures { result ≡ [] }
    {
        Others {
            modes: BTreeMap::new(alloc),
        }
    }

    /// Whether nobody has a lock.
    pub fn is_empty(&self) -> bool
        ensures { IsTrue result ↔ (self.now ≡ []) }
    {
        self.modes.is_empty()
    }

    /// The mode of a transaction's lock; `None` where it has none.
    pub fn mode_of(&self, t: &TxnId) -> Option<Mode>
        ensures { result ≡ mode_of self.now t.now }
    {
        self.modes.get(t).copied()
    }

    /// The lowest transaction with a lock, other than this one.
    pub fn lowest_but(&self, not: &TxnId) -> Option<TxnId>
        ensures { IsLowestHolder (mode_of self.now) not.now result }
    {
        let above = (Bound::Excluded(*not), Bound::Unbounded);
        match self.modes.range(..*not).next() {
            Some((t, _mode)) => Some(*t),
            None => match self.modes.range(above).next() {
                Some((t, _mode)) => Some(*t),
                None => None,
            },
        }
    }

    /// All other transactions whose lock conflicts with one in the mode.
    pub fn clashing(&self, alloc: Global, not: &TxnId, mode: Mode) -> Result<Vec<TxnId>, Memory>
        ensures { IfOk result (λ all. AreThose (ClashesIn self.now not.now mode) all.items) }
    {
        let mut all = Vec::new(alloc);
        for (t, held) in &self.modes {
            if t != not && clashes(mode, *held) {
                all.push(*t)?;
            }
        }
        Ok(all)
    }

    /// Gives the lock, or raises one that is there. After `Memory` all is as before.
    pub fn put(&mut self, t: &TxnId, mode: Mode) -> Result<(), Memory>
        ensures put { OnOk result ((u : TxnId) → mode_of self.new u
            ≡ cond (same_txn t.now u) (Some (raised (mode_of self.old t.now) mode)) (mode_of self.old u)) }
        ensures same { OnErr result (self.new ≡ self.old) }
    {
        let mode = raise(self.mode_of(t), mode);
        self.modes.insert(*t, mode)?;
        Ok(())
    }

    /// Lowers a transaction's lock, or takes it away. It takes no memory.
    pub fn lower(&mut self, t: &TxnId, to: Option<Mode>)
        requires weaker { IsNoStronger to (mode_of self.old t.now) }
        ensures { (u : TxnId) → mode_of self.new u ≡ cond (same_txn t.now u) to (mode_of self.old u) }
    {
        match to {
            Some(mode) => {
                if let Some(held) = self.modes.get_mut(t) {
                    *held = mode;
                }
            }
            None => {
                self.modes.remove(t);
            }
        }
    }

    /// The transaction with an `Excl` lock: it has the only one.
    pub fn owner(&self) -> Option<TxnId>
        requires agree { AgreeAmong (mode_of self.now) }
        ensures { IsOwner (mode_of self.now) result }
    {
        let (t, mode) = self.modes.iter().next()?;
        match mode {
            Mode::Excl => Some(*t),
            Mode::Shared => None,
        }
    }
}

/// The mode of a lock that is asked for again: `Excl` stays.
pub fn raise(had: Option<Mode>, mode: Mode) -> Mode
    ensures { result ≡ raised had mode }
{
    match had {
        Some(Mode::Excl) => Mode::Excl,
        Some(Mode::Shared) | None => mode,
    }
}
