//! The last changes of each record in the logs, by transaction. It sees no page.

ghost use Rattle.std.specs.Prelude.{◌≡◌, ℕ, [], ◌∷◌, ◌&&◌, max, cond, IfOk, OnOk, true, eqb};
ghost use Rattle.sd_base.specs.declared.ids.TxnId.{TxnId};
ghost use Rattle.sd_base.specs.Ids.{same_txn};
ghost use Rattle.sd_log.specs.Logs.{flats};
ghost use Rattle.sd_logrec.specs.View.{flat};
ghost use Rattle.sd_recovered.specs.Others.{by_others, last_of_others, of_others, other_lsn, seen_in};

use sd_base::{Lsn, Memory, Rid, TxnId};
use sd_log::{Placed, ReadLog};
use sd_logrec::Record;
use std::alloc::Global;
use std::collections::BTreeMap;
use std::marker::Model;

/// The LSN of the last change of a record by this transaction, and of the last one by others before it, or 0.
#[derive(Clone, Copy, PartialEq, Eq)]
pub struct Last {
    txn: TxnId,
    own: Lsn,
    others: Lsn,
}

impl Last {
    // One change.
    fn first(txn: TxnId, lsn: Lsn) -> Last
        ensures { (t : TxnId) → of_others result t ≡ cond (same_txn txn t) 0 lsn }
    {
        Last {
            txn,
            own: lsn,
            others: 0,
        }
    }

    // With one change more.
    fn and(self, txn: TxnId, lsn: Lsn) -> Last
        ensures { (t : TxnId) → of_others result t ≡ cond (same_txn txn t) (of_others self t) (max lsn (of_others self t)) }
    {
        if txn == self.txn {
            return Last {
                own: self.own.max(lsn),
                ..self
            };
        }
        if lsn <= self.own {
            return Last {
                others: self.others.max(lsn),
                ..self
            };
        }
        Last {
            txn,
            own: lsn,
            others: self.own.max(self.others),
        }
    }

    // The LSN of the last change by others than this one, or 0.
    fn others(self, txn: TxnId) -> Lsn
        ensures { result ≡ of_others self txn }
    {
        if self.txn == txn {
            self.others
        } else {
            self.own.max(self.others)
        }
    }
}

/// Of each record that the logs change, its last changes. Contracts see a map's entries; `seen_in` says what they tell.
#[derive(Drop)]
pub struct LastChanges {
    lasts: BTreeMap<Rid, Last>,
}

impl Model for LastChanges {
    ghost use Rattle.std.specs.Prelude.{List};
    ghost use Rattle.sd_base.specs.declared.ids.Rid.{Rid};
    ghost use Rattle.sd_recovered.specs.declared.last_changes.Last.{Last};

    ghost Value = { List (Rid × Last) };

    ghost view = { λ c. c.lasts.entries };
}

impl LastChanges {
    /// The last changes in these logs.
    pub fn of(alloc: Global, logs: &[ReadLog]) -> Result<LastChanges, Memory>
        ensures { IfOk result (λ last. (t : TxnId) (p s : ℕ) → seen_in last t p s ≡ by_others logs.now t p s) }
    {
        let mut last = LastChanges {
            lasts: BTreeMap::new(alloc),
        };
        for log in logs {
            last.note_all(log.scan())?;
        }
        Ok(last)
    }

    /// The LSN of the last change of the record by others than this transaction, or 0.
    pub fn by_others(&self, rid: Rid, txn: TxnId) -> Lsn
        ensures { result ≡ seen_in self.now txn rid.page rid.slot }
    {
        match self.lasts.get(&rid) {
            Some(last) => last.others(txn),
            None => 0,
        }
    }

    // Notes the changes of a log.
    fn note_all(&mut self, log: &[Placed]) -> Result<(), Memory>
        ensures { OnOk result ((t : TxnId) (p s : ℕ) → seen_in self.new t p s ≡ max (seen_in self.old t p s) (last_of_others t p s (flats log.now))) }
    {
        for placed in log {
            self.note(&placed.rec)?;
        }
        Ok(())
    }

    // Notes a record, if it is a change.
    fn note(&mut self, change: &Record) -> Result<(), Memory>
        ensures { OnOk result ((t : TxnId) (p s : ℕ) → seen_in self.new t p s ≡ max (seen_in self.old t p s) (other_lsn t p s (flat change.now))) }
    {
        match change {
            Record::Update {
                lsn,
                txn,
                page,
                slot,
                ..
            }
            | Record::Clr {
                lsn,
                txn,
                page,
                slot,
                ..
            } => {
                let (page, slot) = (*page, *slot);
                self.put(Rid { page, slot }, *txn, *lsn)
            }
            _ => Ok(()),
        }
    }

    // Notes a change of a record.
    fn put(&mut self, rid: Rid, txn: TxnId, lsn: Lsn) -> Result<(), Memory>
        ensures { OnOk result ((t : TxnId) (p s : ℕ) → seen_in self.new t p s
            ≡ cond (eqb rid.page p && eqb rid.slot s) (cond (same_txn txn t) (seen_in self.old t p s) (max lsn (seen_in self.old t p s))) (seen_in self.old t p s)) }
    {
        let last = match self.lasts.get(&rid) {
            Some(last) => last.and(txn, lsn),
            None => Last::first(txn, lsn),
        };
        self.lasts.insert(rid, last)?;
        Ok(())
    }
}
