//! The unresolved transactions of an instance, with the sums of what their ends take of its log.

ghost use Rattle.std.specs.Prelude.{◌≡◌, ◌∷◌, ◌++◌, ◌↔◌, ◌-◌, ◌^◌, ◌<◌, ◌≤◌, ◌⊎◌, [], length, min, option_copied, option_map, Err, IfErr, IfOk, IsSome, None, OnErr, OnOk, Some};
ghost use Rattle.std.specs.List.{IsDistinct};
ghost use Rattle.sd_base.specs.Ids.{same_txn};
ghost use Rattle.sd_base.specs.declared.ids.TxnId.{TxnId};
ghost use Rattle.sd_base.specs.declared.refusal.Refusal.TheVariants as R;
ghost use Rattle.sd_txn.specs.declared.state.TxnState.TheVariants.{Retained, Running};
ghost use Rattle.sd_txn.specs.Marked.{AreMarks};
ghost use Rattle.sd_txn.specs.Owing.{owed_of, reserve_of};
ghost use Rattle.sd_txn.specs.Transactions.{begins_in, depth, depth_at, ids, mark_at, next_txn, noted, popped, pushed, saved, shut, span_at, started, state_at, top_at, txn_at, with_state, without, Transaction, IsUnresolved, OthersStay, SameOrder};

use crate::list::TxnList;
use crate::owed::{Owed, undo_len};
use crate::{OpenRec, TxnState};
use sd_base::{InstNo, Lsn, Memory, Refusal, TxnId, Word};
use std::alloc::Global;
use std::marker::Model;

// With so many unresolved transactions none begins.
const FULL: usize = 64;

/// The transaction table of one instance. Contracts see its unresolved transactions in order of begin, and how many
/// began in the epoch of the last begin.
#[derive(Drop)]
pub struct TxnTable {
    inst: InstNo,
    epoch: u32,
    begins: u32,
    txns: TxnList,
    owed: Owed,
}

impl Model for TxnTable {
    ghost use Rattle.sd_txn.specs.Kept.{IsTable};
    ghost use Rattle.sd_txn.specs.Transactions.{Transactions};

    ghost Value = { Transactions };

    ghost view = { λ t. record { inst = t.inst; epoch = t.epoch; begins = t.begins; unresolved = t.txns } };

    ghost invariant = { λ t. IsTable t.owed t.txns };
}

impl TxnTable {
    /// The table of an instance without transactions.
    pub fn new(alloc: Global, inst: InstNo) -> TxnTable
        ensures { result ≡ record { inst = inst; epoch = 0; begins = 0; unresolved = [] } }
    {
        TxnTable::counted(alloc, inst, 0, 0)
    }

    /// The table of an instance without transactions, of which so many began in this epoch.
    pub fn counted(alloc: Global, inst: InstNo, epoch: u32, begins: u32) -> TxnTable
        ensures { result ≡ record { inst = inst; epoch = epoch; begins = begins; unresolved = [] } }
    {
        TxnTable {
            inst,
            epoch,
            begins,
            txns: TxnList::new(alloc),
            owed: Owed {
                undo: 0,
                records: 0,
                spans: 0,
            },
        }
    }

    /// How a transaction stands; `None` exactly where it isn't unresolved here.
    pub fn state(&self, t: &TxnId) -> Option<TxnState>
        ensures value { result ≡ state_at self.now t.now }
        ensures known { IsSome result ↔ IsUnresolved self.now t.now }
    {
        Some(self.txns.get(t)?.state())
    }

    /// The LSNs of a transaction's first and last record; `None` exactly where no record of it is known.
    pub fn span(&self, t: &TxnId) -> Option<(Lsn, Lsn)>
        ensures { result ≡ span_at self.now t.now }
    {
        self.txns.get(t)?.span()
    }

    /// How many records were open at a mark; `None` exactly where the transaction has no mark of that name.
    pub fn mark(&self, t: &TxnId, mark: &Word) -> Option<usize>
        ensures { result ≡ mark_at self.now t.now mark.now }
    {
        self.txns.get(t)?.mark(mark)
    }

    /// The open record that is undone next; `None` exactly where the transaction has none.
    pub fn top(&self, t: &TxnId) -> Option<&OpenRec>
        ensures { option_copied result ≡ top_at self.now t.now }
    {
        self.txns.get(t)?.top()
    }

    /// How many records of a transaction are open.
    pub fn depth(&self, t: &TxnId) -> usize
        ensures { result ≡ depth_at self.now t.now }
    {
        self.txns.get(t).map_or(0, |txn| txn.depth())
    }

    /// The unresolved transactions, in order of begin.
    pub fn unresolved(&self) -> &[TxnId]
        ensures { result.now ≡ ids self.now }
    {
        self.txns.ids()
    }

    /// How many transactions are unresolved.
    pub fn count(&self) -> usize
        ensures { result ≡ length self.now.unresolved }
    {
        self.txns.len()
    }

    /// The bytes that the ends of the unresolved transactions take of the log: for each with a record its End, and for
    /// each open record its undo, with the value before; 2^64 - 1 where they are more.
    pub fn reserve(&self) -> u64
        ensures { result ≡ min (reserve_of self.now) (2 ^ 64 - 1) }
    {
        self.owed.bytes()
    }

    /// The records that the ends of the unresolved transactions take: for each with a record its End, and for each open
    /// record its undo; 2^64 - 1 where they are more.
    pub fn owed(&self) -> u64
        ensures { result ≡ min (owed_of self.now) (2 ^ 64 - 1) }
    {
        self.owed.count()
    }

    /// What holds of every table: the marks of a transaction don't fall, and none is above the number of its open
    /// records; no transaction stands twice; fewer than 2^63 are unresolved.
    pub fn keeps(&self)
        ensures marks { (t : TxnId) (x : Transaction) → txn_at self.now t ≡ Some x → AreMarks x.marks (depth x) }
        ensures once { IsDistinct same_txn (ids self.now) }
        ensures few { length self.now.unresolved < 2 ^ 63 }
    {
        let _count = self.txns.len();
    }

    // How many began in an epoch: in a new one none.
    fn begins_in(&self, epoch: u32) -> u32
        ensures { result ≡ begins_in self.now epoch }
    {
        if self.epoch == epoch { self.begins } else { 0 }
    }

    // Puts a transaction of which no record is known at the end of the order, or in its place where it is unresolved
    // already. `Memory` changes nothing.
    fn start(&mut self, t: &TxnId, state: TxnState) -> Result<(), Memory>
        ensures begun { OnOk result (txn_at self.new t.now ≡ Some (started state)) }
        ensures last { OnOk result (txn_at self.old t.now ≡ None → ids self.new ≡ ids self.old ++ t.now ∷ []) }
        ensures again { OnOk result (IsUnresolved self.old t.now → ids self.new ≡ ids self.old) }
        ensures others { OthersStay self.old self.new t.now }
        ensures same { self.new ≡ record self.old { unresolved = self.new.unresolved } }
        ensures err { OnErr result (self.new ≡ self.old) }
    {
        if let Some(before) = self.txns.insert(t, state)? {
            self.owed.forget(&before);
        }
        Ok(())
    }

    /// Begins a transaction in an epoch, the next after those that began in it. It runs, and stands at the end of the
    /// order, or in its place where it is unresolved here already. The first begin of another epoch counts anew.
    ///
    /// `TooManyTxns` comes exactly where 64 transactions or more are unresolved; `LsnEnd` exactly where they aren't and
    /// 4,294,967,295 have begun in the epoch. These and `Memory` change nothing.
    pub fn begin(&mut self, epoch: u32) -> Result<TxnId, Refusal>
        ensures begun { IfOk result (λ t. t ≡ next_txn self.old epoch) }
        ensures runs { IfOk result (λ t. txn_at self.new t ≡ Some (started Running)) }
        ensures last { IfOk result (λ t. txn_at self.old t ≡ None → ids self.new ≡ ids self.old ++ t ∷ []) }
        ensures again { IfOk result (λ t. IsUnresolved self.old t → ids self.new ≡ ids self.old) }
        ensures others { IfOk result (OthersStay self.old self.new) }
        ensures counted { IfOk result (λ t. self.new ≡ record self.old { epoch = epoch; begins = t.seq; unresolved = self.new.unresolved }) }
        ensures err { OnErr result (self.new ≡ self.old) }

        ensures many { (result ≡ Err R.TooManyTxns) ↔ (64 ≤ length self.old.unresolved) }
        ensures end { (result ≡ Err R.LsnEnd) ↔ ((length self.old.unresolved < 64) × (begins_in self.old epoch ≡ 4294967295)) }
        ensures only { IfErr result (λ e. (e ≡ R.TooManyTxns) ⊎ ((e ≡ R.LsnEnd) ⊎ (e ≡ R.Memory))) }
    {
        if self.count() >= FULL {
            return Err(Refusal::TooManyTxns);
        }
        let begins = self.begins_in(epoch);
        if begins == u32::MAX {
            return Err(Refusal::LsnEnd);
        }
        let t = TxnId {
            inst: self.inst,
            epoch,
            seq: begins + 1,
        };
        self.start(&t, TxnState::Running)?;
        self.epoch = epoch;
        self.begins = begins + 1;
        Ok(t)
    }

    /// Adds a transaction that a restart found: it is retained, and no record of it is known yet. It stands at the end
    /// of the order, or in its place where it is unresolved here already. `Memory` changes nothing.
    pub fn adopt(&mut self, t: &TxnId) -> Result<(), Memory>
        ensures adopted { OnOk result (txn_at self.new t.now ≡ Some (started Retained)) }
        ensures last { OnOk result (txn_at self.old t.now ≡ None → ids self.new ≡ ids self.old ++ t.now ∷ []) }
        ensures again { OnOk result (IsUnresolved self.old t.now → ids self.new ≡ ids self.old) }
        ensures others { OthersStay self.old self.new t.now }
        ensures same { self.new ≡ record self.old { unresolved = self.new.unresolved } }
        ensures err { OnErr result (self.new ≡ self.old) }
    {
        self.start(t, TxnState::Retained)
    }

    /// Ends a transaction, which is then unresolved no more; the others keep their order. It takes no memory.
    pub fn end(&mut self, t: &TxnId)
        ensures rest { self.new ≡ without self.old t.now }
        ensures gone { txn_at self.new t.now ≡ None }
        ensures others { OthersStay self.old self.new t.now }
    {
        if let Some(txn) = self.txns.remove(t) {
            self.owed.forget(&txn);
        }
    }

    /// Changes how an unresolved transaction stands. It takes no memory.
    pub fn set(&mut self, t: &TxnId, state: TxnState)
        requires { IsUnresolved self.old t.now }
        ensures changed { txn_at self.new t.now ≡ option_map (with_state state) (txn_at self.old t.now) }
        ensures others { OthersStay self.old self.new t.now }
        ensures order { SameOrder self.old self.new }
    {
        self.txns.get_mut(t).unwrap().set(state);
    }

    /// Tells that a record of an unresolved transaction was written at this LSN. It takes no memory.
    pub fn note(&mut self, t: &TxnId, lsn: Lsn)
        requires { IsUnresolved self.old t.now }
        ensures changed { txn_at self.new t.now ≡ option_map (noted lsn) (txn_at self.old t.now) }
        ensures others { OthersStay self.old self.new t.now }
        ensures order { SameOrder self.old self.new }
    {
        // Fewer than 2^63 are unresolved, so the count fits.
        self.keeps();
        let txn = self.txns.get_mut(t).unwrap();
        let first = txn.span().is_none();
        self.owed.spans += u64::from(first);
        txn.note(lsn);
    }

    /// Shuts the row of an unresolved transaction whose end is in the log: no open record and no span is left of it, so it
    /// owes nothing, and each mark above 0 goes. It takes no memory.
    pub fn shut(&mut self, t: &TxnId)
        requires { IsUnresolved self.old t.now }
        ensures changed { txn_at self.new t.now ≡ option_map shut (txn_at self.old t.now) }
        ensures others { OthersStay self.old self.new t.now }
        ensures order { SameOrder self.old self.new }
    {
        let txn = self.txns.get_mut(t).unwrap();
        self.owed.forget(txn);
        txn.shut();
    }

    /// Marks the place that an unresolved transaction has reached, which is the number of its open records, in place of an
    /// older mark of the name. `Memory` changes nothing.
    pub fn save(&mut self, t: &TxnId, mark: Word) -> Result<(), Memory>
        requires { IsUnresolved self.old t.now }
        ensures changed { OnOk result (txn_at self.new t.now ≡ option_map (saved mark) (txn_at self.old t.now)) }
        ensures number { OnOk result (mark_at self.new t.now mark ≡ Some (depth_at self.old t.now)) }
        ensures err { OnErr result (txn_at self.new t.now ≡ txn_at self.old t.now) }
        ensures others { OthersStay self.old self.new t.now }
        ensures order { SameOrder self.old self.new }
    {
        self.txns.get_mut(t).unwrap().save(mark)
    }

    /// Opens a record of an unresolved transaction. `Memory` comes also where the bytes of all undo would pass 2^64; it
    /// changes nothing.
    pub fn push(&mut self, t: &TxnId, rec: OpenRec) -> Result<(), Memory>
        requires { IsUnresolved self.old t.now }
        ensures changed { OnOk result (txn_at self.new t.now ≡ option_map (pushed rec) (txn_at self.old t.now)) }
        ensures err { OnErr result (txn_at self.new t.now ≡ txn_at self.old t.now) }
        ensures others { OthersStay self.old self.new t.now }
        ensures order { SameOrder self.old self.new }
    {
        let Some(undo) = self.owed.undo.checked_add(undo_len(&rec)) else {
            return Err(Memory);
        };
        self.txns.get_mut(t).unwrap().push(rec)?;
        self.owed.undo = undo;
        self.owed.records += 1;
        Ok(())
    }

    /// Hands out the open record that is undone next, and takes out each mark above what is left; `None` exactly where
    /// the transaction has no open record. It takes no memory.
    pub fn pop(&mut self, t: &TxnId) -> Option<OpenRec>
        ensures value { result ≡ top_at self.old t.now }
        ensures changed { txn_at self.new t.now ≡ option_map popped (txn_at self.old t.now) }
        ensures others { OthersStay self.old self.new t.now }
        ensures order { SameOrder self.old self.new }
    {
        let rec = self.txns.get_mut(t)?.pop()?;
        self.owed.undo -= undo_len(&rec);
        self.owed.records -= 1;
        Some(rec)
    }
}
