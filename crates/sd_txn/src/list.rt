//! The unresolved transactions in order of begin, over the kit's `indexmap`. It sees no sums and no counts of begins.

ghost use Rattle.std.specs.Prelude.{◌≡◌, ◌≢◌, ◌∷◌, ◌++◌, ◌^◌, ◌<◌, [], length, option_copied, IfOk, IfSome, IsTrue, None, OnErr, OnOk, Some};
ghost use Rattle.std.specs.List.{IsDistinct};
ghost use Rattle.std.specs.Map.{keys_of, lookup, remove_entry};
ghost use Rattle.indexmap.specs.IndexMap.{insert_entry};
ghost use Rattle.sd_base.specs.Ids.{same_txn};
ghost use Rattle.sd_base.specs.declared.ids.TxnId.{TxnId};
ghost use Rattle.sd_txn.specs.Lending.{IsLast};
ghost use Rattle.sd_txn.specs.Transactions.{started};

use crate::TxnState;
use crate::txn::Txn;
use indexmap::IndexMap;
use sd_base::{Memory, TxnId};
use std::alloc::Global;
use std::marker::Model;

/// Transactions by their numbers, in order of begin. Contracts see the list of both.
#[derive(Drop)]
pub(crate) struct TxnList {
    txns: IndexMap<TxnId, Txn>,
}

impl Model for TxnList {
    ghost use Rattle.std.specs.Prelude.{List};
    ghost use Rattle.sd_base.specs.declared.ids.TxnId.{TxnId};
    ghost use Rattle.sd_txn.specs.Transactions.{Transaction};

    ghost Value = { List (TxnId × Transaction) };

    ghost view = { λ l. l.txns.entries };
}

impl TxnList {
    ghost use Rattle.std.specs.Borrow.{sem};
    ghost use Rattle.std.specs.Option.{option_copied_mut};
    ghost use Rattle.sd_txn.specs.Lending.{LendsTxn};

    /// A list without transactions.
    pub(crate) fn new(alloc: Global) -> TxnList
        ensures { result ≡ [] }
    {
        TxnList {
            txns: IndexMap::new(alloc),
        }
    }

    /// How many transactions there are; no number stands twice.
    pub(crate) fn len(&self) -> usize
        ensures value { result ≡ length self.now }
        ensures small { result < 2 ^ 63 }
        ensures once { IsDistinct same_txn (keys_of self.now) }
    {
        self.txns.len()
    }

    /// Their numbers, in order.
    pub(crate) fn ids(&self) -> &[TxnId]
        ensures { result.now ≡ keys_of self.now }
    {
        self.txns.keys().as_slice()
    }

    /// What is known of a transaction.
    pub(crate) fn get(&self, t: &TxnId) -> Option<&Txn>
        ensures { option_copied result ≡ lookup (same_txn t.now) self.now }
    {
        match newest(&self.txns, t) {
            Some(txn) => Some(txn),
            None => self.txns.get(t),
        }
    }

    /// The same, to be changed.
    pub(crate) fn get_mut(&mut self, t: &TxnId) -> Option<&mut Txn>
        ensures* writes_back { sem 𝓛 (LendsTxn self.entry t.now result) }
        ensures value { option_copied_mut result ≡ lookup (same_txn t.now) self.old }
    {
        if is_newest(&self.txns, t) {
            return self.txns.last_mut();
        }
        self.txns.get_mut(t)
    }

    /// Puts a transaction of which no record is known at the end of the order, or in place of what was known of it,
    /// which is handed out. `Memory` changes nothing.
    pub(crate) fn insert(&mut self, t: &TxnId, state: TxnState) -> Result<Option<Txn>, Memory>
        ensures before { IfOk result (λ before. before ≡ lookup (same_txn t.now) self.old) }
        ensures entries { OnOk result (self.new ≡ insert_entry same_txn self.old t.now (started state)) }
        ensures err { OnErr result (self.new ≡ self.old) }
    {
        let alloc = *self.txns.allocator();
        let before = self.txns.insert(*t, Txn::new(alloc, state))?;
        Ok(before)
    }

    /// Takes a transaction out, and hands out what was known of it; the others keep their order.
    pub(crate) fn remove(&mut self, t: &TxnId) -> Option<Txn>
        ensures value { result ≡ lookup (same_txn t.now) self.old }
        ensures rest { self.new ≡ remove_entry (same_txn t.now) self.old }
        ensures gone { lookup (same_txn t.now) self.new ≡ None }
    {
        self.txns.shift_remove(t)
    }
}

// What is known of the transaction, where it is the last in the order: of most the calls come while no other has begun.
fn newest<'a>(txns: &'a IndexMap<TxnId, Txn>, t: &TxnId) -> Option<&'a Txn>
    ensures { IfSome result (λ txn. lookup (same_txn t.now) txns.now.entries ≡ Some txn.now) }
{
    let _once = txns.len();
    match txns.last() {
        Some((last, txn)) if last == t => Some(txn),
        _ => None,
    }
}

// Whether the transaction is the last in the order.
fn is_newest(txns: &IndexMap<TxnId, Txn>, t: &TxnId) -> bool
    ensures last { IsTrue result → IsLast txns.now.entries t.now }
    ensures once { IsDistinct same_txn (keys_of txns.now.entries) }
{
    let _once = txns.len();
    match txns.last() {
        Some((last, _txn)) => last == t,
        None => false,
    }
}
