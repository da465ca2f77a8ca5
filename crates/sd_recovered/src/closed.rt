//! Transactions that were closed, each with the index of the record that closed it.

ghost use Rattle.std.specs.Prelude.{◌≡◌, ℕ, [], cond, false, true, Ok, Some, IsTrue};
ghost use Rattle.std.specs.List.{AllByRecursion};
ghost use Rattle.std.specs.Map.{keys_of, lookup};
ghost use Rattle.std.specs.declared.cmp.Ordering.TheVariants.{Less};
ghost use Rattle.sd_base.specs.declared.ids.TxnId.{TxnId};
ghost use Rattle.sd_base.specs.Ids.{same_txn};
ghost use Rattle.sd_base.proofs.Orders.{txn_cmp};

use sd_base::{Memory, TxnId};
use std::alloc::Global;
use std::marker::Model;

/// Transactions in rising order, each with the index of the record that closed it. Contracts see the list.
#[derive(Drop)]
pub(crate) struct Closed {
    rows: Vec<(TxnId, usize)>,
}

impl Model for Closed {
    ghost use Rattle.std.specs.Prelude.{ℕ, List};
    ghost use Rattle.std.specs.List.Sorted.{IsStrictlySortedBy};
    ghost use Rattle.std.specs.Map.{keys_of};
    ghost use Rattle.sd_base.specs.declared.ids.TxnId.{TxnId};
    ghost use Rattle.sd_base.proofs.Orders.{txn_cmp};

    ghost Value = { List (TxnId × ℕ) };

    ghost view = { λ c. c.rows.items };

    ghost invariant = { λ c. IsStrictlySortedBy txn_cmp (keys_of c.rows.items) };
}

impl Closed {
    /// None yet.
    pub(crate) fn new(alloc: Global) -> Closed
        ensures { result ≡ [] }
    {
        Closed {
            rows: Vec::new(alloc),
        }
    }

    /// The index of the record that closed this one; `None` where it isn't among them.
    pub(crate) fn find(&self, txn: &TxnId) -> Option<usize>
        ensures { result ≡ lookup (same_txn txn.now) self.now }
    {
        if self.are_below(txn) {
            return None;
        }
        match self.rows.binary_search_by_key(txn, |row| row.0) {
            Ok(index) => Some(self.rows[index].1),
            Err(_) => None,
        }
    }

    // Whether all of them are below this one.
    fn are_below(&self, txn: &TxnId) -> bool
        ensures { IsTrue result → AllByRecursion (λ t. txn_cmp t txn.now ≡ Less) (keys_of self.now) }
    {
        match self.rows.last() {
            Some(last) => last.0.cmp(txn).is_lt(),
            None => true,
        }
    }

    /// Puts one behind them that the record of this index closed, where all are below it; `false` where they aren't, or no record
    /// closed it.
    pub(crate) fn put(&mut self, txn: &TxnId, end: Option<usize>) -> Result<bool, Memory>
        ensures put { result ≡ Ok true → (at : ℕ) × (end ≡ Some at)
            × ((q : TxnId) → lookup (same_txn q) self.new ≡ cond (same_txn txn.now q) (Some at) (lookup (same_txn q) self.old)) }
        ensures stays { result ≡ Ok false → self.new ≡ self.old }
    {
        let Some(at) = end else {
            return Ok(false);
        };
        if !self.are_below(txn) {
            return Ok(false);
        }
        self.rows.push((*txn, at))?;
        Ok(true)
    }
}
