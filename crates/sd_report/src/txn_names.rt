//! Names of transactions.

ghost use Rattle.std.specs.Prelude.{◌≡◌, None, Some, option_map, OnErr, OnOk};
ghost use Rattle.std.specs.Map.{update};
ghost use Rattle.sd_base.specs.Ids.{same_txn};
ghost use Rattle.sd_base.specs.declared.ids.TxnId.{TxnId};

use sd_base::{Memory, TxnId};
use std::alloc::Global;
use std::collections::BTreeMap;

/// A map from transactions to names.
#[derive(Drop)]
pub struct TxnNames {
    map: BTreeMap<TxnId, Vec<u8>>,
}

impl TxnNames {
    ghost use Rattle.sd_report.specs.Names.{name_in};

    /// A map without names.
    pub fn new(alloc: Global) -> Self
        ensures { (t : TxnId) → name_in result t ≡ None }
    {
        TxnNames {
            map: BTreeMap::new(alloc),
        }
    }

    /// Gives the transaction this name. `Memory` comes where there is none, and all have the names that they had.
    pub fn insert(&mut self, txn: TxnId, name: Vec<u8>) -> Result<(), Memory>
        ensures named { OnOk result ((t : TxnId) → name_in self.new t
            ≡ update same_txn (name_in self.old) txn (Some name.items) t) }
        ensures stays { OnErr result ((t : TxnId) → name_in self.new t ≡ name_in self.old t) }
    {
        self.map.insert(txn, name)?;
        Ok(())
    }

    /// The name of this transaction.
    pub fn get(&self, txn: &TxnId) -> Option<&[u8]>
        ensures { option_map (λ name. name.now) result ≡ name_in self.now txn.now }
    {
        match self.map.get(txn) {
            Some(name) => Some(&name[..]),
            None => None,
        }
    }
}
