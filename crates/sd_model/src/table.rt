//! A table of records: a finite map from record to bytes.

ghost use Rattle.std.specs.Prelude.{◌≡◌, [], Some, OnOk, OnErr, cond, option_copied};
ghost use Rattle.sd_model.specs.Tables.{contents};
ghost use Rattle.sd_base.specs.Ids.{same_rid};
ghost use Rattle.sd_base.specs.declared.ids.Rid.{Rid};

use sd_base::{Bytes, Memory, Rid};
use std::alloc::Global;
use std::collections::BTreeMap;
use std::marker::Model;

/// Records with their values. Contracts see the list of its records; `contents` of the list says what a record has.
#[derive(Drop)]
pub struct Table {
    records: BTreeMap<Rid, Bytes>,
}

impl Model for Table {
    ghost use Rattle.std.specs.Prelude.{List, ℕ};
    ghost use Rattle.sd_base.specs.declared.ids.Rid.{Rid};

    ghost Value = { List (Rid × List ℕ) };

    ghost view = { λ t. t.records.entries };
}

impl Table {
    /// A table without records. It takes no memory.
    pub fn new(alloc: Global) -> Table
        ensures empty { result ≡ [] }
    {
        Table {
            records: BTreeMap::new(alloc),
        }
    }

    /// The record's value; `None` exactly where it is absent.
    pub fn get(&self, rid: Rid) -> Option<&[u8]>
        ensures value { option_copied result ≡ contents self.now rid }
    {
        match self.records.get(&rid) {
            Some(value) => Some(value.items()),
            None => None,
        }
    }

    /// Puts the value at the record, in place of one that was there. After `Memory` the table is as before.
    pub fn put(&mut self, rid: Rid, value: Bytes) -> Result<(), Memory>
        ensures put { OnOk result ((r : Rid) → contents self.new r ≡ cond (same_rid rid r) (Some value) (contents self.old r)) }
        ensures same { OnErr result (self.new ≡ self.old) }
    {
        self.records.insert(rid, value)?;
        Ok(())
    }
}
