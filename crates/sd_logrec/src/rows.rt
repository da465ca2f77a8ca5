//! The lists of a checkpoint's end: small owned lists of items that are `Copy`.

ghost use Rattle.std.specs.Prelude.{◌≡◌, List};

use sd_base::{Lsn, PageNo, TxnId};
use std::marker::Model;

/// A list that owns its items, which are copied as they are. Contracts see it as the list itself.
#[derive(Drop)]
pub struct Rows<X> {
    items: Vec<X>,
}

impl<X> Model for Rows<X> {
    ghost Value = { List X };

    ghost view = { λ r. r.items.items };
}

/// Unresolved transactions, each with the LSNs of its first and its last record.
pub type Spans = Rows<(TxnId, Lsn, Lsn)>;

/// Changed pages, each with its RecLSN, the LSN of its first change that the disk doesn't have.
pub type Recs = Rows<(PageNo, Lsn)>;

impl<X> Rows<X> {
    /// The list of these items. It takes no memory.
    pub fn of(items: Vec<X>) -> Self
        ensures { result ≡ items.items }
    {
        Rows { items }
    }

    /// Its items.
    pub fn items(&self) -> &[X]
        ensures { result.now ≡ self.now }
    {
        &self.items
    }

    /// Its items, given back without memory.
    pub fn into_items(self) -> Vec<X>
        ensures { result.items ≡ self }
    {
        self.items
    }
}
