//! What the ends of transactions take of a log, as sums that run along. It sees no transaction's id.

ghost use Rattle.std.specs.Prelude.{◌≡◌, ◌+◌, ◌-◌, ◌*◌, ◌^◌, min};
ghost use Rattle.sd_txn.specs.Kept.{IsWith, IsWithin};
ghost use Rattle.sd_txn.specs.Owing.{undo_len as len_of};

use crate::OpenRec;
use crate::txn::Txn;
use sd_base::value_len;
use sd_logrec::{CLR_LEN, END_LEN, GROUP_HEAD};

/// The bytes of the undo of an open record: a group with one compensation record, which has the value before.
pub(crate) fn undo_len(rec: &OpenRec) -> u64
    ensures { result ≡ len_of rec.now }
{
    (GROUP_HEAD + CLR_LEN + value_len(&rec.before)) as u64
}

/// Sums over transactions: the bytes of the undo of their open records, how many records are open, and how many of the
/// transactions have a record in the log.
#[derive(Drop)]
pub(crate) struct Owed {
    pub(crate) undo: u64,
    pub(crate) records: u64,
    pub(crate) spans: u64,
}

impl Owed {
    /// The bytes that the ends take, each with its undo.
    pub(crate) fn bytes(&self) -> u64
        ensures { result ≡ min (31 * self.now.spans + self.now.undo) (2 ^ 64 - 1) }
    {
        self.undo
            .saturating_add(self.spans.saturating_mul((GROUP_HEAD + END_LEN) as u64))
    }

    /// The records that the ends take.
    pub(crate) fn count(&self) -> u64
        ensures { result ≡ min (self.now.spans + self.now.records) (2 ^ 64 - 1) }
    {
        self.spans.saturating_add(self.records)
    }

    /// Takes the part of a transaction away.
    pub(crate) fn forget(&mut self, txn: &Txn)
        requires { IsWithin txn.now self.old }
        ensures { IsWith txn.now self.new self.old }
    {
        self.undo -= txn.undo();
        self.records -= txn.depth() as u64;
        if txn.span().is_some() {
            self.spans -= 1;
        }
    }
}
