//! What transactions do to records, and where they stand.

use sd_base::{Bytes, Rid, Sequence, TxnId};

/// One thing that a transaction did; `None` stands for an absent record.
#[derive(Drop)]
pub enum Act {
    /// It found this at the record.
    Read { rid: Rid, value: Option<Bytes> },
    /// It put this at the record.
    Put { rid: Rid, value: Option<Bytes> },
    /// It took its last live put back.
    Undo,
}

/// A committed transaction with its acts, the first one first.
#[derive(Drop)]
pub struct Done {
    pub txn: TxnId,
    pub acts: Sequence<Act>,
}

/// The strongest claim that a transaction has on a record.
#[derive(Clone, Copy, PartialEq, Eq)]
pub enum Claim {
    Free,
    Shared,
    Excl,
}

/// What a transaction was doing when the force of its log failed.
#[derive(Clone, Copy, PartialEq, Eq)]
pub enum Cut {
    Committing,
}

/// Where a transaction stands.
#[derive(Clone, Copy, PartialEq, Eq)]
pub enum Life {
    /// It isn't there.
    Gone,
    /// It runs.
    Running,
    /// Its instance failed, and its changes will be undone.
    Retained,
    /// It rolls back to this number of live puts, or wholly.
    Rolling { to: Option<usize> },
    /// Its force was cut, and nobody knows yet what became of it.
    Doubt { cut: Cut },
}

/// An instance: its status, its epoch, the begins in it, and its joins that failed since the epoch was told.
#[derive(Clone, Copy)]
pub struct Inst {
    pub status: sd_base::Status,
    pub epoch: u32,
    pub begins: u32,
    pub failed: u64,
}
