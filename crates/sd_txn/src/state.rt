//! How a transaction stands, and what it has open.

use sd_base::{Bytes, Lsn, Rid};

/// How an unresolved transaction stands.
#[derive(Clone, Copy, Debug, PartialEq, Eq)]
pub enum TxnState {
    /// It runs.
    Running,
    /// It rolls back until so many records are open; wholly where no number is given.
    Rolling { target: Option<usize> },
    /// Its instance failed before its commit.
    Retained,
    /// A failure cut its commit.
    Doubt,
    /// Its commit was cut, and recovery found it committed; it stays unresolved until it is finished.
    Committed,
}

/// A record of the log that a rollback undoes: its LSN, the LSN of the transaction's record before it, the record that
/// it changed, and the value that was there.
#[derive(Drop)]
pub struct OpenRec {
    pub lsn: Lsn,
    pub prev: Lsn,
    pub rid: Rid,
    pub before: Option<Bytes>,
}
