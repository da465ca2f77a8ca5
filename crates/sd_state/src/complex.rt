//! The complex: its parts.

use sd_base::{InstNo, Lsn, Status};
use sd_log::Log;
use sd_logrec::{Recs, Spans};
use sd_page::Image;
use sd_pagelock::Directory;
use sd_pool::Pool;
use sd_reclock::RecordLocks;
use sd_txn::TxnTable;

/// A checkpoint that an instance has begun: the LSN of its begin, and the tables of its begin, of transactions and of RecLSNs
/// (ARIES, section 5.4). The log before the least LSN of these isn't needed once it ends.
#[derive(Drop)]
pub struct Checkpoint {
    pub begin: Lsn,
    pub spans: Spans,
    pub recs: Recs,
}

/// A fall that is due: the instance that acted, and the log that it failed to force.
#[derive(Clone, Copy, PartialEq, Eq)]
pub struct Due {
    pub inst: InstNo,
    pub log: InstNo,
}

/// What a complex is made for: instances 1 to `insts`, pages 0 to `pages` less one, and so many frames in each pool.
#[derive(Clone, Copy, PartialEq, Eq)]
pub struct Shape {
    pub insts: u8,
    pub pages: u16,
    pub frames: u16,
}

/// Eight instances over the nine devices of a rig. What is kept of instances is in the order of their numbers.
#[derive(Drop)]
pub struct Complex<G> {
    pub rig: G,
    pub logs: Vec<Log>,
    pub pools: Vec<Pool>,
    pub directory: Directory<Box<Image>>,
    pub locks: RecordLocks,
    pub txns: Vec<TxnTable>,
    pub statuses: Vec<Status>,
    pub epochs: Vec<u32>,
    /// The count of each log's master that counts.
    pub masters: Vec<u64>,
    /// The checkpoint that each has begun.
    pub checks: Vec<Option<Checkpoint>>,
    /// The other place at which a log may begin, where a put of its master failed and the log isn't settled since.
    pub others: Vec<Option<u32>>,
    /// How many records each log owes as it is forced.
    pub owed: Vec<u64>,
    /// The greatest LSN of a page on device 0 when the complex was opened.
    pub disk_lsn: Lsn,
    /// Of each of the nine devices: it isn't settled.
    pub loose: Vec<bool>,
    /// The fall that is due, if one is.
    pub due: Option<Due>,
}
