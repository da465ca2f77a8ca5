//! A log record as a value.

ghost use Rattle.std.specs.Prelude.{◌≡◌, length, IfOk};
ghost use Rattle.sd_logrec.specs.Spelling.{spelling, spelled_length, HasSpelling};
ghost use Rattle.sd_logrec.specs.View.{flat, is_closing, page_of};

use crate::layout::{CLR_LEN, END_LEN};
use crate::{Recs, Spans};
use sd_base::{Bytes, Lsn, PageNo, TxnId, value_len};

/// A record of an instance's log. `prev` is the LSN of the transaction's former record, or 0.
#[derive(Drop)]
pub enum Record {
    /// The instance starts an epoch.
    Start {
        lsn: Lsn,
        epoch: u32,
    },
    /// A slot's value is changed, or a slot of `capacity` bytes is made; a value of `None` is a dead slot.
    Update {
        lsn: Lsn,
        txn: TxnId,
        prev: Lsn,
        page: PageNo,
        slot: u16,
        capacity: u16,
        before: Option<Bytes>,
        after: Option<Bytes>,
    },
    /// An update is undone; `undo_next` is the LSN of the next record to undo, or 0.
    Clr {
        lsn: Lsn,
        txn: TxnId,
        prev: Lsn,
        undo_next: Lsn,
        page: PageNo,
        slot: u16,
        after: Option<Bytes>,
    },
    /// The transaction commits.
    Commit {
        lsn: Lsn,
        txn: TxnId,
        prev: Lsn,
    },
    /// The transaction is rolled back.
    End {
        lsn: Lsn,
        txn: TxnId,
        prev: Lsn,
    },
    /// A checkpoint begins.
    BeginCheck {
        lsn: Lsn,
    },
    /// The checkpoint that began at `begin` ends.
    EndCheck {
        lsn: Lsn,
        begin: Lsn,
        spans: Spans,
        recs: Recs,
    },
}

impl Record {
    /// Its LSN.
    pub fn lsn(&self) -> Lsn
        ensures { result ≡ (flat self.now).lsn }
    {
        match self {
            Record::Start { lsn, .. }
            | Record::Update { lsn, .. }
            | Record::Clr { lsn, .. }
            | Record::Commit { lsn, .. }
            | Record::End { lsn, .. }
            | Record::BeginCheck { lsn }
            | Record::EndCheck { lsn, .. } => *lsn,
        }
    }

    /// The length of its spelling in bytes.
    pub fn len(&self) -> usize
        requires { HasSpelling self.now }
        ensures { result ≡ length (spelling self.now) }
    {
        match self {
            Record::Start { .. } => 13,
            Record::Update { before, after, .. } => 38 + value_len(before) + value_len(after),
            Record::Clr { after, .. } => CLR_LEN + value_len(after),
            Record::Commit { .. } => END_LEN,
            Record::End { .. } => END_LEN,
            Record::BeginCheck { .. } => 9,
            Record::EndCheck { spans, recs, .. } => {
                21 + 25 * spans.items().len() + 12 * recs.items().len()
            }
        }
    }

    /// The page that it changes, of an Update or a CLR.
    pub fn page(&self) -> Option<PageNo>
        ensures { result ≡ page_of self.now }
    {
        match self {
            Record::Update { page, .. } | Record::Clr { page, .. } => Some(*page),
            _ => None,
        }
    }

    /// Whether it ends what an earlier record of its transaction began: whether it is a CLR, a Commit or an End.
    pub fn is_closing(&self) -> bool
        ensures { result ≡ is_closing self.now }
    {
        match self {
            Record::Clr { .. } | Record::Commit { .. } | Record::End { .. } => true,
            _ => false,
        }
    }
}
