//! What is asked of the complex, and what it answers.

ghost use Rattle.std.specs.Prelude.{◌≡◌};
ghost use Rattle.sd_model.specs.Replies.{began_by, is_did, is_failed, is_joined, is_rows, is_step, wants_page};

use crate::rows::Rows;
use sd_base::{Bytes, InstNo, Lsn, Mode, PageNo, Pick, Place, Refusal, Rid, Trouble, TxnId, Word};

/// What is asked.
#[derive(Drop)]
pub enum Event {
    /// Begin a transaction at the instance.
    Begin {
        inst: InstNo,
    },
    /// Read the record.
    Read {
        txn: TxnId,
        rid: Rid,
    },
    /// Put the value in place of the record's.
    Write {
        txn: TxnId,
        rid: Rid,
        value: Bytes,
    },
    /// Add the number to the record's number text.
    Add {
        txn: TxnId,
        rid: Rid,
        by: i64,
    },
    /// Make a record of the value in the page, in a slot of this capacity in bytes.
    Insert {
        txn: TxnId,
        page: PageNo,
        value: Bytes,
        capacity: u16,
    },
    /// Make the record absent.
    Delete {
        txn: TxnId,
        rid: Rid,
    },
    /// Set a mark to roll back to.
    Save {
        txn: TxnId,
        mark: Word,
    },
    /// Begin to roll back, to the mark or wholly.
    Back {
        txn: TxnId,
        mark: Option<Word>,
    },
    /// Undo the last change, or end the rollback where none is left to undo.
    Undo {
        txn: TxnId,
    },
    /// Commit.
    Commit {
        txn: TxnId,
    },
    /// List the committed records of the page.
    List {
        inst: InstNo,
        page: PageNo,
    },
    /// Ask for the page in the mode.
    Ask {
        inst: InstNo,
        page: PageNo,
        mode: Mode,
    },
    /// Give the page to the oldest asker.
    Give {
        inst: InstNo,
        page: PageNo,
    },
    /// Take the page that moves to the instance.
    Take {
        inst: InstNo,
        page: PageNo,
    },
    /// Drop the instance's copy of the page.
    Evict {
        inst: InstNo,
        page: PageNo,
    },
    /// Write the page to the data device.
    Flush {
        inst: InstNo,
        page: PageNo,
    },
    /// Force the instance's log.
    Force {
        inst: InstNo,
    },
    /// Begin a checkpoint.
    CheckBegin {
        inst: InstNo,
    },
    /// End the begun checkpoint.
    CheckEnd {
        inst: InstNo,
    },
    /// Let the instance fail.
    Fail {
        inst: InstNo,
    },
    /// Let the whole complex fail; pending bytes become what `pick` says.
    FailAll {
        pick: Pick,
    },
    /// Begin the recovery of `inst` by `by`.
    RecoverBegin {
        inst: InstNo,
        by: InstNo,
    },
    /// Make one step of the instance's recovery.
    RecoverStep {
        inst: InstNo,
    },
    /// Let the instance join.
    Join {
        inst: InstNo,
    },
    /// Open the closed complex again.
    Reopen,
    /// Arm a trouble of the devices.
    Arm {
        trouble: Trouble,
    },
    /// Show where the page is.
    Show {
        page: PageNo,
    },
}

/// What is answered.
#[derive(Drop)]
pub enum Reply {
    /// This transaction began.
    Began(TxnId),
    /// The record's value, or that it is absent.
    Value(Option<Bytes>),
    /// It is done.
    Did,
    /// The new record is here.
    At(Rid),
    /// The committed records of the page, rising by slot.
    Rows(Rows),
    /// The instance has the page as it asked.
    Have,
    /// This instance was asked for the page.
    Asked { of: InstNo },
    /// The page moves to this instance.
    Gave { to: InstNo },
    /// One step was made, and more may be left.
    Step,
    /// Nothing is left to do.
    Finished,
    /// The instance is up in this epoch.
    Joined { epoch: u32 },
    /// Where the page is, and the LSN of its newest version, or 0.
    Shown { place: Place, lsn: Lsn },
    /// It is refused.
    Refused(Refusal),
}

impl Reply {
    /// The transaction that began, if one did.
    pub fn began(&self) -> Option<TxnId>
        ensures { result ≡ began_by self.now }
    {
        match self {
            Reply::Began(txn) => Some(*txn),
            _ => None,
        }
    }

    /// Whether an instance joined.
    pub fn is_joined(&self) -> bool
        ensures { result ≡ is_joined self.now }
    {
        matches!(self, Reply::Joined { .. })
    }

    /// Whether the reply has the rows of a page.
    pub fn is_rows(&self) -> bool
        ensures { result ≡ is_rows self.now }
    {
        matches!(self, Reply::Rows(_))
    }

    /// Whether it is done.
    pub fn is_did(&self) -> bool
        ensures { result ≡ is_did self.now }
    {
        matches!(self, Reply::Did)
    }

    /// Whether one step was made.
    pub fn is_step(&self) -> bool
        ensures { result ≡ is_step self.now }
    {
        matches!(self, Reply::Step)
    }

    /// Whether the reply wants a page.
    pub fn wants_page(&self) -> bool
        ensures { result ≡ wants_page self.now }
    {
        matches!(self, Reply::Refused(Refusal::NeedPage { .. }))
    }

    /// Whether the reply tells that a device failed.
    pub fn is_failed(&self) -> bool
        ensures { result ≡ is_failed self.now }
    {
        matches!(self, Reply::Refused(Refusal::Failed))
    }
}

/// An event with its reply.
#[derive(Drop)]
pub struct Entry {
    /// The session that asked; 0 is the caller.
    pub session: u8,
    /// The script's line that it serves; 0 where it only helps one.
    pub line: u32,
    pub event: Event,
    pub reply: Reply,
}
