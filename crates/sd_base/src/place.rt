//! How a page is held, where it is, and how an instance stands.

ghost use Rattle.std.specs.Prelude.{◌≡◌};
ghost use Rattle.sd_base.specs.Standing.{active_as, is_down, is_up};

use crate::{InstNo, InstSet};

/// How a record or a page is held.
#[derive(Clone, Copy, Debug, PartialEq, Eq)]
pub enum Mode {
    Shared,
    Excl,
}

/// Where a page is, as the page directory has it. A page is changed where its disk image isn't its newest version.
#[derive(Clone, Copy, Debug, PartialEq, Eq)]
pub enum Place {
    /// In no pool, and as on disk.
    Free,
    /// In the pools of the set. A changed page has a writer, one of the set, whose duty the page write is.
    Shared {
        set: InstSet,
        writer: Option<InstNo>,
    },
    /// In one pool, which alone may change it.
    Excl {
        holder: InstNo,
        dirty: bool,
    },
    /// On its way to a pool, with copies left in the pools of `rest`.
    Moving {
        to: InstNo,
        mode: Mode,
        rest: InstSet,
        dirty: bool,
    },
    /// In no pool, with changes that only logs have.
    Lost,
}

/// How an instance stands.
#[derive(Clone, Copy, Debug, PartialEq, Eq)]
pub enum Status {
    /// It runs transactions.
    Up,
    /// It failed, and nobody recovers it.
    Down,
    /// It is being recovered by this instance.
    Recovering { by: InstNo },
    /// It has nothing to recover, and hasn't joined.
    Clean,
    /// It has recovered itself, and hasn't joined.
    Restarting,
    /// The whole complex failed, and wasn't reopened.
    Closed,
}

impl Status {
    /// Whether instance `i`, which is in this status, is active: it runs transactions, or recovers itself or another. So it may have pages,
    /// be forced, and fail.
    pub fn is_active(self, i: InstNo) -> bool
        ensures { result ≡ active_as i self }
    {
        match self {
            Status::Up | Status::Restarting => true,
            Status::Recovering { by } => by == i,
            Status::Down | Status::Clean | Status::Closed => false,
        }
    }

    /// Whether an instance in this status is up: it runs transactions.
    pub fn is_up(self) -> bool
        ensures { result ≡ is_up self }
    {
        matches!(self, Status::Up)
    }

    /// Whether an instance in this status is down: it failed, and nobody recovers it.
    pub fn is_down(self) -> bool
        ensures { result ≡ is_down self }
    {
        matches!(self, Status::Down)
    }
}
