//! Why a call is refused. The numbers, texts and causes are in docs/REFUSALS.md.

ghost use Rattle.std.specs.Prelude.{◌≡◌};
ghost use Rattle.sd_base.specs.declared.refusal.Refusal.TheVariants as R;

use crate::{Cycle, InstNo, Place, Status, TxnId};
use std::alloc::{AllocError, AllocFailed};
use std::error::Error;
use std::fmt;

/// A device or a stream failed: its count of faults rose.
#[derive(Clone, Copy, Debug, PartialEq, Eq)]
pub struct Failed;

/// There was no memory.
#[derive(Clone, Copy, Debug, PartialEq, Eq)]
pub struct Memory;

/// What is wrong with a script line, the first that holds.
#[derive(Clone, Copy, Debug, PartialEq, Eq)]
pub enum LineError {
    Size,
    Byte,
    Order,
    Word,
    Number,
    Name,
    Place,
    Used,
    Unknown,
}

/// Why a call is refused. Numbers 1 to 28 stand in their order; want of memory has none.
#[derive(Debug, Drop)]
pub enum Refusal {
    /// 1: a device failed in this call.
    Failed,
    /// 2: the page has no room for a new slot.
    PageFull,
    /// 3: the record is absent.
    NoRecord,
    /// 4: a value or capacity is over 256 bytes or over the slot's capacity, or a sum has more than 18 digits.
    TooLong,
    /// 5: no log record starts at this byte.
    BadRecord { at: u64 },
    /// 6: the log has no room.
    LogFull,
    /// 7: LSNs, epochs or sequence numbers are at their end.
    LsnEnd,
    /// 8: the group at this place breaks the log's format.
    BadLog { at: u64 },
    /// 9: the buffer pool has no free frame.
    PoolFull,
    /// 10: this transaction, the lowest such, holds a conflicting lock.
    Blocked { by: TxnId },
    /// 11: the wait would close this cycle.
    Deadlock { cycle: Cycle },
    /// 12: the instance has 64 unresolved transactions.
    TooManyTxns,
    /// 13: the transaction has no mark of that name.
    NoSavepoint,
    /// 14: the instance doesn't hold the page in the needed mode.
    NeedPage { place: Place },
    /// 15: the instance isn't active.
    Down,
    /// 16: the page is lost.
    Lost,
    /// 17: the transaction rolls back, or has changed a listed record.
    Busy { by: TxnId },
    /// 18: a device failed in this commit, which is in doubt.
    CutCommit,
    /// 19: no other instance asks for the page.
    NotAsked,
    /// 20: the instance is the only holder of a changed page.
    Dirty,
    /// 21: the page moves to this instance.
    MovingTo { to: InstNo },
    /// 22: no checkpoint is begun.
    NoCheck,
    /// 23: the instance isn't down.
    NotDown { status: Status },
    /// 24: the instance isn't recovered.
    NotRecovered { status: Status },
    /// 25: the devices aren't sound; the first failing check names this place.
    Damaged { dev: u8, at: u64 },
    /// 26: the script's line is bad.
    BadLine { line: u32, cause: LineError },
    /// 27: there is no such transaction now.
    NoTxn,
    /// 28: the value isn't a number.
    NotNumber,
    /// There was no memory.
    Memory,
}

impl Refusal {
    /// The refusal of devices of which this one isn't sound at this byte.
    pub fn damaged(dev: u8, at: u64) -> Refusal
        ensures { result ≡ R.Damaged dev at }
    {
        Refusal::Damaged { dev, at }
    }
}

impl From<Failed> for Refusal {
    ghost from_gives = { λ _ r. r ≡ R.Failed };

    fn from(_: Failed) -> Self {
        Refusal::Failed
    }
}

impl From<Memory> for Refusal {
    ghost from_gives = { λ _ r. r ≡ R.Memory };

    fn from(_: Memory) -> Self {
        Refusal::Memory
    }
}

impl From<AllocError> for Refusal {
    ghost from_gives = { λ _ r. r ≡ R.Memory };

    fn from(_: AllocError) -> Self {
        Refusal::Memory
    }
}

impl<T: Drop> From<AllocFailed<T>> for Refusal {
    ghost from_gives = { λ _ r. r ≡ R.Memory };

    fn from(_: AllocFailed<T>) -> Self {
        Refusal::Memory
    }
}

impl From<AllocError> for Memory {
    fn from(_: AllocError) -> Self {
        Memory
    }
}

impl<T: Drop> From<AllocFailed<T>> for Memory {
    fn from(_: AllocFailed<T>) -> Self {
        Memory
    }
}

impl fmt::Display for Failed {
    fn fmt<W: fmt::Write>(&self, f: &mut fmt::Formatter<W>) -> fmt::Result {
        f.write_str("a device or a stream failed")
    }
}

impl fmt::Display for Memory {
    fn fmt<W: fmt::Write>(&self, f: &mut fmt::Formatter<W>) -> fmt::Result {
        f.write_str("out of memory")
    }
}

impl Error for Failed {}

impl Error for Memory {}
