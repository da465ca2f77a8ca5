//! The losers of a log. It sees no page.

ghost use Rattle.std.specs.Prelude.{◌≡◌, ℕ, ◌<◌, length, Err, IfOk, OnOk};
ghost use Rattle.sd_log.specs.Logs.{AreSpelled, flats};
ghost use Rattle.sd_chain.specs.Faults.{IsFirstMisplaced};
ghost use Rattle.sd_recovered.specs.Losers.{AreLosers, AreTidy};
ghost use Rattle.sd_recovered.specs.Misplaced.{IsLeast};
ghost use Rattle.sd_recovered.specs.Seen.{TellsAll};
ghost use Rattle.sd_recovered.specs.declared.losers.AnalysisError.TheVariants as F;

use crate::transactions::{Known, least, note_run};
use sd_base::{Lsn, Memory, Sequence, TxnId};
use sd_log::Placed;
use std::alloc::{AllocFailed, Global};

/// A transaction without a Commit or End: what it has open, by the indices of the records in their log, the top last; and the
/// LSNs of its first and last record.
#[derive(Drop)]
pub struct Loser {
    pub txn: TxnId,
    pub open: Sequence<usize>,
    pub first: Lsn,
    pub last: Lsn,
}

/// The losers of a log, in rising order.
pub type Losers = Sequence<Loser>;

/// Why a log has no losers.
#[derive(Clone, Copy, Debug, PartialEq, Eq)]
pub enum AnalysisError {
    /// The record of this index isn't in its transaction's order.
    Disorder { at: usize },
    /// There was no memory.
    Memory,
}

impl From<Memory> for AnalysisError {
    ghost from_gives = { λ _ fault. fault ≡ F.Memory };

    fn from(_: Memory) -> Self {
        AnalysisError::Memory
    }
}

impl<T: Drop> From<AllocFailed<T>> for AnalysisError {
    ghost from_gives = { λ _ fault. fault ≡ F.Memory };

    fn from(_: AllocFailed<T>) -> Self {
        AnalysisError::Memory
    }
}

/// The losers of a log, each with what it has open and the LSNs of its first and last record.
///
/// `Disorder` comes exactly where some transaction's records aren't in order, with the index of the first one that isn't:
/// it closes its transaction and a record of that stands behind it, it doesn't name the record of its transaction before
/// it, it ends what is open, it undoes something else than the top, or it begins a transaction that stays open and names a
/// record before it.
pub fn analyse(alloc: Global, log: &[Placed]) -> Result<Losers, AnalysisError>
    requires spelled { AreSpelled log.now }
    ensures in_order { OnOk result (AreTidy log.now) }
    ensures losers { IfOk result (AreLosers log.now) }
    ensures disorder { (at : ℕ) → result ≡ Err (F.Disorder at) → AreTidy log.now → ⊥ }
    ensures place { (at : ℕ) → result ≡ Err (F.Disorder at) → at < length log.now }
    ensures first { (at : ℕ) → result ≡ Err (F.Disorder at) → IsFirstMisplaced (flats log.now) at }
{
    let mut known = Known::new(alloc);
    let mut worst = None;
    let mut at = 0;
    while at < log.len() {
        (at, worst) = note_run(alloc, &mut known, log, at, worst)?;
    }
    losers_of(alloc, log, known, worst)
}

// Those that aren't closed, once the whole log is noted, and `worst` is the least index that is misplaced so far. One whose
// first record isn't the first that it wrote must be closed.
fn losers_of(
    alloc: Global,
    log: &[Placed],
    known: Known,
    worst: Option<usize>,
) -> Result<Losers, AnalysisError>
    requires known { TellsAll log.now (flats log.now) known.closed known.rows.entries }
    requires least { IsLeast (flats log.now) worst }
    ensures in_order { OnOk result (AreTidy log.now) }
    ensures losers { IfOk result (AreLosers log.now) }
    ensures first { (at : ℕ) → result ≡ Err (F.Disorder at) → IsFirstMisplaced (flats log.now) at }
{
    let mut losers = Vec::new(alloc);
    let mut worst = worst;
    for (txn, seen) in known.rows {
        if seen.closed.is_some() {
            continue;
        }
        worst = least(worst, seen.late());
        losers.push(Loser {
            txn,
            open: Sequence::of(seen.open),
            first: log[seen.first].rec.lsn(),
            last: seen.last,
        })?;
    }
    match worst {
        Some(at) => Err(AnalysisError::Disorder { at }),
        None => Ok(Sequence::of(losers)),
    }
}
