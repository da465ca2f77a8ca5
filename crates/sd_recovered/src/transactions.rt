//! What the records so far tell of each transaction.

ghost use Rattle.std.specs.Prelude.{◌≡◌, ◌⊎◌, ℕ, ◌+◌, ◌<◌, ◌≤◌, [], length, take, cond, None, Some, IfOk, OnOk, true};
ghost use Rattle.sd_log.specs.Logs.{flats};
ghost use Rattle.sd_logrec.specs.View.{flat};
ghost use Rattle.sd_chain.specs.Order.{speaks};
ghost use Rattle.sd_recovered.specs.Misplaced.{Covers, IsLeast};
ghost use Rattle.sd_recovered.specs.Seen.{Keeps, OthersStay, Tells, TellsAll};

use crate::closed::Closed;
use crate::seen::{Seen, prev_of};
use sd_base::{Memory, TxnId};
use sd_log::Placed;
use sd_logrec::Record;
use std::alloc::Global;
use std::collections::BTreeMap;

/// What the records so far tell of each transaction: those that are closed, as far as they were closed in rising order, and what
/// is seen of each other one.
#[derive(Drop)]
pub(crate) struct Known {
    pub(crate) closed: Closed,
    pub(crate) rows: BTreeMap<TxnId, Seen>,
}

impl Known {
    /// Before the first record.
    pub(crate) fn new(alloc: Global) -> Known
        ensures closed { result.closed ≡ [] }
        ensures rows { result.rows.entries ≡ [] }
    {
        Known {
            closed: Closed::new(alloc),
            rows: BTreeMap::new(alloc),
        }
    }

    // Keeps what is seen of a transaction of which nothing is kept.
    fn keep(&mut self, txn: TxnId, seen: Seen) -> Result<(), Memory>
        ensures { OnOk result (Keeps txn seen self.old.closed self.old.rows.entries self.new.closed self.new.rows.entries) }
    {
        if self.closed.put(&txn, seen.end())? {
            return Ok(());
        }
        self.rows.insert(txn, seen)?;
        Ok(())
    }
}

/// Takes note of the records from this index on that speak of one transaction: the index behind them, and the least index
/// that is misplaced so far.
pub(crate) fn note_run(
    alloc: Global,
    known: &mut Known,
    log: &[Placed],
    at: usize,
    worst: Option<usize>,
) -> Result<(usize, Option<usize>), Memory>
    requires inside { at < length log.now }
    requires known { TellsAll log.now (flats (take at log.now)) known.old.closed known.old.rows.entries }
    requires least { IsLeast (flats (take at log.now)) worst }
    ensures further { IfOk result (λ r. at < r.0) }
    ensures inside { IfOk result (λ r. r.0 ≤ length log.now) }
    ensures known { IfOk result (λ r. TellsAll log.now (flats (take r.0 log.now)) known.new.closed known.new.rows.entries) }
    ensures least { IfOk result (λ r. IsLeast (flats (take r.0 log.now)) r.1) }
{
    let rec = &log[at].rec;
    let Some(txn) = txn_of(rec) else {
        return Ok((at + 1, worst));
    };
    if let Some(end) = known.closed.find(&txn) {
        return Ok((at + 1, least(worst, Some(end))));
    }
    let fresh = Seen::new(alloc, at, prev_of(rec));
    let mut seen = known.rows.remove(&txn).unwrap_or(fresh);
    let found = seen.misplaced(log, at, rec);
    seen.note(at, rec)?;
    let (next, worst) = note_rest(&mut seen, log, at + 1, &txn, least(worst, found))?;
    known.keep(txn, seen)?;
    Ok((next, worst))
}

// Takes note of the records from this index on that speak of this transaction, of which some are noted.
fn note_rest(
    seen: &mut Seen,
    log: &[Placed],
    from: usize,
    txn: &TxnId,
    worst: Option<usize>,
) -> Result<(usize, Option<usize>), Memory>
    requires inside { from ≤ length log.now }
    requires tells { Tells log.now (flats (take from log.now)) txn.now seen.old }
    requires least { IsLeast (flats (take from log.now)) worst }
    ensures further { IfOk result (λ r. from ≤ r.0) }
    ensures inside { IfOk result (λ r. r.0 ≤ length log.now) }
    ensures tells { IfOk result (λ r. Tells log.now (flats (take r.0 log.now)) txn.now seen.new) }
    ensures least { IfOk result (λ r. IsLeast (flats (take r.0 log.now)) r.1) }
    ensures others { IfOk result (λ r. OthersStay log.now txn.now (flats (take from log.now)) (flats (take r.0 log.now))) }
{
    let mut worst = worst;
    for at in from..log.len() {
        let rec = &log[at].rec;
        if !is_of(rec, txn) {
            return Ok((at, worst));
        }
        worst = least(worst, seen.misplaced(log, at, rec));
        seen.note(at, rec)?;
    }
    Ok((log.len(), worst))
}

// The lower one of two indices, where there are two.
pub(crate) fn least(one: Option<usize>, other: Option<usize>) -> Option<usize>
    ensures either { (result ≡ one) ⊎ (result ≡ other) }
    ensures covers { (j : ℕ) → Covers one j ⊎ Covers other j → Covers result j }
{
    match (one, other) {
        (Some(i), Some(j)) => Some(i.min(j)),
        (Some(i), None) => Some(i),
        (None, other) => other,
    }
}

// Whether the record speaks of this transaction.
fn is_of(rec: &Record, txn: &TxnId) -> bool
    ensures { result ≡ true → Some txn.now ≡ cond (speaks (flat rec.now).kind) (Some (flat rec.now).txn) None }
{
    match txn_of(rec) {
        Some(own) => own == *txn,
        None => false,
    }
}

// The transaction that the record speaks of.
fn txn_of(rec: &Record) -> Option<TxnId>
    ensures { result ≡ cond (speaks (flat rec.now).kind) (Some (flat rec.now).txn) None }
{
    match rec {
        Record::Update { txn, .. }
        | Record::Clr { txn, .. }
        | Record::Commit { txn, .. }
        | Record::End { txn, .. } => Some(*txn),
        _ => None,
    }
}
