//! The tables of a checkpoint, as they stand when it begins: who has a record, and which pages are changed.

ghost use Rattle.std.specs.Prelude.{◌≡◌, ◌↔◌, ℕ, ◌+◌, ◌^◌, ◌<◌, ◌≤◌, Contains, IfOk, IsSome, Some, length, map};
ghost use Rattle.std.specs.BTreeMap.{btree_map_len};
ghost use Rattle.std.specs.Map.{lookup};
ghost use Rattle.sd_base.specs.Ids.{same_txn};
ghost use Rattle.sd_base.specs.declared.ids.TxnId.{TxnId};
ghost use Rattle.sd_ckpt.specs.Beginnings.{HasTables};
ghost use Rattle.sd_ckpt.specs.Rows.{IsInRange, flat_row};
ghost use Rattle.sd_logrec.specs.Spelling.{AreRecs, AreSpans};
ghost use Rattle.sd_pagelock.specs.Directory.{rec_lsn_at};
ghost use Rattle.sd_state.specs.Complexes.{begun_of};
ghost use Rattle.sd_state.specs.Good.{HasNumber};
ghost use Rattle.sd_state.specs.Parts.{least_of, low_of};
ghost use Rattle.sd_txn.specs.Transactions.{span_at, txn_at};

use sd_base::{Lsn, Memory, PAGES, PageNo, TxnId};
use sd_logrec::{Recs, Rows, Spans};
use sd_page::Image;
use sd_pagelock::Directory;
use sd_state::Checkpoint;
use sd_txn::TxnTable;
use std::alloc::Global;
use std::cmp;
use std::collections::BTreeMap;

/// The checkpoint that begins at this LSN, with the tables of this instance's transactions and of this directory.
pub(crate) fn begun_at(
    alloc: Global,
    begin: Lsn,
    txns: &TxnTable,
    directory: &Directory<Box<Image>>,
) -> Result<Checkpoint, Memory>
    requires few { length txns.now.unresolved ≤ 64 }
    requires numbered { (t : TxnId) → IsSome (txn_at txns.now t) → HasNumber t }
    ensures begin { IfOk result (λ k. k.begin ≡ begin) }
    ensures tables { IfOk result (λ k. HasTables (span_at txns.now) (rec_lsn_at directory.now) (begun_of k)) }
{
    let spans = spans_of(alloc, txns)?;
    let recs = recs_of(alloc, directory)?;
    Ok(Checkpoint { begin, spans, recs })
}

// Whoever of a table has a record, in rising order, with the LSNs of its first and its last.
fn spans_of(alloc: Global, txns: &TxnTable) -> Result<Spans, Memory>
    requires few { length txns.now.unresolved ≤ 64 }
    requires numbered { (t : TxnId) → IsSome (txn_at txns.now t) → HasNumber t }
    ensures rows { IfOk result (λ spans. (t : TxnId) (s : ℕ × ℕ)
        → (Contains spans (t, s.0, s.1) ↔ (span_at txns.now t ≡ Some s))) }
    ensures spelled { IfOk result AreSpans }
    ensures few { IfOk result (λ rows. length rows ≤ 64) }
{
    let spans = spans_by_txn(alloc, txns)?;
    in_order(alloc, spans)
}

// The LSNs of the first and the last record of each of a table that has one.
fn spans_by_txn(alloc: Global, txns: &TxnTable) -> Result<BTreeMap<TxnId, (Lsn, Lsn)>, Memory>
    ensures spans { IfOk result (λ spans. (t : TxnId) → lookup (same_txn t) spans.entries ≡ span_at txns.now t) }
    ensures few { IfOk result (λ spans. btree_map_len spans ≤ length txns.now.unresolved) }
{
    let mut spans = BTreeMap::new(alloc);
    for t in txns.unresolved() {
        if let Some(span) = txns.span(t) {
            spans.insert(*t, span)?;
        }
    }
    Ok(spans)
}

// The rows of a map of at most 64, which rise.
fn in_order(alloc: Global, spans: BTreeMap<TxnId, (Lsn, Lsn)>) -> Result<Spans, Memory>
    requires few { btree_map_len spans ≤ 64 }
    requires numbered { (t : TxnId) → IsSome (lookup (same_txn t) spans.entries) → HasNumber t }
    ensures rows { IfOk result (λ rows. (t : TxnId) (s : ℕ × ℕ)
        → (Contains rows (t, s.0, s.1) ↔ (lookup (same_txn t) spans.entries ≡ Some s))) }
    ensures spelled { IfOk result AreSpans }
    ensures few { IfOk result (λ rows. length rows ≤ 64) }
{
    let mut rows = Vec::new(alloc);
    for row in spans {
        rows.push(row_of(row))?;
    }
    Ok(Rows::of(rows))
}

// A row, whose numbers are in their ranges.
fn row_of(row: (TxnId, (Lsn, Lsn))) -> (TxnId, Lsn, Lsn)
    ensures row { result ≡ flat_row row }
    ensures ranges { IsInRange result }
{
    let (t, (first, last)) = row;
    t.keeps();
    (t, first, last)
}

// The changed pages, in rising order, with their RecLSNs.
fn recs_of(alloc: Global, directory: &Directory<Box<Image>>) -> Result<Recs, Memory>
    ensures rows { IfOk result (λ recs. (p l : ℕ) → (Contains recs (p, l) ↔ (rec_lsn_at directory.now p ≡ Some l))) }
    ensures spelled { IfOk result AreRecs }
{
    directory.keeps();
    let mut rows = Vec::new(alloc);
    for number in 0..PAGES {
        let page = PageNo::new(number).unwrap();
        if let Some(lsn) = directory.rec_lsn(page) {
            rows.push(rec_of(page, lsn))?;
        }
    }
    Ok(Rows::of(rows))
}

// A changed page with its RecLSN, which is in its range.
fn rec_of(page: PageNo, lsn: Lsn) -> (PageNo, Lsn)
    ensures row { result ≡ (page, lsn) }
    ensures small { lsn < 2 ^ 64 }
{
    (page, lsn)
}

/// The low of a checkpoint: the least LSN of its begin, of the first records of its transactions, and of the RecLSNs of its pages.
pub(crate) fn low_of(check: &Checkpoint) -> Lsn
    ensures { result ≡ low_of (begun_of check.now) }
{
    let low = least_rec(check.begin, check.recs.items());
    least_first(low, check.spans.items())
}

// The least of an LSN and these RecLSNs.
fn least_rec(low: Lsn, rows: &[(PageNo, Lsn)]) -> Lsn
    ensures { result ≡ least_of low (map (λ r. r.1) rows.now) }
{
    let mut least = low;
    for row in rows {
        least = cmp::min(least, row.1);
    }
    least
}

// The least of an LSN and those of the first records of these transactions.
fn least_first(low: Lsn, rows: &[(TxnId, Lsn, Lsn)]) -> Lsn
    ensures { result ≡ least_of low (map (λ s. s.1) rows.now) }
{
    let mut least = low;
    for row in rows {
        least = cmp::min(least, row.1);
    }
    least
}

/// A copy of the tables of a checkpoint.
pub(crate) fn tables_of(alloc: Global, check: &Checkpoint) -> Result<(Spans, Recs), Memory>
    ensures { IfOk result (λ tables. (tables.0 ≡ check.now.spans) × (tables.1 ≡ check.now.recs)) }
{
    let spans = check.spans.items().to_vec(alloc)?;
    let recs = check.recs.items().to_vec(alloc)?;
    Ok((Rows::of(spans), Rows::of(recs)))
}
