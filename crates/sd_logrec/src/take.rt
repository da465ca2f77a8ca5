//! A record read at the front of a slice, and the bytes behind it.

ghost use Rattle.std.specs.Prelude.{◌≡◌, ◌⊎◌, ◌≤◌, ◌+◌, ℕ, List, ◌++◌, length, drop, nat_lt, false, Some, IfOk, IfErr, Ok, Err};
ghost use Rattle.std.specs.Option.{option_map_or};
ghost use Rattle.sd_base.specs.Ids.{same_txn};
ghost use Rattle.sd_base.specs.declared.refusal.Refusal.TheVariants as R;
ghost use Rattle.sd_logrec.specs.declared.record.Record.{Record};
ghost use Rattle.sd_logrec.specs.Spelling.{spelling, HasSpelling, is_before, is_rising};
ghost use Rattle.sd_logrec.specs.View.{is_commit_of};
ghost use Rattle.sd_logrec.specs.Reading.{Finds, Gives, span_at, changed_at, items_at, spans_at, recs_at, start_at, update_at, clr_at, commit_at, end_at, end_check_at, fields_at, record_at};

use crate::fields::{
    byte_of, capacity_of, lsn_of, ordinal_of, page_of, slot_of, txn_of, u16_of, u64_of, value_of,
};
use crate::miss::Miss;
use crate::{Record, Recs, Rows, Spans};
use sd_base::{Lsn, PageNo, Refusal, TxnId};
use std::alloc::Global;

#[tactic(auto, unfolding(crate::specs::Reading::start_at))]
fn start_of(lsn: Lsn, bytes: &[u8]) -> Option<(Record, &[u8])>
    ensures { Finds (λ x. (x.0, x.1.now)) result (start_at lsn bytes.now) }
{
    let (epoch, rest) = ordinal_of(bytes)?;
    Some((Record::Start { lsn, epoch }, rest))
}

#[tactic(auto, unfolding(crate::specs::Reading::update_at))]
fn update_of(alloc: Global, lsn: Lsn, bytes: &[u8]) -> Result<(Record, &[u8]), Miss>
    ensures { Gives (λ x. (x.0, x.1.now)) result (update_at lsn bytes.now) }
{
    let Some((txn, rest)) = txn_of(bytes) else {
        return Err(Miss::Nothing);
    };
    let Some((prev, rest)) = u64_of(rest) else {
        return Err(Miss::Nothing);
    };
    let Some((page, rest)) = page_of(rest) else {
        return Err(Miss::Nothing);
    };
    let Some((slot, rest)) = slot_of(rest) else {
        return Err(Miss::Nothing);
    };
    let Some((capacity, rest)) = capacity_of(rest) else {
        return Err(Miss::Nothing);
    };
    let (before, rest) = value_of(alloc, rest)?;
    let (after, rest) = value_of(alloc, rest)?;
    let update = Record::Update {
        lsn,
        txn,
        prev,
        page,
        slot,
        capacity,
        before,
        after,
    };
    Ok((update, rest))
}

#[tactic(auto, unfolding(crate::specs::Reading::clr_at))]
fn clr_of(alloc: Global, lsn: Lsn, bytes: &[u8]) -> Result<(Record, &[u8]), Miss>
    ensures { Gives (λ x. (x.0, x.1.now)) result (clr_at lsn bytes.now) }
{
    let Some((txn, rest)) = txn_of(bytes) else {
        return Err(Miss::Nothing);
    };
    let Some((prev, rest)) = u64_of(rest) else {
        return Err(Miss::Nothing);
    };
    let Some((undo_next, rest)) = u64_of(rest) else {
        return Err(Miss::Nothing);
    };
    let Some((page, rest)) = page_of(rest) else {
        return Err(Miss::Nothing);
    };
    let Some((slot, rest)) = slot_of(rest) else {
        return Err(Miss::Nothing);
    };
    let (after, rest) = value_of(alloc, rest)?;
    let clr = Record::Clr {
        lsn,
        txn,
        prev,
        undo_next,
        page,
        slot,
        after,
    };
    Ok((clr, rest))
}

#[tactic(auto, unfolding(crate::specs::Reading::commit_at))]
fn commit_of(lsn: Lsn, bytes: &[u8]) -> Option<(Record, &[u8])>
    ensures { Finds (λ x. (x.0, x.1.now)) result (commit_at lsn bytes.now) }
{
    let Some((txn, rest)) = txn_of(bytes) else {
        return None;
    };
    let (prev, rest) = u64_of(rest)?;
    Some((Record::Commit { lsn, txn, prev }, rest))
}

#[tactic(auto, unfolding(crate::specs::Reading::end_at))]
fn end_of(lsn: Lsn, bytes: &[u8]) -> Option<(Record, &[u8])>
    ensures { Finds (λ x. (x.0, x.1.now)) result (end_at lsn bytes.now) }
{
    let Some((txn, rest)) = txn_of(bytes) else {
        return None;
    };
    let (prev, rest) = u64_of(rest)?;
    Some((Record::End { lsn, txn, prev }, rest))
}

#[tactic(auto, unfolding(crate::specs::Reading::span_at))]
fn span_of(bytes: &[u8]) -> Option<((TxnId, Lsn, Lsn), &[u8])>
    ensures { Finds (λ x. (x.0, x.1.now)) result (span_at bytes.now) }
{
    let Some((txn, rest)) = txn_of(bytes) else {
        return None;
    };
    let (first, rest) = u64_of(rest)?;
    let (last, rest) = u64_of(rest)?;
    Some(((txn, first, last), rest))
}

#[tactic(auto, unfolding(crate::specs::Reading::changed_at))]
fn changed_of(bytes: &[u8]) -> Option<((PageNo, Lsn), &[u8])>
    ensures { Finds (λ x. (x.0, x.1.now)) result (changed_at bytes.now) }
{
    let Some((page, rest)) = page_of(bytes) else {
        return None;
    };
    let (rec, rest) = u64_of(rest)?;
    Some(((page, rec), rest))
}

// So many transactions, each with its first and its last LSN.
fn span_list(
    alloc: Global,
    count: u16,
    bytes: &[u8],
) -> Result<(Vec<(TxnId, Lsn, Lsn)>, &[u8]), Miss>
    ensures { Gives (λ x. (x.0.items, x.1.now)) result (items_at span_at count bytes.now) }
{
    let mut spans = Vec::new(alloc);
    let mut rest = bytes;
    for _ in 0..count {
        let Some((span, behind)) = span_of(rest) else {
            return Err(Miss::Nothing);
        };
        spans.push(span)?;
        rest = behind;
    }
    Ok((spans, rest))
}

// So many pages, each with its RecLSN.
fn rec_list(alloc: Global, count: u16, bytes: &[u8]) -> Result<(Vec<(PageNo, Lsn)>, &[u8]), Miss>
    ensures { Gives (λ x. (x.0.items, x.1.now)) result (items_at changed_at count bytes.now) }
{
    let mut recs = Vec::new(alloc);
    let mut rest = bytes;
    for _ in 0..count {
        let Some((rec, behind)) = changed_of(rest) else {
            return Err(Miss::Nothing);
        };
        recs.push(rec)?;
        rest = behind;
    }
    Ok((recs, rest))
}

// Whether the transactions stand in their order, each once.
fn spans_rise(spans: &[(TxnId, Lsn, Lsn)]) -> bool
    ensures { result ≡ is_rising (λ s t. is_before s.0 t.0) spans.now }
{
    for i in 1..spans.len() {
        if !is_before(spans[i - 1].0, spans[i].0) {
            return false;
        }
    }
    true
}

// Whether the pages stand in their order, each once.
fn recs_rise(recs: &[(PageNo, Lsn)]) -> bool
    ensures { result ≡ is_rising (λ c d. nat_lt c.0 d.0) recs.now }
{
    for i in 1..recs.len() {
        if recs[i - 1].0.get() >= recs[i].0.get() {
            return false;
        }
    }
    true
}

// Whether a transaction stands before another: by instance, epoch and number.
fn is_before(t: TxnId, u: TxnId) -> bool
    ensures { result ≡ is_before t u }
{
    if t.inst.get() != u.inst.get() {
        return t.inst.get() < u.inst.get();
    }
    if t.epoch != u.epoch {
        return t.epoch < u.epoch;
    }
    t.seq < u.seq
}

#[tactic(auto, unfolding(crate::specs::Reading::spans_at))]
fn spans_of(alloc: Global, bytes: &[u8]) -> Result<(Spans, &[u8]), Miss>
    ensures { Gives (λ x. (x.0, x.1.now)) result (spans_at bytes.now) }
{
    let Some((count, rest)) = u16_of(bytes) else {
        return Err(Miss::Nothing);
    };
    let (spans, rest) = span_list(alloc, count, rest)?;
    if !spans_rise(&spans) {
        return Err(Miss::Nothing);
    }
    Ok((Rows::of(spans), rest))
}

#[tactic(auto, unfolding(crate::specs::Reading::recs_at))]
fn recs_of(alloc: Global, bytes: &[u8]) -> Result<(Recs, &[u8]), Miss>
    ensures { Gives (λ x. (x.0, x.1.now)) result (recs_at bytes.now) }
{
    let Some((count, rest)) = u16_of(bytes) else {
        return Err(Miss::Nothing);
    };
    let (recs, rest) = rec_list(alloc, count, rest)?;
    if !recs_rise(&recs) {
        return Err(Miss::Nothing);
    }
    Ok((Rows::of(recs), rest))
}

#[tactic(auto, unfolding(crate::specs::Reading::end_check_at))]
fn end_check_of(alloc: Global, lsn: Lsn, bytes: &[u8]) -> Result<(Record, &[u8]), Miss>
    ensures { Gives (λ x. (x.0, x.1.now)) result (end_check_at lsn bytes.now) }
{
    let Some((begin, rest)) = u64_of(bytes) else {
        return Err(Miss::Nothing);
    };
    let (spans, rest) = spans_of(alloc, rest)?;
    let (recs, rest) = recs_of(alloc, rest)?;
    let check = Record::EndCheck {
        lsn,
        begin,
        spans,
        recs,
    };
    Ok((check, rest))
}

// The fields of a record of this type.
#[tactic(auto, unfolding(crate::specs::Reading::fields_at))]
fn fields_of(alloc: Global, kind: u8, lsn: Lsn, bytes: &[u8]) -> Result<(Record, &[u8]), Miss>
    ensures { Gives (λ x. (x.0, x.1.now)) result (fields_at kind lsn bytes.now) }
{
    match kind {
        1 => start_of(lsn, bytes).ok_or(Miss::Nothing),
        2 => update_of(alloc, lsn, bytes),
        3 => clr_of(alloc, lsn, bytes),
        4 => commit_of(lsn, bytes).ok_or(Miss::Nothing),
        5 => end_of(lsn, bytes).ok_or(Miss::Nothing),
        6 => Ok((Record::BeginCheck { lsn }, bytes)),
        7 => end_check_of(alloc, lsn, bytes),
        _ => Err(Miss::Nothing),
    }
}

#[tactic(auto, unfolding(crate::specs::Reading::record_at))]
fn record_of(alloc: Global, bytes: &[u8]) -> Result<(Record, &[u8]), Miss>
    ensures { Gives (λ x. (x.0, x.1.now)) result (record_at bytes.now) }
{
    let Some((kind, rest)) = byte_of(bytes) else {
        return Err(Miss::Nothing);
    };
    let Some((lsn, rest)) = lsn_of(rest) else {
        return Err(Miss::Nothing);
    };
    fields_of(alloc, kind, lsn, rest)
}

impl Record {
    /// The record whose spelling stands at byte `at`, and the place of the byte behind it; more bytes may follow.
    ///
    /// `BadRecord` comes exactly where no record's spelling stands at `at`, so also where `at` isn't below the
    /// length. Otherwise only `Memory` comes.
    pub fn take(alloc: Global, bytes: &[u8], at: usize) -> Result<(Record, usize), Refusal>
        // What is taken has a spelling, which stands there.
        ensures found { IfOk result (λ found. HasSpelling found.0
            × (drop at bytes.now ≡ spelling found.0 ++ drop found.1 bytes.now)) }
        ensures place { IfOk result (λ found. found.1 ≡ at + length (spelling found.0)) }
        ensures inside { IfOk result (λ found. found.1 ≤ length bytes.now) }

        // A record whose spelling stands there is taken, whatever follows, unless memory runs out.
        ensures taken { (r : Record) (rest : List ℕ) → HasSpelling r → drop at bytes.now ≡ spelling r ++ rest
            → (result ≡ Ok (r, at + length (spelling r))) ⊎ (result ≡ Err R.Memory) }

        ensures refusals { IfErr result (λ e. (e ≡ R.BadRecord at) ⊎ (e ≡ R.Memory)) }
        ensures bad { result ≡ Err (R.BadRecord at)
            → (r : Record) (rest : List ℕ) → HasSpelling r → drop at bytes.now ≡ spelling r ++ rest → ⊥ }
    {
        if at > bytes.len() {
            return Err(Refusal::BadRecord { at: at as u64 });
        }
        let (_, front) = bytes.split_at(at);
        match record_of(alloc, front) {
            Ok((record, rest)) => Ok((record, bytes.len() - rest.len())),
            Err(Miss::Nothing) => Err(Refusal::BadRecord { at: at as u64 }),
            Err(Miss::Memory) => Err(Refusal::Memory),
        }
    }

    /// Whether the record whose spelling stands at byte `at` is a Commit of this transaction. It takes no memory.
    pub fn is_commit_at(bytes: &[u8], at: usize, t: &TxnId) -> bool
        requires inside { at ≤ length bytes.now }
        ensures { (r : Record) (rest : List ℕ) → HasSpelling r → drop at bytes.now ≡ spelling r ++ rest
            → result ≡ is_commit_of t.now r }
    {
        let (_, front) = bytes.split_at(at);
        match commit_in(front) {
            Some(txn) => txn == *t,
            None => false,
        }
    }
}

// The transaction of the Commit at the front, where one stands there.
#[tactic(auto, unfolding(crate::specs::Reading::record_at, crate::specs::Reading::fields_at, crate::specs::Reading::commit_at))]
fn commit_in(bytes: &[u8]) -> Option<TxnId>
    ensures { (x : Record × List ℕ) → record_at bytes.now ≡ Some x → (t : TxnId) → is_commit_of t x.0 ≡ option_map_or (λ txn. same_txn txn t) result false }
{
    let Some((kind, rest)) = byte_of(bytes) else {
        return None;
    };
    if kind != 4 {
        return None;
    }
    let Some((_lsn, rest)) = lsn_of(rest) else {
        return None;
    };
    match txn_of(rest) {
        Some((txn, _prev)) => Some(txn),
        None => None,
    }
}
