//! What is to be done next of a recovery.

ghost use Rattle.std.specs.Prelude.{◌≡◌, IfNone, IfSome, IsSome, None, option_and_then, position, Some, ℕ};
ghost use Rattle.sd_base.specs.declared.ids.TxnId.{TxnId};
ghost use Rattle.sd_base.specs.declared.place.Status.TheVariants as S;
ghost use Rattle.sd_fits.specs.Fits.{Fits};
ghost use Rattle.sd_state.specs.Complexes.{parts};
ghost use Rattle.sd_state.specs.Parts.{status_at, txns_at, IsShape};
ghost use Rattle.sd_world.specs.PageCauses.{IsNeededPage};
ghost use Rattle.sd_world.specs.Serving.{Core};
ghost use Rattle.sd_recover.specs.Tasks.{AreSettled, IsFirstToEnd, IsLowestLoose, IsNext, IsRowTask, goes_before, in_doubt, is_later, is_loser, last_open, later, lower, open_lsn, owes_end, row_is_doubt, to_end};
ghost use Rattle.sd_recover.specs.declared.tasks.Task.TheVariants as task;
ghost use Rattle.sd_txn.specs.Transactions.{top_at};
ghost use Rattle.sd_txn.specs.declared.state.OpenRec.{OpenRec};

use sd_base::{InstNo, Lsn, PageNo, TxnId};
use sd_rig::Rig;
use sd_state::Complex;
use sd_txn::{TxnState, TxnTable};

/// A task of a recovery.
#[derive(Clone, Copy)]
pub enum Task {
    /// A device that isn't settled is synced, and a log is read again.
    Settle(u8),
    /// A lost page is rebuilt.
    Rebuild(PageNo),
    /// A transaction in doubt is committed, or a loser.
    Decide(TxnId),
    /// A loser's last open record is undone.
    Undo { txn: TxnId, page: PageNo },
    /// A loser gets its End.
    End(TxnId),
    /// Nothing is left to do.
    Done,
}

/// The first task that there is in the recovery of an instance: the lowest device that isn't settled, the lowest lost page, the
/// transaction in doubt, of the losers' open records the one with the greatest LSN, the lowest loser with a record and no End. It
/// takes no memory; of the instance's transactions it looks at each.
pub fn next_task<G>(c: &Complex<G>, i: InstNo) -> Task
    requires { IsShape (parts c.now) }
    ensures next { IsNext (parts c.now) i result }
    ensures first { (t : TxnId) → result ≡ task.End t → IsFirstToEnd (txns_at (parts c.now) i) t }
{
    if let Some(dev) = first_loose(c) {
        return Task::Settle(dev);
    }
    if let Some(p) = c.directory().first_lost() {
        return Task::Rebuild(p);
    }
    row_task(c.txns(i))
}

/// The page that the recovery of an instance waits for next, or uses, and the loser whose record of it is undone; `None` exactly
/// where the next task is no undo. While the recovery runs, a loser has an exclusive claim on a record of the page.
pub fn needed<G: Rig>(c: &Complex<G>, i: InstNo) -> Option<(PageNo, TxnId)>
    requires { IsShape (parts c.now) }
    ensures some { IfSome result (λ x. IsNext (parts c.now) i (task.Undo x.1 x.0)) }
    ensures none { IfNone result ((t : TxnId) (p : ℕ) → IsNext (parts c.now) i (task.Undo t p) → ⊥) }
    ensures claimed { IfSome result (λ x. (w : Core) (by : ℕ) → Fits (G.seen c.now.rig) (G.leaves c.now.rig) (parts c.now) w
        → status_at (parts c.now) i ≡ S.Recovering by → IsNeededPage w.scene.state i x.0) }
{
    i.keeps();
    match next_task(c, i) {
        Task::Undo { txn, page } => Some((page, txn)),
        _ => None,
    }
}

// The lowest device that isn't settled.
fn first_loose<G>(c: &Complex<G>) -> Option<u8>
    requires { IsShape (parts c.now) }
    ensures some { IfSome result (IsLowestLoose (parts c.now)) }
    ensures none { IfNone result (AreSettled (parts c.now)) }
{
    match first_true(&c.loose) {
        Some(at) => Some(at as u8),
        None => None,
    }
}

// Where the first one stands that is.
fn first_true(marks: &[bool]) -> Option<usize>
    ensures { result ≡ position (λ mark. mark) marks.now }
{
    marks.iter().position(|mark| *mark)
}

// The first task that there is in the rows of the recovered instance's transactions.
fn row_task(table: &TxnTable) -> Task
    ensures { IsRowTask table.now result }
{
    if let Some(t) = in_doubt(table) {
        return Task::Decide(t);
    }
    if let Some(txn) = last_open(table) {
        let page = page_of(table, &txn);
        return Task::Undo { txn, page };
    }
    match to_end(table) {
        Some(t) => Task::End(t),
        None => Task::Done,
    }
}

// The first transaction in doubt.
fn in_doubt(table: &TxnTable) -> Option<TxnId>
    ensures { result ≡ in_doubt table.now }
{
    table
        .unresolved()
        .iter()
        .copied()
        .find(|t| is_doubt(table.state(t)))
}

// The loser whose last open record is the last of all losers'.
fn last_open(table: &TxnTable) -> Option<TxnId>
    ensures { result ≡ last_open table.now }
{
    let mut last = None;
    for t in table.unresolved() {
        last = later(table, &last, t);
    }
    last
}

// The lowest loser that has a record and no End.
fn to_end(table: &TxnTable) -> Option<TxnId>
    ensures { result ≡ to_end table.now }
{
    let mut first = None;
    for t in table.unresolved() {
        first = lower(table, &first, t);
    }
    first
}

// Of these two, the lower one that owes an End.
fn lower(table: &TxnTable, first: &Option<TxnId>, t: &TxnId) -> Option<TxnId>
    ensures { result ≡ lower table.now first.now t.now }
{
    if owes_end(table, t) && goes_before(t, first) {
        Some(*t)
    } else {
        *first
    }
}

// Whether a loser has a record and no End.
fn owes_end(table: &TxnTable, t: &TxnId) -> bool
    ensures { result ≡ owes_end table.now t.now }
{
    is_loser(table.state(t)) && table.span(t).is_some()
}

// Whether it is below the other, or alone.
fn goes_before(t: &TxnId, first: &Option<TxnId>) -> bool
    ensures { result ≡ goes_before t.now first.now }
{
    match first {
        None => true,
        Some(first) => t < first,
    }
}

// Of these two, the loser with the later open record.
fn later(table: &TxnTable, last: &Option<TxnId>, t: &TxnId) -> Option<TxnId>
    ensures { result ≡ later table.now last.now t.now }
{
    if is_later(last_lsn(table, last), open_lsn(table, t)) {
        Some(*t)
    } else {
        *last
    }
}

// The LSN of the last open record of the loser, where there is one.
fn last_lsn(table: &TxnTable, last: &Option<TxnId>) -> Option<Lsn>
    ensures { result ≡ option_and_then (open_lsn table.now) last.now }
{
    match last {
        Some(t) => open_lsn(table, t),
        None => None,
    }
}

// The LSN of a loser's last open record.
fn open_lsn(table: &TxnTable, t: &TxnId) -> Option<Lsn>
    ensures { result ≡ open_lsn table.now t.now }
{
    if !is_loser(table.state(t)) {
        return None;
    }
    match table.top(t) {
        Some(rec) => Some(rec.lsn),
        None => None,
    }
}

// The page of a transaction's last open record.
fn page_of(table: &TxnTable, t: &TxnId) -> PageNo
    requires { IsSome (top_at table.now t.now) }
    ensures { (o : OpenRec) → top_at table.now t.now ≡ Some o → result ≡ o.rid.page }
{
    table.top(t).unwrap().rid.page
}

// Whether the second is there, and greater than the first or alone.
fn is_later(first: Option<Lsn>, second: Option<Lsn>) -> bool
    ensures { result ≡ is_later first second }
{
    match (first, second) {
        (_, None) => false,
        (None, Some(_)) => true,
        (Some(low), Some(lsn)) => low < lsn,
    }
}

fn is_doubt(state: Option<TxnState>) -> bool
    ensures { result ≡ row_is_doubt state }
{
    matches!(state, Some(TxnState::Doubt))
}

fn is_loser(state: Option<TxnState>) -> bool
    ensures { result ≡ is_loser state }
{
    matches!(state, Some(TxnState::Retained))
}
