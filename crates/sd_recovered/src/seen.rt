//! What the records so far tell of one transaction.

ghost use Rattle.std.specs.Prelude.{◌≡◌, ◌≢◌, ◌↔◌, ℕ, List, None, Some, [], ◌∷◌, IsTrue, MatchOption, OnOk};
ghost use Rattle.sd_logrec.specs.View.{flat};
ghost use Rattle.sd_logrec.specs.View.Kind.{Clr, Update};
ghost use Rattle.sd_log.specs.declared.placed.Placed.{Placed};
ghost use Rattle.sd_chain.specs.Records.{ends};
ghost use Rattle.sd_chain.specs.Order.{none_yet, Sofar, UndoesTop};
ghost use Rattle.sd_recovered.specs.Losers.{record_at};
ghost use Rattle.sd_recovered.specs.Faults.{Joins, MayCome};
ghost use Rattle.sd_recovered.specs.Seen.{closed_by, with_record, Judged, SeenFits};

use sd_base::{Lsn, Memory, lent_value, same_value};
use sd_log::Placed;
use sd_logrec::Record;
use std::alloc::Global;

/// What the records so far tell of a transaction: its open ones by their indices in the log, the top last; the LSN of its
/// last record, or 0; the index of the record that closed it; the index and the `prev` of its first record.
#[derive(Drop)]
pub(crate) struct Seen {
    pub(crate) open: Vec<usize>,
    pub(crate) last: Lsn,
    pub(crate) closed: Option<usize>,
    pub(crate) first: usize,
    pub(crate) first_prev: Lsn,
}

impl Seen {
    /// Before the first record, whose index and `prev` these are.
    pub(crate) fn new(alloc: Global, first: usize, first_prev: Lsn) -> Seen
        ensures empty { (log : List Placed) → SeenFits log none_yet result }
        ensures first { result.first ≡ first }
        ensures prev { result.first_prev ≡ first_prev }
        ensures closed { result.closed ≡ None }
    {
        Seen {
            open: Vec::new(alloc),
            last: 0,
            closed: None,
            first,
            first_prev,
        }
    }

    /// The index that is misplaced once this record is the transaction's next one, at the index `at`: that of a record
    /// that closed the transaction, or else this one where it may not come.
    pub(crate) fn misplaced(&self, log: &[Placed], at: usize, rec: &Record) -> Option<usize>
        ensures shut { (k : ℕ) → self.now.closed ≡ Some k → result ≡ Some k }
        ensures next { (sofar : Sofar) → SeenFits log.now sofar self.now → self.now.closed ≡ None
            → Judged at (MayCome sofar self.now.first_prev (flat rec.now)) result }
    {
        if self.closed.is_some() || self.allows(log, rec) {
            return self.closed;
        }
        Some(at)
    }

    // Whether the transaction's next record may be this one. What its undos take back is known only where its first
    // record is the first that it wrote.
    fn allows(&self, log: &[Placed], rec: &Record) -> bool
        ensures { (sofar : Sofar) → SeenFits log.now sofar self.now → (IsTrue result ↔ MayCome sofar self.now.first_prev (flat rec.now)) }
    {
        self.comes_next(rec) && (self.first_prev != 0 || self.undoes_top(log, rec))
    }

    // Whether the record may come next, whatever it undoes.
    fn comes_next(&self, rec: &Record) -> bool
        ensures { (log : List Placed) (sofar : Sofar) → SeenFits log sofar self.now → (IsTrue result ↔ Joins sofar (flat rec.now)) }
    {
        if self.last != 0 && prev_of(rec) != self.last {
            return false;
        }
        match rec {
            Record::End { .. } => self.open.is_empty(),
            _ => true,
        }
    }

    /// The index of the record that closed it.
    pub(crate) fn end(&self) -> Option<usize>
        ensures { result ≡ self.now.closed }
    {
        self.closed
    }

    /// The index of its first record, where that isn't the first that it wrote.
    pub(crate) fn late(&self) -> Option<usize>
        ensures { MatchOption result (self.now.first_prev ≡ 0) (λ k. (k ≡ self.now.first) × (self.now.first_prev ≢ 0)) }
    {
        if self.first_prev == 0 {
            return None;
        }
        Some(self.first)
    }

    // Whether the record undoes the top, if it undoes anything.
    fn undoes_top(&self, log: &[Placed], rec: &Record) -> bool
        ensures { (sofar : Sofar) → SeenFits log.now sofar self.now
            → (IsTrue result ↔ ((flat rec.now).kind ≡ Clr → UndoesTop (flat rec.now) sofar.open_ones)) }
    {
        if !is_clr(rec) {
            return true;
        }
        let Some(at) = self.open.last() else {
            return false;
        };
        match log.get(*at) {
            Some(top) => undoes(rec, &top.rec),
            None => false,
        }
    }

    /// Takes note of its next record, which has this index.
    pub(crate) fn note(&mut self, at: usize, rec: &Record) -> Result<(), Memory>
        ensures noted { OnOk result ((log : List Placed) (sofar : Sofar) → record_at log at ≡ Some (flat rec.now) → SeenFits log sofar self.old
            → SeenFits log (with_record sofar (flat rec.now)) self.new) }
        ensures closed { OnOk result (self.new.closed ≡ closed_by at (flat rec.now) self.old.closed) }
        ensures first { self.new.first ≡ self.old.first }
        ensures prev { self.new.first_prev ≡ self.old.first_prev }
    {
        self.last = rec.lsn();
        match rec {
            Record::Update { .. } => self.open.push(at)?,
            Record::Clr { .. } => drop(self.open.pop()),
            _ => {}
        }
        if self.closed.is_none() && is_end(rec) {
            self.closed = Some(at);
        }
        Ok(())
    }
}

fn is_clr(rec: &Record) -> bool
    ensures { IsTrue result ↔ ((flat rec.now).kind ≡ Clr) }
{
    matches!(rec, Record::Clr { .. })
}

// Whether a CLR is the undo of this update: it has the page and slot, puts back the value before, and goes on at the
// transaction's record before it.
fn undoes(clr: &Record, update: &Record) -> bool
    ensures { (flat clr.now).kind ≡ Clr → (flat update.now).kind ≡ Update
        → (IsTrue result ↔ UndoesTop (flat clr.now) (flat update.now ∷ [])) }
{
    match (clr, update) {
        (
            Record::Clr {
                page,
                slot,
                after,
                undo_next,
                ..
            },
            Record::Update {
                page: own_page,
                slot: own_slot,
                before,
                prev,
                ..
            },
        ) => page == own_page
            && slot == own_slot
            && same_value(lent_value(after), lent_value(before))
            && undo_next == prev,
        _ => false,
    }
}

// Whether the record ends its transaction.
fn is_end(rec: &Record) -> bool
    ensures { result ≡ ends (flat rec.now).kind }
{
    matches!(rec, Record::Commit { .. } | Record::End { .. })
}

/// The LSN of the transaction's former record, or 0.
pub(crate) fn prev_of(rec: &Record) -> Lsn
    ensures { result ≡ (flat rec.now).prev }
{
    match rec {
        Record::Update { prev, .. }
        | Record::Clr { prev, .. }
        | Record::Commit { prev, .. }
        | Record::End { prev, .. } => *prev,
        _ => 0,
    }
}
