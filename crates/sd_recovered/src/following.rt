//! Records that follow one another.

ghost use Rattle.std.specs.Prelude.{◌≡◌, ◌↔◌, List, map, IsTrue, MatchOption};
ghost use Rattle.std.specs.List.{list_any};
ghost use Rattle.sd_logrec.specs.declared.record.Record.{Record};
ghost use Rattle.sd_logrec.specs.declared.record.Record.TheVariants as records;
ghost use Rattle.sd_chain.specs.Checks.{Follow, IsKnownStart, IsOwn, StartFits, after_record, is_end_check, past_of, starts_by};
ghost use Rattle.sd_chain.specs.Faults.{Follows, StraysAt};
ghost use Rattle.sd_log.specs.Marks.{entry};
ghost use Rattle.sd_recovered.specs.Following.{as_past, bare, known};
ghost use Rattle.sd_recovered.specs.Masters.{kept_master};

use crate::master::MasterRecord;
use sd_base::{InstNo, Lsn, TxnId};
use sd_log::Placed;
use sd_logrec::Record;

/// What the records so far say: the greatest LSN, and the epoch of the last Start, or the master's.
#[derive(Clone, Copy)]
pub struct PastRecords {
    lsn: Lsn,
    epoch: u32,
    started: bool,
}

impl PastRecords {
    // Before the first record.
    fn of(m: MasterRecord) -> Self
        ensures { as_past result ≡ past_of (kept_master m) }
    {
        PastRecords {
            lsn: 0,
            epoch: m.epoch,
            started: false,
        }
    }

    // Behind one more record.
    fn after(self, rec: &Record) -> Self
        ensures { as_past result ≡ after_record (as_past self) rec.now }
    {
        match rec {
            Record::Start { lsn, epoch } => PastRecords {
                lsn: *lsn,
                epoch: *epoch,
                started: true,
            },
            _ => PastRecords {
                lsn: rec.lsn(),
                ..self
            },
        }
    }
}

/// The place of the first record that may not follow those before it, in bytes from the area's start. `chosen` is whether
/// a master counts, and `m` what it says, or all 0.
pub fn first_stray(inst: InstNo, chosen: bool, m: MasterRecord, records: &[Placed]) -> Option<u32>
    ensures { MatchOption result (Follow inst chosen (kept_master m) (past_of (kept_master m)) (bare records.now))
        (λ place. StraysAt inst chosen (kept_master m) (past_of (kept_master m)) (map entry records.now) place) }
{
    let mut later = count_known(m.check, records);
    let mut past = PastRecords::of(m);
    for p in records {
        if is_known(&p.rec, m.check) {
            later -= 1;
        }
        if !may_follow(inst, chosen, m, past, &p.rec, later) {
            return Some(p.place);
        }
        past = past.after(&p.rec);
    }
    None
}

// How many Starts the checkpoint of this LSN knew.
fn count_known(check: Lsn, records: &[Placed]) -> usize
    ensures { result ≡ known check (bare records.now) }
{
    records.iter().filter(|p| is_known(&p.rec, check)).count()
}

// Whether a record is a Start at or before this LSN.
fn is_known(rec: &Record, check: Lsn) -> bool
    ensures { result ≡ starts_by check rec.now }
{
    match rec {
        Record::Start { lsn, .. } => *lsn <= check,
        _ => false,
    }
}

// Whether a record may come next. `later` is how many Starts that the checkpoint knew are behind it.
fn may_follow(
    inst: InstNo,
    chosen: bool,
    m: MasterRecord,
    past: PastRecords,
    rec: &Record,
    later: usize,
) -> bool
    ensures { (rest : List Record) → later ≡ known m.check rest
        → (IsTrue result ↔ Follows inst chosen (kept_master m) (as_past past) rec.now rest) }
{
    if rec.lsn() <= past.lsn {
        return false;
    }
    match rec {
        Record::Start { lsn, epoch } => start_fits(chosen, m, past, *lsn, *epoch, later),
        Record::Update { txn, .. } => is_own(inst, past, *txn),
        Record::Clr { txn, .. } => is_own(inst, past, *txn),
        Record::Commit { txn, .. } => is_own(inst, past, *txn),
        Record::End { txn, .. } => is_own(inst, past, *txn),
        Record::BeginCheck { .. } | Record::EndCheck { .. } => true,
    }
}

// Whether a transaction is this instance's, of an epoch that came.
fn is_own(inst: InstNo, past: PastRecords, txn: TxnId) -> bool
    ensures { IsTrue result ↔ IsOwn inst (as_past past) txn }
{
    txn.inst.get() == inst.get() && txn.epoch <= past.epoch
}

// Whether a Start of this LSN and epoch may come next: one that the checkpoint knew, or that of the next epoch.
fn start_fits(
    chosen: bool,
    m: MasterRecord,
    past: PastRecords,
    lsn: Lsn,
    epoch: u32,
    later: usize,
) -> bool
    ensures { (rest : List Record) → later ≡ known m.check rest
        → (IsTrue result ↔ StartFits chosen (kept_master m) (as_past past) (records.Start lsn epoch) rest) }
{
    if chosen && lsn <= m.check {
        known_fits(m, past, epoch, later)
    } else {
        past.epoch < epoch && epoch - past.epoch == 1
    }
}

// Whether a Start that the checkpoint knew may come next: its epoch rises up to the master's, which the last one has.
fn known_fits(m: MasterRecord, past: PastRecords, epoch: u32, later: usize) -> bool
    ensures { (rest : List Record) → later ≡ known m.check rest
        → (IsTrue result ↔ IsKnownStart (kept_master m) (as_past past) epoch rest) }
{
    if past.started && epoch <= past.epoch {
        return false;
    }
    epoch <= m.epoch && (later > 0 || epoch == m.epoch)
}

/// Whether the record that ended the checkpoint of this LSN is among these.
pub fn has_end_check(check: Lsn, records: &[Placed]) -> bool
    ensures { result ≡ list_any (λ p. is_end_check check p.rec) records.now }
{
    records.iter().any(|p| ends_check(&p.rec, check))
}

// Whether a record ended the checkpoint of this LSN.
fn ends_check(rec: &Record, check: Lsn) -> bool
    ensures { result ≡ is_end_check check rec.now }
{
    match rec {
        Record::EndCheck { lsn, .. } => *lsn == check,
        _ => false,
    }
}
