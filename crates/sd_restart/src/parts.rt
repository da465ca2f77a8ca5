//! The parts of a complex, each made of what was read.

ghost use Rattle.std.specs.Prelude.{◌≡◌, ◌≢◌, ◌⊎◌, ℕ, ◌≤◌, [], All, Contains, IfOk, List, None, is_some, length, map};
ghost use Rattle.sd_recovered.specs.Losers.{AreLosers};
ghost use Rattle.sd_log.specs.Logs.{LogState, scanned};
ghost use Rattle.sd_recovered.specs.Masters.{as_master};
ghost use Rattle.sd_pagelock.specs.Directory.{asks_at, entry_at, moving_image_at, rec_lsn_at};
ghost use Rattle.sd_pagelock.specs.Places.{PageEntry};
ghost use Rattle.sd_pagelock.specs.Rows.{nowhere};
ghost use Rattle.sd_state.specs.Complexes.{unboxed};
ghost use Rattle.sd_recovered.specs.UndoPass.{AreLosersOf};
ghost use Rattle.sd_restart.specs.Reading.{AreEpochs, AreOwed, AreTables, IsTableOf, count_of, epoch_for, lost_by, rec_at, some_rec, status_for};

use sd_base::{InstNo, Lsn, Memory, PageNo, Status};
use sd_log::{Log, ReadLog};
use sd_moves::last_epoch;
use sd_page::Image;
use sd_pagelock::Directory;
use sd_recovered::{Losers, MasterRecord, owed, relist};
use sd_txn::{TxnState, TxnTable};
use std::alloc::Global;

/// The logs that go on behind what was read.
pub fn logs_of(alloc: Global, read: Vec<ReadLog>) -> Result<Vec<Log>, Memory>
    ensures { IfOk result (λ logs. logs.items ≡ read.items) }
{
    let mut logs = Vec::with_capacity(alloc, read.len())?;
    for log in read {
        logs.push(log.into_log(alloc)?)?;
    }
    Ok(logs)
}

/// The transaction table of each instance: those whom its log leaves open, each to be undone.
pub fn tables_of(
    alloc: Global,
    logs: &[ReadLog],
    losers: &[Losers],
) -> Result<Vec<TxnTable>, Memory>
    requires eight { length logs.now ≡ 8 }
    requires losers { AreLosersOf logs.now losers.now }
    ensures { IfOk result (λ tables. AreTables logs.now tables.items) }
{
    let mut tables = Vec::with_capacity(alloc, 8)?;
    for (i, log) in logs.iter().enumerate() {
        let inst = InstNo::new(i as u8 + 1).unwrap();
        tables.push(table_of(alloc, inst, log, &losers[i])?)?;
    }
    Ok(tables)
}

// The same of an instance.
fn table_of(alloc: Global, inst: InstNo, log: &ReadLog, losers: &Losers) -> Result<TxnTable, Memory>
    requires { AreLosers (scanned log.now) losers.now }
    ensures { IfOk result (IsTableOf inst log.now) }
{
    let mut who = Vec::with_capacity(alloc, losers.items().len())?;
    for loser in losers.items() {
        who.push((loser.txn, TxnState::Retained))?;
    }
    relist(alloc, inst, &who, log.scan(), losers)
}

/// The page directory: each page that has records which the disk lacks is lost, from the first of them on; each other is free.
pub fn places_of(alloc: Global, recs: &[Option<Lsn>]) -> Result<Directory<Box<Image>>, Memory>
    requires { length recs.now ≡ 1024 }
    ensures entries { IfOk result (λ d. (p : ℕ) → entry_at (unboxed d) p ≡ nowhere (lost_by recs.now p)) }
    ensures recs { IfOk result (λ d. (p : ℕ) → rec_lsn_at (unboxed d) p ≡ rec_at recs.now p) }
    ensures still { IfOk result (λ d. (p : ℕ) → moving_image_at (unboxed d) p ≡ None) }
    ensures unasked { IfOk result (λ d. (p : ℕ) → asks_at (unboxed d) p ≡ []) }
{
    let mut directory = Directory::new(alloc)?;
    for (p, rec) in recs.iter().enumerate() {
        lose(&mut directory, PageNo::new(p as u16).unwrap(), rec);
    }
    Ok(directory)
}

// Where it has a RecLSN, a free page is lost.
fn lose(directory: &mut Directory<Box<Image>>, p: PageNo, rec: &Option<Lsn>)
    requires free { entry_at directory.old p ≡ PageEntry.Free }
    requires clean { rec_lsn_at directory.old p ≡ None }
    requires unasked { asks_at directory.old p ≡ [] }
    ensures here { entry_at directory.new p ≡ nowhere (is_some rec.now) }
    ensures rec_lsn { rec_lsn_at directory.new p ≡ rec.now }
    ensures images { (q : ℕ) → moving_image_at directory.new q ≡ moving_image_at directory.old q }
    ensures asks { (q : ℕ) → asks_at directory.new q ≡ asks_at directory.old q }
    ensures others { (q : ℕ) → q ≢ p → entry_at directory.new q ≡ entry_at directory.old q }
    ensures other_rec_lsns { (q : ℕ) → q ≢ p → rec_lsn_at directory.new q ≡ rec_lsn_at directory.old q }
{
    if let Some(lsn) = rec {
        directory.lose(p, *lsn);
    }
}

/// The status of each instance: down where it has losers, and everywhere where a page is lost; else clean.
pub fn statuses_of(
    alloc: Global,
    losers: &[Losers],
    recs: &[Option<Lsn>],
) -> Result<Vec<Status>, Memory>
    ensures { IfOk result (λ statuses. statuses.items ≡ map (status_for (some_rec recs.now)) losers.now) }
{
    let lost = is_some_lost(recs);
    let mut statuses = Vec::with_capacity(alloc, losers.len())?;
    for found in losers {
        statuses.push(status_of(found, lost))?;
    }
    Ok(statuses)
}

// Whether some page has records that the disk lacks.
fn is_some_lost(recs: &[Option<Lsn>]) -> bool
    ensures { result ≡ some_rec recs.now }
{
    recs.iter().any(|rec| rec.is_some())
}

// The status of an instance.
fn status_of(losers: &Losers, lost: bool) -> Status
    ensures { result ≡ status_for lost losers.now }
{
    if lost || !losers.items().is_empty() {
        Status::Down
    } else {
        Status::Clean
    }
}

/// The epoch of each log: that of its last Start, or of its master.
pub fn epochs_of(
    alloc: Global,
    masters: &[Option<MasterRecord>],
    logs: &[ReadLog],
) -> Result<Vec<u32>, Memory>
    requires { length masters.now ≡ length logs.now }
    ensures { IfOk result (λ epochs. AreEpochs masters.now logs.now epochs.items) }
{
    let mut epochs = Vec::with_capacity(alloc, logs.len())?;
    for (i, log) in logs.iter().enumerate() {
        epochs.push(epoch_of(&masters[i], log))?;
    }
    Ok(epochs)
}

// The epoch of a log.
fn epoch_of(master: &Option<MasterRecord>, log: &ReadLog) -> u32
    ensures { result ≡ epoch_for master.now log.now }
{
    last_epoch(epoch_in(master), log.scan())
}

// The epoch of a master, 0 where none counts.
fn epoch_in(master: &Option<MasterRecord>) -> u32
    ensures { result ≡ (as_master master.now).epoch }
{
    match master {
        Some(m) => m.epoch,
        None => 0,
    }
}

/// The count of each master, 0 where none counts.
pub fn counts_of(alloc: Global, masters: &[Option<MasterRecord>]) -> Result<Vec<u64>, Memory>
    ensures { IfOk result (λ counts. counts.items ≡ map count_of masters.now) }
{
    let mut counts = Vec::with_capacity(alloc, masters.len())?;
    for master in masters {
        counts.push(count(master))?;
    }
    Ok(counts)
}

// The count of a master.
fn count(master: &Option<MasterRecord>) -> u64
    ensures { result ≡ count_of master.now }
{
    match master {
        Some(m) => m.count,
        None => 0,
    }
}

/// How many records each log owes, at most 2^64 - 1.
pub fn owed_of(alloc: Global, losers: &[Losers]) -> Result<Vec<u64>, Memory>
    ensures { IfOk result (λ owed. (logs : List LogState) → AreLosersOf logs losers.now → AreOwed logs owed.items) }
{
    let mut all = Vec::with_capacity(alloc, losers.len())?;
    for found in losers {
        all.push(owed(found))?;
    }
    Ok(all)
}

/// The greatest of these LSNs, or 0.
pub fn greatest(lsns: &[Lsn]) -> Lsn
    ensures most { All (λ lsn. lsn ≤ result) lsns.now }
    ensures one { (result ≡ 0) ⊎ Contains lsns.now result }
{
    lsns.iter().copied().max().unwrap_or(0)
}
