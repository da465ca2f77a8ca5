//! The records of all logs that change a page, in the order in which they are redone.

ghost use Rattle.std.specs.Prelude.{◌≡◌, ℕ, ◌+◌, ◌<◌, [], ◌∷◌, ◌++◌, filter, length, map, true, All, IfOk, OnOk};
ghost use Rattle.std.specs.List.Sorted.{IsNonDecreasingBy};
ghost use Rattle.sd_base.specs.declared.refusal.Refusal.TheVariants as R;
ghost use Rattle.sd_log.specs.Logs.{AreSpelled, flats, forced_in, log_in, scanned, without_tail};
ghost use Rattle.sd_chain.specs.Storage.{all_of, sorted};
ghost use Rattle.sd_chain.specs.Records.{of_page};
ghost use Rattle.sd_redo.specs.Changes.{AllStand, AreByLsn, AreChanges, ChangesPage, IsMerged, LsnsRise, chain_of, in_turn, found_of, is_forced_of, is_of, of_lsn, placed_in, redone_of};
ghost use Rattle.sd_redo.specs.Spots.{IsSpot, found_at};

use sd_base::{Lsn, Memory, PAGES, PageNo, Refusal};
use sd_log::{Log, Placed, ReadLog};
use sd_logrec::AREA;
use std::alloc::Global;

/// A record that changes the page of this number, and the device of its log.
#[derive(Drop)]
pub struct Change<'a> {
    pub dev: u8,
    pub page: u16,
    pub found: &'a Placed,
}

impl<'a> Change<'a> {
    /// The LSN of the record.
    pub fn lsn(&self) -> Lsn
        ensures { result ≡ (redone_of self.now).lsn }
    {
        self.found.rec.lsn()
    }

    /// The refusal of devices on which this record doesn't fit: its device, and its place there, in bytes.
    pub fn damaged(&self) -> Refusal
        ensures { result ≡ R.Damaged self.now.dev (AREA + self.now.found.now.place) }
    {
        damaged_log(self.dev, self.found.place)
    }
}

/// Where a record of a live log stands, by its index there, and its LSN.
#[derive(Clone, Copy)]
pub struct Spot<'a> {
    pub lsn: Lsn,
    pub log: &'a Log,
    pub index: u32,
}

/// The refusal of devices of which this log isn't sound at this place of its area.
pub fn damaged_log(dev: u8, place: u32) -> Refusal
    ensures { result ≡ R.Damaged dev (AREA + place) }
{
    Refusal::damaged(dev, u64::from(AREA) + u64::from(place))
}

/// The changes of all logs that were read by page, of each page by LSN, and of each LSN in the order of the logs. Each
/// lends the record that its log has. Only `Memory` is refused.
pub fn merged_changes(alloc: Global, logs: &[ReadLog]) -> Result<Vec<Change>, Memory>
    requires few { length logs.now < 256 }
    requires spelled { All (λ log. AreSpelled (scanned log)) logs.now }
    ensures changes { IfOk result (λ changes. AreChanges changes.items) }
    ensures stand { IfOk result (λ changes. AllStand logs.now changes.items) }
    ensures rises { IfOk result (λ changes. IsNonDecreasingBy (λ c. c.page) changes.items) }
    ensures merged { IfOk result (λ changes. (p : ℕ) → IsMerged p (log_in logs.now) (length logs.now + 1) (chain_of p changes.items)) }
    ensures chains { IfOk result (λ changes. LsnsRise logs.now → (p : ℕ) → chain_of p changes.items
        ≡ sorted (filter (of_page p) (all_of (log_in logs.now) (length logs.now + 1)))) }
{
    let mut changes = Vec::new(alloc);
    for p in 0..PAGES {
        let page = PageNo::new(p).unwrap();
        let mut of_page = changes_by_lsn(alloc, logs, page)?;
        changes.append(&mut of_page)?;
    }
    Ok(changes)
}

/// The forced records of all logs that change a page, as they are redone: by LSN, and those of one LSN in the order of the
/// logs, each read of its log's bytes once they are in order. Records of tails aren't among them. Only `Memory` is refused.
pub fn merge_page(alloc: Global, logs: &[Log], p: PageNo) -> Result<Vec<Placed>, Memory>
    requires spelled { All (λ log. AreSpelled (scanned log)) logs.now }
    ensures spelled { IfOk result (λ found. AreSpelled found.items) }
    ensures pages { IfOk result (λ found. All (λ x. ChangesPage x.rec p) found.items) }
    ensures forced { IfOk result (λ found. All (λ x. x.forced ≡ true) found.items) }
    ensures merged { IfOk result (λ found. IsMerged p (forced_in logs.now) (length logs.now + 1) (flats found.items)) }
    // Those of each LSN are the very records of the logs, log 1 first.
    ensures turns { IfOk result (λ found. (n : ℕ) → of_lsn n found.items
        ≡ of_lsn n (filter (is_forced_of p) (in_turn (placed_in logs.now) (length logs.now + 1)))) }
    ensures chain { IfOk result (λ found. LsnsRise (map without_tail logs.now) → flats found.items
        ≡ sorted (filter (of_page p) (all_of (forced_in logs.now) (length logs.now + 1)))) }
{
    let mut spots = spots_of(alloc, logs, p)?;
    spots.sort_by_key(|spot| spot.lsn)?;
    forced_records(alloc, &spots)
}

// The changes of a page by LSN, and those of each LSN in the order of the logs.
fn changes_by_lsn<'a>(
    alloc: Global,
    logs: &'a [ReadLog],
    page: PageNo,
) -> Result<Vec<Change<'a>>, Memory>
    requires few { length logs.now < 256 }
    requires spelled { All (λ log. AreSpelled (scanned log)) logs.now }
    ensures changes { IfOk result (λ changes. AreChanges changes.items) }
    ensures stand { IfOk result (λ changes. AllStand logs.now changes.items) }
    ensures by_lsn { IfOk result (λ changes. AreByLsn (filter (is_of page) (in_turn (placed_in logs.now) (length logs.now + 1)))
        (map found_of changes.items)) }
{
    let mut changes = gathered_changes(alloc, logs, page)?;
    changes.sort_by_key(|change| change.lsn())?;
    Ok(changes)
}

// The changes of a page, log by log.
fn gathered_changes<'a>(
    alloc: Global,
    logs: &'a [ReadLog],
    page: PageNo,
) -> Result<Vec<Change<'a>>, Memory>
    requires few { length logs.now < 256 }
    requires spelled { All (λ log. AreSpelled (scanned log)) logs.now }
    ensures changes { IfOk result (λ changes. AreChanges changes.items) }
    ensures stand { IfOk result (λ changes. AllStand logs.now changes.items) }
    ensures gathered { IfOk result (λ changes. map found_of changes.items
        ≡ filter (is_of page) (in_turn (placed_in logs.now) (length logs.now + 1))) }
{
    let mut changes = Vec::new(alloc);
    for index in 0..logs.len() {
        gather(alloc, &mut changes, logs, index, page)?;
    }
    Ok(changes)
}

// Puts the changes of the page in the log of this index behind the others.
fn gather<'a>(
    alloc: Global,
    changes: &mut Vec<Change<'a>>,
    logs: &'a [ReadLog],
    index: usize,
    page: PageNo,
) -> Result<(), Memory>
    requires few { length logs.now < 256 }
    requires there { index < length logs.now }
    requires spelled { All (λ log. AreSpelled (scanned log)) logs.now }
    requires changes { AreChanges changes.old.items }
    requires stand { AllStand logs.now changes.old.items }
    ensures changes { OnOk result (AreChanges changes.new.items) }
    ensures stand { OnOk result (AllStand logs.now changes.new.items) }
    ensures gathered { OnOk result (map found_of changes.new.items
        ≡ map found_of changes.old.items ++ filter (is_of page) (placed_in logs.now (index + 1))) }
{
    let log = &logs[index];
    let records = log.scan();
    let dev = index as u8 + 1;
    let number = page.get();
    let places = log.of_page(alloc, page)?;
    for at in &places {
        let found = &records[*at as usize];
        changes.push(Change {
            dev,
            page: number,
            found,
        })?;
    }
    Ok(())
}

// The records of all logs that change a page, log by log.
fn spots_of<'a>(alloc: Global, logs: &'a [Log], page: PageNo) -> Result<Vec<Spot<'a>>, Memory>
    ensures told { IfOk result (λ spots. All IsSpot spots.items) }
    ensures gathered { IfOk result (λ spots. map found_at spots.items
        ≡ filter (is_of page) (in_turn (placed_in logs.now) (length logs.now + 1))) }
{
    let mut spots = Vec::new(alloc);
    for log in logs {
        gather_spots(alloc, &mut spots, log, page)?;
    }
    Ok(spots)
}

// Puts the records of this log that change the page behind the others.
fn gather_spots<'a>(
    alloc: Global,
    spots: &mut Vec<Spot<'a>>,
    log: &'a Log,
    page: PageNo,
) -> Result<(), Memory>
    requires told { All IsSpot spots.old.items }
    ensures told { OnOk result (All IsSpot spots.new.items) }
    ensures gathered { OnOk result (map found_at spots.new.items ≡ map found_at spots.old.items ++ filter (is_of page) (scanned log.now)) }
{
    // Its number is below 1,024, where the log has the records that change no page.
    let _ = page.get();
    let places = log.of_page(alloc, page)?;
    for at in &places {
        let index = *at;
        let lsn = log.lsn(index as usize);
        spots.push(Spot { lsn, log, index })?;
    }
    Ok(())
}

// The forced ones of these records, read of their logs.
fn forced_records(alloc: Global, spots: &[Spot]) -> Result<Vec<Placed>, Memory>
    requires { All IsSpot spots.now }
    ensures { IfOk result (λ found. found.items ≡ filter (λ x. x.forced) (map found_at spots.now)) }
{
    let mut records = Vec::with_capacity(alloc, spots.len())?;
    for spot in spots {
        let found = spot.log.record(spot.index as usize)?;
        push_forced(&mut records, found)?;
    }
    Ok(records)
}

// Puts a record behind the others if it is forced.
fn push_forced(records: &mut Vec<Placed>, found: Placed) -> Result<(), Memory>
    ensures { OnOk result (records.new.items ≡ records.old.items ++ filter (λ x. x.forced) (found ∷ [])) }
{
    if found.forced {
        records.push(found)?;
    }
    Ok(())
}
