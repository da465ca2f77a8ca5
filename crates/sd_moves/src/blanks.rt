//! A complex on blank devices.

ghost use Rattle.std.specs.Prelude.{◌≡◌, ◌≤◌, ℕ, false, [], None, IfOk, IfErr};
ghost use Rattle.sd_base.specs.declared.place.Status.TheVariants as S;
ghost use Rattle.sd_model.specs.State.{fresh};
ghost use Rattle.sd_chain.specs.Logs.{new_log};
ghost use Rattle.sd_pagelock.specs.Directory.{asks_at, entry_at, moving_image_at, rec_lsn_at};
ghost use Rattle.sd_pagelock.specs.Places.{PageEntry};
ghost use Rattle.sd_state.specs.Complexes.{parts, unboxed};
ghost use Rattle.sd_state.specs.Fresh.{AreBlank, IsFresh, empty_pool, empty_table, for_each};
ghost use Rattle.sd_state.specs.Good.{Good};
ghost use Rattle.sd_state.specs.Values.{Pending};

use crate::assembling::{Restored, filled};
use sd_base::{InstNo, Memory, Status};
use sd_log::Log;
use sd_page::Image;
use sd_pagelock::Directory;
use sd_pool::Pool;
use sd_reclock::RecordLocks;
use sd_rig::Rig;
use sd_state::{Checkpoint, Complex, Shape};
use sd_txn::TxnTable;
use std::alloc::{AllocError, Global};

/// A complex on blank devices: each page is free, and no instance has anything to recover. No device call is made. An error
/// hands the rig back.
pub fn fresh<G: Rig>(alloc: Global, rig: G, shape: Shape) -> Result<Complex<G>, (Memory, G)>
    requires blank { AreBlank (G.seen rig) (G.leaves rig) }
    requires least { 1 ≤ shape.frames }
    requires most { shape.frames ≤ 1024 }
    ensures rig { IfOk result (λ c. c.rig ≡ rig) }
    ensures fresh { IfOk result (λ c. IsFresh shape.frames (parts c)) }
    ensures good { IfOk result (λ c. Good (G.seen c.rig) (G.leaves c.rig) Pending.Idle (parts c) fresh) }
    ensures back { IfErr result (λ e. e.1 ≡ rig) }
{
    match blank(alloc, shape.frames) {
        Ok(rest) => Ok(over(rest, rig)),
        Err(memory) => Err((memory, rig)),
    }
}

// The same over a rig.
pub(crate) fn over<G>(rest: Complex<()>, rig: G) -> Complex<G>
    ensures rig { result.rig ≡ rig }
    ensures parts { parts result ≡ parts rest }
{
    Complex {
        rig,
        logs: rest.logs,
        pools: rest.pools,
        directory: rest.directory,
        locks: rest.locks,
        txns: rest.txns,
        statuses: rest.statuses,
        epochs: rest.epochs,
        masters: rest.masters,
        checks: rest.checks,
        others: rest.others,
        owed: rest.owed,
        disk_lsn: rest.disk_lsn,
        loose: rest.loose,
        due: rest.due,
    }
}

// A complex in which nothing has happened, over no rig.
fn blank(alloc: Global, frames: u16) -> Result<Complex<()>, Memory>
    requires least { 1 ≤ frames }
    requires most { frames ≤ 1024 }
    ensures { IfOk result (λ c. IsFresh frames (parts c)) }
{
    Ok(filled(alloc, frames, nothing(alloc)?)?)
}

// What is found on blank devices.
fn nothing(alloc: Global) -> Result<Restored, Memory>
    ensures logs { IfOk result (λ f. f.logs.items ≡ for_each (λ i. new_log i 0) 8) }
    ensures txns { IfOk result (λ f. f.txns.items ≡ for_each empty_table 8) }
    ensures unlocked { IfOk result (λ f. f.locks.locks ≡ []) }
    ensures unwaited { IfOk result (λ f. f.locks.waiting ≡ []) }
    ensures free { IfOk result (λ f. (p : ℕ) → entry_at (unboxed f.directory) p ≡ PageEntry.Free) }
    ensures clean { IfOk result (λ f. (p : ℕ) → rec_lsn_at (unboxed f.directory) p ≡ None) }
    ensures still { IfOk result (λ f. (p : ℕ) → moving_image_at (unboxed f.directory) p ≡ None) }
    ensures unasked { IfOk result (λ f. (p : ℕ) → asks_at (unboxed f.directory) p ≡ []) }
    ensures statuses { IfOk result (λ f. f.statuses.items ≡ for_each (λ i. S.Clean) 8) }
    ensures epochs { IfOk result (λ f. f.epochs.items ≡ for_each (λ i. 0) 8) }
    ensures masters { IfOk result (λ f. f.masters.items ≡ for_each (λ i. 0) 8) }
    ensures owed { IfOk result (λ f. f.owed.items ≡ for_each (λ i. 0) 8) }
    ensures disk_lsn { IfOk result (λ f. f.disk_lsn ≡ 0) }
{
    let logs = new_logs(alloc)?;
    let txns = empty_tables(alloc)?;
    let directory = free_pages(alloc)?;
    let counts = no_counts(alloc)?;
    Ok(Restored {
        logs,
        txns,
        locks: RecordLocks::new(alloc),
        directory,
        statuses: counts.statuses,
        epochs: counts.epochs,
        masters: counts.masters,
        owed: counts.owed,
        disk_lsn: 0,
    })
}

// How instances stand of which nothing is told, and their counts.
#[derive(Drop)]
struct Counts {
    statuses: Vec<Status>,
    epochs: Vec<u32>,
    masters: Vec<u64>,
    owed: Vec<u64>,
}

fn no_counts(alloc: Global) -> Result<Counts, Memory>
    ensures statuses { IfOk result (λ c. c.statuses.items ≡ for_each (λ i. S.Clean) 8) }
    ensures epochs { IfOk result (λ c. c.epochs.items ≡ for_each (λ i. 0) 8) }
    ensures masters { IfOk result (λ c. c.masters.items ≡ for_each (λ i. 0) 8) }
    ensures owed { IfOk result (λ c. c.owed.items ≡ for_each (λ i. 0) 8) }
{
    Ok(Counts {
        statuses: repeated(alloc, Status::Clean, 8)?,
        epochs: repeated(alloc, 0, 8)?,
        masters: repeated(alloc, 0, 8)?,
        owed: repeated(alloc, 0, 8)?,
    })
}

// The logs of blank devices.
fn new_logs(alloc: Global) -> Result<Vec<Log>, Memory>
    ensures { IfOk result (λ logs. logs.items ≡ for_each (λ i. new_log i 0) 8) }
{
    let mut logs = Vec::with_capacity(alloc, 8)?;
    for n in 0..8u8 {
        logs.push(Log::new(alloc, InstNo::new(n + 1).unwrap())?)?;
    }
    Ok(logs)
}

// Pools without pages.
pub(crate) fn empty_pools(alloc: Global, frames: u16) -> Result<Vec<Pool>, Memory>
    requires least { 1 ≤ frames }
    requires most { frames ≤ 1024 }
    ensures { IfOk result (λ pools. pools.items ≡ for_each (λ i. empty_pool frames) 8) }
{
    let mut pools = Vec::with_capacity(alloc, 8)?;
    for _n in 0..8u8 {
        pools.push(Pool::new(alloc, frames)?)?;
    }
    Ok(pools)
}

// A directory of pages that nobody has.
fn free_pages(alloc: Global) -> Result<Directory<Box<Image>>, Memory>
    ensures free { IfOk result (λ d. (p : ℕ) → entry_at (unboxed d) p ≡ PageEntry.Free) }
    ensures clean { IfOk result (λ d. (p : ℕ) → rec_lsn_at (unboxed d) p ≡ None) }
    ensures still { IfOk result (λ d. (p : ℕ) → moving_image_at (unboxed d) p ≡ None) }
    ensures unasked { IfOk result (λ d. (p : ℕ) → asks_at (unboxed d) p ≡ []) }
{
    Directory::new(alloc)
}

// Tables without transactions.
fn empty_tables(alloc: Global) -> Result<Vec<TxnTable>, Memory>
    ensures { IfOk result (λ txns. txns.items ≡ for_each empty_table 8) }
{
    let mut txns = Vec::with_capacity(alloc, 8)?;
    for n in 0..8u8 {
        txns.push(TxnTable::new(alloc, InstNo::new(n + 1).unwrap()))?;
    }
    Ok(txns)
}

// No instance has begun a checkpoint.
pub(crate) fn no_checks(alloc: Global) -> Result<Vec<Option<Checkpoint>>, Memory>
    ensures { IfOk result (λ checks. checks.items ≡ for_each (λ i. None) 8) }
{
    let mut checks = Vec::with_capacity(alloc, 8)?;
    for _n in 0..8u8 {
        checks.push(None)?;
    }
    Ok(checks)
}

// So many copies.
pub(crate) fn repeated<T: Copy>(alloc: Global, item: T, count: usize) -> Result<Vec<T>, AllocError>
    ensures { IfOk result (λ items. items.items ≡ for_each (λ i. item) count) }
{
    let mut items = Vec::with_capacity(alloc, count)?;
    for _n in 0..count {
        items.push(item)?;
    }
    Ok(items)
}
