//! What a complex is made of, found in what was read of nine devices.

ghost use Rattle.std.specs.Prelude.{◌≡◌, ℕ, [], IfOk, None, length, map};
ghost use Rattle.sd_base.specs.declared.ids.Rid.{Rid};
ghost use Rattle.sd_base.specs.declared.ids.TxnId.{TxnId};
ghost use Rattle.sd_pagelock.specs.Directory.{asks_at, entry_at, moving_image_at, rec_lsn_at};
ghost use Rattle.sd_pagelock.specs.Rows.{nowhere};
ghost use Rattle.sd_reclock.specs.Locks.{held};
ghost use Rattle.sd_recovered.specs.UndoPass.{AreLosersOf};
ghost use Rattle.sd_state.specs.Complexes.{unboxed};
ghost use Rattle.sd_restart.specs.Claims.{AreApart, claimed, has_in};
ghost use Rattle.sd_restart.specs.Made.{IsMade};
ghost use Rattle.sd_restart.specs.Reading.{AreEpochs, AreOwed, AreTables, count_of, lost_by, rec_at, some_rec, status_for};

use crate::claims::claims_of;
use crate::parts::{
    counts_of, epochs_of, greatest, logs_of, owed_of, places_of, statuses_of, tables_of,
};
use sd_base::{Memory, Status};
use sd_model::Table;
use sd_moves::Restored;
use sd_page::Image;
use sd_pagelock::Directory;
use sd_reclock::RecordLocks;
use sd_recovered::ReadDevices;
use sd_txn::TxnTable;
use std::alloc::Global;

/// What a complex is made of, and the table, of what was read: its logs, masters and losers are those of eight instances, and no
/// record is open of two transactions. `Memory` comes for want of memory alone; what was read is given back then.
pub fn restored_of(alloc: Global, opened: ReadDevices) -> Result<(Restored, Table), Memory>
    requires eight { length opened.logs.items ≡ 8 }
    requires masters { length opened.masters.items ≡ length opened.logs.items }
    requires losers { AreLosersOf opened.logs.items opened.losers.items }
    requires apart { AreApart opened.logs.items }
    requires pages { length opened.rec_lsns.items ≡ 1024 }
    ensures made { IfOk result (λ x. IsMade opened x.0) }
    ensures table { IfOk result (λ x. x.1 ≡ opened.table) }
{
    let left = left_open_of(alloc, &opened)?;
    let standing = standing_of(alloc, &opened)?;
    let numbers = numbers_of(alloc, &opened)?;
    let ReadDevices {
        logs,
        disk_lsns,
        table,
        ..
    } = opened;
    let logs = logs_of(alloc, logs)?;
    let found = Restored {
        logs,
        txns: left.txns,
        locks: left.locks,
        directory: standing.directory,
        statuses: standing.statuses,
        epochs: numbers.epochs,
        masters: numbers.masters,
        owed: numbers.owed,
        disk_lsn: greatest(&disk_lsns),
    };
    Ok((found, table))
}

// Whom the logs leave open, and the locks on what they have open.
#[derive(Drop)]
struct LeftOpen {
    txns: Vec<TxnTable>,
    locks: RecordLocks,
}

// Tables and locks of what was read.
fn left_open_of(alloc: Global, opened: &ReadDevices) -> Result<LeftOpen, Memory>
    requires eight { length opened.now.logs.items ≡ 8 }
    requires losers { AreLosersOf opened.now.logs.items opened.now.losers.items }
    requires apart { AreApart opened.now.logs.items }
    ensures tables { IfOk result (λ left. AreTables opened.now.logs.items left.txns.items) }
    ensures claims { IfOk result (λ left. (t : TxnId) (r : Rid)
        → held left.locks t r ≡ claimed (has_in opened.now.logs.items t r) None) }
    ensures unwaited { IfOk result (λ left. left.locks.waiting ≡ []) }
{
    let txns = tables_of(alloc, &opened.logs, &opened.losers)?;
    let locks = claims_of(alloc, &opened.logs, &opened.losers)?;
    Ok(LeftOpen { txns, locks })
}

// Where each page is, and how each instance stands.
#[derive(Drop)]
struct Standing {
    directory: Directory<Box<Image>>,
    statuses: Vec<Status>,
}

// Places and statuses of what was read.
fn standing_of(alloc: Global, opened: &ReadDevices) -> Result<Standing, Memory>
    requires { length opened.now.rec_lsns.items ≡ 1024 }
    ensures entries { IfOk result (λ s. (p : ℕ)
        → entry_at (unboxed s.directory) p ≡ nowhere (lost_by opened.now.rec_lsns.items p)) }
    ensures recs { IfOk result (λ s. (p : ℕ) → rec_lsn_at (unboxed s.directory) p ≡ rec_at opened.now.rec_lsns.items p) }
    ensures still { IfOk result (λ s. (p : ℕ) → moving_image_at (unboxed s.directory) p ≡ None) }
    ensures unasked { IfOk result (λ s. (p : ℕ) → asks_at (unboxed s.directory) p ≡ []) }
    ensures statuses { IfOk result (λ s. s.statuses.items
        ≡ map (status_for (some_rec opened.now.rec_lsns.items)) opened.now.losers.items) }
{
    let directory = places_of(alloc, &opened.rec_lsns)?;
    let statuses = statuses_of(alloc, &opened.losers, &opened.rec_lsns)?;
    Ok(Standing {
        directory,
        statuses,
    })
}

// The numbers of each log: its epoch, its master's count, and how many records it owes.
#[derive(Drop)]
struct Numbers {
    epochs: Vec<u32>,
    masters: Vec<u64>,
    owed: Vec<u64>,
}

// The numbers of what was read.
fn numbers_of(alloc: Global, opened: &ReadDevices) -> Result<Numbers, Memory>
    requires masters { length opened.now.masters.items ≡ length opened.now.logs.items }
    requires losers { AreLosersOf opened.now.logs.items opened.now.losers.items }
    ensures epochs { IfOk result (λ n. AreEpochs opened.now.masters.items opened.now.logs.items n.epochs.items) }
    ensures counts { IfOk result (λ n. n.masters.items ≡ map count_of opened.now.masters.items) }
    ensures owed { IfOk result (λ n. AreOwed opened.now.logs.items n.owed.items) }
{
    let epochs = epochs_of(alloc, &opened.masters, &opened.logs)?;
    let masters = counts_of(alloc, &opened.masters)?;
    let owed = owed_of(alloc, &opened.losers)?;
    Ok(Numbers {
        epochs,
        masters,
        owed,
    })
}
