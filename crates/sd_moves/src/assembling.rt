//! A complex over what a reading of its devices found.

ghost use Rattle.std.specs.Prelude.{◌≡◌, ◌≤◌, ℕ, false, None, IfErr, IfOk};
ghost use Rattle.sd_model.specs.State.{State};
ghost use Rattle.sd_rig.specs.Devices.{LeavesOnly};
ghost use Rattle.sd_state.specs.Complexes.{parts};
ghost use Rattle.sd_state.specs.Fresh.{empty_pool, for_each};
ghost use Rattle.sd_state.specs.Good.{Good};
ghost use Rattle.sd_moves.specs.Opening.{AreOpened, OpensTo, opened_parts};
ghost use Rattle.sd_state.specs.Values.{Pending};

use crate::blanks::{empty_pools, no_checks, over, repeated};
use sd_base::{Lsn, Memory, Status};
use sd_log::Log;
use sd_page::Image;
use sd_pagelock::Directory;
use sd_pool::Pool;
use sd_reclock::RecordLocks;
use sd_rig::Rig;
use sd_state::{Checkpoint, Complex, Shape};
use sd_txn::TxnTable;
use std::alloc::Global;

/// What a reading of the nine devices found. What is found of instances is in the order of their numbers.
#[derive(Drop)]
pub struct Restored {
    pub logs: Vec<Log>,
    /// The transactions that each log leaves open, each to be undone.
    pub txns: Vec<TxnTable>,
    /// An exclusive lock of each of these on each record that it has open, and no wait.
    pub locks: RecordLocks,
    /// Each page free, or lost where the disk hasn't its newest version.
    pub directory: Directory<Box<Image>>,
    /// Down where the log leaves a transaction open, and everywhere where a page is lost; else Clean.
    pub statuses: Vec<Status>,
    /// The epoch of each log's last Start, or of its master.
    pub epochs: Vec<u32>,
    /// The count of each log's master that counts, 0 where none does.
    pub masters: Vec<u64>,
    /// How many records each log owes.
    pub owed: Vec<u64>,
    /// The greatest LSN of a page on device 0.
    pub disk_lsn: Lsn,
}

/// A complex over devices that are settled, with what a reading found on them. It is good for each state of the serial table
/// to which they open. No device call is made. An error hands the rig back.
pub fn assemble<G: Rig>(
    alloc: Global,
    rig: G,
    shape: Shape,
    found: Restored,
) -> Result<Complex<G>, (Memory, G)>
    requires least { 1 ≤ shape.frames }
    requires most { shape.frames ≤ 1024 }
    requires settled { (d : ℕ) → d ≤ 8 → LeavesOnly (G.seen rig d) (G.leaves rig d) }
    requires found { AreOpened shape.frames (G.seen rig) (opened_parts shape.frames found) }
    ensures rig { IfOk result (λ c. c.rig ≡ rig) }
    ensures parts { IfOk result (λ c. parts c ≡ opened_parts shape.frames found) }
    ensures good { IfOk result (λ c. (m : State) → OpensTo (G.seen rig) m
        → Good (G.seen c.rig) (G.leaves c.rig) Pending.Idle (parts c) m) }
    ensures back { IfErr result (λ e. e.1 ≡ rig) }
{
    match filled(alloc, shape.frames, found) {
        Ok(rest) => Ok(over(rest, rig)),
        Err(memory) => Err((memory, rig)),
    }
}

// A complex with what was found, over no rig.
pub(crate) fn filled(alloc: Global, frames: u16, found: Restored) -> Result<Complex<()>, Memory>
    requires least { 1 ≤ frames }
    requires most { frames ≤ 1024 }
    ensures { IfOk result (λ c. parts c ≡ opened_parts frames found) }
{
    let idle = all_idle(alloc, frames)?;
    Ok(Complex {
        rig: (),
        logs: found.logs,
        pools: idle.pools,
        directory: found.directory,
        locks: found.locks,
        txns: found.txns,
        statuses: found.statuses,
        epochs: found.epochs,
        masters: found.masters,
        checks: idle.checks,
        others: idle.others,
        owed: found.owed,
        disk_lsn: found.disk_lsn,
        loose: idle.loose,
        due: None,
    })
}

// What no device tells: pools without pages, no begun checkpoint, one place at which each log begins, and each device settled.
#[derive(Drop)]
struct Idle {
    pools: Vec<Pool>,
    checks: Vec<Option<Checkpoint>>,
    others: Vec<Option<u32>>,
    loose: Vec<bool>,
}

fn all_idle(alloc: Global, frames: u16) -> Result<Idle, Memory>
    requires least { 1 ≤ frames }
    requires most { frames ≤ 1024 }
    ensures pools { IfOk result (λ idle. idle.pools.items ≡ for_each (λ i. empty_pool frames) 8) }
    ensures checks { IfOk result (λ idle. idle.checks.items ≡ for_each (λ i. None) 8) }
    ensures others { IfOk result (λ idle. idle.others.items ≡ for_each (λ i. None) 8) }
    ensures loose { IfOk result (λ idle. idle.loose.items ≡ for_each (λ i. false) 9) }
{
    Ok(Idle {
        pools: empty_pools(alloc, frames)?,
        checks: no_checks(alloc)?,
        others: repeated(alloc, None, 8)?,
        loose: repeated(alloc, false, 9)?,
    })
}
