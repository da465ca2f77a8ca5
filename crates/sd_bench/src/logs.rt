//! Appends, forces and readings of logs.

ghost use Rattle.std.specs.Prelude.{◌≡◌, ◌<◌, ◌≤◌, ◌^◌, true, IfOk, IsTrue, OnOk};
ghost use Rattle.sd_rig.specs.Devices.{LeavesOnly};
ghost use Rattle.sd_log.specs.Logs.{StandsOn};
ghost use Rattle.sd_bench.specs.Same.{AreSame};

use crate::transfers::Transfer;
use sd_base::{Failed, InstNo, PageNo, Refusal};
use sd_log::{Log, ReadLog};
use sd_logrec::Lent;
use sd_rig::{MemRig, Rig};
use std::alloc::Global;

// What undoing one change, or two, takes: a CLR of 45 bytes for each, and an End of 26.
const ONE_UNDONE: u32 = 71;

const TWO_UNDONE: u32 = 116;

/// To each of the first logs, so many, of blank devices appends so many transfers, three records and a force each, and then
/// reads the first log so many times. `false` where a call is refused, as where a log is full.
pub fn transfers(alloc: Global, logs: u8, transfers: u32, reads: u32) -> bool {
    let Ok(mut rig) = MemRig::blank(alloc) else {
        return false;
    };
    for n in 0..logs {
        if !is_filled(alloc, &mut rig, n.saturating_add(1), transfers) {
            return false;
        }
    }
    is_read(alloc, &mut rig, reads)
}

// Reads the log from its device, which is made stable.
fn open<G: Rig>(alloc: Global, rig: &mut G, inst: InstNo) -> Result<Log, Refusal>
    ensures stands { IfOk result (λ log. StandsOn log (G.seen rig.new log.inst)) }
    ensures stable { IfOk result (λ log. LeavesOnly (G.seen rig.new log.inst) (G.leaves rig.new log.inst)) }
{
    rig.sync(inst.get())?;
    Ok(ReadLog::read_in(alloc, rig, inst, 0)?.into_log(alloc)?)
}

// Fills the log of this number.
fn is_filled(alloc: Global, rig: &mut MemRig, number: u8, transfers: u32) -> bool {
    let (Some(inst), Some(page)) = (InstNo::new(number), PageNo::new(0)) else {
        return false;
    };
    filled(alloc, rig, inst, page, transfers).is_ok()
}

fn filled<G: Rig>(
    alloc: Global,
    rig: &mut G,
    inst: InstNo,
    page: PageNo,
    transfers: u32,
) -> Result<(), Refusal> {
    let mut log = open(alloc, rig, inst)?;
    for n in 0..transfers {
        append_transfer(&mut log, inst, page, n)?;
        force(rig, &mut log)?;
    }
    Ok(())
}

// The records of transfer n of this log. The groups stay.
fn append_transfer(log: &mut Log, inst: InstNo, page: PageNo, n: u32) -> Result<(), Refusal>
    ensures { AreSame log.old log.new }
{
    let first = 3 * u64::from(n) + 1;
    let transfer = Transfer::new(inst, n, first, page, n.checked_sub(1));
    log.append(&Lent::update(&transfer.first_change()), ONE_UNDONE)?;
    log.append(&Lent::update(&transfer.second_change()), TWO_UNDONE)?;
    log.append(&Lent::whole(&transfer.commit()), 0)
}

// A force after which the log stands on its device.
fn force<G: Rig>(rig: &mut G, log: &mut Log) -> Result<(), Failed>
    requires stands { StandsOn log.old (G.seen rig.old log.old.inst) }
    requires stable { LeavesOnly (G.seen rig.old log.old.inst) (G.leaves rig.old log.old.inst) }
    ensures stands { OnOk result (StandsOn log.new (G.seen rig.new log.new.inst)) }
    ensures stable { OnOk result (LeavesOnly (G.seen rig.new log.new.inst) (G.leaves rig.new log.new.inst)) }
{
    log.force(rig)
}

fn is_read(alloc: Global, rig: &mut MemRig, reads: u32) -> bool {
    let Some(inst) = InstNo::new(1) else {
        return false;
    };
    for _ in 0..reads {
        if ReadLog::read_in(alloc, rig, inst, 0).is_err() {
            return false;
        }
    }
    true
}
