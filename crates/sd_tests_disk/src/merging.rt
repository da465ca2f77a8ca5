//! The records of two logs that change a page, merged.

ghost use Rattle.std.specs.Prelude.{◌<◌, All, IfOk, length};
ghost use Rattle.sd_log.specs.Logs.{AreSpelled, scanned};

use crate::bytes_by_hand::{LOSER, WORKED};
use crate::devices::log_of;
use sd_base::{InstNo, Memory, PageNo, Refusal};
use sd_log::Log;
use sd_redo::merge_page;
use std::alloc::Global;
use std::test::Fail;

// The log that goes on behind what an instance's device has.
fn live_log(alloc: Global, inst: InstNo, bytes: &[u8]) -> Result<Log, Refusal>
    ensures { IfOk result (λ log. AreSpelled (scanned log)) }
{
    Ok(log_of(alloc, inst, bytes)?.into_log(alloc)?)
}

// Whether the records of the page are those of these LSNs.
fn have_lsns(alloc: Global, logs: &[Log], page: PageNo, lsns: [u64; 3]) -> Result<bool, Memory>
    requires few { length logs.now < 256 }
    requires spelled { All (λ log. AreSpelled (scanned log)) logs.now }
{
    let found = merge_page(alloc, logs, page)?;
    Ok(found.iter().map(|p| p.rec.lsn()).eq(lsns))
}

#[test]
fn records_of_a_page_come_by_lsn(rt: HostRuntime) -> Result<(), Fail> {
    let alloc = rt.alloc();
    let one = InstNo::new(1).ok_or("instance 1")?;
    let two = InstNo::new(2).ok_or("instance 2")?;
    let page = PageNo::new(0).ok_or("page 0")?;
    let first = live_log(alloc, one, &WORKED)?;
    let logs = [first, live_log(alloc, two, &LOSER)?];
    assert!(rt; have_lsns(alloc, &logs, page, [2, 4, 5])?);
    Ok(())
}
