//! A log device by hand, with two masters and a checkpoint.

use crate::bytes_by_hand::{NEW_SLOT, OLD_SLOT, THREE_GROUPS};
use crate::devices::{bytes_at, device, log};
use sd_base::InstNo;
use sd_recovered::{MasterRecord, Scanned, scan};
use std::test::Fail;

// Whether the records stand at their places, and this is the master that counts.
fn is_read(scanned: &Scanned, master: &Option<MasterRecord>) -> bool {
    let places: [u32; 6] = [5, 23, 64, 95, 104, 125];
    scanned.log.scan().iter().map(|p| p.place).eq(places)
        && scanned.log.gate() == 138
        && scanned.master == *master
}

#[test]
fn the_newer_master_counts(rt: HostRuntime) -> Result<(), Fail> {
    let newer = Some(MasterRecord {
        count: 2,
        area: 0,
        epoch: 1,
        check: 5,
        start: 0,
    });
    let patches = [
        bytes_at(1, 0, &OLD_SLOT),
        bytes_at(1, 65, &NEW_SLOT),
        log(1, &THREE_GROUPS),
    ];
    let inst = InstNo::new(1).ok_or("instance 1")?;
    let device = device(rt.alloc(), 1, &patches)?;
    let scanned = scan(rt.alloc(), device.items(), inst)?;
    assert!(rt; is_read(&scanned, &newer));
    Ok(())
}
