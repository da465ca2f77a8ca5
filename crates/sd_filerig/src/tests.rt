//! What no clause says: that a device whose file has failed gives no read either.

use super::*;
use crate::backing::Backing;
use sd_base::Failed;
use sd_rig::{MemRig, Rig};
use std::fs;
use std::fs::File;
use std::test::Fail;

#[test]
fn a_device_whose_file_has_failed_fails_from_then_on(rt: HostRuntime) -> Result<(), Fail> {
    fs::write(&rt, "filerig_failing", "")?;
    let mut files = Vec::new(rt.alloc());
    for _dev in 0..9u8 {
        files.push(Backing::of(File::open(&rt, "filerig_failing")?))?;
    }
    let mut rig = FileRig::of(MemRig::blank(rt.alloc())?, files, None);
    let mut out = [0u8; 1];
    // The files are open for reading alone.
    assert_eq!(rt; rig.write(4, 0, b"x"), Err(Failed));
    assert_eq!(rt; rig.read(4, 0, &mut out), Err(Failed));
    assert_eq!(rt; rig.read(5, 0, &mut out), Ok(()));
    fs::remove_file(&rt, "filerig_failing")?;
    Ok(())
}
