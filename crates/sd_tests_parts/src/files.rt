//! Rigs over files: what was written is there for a rig that is made anew, and a folder that isn't whole is refused.

use sd_base::{Failed, Pick, Trouble};
use sd_filerig::FileRig;
use sd_rig::Rig;
use std::fs;
use std::fs::OpenOptions;
use std::test::Fail;

fn is_send<T: Send>(_x: &T) {}

// Writes and syncs, of which some fail, and a crash, which keeps all.
fn run(rig: &mut FileRig) -> Result<(), Failed> {
    rig.write(0, 2_099_196, b"last")?;
    rig.sync(0)?;
    rig.arm(Trouble::Fault(2));
    rig.write(1, 0, b"a")?;
    let _failed = rig.write(1, 0, b"b").is_err();
    rig.write(1, 1, b"c")?;
    rig.arm(Trouble::Fuse(0));
    let _failed = rig.sync(1).is_err();
    rig.crash(Pick::Lose);
    rig.write(8, 7, b"wild")
}

#[test]
fn a_rig_made_anew_reads_what_was_written(rt: HostRuntime) -> Result<(), Fail> {
    let dir = "filerig_anew";
    fs::create_dir(&rt, dir)?;
    let mut rig = FileRig::at(&rt, rt.alloc(), dir)?;
    is_send(&rig);
    run(&mut rig)?;
    drop(rig);
    let mut rig = FileRig::at(&rt, rt.alloc(), dir)?;
    let mut out = [0u8; 4];
    for (dev, at, bytes) in [
        (0u8, 2_099_196u32, *b"last"),
        (1, 0, *b"bc\0\0"),
        (8, 7, *b"wild"),
    ] {
        rig.read(dev, at, &mut out)?;
        assert_eq!(rt; out, bytes);
    }
    drop(rig);
    fs::remove_dir_all(&rt, dir)?;
    Ok(())
}

#[test]
fn a_folder_that_is_missing_or_taken_or_cut_short_is_refused(rt: HostRuntime) -> Result<(), Fail> {
    let dir = "filerig_once";
    assert!(rt; FileRig::at(&rt, rt.alloc(), dir).is_err());
    fs::create_dir(&rt, dir)?;
    let rig = FileRig::at(&rt, rt.alloc(), dir)?;
    assert!(rt; FileRig::at(&rt, rt.alloc(), dir).is_err());
    drop(rig);
    let file = OpenOptions::new()
        .write(true)
        .open(&rt, "filerig_once/log2")?;
    file.set_len(5)?;
    assert!(rt; FileRig::at(&rt, rt.alloc(), dir).is_err());
    fs::remove_dir_all(&rt, dir)?;
    Ok(())
}
