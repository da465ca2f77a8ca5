//! The devices: each call is made in memory and on the file, and what is told is the memory's.

ghost use Rattle.std.specs.Prelude.{◌≡◌, IfOk};
ghost use Rattle.sd_filerig.specs.Mirror.{mirror};

use crate::backing::{Backing, lock_folder, sync_folder};
use sd_base::{Failed, Pick, Refusal, Trouble};
use sd_rig::{MemRig, Rig};
use std::alloc::Global;
use std::fs::File;

/// Nine devices in files. A device of which a call on its file has failed fails in each later call.
#[derive(Drop)]
pub struct FileRig {
    memory: MemRig,
    files: Vec<Backing>,
    // Held until the rig is dropped.
    lock: Option<File>,
}

impl FileRig {
    ghost use Rattle.sd_rig.specs.Rigs.{fault_count};
    ghost use Rattle.sd_filerig.specs.Mirror.{IsStable};

    /// The devices in the files `data` and `log1` to `log8` of a folder, which are made with zeros where they are
    /// missing, and a file `lock`. `Failed` comes where a file call failed, the folder is taken, or a file has another length.
    pub fn at(rt: &HostRuntime, alloc: Global, dir: &str) -> Result<FileRig, Refusal>
        ensures stable { IfOk result (λ rig. IsStable (mirror rig)) }
        ensures faults { IfOk result (λ rig. fault_count (mirror rig) ≡ 0) }
    {
        let lock = lock_folder(rt, alloc, dir)?;
        let mut memory = MemRig::blank(alloc)?;
        let mut files = Vec::with_capacity(alloc, 9)?;
        for dev in 0..9u8 {
            let mut image = memory.image(alloc, dev)?;
            files.push(Backing::open(rt, alloc, dir, dev, &mut image)?)?;
            memory.load(dev, &image)?;
        }
        sync_folder(rt, dir)?;
        Ok(FileRig::of(memory, files, Some(lock)))
    }

    // These files, of which the memory is the mirror.
    pub(crate) fn of(memory: MemRig, files: Vec<Backing>, lock: Option<File>) -> FileRig
        ensures { mirror result ≡ memory }
    {
        FileRig {
            memory,
            files,
            lock,
        }
    }
}

// Whether a call on the file of this device has failed, or there is none.
fn is_broken(files: &[Backing], dev: u8) -> bool {
    match files.get(dev as usize) {
        Some(file) => file.is_broken(),
        None => true,
    }
}

// Whether the bytes were written to the file.
fn write_file(files: &mut [Backing], dev: u8, at: u32, bytes: &[u8]) -> bool {
    match files.get_mut(dev as usize) {
        Some(file) => file.write(at, bytes),
        None => false,
    }
}

// Whether the file is stable.
fn sync_file(files: &mut [Backing], dev: u8) -> bool {
    match files.get_mut(dev as usize) {
        Some(file) => file.sync(),
        None => false,
    }
}

// Makes each file stable, and tells whether no call on one has failed.
fn sync_all(files: &mut [Backing]) -> bool {
    let mut stable = true;
    for i in 0..files.len() {
        let file = &mut files[i];
        stable = file.sync() && stable;
    }
    stable
}

impl Rig for FileRig {
    ghost use Rattle.sd_rig.specs.Laws.{leaves_bytes, leaves_what_is_seen, leaves_whole, left_earlier, left_now, left_only_now};
    ghost use Rattle.sd_rig.specs.Rigs.{devices, done};

    ghost seen = { λ rig. ⟦<MemRig as Rig>⟧.seen (mirror rig) };

    ghost leaves = { λ rig. ⟦<MemRig as Rig>⟧.leaves (mirror rig) };

    ghost moment = { λ rig. ⟦<MemRig as Rig>⟧.moment (mirror rig) };

    ghost since = { λ rig. ⟦<MemRig as Rig>⟧.since (mirror rig) };

    ghost faults = { λ rig. ⟦<MemRig as Rig>⟧.faults (mirror rig) };

    ghost counts_now = { λ rig t img le left. left_now (done (mirror rig)) (devices (mirror rig)) (mirror rig).drives.told t img le left };

    ghost only_now = { λ rig img since. left_only_now (done (mirror rig)) (devices (mirror rig)) (mirror rig).drives.told img since };

    ghost earlier = { λ rig t u img le since. left_earlier (done (mirror rig)) t u img le since };

    ghost leaves_seen = { λ rig dev le. leaves_what_is_seen (devices (mirror rig)) (mirror rig).drives.devices dev le };

    ghost whole = { λ rig dev bytes le left. leaves_whole (devices (mirror rig)) (mirror rig).drives.devices dev bytes le left };

    ghost bytes = { λ rig dev c le left. leaves_bytes (devices (mirror rig)) dev c left };

    /// Reads the memory. It fails where trouble meets it, or the device's file has failed.
    fn read(&mut self, dev: u8, at: u32, out: &mut [u8]) -> Result<(), Failed> {
        if is_broken(&self.files, dev) {
            return Err(self.memory.fail());
        }
        self.memory.read(dev, at, out)
    }

    /// Writes to the memory, and then to the file, also where armed trouble meets the call. So a write that fails in the file is
    /// pending in the memory.
    fn write(&mut self, dev: u8, at: u32, bytes: &[u8]) -> Result<(), Failed> {
        if is_broken(&self.files, dev) {
            return Err(self.memory.fail());
        }
        let answer = self.memory.write(dev, at, bytes);
        if !write_file(&mut self.files, dev, at, bytes) {
            return Err(self.memory.fail());
        }
        answer
    }

    /// Syncs the file, and then the memory. So the memory never says that bytes are stable which the file may lose.
    fn sync(&mut self, dev: u8) -> Result<(), Failed> {
        if !sync_file(&mut self.files, dev) {
            return Err(self.memory.fail());
        }
        self.memory.sync(dev)
    }

    /// Ends the armed trouble. The bytes stay, whatever is picked, and the files are made stable. Where a call on one fails
    /// or has failed, that is counted, and nothing is said to be stable.
    fn crash(&mut self, pick: Pick) {
        let _picked = pick;
        if sync_all(&mut self.files) {
            self.memory.crash(Pick::Keep);
        } else {
            self.memory.arm(Trouble::Clear);
            let _counted = self.memory.fail();
        }
    }

    fn arm(&mut self, trouble: Trouble) {
        self.memory.arm(trouble);
    }
}
