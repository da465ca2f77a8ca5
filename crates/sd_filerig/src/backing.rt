//! The file behind a device. No clause speaks of what it holds.

ghost use Rattle.std.specs.Prelude.{◌≡◌, ◌↔◌, IsTrue, false, true};

use sd_base::Refusal;
use std::alloc::Global;
use std::fs::{File, OpenOptions};
use std::os::unix::fs::FileExt;
use std::{fs, io};

/// An open file, and whether a call on it has failed. Once one has, no other is made: what the system does with bytes
/// that it couldn't write isn't known, and a later sync that succeeds says nothing of them.
#[derive(Drop)]
pub struct Backing {
    file: File,
    broken: bool,
}

impl Backing {
    /// No call on this file has failed.
    pub fn of(file: File) -> Backing
        ensures { result.broken ≡ false }
    {
        Backing {
            file,
            broken: false,
        }
    }

    pub fn is_broken(&self) -> bool
        ensures { result ≡ self.now.broken }
    {
        self.broken
    }

    /// Writes the bytes, and tells whether no call has failed.
    pub fn write(&mut self, at: u32, bytes: &[u8]) -> bool
        ensures told { IsTrue result ↔ (self.new.broken ≡ false) }
        ensures sticky { self.old.broken ≡ true → self.new.broken ≡ true }
    {
        self.broken = self.broken || self.file.write_all_at(bytes, u64::from(at)).is_err();
        !self.broken
    }

    /// Makes the file stable, and tells whether no call has failed.
    pub fn sync(&mut self) -> bool
        ensures told { IsTrue result ↔ (self.new.broken ≡ false) }
        ensures sticky { self.old.broken ≡ true → self.new.broken ≡ true }
    {
        self.broken = self.broken || self.file.sync_data().is_err();
        !self.broken
    }

    /// Opens the file of a device, and fills the image with what it holds. Where it is missing it is made of the image as
    /// it stands. It is stable then, and nothing else has it open that took the folder by `lock_folder`.
    pub fn open(
        rt: &HostRuntime,
        alloc: Global,
        dir: &str,
        dev: u8,
        image: &mut [u8],
    ) -> Result<Backing, Refusal> {
        let path = if dev == 0 {
            format!(in alloc; "{dir}/data")?
        } else {
            format!(in alloc; "{dir}/log{dev}")?
        };
        let draft = format!(in alloc; "{dir}/draft")?;
        match opened(rt, path.as_str(), draft.as_str(), image) {
            Ok(file) => Ok(Backing::of(file)),
            Err(_) => Err(Refusal::Failed),
        }
    }
}

// The file at the path, stable, and the image filled with what it holds.
fn opened(rt: &HostRuntime, path: &str, draft: &str, image: &mut [u8]) -> io::Result<File> {
    if fs::exists(rt, path)? {
        let file = File::open(rt, path)?;
        if file.metadata()?.len() != image.len() as u64 {
            return Err(io::ErrorKind::InvalidData.into());
        }
        file.read_exact_at(image, 0)?;
    }
    make(rt, path, draft, image)
}

// Makes a file of these bytes anew. An earlier process may have left bytes that no sync has made stable, and where a sync
// failed, the system may show bytes that the disk lacks. So what was read is written under another name, and takes the
// file's name once it is whole and stable.
fn make(rt: &HostRuntime, path: &str, draft: &str, image: &[u8]) -> io::Result<File> {
    let file = OpenOptions::new()
        .read(true)
        .write(true)
        .create(true)
        .truncate(true)
        .open(rt, draft)?;
    file.write_all_at(image, 0)?;
    file.sync_all()?;
    fs::rename(rt, draft, path)?;
    Ok(file)
}

/// Takes the folder, which no other process has taken until the lock is dropped.
pub fn lock_folder(rt: &HostRuntime, alloc: Global, dir: &str) -> Result<File, Refusal> {
    let path = format!(in alloc; "{dir}/lock")?;
    match OpenOptions::new()
        .write(true)
        .create(true)
        .open(rt, path.as_str())
    {
        Ok(file) if file.try_lock().is_ok() => Ok(file),
        _ => Err(Refusal::Failed),
    }
}

/// Makes the names of the files in the folder stable.
pub fn sync_folder(rt: &HostRuntime, dir: &str) -> Result<(), Refusal> {
    match File::open(rt, dir) {
        Ok(folder) if folder.sync_all().is_ok() => Ok(()),
        _ => Err(Refusal::Failed),
    }
}
