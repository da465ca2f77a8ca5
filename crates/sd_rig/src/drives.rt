//! Nine devices in memory with the record of what was done to them. No call fails here.

ghost use Rattle.std.specs.Prelude.{◌≡◌, ◌+◌, ◌≤◌, ◌<◌, ◌↔◌, ◌⊎◌, [], map, length, slice_range, All, IfOk, IsTrue};
ghost use Rattle.sd_rig.specs.Devices.{device_len};
ghost use Rattle.sd_rig.specs.Disk.{IsSettled, disk_code, settled};
ghost use Rattle.sd_rig.specs.History.{Crashed, Poked, Synced, Wrote};
ghost use Rattle.sd_rig.specs.Replay.{AreDevices, AreSettled, Notes, NotesNothing, blanks, disk_at, replayed};
ghost use Rattle.std.specs.Coded.{Coded-set, coded_list};

use crate::disk::Disk;
use crate::history::History;
use crate::rig::device_len;
use sd_base::{Memory, Pick};
use std::alloc::Global;

/// The devices and their record, which tells them from the beginning.
#[derive(Drop)]
pub struct Drives {
    disks: Vec<Disk>,
    history: History,
    ghost devices: { AreDevices disks.items },
    ghost told: { disks.items ≡ replayed history.events blanks } by { Coded-set (coded_list disk_code) _ _ },
}

impl Drives {
    /// Nine devices of zeros, and an empty record.
    pub fn blank(alloc: Global) -> Result<Drives, Memory>
        ensures disks { IfOk result (λ r. r.disks.items ≡ blanks) }
        ensures events { IfOk result (λ r. r.history.events ≡ []) }
    {
        let disks = blank_disks(alloc)?;
        let history = History::new();
        Ok(Drives { disks, history })
    }

    /// What the device reads, copied.
    pub fn image(&self, alloc: Global, dev: u8) -> Result<Vec<u8>, Memory>
        requires { dev ≤ 8 }
        ensures bytes { IfOk result (λ image. image.items ≡ (disk_at self.now.disks.items dev).seen) }
        ensures len { IfOk result (λ image. length image.items ≡ device_len dev) }
    {
        self.disks[dev as usize].image(alloc)
    }

    /// Fills `out` with the bytes at `at`.
    pub fn read(&self, dev: u8, at: u32, out: &mut [u8])
        requires device { dev ≤ 8 }
        requires range { at + length out.old ≤ device_len dev }
        ensures { out.new ≡ slice_range (disk_at self.now.disks.items dev).seen at (at + length out.old) }
    {
        self.disks[dev as usize].read(at as usize, out);
    }

    /// Notes a write and does it.
    pub fn write(&mut self, dev: u8, at: u32, bytes: &[u8], ok: bool)
        requires device { dev ≤ 8 }
        requires range { at + length bytes.now ≤ device_len dev }
        ensures { Notes (Wrote dev at bytes.now ok) self.old.history.events self.new.history.events self.old.disks.items self.new.disks.items }
    {
        self.history.note_write(dev, at, bytes, ok);
        let disk = &mut self.disks[dev as usize];
        disk.write(at as usize, bytes);
    }

    /// Notes a sync, and does it if it is to succeed.
    pub fn sync(&mut self, dev: u8, ok: bool)
        requires device { dev ≤ 8 }
        ensures { Notes (Synced dev ok) self.old.history.events self.new.history.events self.old.disks.items self.new.disks.items }
    {
        self.history.note_sync(dev, ok);
        if ok {
            let disk = &mut self.disks[dev as usize];
            disk.settle(Pick::Keep);
        }
    }

    /// Settles each device as a crash leaves it. It is noted where a byte is pending.
    pub fn crash(&mut self, pick: Pick)
        ensures disks { self.new.disks.items ≡ map (settled pick) self.old.disks.items }
        ensures settled { AreSettled self.old.disks.items → self.new.history.events ≡ self.old.history.events }
        ensures noted { Notes (Crashed pick) self.old.history.events self.new.history.events self.old.disks.items self.new.disks.items
            ⊎ NotesNothing self.old.history.events self.new.history.events self.old.disks.items self.new.disks.items }
        ensures settles { AreSettled self.new.disks.items }
    {
        if are_settled(&self.disks) {
            return;
        }
        self.history.note_crash(pick);
        settle_all(&mut self.disks, pick);
    }

    /// Notes a poke and does it.
    pub fn poke(&mut self, dev: u8, at: u32, byte: u8)
        requires device { dev ≤ 8 }
        requires range { at < device_len dev }
        ensures { Notes (Poked dev at byte) self.old.history.events self.new.history.events self.old.disks.items self.new.disks.items }
    {
        self.history.note_poke(dev, at, byte);
        let disk = &mut self.disks[dev as usize];
        disk.poke(at as usize, byte);
    }
}

// Nine devices of zeros.
fn blank_disks(alloc: Global) -> Result<Vec<Disk>, Memory>
    ensures { IfOk result (λ disks. disks.items ≡ blanks) }
{
    let mut disks = Vec::new(alloc);
    for dev in 0..9u8 {
        disks.push(Disk::blank(alloc, device_len(dev) as usize)?)?;
    }
    Ok(disks)
}

// Whether no byte is pending.
fn are_settled(disks: &[Disk]) -> bool
    ensures { IsTrue result ↔ All IsSettled disks.now }
{
    disks.iter().all(|disk| disk.is_settled())
}

// Settles each device as a crash leaves it.
fn settle_all(disks: &mut [Disk], pick: Pick)
    ensures { disks.new ≡ map (settled pick) disks.old }
{
    for i in 0..disks.len() {
        let disk = &mut disks[i];
        disk.settle(pick);
    }
}
