//! Devices in memory, whose calls fail where a test arms trouble, and whose crashes a test picks.

ghost use Rattle.std.specs.Prelude.{◌≡◌, ◌≢◌, ◌+◌, ◌<◌, ◌≤◌, ◌⊎◌, ◌↔◌, [], ℕ, true, false, List, length, map, is_ok, slice_range, IfOk, IsErr, IsTrue, OnErr, OnOk, if◌then◌else◌};
ghost use Rattle.sd_base.specs.Streams.{Rises};
ghost use Rattle.sd_base.specs.declared.trouble.Trouble.TheVariants.{Clear};
ghost use Rattle.sd_rig.specs.Devices.{device_len};
ghost use Rattle.sd_rig.specs.History.{Crashed, Poked, Synced, Wrote};
ghost use Rattle.sd_rig.specs.Replay.{Notes, NotesNothing};
ghost use Rattle.sd_rig.specs.Troubles.{after_call, meets, raised};

use crate::drives::Drives;
use crate::rig::Rig;
use crate::troubles::{answer, next_call, raise};
use sd_base::{Failed, Memory, Pick, Trouble};
use std::alloc::Global;

/// Nine devices in memory. Clauses alone read their record, so it takes no memory, and no call fails for want of any.
#[derive(Drop)]
pub struct MemRig {
    drives: Drives,
    trouble: Trouble,
    faults: u64,
}

impl MemRig {
    ghost use Rattle.std.specs.Prelude.{All};
    ghost use Rattle.sd_rig.specs.Devices.{LeavesOnly};
    ghost use Rattle.sd_rig.specs.Disk.{blank};
    ghost use Rattle.sd_rig.specs.Replay.{left_of};
    ghost use Rattle.sd_rig.specs.Rigs.{armed, device, devices, done, fault_count, short_count, spare};

    /// Nine devices of zeros, on which nothing was done and no trouble is armed.
    pub fn blank(alloc: Global) -> Result<MemRig, Memory>
        ensures devices { IfOk result (λ rig. (d : ℕ) → d ≤ 8 → device rig d ≡ blank (device_len d)) }
        ensures zeros { IfOk result (λ rig. (d : ℕ) → d ≤ 8 → All (λ byte. byte ≡ 0) (device rig d).seen) }
        ensures durable { IfOk result (λ rig. (d : ℕ) → d ≤ 8 → LeavesOnly (device rig d).seen (left_of (devices rig) d)) }
        ensures done { IfOk result (λ rig. done rig ≡ []) }
        ensures armed { IfOk result (λ rig. armed rig ≡ Clear) }
        ensures faults { IfOk result (λ rig. fault_count rig ≡ 0) }
        ensures short { IfOk result (λ rig. short_count rig ≡ 0) }
    {
        Ok(MemRig {
            drives: Drives::blank(alloc)?,
            trouble: Trouble::Clear,
            faults: 0,
        })
    }

    /// What the device reads, copied.
    pub fn image(&self, alloc: Global, dev: u8) -> Result<Vec<u8>, Memory>
        requires { dev ≤ 8 }
        ensures bytes { IfOk result (λ image. image.items ≡ (device self.now dev).seen) }
        ensures len { IfOk result (λ image. length image.items ≡ device_len dev) }
    {
        self.drives.image(alloc, dev)
    }

    /// How many writes and syncs failed since there was no memory for the record: none, since it takes none.
    pub fn short(&self) -> u64
        ensures { result ≡ short_count self.now }
    {
        0
    }
}

impl MemRig {
    ghost use Rattle.sd_rig.specs.Devices.{LeavesOnly};
    ghost use Rattle.sd_rig.specs.Replay.{left_of};
    ghost use Rattle.sd_rig.specs.Rigs.{KeepsAll, armed, device, devices, done, fault_count, short_count, spare};

    /// Sets a byte of a device, stable. It is no call that trouble meets.
    pub fn poke(&mut self, dev: u8, at: u32, byte: u8) -> Result<(), Memory>
        requires device { dev ≤ 8 }
        requires range { at < device_len dev }
        ensures done { OnOk result (Notes (Poked dev at byte) (done self.old) (done self.new) (devices self.old) (devices self.new)) }
        ensures stays { OnErr result (NotesNothing (done self.old) (done self.new) (devices self.old) (devices self.new)) }
        ensures armed { armed self.new ≡ armed self.old }
        ensures faults { fault_count self.new ≡ fault_count self.old }
        ensures short { short_count self.new ≡ short_count self.old }
    {
        self.drives.poke(dev, at, byte);
        Ok(())
    }

    /// Makes these the bytes of a device, stable; they are noted as a write and a sync of it. It is no call that trouble
    /// meets.
    pub fn load(&mut self, dev: u8, image: &[u8]) -> Result<(), Memory>
        requires device { dev ≤ 8 }
        requires whole { length image.now ≡ device_len dev }
        ensures bytes { OnOk result ((device self.new dev).seen ≡ image.now) }
        ensures durable { OnOk result (LeavesOnly image.now (left_of (devices self.new) dev)) }
        ensures others { OnOk result ((d : ℕ) → d ≢ dev → device self.new d ≡ device self.old d) }
        ensures armed { armed self.new ≡ armed self.old }
        ensures faults { fault_count self.new ≡ fault_count self.old }
        ensures short { short_count self.new ≡ short_count self.old }
    {
        self.drives.write(dev, 0, image, true);
        self.drives.sync(dev, true);
        Ok(())
    }

    /// A call that fails outside the devices in memory: it is counted, and nothing else changes.
    pub fn fail(&mut self) -> Failed
        ensures faults { fault_count self.new ≡ raised (fault_count self.old) }
        ensures cause { Rises (fault_count self.old) (fault_count self.new) }
        ensures count { fault_count self.old ≤ fault_count self.new }
        ensures armed { armed self.new ≡ armed self.old }
        ensures keeps { KeepsAll self.old self.new }
    {
        raise(&mut self.faults);
        Failed
    }

    /// Makes room in the record for so many bytes: there is always room, so nothing changes.
    pub fn reserve(&mut self, _room: u64) -> Result<(), Memory>
        ensures room { OnOk result (_room ≤ spare self.new) }
        ensures spare { spare self.old ≤ spare self.new }
        ensures stays { NotesNothing (done self.old) (done self.new) (devices self.old) (devices self.new) }
        ensures armed { armed self.new ≡ armed self.old }
        ensures faults { fault_count self.new ≡ fault_count self.old }
        ensures short { short_count self.new ≡ short_count self.old }
    {
        Ok(())
    }
}

impl Rig for MemRig {
    ghost use Rattle.sd_rig.specs.Replay.{AreSettled, LeftSince, left_of};
    ghost use Rattle.sd_rig.specs.Disk.{settled};
    ghost use Rattle.sd_rig.specs.Devices.{AgreesOutside, Elapses, IsOneStep, Leaves, LeavesOnly, LeavesTorn, MayTear};
    ghost use Rattle.sd_rig.specs.Laws.{leaves_bytes, leaves_what_is_seen, leaves_whole, left_earlier, left_now, left_only_now};
    ghost use Rattle.sd_rig.specs.Rigs.{Does, KeepsAll, Lacks, armed, device, devices, done, fault_count, short_count, spare};

    ghost seen = { λ rig dev. (device rig dev).seen };

    ghost leaves = { λ rig. left_of (devices rig) };

    ghost moment = { λ rig. length (done rig) };

    ghost since = { λ rig. LeftSince (done rig) };

    ghost faults = { λ rig. fault_count rig };

    ghost counts_now = { λ rig t img le left. left_now (done rig) (devices rig) rig.drives.told t img le left };

    ghost only_now = { λ rig img since. left_only_now (done rig) (devices rig) rig.drives.told img since };

    ghost earlier = { λ rig t u img le since. left_earlier (done rig) t u img le since };

    ghost leaves_seen = { λ rig dev le. leaves_what_is_seen (devices rig) rig.drives.devices dev le };

    ghost whole = { λ rig dev bytes le left. leaves_whole (devices rig) rig.drives.devices dev bytes le left };

    ghost bytes = { λ rig dev c le left. leaves_bytes (devices rig) dev c left };

    /// Fails exactly where the armed trouble meets it.
    fn read(&mut self, dev: u8, at: u32, out: &mut [u8]) -> Result<(), Failed>
        requires device { dev ≤ 8 }
        requires range { at + length out.old ≤ device_len dev }
        ensures fails { IsErr result ↔ IsTrue (meets (armed self.old)) }
        ensures bytes { OnOk result (out.new ≡ slice_range (device self.old dev).seen at (at + length out.old)) }
        ensures armed { armed self.new ≡ after_call (armed self.old) }
        ensures faults { fault_count self.new ≡ (if is_ok result then fault_count self.old else raised (fault_count self.old)) }
        ensures cause { OnErr result (Rises (fault_count self.old) (fault_count self.new)) }
        ensures quiet { OnOk result (fault_count self.new ≡ fault_count self.old) }
        ensures count { fault_count self.old ≤ fault_count self.new }
        ensures keeps { KeepsAll self.old self.new }
    {
        if next_call(&mut self.trouble) {
            raise(&mut self.faults);
            return Err(Failed);
        }
        self.drives.read(dev, at, out);
        Ok(())
    }

    /// Fails exactly where the armed trouble meets it, and then leaves the new bytes, pending.
    fn write(&mut self, dev: u8, at: u32, bytes: &[u8]) -> Result<(), Failed>
        requires device { dev ≤ 8 }
        requires range { at + length bytes.now ≤ device_len dev }

        ensures met { IsTrue (meets (armed self.old)) → IsErr result }
        ensures short { short_count self.old < short_count self.new → IsErr result }
        ensures done { OnOk result (Does (Wrote dev at bytes.now true) self.old self.new) }
        ensures fails { OnErr result ((IsTrue (meets (armed self.old)) × Does (Wrote dev at bytes.now false) self.old self.new) ⊎ Lacks self.old self.new) }
        // The record of a call counts as its bytes and 32 beside them; it takes no memory, so there is always room for it.
        ensures found { length bytes.now + 32 ≤ spare self.old → Does (Wrote dev at bytes.now (is_ok result)) self.old self.new }
        ensures not_short { length bytes.now + 32 ≤ spare self.old → short_count self.new ≡ short_count self.old }
        ensures spare { spare self.old ≤ spare self.new + (length bytes.now + 32) }
        ensures short_count { short_count self.old ≤ short_count self.new }
        ensures armed { armed self.new ≡ after_call (armed self.old) }
        ensures faults { fault_count self.new ≡ (if is_ok result then fault_count self.old else raised (fault_count self.old)) }
        ensures tick { OnOk result (length (done self.new) ≡ length (done self.old) + 1) }
        ensures most { length (done self.new) ≤ length (done self.old) + 1 }
        ensures cause { OnErr result (Rises (fault_count self.old) (fault_count self.new)) }
        ensures quiet { OnOk result (fault_count self.new ≡ fault_count self.old) }
        ensures count { fault_count self.old ≤ fault_count self.new }

        ensures torn { OnOk result (LeavesTorn at (length bytes.now) (left_of (devices self.old) dev) (left_of (devices self.new) dev)) }
        ensures torn_err { OnErr result (MayTear at (length bytes.now) (left_of (devices self.old) dev) (left_of (devices self.new) dev)) }
        ensures outside { AgreesOutside at (length bytes.now) (device self.old dev).seen (device self.new dev).seen }
        ensures others { (d : ℕ) → d ≢ dev → device self.new d ≡ device self.old d }
        ensures time { Elapses (length (done self.old)) (length (done self.new)) (LeftSince (done self.old)) (LeftSince (done self.new)) }
        ensures step { IsOneStep (length (done self.old)) (LeftSince (done self.new)) (left_of (devices self.old)) (left_of (devices self.new)) }
    {
        let met = next_call(&mut self.trouble);
        self.drives.write(dev, at, bytes, !met);
        answer(&mut self.faults, met)
    }

    /// Fails exactly where the armed trouble meets it.
    fn sync(&mut self, dev: u8) -> Result<(), Failed>
        requires device { dev ≤ 8 }

        ensures met { IsTrue (meets (armed self.old)) → IsErr result }
        ensures short { short_count self.old < short_count self.new → IsErr result }
        ensures done { OnOk result (Does (Synced dev true) self.old self.new) }
        ensures fails { OnErr result ((IsTrue (meets (armed self.old)) × Does (Synced dev false) self.old self.new) ⊎ Lacks self.old self.new) }
        ensures found { 32 ≤ spare self.old → Does (Synced dev (is_ok result)) self.old self.new }
        ensures not_short { 32 ≤ spare self.old → short_count self.new ≡ short_count self.old }
        ensures spare { spare self.old ≤ spare self.new + 32 }
        ensures short_count { short_count self.old ≤ short_count self.new }
        ensures armed { armed self.new ≡ after_call (armed self.old) }
        ensures faults { fault_count self.new ≡ (if is_ok result then fault_count self.old else raised (fault_count self.old)) }
        ensures tick { OnOk result (length (done self.new) ≡ length (done self.old) + 1) }
        ensures most { length (done self.new) ≤ length (done self.old) + 1 }
        ensures cause { OnErr result (Rises (fault_count self.old) (fault_count self.new)) }
        ensures quiet { OnOk result (fault_count self.new ≡ fault_count self.old) }
        ensures count { fault_count self.old ≤ fault_count self.new }

        ensures durable { OnOk result (LeavesOnly (device self.old dev).seen (left_of (devices self.new) dev)) }
        ensures stays { OnErr result (devices self.new ≡ devices self.old) }
        ensures seen { (d : ℕ) → (device self.new d).seen ≡ (device self.old d).seen }
        ensures others { (d : ℕ) → d ≢ dev → device self.new d ≡ device self.old d }
        ensures time { Elapses (length (done self.old)) (length (done self.new)) (LeftSince (done self.old)) (LeftSince (done self.new)) }
        ensures step { IsOneStep (length (done self.old)) (LeftSince (done self.new)) (left_of (devices self.old)) (left_of (devices self.new)) }
    {
        let met = next_call(&mut self.trouble);
        self.drives.sync(dev, !met);
        answer(&mut self.faults, met)
    }

    /// Each device becomes what the pick makes of it. It takes no memory, and isn't noted where no byte is pending.
    fn crash(&mut self, pick: Pick)
        ensures made { devices self.new ≡ map (settled pick) (devices self.old) }
        ensures done { AreSettled (devices self.old) → done self.new ≡ done self.old }
        ensures settles { AreSettled (devices self.new) }
        ensures armed { armed self.new ≡ Clear }
        ensures spare { spare self.old ≤ spare self.new }
        ensures faults { fault_count self.new ≡ fault_count self.old }
        ensures short { short_count self.new ≡ short_count self.old }

        ensures left { Leaves (left_of (devices self.old)) (λ d. (device self.new d).seen) }
        ensures none_more { (d : ℕ) → d ≤ 8 → (bytes : List ℕ) → left_of (devices self.new) d bytes → left_of (devices self.old) d bytes }
        ensures durable { (d : ℕ) → d ≤ 8 → LeavesOnly (device self.new d).seen (left_of (devices self.new) d) }
        ensures time { Elapses (length (done self.old)) (length (done self.new)) (LeftSince (done self.old)) (LeftSince (done self.new)) }
        ensures step { IsOneStep (length (done self.old)) (LeftSince (done self.new)) (left_of (devices self.old)) (left_of (devices self.new)) }
    {
        self.drives.crash(pick);
        self.trouble = Trouble::Clear;
    }

    fn arm(&mut self, trouble: Trouble)
        ensures armed { armed self.new ≡ trouble }
        ensures faults { fault_count self.new ≡ fault_count self.old }
        ensures keeps { KeepsAll self.old self.new }
    {
        self.trouble = trouble;
    }
}
