//! Nine devices, as the layers above see them.

ghost use Rattle.std.specs.Prelude.{◌≡◌, ◌≢◌, ◌⊎◌, ℕ, ◌+◌, ◌≤◌, List, length, slice_range, OnOk, OnErr};
ghost use Rattle.sd_base.specs.Streams.{Rises};
ghost use Rattle.sd_rig.specs.Devices.{AgreesOutside, AreBytes, DeviceImages, Elapses, IsOneStep, IsUnchanged, Leaves, LeavesOnly, LeavesSame, LeavesTorn, MayTear, device_len, overwritten};

use sd_base::{Failed, Pick, Trouble};

/// The length of the data device in bytes.
pub const DATA_LEN: u32 = 2_099_200;

/// The length of a log device in bytes.
pub const LOG_LEN: u32 = 2_097_282;

/// The length of a device in bytes: 0 is the data device, and the others are logs.
pub fn device_len(dev: u8) -> u32
    ensures { result ≡ device_len dev }
{
    if dev == 0 { DATA_LEN } else { LOG_LEN }
}

/// The data device, number 0, and the logs of instances 1 to 8. Between two syncs a crash may leave any bytes in each
/// range that was written, and outside what was there; after a sync that succeeds it leaves what a read gives.
/// `Failed` comes only where the count of faults rose in that call.
pub trait Rig {
    /// What a read of each device gives.
    ghost seen: { Self → ℕ → List ℕ };

    /// What a crash at this moment may leave of each device.
    ghost leaves: { Self → ℕ → List ℕ → Type 0 };

    /// A clock that doesn't fall.
    ghost moment: { Self → ℕ };

    /// What a crash at some moment since that one may have left, within a call or between two.
    ghost since: { Self → ℕ → DeviceImages → Type 0 };

    /// How many calls failed. It never falls, and stays at the greatest u64.
    ghost faults: { Self → ℕ };

    /// Fills `out` with the bytes at `at`, a place in bytes. It changes nothing.
    fn read(&mut self, dev: u8, at: u32, out: &mut [u8]) -> Result<(), Failed>
        requires device { dev ≤ 8 }
        requires range { at + length out.old ≤ device_len dev }
        ensures bytes { OnOk result (out.new ≡ slice_range (seen self.old dev) at (at + length out.old)) }
        ensures stays { IsUnchanged (seen self.old) (seen self.new) (leaves self.old) (leaves self.new)
            (moment self.old) (moment self.new) (since self.old) (since self.new) }
        ensures cause { OnErr result (Rises (faults self.old) (faults self.new)) }
        ensures quiet { OnOk result (faults self.new ≡ faults self.old) }
        ensures count { faults self.old ≤ faults self.new };

    /// Writes the bytes at `at`, a place in bytes. Until a sync of the device succeeds, a crash may leave any bytes in
    /// the range. After `Failed` the range may read as any bytes.
    fn write(&mut self, dev: u8, at: u32, bytes: &[u8]) -> Result<(), Failed>
        requires device { dev ≤ 8 }
        requires range { at + length bytes.now ≤ device_len dev }
        ensures written { OnOk result (seen self.new dev ≡ overwritten at bytes.now (seen self.old dev)) }
        ensures outside { AgreesOutside at (length bytes.now) (seen self.old dev) (seen self.new dev) }
        ensures torn { OnOk result (LeavesTorn at (length bytes.now) (leaves self.old dev) (leaves self.new dev)) }
        ensures torn_err { OnErr result (MayTear at (length bytes.now) (leaves self.old dev) (leaves self.new dev)) }
        ensures others { (d : ℕ) → d ≢ dev → seen self.new d ≡ seen self.old d }
        ensures others_leave { (d : ℕ) → d ≢ dev → LeavesSame (leaves self.old d) (leaves self.new d) }
        ensures time { Elapses (moment self.old) (moment self.new) (since self.old) (since self.new) }
        ensures step { IsOneStep (moment self.old) (since self.new) (leaves self.old) (leaves self.new) }
        ensures tick { OnOk result (moment self.new ≡ moment self.old + 1) }
        ensures most { moment self.new ≤ moment self.old + 1 }
        ensures cause { OnErr result (Rises (faults self.old) (faults self.new)) }
        ensures quiet { OnOk result (faults self.new ≡ faults self.old) }
        ensures count { faults self.old ≤ faults self.new };

    /// Makes the device stable: a crash leaves what it reads. After `Failed` a crash may leave the same as before.
    fn sync(&mut self, dev: u8) -> Result<(), Failed>
        requires device { dev ≤ 8 }
        ensures durable { OnOk result (LeavesOnly (seen self.old dev) (leaves self.new dev)) }
        ensures stays { OnErr result (LeavesSame (leaves self.old dev) (leaves self.new dev)) }
        ensures seen { (d : ℕ) → seen self.new d ≡ seen self.old d }
        ensures others_leave { (d : ℕ) → d ≢ dev → LeavesSame (leaves self.old d) (leaves self.new d) }
        ensures time { Elapses (moment self.old) (moment self.new) (since self.old) (since self.new) }
        ensures step { IsOneStep (moment self.old) (since self.new) (leaves self.old) (leaves self.new) }
        ensures tick { OnOk result (moment self.new ≡ moment self.old + 1) }
        ensures most { moment self.new ≤ moment self.old + 1 }
        ensures cause { OnErr result (Rises (faults self.old) (faults self.new)) }
        ensures quiet { OnOk result (faults self.new ≡ faults self.old) }
        ensures count { faults self.old ≤ faults self.new };

    /// The devices become one of the images that a crash now may leave, and stable where the count of faults doesn't rise; else a
    /// crash leaves nothing that it might not leave before. No trouble is armed any more.
    fn crash(&mut self, pick: Pick)
        ensures left { Leaves (leaves self.old) (seen self.new) }
        ensures none_more { (d : ℕ) → d ≤ 8 → (bytes : List ℕ) → leaves self.new d bytes → leaves self.old d bytes }
        ensures durable { Rises (faults self.old) (faults self.new) ⊎ ((d : ℕ) → d ≤ 8 → LeavesOnly (seen self.new d) (leaves self.new d)) }
        ensures time { Elapses (moment self.old) (moment self.new) (since self.old) (since self.new) }
        ensures step { IsOneStep (moment self.old) (since self.new) (leaves self.old) (leaves self.new) }
        ensures count { faults self.old ≤ faults self.new };

    /// Sets which of the coming reads, writes and syncs fail. Contents and the count of faults stay.
    fn arm(&mut self, trouble: Trouble)
        ensures stays { IsUnchanged (seen self.old) (seen self.new) (leaves self.old) (leaves self.new)
            (moment self.old) (moment self.new) (since self.old) (since self.new) }
        ensures quiet { faults self.new ≡ faults self.old };

    /// What may be left now is among what may have been left since each moment so far.
    ghost counts_now: { (rig : Self) (t : ℕ) (img : DeviceImages) → t ≤ moment rig → Leaves (leaves rig) img → since rig t img };

    /// Since this moment there is nothing else.
    ghost only_now: { (rig : Self) (img : DeviceImages) → since rig (moment rig) img → Leaves (leaves rig) img };

    /// What may have been left since a later moment may have been left since an earlier one.
    ghost earlier: { (rig : Self) (t u : ℕ) (img : DeviceImages) → t ≤ u → since rig u img → since rig t img };

    /// What a read gives may be left.
    ghost leaves_seen: { (rig : Self) (dev : ℕ) → dev ≤ 8 → leaves rig dev (seen rig dev) };

    /// A device has its length, as read and as left.
    ghost whole: { (rig : Self) (dev : ℕ) (bytes : List ℕ) → dev ≤ 8 → leaves rig dev bytes → length bytes ≡ device_len dev };

    /// A device's bytes are below 256, as left and so, by `leaves_seen`, as read.
    ghost bytes: { (rig : Self) (dev : ℕ) (c : List ℕ) → dev ≤ 8 → leaves rig dev c → AreBytes c };
}
