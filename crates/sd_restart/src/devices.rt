//! The nine devices: each settled, and read whole, one at a time.

ghost use Rattle.std.specs.Prelude.{◌≡◌, ◌≢◌, ◌⊎◌, ℕ, ◌+◌, ◌≤◌, List, [], ◌∷◌, ◌++◌, Err, IfErr, IfOk, OnErr, OnOk, length};
ghost use Rattle.sd_base.specs.Streams.{Rises};
ghost use Rattle.sd_base.specs.declared.refusal.Refusal.TheVariants as R;
ghost use Rattle.sd_chain.specs.Checks.{DevicesAreSound};
ghost use Rattle.sd_chain.specs.Faults.{FailsFirstAt, LogFailsAt};
ghost use Rattle.sd_recovered.specs.Devices.{IsRecovered, devices_of, log_devices};
ghost use Rattle.sd_recovered.specs.Reading.{FailsAmong, HasRead, IsUnread, SomeUnread};
ghost use Rattle.sd_rig.specs.Devices.{IsUnchanged, LeavesOnly, device_len};
ghost use Rattle.sd_restart.specs.Devices.{Calms, images_of};
ghost use Rattle.sd_restart.specs.Reading.{IsReading};

use sd_base::{Failed, Memory, Refusal};
use sd_recovered::{ReadDevices, ReadLogs};
use sd_rig::{DATA_LEN, LOG_LEN, Rig, device_len};
use std::alloc::Global;

/// Syncs the nine devices in the order of their numbers, each once: a crash leaves what they read then. After `Failed` the first
/// of them are settled, and a crash leaves of the others what it might leave before.
pub fn settle_devices<G: Rig>(rig: &mut G) -> Result<(), Failed>
    ensures calms { Calms (G.seen rig.old) (G.seen rig.new) (G.leaves rig.old) (G.leaves rig.new)
        (G.moment rig.old) (G.moment rig.new) (G.since rig.old) (G.since rig.new) }
    ensures settled { OnOk result ((d : ℕ) → d ≤ 8 → LeavesOnly (G.seen rig.old d) (G.leaves rig.new d)) }
    ensures tick { OnOk result (G.moment rig.new ≡ G.moment rig.old + 9) }
    ensures cause { OnErr result (Rises (G.faults rig.old) (G.faults rig.new)) }
    ensures quiet { OnOk result (G.faults rig.new ≡ G.faults rig.old) }
    ensures count { G.faults rig.old ≤ G.faults rig.new }
{
    for dev in 0..9 {
        settle(rig, dev)?;
    }
    Ok(())
}

// Syncs a device. A goal of its own.
fn settle<G: Rig>(rig: &mut G, dev: u8) -> Result<(), Failed>
    requires { dev ≤ 8 }
    ensures calms { Calms (G.seen rig.old) (G.seen rig.new) (G.leaves rig.old) (G.leaves rig.new)
        (G.moment rig.old) (G.moment rig.new) (G.since rig.old) (G.since rig.new) }
    ensures settled { OnOk result (LeavesOnly (G.seen rig.old dev) (G.leaves rig.new dev)) }
    ensures tick { OnOk result (G.moment rig.new ≡ G.moment rig.old + 1) }
    ensures cause { OnErr result (Rises (G.faults rig.old) (G.faults rig.new)) }
    ensures quiet { OnOk result (G.faults rig.new ≡ G.faults rig.old) }
    ensures count { G.faults rig.old ≤ G.faults rig.new }
{
    rig.sync(dev)
}

/// What the nine devices hold: the log devices are read one after another, then device 0, each whole by one call. One device is
/// held whole at a time; of a log device the bytes of its records stay. It changes nothing on them.
///
/// `Failed` comes where a read fails, `Damaged` exactly where the devices aren't sound, with the first place that fails, as `open`
/// of sd_recovered tells it, and `Memory` for want of memory.
pub fn read_devices<G: Rig>(alloc: Global, rig: &mut G) -> Result<ReadDevices, Refusal>
    ensures read { IfOk result (IsReading (images_of (G.seen rig.old))) }
    ensures recovered { IfOk result (λ o. IsRecovered (devices_of (images_of (G.seen rig.old))) o.table) }
    ensures stays { IsUnchanged (G.seen rig.old) (G.seen rig.new) (G.leaves rig.old) (G.leaves rig.new)
        (G.moment rig.old) (G.moment rig.new) (G.since rig.old) (G.since rig.new) }

    ensures unsound { (dev at : ℕ) → result ≡ Err (R.Damaged dev at) → DevicesAreSound (devices_of (images_of (G.seen rig.old))) → ⊥ }
    ensures place { (dev at : ℕ) → result ≡ Err (R.Damaged dev at) → FailsFirstAt (devices_of (images_of (G.seen rig.old))) dev at }
    ensures refusals { IfErr result (λ e. (e ≡ R.Failed) ⊎ (e ≡ R.Memory) ⊎ ((dev : ℕ) × (at : ℕ) × (e ≡ R.Damaged dev at))) }
    ensures cause { result ≡ Err R.Failed → Rises (G.faults rig.old) (G.faults rig.new) }
    ensures quiet { result ≢ Err R.Failed → G.faults rig.new ≡ G.faults rig.old }
{
    let mut bytes = bytes_of_device(alloc)?;
    read_into(alloc, rig, &mut bytes)
}

// As many bytes as the longest device has.
fn bytes_of_device(alloc: Global) -> Result<Vec<u8>, Memory>
    ensures { IfOk result (λ bytes. length bytes.items ≡ DATA_LEN) }
{
    Ok(Vec::from_elem(alloc, 0u8, device_len(0) as usize)?)
}

// The same, into the bytes of the longest device.
fn read_into<G: Rig>(alloc: Global, rig: &mut G, bytes: &mut [u8]) -> Result<ReadDevices, Refusal>
    requires { length bytes.old ≡ DATA_LEN }
    ensures read { IfOk result (IsReading (images_of (G.seen rig.old))) }
    ensures recovered { IfOk result (λ o. IsRecovered (devices_of (images_of (G.seen rig.old))) o.table) }
    ensures stays { IsUnchanged (G.seen rig.old) (G.seen rig.new) (G.leaves rig.old) (G.leaves rig.new)
        (G.moment rig.old) (G.moment rig.new) (G.since rig.old) (G.since rig.new) }

    ensures unsound { (dev at : ℕ) → result ≡ Err (R.Damaged dev at) → DevicesAreSound (devices_of (images_of (G.seen rig.old))) → ⊥ }
    ensures place { (dev at : ℕ) → result ≡ Err (R.Damaged dev at) → FailsFirstAt (devices_of (images_of (G.seen rig.old))) dev at }
    ensures refusals { IfErr result (λ e. (e ≡ R.Failed) ⊎ (e ≡ R.Memory) ⊎ ((dev : ℕ) × (at : ℕ) × (e ≡ R.Damaged dev at))) }
    ensures cause { result ≡ Err R.Failed → Rises (G.faults rig.old) (G.faults rig.new) }
    ensures quiet { result ≢ Err R.Failed → G.faults rig.new ≡ G.faults rig.old }
{
    let logs = read_logs(alloc, rig, &mut bytes[..LOG_LEN as usize])?;
    read_device(rig, 0, bytes)?;
    logs.finish(alloc, bytes)
}

// What the logs of the instances 1 to 8 hold, each device read into these bytes.
fn read_logs<G: Rig>(alloc: Global, rig: &mut G, bytes: &mut [u8]) -> Result<ReadLogs, Refusal>
    requires { length bytes.old ≡ LOG_LEN }
    ensures read { IfOk result (HasRead (log_devices (images_of (G.seen rig.old)))) }
    ensures stays { IsUnchanged (G.seen rig.old) (G.seen rig.new) (G.leaves rig.old) (G.leaves rig.new)
        (G.moment rig.old) (G.moment rig.new) (G.since rig.old) (G.since rig.new) }

    ensures unsound { IfErr result (λ e. (e ≡ R.Failed) ⊎ (e ≡ R.Memory) ⊎ ((dev : ℕ) × (at : ℕ) × (e ≡ R.Damaged dev at)
        × SomeUnread 1 (log_devices (images_of (G.seen rig.old))))) }
    ensures place { (dev at : ℕ) → result ≡ Err (R.Damaged dev at) → FailsAmong (log_devices (images_of (G.seen rig.old))) dev at }
    ensures cause { result ≡ Err R.Failed → Rises (G.faults rig.old) (G.faults rig.new) }
    ensures quiet { result ≢ Err R.Failed → G.faults rig.new ≡ G.faults rig.old }
{
    let mut logs = ReadLogs::new(alloc);
    for i in 0..8u8 {
        logs = read_next(alloc, rig, logs, i + 1, bytes)?;
    }
    Ok(logs)
}

// The log of this instance besides, its device read into these bytes.
fn read_next<G: Rig>(
    alloc: Global,
    rig: &mut G,
    logs: ReadLogs,
    inst: u8,
    bytes: &mut [u8],
) -> Result<ReadLogs, Refusal>
    requires next { inst ≡ 1 + length logs.logs.items }
    requires few { inst ≤ 8 }
    requires size { length bytes.old ≡ LOG_LEN }
    ensures read { IfOk result (λ r. (devices : List (List ℕ)) → HasRead devices logs → HasRead (devices ++ G.seen rig.old inst ∷ []) r) }
    ensures stays { IsUnchanged (G.seen rig.old) (G.seen rig.new) (G.leaves rig.old) (G.leaves rig.new)
        (G.moment rig.old) (G.moment rig.new) (G.since rig.old) (G.since rig.new) }

    ensures unsound { IfErr result (λ e. (e ≡ R.Failed) ⊎ (e ≡ R.Memory) ⊎ ((dev : ℕ) × (at : ℕ) × (e ≡ R.Damaged dev at)
        × IsUnread inst (G.seen rig.old inst))) }
    ensures place { (dev at : ℕ) → result ≡ Err (R.Damaged dev at) → (dev ≡ inst) × LogFailsAt dev (G.seen rig.old inst) at }
    ensures cause { result ≡ Err R.Failed → Rises (G.faults rig.old) (G.faults rig.new) }
    ensures quiet { result ≢ Err R.Failed → G.faults rig.new ≡ G.faults rig.old }
{
    read_device(rig, inst, bytes)?;
    logs.next(alloc, bytes)
}

// The bytes of a device. A goal of its own.
fn read_device<G: Rig>(rig: &mut G, dev: u8, bytes: &mut [u8]) -> Result<(), Failed>
    requires device { dev ≤ 8 }
    requires size { length bytes.old ≡ device_len dev }
    ensures bytes { OnOk result (bytes.new ≡ G.seen rig.old dev) }
    ensures stays { IsUnchanged (G.seen rig.old) (G.seen rig.new) (G.leaves rig.old) (G.leaves rig.new)
        (G.moment rig.old) (G.moment rig.new) (G.since rig.old) (G.since rig.new) }
    ensures cause { OnErr result (Rises (G.faults rig.old) (G.faults rig.new)) }
    ensures quiet { OnOk result (G.faults rig.new ≡ G.faults rig.old) }
{
    rig.read(dev, 0, bytes)
}
