//! The seven checks in their order, and what the devices hold.

ghost use Rattle.std.specs.Prelude.{◌≡◌, ◌⊎◌, ℕ, ◌∷◌, All, ◌<◌, Err, IfErr, IfOk, List, OnOk, Some, length, map, slice_get};
ghost use Rattle.sd_base.specs.declared.refusal.Refusal.TheVariants as R;
ghost use Rattle.sd_log.specs.Logs.{AreSpelled, scanned};
ghost use Rattle.sd_chain.specs.Bytes.{disk_page};
ghost use Rattle.sd_recovered.specs.Masters.{said};
ghost use Rattle.sd_chain.specs.Checks.{DevicesAreSound};
ghost use Rattle.sd_chain.specs.Faults.{FailsFirstAt};
ghost use Rattle.sd_recovered.specs.UndoPass.{AreLosersOf};
ghost use Rattle.sd_recovered.specs.Devices.{AreDevices, HasRecLsn, IsRecovered, devices_of, log_devices};
ghost use Rattle.sd_recovered.specs.Reading.{AreRead, HasRead, counting};

use crate::ends::{are_low, check_ends, owed_by};
use crate::logs::{ReadLogs, read_logs};
use crate::table::take_back;
use crate::{Losers, MasterRecord, newest_pages};
use sd_base::{Bytes, Lsn, Refusal};
use sd_chain::laws;
use sd_log::ReadLog;
use sd_model::Table;
use sd_rig::DATA_LEN;
use std::alloc::Global;

/// What nine device images hold, from which a complex is opened: the logs of the instances 1 to 8, what each leaves
/// unfinished, and its master, where one counts; by page the LSN of its disk image and its RecLSN, the LSN of the first
/// record above that image (ARIES, section 3), `None` where there is none; and the table that they stand for.
#[derive(Drop)]
pub struct ReadDevices {
    pub logs: Vec<ReadLog>,
    pub losers: Vec<Losers>,
    pub masters: Vec<Option<MasterRecord>>,
    pub disk_lsns: Vec<Lsn>,
    pub rec_lsns: Vec<Option<Lsn>>,
    pub table: Table,
}

/// The table that nine device images stand for, device 0 first: each record as the committed transactions left it, with
/// what unfinished ones changed taken back. `Damaged` comes where `open` answers it.
pub fn recovered(alloc: Global, images: &[Bytes]) -> Result<Table, Refusal>
    requires devices { AreDevices images.now }
    ensures sound { OnOk result (DevicesAreSound (devices_of images.now)) }
    ensures recovered { IfOk result (IsRecovered (devices_of images.now)) }

    ensures unsound { (dev at : ℕ) → result ≡ Err (R.Damaged dev at) → DevicesAreSound (devices_of images.now) → ⊥ }
    ensures place { (dev at : ℕ) → result ≡ Err (R.Damaged dev at) → FailsFirstAt (devices_of images.now) dev at }
    ensures refusals { IfErr result (λ e. (e ≡ R.Memory) ⊎ ((dev : ℕ) × (at : ℕ) × (e ≡ R.Damaged dev at))) }
{
    let opened = open(alloc, images)?;
    Ok(opened.table)
}

/// What nine device images hold, device 0 first, each read once.
///
/// `Damaged` comes exactly where the images aren't sound. It names the device, and the place in bytes from the device's
/// start, of the first of the seven checks that fails, at its least place:
/// - 1 to 3, log by log: the master at place 0; the first record that may not follow those before it, or, where all in front
///   of it do, the gate or the record that breaks the format; the first record that isn't in its transaction's order.
/// - 4: of the first page whose twin isn't sound the least slot that fails, which is the first where both have one LSN.
/// - 5: of the first page with a record that doesn't fit the first such record, by LSN and then by device.
/// - 6: of the first open transaction, by instance, epoch and number, whose stack isn't as it was left the lowest record
///   of its stack.
/// - 7: the next gate of log 1 where LSNs lack, else that of the first log without room for what ends its transactions.
pub fn open(alloc: Global, images: &[Bytes]) -> Result<ReadDevices, Refusal>
    requires devices { AreDevices images.now }
    ensures sound { OnOk result (DevicesAreSound (devices_of images.now)) }
    ensures read { IfOk result (λ o. AreRead 1 (log_devices images.now) o.logs.items o.losers.items) }
    ensures masters { IfOk result (λ o. map said o.masters.items ≡ map counting (log_devices images.now)) }
    ensures counts { IfOk result (λ o. (length o.disk_lsns.items ≡ 1024) × (length o.rec_lsns.items ≡ 1024)) }
    ensures disk { IfOk result (λ o. (p : ℕ) → p < 1024 → slice_get o.disk_lsns.items p ≡ Some (disk_page (devices_of images.now 0) p).lsn) }
    ensures first { IfOk result (λ o. (p : ℕ) → p < 1024 → HasRecLsn (devices_of images.now) o.rec_lsns.items p) }
    ensures recovered { IfOk result (λ o. IsRecovered (devices_of images.now) o.table) }

    ensures unsound { (dev at : ℕ) → result ≡ Err (R.Damaged dev at) → DevicesAreSound (devices_of images.now) → ⊥ }
    ensures place { (dev at : ℕ) → result ≡ Err (R.Damaged dev at) → FailsFirstAt (devices_of images.now) dev at }
    ensures refusals { IfErr result (λ e. (e ≡ R.Memory) ⊎ ((dev : ℕ) × (at : ℕ) × (e ≡ R.Damaged dev at))) }
{
    let read = read_logs(alloc, &images[1..])?;
    read.finish(alloc, images[0].items())
}

impl ReadLogs {
    /// The end of a reading: of the bytes of the data device, behind all eight logs. What it answers is what `open` answers of
    /// these nine devices.
    pub fn finish(self, alloc: Global, bytes: &[u8]) -> Result<ReadDevices, Refusal>
        requires size { length bytes.now ≡ DATA_LEN }
        requires all { (devices : List (List ℕ)) × (length devices ≡ 8) × HasRead devices self }
        ensures sound { OnOk result ((devices : List (List ℕ)) → HasRead devices self → DevicesAreSound (devices_of (bytes.now ∷ devices))) }
        ensures read { IfOk result (λ o. (devices : List (List ℕ)) → HasRead devices self → AreRead 1 devices o.logs.items o.losers.items) }
        ensures masters { IfOk result (λ o. (devices : List (List ℕ)) → HasRead devices self → map said o.masters.items ≡ map counting devices) }
        ensures counts { IfOk result (λ o. (length o.disk_lsns.items ≡ 1024) × (length o.rec_lsns.items ≡ 1024)) }
        ensures disk { IfOk result (λ o. (p : ℕ) → p < 1024 → slice_get o.disk_lsns.items p ≡ Some (disk_page bytes.now p).lsn) }
        ensures first { IfOk result (λ o. (devices : List (List ℕ)) → HasRead devices self
            → (p : ℕ) → p < 1024 → HasRecLsn (devices_of (bytes.now ∷ devices)) o.rec_lsns.items p) }
        ensures recovered { IfOk result (λ o. (devices : List (List ℕ)) → HasRead devices self
            → IsRecovered (devices_of (bytes.now ∷ devices)) o.table) }

        ensures unsound { (dev at : ℕ) → result ≡ Err (R.Damaged dev at) → (devices : List (List ℕ)) → HasRead devices self
            → DevicesAreSound (devices_of (bytes.now ∷ devices)) → ⊥ }
        ensures place { (dev at : ℕ) → result ≡ Err (R.Damaged dev at) → (devices : List (List ℕ)) → HasRead devices self
            → FailsFirstAt (devices_of (bytes.now ∷ devices)) dev at }
        ensures refusals { IfErr result (λ e. (e ≡ R.Memory) ⊎ ((dev : ℕ) × (at : ℕ) × (e ≡ R.Damaged dev at))) }
    {
        let told = read_pages(alloc, bytes, &self.logs, &self.losers)?;
        Ok(ReadDevices {
            logs: self.logs,
            losers: self.losers,
            masters: self.masters,
            disk_lsns: told.disk_lsns,
            rec_lsns: told.rec_lsns,
            table: told.table,
        })
    }
}

// What the data device tells with the logs.
#[derive(Drop)]
struct ReadPages {
    disk_lsns: Vec<Lsn>,
    rec_lsns: Vec<Option<Lsn>>,
    table: Table,
}

// The pages' LSNs and the table, of the data device's bytes and the logs, which were read from these devices.
fn read_pages(
    alloc: Global,
    bytes: &[u8],
    logs: &[ReadLog],
    losers: &[Losers],
) -> Result<ReadPages, Refusal>
    requires size { length bytes.now ≡ DATA_LEN }
    requires eight { length logs.now ≡ 8 }
    requires spelled { All (λ log. AreSpelled (scanned log)) logs.now }
    requires losers { AreLosersOf logs.now losers.now }
    ensures sound { OnOk result ((devices : List (List ℕ)) → AreRead 1 devices logs.now losers.now → DevicesAreSound (devices_of (bytes.now ∷ devices))) }
    ensures counts { IfOk result (λ t. (length t.disk_lsns.items ≡ 1024) × (length t.rec_lsns.items ≡ 1024)) }
    ensures disk { IfOk result (λ t. (p : ℕ) → p < 1024 → slice_get t.disk_lsns.items p ≡ Some (disk_page bytes.now p).lsn) }
    ensures first { IfOk result (λ t. (devices : List (List ℕ)) → AreRead 1 devices logs.now losers.now
        → (p : ℕ) → p < 1024 → HasRecLsn (devices_of (bytes.now ∷ devices)) t.rec_lsns.items p) }
    ensures recovered { IfOk result (λ t. (devices : List (List ℕ)) → AreRead 1 devices logs.now losers.now → IsRecovered (devices_of (bytes.now ∷ devices)) t.table) }

    ensures unsound { IfErr result (λ e. (e ≡ R.Memory) ⊎ ((dev : ℕ) × (at : ℕ) × (e ≡ R.Damaged dev at)
        × ((devices : List (List ℕ)) → AreRead 1 devices logs.now losers.now → DevicesAreSound (devices_of (bytes.now ∷ devices)) → ⊥))) }
    ensures place { (dev at : ℕ) → result ≡ Err (R.Damaged dev at) → (devices : List (List ℕ)) → AreRead 1 devices logs.now losers.now
        → FailsFirstAt (devices_of (bytes.now ∷ devices)) dev at }
{
    let pages = newest_pages(alloc, bytes, logs)?;
    // Check 7 looks at the pages' LSNs here, since check 6 takes the pages; it is told behind that one, in its turn.
    let low = are_low(&pages.images, owed_by(losers));
    let table = take_back(alloc, pages.images, logs, losers)?;
    check_ends(logs, losers, low)?;
    laws::recovery();
    Ok(ReadPages {
        disk_lsns: pages.disk_lsns,
        rec_lsns: pages.rec_lsns,
        table,
    })
}
