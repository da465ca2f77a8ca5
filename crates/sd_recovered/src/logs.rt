//! The eight log devices, read one after another.

ghost use Rattle.std.specs.Prelude.{◌≡◌, ◌≢◌, ◌⊎◌, ℕ, ◌+◌, ◌<◌, List, [], ◌∷◌, ◌++◌, All, Err, IfErr, IfOk, OnOk, length};
ghost use Rattle.sd_base.specs.declared.refusal.Refusal.TheVariants as R;
ghost use Rattle.sd_log.specs.Logs.{AreSpelled, scanned};
ghost use Rattle.sd_recovered.specs.Masters.{said};
ghost use Rattle.sd_chain.specs.Faults.{LogFailsAt};
ghost use Rattle.sd_recovered.specs.Losers.{AreLosers, AreTidy};
ghost use Rattle.sd_recovered.specs.Reading.{counting, FailsAmong, HasRead, IsUnread, LogIsRead, Misplaced, SomeUnread};

use crate::{AnalysisError, Losers, MasterRecord, Scanned, analyse, scan};
use sd_base::{Bytes, InstNo, Refusal};
use sd_log::ReadLog;
use sd_redo::damaged_log;
use sd_rig::LOG_LEN;
use std::alloc::Global;

/// What was read of the first log devices, that of instance 1 first: of each its log, what it leaves unfinished, and its
/// master, where one counts.
#[derive(Drop)]
pub struct ReadLogs {
    pub logs: Vec<ReadLog>,
    pub losers: Vec<Losers>,
    pub masters: Vec<Option<MasterRecord>>,
}

impl ReadLogs {
    /// Before the first device.
    pub fn new(alloc: Global) -> ReadLogs
        ensures { HasRead [] result }
    {
        ReadLogs {
            logs: Vec::new(alloc),
            losers: Vec::new(alloc),
            masters: Vec::new(alloc),
        }
    }

    /// The next log device besides, of its bytes, of which those of its records are copied. `Damaged` comes exactly where that log isn't sound, with
    /// the least place of the first of its checks that fails.
    pub fn next(self, alloc: Global, device: &[u8]) -> Result<ReadLogs, Refusal>
        requires few { length self.logs.items < 8 }
        requires size { length device.now ≡ LOG_LEN }
        ensures read { IfOk result (λ r. (devices : List (List ℕ)) → HasRead devices self → HasRead (devices ++ device.now ∷ []) r) }
        ensures unsound { IfErr result (λ e. (e ≡ R.Memory) ⊎ ((dev : ℕ) × (at : ℕ) × (e ≡ R.Damaged dev at)
            × IsUnread (1 + length self.logs.items) device.now)) }
        ensures place { (dev at : ℕ) → result ≡ Err (R.Damaged dev at) → (dev ≡ 1 + length self.logs.items) × LogFailsAt dev device.now at }
    {
        let mut read = self;
        let inst = InstNo::new(read.logs.len() as u8 + 1).unwrap();
        let (log, found, master) = read_log(alloc, device, inst)?;
        read.logs.push(log)?;
        read.losers.push(found)?;
        read.masters.push(master)?;
        Ok(read)
    }
}

/// What is read of the logs of the instances 1 to 8, of the bytes of their devices. `Damaged` names the first log that isn't
/// sound, at the least place of the first of its checks that fails.
pub fn read_logs(alloc: Global, devices: &[Bytes]) -> Result<ReadLogs, Refusal>
    requires eight { length devices.now ≡ 8 }
    requires sizes { All (λ d. length d ≡ LOG_LEN) devices.now }
    ensures read { IfOk result (HasRead devices.now) }
    ensures unsound { IfErr result (λ e. (e ≡ R.Memory) ⊎ ((dev : ℕ) × (at : ℕ) × (e ≡ R.Damaged dev at) × SomeUnread 1 devices.now)) }
    ensures place { (dev at : ℕ) → result ≡ Err (R.Damaged dev at) → FailsAmong devices.now dev at }
{
    let mut read = ReadLogs::new(alloc);
    for device in devices.iter() {
        read = read.next(alloc, device.items())?;
    }
    Ok(read)
}

// One log, with its losers and its master.
fn read_log(
    alloc: Global,
    device: &[u8],
    inst: InstNo,
) -> Result<(ReadLog, Losers, Option<MasterRecord>), Refusal>
    requires { length device.now ≡ LOG_LEN }
    ensures read { IfOk result (λ r. LogIsRead inst device.now r.0 r.1) }
    ensures counts { IfOk result (λ r. said r.2 ≡ counting device.now) }
    ensures unsound { IfErr result (λ e. (e ≡ R.Memory) ⊎ ((dev : ℕ) × (at : ℕ) × (e ≡ R.Damaged dev at) × IsUnread inst device.now)) }
    ensures place { (dev at : ℕ) → result ≡ Err (R.Damaged dev at) → (dev ≡ inst) × LogFailsAt inst device.now at }
{
    let Scanned { log, master } = scan(alloc, device, inst)?;
    let losers = losers_of(alloc, &log, inst)?;
    Ok((log, losers, master))
}

// The losers of a log.
fn losers_of(alloc: Global, log: &ReadLog, inst: InstNo) -> Result<Losers, Refusal>
    requires { AreSpelled (scanned log.now) }
    ensures tidy { OnOk result (AreTidy (scanned log.now)) }
    ensures losers { IfOk result (AreLosers (scanned log.now)) }
    ensures untidy { IfErr result (λ e. (e ≡ R.Memory) ⊎ ((dev : ℕ) × (at : ℕ) × (e ≡ R.Damaged dev at) × (AreTidy (scanned log.now) → ⊥))) }
    ensures place { (dev at : ℕ) → result ≡ Err (R.Damaged dev at) → (dev ≡ inst) × Misplaced (scanned log.now) at }
{
    let placed = log.scan();
    match analyse(alloc, placed) {
        Ok(losers) => Ok(losers),
        Err(AnalysisError::Disorder { at }) => Err(damaged_log(inst.get(), placed[at].place)),
        Err(AnalysisError::Memory) => Err(Refusal::Memory),
    }
}
