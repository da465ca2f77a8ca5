//! A log device read, and its checks.

ghost use Rattle.std.specs.Prelude.{◌≡◌, ◌⊎◌, ℕ, ◌+◌, ◌<◌, [], length, map, option_map, Err, IfErr, IfOk, OnOk};
ghost use Rattle.sd_base.specs.Twin.{chosen_body};
ghost use Rattle.sd_base.specs.declared.refusal.Refusal.TheVariants as R;
ghost use Rattle.sd_logrec.specs.Kept.{Whole, kept, master};
ghost use Rattle.sd_log.specs.Areas.{IsAt};
ghost use Rattle.sd_log.specs.Logs.{AreSpelled, scanned};
ghost use Rattle.sd_log.specs.Marks.{entry};
ghost use Rattle.sd_chain.specs.Checks.{Follow, GroupsAreSound, MasterIsSound, past_of};
ghost use Rattle.sd_chain.specs.Faults.{GroupsFailAt, MasterPasses, StraysAt};
ghost use Rattle.sd_recovered.specs.Following.{BreaksFirst, IsChecked, bare};
ghost use Rattle.sd_recovered.specs.Masters.{as_master, kept_master, master_in, said};

use crate::following::{first_stray, has_end_check};
use crate::master::{MasterRecord, read_master};
use sd_base::{InstNo, Refusal};
use sd_log::{Area, Placed, ReadLog};
use sd_logrec::{AREA, AREA_LEN, MASTER_BODY};
use sd_rig::LOG_LEN;
use std::alloc::Global;

/// A log device as it was read: its groups, and the master that counts, if any does.
#[derive(Drop)]
pub struct Scanned {
    pub log: ReadLog,
    pub master: Option<MasterRecord>,
}

/// The log of this instance and its master, of the bytes of its device: its groups from the master's start place on, or
/// from the area's start where no master counts.
///
/// `Damaged` comes exactly where the master isn't sound or the groups aren't, with the place of the first fault in bytes
/// from the device's start: 0 where the slots aren't well formed, or the checkpoint isn't kept in a log that keeps the
/// format; else that of the first record that may not follow those before it, or, where all in front of it do, of the
/// group's gate or the record that breaks the format.
pub fn scan(alloc: Global, device: &[u8], inst: InstNo) -> Result<Scanned, Refusal>
    requires { length device.now ≡ LOG_LEN }
    ensures master { OnOk result (MasterIsSound device.now) }
    ensures groups { OnOk result (GroupsAreSound inst device.now) }
    ensures kept { IfOk result (λ s. kept device.now ≡ Whole s.log.groups s.log.gate) }
    ensures start { IfOk result (λ s. s.log.start ≡ (master device.now).start) }
    ensures spelled { IfOk result (λ s. AreSpelled (scanned s.log)) }
    ensures inst { IfOk result (λ s. s.log.inst ≡ inst) }
    ensures tail { IfOk result (λ s. s.log.tail ≡ []) }

    // The master that counts, or none; and what it says, or all 0.
    ensures counts { IfOk result (λ s. said s.master ≡ option_map master_in (chosen_body 0 MASTER_BODY device.now)) }
    ensures says { IfOk result (λ s. as_master s.master ≡ master device.now) }

    ensures unsound { (dev at : ℕ) → result ≡ Err (R.Damaged dev at) → MasterIsSound device.now → GroupsAreSound inst device.now → ⊥ }
    ensures place { (dev at : ℕ) → result ≡ Err (R.Damaged dev at) → ((MasterPasses device.now → ⊥) × (at ≡ 0))
        ⊎ (MasterPasses device.now × ((place : ℕ) × GroupsFailAt inst device.now place × (at ≡ AREA + place))) }
    ensures refusals { IfErr result (λ e. (e ≡ R.Memory) ⊎ ((at : ℕ) × (e ≡ R.Damaged inst at))) }
{
    let Ok(master) = read_master(device) else {
        return Err(damaged(inst, 0));
    };
    let m = master.unwrap_or(MasterRecord::BLANK);
    let area = &device[AREA as usize..(AREA + AREA_LEN) as usize];
    match ReadLog::of_area(alloc, inst, m.start, area)? {
        Area::Whole(log) => {
            check_records(&log, inst, master.is_some(), m)?;
            Ok(Scanned { log, master })
        }
        Area::Broken { front, fault } => { Err(broken(&front, &fault, inst, master.is_some(), m)) }
    }
}

// Whether the log has the checkpoint that its master names, and its records follow one another.
fn check_records(log: &ReadLog, inst: InstNo, chosen: bool, m: MasterRecord) -> Result<(), Refusal>
    ensures sound { OnOk result (IsChecked chosen (kept_master m) (bare (scanned log.now))
        × Follow inst chosen (kept_master m) (past_of (kept_master m)) (bare (scanned log.now))) }
    ensures err { IfErr result (λ e. ((IsChecked chosen (kept_master m) (bare (scanned log.now)) → ⊥) × (e ≡ R.Damaged inst 0))
        ⊎ (IsChecked chosen (kept_master m) (bare (scanned log.now)) × ((place : ℕ)
        × StraysAt inst chosen (kept_master m) (past_of (kept_master m)) (map entry (scanned log.now)) place × (e ≡ R.Damaged inst (AREA + place))))) }
{
    if chosen && !has_end_check(m.check, log.scan()) {
        return Err(damaged(inst, 0));
    }
    match first_stray(inst, chosen, m, log.scan()) {
        Some(place) => Err(damaged(inst, AREA as u64 + place as u64)),
        None => Ok(()),
    }
}

// Where a log fails that breaks the format: `front` are the records before that.
fn broken(front: &[Placed], fault: &Refusal, inst: InstNo, chosen: bool, m: MasterRecord) -> Refusal
    requires { (at : ℕ) × IsAt fault.now at × (at < AREA_LEN) }
    ensures { (place : ℕ) × BreaksFirst inst chosen (kept_master m) front.now fault.now place × (result ≡ R.Damaged inst (AREA + place)) }
{
    match first_stray(inst, chosen, m, front) {
        Some(place) => damaged(inst, AREA as u64 + place as u64),
        None => damaged(inst, AREA as u64 + place_of(fault)),
    }
}

// The place that what breaks the format tells.
fn place_of(fault: &Refusal) -> u64
    ensures { (at : ℕ) → IsAt fault.now at → result ≡ at }
{
    match fault {
        Refusal::BadLog { at } | Refusal::BadRecord { at } => *at,
        _ => 0,
    }
}

// The refusal of devices of which the log of an instance isn't sound at this byte.
fn damaged(inst: InstNo, at: u64) -> Refusal
    ensures { result ≡ R.Damaged inst at }
{
    Refusal::damaged(inst.get(), at)
}
