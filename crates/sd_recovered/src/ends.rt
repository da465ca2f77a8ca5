//! Room for what ends the losers: LSNs, and bytes in each log.

ghost use Rattle.std.specs.Prelude.{◌≡◌, ◌≢◌, ◌⊎◌, ℕ, ◌+◌, ◌-◌, ◌^◌, ◌<◌, ◌≤◌, ◌↔◌, [], List, All, Err, IfErr, IsTrue, OnOk, length, min};
ghost use Rattle.sd_base.specs.declared.refusal.Refusal.TheVariants as R;
ghost use Rattle.sd_log.specs.Logs.{LogState, flats, scanned};
ghost use Rattle.sd_chain.specs.Checks as checks;
ghost use Rattle.sd_recovered.specs.Losers.{AreLosers};
ghost use Rattle.sd_recovered.specs.UndoPass.{AreLosersFrom, AreLosersOf};
ghost use Rattle.sd_recovered.specs.Ends.{EndsFailAt, EndsFit, HasRoom, IsLogLow, IsLow, IsPageLow, LacksRoom, owed_in};

use crate::{Losers, owed, reserve};
use sd_base::{Lsn, Refusal};
use sd_log::{Placed, ReadLog};
use sd_logrec::{AREA_LEN, MAX_LSN};
use sd_page::Image;
use sd_redo::damaged_log;

/// How many records end these losers, at most 2^64 - 1.
pub fn owed_by(losers: &[Losers]) -> u64
    ensures { (j : ℕ) (logs : List LogState) → AreLosersFrom j logs losers.now → result ≡ min (owed_in logs) (2 ^ 64 - 1) }
{
    match losers {
        [] => 0,
        [first, rest @ ..] => owed(first).saturating_add(owed_by(rest)),
    }
}

// Whether so many LSNs are left above this one.
fn is_low(lsn: Lsn, owed: u64) -> bool
    ensures { (n : ℕ) → owed ≡ min n (2 ^ 64 - 1) → IsTrue result ↔ IsLow n lsn }
{
    lsn.saturating_add(owed) <= MAX_LSN
}

/// Whether so many LSNs are left above those of these pages.
pub fn are_low(pages: &[Image], owed: u64) -> bool
    ensures { (n : ℕ) → owed ≡ min n (2 ^ 64 - 1) → IsTrue result ↔ All (IsPageLow n) pages.now }
{
    pages.iter().all(|page| is_low(page.lsn(), owed))
}

// Whether so many LSNs are left above those of these records.
fn is_log_low(log: &ReadLog, owed: u64) -> bool
    ensures { (n : ℕ) → owed ≡ min n (2 ^ 64 - 1) → IsTrue result ↔ IsLogLow n log.now }
{
    log.scan()
        .iter()
        .all(|placed| is_low(placed.rec.lsn(), owed))
}

// Whether so many LSNs are left above those of these logs.
fn are_logs_low(logs: &[ReadLog], owed: u64) -> bool
    ensures { (n : ℕ) → owed ≡ min n (2 ^ 64 - 1) → IsTrue result ↔ All (IsLogLow n) logs.now }
{
    logs.iter().all(|log| is_log_low(log, owed))
}

// Whether the log has room for what ends its losers.
fn has_room(log: &ReadLog, losers: &Losers) -> bool
    requires { AreLosers (scanned log.now) losers.now }
    ensures { IsTrue result ↔ HasRoom log.now }
{
    let reserved = reserve(log.scan(), losers);
    u64::from(log.gate()).saturating_add(reserved) < u64::from(AREA_LEN)
}

/// Room for what ends the losers, in each log and above all LSNs; `low` says it of the pages' LSNs.
///
/// `Damaged` comes exactly where there is none: where LSNs lack at the next gate of log 1, else at that of the first log
/// that lacks bytes.
pub fn check_ends(logs: &[ReadLog], losers: &[Losers], low: bool) -> Result<(), Refusal>
    requires losers { AreLosersOf logs.now losers.now }
    requires eight { length logs.now ≡ 8 }
    ensures low { OnOk result (IsTrue low) }
    ensures fit { OnOk result (EndsFit logs.now) }
    ensures unfit { IfErr result (λ e. (dev : ℕ) × (at : ℕ) × (e ≡ R.Damaged dev at) × (IsTrue low → EndsFit logs.now → ⊥)) }
    ensures place { (dev at : ℕ) → result ≡ Err (R.Damaged dev at) → EndsFailAt low logs.now dev at }
{
    let owed = owed_by(losers);
    if !low || !are_logs_low(logs, owed) {
        return Err(damaged_log(1, logs[0].gate()));
    }
    check_room(logs, losers, 1)
}

// Room in each of these logs, the first of which is that of this instance.
fn check_room(logs: &[ReadLog], losers: &[Losers], inst: u8) -> Result<(), Refusal>
    requires losers { AreLosersFrom inst logs.now losers.now }
    requires few { inst + length logs.now < 256 }
    ensures fit { OnOk result (All HasRoom logs.now) }
    ensures unfit { IfErr result (λ e. (dev : ℕ) × (at : ℕ) × (e ≡ R.Damaged dev at) × (All HasRoom logs.now → ⊥)) }
    ensures place { (dev at : ℕ) → result ≡ Err (R.Damaged dev at) → LacksRoom inst logs.now dev at }
{
    match (logs, losers) {
        ([log, logs @ ..], [found, losers @ ..]) => {
            if !has_room(log, found) {
                return Err(damaged_log(inst, log.gate()));
            }
            check_room(logs, losers, inst + 1)
        }
        _ => Ok(()),
    }
}
