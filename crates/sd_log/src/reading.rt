//! The groups of an area, read into a journal.

ghost use Rattle.std.specs.Prelude.{◌≡◌, ◌⊎◌, [], ◌++◌, ℕ, ◌+◌, ◌^◌, ◌<◌, false, true, Err, Ok, length, IfErr, MatchOption, OnOk};
ghost use Rattle.sd_base.specs.declared.refusal.Refusal.TheVariants as R;
ghost use Rattle.sd_logrec.specs.Fronts.{front_at, fronts_within};
ghost use Rattle.sd_logrec.specs.Kept.{Whole, fits_area, group_len, groups_within, records_at};
ghost use Rattle.sd_log.specs.Areas.{Breaks};
ghost use Rattle.sd_log.specs.Parts.{text_of};
ghost use Rattle.sd_log.specs.Readings.{AddsFront, AddsRecords, AddsGroup, entries};

use crate::journal::Journal;
use byteorder::{BigEndian, ByteOrder};
use sd_base::Refusal;
use sd_logrec::{AREA_LEN, GROUP_HEAD, Record};
use sd_rig::is_open;
use std::alloc::Global;

/// The least length of a body: that of the shortest record.
const LEAST_BODY: usize = 9;

// The length of the group at the front, where it lies in the area with the next gate.
fn group_len(bytes: &[u8], at: usize) -> Option<usize>
    requires { at + length bytes.now ≡ AREA_LEN }
    ensures { MatchOption result (fits_area at (group_len bytes.now) ≡ false) (λ n. (n ≡ group_len bytes.now) × (fits_area at n ≡ true)) }
{
    if bytes.len() < GROUP_HEAD {
        return None;
    }
    let len = BigEndian::read_u32(&bytes[1..]) as usize;
    if len < LEAST_BODY || at + GROUP_HEAD + len + 1 > AREA_LEN as usize {
        return None;
    }
    Some(len)
}

// Puts the records of a body at the end of the tail, up to where none starts.
fn read_records(alloc: Global, journal: &mut Journal, body: &[u8]) -> Result<(), Refusal>
    requires place { journal.old.gate + GROUP_HEAD + length body.now < 2 ^ 32 }
    requires tail { journal.old.tail ≡ [] }
    ensures ok { OnOk result (AddsRecords (records_at (journal.old.gate + GROUP_HEAD) body.now) body.now journal.old journal.new) }
    ensures err { IfErr result (λ e. (e ≡ R.Memory) ⊎ ((place : ℕ) × (e ≡ R.BadRecord place) × (records_at (journal.old.gate + GROUP_HEAD) body.now ≡ Err place)
        × (place < journal.old.gate + GROUP_HEAD + length body.now) × AddsFront (front_at (journal.old.gate + GROUP_HEAD) body.now) journal.old journal.new)) }
{
    let place = journal.gate() as usize + GROUP_HEAD;
    let mut at = 0;
    while at < body.len() {
        journal.reserve(1)?;
        match Record::take(alloc, body, at) {
            Ok((rec, next)) => {
                journal.push(rec, (place + at) as u32);
                at = next;
            }
            Err(Refusal::BadRecord { .. }) => {
                let at = (place + at) as u64;
                return Err(Refusal::BadRecord { at });
            }
            Err(e) => return Err(e),
        }
    }
    Ok(())
}

// Reads a body as one more group, and puts its bytes behind `text`.
fn read_group(
    alloc: Global,
    journal: &mut Journal,
    text: &mut Vec<u8>,
    body: &[u8],
) -> Result<(), Refusal>
    requires place { journal.old.gate + GROUP_HEAD + length body.now < 2 ^ 32 }
    requires some { 0 < length body.now }
    requires tail { journal.old.tail ≡ [] }
    ensures ok { OnOk result (AddsGroup (records_at (journal.old.gate + GROUP_HEAD) body.now) body.now journal.old journal.new) }
    ensures text { OnOk result (text.new.items ≡ text.old.items ++ body.now) }
    ensures err { IfErr result (λ e. (e ≡ R.Memory) ⊎ ((place : ℕ) × (e ≡ R.BadRecord place) × (records_at (journal.old.gate + GROUP_HEAD) body.now ≡ Err place)
        × (place < journal.old.gate + GROUP_HEAD + length body.now) × AddsFront (front_at (journal.old.gate + GROUP_HEAD) body.now) journal.old journal.new)) }
{
    read_records(alloc, journal, body)?;
    text.extend_from_slice(body)?;
    journal.close_group(body.len() as u32);
    Ok(())
}

/// Reads the groups of an area from the journal's gate on, where it has nothing yet, up to a closed gate, or up to what
/// breaks the format. The bytes of their records come into `text`, where there are none yet.
pub fn read_groups(
    alloc: Global,
    journal: &mut Journal,
    text: &mut Vec<u8>,
    bytes: &[u8],
) -> Result<(), Refusal>
    requires place { journal.old.gate + length bytes.now ≡ AREA_LEN }
    requires some { 0 < length bytes.now }
    requires groups { journal.old.groups ≡ [] }
    requires tail { journal.old.tail ≡ [] }
    requires text { text.old.items ≡ [] }
    ensures ok { OnOk result (groups_within (length bytes.now) journal.old.gate bytes.now ≡ Whole journal.new.groups journal.new.gate) }
    ensures text { OnOk result (text.new.items ≡ text_of journal.new.groups) }
    ensures start { OnOk result (journal.new.start ≡ journal.old.start) }
    ensures tail { OnOk result (journal.new.tail ≡ []) }
    ensures gate { OnOk result (journal.new.gate < AREA_LEN) }
    ensures err { IfErr result (λ e. (e ≡ R.Memory) ⊎ (Breaks (groups_within (length bytes.now) journal.old.gate bytes.now) e
        × (entries journal.new ≡ fronts_within (length bytes.now) journal.old.gate bytes.now))) }
    ensures front { OnOk result (entries journal.new ≡ fronts_within (length bytes.now) journal.old.gate bytes.now) }
{
    let mut rest = bytes;
    while is_open(rest, 0) {
        let at = journal.gate();
        let Some(len) = group_len(rest, at as usize) else {
            return Err(Refusal::BadLog { at: at as u64 });
        };
        let (body, behind) = rest[GROUP_HEAD..].split_at(len);
        read_group(alloc, journal, text, body)?;
        rest = behind;
    }
    Ok(())
}
