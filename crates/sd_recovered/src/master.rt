//! The master of a log device: two slots, of which one counts. It sees no group.

ghost use Rattle.std.specs.Prelude.{◌≡◌, ◌↔◌, ◌+◌, ◌<◌, ◌≤◌, length, map, option_map, IfOk, IsOk, IsTrue};
ghost use Rattle.sd_base.specs.Twin.{chosen_body, number_of};
ghost use Rattle.sd_logrec.specs.Kept.{master};
ghost use Rattle.sd_chain.specs.Checks.{IsMaster, IsSlot};
ghost use Rattle.sd_chain.specs.Faults.{SlotsAreSound};
ghost use Rattle.sd_recovered.specs.Masters.{as_master, kept_master, master_in, said, spelled_master};

use byteorder::{BigEndian, ByteOrder};
use sd_base::Lsn;
use sd_logrec::{AREA, AREA_LEN, MASTER_BODY};
use sd_rig::{Chosen, chosen_of, is_open};

/// The bytes of a body that say something.
const FIELDS: usize = 25;

/// The master of a log: how often one was written, where its log starts, and the checkpoint and the epoch that are known.
#[derive(Clone, Copy, Debug, PartialEq, Eq)]
pub struct MasterRecord {
    /// It is greater than that of each master before.
    pub count: u64,
    /// The area of the log: 0.
    pub area: u8,
    /// The epoch of the last Start that the checkpoint knew.
    pub epoch: u32,
    /// The LSN of the record that ended the checkpoint.
    pub check: Lsn,
    /// The place of the log's first group, in bytes from the area's start.
    pub start: u32,
}

impl MasterRecord {
    /// What no master says.
    pub const BLANK: MasterRecord = MasterRecord {
        count: 0,
        area: 0,
        epoch: 0,
        check: 0,
        start: 0,
    };

    /// The body of a slot that says this.
    pub fn spell(&self) -> [u8; MASTER_BODY]
        requires area { self.now.area ≡ 0 }
        requires place { self.now.start < AREA_LEN }
        ensures is { master_in result ≡ kept_master self.now }
        ensures well { IsMaster result }
        ensures number { number_of result ≡ self.now.count }
    {
        body_of(self.count, self.area, self.epoch, self.check, self.start)
    }
}

/// The slots of a master aren't well formed, or both are open with equal counts.
#[derive(Clone, Copy, PartialEq, Eq)]
pub struct Unsound;

/// The master that counts on a log device, of which the bytes in front of its area suffice; `None` where neither slot is
/// open. `Unsound` comes exactly where an open slot isn't well formed, or both are open with equal counts.
pub fn read_master(device: &[u8]) -> Result<Option<MasterRecord>, Unsound>
    requires { AREA ≤ length device.now }
    ensures read { IfOk result (λ m. said m ≡ option_map master_in (chosen_body 0 MASTER_BODY device.now)) }
    ensures says { IfOk result (λ m. as_master m ≡ master device.now) }
    ensures sound { IsOk result ↔ SlotsAreSound device.now }
{
    if !is_slot(device, 0) || !is_slot(device, MASTER_BODY + 1) {
        return Err(Unsound);
    }
    let slots = &device[..AREA as usize];
    match chosen_of(slots, MASTER_BODY) {
        Chosen::Same => Err(Unsound),
        chosen => match chosen.body(MASTER_BODY, slots) {
            Some(body) => Ok(Some(master_of(body))),
            None => Ok(None),
        },
    }
}

// Whether the slot with this gate is closed or well formed.
fn is_slot(device: &[u8], gate: usize) -> bool
    requires { gate + MASTER_BODY + 1 ≤ length device.now }
    ensures { IsTrue result ↔ IsSlot gate device.now }
{
    !is_open(device, gate) || is_master(&device[gate + 1..gate + 1 + MASTER_BODY])
}

// Whether a body names area 0 and a place in it, with zeros behind.
fn is_master(body: &[u8]) -> bool
    requires { length body.now ≡ MASTER_BODY }
    ensures { IsTrue result ↔ IsMaster body.now }
{
    let m = master_of(body);
    if m.area != 0 {
        return false;
    }
    if m.start >= AREA_LEN {
        return false;
    }
    are_zeros(&body[FIELDS..])
}

fn are_zeros(bytes: &[u8]) -> bool
    ensures { IsTrue result ↔ (bytes.now ≡ map (λ _. 0) bytes.now) }
{
    bytes.iter().all(|b| *b == 0)
}

// What a body says.
fn master_of(body: &[u8]) -> MasterRecord
    requires { length body.now ≡ MASTER_BODY }
    ensures { kept_master result ≡ master_in body.now }
{
    MasterRecord {
        count: BigEndian::read_u64(body),
        area: body[8],
        epoch: BigEndian::read_u32(&body[9..]),
        check: BigEndian::read_u64(&body[13..]),
        start: BigEndian::read_u32(&body[21..]),
    }
}

// The fields, one behind the other, and zeros behind them.
fn body_of(count: u64, area: u8, epoch: u32, check: Lsn, start: u32) -> [u8; MASTER_BODY]
    ensures { result ≡ spelled_master (record { count = count; area = area; epoch = epoch; check = check; start = start }) }
{
    let mut body = [0; MASTER_BODY];
    body[..8].copy_from_slice(&count.to_be_bytes());
    body[8] = area;
    body[9..13].copy_from_slice(&epoch.to_be_bytes());
    body[13..21].copy_from_slice(&check.to_be_bytes());
    body[21..FIELDS].copy_from_slice(&start.to_be_bytes());
    body
}
