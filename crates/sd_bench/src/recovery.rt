//! Nine devices with logs of committed transfers, read to the table that they stand for.

ghost use Rattle.std.specs.Prelude.{◌≡◌, ◌<◌, ◌≤◌, ◌^◌, length, IfOk};
ghost use Rattle.sd_logrec.specs.Spelling.{HasSpelling};
ghost use Rattle.sd_rig.specs.Devices.{device_len};
ghost use Rattle.sd_recovered.specs.Devices.{AreDevices};

use crate::transfers::Transfer;
use sd_base::{Bytes, InstNo, Memory, PageNo};
use sd_logrec::{AREA, Lent, Record};
use sd_recovered::recovered;
use sd_rig::{DATA_LEN, LOG_LEN, OPEN};
use std::alloc::Global;

const CHANGED_PAGES: u32 = 4;

/// Reads nine devices so many times, whose first logs, so many, have so many committed transfers in all: each log in turn has
/// one, and all of them change one page before the next. `false` where they aren't read.
pub fn recoveries(alloc: Global, logs: u32, transfers: u32, reads: u32) -> bool
    requires least { 1 ≤ logs }
    requires most { logs ≤ 8 }
{
    let Ok(images) = devices(alloc, logs, transfers) else {
        return false;
    };
    for _ in 0..reads {
        if recovered(alloc, &images).is_err() {
            return false;
        }
    }
    true
}

#[tactic(auto, using(sd_recovered::proofs::Nine::are_devices))]
fn devices(alloc: Global, logs: u32, transfers: u32) -> Result<Vec<Bytes>, Memory>
    requires least { 1 ≤ logs }
    requires most { logs ≤ 8 }
    ensures { IfOk result (λ devices. AreDevices devices.items) }
{
    let (one, two, three, four) = four_logs(alloc, 1, logs, transfers)?;
    let (five, six, seven, eight) = four_logs(alloc, 5, logs, transfers)?;
    let data = blank(alloc, DATA_LEN)?;
    let devices = [data, one, two, three, four, five, six, seven, eight];
    Ok(Vec::from_array(alloc, devices)?)
}

type FourLogs = (Bytes, Bytes, Bytes, Bytes);

// The log devices of four instances, from this one on.
fn four_logs(alloc: Global, first: u8, logs: u32, transfers: u32) -> Result<FourLogs, Memory>
    requires first { first ≤ 5 }
    requires least { 1 ≤ logs }
    requires most { logs ≤ 8 }
    ensures first { IfOk result (λ found. length found.0 ≡ device_len 1) }
    ensures second { IfOk result (λ found. length found.1 ≡ device_len 1) }
    ensures third { IfOk result (λ found. length found.2 ≡ device_len 1) }
    ensures fourth { IfOk result (λ found. length found.3 ≡ device_len 1) }
{
    let one = log(alloc, first, logs, transfers)?;
    let two = log(alloc, first + 1, logs, transfers)?;
    let three = log(alloc, first + 2, logs, transfers)?;
    let four = log(alloc, first + 3, logs, transfers)?;
    Ok((one, two, three, four))
}

fn blank(alloc: Global, len: u32) -> Result<Bytes, Memory>
    ensures { IfOk result (λ device. length device ≡ len) }
{
    Ok(Bytes::of(alloc, Vec::from_elem(alloc, 0u8, len as usize)?)?)
}

// The log device of an instance: blank behind the first so many, else with what the instance logged.
fn log(alloc: Global, number: u8, logs: u32, transfers: u32) -> Result<Bytes, Memory>
    requires least { 1 ≤ logs }
    requires most { logs ≤ 8 }
    ensures { IfOk result (λ device. length device ≡ device_len 1) }
{
    match InstNo::new(number) {
        Some(inst) if u32::from(number) <= logs => filled(alloc, inst, logs, transfers),
        _ => blank(alloc, LOG_LEN),
    }
}

// A log device: the start of epoch 1, and each transfer as a group of its own.
fn filled(alloc: Global, inst: InstNo, logs: u32, transfers: u32) -> Result<Bytes, Memory>
    requires least { 1 ≤ logs }
    requires most { logs ≤ 8 }
    ensures { IfOk result (λ device. length device ≡ device_len 1) }
{
    let mut bytes = Vec::from_elem(alloc, 0u8, AREA as usize)?;
    put_groups(alloc, &mut bytes, inst, logs, transfers)?;
    bytes.resize(LOG_LEN as usize, 0)?;
    Ok(Bytes::of(alloc, bytes)?)
}

// The groups of a log: the start of epoch 1, and each transfer of the instance.
fn put_groups(
    alloc: Global,
    bytes: &mut Vec<u8>,
    inst: InstNo,
    logs: u32,
    transfers: u32,
) -> Result<(), Memory>
    requires least { 1 ≤ logs }
    requires most { logs ≤ 8 }
{
    put_group(bytes, &start(alloc)?)?;
    for n in 0..transfers {
        if n % logs + 1 == u32::from(inst.get()) {
            put_group(bytes, &transfer(alloc, inst, logs, n)?)?;
        }
    }
    Ok(())
}

// The record that starts epoch 1.
fn start(alloc: Global) -> Result<Vec<u8>, Memory> {
    let mut body = Vec::new(alloc);
    let start = Record::Start { lsn: 1, epoch: 1 };
    put_record(&Lent::whole(&start), &mut body)?;
    Ok(body)
}

fn put_group(bytes: &mut Vec<u8>, body: &[u8]) -> Result<(), Memory> {
    bytes.push(OPEN)?;
    let len = u32::try_from(body.len()).unwrap_or(u32::MAX);
    bytes.extend_from_slice(&len.to_be_bytes())?;
    bytes.extend_from_slice(body)?;
    Ok(())
}

// The records of transfer n.
fn transfer(alloc: Global, inst: InstNo, logs: u32, n: u32) -> Result<Vec<u8>, Memory>
    requires least { 1 ≤ logs }
    requires most { logs ≤ 8 }
{
    let first = 2 + 3 * u64::from(n);
    let page = PageNo::new((n / logs % CHANGED_PAGES) as u16).unwrap();
    let transfer = Transfer::new(inst, n, first, page, before(logs, n));
    let mut body = Vec::new(alloc);
    put_records(&transfer, &mut body)?;
    Ok(body)
}

// Appends the spellings of a transfer's three records.
fn put_records(transfer: &Transfer, body: &mut Vec<u8>) -> Result<(), Memory>
    requires low { 1 ≤ transfer.now.first }
    requires high { transfer.now.first < 2 ^ 61 }
{
    put_record(&Lent::update(&transfer.first_change()), body)?;
    put_record(&Lent::update(&transfer.second_change()), body)?;
    put_record(&Lent::whole(&transfer.commit()), body)
}

// Appends the spelling of a record.
fn put_record(made: &Lent, body: &mut Vec<u8>) -> Result<(), Memory>
    requires { HasSpelling made.now }
{
    body.reserve(made.len())?;
    made.write(body);
    Ok(())
}

// The transfer that changed the page of transfer n before it.
fn before(logs: u32, n: u32) -> Option<u32>
    requires least { 1 ≤ logs }
    requires most { logs ≤ 8 }
{
    if n % logs == 0 {
        n.checked_sub((CHANGED_PAGES - 1) * logs + 1)
    } else {
        Some(n - 1)
    }
}
