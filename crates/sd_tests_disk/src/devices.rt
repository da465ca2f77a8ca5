//! Nine devices, blank but for bytes that are put at places of them.

ghost use Rattle.std.specs.Prelude.{◌≡◌, ◌+◌, ◌≤◌, IfOk, length};
ghost use Rattle.sd_log.specs.Logs.{AreSpelled, scanned};
ghost use Rattle.sd_rig.specs.Devices.{device_len};
ghost use Rattle.sd_recovered.specs.Devices.{AreDevices};

use sd_base::{Bytes, InstNo, Memory, Refusal};
use sd_log::ReadLog;
use sd_logrec::AREA;
use sd_recovered::{Scanned, scan};
use sd_rig::device_len;
use std::alloc::Global;

/// Bytes at a place of a device.
#[derive(Clone, Copy)]
pub(crate) struct Patch<'a> {
    pub(crate) dev: u8,
    pub(crate) at: usize,
    pub(crate) bytes: &'a [u8],
}

/// These bytes at this place of a device.
pub(crate) fn bytes_at<'a>(dev: u8, at: usize, bytes: &'a [u8]) -> Patch<'a> {
    Patch { dev, at, bytes }
}

/// These bytes at the start of an instance's log area.
pub(crate) fn log<'a>(dev: u8, bytes: &'a [u8]) -> Patch<'a> {
    bytes_at(dev, AREA as usize, bytes)
}

/// A device with these bytes; those of a later patch count.
pub(crate) fn device(alloc: Global, dev: u8, patches: &[Patch<'_>]) -> Result<Bytes, Memory>
    ensures { IfOk result (λ device. length device ≡ device_len dev) }
{
    let mut bytes = Vec::from_elem(alloc, 0u8, device_len(dev) as usize)?;
    for patch in patches {
        if patch.dev == dev {
            put(&mut bytes, patch.at, patch.bytes);
        }
    }
    Ok(Bytes::of(alloc, bytes)?)
}

fn put(device: &mut [u8], at: usize, bytes: &[u8]) {
    for (old, new) in device.iter_mut().skip(at).zip(bytes) {
        *old = *new;
    }
}

/// The log of an instance whose device has these bytes in its log area.
pub(crate) fn log_of(alloc: Global, inst: InstNo, bytes: &[u8]) -> Result<ReadLog, Refusal>
    ensures { IfOk result (λ log. AreSpelled (scanned log)) }
{
    let device = device(alloc, 1, &[log(1, bytes)])?;
    let Scanned { log, .. } = scan(alloc, device.items(), inst)?;
    Ok(log)
}

/// Nine devices with these bytes, device 0 first.
#[tactic(auto, using(sd_recovered::proofs::Nine::are_devices))]
pub(crate) fn devices(alloc: Global, patches: &[Patch<'_>]) -> Result<Vec<Bytes>, Memory>
    ensures { IfOk result (λ devices. AreDevices devices.items) }
{
    let (zero, one, two) = triple(alloc, 0, patches)?;
    let (three, four, five) = triple(alloc, 3, patches)?;
    let (six, seven, eight) = triple(alloc, 6, patches)?;
    let devices = [zero, one, two, three, four, five, six, seven, eight];
    Ok(Vec::from_array(alloc, devices)?)
}

// Three of them, from this one on.
fn triple(alloc: Global, first: u8, patches: &[Patch<'_>]) -> Result<(Bytes, Bytes, Bytes), Memory>
    requires { first ≤ 6 }
    ensures low { IfOk result (λ found. length found.0 ≡ device_len first) }
    ensures middle { IfOk result (λ found. length found.1 ≡ device_len (first + 1)) }
    ensures high { IfOk result (λ found. length found.2 ≡ device_len (first + 2)) }
{
    let low = device(alloc, first, patches)?;
    let middle = device(alloc, first + 1, patches)?;
    let high = device(alloc, first + 2, patches)?;
    Ok((low, middle, high))
}
