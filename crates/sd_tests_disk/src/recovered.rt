//! Nine devices by hand: the table that they stand for, the place of each check that fails, and a log with each byte
//! flipped.

ghost use Rattle.std.specs.Prelude.{◌<◌};

use crate::bytes_by_hand::*;
use crate::devices::{Patch, bytes_at, devices, log};
use sd_base::{PageNo, Refusal, Rid};
use sd_model::Table;
use sd_recovered::{ReadDevices, open, recovered};
use std::alloc::Global;
use std::test::Fail;

fn value(table: &Table, page: u16, slot: u16) -> Option<&[u8]> {
    let page = PageNo::new(page)?;
    table.get(Rid { page, slot })
}

// Of what nine devices stand for: the values of slot 0 of the pages 0, 1 and 2; of page 0 the LSN of the disk image and the
// RecLSN; the counts of the masters of logs 1 and 5.
#[derive(Drop)]
struct Stood<'a> {
    values: [Option<&'a [u8]>; 3],
    disk: u64,
    rec: Option<u64>,
    counts: [u64; 2],
}

fn count(opened: &ReadDevices, log: usize) -> u64 {
    match opened.masters.get(log) {
        Some(Some(master)) => master.count,
        _ => 0,
    }
}

fn holds(opened: &ReadDevices, stood: &Stood<'_>) -> bool {
    let [zero, one, two] = stood.values;
    let [first, fifth] = stood.counts;
    value(&opened.table, 0, 0) == zero
        && value(&opened.table, 1, 0) == one
        && value(&opened.table, 2, 0) == two
        && opened.disk_lsns.first() == Some(&stood.disk)
        && opened.rec_lsns.first() == Some(&stood.rec)
        && count(opened, 0) == first
        && count(opened, 4) == fifth
}

// Whether the devices stand for this.
fn stand(alloc: Global, patches: &[Patch<'_>], stood: &Stood<'_>) -> Result<bool, Refusal> {
    let devices = devices(alloc, patches)?;
    let opened = open(alloc, &devices)?;
    Ok(holds(&opened, stood))
}

#[test]
fn sound_devices_stand_for_what_was_committed(rt: HostRuntime) -> Result<(), Fail> {
    let alloc = rt.alloc();
    let red: Option<&[u8]> = Some(b"red");
    let open_one = [log(1, &WORKED), log(2, &LOSER)];
    // The slots of page 0 have LSNs 2 and 4.
    let twin = [
        log(1, &WORKED),
        log(2, &LOSER),
        bytes_at(0, 0, &RED_AT_2),
        bytes_at(0, 1_019, &ENTRY),
        bytes_at(0, 1_025, &TAN_AT_4),
        bytes_at(0, 2_044, &ENTRY),
    ];
    let undone = [log(3, &UNDONE)];
    let checked = [
        bytes_at(1, 0, &OLD_SLOT),
        bytes_at(1, 65, &NEW_SLOT),
        log(1, &THREE_GROUPS),
    ];
    let full = [
        bytes_at(5, 0, &MASTER),
        bytes_at(5, 25, &[0x6e]),
        bytes_at(5, 130 + 1_048_430, &NO_ROOM),
    ];
    // The values of slot 0 of the pages 0, 1 and 2; of page 0 the LSN of the disk image and the RecLSN; the counts of the
    // masters of logs 1 and 5.
    let cases: [(&[Patch], [Option<&[u8]>; 3], u64, Option<u64>, [u64; 2]); 6] = [
        (&[], [None, None, None], 0, None, [0, 0]),
        (&open_one, [red, None, None], 0, Some(2), [0, 0]),
        (&twin, [red, None, None], 4, Some(5), [0, 0]),
        (&undone, [None, None, red], 0, None, [0, 0]),
        (&checked, [red, None, None], 0, Some(2), [2, 0]),
        (&full, [None, None, None], 0, None, [0, 1]),
    ];
    for (n, (patches, values, disk, rec, counts)) in cases.iter().enumerate() {
        let stood = Stood {
            values: *values,
            disk: *disk,
            rec: *rec,
            counts: *counts,
        };
        assert!(rt; stand(alloc, patches, &stood)?, "case {n}");
    }
    Ok(())
}

// The device and the place of what isn't sound; `None` of sound devices.
fn damage(alloc: Global, patches: &[Patch<'_>]) -> Result<Option<(u8, u64)>, Refusal> {
    let devices = devices(alloc, patches)?;
    match recovered(alloc, &devices) {
        Err(Refusal::Damaged { dev, at }) => Ok(Some((dev, at))),
        Err(e) => Err(e),
        Ok(_) => Ok(None),
    }
}

// An open gate, and a byte that no page and no master has there.
const GATE: [u8; 1] = [0xa5];

const STRAY: [u8; 1] = [1];

#[test]
fn the_first_check_that_fails_is_told(rt: HostRuntime) -> Result<(), Fail> {
    let none = bytes_at(9, 0, &[]);
    let second = bytes_at(0, 1_025, &GATE);
    let ill_formed = bytes_at(0, 2_025, &STRAY);
    let start = bytes_at(5, 25, &[0x6f]);
    let full = bytes_at(5, 130 + 1_048_431, &NO_ROOM);
    let cases: [([Patch; 3], (u8, u64)); 18] = [
        (
            [bytes_at(2, 0, &GATE), bytes_at(2, 65, &GATE), none],
            (2, 0),
        ),
        ([bytes_at(4, 0, &GATE), none, none], (4, 0)),
        ([log(1, &[0xa5, 0, 0, 0, 8]), none, none], (1, 130)),
        ([log(1, &[0xa5, 0, 0, 0, 13, 9]), none, none], (1, 135)),
        ([log(1, &FOREIGN), none, none], (1, 153)),
        ([log(1, &FOREIGN_AND_OPEN), none, none], (1, 153)),
        ([log(1, &LOW_AND_NINES), none, none], (1, 153)),
        ([log(1, &UNLINKED), none, none], (1, 153)),
        ([log(1, &BEHIND_COMMIT), none, none], (1, 153)),
        ([log(1, &BEHIND_COMMIT_AND_CLR), none, none], (1, 153)),
        ([log(1, &UNLINKED_AND_CLR), none, none], (1, 153)),
        ([log(1, &TWO_UNLINKED), none, none], (1, 153)),
        ([bytes_at(0, 0, &GATE), second, ill_formed], (0, 0)),
        ([second, ill_formed, none], (0, 1_025)),
        ([bytes_at(0, 3_075, &GATE), none, none], (0, 3_075)),
        ([log(1, &UNFOUND), none, none], (1, 153)),
        ([log(1, &UNCLOSED), log(2, &SECOND), none], (1, 153)),
        ([bytes_at(5, 0, &MASTER), start, full], (5, 1_048_628)),
    ];
    for (n, (patches, place)) in cases.iter().enumerate() {
        assert_eq!(rt; damage(rt.alloc(), patches)?, Some(*place), "case {n}");
    }
    Ok(())
}

#[test]
fn a_damaged_byte_is_told_with_its_place(rt: HostRuntime) -> Result<(), Fail> {
    let cases: [(&str, usize, u8, u64); 11] = [
        ("equal counts", 73, 1, 0),
        ("area 1", 9, 1, 0),
        ("a start place at the area's end", 88, 0x10, 0),
        ("a byte behind the fields", 26, 1, 0),
        ("a checkpoint that isn't kept", 86, 6, 0),
        ("a length of 8", 152, 8, 148),
        ("a type that isn't one", 135, 8, 135),
        ("an LSN that doesn't rise", 161, 1, 153),
        ("another instance's transaction", 162, 2, 153),
        ("an epoch above the Start's", 166, 2, 153),
        ("a Start of the same epoch", 267, 1, 255),
    ];
    for (name, at, byte, place) in cases {
        let damaged = [byte];
        let patches = [
            bytes_at(1, 0, &OLD_SLOT),
            bytes_at(1, 65, &NEW_SLOT),
            log(1, &THREE_GROUPS),
            bytes_at(1, at, &damaged),
        ];
        assert_eq!(rt; damage(rt.alloc(), &patches)?, Some((1, place)), "{name}");
    }
    Ok(())
}

// Whether the table has at most the record of slot 0 of page 0, and with that byte of the worked log flipped: the log has one
// copy of the page's number and of the value, which are taken as they read.
fn is_near(at: usize, table: &Table) -> bool {
    let others = (0..2048u16).any(|n| n > 0 && value(table, n / 2, n % 2).is_some());
    match value(table, 0, 0) {
        None => at == 52 || !others,
        Some(found) => !others && (found == b"red".as_slice() || at >= 61 && at < 64),
    }
}

// Whether the worked log with this byte flipped is found damaged, or stands for such a table.
fn costs_a_group_at_most(alloc: Global, at: usize) -> Result<bool, Refusal>
    requires { at < 90 }
{
    let mut bytes = WORKED;
    bytes[at] = !bytes[at];
    let devices = devices(alloc, &[log(1, &bytes)])?;
    match recovered(alloc, &devices) {
        Ok(table) => Ok(is_near(at, &table)),
        Err(Refusal::Damaged { .. }) => Ok(true),
        Err(e) => Err(e),
    }
}

#[test]
fn a_flipped_byte_is_found_or_costs_a_group_at_most(rt: HostRuntime) -> Result<(), Fail> {
    for at in 0..WORKED.len() {
        assert!(rt; costs_a_group_at_most(rt.alloc(), at)?, "{at}");
    }
    Ok(())
}
