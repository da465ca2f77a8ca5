//! Devices whose bytes are written by hand, from their formats: near the end of LSNs, of epochs and of a log.

ghost use Rattle.std.specs.Prelude.{◌≡◌};

use crate::lines::Ask::{
    Alone, Begin, Commit, Fail as Falls, Insert, Join, List, RecoverBy, RecoverStep, Rollback,
    Show, Undo, Write,
};
use crate::lines::Say::{At, Began, Did, Finished, Have, Joined, No, Rows, Shown, Step};
use crate::lines::Spot::{Changed, Free, Lost};
use crate::lines::Why::{LogFull, LsnEnd, NeedPage, NotRecovered};
use crate::lines::{AGAIN, BESIDE, Line, ONE, TWO, Who};
use sd_rig::{MemRig, Rig, device_len};
use std::test::Fail;

/// Bytes at a place of a device.
#[derive(Clone, Copy)]
pub struct Patch {
    dev: u8,
    at: u32,
    bytes: &'static [u8],
}

/// Where a log's groups begin, in bytes.
const GROUPS_AT: u32 = 130;

/// The greatest LSN.
const GREATEST_LSN: u64 = (1 << 62) - 1;

/// The Start of epoch 1, whose LSN is four below the greatest.
pub static HIGH: &[Patch] = &[Patch {
    dev: 1,
    at: GROUPS_AT,
    bytes: &[
        0xa5, 0, 0, 0, 13, 1, 0x3f, 0xff, 0xff, 0xff, 0xff, 0xff, 0xff, 0xfb, 0, 0, 0, 1,
    ],
}];

/// The LSNs that are left go to a Start, a change, and what was owed for that: its undo and its transaction's End.
pub static LAST_LSNS: &[Line] = &[
    (ONE, Join, Joined(2)),
    (ONE, Begin, Began(AGAIN)),
    (ONE, Begin, Began(BESIDE)),
    (ONE, Alone(0), Have),
    (AGAIN, Insert(0, b"red", 3), At(0)),
    (ONE, Show(0), Shown(Changed(ONE), GREATEST_LSN - 2)),
    (AGAIN, Write(0, b"tan"), No(LsnEnd)),
    (BESIDE, Insert(0, b"tan", 3), No(LsnEnd)),
    (TWO, Join, No(LsnEnd)),
    (AGAIN, Rollback, Did),
    (AGAIN, Undo, Step),
    (AGAIN, Undo, Finished),
    (ONE, Show(0), Shown(Changed(ONE), GREATEST_LSN - 1)),
    (BESIDE, Insert(0, b"tan", 3), No(LsnEnd)),
    // A transaction without a record takes no LSN.
    (BESIDE, Commit, Did),
    (ONE, List(0), Rows(&[])),
    (ONE, Begin, Began(Who(1, 2, 3))),
    (ONE, Falls, Did),
    (ONE, Show(0), Shown(Lost, 0)),
    (ONE, RecoverBy(ONE), Did),
    (ONE, RecoverStep, Step),
    (ONE, RecoverStep, Step),
    (ONE, RecoverStep, Step),
    (ONE, RecoverStep, Finished),
    (ONE, Show(0), Shown(Free, 0)),
    (ONE, Join, No(LsnEnd)),
];

/// Page 0 has the greatest LSN, and `red` in its one slot; the logs are blank.
pub static HIGH_PAGE: &[Patch] = &[
    Patch {
        dev: 0,
        at: 0,
        bytes: &[
            0xa5, 0x3f, 0xff, 0xff, 0xff, 0xff, 0xff, 0xff, 0xff, 0, 0, 0, 0, 0, 1, 0, 19, 0x72,
            0x65, 0x64,
        ],
    },
    Patch {
        dev: 0,
        at: 1_019,
        bytes: &[0, 16, 0, 3, 0, 3],
    },
];

pub static NO_LSN: &[Line] = &[(ONE, Show(0), Shown(Free, 0)), (ONE, Join, No(LsnEnd))];

/// A checkpoint of the last epoch: its two records are LSNs 1 and 2.
pub static LAST_EPOCH: &[Patch] = &[
    Patch {
        dev: 1,
        at: 0,
        bytes: &[
            0xa5, 0, 0, 0, 0, 0, 0, 0, 1, 0, 0xff, 0xff, 0xff, 0xff, 0, 0, 0, 0, 0, 0, 0, 2, 0, 0,
            0, 0,
        ],
    },
    Patch {
        dev: 1,
        at: GROUPS_AT,
        bytes: &[
            0xa5, 0, 0, 0, 30, 6, 0, 0, 0, 0, 0, 0, 0, 1, 7, 0, 0, 0, 0, 0, 0, 0, 2, 0, 0, 0, 0, 0,
            0, 0, 1, 0, 0, 0, 0,
        ],
    },
];

pub static NO_EPOCH: &[Line] = &[
    (ONE, Join, No(LsnEnd)),
    (TWO, Join, Joined(1)),
    (TWO, Begin, Began(Who(2, 1, 1))),
];

/// A log that begins 146 bytes before its area's end: 1.1.1 puts `red` into slot 0 of page 0, and a checkpoint ends. What is left
/// is for the undo and the End.
pub static FULL: &[Patch] = &[
    Patch {
        dev: 1,
        at: 0,
        bytes: &[
            0xa5, 0, 0, 0, 0, 0, 0, 0, 1, 0, 0, 0, 0, 1, 0, 0, 0, 0, 0, 0, 0, 2, 0, 0x0f, 0xff,
            0x6e,
        ],
    },
    Patch {
        dev: 1,
        at: GROUPS_AT + 1_048_430,
        bytes: &[
            0xa5, 0, 0, 0, 0x3e, 2, 0, 0, 0, 0, 0, 0, 0, 1, 1, 0, 0, 0, 1, 0, 0, 0, 1, 0, 0, 0, 0,
            0, 0, 0, 0, 0, 0, 0, 0, 0, 0, 0, 3, 0xff, 0xff, 0, 3, 0x72, 0x65, 0x64, 7, 0, 0, 0, 0,
            0, 0, 0, 2, 0, 0, 0, 0, 0, 0, 0, 1, 0, 0, 0, 0,
        ],
    },
];

pub static FULL_LOG: &[Line] = &[
    (ONE, Join, No(NotRecovered)),
    (ONE, Show(0), Shown(Lost, 0)),
    // Where a page is lost, each instance is down.
    (TWO, Join, No(NotRecovered)),
    (TWO, RecoverBy(TWO), Did),
    (TWO, RecoverStep, Step),
    (TWO, RecoverStep, Step),
    (TWO, RecoverStep, Step),
    (TWO, RecoverStep, Finished),
    (ONE, Show(0), Shown(Free, 0)),
    (TWO, Join, Joined(1)),
    (ONE, RecoverBy(TWO), Did),
    (ONE, RecoverStep, Step),
    (ONE, RecoverStep, Step),
    (ONE, RecoverStep, No(NeedPage(Free))),
    (TWO, Alone(0), Have),
    (ONE, RecoverStep, Step),
    (ONE, RecoverStep, Step),
    (ONE, RecoverStep, Finished),
    (ONE, Join, No(LogFull)),
    (TWO, List(0), Rows(&[])),
];

/// Writes the bytes.
pub fn written(rig: &mut MemRig, patches: &[Patch]) -> Result<(), Fail> {
    for n in 0..patches.len() {
        let Patch { dev, at, bytes } = patches[n];
        let Some(end) = (at as usize).checked_add(bytes.len()) else {
            return Err("an end past all numbers".into());
        };
        if dev > 8 || end > device_len(dev) as usize {
            return Err("a place outside the devices".into());
        }
        if rig.write(dev, at, bytes).is_err() {
            return Err("no write".into());
        }
    }
    Ok(())
}
