//! The bytes of logs and masters, by hand from their formats.

// Two groups: the start of epoch 1, and transaction 1.1.1, which puts `red` into slot 0 of page 0 and commits.
pub(crate) const WORKED: [u8; 90] = [
    0xa5, 0, 0, 0, 0x0d, 1, 0, 0, 0, 0, 0, 0, 0, 1, 0, 0, 0, 1, 0xa5, 0, 0, 0, 0x43, 2, 0, 0, 0, 0,
    0, 0, 0, 2, 1, 0, 0, 0, 1, 0, 0, 0, 1, 0, 0, 0, 0, 0, 0, 0, 0, 0, 0, 0, 0, 0, 0, 0, 3, 0xff,
    0xff, 0, 3, 0x72, 0x65, 0x64, 4, 0, 0, 0, 0, 0, 0, 0, 3, 1, 0, 0, 0, 1, 0, 0, 0, 1, 0, 0, 0, 0,
    0, 0, 0, 2,
];

// Instance 2: transaction 2.1.1 changes `red` to `tan` and then to `sky`, inserts on page 1, and isn't closed.
pub(crate) const LOSER: [u8; 152] = [
    0xa5, 0, 0, 0, 0x0d, 1, 0, 0, 0, 0, 0, 0, 0, 1, 0, 0, 0, 1, 0xa5, 0, 0, 0, 0x81, 2, 0, 0, 0, 0,
    0, 0, 0, 4, 2, 0, 0, 0, 1, 0, 0, 0, 1, 0, 0, 0, 0, 0, 0, 0, 0, 0, 0, 0, 0, 0, 0, 0, 3, 0, 3,
    0x72, 0x65, 0x64, 0, 3, 0x74, 0x61, 0x6e, 2, 0, 0, 0, 0, 0, 0, 0, 5, 2, 0, 0, 0, 1, 0, 0, 0, 1,
    0, 0, 0, 0, 0, 0, 0, 4, 0, 0, 0, 0, 0, 0, 0, 3, 0, 3, 0x74, 0x61, 0x6e, 0, 3, 0x73, 0x6b, 0x79,
    2, 0, 0, 0, 0, 0, 0, 0, 6, 2, 0, 0, 0, 1, 0, 0, 0, 1, 0, 0, 0, 0, 0, 0, 0, 5, 0, 0, 0, 1, 0, 0,
    0, 3, 0xff, 0xff, 0, 3, 0x6e, 0x65, 0x77,
];

// Instance 2: transaction 2.1.1 changes `red` to `tan`, and isn't closed.
pub(crate) const SECOND: [u8; 67] = [
    0xa5, 0, 0, 0, 0x0d, 1, 0, 0, 0, 0, 0, 0, 0, 1, 0, 0, 0, 1, 0xa5, 0, 0, 0, 0x2c, 2, 0, 0, 0, 0,
    0, 0, 0, 3, 2, 0, 0, 0, 1, 0, 0, 0, 1, 0, 0, 0, 0, 0, 0, 0, 0, 0, 0, 0, 0, 0, 0, 0, 3, 0, 3,
    0x72, 0x65, 0x64, 0, 3, 0x74, 0x61, 0x6e,
];

// Instance 1: transaction 1.1.1 inserts `red`, and isn't closed.
pub(crate) const UNCLOSED: [u8; 64] = [
    0xa5, 0, 0, 0, 0x0d, 1, 0, 0, 0, 0, 0, 0, 0, 1, 0, 0, 0, 1, 0xa5, 0, 0, 0, 0x29, 2, 0, 0, 0, 0,
    0, 0, 0, 2, 1, 0, 0, 0, 1, 0, 0, 0, 1, 0, 0, 0, 0, 0, 0, 0, 0, 0, 0, 0, 0, 0, 0, 0, 3, 0xff,
    0xff, 0, 3, 0x72, 0x65, 0x64,
];

// A commit of another instance's transaction.
pub(crate) const FOREIGN: [u8; 49] = [
    0xa5, 0, 0, 0, 0x0d, 1, 0, 0, 0, 0, 0, 0, 0, 1, 0, 0, 0, 1, 0xa5, 0, 0, 0, 0x1a, 4, 0, 0, 0, 0,
    0, 0, 0, 2, 2, 0, 0, 0, 1, 0, 0, 0, 1, 0, 0, 0, 0, 0, 0, 0, 0,
];

// A transaction whose first record names a former one.
pub(crate) const UNLINKED: [u8; 64] = [
    0xa5, 0, 0, 0, 0x0d, 1, 0, 0, 0, 0, 0, 0, 0, 1, 0, 0, 0, 1, 0xa5, 0, 0, 0, 0x29, 2, 0, 0, 0, 0,
    0, 0, 0, 2, 1, 0, 0, 0, 1, 0, 0, 0, 1, 0, 0, 0, 0, 0, 0, 0, 1, 0, 0, 0, 0, 0, 0, 0, 3, 0xff,
    0xff, 0, 3, 0x72, 0x65, 0x64,
];

// A transaction that goes on behind its commit.
pub(crate) const BEHIND_COMMIT: [u8; 75] = [
    0xa5, 0, 0, 0, 0x0d, 1, 0, 0, 0, 0, 0, 0, 0, 1, 0, 0, 0, 1, 0xa5, 0, 0, 0, 0x34, 4, 0, 0, 0, 0,
    0, 0, 0, 2, 1, 0, 0, 0, 1, 0, 0, 0, 1, 0, 0, 0, 0, 0, 0, 0, 0, 5, 0, 0, 0, 0, 0, 0, 0, 3, 1, 0,
    0, 0, 1, 0, 0, 0, 1, 0, 0, 0, 0, 0, 0, 0, 2,
];

// The same, with an undo of nothing by another one between.
pub(crate) const BEHIND_COMMIT_AND_CLR: [u8; 117] = [
    0xa5, 0, 0, 0, 0x0d, 1, 0, 0, 0, 0, 0, 0, 0, 1, 0, 0, 0, 1, 0xa5, 0, 0, 0, 0x5e, 4, 0, 0, 0, 0,
    0, 0, 0, 2, 1, 0, 0, 0, 1, 0, 0, 0, 1, 0, 0, 0, 0, 0, 0, 0, 0, 3, 0, 0, 0, 0, 0, 0, 0, 3, 1, 0,
    0, 0, 1, 0, 0, 0, 2, 0, 0, 0, 0, 0, 0, 0, 0, 0, 0, 0, 0, 0, 0, 0, 0, 0, 0, 0, 0, 0, 0, 0xff,
    0xff, 5, 0, 0, 0, 0, 0, 0, 0, 4, 1, 0, 0, 0, 1, 0, 0, 0, 1, 0, 0, 0, 0, 0, 0, 0, 2,
];

// A transaction whose first record names a former one, in front of an undo of nothing.
pub(crate) const UNLINKED_AND_CLR: [u8; 106] = [
    0xa5, 0, 0, 0, 0x0d, 1, 0, 0, 0, 0, 0, 0, 0, 1, 0, 0, 0, 1, 0xa5, 0, 0, 0, 0x53, 2, 0, 0, 0, 0,
    0, 0, 0, 2, 1, 0, 0, 0, 1, 0, 0, 0, 1, 0, 0, 0, 0, 0, 0, 0, 7, 0, 0, 0, 0, 0, 0, 0, 3, 0xff,
    0xff, 0, 3, 0x72, 0x65, 0x64, 3, 0, 0, 0, 0, 0, 0, 0, 3, 1, 0, 0, 0, 1, 0, 0, 0, 2, 0, 0, 0, 0,
    0, 0, 0, 0, 0, 0, 0, 0, 0, 0, 0, 0, 0, 0, 0, 0, 0, 0, 0xff, 0xff,
];

// Two transactions whose first records name former ones, that of the greater number in front.
pub(crate) const TWO_UNLINKED: [u8; 105] = [
    0xa5, 0, 0, 0, 0x0d, 1, 0, 0, 0, 0, 0, 0, 0, 1, 0, 0, 0, 1, 0xa5, 0, 0, 0, 0x52, 2, 0, 0, 0, 0,
    0, 0, 0, 2, 1, 0, 0, 0, 1, 0, 0, 0, 2, 0, 0, 0, 0, 0, 0, 0, 7, 0, 0, 0, 0, 0, 0, 0, 3, 0xff,
    0xff, 0, 3, 0x72, 0x65, 0x64, 2, 0, 0, 0, 0, 0, 0, 0, 3, 1, 0, 0, 0, 1, 0, 0, 0, 1, 0, 0, 0, 0,
    0, 0, 0, 7, 0, 0, 0, 0, 0, 0, 0, 3, 0xff, 0xff, 0, 3, 0x72, 0x65, 0x64,
];

// A commit of another instance's transaction, in front of a gate without a length.
pub(crate) const FOREIGN_AND_OPEN: [u8; 50] = [
    0xa5, 0, 0, 0, 0x0d, 1, 0, 0, 0, 0, 0, 0, 0, 1, 0, 0, 0, 1, 0xa5, 0, 0, 0, 0x1a, 4, 0, 0, 0, 0,
    0, 0, 0, 2, 2, 0, 0, 0, 1, 0, 0, 0, 1, 0, 0, 0, 0, 0, 0, 0, 0, 0xa5,
];

// A commit whose LSN does not rise, in front of a group that holds no record.
pub(crate) const LOW_AND_NINES: [u8; 63] = [
    0xa5, 0, 0, 0, 0x0d, 1, 0, 0, 0, 0, 0, 0, 0, 1, 0, 0, 0, 1, 0xa5, 0, 0, 0, 0x1a, 4, 0, 0, 0, 0,
    0, 0, 0, 1, 1, 0, 0, 0, 1, 0, 0, 0, 1, 0, 0, 0, 0, 0, 0, 0, 0, 0xa5, 0, 0, 0, 9, 9, 9, 9, 9, 9,
    9, 9, 9, 9,
];

// A change of a value that its page doesn't have.
pub(crate) const UNFOUND: [u8; 67] = [
    0xa5, 0, 0, 0, 0x0d, 1, 0, 0, 0, 0, 0, 0, 0, 1, 0, 0, 0, 1, 0xa5, 0, 0, 0, 0x2c, 2, 0, 0, 0, 0,
    0, 0, 0, 2, 1, 0, 0, 0, 1, 0, 0, 0, 1, 0, 0, 0, 0, 0, 0, 0, 0, 0, 0, 0, 0, 0, 0, 0, 3, 0, 3,
    0x74, 0x61, 0x6e, 0, 3, 0x72, 0x65, 0x64,
];

// Behind the place 1,048,476: an open change and a checkpoint's end, and no room to undo the change.
pub(crate) const NO_ROOM: [u8; 67] = [
    0xa5, 0, 0, 0, 0x3e, 2, 0, 0, 0, 0, 0, 0, 0, 1, 5, 0, 0, 0, 1, 0, 0, 0, 1, 0, 0, 0, 0, 0, 0, 0,
    0, 0, 0, 0, 3, 0, 0, 0, 3, 0xff, 0xff, 0, 3, 0x72, 0x65, 0x64, 7, 0, 0, 0, 0, 0, 0, 0, 2, 0, 0,
    0, 0, 0, 0, 0, 1, 0, 0, 0, 0,
];

// A master of epoch 1 that names the checkpoint's end of LSN 2 and the start place 1,048,476.
pub(crate) const MASTER: [u8; 26] = [
    0xa5, 0, 0, 0, 0, 0, 0, 0, 1, 0, 0, 0, 0, 1, 0, 0, 0, 0, 0, 0, 0, 2, 0, 0x0f, 0xff, 0x9c,
];

// Three groups: the start of epoch 1; transaction 1.1.1, which puts `red` into slot 0 of page 0 and commits; a checkpoint
// and the start of epoch 2.
pub(crate) const THREE_GROUPS: [u8; 138] = [
    0xa5, 0, 0, 0, 13, 1, 0, 0, 0, 0, 0, 0, 0, 1, 0, 0, 0, 1, //
    0xa5, 0, 0, 0, 67, 2, 0, 0, 0, 0, 0, 0, 0, 2, 1, 0, 0, 0, 1, 0, 0, 0, 1, 0, 0, 0, 0, 0, 0, 0,
    0, 0, 0, 0, 0, 0, 0, 0, 3, 0xff, 0xff, 0, 3, 0x72, 0x65, 0x64, //
    4, 0, 0, 0, 0, 0, 0, 0, 3, 1, 0, 0, 0, 1, 0, 0, 0, 1, 0, 0, 0, 0, 0, 0, 0, 2, //
    0xa5, 0, 0, 0, 43, 6, 0, 0, 0, 0, 0, 0, 0, 4, //
    7, 0, 0, 0, 0, 0, 0, 0, 5, 0, 0, 0, 0, 0, 0, 0, 4, 0, 0, 0, 0, //
    1, 0, 0, 0, 0, 0, 0, 0, 6, 0, 0, 0, 2,
];

// A slot with count 1, and one with count 2, epoch 1, the checkpoint that ended at LSN 5, and start place 0.
pub(crate) const OLD_SLOT: [u8; 9] = [0xa5, 0, 0, 0, 0, 0, 0, 0, 1];

pub(crate) const NEW_SLOT: [u8; 26] = [
    0xa5, 0, 0, 0, 0, 0, 0, 0, 2, 0, 0, 0, 0, 1, 0, 0, 0, 0, 0, 0, 0, 5, 0, 0, 0, 0,
];

// Instance 3: transaction 3.1.1 puts `red` into slot 0 of page 2, changes it to `tan`, undoes that and commits.
pub(crate) const UNDONE: [u8; 179] = [
    165, 0, 0, 0, 13, 1, 0, 0, 0, 0, 0, 0, 0, 1, 0, 0, 0, 1, 165, 0, 0, 0, 156, 2, 0, 0, 0, 0, 0,
    0, 0, 7, 3, 0, 0, 0, 1, 0, 0, 0, 1, 0, 0, 0, 0, 0, 0, 0, 0, 0, 0, 0, 2, 0, 0, 0, 3, 255, 255,
    0, 3, 114, 101, 100, 2, 0, 0, 0, 0, 0, 0, 0, 8, 3, 0, 0, 0, 1, 0, 0, 0, 1, 0, 0, 0, 0, 0, 0, 0,
    7, 0, 0, 0, 2, 0, 0, 0, 3, 0, 3, 114, 101, 100, 0, 3, 116, 97, 110, 3, 0, 0, 0, 0, 0, 0, 0, 9,
    3, 0, 0, 0, 1, 0, 0, 0, 1, 0, 0, 0, 0, 0, 0, 0, 8, 0, 0, 0, 0, 0, 0, 0, 7, 0, 0, 0, 2, 0, 0, 0,
    3, 114, 101, 100, 4, 0, 0, 0, 0, 0, 0, 0, 10, 3, 0, 0, 0, 1, 0, 0, 0, 1, 0, 0, 0, 0, 0, 0, 0,
    9,
];

// The gate and the front of page 0 at LSN 4, with `tan` in its one slot.
pub(crate) const TAN_AT_4: [u8; 20] = [
    165, 0, 0, 0, 0, 0, 0, 0, 4, 0, 0, 0, 0, 0, 1, 0, 19, 116, 97, 110,
];

// The gate and the front of page 0 at LSN 2, with `red` in its one slot.
pub(crate) const RED_AT_2: [u8; 20] = [
    165, 0, 0, 0, 0, 0, 0, 0, 2, 0, 0, 0, 0, 0, 1, 0, 19, 114, 101, 100,
];

// The entry of the one slot, which ends an image.
pub(crate) const ENTRY: [u8; 6] = [0, 16, 0, 3, 0, 3];
