//! Where a log stands on its device, and how far its numbers go.

use sd_base::Lsn;

/// The place of the area on its device, in bytes.
pub const AREA: u32 = 130;

/// The length of the area, in bytes.
pub const AREA_LEN: u32 = 1_048_576;

/// The bytes of a group in front of its body: the gate and the length.
pub const GROUP_HEAD: usize = 5;

/// A compensation record without a value, in bytes.
pub const CLR_LEN: usize = 42;

/// A Commit or an End, in bytes.
pub const END_LEN: usize = 26;

/// The body of a master's slot, in bytes.
pub const MASTER_BODY: usize = 64;

/// The greatest LSN of a record, 2^62 - 1.
pub const MAX_LSN: Lsn = (1 << 62) - 1;
