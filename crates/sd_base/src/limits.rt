//! How many pages there are, and how much a page and a slot hold.

/// The pages of a complex, of the numbers 0 to 1,023.
pub const PAGES: u16 = 1024;

/// The most slots of a page.
pub const MAX_SLOTS: u16 = 168;

/// The greatest capacity of a slot, and length of a value, in bytes.
pub const MAX_CAPACITY: u16 = 256;

/// The length that stands for no value, in the entry of a slot and in a record of a log.
pub const NO_VALUE: u16 = 65535;
