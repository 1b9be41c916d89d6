//! The numbers that calls answer.

/// Nothing is refused.
pub const ACCEPTED: u8 = 0;

/// H4, the output isn't there.
pub const NO_OUTPUT: u8 = 4;

/// The part is silent: the frame is for another device.
pub const SILENT: u8 = 0x81;

/// The part took a write.
pub const TAKEN: u8 = 0x82;

/// The part answers a read.
pub const ANSWERED: u8 = 0x83;

/// The command code is no cell's, or of no cell that is stored.
pub const NO_CELL: u8 = 0xE1;

/// The memory holds no part.
pub const NO_PART: u8 = 0xE5;

/// The command code is no reading's.
pub const NO_READING: u8 = 0xE8;
