//! The numbers that calls answer, beside those of faults.

/// Nothing is refused.
pub const ACCEPTED: u8 = 0;

/// The memory holds no host.
pub const NO_HOST: u8 = 0xE0;

/// The command code is no cell's.
pub const NO_CELL: u8 = 0xE1;

/// A frame of the other kind is being sent, or none.
pub const OTHER_FRAME: u8 = 0xE2;

/// No device has this address.
pub const NO_ADDRESS: u8 = 0xE3;

/// The numbers mean no packet that there is.
pub const NO_PACKET: u8 = 0xE4;

/// The output has no limits.
pub const NO_LIMITS: u8 = 0xE6;

/// The number has no name.
pub const NO_NAME: u8 = 0xE7;

/// The memory holds no course.
pub const NO_COURSE: u8 = 0xE9;

/// Another than the output's registers may decide its voltage.
pub const NO_BAND: u8 = 0xEB;

/// Nothing was heard of the rail.
pub const NO_DELIVERY: u8 = 0xEC;

/// The course has no goal of this register.
pub const NO_GOAL: u8 = 0xED;

/// An output's voltage lies within its limits.
pub const WITHIN_YES: u8 = 0x91;

/// It lies outside them.
pub const WITHIN_NO: u8 = 0x92;

/// It isn't known.
pub const WITHIN_NOT_KNOWN: u8 = 0x93;

/// A course has ended.
pub const ENDED: u8 = 0x95;

/// The numbers mean no step, or there is none to leave.
pub const NO_STEP: u8 = 0xEF;

/// There is less room than there are steps.
pub const NO_ROOM: u8 = 0xEA;

/// A sequence is to be asked again.
pub const AGAIN: u8 = 0x96;

/// The way back of a step would be refused.
pub const NO_WAY_BACK: u8 = 0x97;

/// Time is to pass before a sequence is asked again.
pub const WAIT: u8 = 0x98;

/// An order comes next.
pub const ASKED: u8 = 0x99;

/// What became of a step is said.
pub const TOLD: u8 = 0x9A;

/// The memory holds no sequence.
pub const NO_SEQUENCE: u8 = 0xF0;
