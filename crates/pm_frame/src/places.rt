//! The places of a packet's bytes, from place 0, the address with its direction.

/// The code, in a packet of the host.
pub(crate) const CODE: usize = 1;

/// The first byte of a plain write's payload, if it has one.
pub(crate) const PAYLOAD: usize = 2;

/// The count, if a packet of the host has one.
pub(crate) const COUNT: usize = 2;

/// The page in PAGE_PLUS, and the code that is asked about in COEFFICIENTS.
pub(crate) const PAGE: usize = 3;

/// The carried code in PAGE_PLUS, and the side in COEFFICIENTS.
pub(crate) const CARRIED: usize = 4;

/// The first byte of a carried payload, if there is one.
pub(crate) const CARRIED_PAYLOAD: usize = 5;

/// The count, if an answer has one.
pub(crate) const ANSWER_COUNT: usize = 1;
