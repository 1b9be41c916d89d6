//! Whether a decoder takes bytes.

use pm_lines::TextFault;

/// Whether a decoder takes bytes.
#[derive(Clone, Copy, Debug)]
pub(crate) enum Intake {
    /// It takes bytes.
    Open,
    /// All bytes were taken.
    Finished,
    /// It refused, and repeats that from then on.
    Failed(TextFault),
}
