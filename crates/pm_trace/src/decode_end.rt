//! How a decoding ended.

/// How `decode` ended.
#[derive(Clone, Copy, Debug, PartialEq, Eq)]
pub enum DecodeEnd {
    /// Each line was read: none is X1 or X2.
    Clean,
    /// A line is X1 or X2. What could be read was written, and these lines by their letters.
    BadLines,
}
