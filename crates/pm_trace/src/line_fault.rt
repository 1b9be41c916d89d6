//! Why a line of a trace can't be read.

/// Why a trace line can't be read.
#[derive(Clone, Copy, Debug)]
pub enum LineFault {
    /// It has a second slash, or a part that is too long.
    Syntax,
    /// It has a word that isn't an even number of hexadecimal digits.
    BadHex,
}
