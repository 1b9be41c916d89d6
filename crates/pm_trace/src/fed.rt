//! What one call of a decoder took of a piece.

/// What one call of `Decoder::feed` took of a piece.
#[derive(Clone, Copy, Debug, PartialEq, Eq)]
pub struct Fed {
    /// How many bytes were taken, from the piece's first: feed the rest of the piece next, until
    /// none is left.
    pub taken: usize,
    /// Whether a line ended with the last of them: `Decoder::line` shows it until the next call.
    pub ended: bool,
}

impl Fed {
    /// No byte was taken.
    pub(crate) const NOTHING: Fed = Fed {
        taken: 0,
        ended: false,
    };
}
