//! What a command code acts on.

/// What a command code acts on.
#[derive(Clone, Copy, Debug, PartialEq, Eq)]
pub enum Scope {
    /// The whole device, whatever page the packet names.
    Device,
    /// One output, which a page names.
    Output,
}
