//! How many slashes a line has.

/// How many slashes a line of a trace has.
#[derive(Clone, Copy, Debug)]
pub(crate) enum Slashes {
    /// None: its write part goes on.
    None,
    /// One: its read part goes on.
    One,
    /// More than a line may have.
    More,
}

impl Slashes {
    ghost use Rattle.std.specs.Prelude.{◌≡◌};
    ghost use Rattle.pm_trace.specs.OpenLines.{one_slash_more};

    /// One more.
    pub(crate) fn more(self) -> Slashes
        ensures { result ≡ one_slash_more self }
    {
        match self {
            Slashes::None => Slashes::One,
            Slashes::One | Slashes::More => Slashes::More,
        }
    }
}
