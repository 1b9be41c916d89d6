//! The addresses that a user names.

ghost use Rattle.std.specs.Prelude.{◌≡◌, ◌<◌};
ghost use Rattle.pm_decode.specs.Options.{is_named, no_addresses, with_address};

/// Addresses that a user names.
#[derive(Clone, Copy, Debug, PartialEq, Eq)]
pub struct Addresses {
    /// Whether each address of seven bits is named.
    pub named: [bool; 128],
    /// One is.
    pub any: bool,
}

impl Addresses {
    /// None is named.
    #[tactic(auto, unfolding(crate::specs::Options::unnamed))]
    pub fn none() -> Addresses
        ensures { result ≡ no_addresses }
    {
        Addresses {
            named: [false; 128],
            any: false,
        }
    }

    /// Whether this address, which is below 80h, is named.
    pub fn has(&self, addr: u8) -> bool
        requires { addr < 128 }
        ensures { result ≡ is_named self.now addr }
    {
        self.named[usize::from(addr)]
    }

    /// A copy with one address more, which is below 80h.
    pub fn with(&self, addr: u8) -> Addresses
        requires { addr < 128 }
        ensures { result ≡ with_address addr self.now }
    {
        let mut more = *self;
        more.named[usize::from(addr)] = true;
        more.any = true;
        more
    }
}
