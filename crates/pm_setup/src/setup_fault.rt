//! Why no world is made.

ghost use Rattle.std.specs.Prelude.{◌≡◌};
ghost use Rattle.pm_setup.specs.declared.setup_fault.SetupFault.TheVariants as setups;

use pm_device::ConfigFault;
use pm_host::HostFault;
use thiserror::Error;

/// Why no world is made: the converter's fault before the host's. It is printed as that fault:
/// `V2 BadStart 0 OPERATION`, `H2 Passes`.
#[derive(Clone, Copy, Debug, PartialEq, Eq, Error)]
pub enum SetupFault {
    /// V1 to V5: the converter can't be made of this configuration.
    #[error("{0}")]
    Device(ConfigFault),
    /// H2: the host can't have that number of passes.
    #[error("{0}")]
    Host(HostFault),
}

impl From<ConfigFault> for SetupFault {
    ghost from_gives = { λ fault setup. setup ≡ setups.Device fault };

    fn from(fault: ConfigFault) -> SetupFault {
        SetupFault::Device(fault)
    }
}

impl From<HostFault> for SetupFault {
    ghost from_gives = { λ fault setup. setup ≡ setups.Host fault };

    fn from(fault: HostFault) -> SetupFault {
        SetupFault::Host(fault)
    }
}
