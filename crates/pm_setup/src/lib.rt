//! Why a converter and its host aren't made of what they are asked for: [`SetupFault`] has the converter's
//! refusal or the host's.
//!
//! It stands below the world, which makes both, so that a crate that only prints such a fault, as those of
//! texts do, doesn't wait for the world. `pm_world` exports it. It takes no memory.
//!
//! ```
//! fn both(config: Config, passes: u8) -> Result<(Converter, Host), SetupFault> {
//!     let (addr, outputs) = (config.addr, config.count);
//!     let converter = Converter::new(config)?; // V1 to V5: SetupFault::Device
//!     let host = Host::new(addr, outputs, passes)?; // H2 for no passes: SetupFault::Host
//!     Ok((converter, host))
//! }
//! ```
//!
//! Tests: crates/pm_world_tests
#![tactic(auto)]

mod setup_fault;

pub use setup_fault::SetupFault;
