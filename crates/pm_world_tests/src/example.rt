//! The examples of the roots of `pm_world` and `pm_setup`, word for word.

use pm_core_tests::BASE;
use pm_device::{Config, ConfigFault, Converter};
use pm_host::{Host, HostFault, JobEnd};
use pm_table::{Cell, Reg};
use pm_world::{Arrival, Back, Event, SetupFault, World};

fn ordered(config: Config) -> Result<Option<JobEnd>, SetupFault> {
    let events = [
        Event::Order(Cell::Out(0, Reg::VoutCommand), 0x34CD),
        Event::Deliver(Arrival::Cut(3)), // lost but for three bytes
        Event::Deliver(Arrival::Whole), // and repeated, whole
        Event::Finish(false), // its acknowledgement is lost
        Event::Exchange(Arrival::Whole, Back::Whole), // the cell is read back
    ];
    let (world, _) = World::run(config, 2, &events)?; // no stop: all are taken
    Ok(world.last_end()) // JobEnd::Done: the host calls 34CDh confirmed, and the converter holds it
}

#[test]
fn the_example_of_the_root_runs(rt: HostRuntime) {
    assert_eq!(rt; ordered(BASE), Ok(Some(JobEnd::Done)));
}

fn both(config: Config, passes: u8) -> Result<(Converter, Host), SetupFault> {
    let (addr, outputs) = (config.addr, config.count);
    let converter = Converter::new(config)?; // V1 to V5: SetupFault::Device
    let host = Host::new(addr, outputs, passes)?; // H2 for no passes: SetupFault::Host
    Ok((converter, host))
}

// Why the two aren't made of this configuration and these passes.
fn refused(config: Config, passes: u8) -> Option<SetupFault> {
    both(config, passes).err()
}

#[test]
fn the_example_of_the_setup_runs(rt: HostRuntime) {
    let none = Config { count: 0, ..BASE };
    assert_eq!(rt; refused(BASE, 2), None);
    assert_eq!(rt; refused(BASE, 0), Some(SetupFault::Host(HostFault::Passes)));
    assert_eq!(rt;
        refused(none, 0),
        Some(SetupFault::Device(ConfigFault::OutputCount))
    );
}
