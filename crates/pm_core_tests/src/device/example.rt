//! The example of the root of `pm_device`, word for word.

use pm_device::{Config, ConfigFault, Converter, Ending, OutputStart};
use pm_table::{Cell, Coefficients, Reg};

fn heard() -> Result<u16, ConfigFault> {
    let start = OutputStart {
        mode: 0x14,
        operation: 0x80,
        command: 0x1000,
        max: 0x4000,
        high: 0x1100,
        low: 0x0F00,
        ..OutputStart::NONE
    };
    let mut converter = Converter::new(Config {
        addr: 0x58,
        count: 2,
        starts: [start; 8],
        protect: 0x00,
        coefficients: Coefficients { m: 1, b: 0, r: 0 },
    })?;
    let write = [0xB0, 0x05, 0x04, 0x00, 0x21, 0xCD, 0x34, 0x5A];
    converter.hear(&write, Ending::Stop); // Heard::Taken
    let request = [0xB0, 0x06, 0x02, 0x00, 0x21];
    converter.hear(&request, Ending::Restart); // Heard::Answer, B1 02 CD 34 B9
    Ok(converter.word(Cell::Out(0, Reg::VoutCommand))) // 34CDh
}

#[test]
fn the_example_of_the_root_runs(rt: HostRuntime) {
    assert_eq!(rt; heard(), Ok(0x34CD));
}
