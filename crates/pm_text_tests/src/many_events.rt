//! More events than memory is taken for at first.

use crate::checks::equal;
use pm_text::read_scenario;
use pm_world::Event;
use std::test::Fail;

#[test]
fn each_of_a_hundred_events_is_read(rt: HostRuntime) -> Result<(), Fail> {
    let mut text = String::new(rt.alloc());
    text.push_str("scenario 1\naddress 58\npasses 2\nprotect 00\ncoefficients 1 0 0\n")?;
    text.push_str("output 14 80 1000 4000 1100 0F00\nbegin\n")?;
    for _ in 0..100 {
        text.push_str("restart device\n")?;
    }
    let scenario = read_scenario(rt.alloc(), text.as_str().as_bytes())?;
    let events = scenario.events.as_slice();
    equal(&rt, &events.len(), &100, &1);
    for event in events {
        equal(&rt, event, &Event::RestartDevice, &2);
    }
    Ok(())
}
