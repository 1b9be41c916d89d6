//! A bus with the model converter at its other end.

ghost use Rattle.std.specs.Prelude.{◌≡◌, IfSome, MatchOption, None, Some, is_some, replicate, true};
ghost use Rattle.pm_limits.specs.declared.output_limits.OutputLimits.TheVariants.{Unlimited};
ghost use Rattle.pm_limits.specs.Part.{all_registers};
ghost use Rattle.pm_host.specs.Summary.{start};
ghost use Rattle.pm_device.specs.History.{start_of};
ghost use Rattle.pm_device.specs.Start.{config_fault};
ghost use Rattle.pm_host.specs.Refusals.{setup_fault};
ghost use Rattle.pm_world.specs.Setup.{setup_of};
ghost use Rattle.pm_driver.specs.NeverRestarts.{NeverRestarts};
ghost use Rattle.pm_driver.specs.Adapter.{IsUnheard};
ghost use Rattle.pm_driver.specs.Plan.{TurnsTo, came_end, device_in, fault_next, gives_so};
ghost use Rattle.pm_driver.specs.Plan.{restarts_of, restarts_so, tries_so, turned_by};

use crate::buses::converter_end::{ask, deliver, deliver_some, disturb};
use crate::buses::fault::Fault;
use crate::buses::laws::parts_compose;
use crate::{Adapter, Bus, Driver, ReadEnd, WriteEnd, new_converters_may_begin};
use pm_device::{Config, Converter};
use pm_host::Host;
use pm_world::{Arrival, Back, spell};

/// A bus with the model converter at its other end, and a plan of what goes wrong with each frame in turn. Nothing
/// goes wrong once the plan is at its end. It is an [`Adapter`] too, which says which frames were unheard.
#[derive(Drop)]
pub struct SimulatedBus<'a> {
    /// The converter.
    pub device: Converter,
    /// What goes wrong with each frame.
    pub plan: &'a [Fault],
    /// How many of the plan's faults had their turn.
    pub next: usize,
}

impl<'a> SimulatedBus<'a> {
    // The fault whose turn it is; the converter restarts if the fault says so. `None` if the plan is at its end.
    fn turn(&mut self) -> Option<&'a Fault>
        ensures fault { MatchOption result (fault_next self.old ≡ None) (λ fault. fault_next self.old ≡ Some fault.now) }
        ensures turn { TurnsTo self.old self.new }
        ensures device { self.new.device ≡ turned_by (fault_next self.old) self.old.device }
        ensures unheard { IsUnheard self.old.device (restarts_so self.old) self.new.device (restarts_so self.new) }
    {
        let plan = self.plan;
        let Some(fault) = plan.get(self.next) else {
            return None;
        };
        self.next += 1;
        disturb(&mut self.device, fault.restarts);
        Some(fault)
    }
}

impl<'a> Adapter for SimulatedBus<'a> {
    ghost held = { λ bus. device_in bus };

    ghost restarts = { λ bus. restarts_so bus };

    ghost gives = { λ old try new. tries_so old try new };

    fn send(&mut self, packet: &[u8]) -> WriteEnd {
        parts_compose();
        let Some(fault) = self.turn() else {
            deliver(&mut self.device, packet, &Arrival::Whole);
            return WriteEnd::Acknowledged;
        };
        if fault.unheard {
            return WriteEnd::Unheard;
        }
        deliver_some(&mut self.device, packet, &fault.heard);
        deliver_some(&mut self.device, packet, &fault.repeated);
        if fault.acked {
            WriteEnd::Acknowledged
        } else {
            WriteEnd::Failed
        }
    }

    fn ask(&mut self, request: &[u8], answer: &mut [u8]) -> ReadEnd {
        parts_compose();
        let Some(fault) = self.turn() else {
            return came(ask(
                &mut self.device,
                request,
                &Arrival::Whole,
                &Back::Whole,
                answer,
            ));
        };
        if fault.unheard {
            return ReadEnd::Unheard;
        }
        came(ask(
            &mut self.device,
            request,
            &fault.request,
            &fault.back,
            answer,
        ))
    }
}

impl<'a> Bus for SimulatedBus<'a> {
    ghost held = { λ bus. device_in bus };

    ghost restarts = { λ bus. restarts_so bus };

    ghost gives = { λ old call new. gives_so old call new };

    fn write(&mut self, packet: &[u8]) -> bool {
        parts_compose();
        match self.send(packet) {
            WriteEnd::Acknowledged => true,
            WriteEnd::Failed => false,
            WriteEnd::Unheard => false,
        }
    }

    fn read(&mut self, request: &[u8], answer: &mut [u8]) -> usize {
        parts_compose();
        match Adapter::ask(self, request, answer) {
            ReadEnd::Came(count) => count,
            ReadEnd::Failed => 0,
            ReadEnd::Unheard => 0,
        }
    }
}

// What came of a read of which so many bytes came.
fn came(count: usize) -> ReadEnd
    ensures { result ≡ came_end count }
{
    if count == 0 {
        ReadEnd::Failed
    } else {
        ReadEnd::Came(count)
    }
}

/// A driver of a new host and a new converter of this configuration, over a simulated bus with this plan. `None` if
/// the configuration or the number of passes is refused.
///
/// A plan without a restart stays one with each job of the driver ([`never_restarts_stays`](crate::never_restarts_stays)).
pub fn driver_over<'a>(c: Config, passes: u8, plan: &'a [Fault]) -> Option<Driver<SimulatedBus<'a>>>
    ensures guard { IfSome result (λ driver. driver.guard
        ≡ record { host = start (setup_of c passes); limits = replicate 8 Unlimited; registers = all_registers }) }
    ensures device { IfSome result (λ driver. driver.bus.device ≡ start_of c) }
    ensures plan { IfSome result (λ driver. driver.bus.plan.now ≡ plan.now) }
    ensures next { IfSome result (λ driver. driver.bus.next ≡ 0) }
    ensures never { restarts_of plan.now ≡ 0 → IfSome result (λ driver. NeverRestarts driver) }
    ensures some { config_fault c ≡ None → setup_fault c.count passes ≡ None → is_some result ≡ true }
    ensures accepted { is_some result ≡ true → (config_fault c ≡ None) × (setup_fault c.count passes ≡ None) }
{
    // law: a configuration's numbers fit into bytes
    spell(c);
    new_converters_may_begin();
    let device = match Converter::new(c) {
        Ok(device) => device,
        Err(_) => return None,
    };
    let host = match Host::new(c.addr, c.count, passes) {
        Ok(host) => host,
        Err(_) => return None,
    };
    Some(Driver::new(
        host,
        SimulatedBus {
            device,
            plan,
            next: 0,
        },
    ))
}
