//! Limits of an output's voltage, and the band that is known.

ghost use Rattle.std.specs.Prelude.{◌≡◌, ◌≢◌, IsSomeAnd, option_map};
ghost use Rattle.pm_limits.specs.Band.{band_at};
ghost use Rattle.pm_limits.specs.Guard.{limits_at, narrowed, unlimited};
ghost use Rattle.pm_memory.specs.Guard.{guard_of, limits_held};
ghost use Rattle.pm_memory.specs.Memory.{IsMemory};
ghost use Rattle.pm_memory.specs.Limits.{band_number, limits_number, narrow_number, unlimited_number, within_number, IsEnds};

use pm_host::HostFault;
use pm_limits::{LimitFault, NewLimits, OutputLimits, narrower_limits};
use pm_memory::limits::{BandImage, of_within, put_band_of, within_in};
use pm_memory::numbers::{ACCEPTED, NO_HOST, NO_LIMITS};
use pm_memory::{GuardImage, LimitsImage};

/// Gives an output narrower limits; an output without any takes these. E0h, H4, N5, L1, L6, then H3 if an order of the
/// output is open that these would refuse.
#[unsafe(no_mangle)]
pub extern "C" fn pm_host_set_limits(host: &mut GuardImage, output: u8, least: i64, most: i64) -> u8
    ensures number { result ≡ narrow_number (guard_of host.old) output least most }
    ensures narrowed { result ≡ 0 → guard_of host.new ≡ option_map (λ g. narrowed g output least most) (guard_of host.old) }
    ensures written { IsMemory host.old → IsMemory host.new }
    ensures refused { result ≢ 0 → host.new ≡ host.old }
{
    let Ok(stage) = host.host.read_stage() else {
        return NO_HOST;
    };
    if host.host.state.outputs <= output {
        return HostFault::UnknownOutput.number();
    }
    let registers = host.registers.registers();
    let old = host.limits(output);
    let new = NewLimits {
        output,
        least,
        most,
    };
    match narrower_limits(&host.host.state, stage, registers, &old, new) {
        Ok(limits) => {
            host.put_limits(output, &OutputLimits::Between(limits));
            ACCEPTED
        }
        Err(fault) => fault.number(),
    }
}

/// Says that an output has no limits, so that none of its orders is refused by them. E0h, H4, L6 if it has limits.
#[unsafe(no_mangle)]
pub extern "C" fn pm_host_no_limits(host: &mut GuardImage, output: u8) -> u8
    ensures number { result ≡ unlimited_number (guard_of host.old) output }
    ensures said { result ≡ 0 → guard_of host.new ≡ option_map (λ g. unlimited g output) (guard_of host.old) }
    ensures written { IsMemory host.old → IsMemory host.new }
    ensures refused { result ≢ 0 → host.new ≡ host.old }
{
    if host.host.read_stage().is_err() {
        return NO_HOST;
    }
    if host.host.state.outputs <= output {
        return HostFault::UnknownOutput.number();
    }
    if host.limits(output).is_limited() {
        return LimitFault::LimitsWidened.number();
    }
    host.put_limits(output, &OutputLimits::Unlimited);
    ACCEPTED
}

/// The limits of an output. E0h, H4, E6h if it was given none.
#[unsafe(no_mangle)]
pub extern "C" fn pm_host_limits(host: &GuardImage, output: u8, limits: &mut LimitsImage) -> u8
    ensures number { result ≡ limits_number (guard_of host.now) output }
    ensures said { result ≡ 0 → IsSomeAnd (guard_of host.now)
        (λ g. limits_held limits.new ≡ limits_at g output) }
    ensures refused { result ≢ 0 → limits.new ≡ limits.old }
{
    if host.host.read_stage().is_err() {
        return NO_HOST;
    }
    if host.host.state.outputs <= output {
        return HostFault::UnknownOutput.number();
    }
    match host.limits(output) {
        found @ OutputLimits::Between(_) => {
            *limits = LimitsImage::of(&found);
            ACCEPTED
        }
        _ => NO_LIMITS,
    }
}

/// Whether an output's voltage lies within its limits, by the words that its registers may hold: 91h if its whole band does,
/// 92h if the whole band lies below them or above them, otherwise 93h; E6h if it has no limits. E0h, H4.
#[unsafe(no_mangle)]
pub extern "C" fn pm_host_limits_state(host: &GuardImage, output: u8) -> u8
    ensures { result ≡ within_number (guard_of host.now) output }
{
    if host.host.read_stage().is_err() {
        return NO_HOST;
    }
    if host.host.state.outputs <= output {
        return HostFault::UnknownOutput.number();
    }
    of_within(within_in(host, output))
}

/// Between which voltages an output may be, by what is known. E0h, H4, H7 if its format isn't known, EBh if OPERATION
/// may hand its voltage to AVSBus, N5 if an end is beyond 10^15 microvolts in size.
#[unsafe(no_mangle)]
pub extern "C" fn pm_host_band(host: &GuardImage, output: u8, band: &mut BandImage) -> u8
    ensures number { result ≡ band_number (guard_of host.now) output }
    ensures said { result ≡ 0 → IsSomeAnd (guard_of host.now) (λ g. IsEnds (band_at g.registers g.host output) band.new) }
    ensures refused { result ≢ 0 → band.new ≡ band.old }
{
    if host.host.read_stage().is_err() {
        return NO_HOST;
    }
    if host.host.state.outputs <= output {
        return HostFault::UnknownOutput.number();
    }
    put_band_of(host, output, band)
}
