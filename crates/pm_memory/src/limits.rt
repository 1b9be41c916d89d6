//! Limits of an output's voltage, and the band that is known.

ghost use Rattle.std.specs.Prelude.{◌≡◌, ◌≢◌, ◌<◌, slice_index_or, None};
ghost use Rattle.pm_host.specs.Image.{held};
ghost use Rattle.pm_host.specs.Summary.{format_at};
ghost use Rattle.pm_limits.specs.Band.{band_at, within_of};
ghost use Rattle.pm_limits.specs.declared.output_limits.OutputLimits.TheVariants.{Unlimited};
ghost use Rattle.pm_memory.specs.Guard.{limits_kept, registers_held};
ghost use Rattle.pm_memory.specs.Limits.{ends_in, ends_number, no_band_number, within_word, IsBand, IsEnds};

use crate::GuardImage;
use crate::numbers::{ACCEPTED, NO_BAND, NO_LIMITS, WITHIN_NO, WITHIN_NOT_KNOWN, WITHIN_YES};
use crate::voltages::{put_ceil, put_floor};
use pm_host::{HostFault, State};
use pm_limits::{Band, Within, band_in, within_limits};

/// The ends of the band of an output's voltage, in whole microvolts, as plain numbers.
#[repr(C)]
#[derive(Clone, Copy, Debug)]
pub struct BandImage {
    /// The least voltage, rounded down.
    pub least: i64,
    /// The greatest, rounded up.
    pub greatest: i64,
}

/// Whether an output that is there lies within its limits, as `pm_host_limits_state` says it. Its number is below 8.
pub fn within_in(host: &GuardImage, output: u8) -> Within
    requires { output < 8 }
    ensures { let band = band_at (registers_held host.now.registers) (held None host.now.host.state) output in
        result ≡ within_of (slice_index_or (limits_kept host.now) output Unlimited) band }
{
    within_limits(&host.limits(output), known_band(host, output))
}

/// The number of an answer.
pub fn of_within(within: Within) -> u8
    ensures { result ≡ within_word within }
{
    match within {
        Within::Yes => WITHIN_YES,
        Within::No => WITHIN_NO,
        Within::NotKnown => WITHIN_NOT_KNOWN,
        Within::NoLimits => NO_LIMITS,
    }
}

/// The band of an output that is there, as `pm_host_band` puts it. The output's number is below 8.
pub fn put_band_of(host: &GuardImage, output: u8, band: &mut BandImage) -> u8
    requires { output < 8 }
    ensures number { let s = held None host.now.host.state in
        result ≡ ends_in (format_at s output) (band_at (registers_held host.now.registers) s output) }
    ensures said { let s = held None host.now.host.state in
        result ≡ 0 → IsEnds (band_at (registers_held host.now.registers) s output) band.new }
    ensures refused { result ≢ 0 → band.new ≡ band.old }
{
    let known = known_band(host, output);
    put_known(&host.host.state, output, &known, band)
}

// The band of an output. Its number is below 8.
fn known_band(host: &GuardImage, output: u8) -> Option<Band>
    requires { output < 8 }
    ensures { result ≡ band_at (registers_held host.now.registers) (held None host.now.host.state) output }
{
    band_in(&host.host.state, host.registers.registers(), output)
}

/// The ends of a band of an output, if there is one. H7 if its format isn't known, EBh if AVSBus may decide, N5 if
/// an end is beyond 10^15 microvolts in size.
pub(crate) fn put_known(state: &State, output: u8, known: &Option<Band>, ends: &mut BandImage) -> u8
    requires { output < 8 }
    ensures number { result ≡ ends_in (format_at (held None state.now) output) known.now }
    ensures said { result ≡ 0 → IsEnds known.now ends.new }
    ensures refused { result ≢ 0 → ends.new ≡ ends.old }
{
    match known {
        Some(known) => put_band(known, ends),
        None => no_band(state, output),
    }
}

// Why an output has no band.
fn no_band(state: &State, output: u8) -> u8
    requires { output < 8 }
    ensures number { result ≡ no_band_number (format_at (held None state.now) output) }
    ensures some { result ≢ 0 }
{
    match state.format(output).format() {
        Some(_) => NO_BAND,
        None => HostFault::FormatUnknown.number(),
    }
}

// The ends of a band in whole microvolts. N5 if one is beyond 10^15 in size.
fn put_band(known: &Band, band: &mut BandImage) -> u8
    ensures number { result ≡ ends_number known.now }
    ensures said { result ≡ 0 → IsBand known.now band.new }
    ensures refused { result ≢ 0 → band.new ≡ band.old }
{
    let (mut least, mut greatest) = (0, 0);
    let number = put_floor(&known.least, &mut least);
    if number != ACCEPTED {
        return number;
    }
    let number = put_ceil(&known.greatest, &mut greatest);
    if number != ACCEPTED {
        return number;
    }
    *band = BandImage { least, greatest };
    ACCEPTED
}
