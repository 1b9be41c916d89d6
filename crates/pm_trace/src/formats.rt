//! The formats of words that a user gives.
ghost use Rattle.std.specs.Prelude.{◌≡◌, ◌∷◌, Some, option_map};
ghost use Rattle.pm_num.specs.AnyFormat.{shape_of};
ghost use Rattle.pm_trace.specs.Taught.{direct_only as spec_direct_only, format_given as spec_format_given, is_met as spec_is_met};

use pm_num::AnyFormat;

/// The format of voltages, or of READ_VIN, READ_IOUT or READ_TEMPERATURE_1.
#[derive(Clone, Copy, Debug)]
pub struct GivenFormat {
    /// The address whose words have it, or all addresses.
    pub addr: Option<u8>,
    /// The code that has it, or all of them.
    pub code: Option<u8>,
    /// The format.
    pub format: AnyFormat,
}

/// The formats that a user gives: of each list those before the first absent one.
#[derive(Clone, Copy, Debug)]
pub struct GivenFormats {
    /// The formats of voltages whose own format the capture doesn't teach: the first one for an address holds.
    pub vout: [Option<GivenFormat>; 8],
    /// The formats of readings: the first one for an address and a code holds.
    pub readings: [Option<GivenFormat>; 8],
}

/// The format of the first entry for this address and code; an absent entry ends the list.
pub(crate) fn format_given(entries: &[Option<GivenFormat>], addr: u8, code: u8) -> Option<AnyFormat>
    ensures { option_map shape_of result ≡ spec_format_given entries.now addr code }
{
    match entries {
        [Some(entry), rest @ ..] => format_among(entry, rest, addr, code),
        _ => None,
    }
}

// The format of this entry, or of the first one after it.
fn format_among(
    entry: &GivenFormat,
    rest: &[Option<GivenFormat>],
    addr: u8,
    code: u8,
) -> Option<AnyFormat>
    ensures { option_map shape_of result ≡ spec_format_given (Some entry.now ∷ rest.now) addr code }
{
    if is_met(entry.addr, addr) && is_met(entry.code, code) {
        return Some(entry.format);
    }
    match rest {
        [Some(entry), rest @ ..] => format_among(entry, rest, addr, code),
        _ => None,
    }
}

// Whether a number is the one that is named; each is if none is named.
fn is_met(wanted: Option<u8>, number: u8) -> bool
    ensures { result ≡ spec_is_met wanted number }
{
    match wanted {
        Some(wanted) => wanted == number,
        None => true,
    }
}

/// A format that is DIRECT.
pub(crate) fn direct_only(format: Option<AnyFormat>) -> Option<AnyFormat>
    ensures { option_map shape_of result ≡ spec_direct_only (option_map shape_of format) }
{
    match format {
        Some(AnyFormat::Direct(_)) => format,
        _ => None,
    }
}
