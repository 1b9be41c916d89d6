//! The options of `decode`: what the parser found for them, and what their texts ask of a telling.
ghost use Rattle.std.specs.Prelude.{◌≡◌, ◌≤◌, IfSome, flat_map};
ghost use Rattle.std.specs.Result.{result_map_both};
ghost use Rattle.clap.specs.Words.{found_of, one_of, rows_of};
ghost use Rattle.pm_tool.specs.Telling.{HasTexts, IsAsked, IsFlag};
ghost use Rattle.pm_tool.specs.ReadingList.{if_any};
ghost use Rattle.pm_tool.specs.Telling.{addresses_or_fault, gap_asked, is_any, names_any as spec_names_any, pause_of_text, readings_asked, vout_asked};

use super::addresses::read_addresses;
use super::options::given_text;
use super::readings::{Listed, read_list};
use super::tell_fault::TellFault;
use clap::ArgMatches;
use pm_decode::{Addresses, TellOptions};
use pm_lines::read_i64;
use pm_trace::{GivenFormat, GivenFormats};

/// The options of `decode`, as they were written.
#[derive(Clone, Copy, Debug, PartialEq, Eq)]
pub struct TellTexts<'a> {
    /// `--values`: what payloads mean is shown too.
    pub values: bool,
    /// The text of `--vout`: the formats of voltages whose own format the trace doesn't teach.
    pub vout: Option<&'a str>,
    /// The text of `--readings`: the formats of READ_VIN, READ_IOUT and READ_TEMPERATURE_1.
    pub readings: Option<&'a str>,
    /// `--all`: packets without PEC, and of codes that the command table doesn't have, are shown too.
    pub all: bool,
    /// `--pages`: PAGE is followed.
    pub pages: bool,
    /// `--explain`: what `--all` and `--pages` show, failed transfers in their places, and words that changed.
    pub explain: bool,
    /// The text of `--gap`: the milliseconds of a pause after which a page isn't known any more.
    pub gap: Option<&'a str>,
    /// `--long`: the trace may have more than 1 MiB.
    pub long: bool,
    /// `--times`: each line begins with the time of its packet.
    pub times: bool,
    /// `--json`: each line is shown as an object of JSON.
    pub json: bool,
    /// What the texts of `--part` name as parts; None if one of them can't be read.
    pub parts: Option<Addresses>,
    /// What the texts of `--mux` name as muxes; None if one of them can't be read.
    pub muxes: Option<Addresses>,
}

impl<'a> TellTexts<'a> {
    /// The options that the parser found.
    pub(super) fn of(found: &ArgMatches<'a>) -> TellTexts<'a>
        ensures { HasTexts result (rows_of (found_of found.now)) }
    {
        TellTexts {
            values: is_given(found, "values"),
            vout: given_text(found, "vout"),
            readings: given_text(found, "readings"),
            all: is_given(found, "all"),
            pages: is_given(found, "pages"),
            explain: is_given(found, "explain"),
            gap: given_text(found, "gap"),
            long: is_given(found, "long"),
            times: is_given(found, "times"),
            json: is_given(found, "json"),
            parts: read_addresses(found.get_strs("part")),
            muxes: read_addresses(found.get_strs("mux")),
        }
    }

    /// Whether an option is given.
    pub(super) fn is_any(&self) -> bool
        ensures { result ≡ is_any self.now }
    {
        self.values
            || self.vout.is_some()
            || self.readings.is_some()
            || self.all
            || self.pages
            || self.explain
            || self.gap.is_some()
            || self.long
            || self.times
            || self.json
            || names_any(self.parts)
            || names_any(self.muxes)
    }

    /// The telling that the options ask for, or the first fault of them: `--vout` without `--values`, and then
    /// a text of it that is no list of formats or has one that can't be; then the same of `--readings`; then `--gap` without `--pages`
    /// or `--times`, and a text of it that isn't 0 to 1000000 in at most seven digits; then a text of `--part` or `--mux` that names
    /// no addresses. The formats are those of `number`.
    pub fn options(&self) -> Result<TellOptions, TellFault>
        ensures { IsAsked self.now result }
    {
        let vout = self.vout_formats()?;
        let readings = self.reading_formats()?;
        let gap = self.pause()?;
        let parts = addresses(self.parts, TellFault::Part)?;
        let muxes = addresses(self.muxes, TellFault::Mux)?;
        Ok(TellOptions {
            values: self.values,
            formats: GivenFormats { vout, readings },
            all: self.all || self.explain,
            long: self.long,
            times: self.times,
            json: self.json,
            pages: self.pages || self.explain,
            explain: self.explain,
            gap,
            parts,
            muxes,
        })
    }

    // The formats of voltages that are asked for.
    fn vout_formats(&self) -> Result<[Option<GivenFormat>; 8], TellFault>
        ensures { result_map_both (λ made. flat_map if_any made) (λ fault. fault) result ≡ vout_asked self.now }
    {
        let Some(text) = self.vout else {
            return Ok([None; 8]);
        };
        if !self.values {
            return Err(TellFault::VoutAlone);
        }
        match read_list(Listed::Voltages, text) {
            Some(made) => Ok(made),
            None => Err(TellFault::Vout),
        }
    }

    // The formats of readings that are asked for.
    fn reading_formats(&self) -> Result<[Option<GivenFormat>; 8], TellFault>
        ensures { result_map_both (λ made. flat_map if_any made) (λ fault. fault) result ≡ readings_asked self.now }
    {
        let Some(text) = self.readings else {
            return Ok([None; 8]);
        };
        if !self.values {
            return Err(TellFault::ReadingsAlone);
        }
        match read_list(Listed::Readings, text) {
            Some(made) => Ok(made),
            None => Err(TellFault::Readings),
        }
    }

    // The microseconds of the pause that is asked for.
    fn pause(&self) -> Result<u64, TellFault>
        ensures { result ≡ gap_asked self.now }
    {
        let Some(text) = self.gap else {
            return Ok(1_000_000);
        };
        if !(self.pages || self.explain) || !self.times {
            return Err(TellFault::GapAlone);
        }
        match read_pause(text) {
            Some(pause) => Ok(pause * 1000),
            None => Err(TellFault::Gap),
        }
    }
}

// The addresses that texts name, or the fault that one of them can't be read.
fn addresses(named: Option<Addresses>, fault: TellFault) -> Result<Addresses, TellFault>
    ensures { result ≡ addresses_or_fault fault named }
{
    match named {
        Some(named) => Ok(named),
        None => Err(fault),
    }
}

// Whether there are texts of addresses.
fn names_any(named: Option<Addresses>) -> bool
    ensures { result ≡ spec_names_any named }
{
    match named {
        Some(named) => named.any,
        None => true,
    }
}

// Whether a flag is given.
fn is_given(matches: &ArgMatches<'_>, name: &str) -> bool
    ensures { IsFlag (one_of name.now (rows_of (found_of matches.now))) result }
{
    matches.get_flag(name)
}

// The milliseconds of a pause, 0 to 1000000 in at most seven digits.
fn read_pause(text: &str) -> Option<u64>
    ensures written { result ≡ pause_of_text text.now }
    ensures short { IfSome result (λ pause. pause ≤ 1000000) }
{
    let digits = text.as_bytes();
    if digits.len() > 7 || digits.starts_with(b"-") {
        return None;
    }
    let pause = read_i64(digits)?;
    if pause < 0 || 1_000_000 < pause {
        return None;
    }
    Some(pause as u64)
}
