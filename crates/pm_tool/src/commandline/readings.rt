//! The texts of `--vout` and `--readings`: formats of voltages, and of READ_VIN, READ_IOUT and READ_TEMPERATURE_1.
ghost use Rattle.std.specs.Prelude.{◌≡◌, ◌∷◌, [], ◌++◌, ℕ, suc, List, Option, None, IfSome, MatchOption, flat_map, option_and_then, option_map};
ghost use Rattle.pm_num.specs.AnyFormat.{shape_of};
ghost use Rattle.pm_tool.specs.Question.{HasExponent, parts, text_at};
ghost use Rattle.pm_tool.specs.ReadingList.{entries_left, listed_entries, entry_for, entry_from, listed_entry, entry_seen, if_any};
ghost use Rattle.pm_tool.specs.ReadingList.{is_asked_for as spec_is_asked_for, is_place as spec_is_place, listed_shape, shape_named};

use crate::numbers::{FormatText, first_item, first_part, read_format};
use pm_lines::read_byte;
use pm_num::{AnyFormat, Ulinear16};
use pm_table::{Code, Coefficients, VoutMode, address_ok, format_of};
use pm_trace::GivenFormat;

/// Whose formats a text lists.
#[derive(Clone, Copy, Debug)]
pub(super) enum Listed {
    /// Those of voltages.
    Voltages,
    /// Those of READ_VIN, READ_IOUT and READ_TEMPERATURE_1.
    Readings,
}

/// What was read of a text: an entry, if any text was left, and what is left of it.
#[derive(Clone, Copy)]
struct One<'a> {
    first: Option<GivenFormat>,
    left: Option<&'a str>,
}

/// What was read of a text: two entries, each if any text was left, and what is left of it.
#[derive(Clone, Copy)]
struct Two<'a> {
    first: Option<GivenFormat>,
    second: Option<GivenFormat>,
    left: Option<&'a str>,
}

/// What was read of a text: four entries, each if any text was left, and what is left of it.
#[derive(Clone, Copy)]
struct Four<'a> {
    first: Option<GivenFormat>,
    second: Option<GivenFormat>,
    third: Option<GivenFormat>,
    fourth: Option<GivenFormat>,
    left: Option<&'a str>,
}

/// The entries of a text, one to eight with commas between them; None if one can't be, or there are more.
pub(super) fn read_list(listed: Listed, text: &str) -> Option<[Option<GivenFormat>; 8]>
    ensures { option_map (λ made. flat_map if_any made) result ≡ listed_entries listed text.now }
{
    let front = read_four(listed, Some(text))?;
    let back = read_four(listed, front.left)?;
    match back.left {
        Some(_) => None,
        None => Some([
            front.first,
            front.second,
            front.third,
            front.fourth,
            back.first,
            back.second,
            back.third,
            back.fourth,
        ]),
    }
}

// Four entries of a text, or as many as there are.
fn read_four(listed: Listed, text: Option<&str>) -> Option<Four<'_>>
    ensures { MatchOption result
        ((room : ℕ) → entries_left listed (suc (suc (suc (suc room)))) (text_at text.entry) ≡ None)
        (λ four. (room : ℕ) → entries_left listed (suc (suc (suc (suc room)))) (text_at text.entry)
        ≡ option_map (λ es. if_any four.first ++ (if_any four.second ++ (if_any four.third ++ (if_any four.fourth ++ es))))
        (entries_left listed room (text_at four.left))) }
{
    let front = read_two(listed, text)?;
    let back = read_two(listed, front.left)?;
    Some(Four {
        first: front.first,
        second: front.second,
        third: back.first,
        fourth: back.second,
        left: back.left,
    })
}

// Two of them.
fn read_two(listed: Listed, text: Option<&str>) -> Option<Two<'_>>
    ensures { MatchOption result
        ((room : ℕ) → entries_left listed (suc (suc room)) (text_at text.entry) ≡ None)
        (λ two. (room : ℕ) → entries_left listed (suc (suc room)) (text_at text.entry)
        ≡ option_map (λ es. if_any two.first ++ (if_any two.second ++ es)) (entries_left listed room (text_at two.left))) }
{
    let front = read_one(listed, text)?;
    let back = read_one(listed, front.left)?;
    Some(Two {
        first: front.first,
        second: back.first,
        left: back.left,
    })
}

// One of them.
fn read_one(listed: Listed, text: Option<&str>) -> Option<One<'_>>
    ensures { MatchOption result
        ((room : ℕ) → entries_left listed (suc room) (text_at text.entry) ≡ None)
        (λ one. (room : ℕ) → entries_left listed (suc room) (text_at text.entry)
        ≡ option_map (λ es. if_any one.first ++ es) (entries_left listed room (text_at one.left))) }
{
    let Some(text) = text else {
        return Some(One {
            first: None,
            left: None,
        });
    };
    match first_item(text) {
        Some((item, left)) => Some(One {
            first: Some(read_entry(listed, item)?),
            left: Some(left),
        }),
        None => Some(One {
            first: Some(read_entry(listed, text)?),
            left: None,
        }),
    }
}

// An entry: `FORMAT`, and `AA:FORMAT` of voltages, `CC:FORMAT` or `AA:CC:FORMAT` of readings.
fn read_entry(listed: Listed, text: &str) -> Option<GivenFormat>
    ensures { option_map entry_seen result ≡ listed_entry listed text.now }
{
    let Some((first, after)) = first_part(text) else {
        return entry_in(listed, None, None, read_format(text));
    };
    match read_byte(first.as_bytes()) {
        Some(number) => read_at_number(listed, number, after),
        None => entry_in(listed, None, None, read_format(text)),
    }
}

// The entry whose first part is a number.
fn read_at_number(listed: Listed, number: u8, text: &str) -> Option<GivenFormat>
    ensures { (second : List ℕ) (more : List (List ℕ)) → parts text.now ≡ second ∷ more
        → option_map entry_seen result ≡ entry_from listed (Option.Some number) [] second more }
{
    match listed {
        Listed::Voltages => entry_in(listed, Some(number), None, read_format(text)),
        Listed::Readings => read_behind(number, text),
    }
}

// The entry of a reading whose first part is a number.
fn read_behind(number: u8, text: &str) -> Option<GivenFormat>
    ensures { (second : List ℕ) (more : List (List ℕ)) → parts text.now ≡ second ∷ more
        → option_map entry_seen result ≡ entry_from Listed.Readings (Option.Some number) [] second more }
{
    let listed = Listed::Readings;
    match first_part(text) {
        Some((second, after)) => match read_byte(second.as_bytes()) {
            Some(code) => entry_in(listed, Some(number), Some(code), read_format(after)),
            None => entry_in(listed, None, Some(number), read_format(text)),
        },
        None => match read_byte(text.as_bytes()) {
            Some(_) => None,
            None => entry_in(listed, None, Some(number), read_format(text)),
        },
    }
}

// The entry of a format, if it can be.
fn entry_in(
    listed: Listed,
    addr: Option<u8>,
    code: Option<u8>,
    format: Option<FormatText>,
) -> Option<GivenFormat>
    requires { IfSome format HasExponent }
    ensures { option_map entry_seen result ≡ entry_for listed addr code format }
{
    if !is_place(addr) || !is_asked_for(code) {
        return None;
    }
    let format = listed_format(listed, format?)?;
    Some(GivenFormat { addr, code, format })
}

// An address of a device, or none.
fn is_place(addr: Option<u8>) -> bool
    ensures { result ≡ spec_is_place addr }
{
    match addr {
        Some(addr) => address_ok(addr),
        None => true,
    }
}

// The code of a reading, or none.
fn is_asked_for(code: Option<u8>) -> bool
    ensures { result ≡ spec_is_asked_for code }
{
    match code {
        Some(code) => {
            matches!(
                Code(code),
                Code::READ_VIN | Code::READ_IOUT | Code::READ_TEMPERATURE_1
            )
        }
        None => true,
    }
}

// The format of a voltage or of a reading, if it can be one.
fn listed_format(listed: Listed, format: FormatText) -> Option<AnyFormat>
    requires { HasExponent format }
    ensures { option_map shape_of result ≡ listed_shape listed format }
{
    match listed {
        Listed::Voltages => vout_format(format),
        Listed::Readings => reading_format(format),
    }
}

// The format of a voltage.
fn vout_format(format: FormatText) -> Option<AnyFormat>
    requires { HasExponent format }
    ensures { option_map shape_of result ≡ shape_named format }
{
    match format {
        FormatText::Linear11 => Some(AnyFormat::Linear11),
        FormatText::Ulinear16(n) => match Ulinear16::new(n) {
            Some(made) => Some(AnyFormat::Ulinear16(made)),
            None => None,
        },
        FormatText::Direct(m, b, r) => direct_format(m, b, r),
    }
}

// The format of a reading.
fn reading_format(format: FormatText) -> Option<AnyFormat>
    ensures { option_map shape_of result ≡ listed_shape Listed.Readings format }
{
    match format {
        FormatText::Linear11 => Some(AnyFormat::Linear11),
        FormatText::Ulinear16(_) => None,
        FormatText::Direct(m, b, r) => direct_format(m, b, r),
    }
}

// DIRECT with these coefficients.
fn direct_format(m: i16, b: i16, r: i8) -> Option<AnyFormat>
    ensures { option_map shape_of result ≡ shape_named (FormatText.Direct m b r) }
{
    match format_of(VoutMode::Direct, Coefficients { m, b, r }) {
        Ok(made) => Some(made),
        Err(_) => None,
    }
}
