//! What the payload of a packet means.
ghost use Rattle.std.specs.Prelude.{◌≡◌, option_map};
ghost use Rattle.pm_num.specs.AnyFormat.{shape_of};
ghost use Rattle.pm_num.specs.Formats.{IsExponent};
ghost use Rattle.pm_table.specs.VoutMode.{exponent_of};
ghost use Rattle.pm_trace.specs.Values.{byte_in as spec_byte_in, code_value as spec_code_value, measured as spec_measured, mode_value as spec_mode_value, operates, other_value as spec_other_value, packet_value as spec_packet_value, protects, revises, word_in_bytes as spec_word_in};

use crate::formats::GivenFormats;
use crate::lessons::{Asked, Lessons, is_voltage};
use crate::status::Status;
use crate::value::{Unit, Value};
use pm_frame::FrameView;
use pm_num::{AnyFormat, NumFormat};
use pm_table::{Code, VoutMode};

/// A good packet.
#[derive(Clone, Copy, Debug)]
pub struct GoodPacket<'a> {
    /// The device's address.
    pub addr: u8,
    /// The output that it reaches if it names none, if that is known.
    pub reached: Option<u8>,
    /// What was written, or what was asked for.
    pub view: &'a FrameView<'a>,
    /// The payload of the answer to a request.
    pub answer: Option<&'a [u8]>,
}

/// What a good packet means, by its payload, or by what was answered; `None` if its code is shown without a value, or
/// no format of its number is known.
pub fn packet_value(
    given: &GivenFormats,
    lessons: &Lessons,
    packet: &GoodPacket<'_>,
) -> Option<Value>
    ensures { result ≡ spec_packet_value given.now lessons.now packet.now.addr packet.now.reached packet.now.view.now
        (option_map (λ bytes. bytes.now) packet.now.answer) }
{
    let code = packet.view.code();
    let output = match packet.view.page() {
        Some(page) => Some(page),
        None => packet.reached,
    };
    let asked = Asked {
        addr: packet.addr,
        page: output,
        code,
        is_read: packet.answer.is_some(),
    };
    let format = lessons.format(given, asked);
    match packet.answer {
        Some(answer) => code_value(format, code, answer),
        None => code_value(format, code, packet.view.payload()),
    }
}

// The value of a code's payload, with the format of its word if that is a number.
fn code_value(format: Option<AnyFormat>, code: u8, bytes: &[u8]) -> Option<Value>
    ensures { result ≡ spec_code_value (option_map shape_of format) code bytes.now }
{
    let byte = byte_in(bytes);
    let word = word_in(bytes);
    if is_voltage(code) {
        return measured(format, word, Unit::Volt);
    }
    match Code(code) {
        Code::READ_VIN => measured(format, word, Unit::Volt),
        Code::READ_IOUT => measured(format, word, Unit::Ampere),
        Code::READ_TEMPERATURE_1 => measured(format, word, Unit::Celsius),
        Code::OPERATION => operation(byte),
        Code::WRITE_PROTECT => protection(byte),
        Code::VOUT_MODE => mode_value(byte),
        Code::STATUS_BYTE => Some(Value::Flags(Status::Byte, word)),
        Code::STATUS_WORD => Some(Value::Flags(Status::Word, word)),
        Code::STATUS_VOUT => Some(Value::Flags(Status::Vout, word)),
        Code::STATUS_CML => Some(Value::Flags(Status::Cml, word)),
        Code::CAPABILITY => Some(Value::Capable(byte)),
        Code::PMBUS_REVISION => revision(byte),
        _ => None,
    }
}

// A number, if its format is known.
fn measured(format: Option<AnyFormat>, word: u16, unit: Unit) -> Option<Value>
    ensures { result ≡ spec_measured (option_map shape_of format) word unit }
{
    match format {
        Some(format) => Some(Value::Measured(format.value_of(word), unit)),
        None => None,
    }
}

/// What the bytes of a code mean that the command table doesn't have: those of ON_OFF_CONFIG and of the status registers
/// beside the table's, each of one byte.
pub fn other_value(code: u8, bytes: &[u8]) -> Option<Value>
    ensures { result ≡ spec_other_value code bytes.now }
{
    let [byte] = bytes else {
        return None;
    };
    let bits = u16::from(*byte);
    match code {
        0x02 => Some(Value::Controls(*byte)),
        0x7B => Some(Value::Flags(Status::Iout, bits)),
        0x7C => Some(Value::Flags(Status::Input, bits)),
        0x7D => Some(Value::Flags(Status::Temperature, bits)),
        0x7F => Some(Value::Flags(Status::Other, bits)),
        0x80 => Some(Value::Flags(Status::MfrSpecific, bits)),
        0x81 => Some(Value::Flags(Status::Fans12, bits)),
        0x82 => Some(Value::Flags(Status::Fans34, bits)),
        _ => None,
    }
}

// What a byte of VOUT_MODE means.
fn mode_value(byte: u8) -> Option<Value>
    ensures { result ≡ spec_mode_value byte }
{
    if byte / 32 == 4 {
        return Some(Value::Relative(exponent_in(byte)));
    }
    if byte / 32 == 1 {
        return Some(Value::Vid);
    }
    if byte / 32 == 3 {
        return Some(Value::Half);
    }
    VoutMode::read(byte).ok().map(Value::Scales)
}

// What a byte of OPERATION asks for.
fn operation(byte: u8) -> Option<Value>
    ensures { result ≡ operates byte }
{
    if byte < 0xC0 {
        Some(Value::Operates(byte))
    } else {
        None
    }
}

// What a byte of PMBUS_REVISION means.
fn revision(byte: u8) -> Option<Value>
    ensures { result ≡ revises byte }
{
    if byte / 16 < 4 && byte % 16 < 4 {
        Some(Value::Revises(byte))
    } else {
        None
    }
}

/// The exponent of a mode of ULINEAR16, its bits 4 to 0.
pub(crate) fn exponent_in(byte: u8) -> i8
    ensures value { result ≡ exponent_of byte }
    ensures range { IsExponent result }
{
    let bits = (byte % 32) as i8;
    if bits < 16 { bits } else { bits - 32 }
}

// What a byte of WRITE_PROTECT means.
fn protection(byte: u8) -> Option<Value>
    ensures { result ≡ protects byte }
{
    match byte {
        0x00 | 0x20 | 0x40 | 0x80 => Some(Value::Protects(byte)),
        _ => None,
    }
}

// The first byte of a payload, 0 if it has none.
fn byte_in(bytes: &[u8]) -> u8
    ensures { result ≡ spec_byte_in bytes.now }
{
    bytes.first().copied().unwrap_or(0)
}

// The word of a payload, low byte first; a byte that isn't there counts as 0.
fn word_in(bytes: &[u8]) -> u16
    ensures { result ≡ spec_word_in bytes.now }
{
    let byte = |place: usize| bytes.get(place).copied().unwrap_or(0);
    u16::from_le_bytes([byte(0), byte(1)])
}
