//! The names of the numbers that calls answer, each from the type whose number it is.

ghost use Rattle.std.specs.Prelude.{◌≡◌, ◌≤◌, length, option_map, IfSome};
ghost use Rattle.pm_memory.specs.Names.{accept_words, config_words, delivery_words, device_words, end_words, frame_words, limit_words, own_words, plan_words, refusal_words as spec_refusal_words, HasText};

use pm_course::AcceptFault;
use pm_delivery::{DeliveryFault, Question};
use pm_device::{ConfigFault, DeviceFault};
use pm_frame::FrameFault;
use pm_host::HostFault;
use pm_limits::LimitFault;
use pm_num::NumFault;
use pm_rail::PlanFault;
use pm_table::{Cell, Reg, TableFault};

/// How many bytes a name has room for.
const ROOM: usize = 32;

/// A name as a text of C: its characters, and zeros after them.
#[repr(C)]
#[derive(Clone, Copy, Debug)]
pub struct NameImage {
    /// At most 31 characters, each of ASCII, and zeros to the end.
    pub text: [u8; ROOM],
}

impl NameImage {
    /// Puts these characters, and zeros to the end.
    pub fn put(&mut self, words: &str)
        requires { length words.now ≤ 31 }
        ensures { HasText words.now self.new }
    {
        self.text = [0; ROOM];
        self.text[..words.len()].copy_from_slice(words.as_bytes());
    }
}

/// The words of how a job stands.
#[inline(never)]
pub fn words_of_end(kind: u16) -> Option<&'static str>
    ensures words { option_map (λ words. words.now) result ≡ end_words kind }
    ensures short { IfSome result (λ words. length words.now ≤ 31) }
{
    match kind {
        0 => Some("next"),
        1 => Some("done"),
        2 => Some("differs"),
        3 => Some("unknown"),
        4 => Some("learned"),
        _ => None,
    }
}

/// The words of a refusal.
pub fn refusal_words(number: u8) -> Option<&'static str>
    ensures words { option_map (λ words. words.now) result ≡ spec_refusal_words number }
    ensures short { IfSome result (λ words. length words.now ≤ 31) }
{
    match number / 16 {
        0 | 1 | 2 => words_of_limit(number),
        3 => words_of_frame(number),
        4 => words_of_device(number),
        5 => words_of_config(number),
        6 => words_of_plan(number)
            .or(words_of_delivery(number))
            .or(words_of_accept(number)),
        _ => words_of_own(number),
    }
}

// The words of a refusal of limits, of their host or of a number.
#[inline(never)]
fn words_of_limit(number: u8) -> Option<&'static str>
    ensures words { option_map (λ words. words.now) result ≡ limit_words number }
    ensures short { IfSome result (λ words. length words.now ≤ 31) }
{
    let fault = match number {
        0x01 => LimitFault::Host(HostFault::OutputCount),
        0x02 => LimitFault::Host(HostFault::Passes),
        0x03 => LimitFault::Host(HostFault::Busy),
        0x04 => LimitFault::Host(HostFault::UnknownOutput),
        0x05 => LimitFault::Host(HostFault::BadWord),
        0x06 => LimitFault::Host(HostFault::TooUncertain),
        0x07 => LimitFault::Host(HostFault::FormatUnknown),
        0x11 => LimitFault::Host(HostFault::Num(NumFault::ZeroSlope)),
        0x12 => LimitFault::Host(HostFault::Num(NumFault::ExponentRange)),
        0x13 => LimitFault::Host(HostFault::Num(NumFault::BelowLeast)),
        0x14 => LimitFault::Host(HostFault::Num(NumFault::AboveGreatest)),
        0x15 => LimitFault::Host(HostFault::Num(NumFault::TooLarge)),
        0x21 => LimitFault::LimitsInverted,
        0x22 => LimitFault::FormatUnknown,
        0x23 => LimitFault::BelowLimit,
        0x24 => LimitFault::AboveLimit,
        0x25 => LimitFault::NotKnownWithin,
        0x26 => LimitFault::LimitsWidened,
        0x27 => LimitFault::MissingRegister,
        0x28 => LimitFault::NoLimits,
        _ => return None,
    };
    Some(fault.words())
}

// The words of what is wrong with a frame, wherever that is.
#[inline(never)]
fn words_of_frame(number: u8) -> Option<&'static str>
    ensures words { option_map (λ words. words.now) result ≡ frame_words number }
    ensures short { IfSome result (λ words. length words.now ≤ 31) }
{
    let fault = match number {
        0x31 => FrameFault::NotOurs,
        0x32 => FrameFault::Short(0),
        0x33 => FrameFault::Long(0),
        0x34 => FrameFault::WrongCount(0),
        0x35 => FrameFault::WrongPec(0),
        0x36 => FrameFault::UnknownCode(0),
        0x37 => FrameFault::WrongDirection(0),
        0x38 => FrameFault::Nested(0),
        _ => return None,
    };
    Some(fault.words())
}

// The words of why a converter refuses a frame.
#[inline(never)]
fn words_of_device(number: u8) -> Option<&'static str>
    ensures words { option_map (λ words. words.now) result ≡ device_words number }
    ensures short { IfSome result (λ words. length words.now ≤ 31) }
{
    let fault = match number {
        0x41 => DeviceFault::Frame(FrameFault::NotOurs),
        0x42 => DeviceFault::UnsupportedCode,
        0x43 => DeviceFault::UnsupportedData,
        0x44 => DeviceFault::BadPage,
        0x45 => DeviceFault::Protected,
        0x46 => DeviceFault::Nested,
        0x47 => DeviceFault::ReadOnly,
        _ => return None,
    };
    Some(fault.words())
}

// The words of why no converter is made.
fn words_of_config(number: u8) -> Option<&'static str>
    ensures words { option_map (λ words. words.now) result ≡ config_words number }
    ensures short { IfSome result (λ words. length words.now ≤ 31) }
{
    let fault = match number {
        0x51 => ConfigFault::OutputCount,
        0x52 => ConfigFault::BadStart(Cell::Protect),
        0x53 => ConfigFault::Address,
        0x54 => ConfigFault::BadMode(0, TableFault::VidMode),
        0x55 => ConfigFault::BadCoefficients(NumFault::ZeroSlope),
        _ => return None,
    };
    Some(fault.words())
}

// The words of why a plan gives no order.
#[inline(never)]
fn words_of_plan(number: u8) -> Option<&'static str>
    ensures words { option_map (λ words. words.now) result ≡ plan_words number }
    ensures short { IfSome result (λ words. length words.now ≤ 31) }
{
    let fault = match number {
        0x61 => PlanFault::FormatUnknown,
        0x64 => PlanFault::NotKnown(Cell::Protect),
        0x65 => PlanFault::BelowMin(Reg::VoutCommand),
        0x66 => PlanFault::AboveMax(Reg::VoutCommand),
        0x67 => PlanFault::Protected(Reg::VoutCommand),
        _ => return None,
    };
    Some(fault.words())
}

// The words of why nothing is ordered though a plan would.
#[inline(never)]
fn words_of_delivery(number: u8) -> Option<&'static str>
    ensures words { option_map (λ words. words.now) result ≡ delivery_words number }
    ensures short { IfSome result (λ words. length words.now ≤ 31) }
{
    match number {
        0x68 => Some(DeliveryFault::BeyondFaultLimit(Question::OvFaultLimit, 0).words()),
        _ => None,
    }
}

// The words of why a held word isn't taken.
#[inline(never)]
fn words_of_accept(number: u8) -> Option<&'static str>
    ensures words { option_map (λ words. words.now) result ≡ accept_words number }
    ensures short { IfSome result (λ words. length words.now ≤ 31) }
{
    match number {
        0x69 => Some(AcceptFault::NotNear.words()),
        _ => None,
    }
}

// The words of what only a caller in C can ask wrongly, of a host, a course, a sequence or a part.
#[inline(never)]
fn words_of_own(number: u8) -> Option<&'static str>
    ensures words { option_map (λ words. words.now) result ≡ own_words number }
    ensures short { IfSome result (λ words. length words.now ≤ 31) }
{
    match number {
        0xE0 => Some("NoHost"),
        0xE1 => Some("NoCell"),
        0xE2 => Some("OtherFrame"),
        0xE3 => Some("NoAddress"),
        0xE4 => Some("NoPacket"),
        0xE5 => Some("NoPart"),
        0xE6 => Some("NoLimits"),
        0xE7 => Some("NoName"),
        0xE8 => Some("NoReading"),
        0xE9 => Some("NoCourse"),
        0xEA => Some("NoRoom"),
        0xEB => Some("NoBand"),
        0xEC => Some("NoDelivery"),
        0xED => Some("NoGoal"),
        0xEF => Some("NoStep"),
        0xF0 => Some("NoSequence"),
        _ => None,
    }
}
