//! What a capture teaches of the formats of words.
ghost use Rattle.std.specs.Prelude.{◌≡◌, Some, option_map, slice_index};
ghost use Rattle.pm_num.specs.AnyFormat.{InUlinear16, shape_of};
ghost use Rattle.pm_num.specs.Formats.{IsExponent};
ghost use Rattle.pm_table.specs.Codes as command;
ghost use Rattle.pm_trace.specs.Taught.{format_given as spec_format_given, is_never_relative as spec_is_never_relative, is_reading_code as spec_is_reading, is_output_voltage_code as spec_is_voltage, relative_shape};
ghost use Rattle.pm_trace.specs.Modes.{key_of as spec_key_of};

use crate::formats::{GivenFormats, direct_only, format_given};
use crate::meaning::{GoodPacket, exponent_in};
use crate::mode_changes::ModeChange;
use crate::modes::{Modes, key_of};
use crate::{Shown, coefficients_in};
use indexmap::IndexMap;
use pm_frame::Message;
use pm_num::AnyFormat;
use pm_table::{Code, Coefficients, VoutMode, cell_of, format_of};
use std::alloc::{AllocError, Global};
use std::marker::Model;

/// A word whose format is asked for.
#[derive(Clone, Copy, Debug)]
pub(crate) struct Asked {
    /// The address of its packet.
    pub(crate) addr: u8,
    /// The output that the packet reaches, if it is known.
    pub(crate) page: Option<u8>,
    /// The code of the word.
    pub(crate) code: u8,
    /// The word was read, and not written.
    pub(crate) is_read: bool,
}

/// The VOUT_MODE byte of each output that answered with one, and the coefficients of each code of each address: the last
/// ones; and the addresses that answered with ULINEAR16. It takes memory for an output, a code and an address that is new.
#[derive(Debug, Drop)]
pub struct Lessons {
    modes: Modes,
    // The coefficients of words that are written, and of those that are read.
    to_write: IndexMap<u16, Coefficients>,
    to_read: IndexMap<u16, Coefficients>,
    linear: IndexMap<u8, bool>,
}

impl Model for Lessons {
    ghost use Rattle.pm_trace.specs.Taught.{Taught};

    ghost Value = { Taught };

    ghost view = { λ l. record { modes = l.modes; to_write = l.to_write.entries; to_read = l.to_read.entries; linear = l.linear.entries } };
}

impl Lessons {
    ghost use Rattle.std.specs.Prelude.{OnOk, nat_eq};
    ghost use Rattle.std.specs.Map.{lookup};
    ghost use Rattle.pm_table.specs.VoutMode.{IsMode};
    ghost use Rattle.pm_trace.specs.ShownLines.{judged_in};
    ghost use Rattle.pm_trace.specs.Taught.{answer_taught, changed_by, coefficients_known, coefficients_taught, is_assumed, linear_taught, mode_taught, packet_shape, paged_if, reading_shape, shape_known, shape_of_byte, side_taught, taught_by, taught_lost, untaught, taught_voltage_shape};

    /// Nothing yet. Takes no memory.
    pub fn new(alloc: Global) -> Lessons
        ensures { result ≡ untaught }
    {
        Lessons {
            modes: Modes::new(alloc),
            to_write: IndexMap::new(alloc),
            to_read: IndexMap::new(alloc),
            linear: IndexMap::new(alloc),
        }
    }

    /// Forgets the modes of an address that the packet of this line may have changed: no voltage of these outputs has a
    /// format until the mode is read again. Takes memory for an output and an address that is new.
    pub fn forget(
        &mut self,
        line: u64,
        addr: Option<u8>,
        change: ModeChange,
    ) -> Result<(), AllocError>
        ensures { OnOk result (self.new ≡ changed_by line addr change self.old) }
    {
        self.modes.change(line, addr, change)
    }

    /// Forgets the modes of all addresses, since something was lost in this line.
    pub fn lose(&mut self, line: u64)
        ensures { self.new ≡ taught_lost line self.old }
    {
        self.modes.lose(line);
    }

    /// Learns that an address has pages, if it has: its plain modes say nothing any more. Takes memory for an address that is new.
    pub fn see_pages(&mut self, addr: Option<u8>, has_pages: bool) -> Result<(), AllocError>
        ensures { OnOk result (self.new ≡ paged_if has_pages addr self.old) }
    {
        match addr {
            Some(addr) if has_pages => self.modes.page(addr),
            _ => Ok(()),
        }
    }

    /// Learns what the packet of a line says: a good answer to a read of VOUT_MODE, or to COEFFICIENTS of a code that has a
    /// voltage; every other packet teaches nothing. `reached` is the output that a packet reaches which names none, if
    /// that is known. Takes memory for an output, a code and an address that is new.
    pub fn learn(
        &mut self,
        line: u64,
        reached: Option<u8>,
        shown: &Shown<'_>,
    ) -> Result<(), AllocError>
        ensures { OnOk result (self.new ≡ taught_by line reached self.old (judged_in shown.now)) }
    {
        match shown {
            Shown::Accepted {
                addr,
                view,
                answer: Some(answer),
            } => {
                let packet = GoodPacket {
                    addr: *addr,
                    reached,
                    view,
                    answer: Some(answer),
                };
                self.learn_answer(line, &packet, answer)
            }
            _ => Ok(()),
        }
    }

    // Learns from a good packet that was answered so.
    fn learn_answer(
        &mut self,
        line: u64,
        packet: &GoodPacket<'_>,
        answer: &[u8],
    ) -> Result<(), AllocError>
        ensures { OnOk result (self.new ≡ answer_taught line self.old packet.now.addr packet.now.reached packet.now.view.now answer.now) }
    {
        let addr = packet.addr;
        let byte = byte_in(answer);
        match packet.view.message() {
            Message::PagePlusRead { page, code } => {
                self.learn_linear(addr, code, byte)?;
                if Code(code) == Code::VOUT_MODE {
                    self.learn_mode(line, addr, Some(page), byte)?;
                }
                Ok(())
            }
            Message::ReadCoefficients { code, side } => {
                self.learn_coefficients(addr, code, side, answer)
            }
            Message::ReadCommand { code } => {
                self.learn_linear(addr, code, byte)?;
                if Code(code) == Code::VOUT_MODE {
                    self.learn_mode(line, addr, packet.reached, byte)?;
                }
                Ok(())
            }
            _ => Ok(()),
        }
    }

    // Learns that an address has ULINEAR16.
    fn learn_linear(&mut self, addr: u8, code: u8, byte: u8) -> Result<(), AllocError>
        ensures { OnOk result (self.new ≡ linear_taught self.old addr code byte) }
    {
        if Code(code) == Code::VOUT_MODE && byte < 0x20 {
            self.linear.insert(addr, true)?;
        }
        Ok(())
    }

    // Learns the mode of an output, or of a plain packet whose output isn't known.
    fn learn_mode(
        &mut self,
        line: u64,
        addr: u8,
        page: Option<u8>,
        byte: u8,
    ) -> Result<(), AllocError>
        ensures { OnOk result (self.new ≡ mode_taught line self.old addr page command.vout_mode byte) }
    {
        match page {
            Some(page) => self.modes.say(line, addr, page, Some(byte)),
            None => self.modes.say_plain(line, addr, byte),
        }
    }

    // Learns the coefficients of a code on a side.
    fn learn_coefficients(
        &mut self,
        addr: u8,
        code: u8,
        side: u8,
        answer: &[u8],
    ) -> Result<(), AllocError>
        ensures { OnOk result (self.new ≡ coefficients_taught self.old addr code side answer.now) }
    {
        if is_voltage(code) {
            self.learn_side(side, key_of(addr, code), coefficients_in(answer))
        } else {
            Ok(())
        }
    }

    // Learns coefficients of words that are written, side 0, or read, side 1.
    fn learn_side(
        &mut self,
        side: u8,
        key: u16,
        coefficients: Coefficients,
    ) -> Result<(), AllocError>
        ensures { OnOk result (self.new ≡ side_taught self.old side key coefficients) }
    {
        match side {
            0 => {
                self.to_write.insert(key, coefficients)?;
            }
            1 => {
                self.to_read.insert(key, coefficients)?;
            }
            _ => {}
        }
        Ok(())
    }

    /// The format of a word.
    pub(crate) fn format(&self, given: &GivenFormats, asked: Asked) -> Option<AnyFormat>
        ensures { option_map shape_of result ≡ packet_shape given.now self.now asked }
    {
        if is_voltage(asked.code) {
            return self.voltage_format(given, asked);
        }
        if is_reading(asked.code) {
            return self.reading_format(given, asked.addr, asked.code);
        }
        None
    }

    /// Whether the format of a word is only assumed: it is a reading's, which neither the capture nor an option gave.
    pub fn is_assumed(&self, given: &GivenFormats, addr: u8, code: u8) -> bool
        ensures { result ≡ is_assumed given.now self.now addr code }
    {
        is_reading(code)
            && format_given(&given.readings, addr, code).is_none()
            && self.linear.get(&addr).is_some()
    }

    // The format of a voltage: that of the mode which was taught, otherwise the one that is given.
    fn voltage_format(&self, given: &GivenFormats, asked: Asked) -> Option<AnyFormat>
        ensures { option_map shape_of result
            ≡ taught_voltage_shape (spec_format_given given.now.vout asked.addr asked.code) self.now asked }
    {
        match self.modes.of_page(asked.addr, asked.page) {
            None => format_given(&given.vout, asked.addr, asked.code),
            Some(None) => None,
            Some(Some(byte)) => self.byte_format(given, byte, asked),
        }
    }

    // The format of a mode by its byte.
    fn byte_format(&self, given: &GivenFormats, byte: u8, asked: Asked) -> Option<AnyFormat>
        ensures { option_map shape_of result ≡ shape_of_byte (spec_format_given given.now.vout asked.addr asked.code) asked.code byte
            (coefficients_known self.now asked.is_read (spec_key_of asked.addr asked.code)) }
    {
        if byte / 32 == 4 {
            return relative_format(asked.code, byte);
        }
        match VoutMode::read(byte) {
            Ok(mode) => self.mode_format(given, mode, asked),
            Err(_) => None,
        }
    }

    // The format of a mode: DIRECT has the coefficients that were taught, otherwise those of the format that is given.
    fn mode_format(&self, given: &GivenFormats, mode: VoutMode, asked: Asked) -> Option<AnyFormat>
        requires { IsMode mode }
        ensures { option_map shape_of result ≡ shape_known (spec_format_given given.now.vout asked.addr asked.code) mode
            (coefficients_known self.now asked.is_read (spec_key_of asked.addr asked.code)) }
    {
        let coefficients = match mode {
            VoutMode::Linear(_) => Coefficients { m: 0, b: 0, r: 0 },
            VoutMode::Direct => match self.coefficients(asked) {
                Some(coefficients) => coefficients,
                None => return direct_only(format_given(&given.vout, asked.addr, asked.code)),
            },
        };
        match format_of(mode, coefficients) {
            Ok(format) => Some(format),
            Err(_) => None,
        }
    }

    // The coefficients of a word: those of its own side, or those of the other side if its own wasn't taught.
    fn coefficients(&self, asked: Asked) -> Option<Coefficients>
        ensures { result ≡ coefficients_known self.now asked.is_read (spec_key_of asked.addr asked.code) }
    {
        let key = key_of(asked.addr, asked.code);
        let to_write = self.to_write.get(&key).copied();
        let to_read = self.to_read.get(&key).copied();
        let (own, other) = if asked.is_read {
            (to_read, to_write)
        } else {
            (to_write, to_read)
        };
        match own {
            Some(coefficients) => Some(coefficients),
            None => other,
        }
    }

    // The format of a reading: the one that is given, otherwise LINEAR11 if a mode of ULINEAR16 was seen.
    fn reading_format(&self, given: &GivenFormats, addr: u8, code: u8) -> Option<AnyFormat>
        ensures { option_map shape_of result ≡ reading_shape given.now.readings self.now addr code }
    {
        match format_given(&given.readings, addr, code) {
            Some(format) => Some(format),
            None => {
                self.linear.get(&addr)?;
                Some(AnyFormat::Linear11)
            }
        }
    }
}

// The format of a voltage by a relative mode: ULINEAR16 for all that is never relative.
fn relative_format(code: u8, byte: u8) -> Option<AnyFormat>
    ensures { option_map shape_of result ≡ relative_shape code byte }
{
    if is_never_relative(code) {
        linear_format(exponent_in(byte))
    } else {
        None
    }
}

// ULINEAR16 with an exponent.
fn linear_format(exponent: i8) -> Option<AnyFormat>
    requires { IsExponent exponent }
    ensures { option_map shape_of result ≡ Some (InUlinear16 exponent) }
{
    let none = Coefficients { m: 0, b: 0, r: 0 };
    match format_of(VoutMode::Linear(exponent), none) {
        Ok(format) => Some(format),
        Err(_) => None,
    }
}

// Whether a voltage is never relative: VOUT_COMMAND, VOUT_MAX, VOUT_MIN and READ_VOUT.
fn is_never_relative(code: u8) -> bool
    ensures { result ≡ spec_is_never_relative code }
{
    let code = Code(code);
    code == Code::VOUT_COMMAND
        || code == Code::VOUT_MAX
        || code == Code::VOUT_MIN
        || code == Code::READ_VOUT
}

// The first byte of an answer, 0 if it has none.
fn byte_in(answer: &[u8]) -> u8
    ensures { result ≡ slice_index answer.now 0 }
{
    answer.first().copied().unwrap_or(0)
}

// Whether the words of a code are readings, each in a format of its own.
fn is_reading(code: u8) -> bool
    ensures { result ≡ spec_is_reading code }
{
    let code = Code(code);
    code == Code::READ_VIN || code == Code::READ_IOUT || code == Code::READ_TEMPERATURE_1
}

/// Whether the words of a code are voltages of an output.
pub(crate) fn is_voltage(code: u8) -> bool
    ensures { result ≡ spec_is_voltage code }
{
    let code = Code(code);
    match cell_of(code, 0) {
        Some(cell) => cell.is_voltage(),
        None => code == Code::READ_VOUT,
    }
}
