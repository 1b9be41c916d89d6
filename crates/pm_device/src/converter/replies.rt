//! What the converter answers to a request.

ghost use Rattle.std.specs.Prelude.{◌≡◌, ◌<◌, true, false};
ghost use Rattle.pm_frame.specs.Layout.{is_read_message, fits_layout, answer_length, answered, sent, with_pec};
ghost use Rattle.pm_table.specs.Commands.{payload_length};
ghost use Rattle.pm_device.specs.Verdict.{IsFit, verdict_of, names_no_output};
ghost use Rattle.pm_device.specs.Reply as spec;

use crate::converter::{Converter, Ending, Heard};
use crate::verdict::Verdict;
use pm_frame::{Frame, Message, answer};
use pm_table::{Code, cell_of, payloads_are_short};

/// What CAPABILITY answers, by this project's own choice.
const CAPABILITY: u16 = 0x80;

/// What PMBUS_REVISION answers: PMBus 1.3 for both of its parts.
const REVISION: u16 = 0x33;

impl Converter {
    // What a hearing results in.
    pub(super) fn verdict(&self, bytes: &[u8], ending: Ending) -> Verdict
        ensures value { result
            ≡ verdict_of self.now.config self.now.words self.now.page bytes.now ending }
        ensures fit { IsFit self.now.config.count result }
    {
        Verdict::of_bytes(&self.config, &self.settings, self.page, bytes, ending)
    }

    // The answer to what a hearing came to.
    pub(super) fn reply_to(&self, verdict: Verdict) -> Heard
        requires { IsFit self.now.config.count verdict }
        ensures { result ≡ spec.reply_to self.now verdict }
    {
        match verdict {
            Verdict::Ignores => Heard::Silent,
            Verdict::Refuses(fault) => Heard::Refused(fault),
            Verdict::Takes(_) => Heard::Taken,
            Verdict::Answers(request) => Heard::Answer(self.answer_to(&request)),
        }
    }

    // The bytes that answer a request.
    fn answer_to(&self, request: &Message) -> Frame
        requires there { names_no_output self.now.config.count request.now ≡ false }
        requires reads { is_read_message request.now ≡ true }
        requires fits { fits_layout request.now ≡ true }
        ensures { result.items ≡ spec.answer_bytes self.now request.now }
    {
        let addr = self.config.addr;
        match *request {
            Message::PagePlusRead { page, code } => {
                self.register_answer(request, page, Code(code))
            }
            Message::ReadCommand { code } => {
                self.register_answer(request, self.page, Code(code))
            }
            // COEFFICIENTS, the only other read.
            _ => answer(addr, request, &self.config.coefficients.bytes()),
        }
    }

    // The bytes that answer a request with the word of a code at an output.
    fn register_answer(&self, request: &Message, output: u8, code: Code) -> Frame
        requires there { output < self.now.config.count }
        requires reads { is_read_message request.now ≡ true }
        requires fits { fits_layout request.now ≡ true }
        requires counted { answer_length request.now ≡ payload_length code.0 }
        ensures { result.items ≡ with_pec (sent self.now.config.addr request.now)
            (answered self.now.config.addr request.now
            (spec.register_bytes code.0 (spec.register_word self.now output code.0))) }
    {
        // No answer is longer than the two bytes of a word.
        payloads_are_short();
        let bytes = self.register_word(output, code).to_le_bytes();
        answer(self.config.addr, request, &bytes[..request.answer_length()])
    }

    // The word that a code reads as, at an output.
    fn register_word(&self, output: u8, code: Code) -> u16
        requires { output < self.now.config.count }
        ensures { result ≡ spec.register_word self.now output code.0 }
    {
        match cell_of(code, output) {
            Some(cell) => self.word(cell),
            None => self.plain_register(output, code),
        }
    }

    // The word of a register whose code isn't a cell's.
    fn plain_register(&self, output: u8, code: Code) -> u16
        requires { output < self.now.config.count }
        ensures { result ≡ spec.plain_register self.now output code.0 }
    {
        match code {
            Code::PAGE => u16::from(self.page),
            Code::CAPABILITY => CAPABILITY,
            Code::VOUT_MODE => u16::from(self.config.starts[usize::from(output)].mode),
            Code::STATUS_BYTE => u16::from(self.status_byte(output)),
            Code::STATUS_WORD => self.status_word(output),
            Code::STATUS_VOUT => u16::from(self.status_vout(output)),
            Code::STATUS_CML => u16::from(self.status_cml()),
            Code::PMBUS_REVISION => REVISION,
            _ => self.readings.get(output, code),
        }
    }
}
