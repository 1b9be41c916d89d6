//! What a hearing results in.

ghost use Rattle.std.specs.Prelude.{◌≡◌, ◌<◌, ◌≤◌, ◌^◌, ℕ, true, length};
ghost use Rattle.pm_table.specs.Commands.{payload_length};
ghost use Rattle.pm_frame.specs.Layout.{fits_layout, is_read_message, payload_bytes};
ghost use Rattle.pm_frame.specs.View.{message_code};
ghost use Rattle.pm_device.specs.Start.{IsSound, has_direct};
ghost use Rattle.pm_device.specs.Verdict as spec;

use crate::act::Act;
use crate::config::Config;
use crate::converter::Ending;
use crate::fault::DeviceFault;
use pm_frame::{FrameFault, FrameView, Message, Payload, read_request, read_write};
use pm_model::Plain;
use pm_table::{Cell, Code, is_allowed};

/// What a hearing results in.
#[derive(Clone, Copy, Debug)]
pub(crate) enum Verdict {
    /// The frame is for another device.
    Ignores,
    /// The frame is refused.
    Refuses(DeviceFault),
    /// A write is taken, and does this.
    Takes(Act),
    /// The request of a read is answered.
    Answers(Message),
}

impl Verdict {
    /// What bytes of any number come to.
    #[tactic(auto, unfolding(crate::specs::Verdict::verdict_of))]
    pub(crate) fn of_bytes(
        config: &Config,
        settings: &Plain,
        page: u8,
        bytes: &[u8],
        ending: Ending,
    ) -> Verdict
        requires sound { IsSound config.now }
        requires count { settings.now.count ≡ config.now.count }
        requires page { page < config.now.count }
        ensures value { result
            ≡ spec.verdict_of config.now settings.now.words page bytes.now ending }
        ensures fit { spec.IsFit config.now.count result }
    {
        match ending {
            Ending::Stop => match read_write(config.addr, bytes) {
                Ok(view) => Verdict::of_write(config, settings, page, &view),
                Err(fault) => Verdict::of_fault(fault),
            },
            Ending::Restart => match read_request(config.addr, bytes) {
                Ok(view) => Verdict::of_request(config, &view),
                Err(fault) => Verdict::of_fault(fault),
            },
        }
    }

    // Silence for a frame to another device; K1, K2, K6 or K7 for a faulty one.
    fn of_fault(fault: FrameFault) -> Verdict
        ensures value { result ≡ spec.fault_verdict fault }
        ensures fit { (count : ℕ) → spec.IsFit count result }
    {
        match fault {
            FrameFault::NotOurs => Verdict::Ignores,
            FrameFault::UnknownCode(_) => Verdict::Refuses(DeviceFault::UnsupportedCode),
            FrameFault::WrongDirection(_) => Verdict::Refuses(DeviceFault::ReadOnly),
            FrameFault::Nested(_) => Verdict::Refuses(DeviceFault::Nested),
            FrameFault::Short(_)
            | FrameFault::Long(_)
            | FrameFault::WrongCount(_)
            | FrameFault::WrongPec(_) => Verdict::Refuses(DeviceFault::Frame(fault)),
        }
    }

    // A write without a fault: what its act results in. Each code that a frame writes has an act: the arm for K2
    // is for the compiler.
    fn of_write(config: &Config, settings: &Plain, page: u8, view: &FrameView<'_>) -> Verdict
        requires fits { fits_layout view.now ≡ true }
        requires count { settings.now.count ≡ config.now.count }
        requires page { page < config.now.count }
        ensures value { result ≡ spec.write_verdict config.now settings.now.words page view.now }
        ensures fit { spec.IsFit config.now.count result }
    {
        let code = view.code();
        let named = view.page();
        let word = written_word(&view.message());
        match Act::of_code(Code(code), named.unwrap_or(page), word) {
            None => Verdict::Refuses(DeviceFault::UnsupportedCode),
            Some(act) => Verdict::of_act(config.count, settings.get(Cell::Protect), view, act),
        }
    }

    // What an act results in: K4, K5 or K3, otherwise it is taken.
    fn of_act(count: u8, protect: u16, view: &FrameView<'_>, act: Act) -> Verdict
        requires output { (page : ℕ) × (page < count) × spec.ActsOn (spec.output_in page view.now) act }
        ensures value { result ≡ spec.act_verdict count protect view.now act }
        ensures fit { spec.IsFit count result }
    {
        if names_no_output(count, view) || act.selects_no_output(count) {
            return Verdict::Refuses(DeviceFault::BadPage);
        }
        if !is_allowed(protect, Code(view.code())) {
            return Verdict::Refuses(DeviceFault::Protected);
        }
        if !act.is_accepted() {
            return Verdict::Refuses(DeviceFault::UnsupportedData);
        }
        Verdict::Takes(act)
    }

    // What a request without a fault of its frame comes to: K4 for an output that isn't there, K3 for
    // coefficients that the part doesn't answer, otherwise an answer.
    fn of_request(config: &Config, view: &FrameView<'_>) -> Verdict
        requires few { config.now.count ≤ 8 }
        requires reads { is_read_message view.now ≡ true }
        requires fits { fits_layout view.now ≡ true }
        ensures value { result ≡ spec.read_verdict config.now view.now }
        ensures fit { spec.IsFit config.now.count result }
    {
        let request = view.message();
        match request {
            Message::ReadCoefficients { code, side }
                if !config.answers_coefficients(Code(code), side) => {
                Verdict::Refuses(DeviceFault::UnsupportedData)
            }
            Message::PagePlusRead { page, code: _ } if page >= config.count => {
                Verdict::Refuses(DeviceFault::BadPage)
            }
            _ => Verdict::Answers(request),
        }
    }
}

// Whether a packet names a page that has no output.
fn names_no_output(count: u8, view: &FrameView<'_>) -> bool
    ensures { result ≡ spec.names_no_output count view.now }
{
    match view.page() {
        Some(page) => page >= count,
        None => false,
    }
}

// The number that a write carries, 0 for none.
fn written_word(message: &Message) -> u16
    ensures word { result ≡ spec.written_word message.now }
    ensures byte { fits_layout message.now ≡ true →
        payload_length (message_code message.now) ≡ 1 → result < 2 ^ 8 }
{
    match *message {
        Message::WriteByte { code: _, byte } => u16::from(byte),
        Message::WriteWord { code: _, word } => word,
        Message::PagePlusWrite {
            page: _,
            code: _,
            payload,
        } => payload_word(payload),
        _ => 0,
    }
}

// The number that a payload is, 0 for no byte.
fn payload_word(payload: Payload) -> u16
    ensures word { result ≡ spec.payload_word payload }
    ensures byte { length (payload_bytes payload) ≡ 1 → result < 2 ^ 8 }
{
    match payload {
        Payload::Empty => 0,
        Payload::Byte(byte) => u16::from(byte),
        Payload::Word(word) => word,
    }
}
