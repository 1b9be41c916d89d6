//! Which limits that were heard of a rail a word is at or beyond, as plain numbers.

ghost use Rattle.std.specs.Prelude.{◌≡◌, ◌<◌};
ghost use Rattle.pm_host.specs.Summary.{format_at};
ghost use Rattle.pm_memory.specs.Delivery.{asked_number, idle_host, judged_number, judgement_by, judgement_image, limit_code, limit_word};

use crate::numbers::{ACCEPTED, NO_DELIVERY, NO_HOST};
use crate::{DeliveryImage, GuardImage};
use pm_delivery::{Delivery, Judgement, Limit};
use pm_host::HostFault;

/// Which limits a word is at or beyond: the command code of each, 0 if there is none, and the word that it holds.
#[repr(C)]
#[derive(Clone, Copy, Debug)]
pub struct JudgementImage {
    /// The fault limit: 40h, 44h or 0.
    pub fault: u8,
    /// The limit of a warning: 42h, 43h or 0.
    pub warning: u8,
    /// The word of the fault limit, otherwise 0.
    pub fault_word: u16,
    /// The word of the warning's limit, otherwise 0.
    pub warning_word: u16,
}

/// Why nothing is judged: E0h, ECh, H4.
pub fn refusal(delivery: &DeliveryImage, host: &GuardImage) -> u8
    ensures number { result ≡ asked_number host.now delivery.now }
    ensures output { result ≡ 0 → delivery.now.delivery.output < 8 }
{
    if host.host.read_stage().is_err() {
        return NO_HOST;
    }
    if !delivery.is_delivery() {
        return NO_DELIVERY;
    }
    if host.host.state.outputs <= delivery.delivery.output {
        return HostFault::UnknownOutput.number();
    }
    ACCEPTED
}

/// Judges a word of an output that the host has.
pub fn judge_in(
    delivery: &Delivery,
    host: &GuardImage,
    word: u16,
    judgement: &mut JudgementImage,
) -> u8
    requires { delivery.now.output < 8 }
    ensures number { result ≡ judged_number (format_at (idle_host host.now) delivery.now.output) delivery.now word }
    ensures judgement { judgement.new ≡ judgement_by (format_at (idle_host host.now) delivery.now.output) delivery.now word judgement.old }
{
    let Some(format) = host.host.state.format(delivery.output).format() else {
        return HostFault::FormatUnknown.number();
    };
    let judged = delivery.judge(&format, word);
    *judgement = JudgementImage::of(&judged);
    match delivery.refuse(&judged) {
        Some(fault) => fault.number(),
        None => ACCEPTED,
    }
}

impl JudgementImage {
    // The numbers of a judgement.
    fn of(judgement: &Judgement) -> JudgementImage
        ensures { result ≡ judgement_image judgement.now }
    {
        JudgementImage {
            fault: code_of(judgement.fault),
            warning: code_of(judgement.warning),
            fault_word: limit_word(judgement.fault),
            warning_word: limit_word(judgement.warning),
        }
    }
}

// The command code of a limit, 0 of none.
fn code_of(limit: Option<Limit>) -> u8
    ensures { result ≡ limit_code limit }
{
    match limit {
        Some(limit) => limit.register.code().0,
        None => 0,
    }
}

// The word of a limit, 0 of none.
fn limit_word(limit: Option<Limit>) -> u16
    ensures { result ≡ limit_word limit }
{
    match limit {
        Some(limit) => limit.word,
        None => 0,
    }
}
