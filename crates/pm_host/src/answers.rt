//! What came back for a host's own request.

ghost use Rattle.std.specs.Prelude.{◌≡◌, true, length, option_map, IfSome};
ghost use Rattle.pm_table.specs.Address.{IsAddress};
ghost use Rattle.pm_frame.specs.Layout.{answer_length, fits_layout, is_read_message};
ghost use Rattle.pm_host.specs.Answers.{word_in as spec_word_in, good_payload};

use pm_frame::{Message, read_answer};

/// The payload of a good answer; `None` for every other answer.
#[tactic(auto, unfolding(crate::specs::Answers::good_payload))]
pub(crate) fn good_answer<'a>(addr: u8, request: &Message, got: &'a [u8]) -> Option<&'a [u8]>
    requires address { IsAddress addr }
    requires read { is_read_message request.now ≡ true }
    requires fits { fits_layout request.now ≡ true }
    ensures good { option_map (λ payload. payload.now) result ≡ good_payload addr request.now got.entry.now }
    ensures whole { IfSome result (λ payload. length payload.now ≡ answer_length request.now) }
{
    match read_answer(addr, request, got) {
        Ok(payload) => Some(payload),
        Err(_) => None,
    }
}

/// The word of a good answer of one byte or two, low byte first; `None` for every other answer.
pub(crate) fn good_word(addr: u8, request: &Message, got: &[u8]) -> Option<u16>
    requires address { IsAddress addr }
    requires read { is_read_message request.now ≡ true }
    requires fits { fits_layout request.now ≡ true }
    ensures { result ≡ option_map spec_word_in (good_payload addr request.now got.now) }
{
    match good_answer(addr, request, got) {
        Some(payload) => Some(word_in(payload)),
        None => None,
    }
}

/// The word of a payload of one byte or two, low byte first.
pub(crate) fn word_in(payload: &[u8]) -> u16
    ensures { result ≡ spec_word_in payload.now }
{
    match payload {
        [] => 0,
        [byte] => u16::from(*byte),
        [low, high, ..] => u16::from_le_bytes([*low, *high]),
    }
}

/// The byte of a payload of one byte.
pub(crate) fn byte_in(payload: &[u8]) -> u8
    requires { length payload.now ≡ 1 }
    ensures { result ≡ spec_word_in payload.now }
{
    payload[0]
}
