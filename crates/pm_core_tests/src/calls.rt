//! Calls with long contracts, of which the rows need nothing.

ghost use Rattle.std.specs.Prelude.{◌≡◌, true, length};
ghost use Rattle.pm_table.specs.Address.{IsAddress};
ghost use Rattle.pm_frame.specs.Layout.{answer_length, fits_layout, is_read_message};

use pm_frame::{
    Frame, FrameFault, Message, answer, is_betrayed, read_answer, read_request, read_write,
};

/// The message, the page and the code that a write shows.
pub(crate) fn write_shown(addr: u8, bytes: &[u8]) -> Result<(Message, Option<u8>, u8), FrameFault>
    requires { IsAddress addr }
{
    let view = read_write(addr, bytes)?;
    Ok((view.message(), view.page(), view.code()))
}

/// Whether it shows this payload.
pub(crate) fn write_carries(addr: u8, bytes: &[u8], payload: &[u8]) -> bool
    requires { IsAddress addr }
{
    match read_write(addr, bytes) {
        Ok(view) => view.payload() == payload,
        Err(_) => false,
    }
}

/// The message, the page and the code that a request shows.
pub(crate) fn request_shown(addr: u8, bytes: &[u8]) -> Result<(Message, Option<u8>, u8), FrameFault>
    requires { IsAddress addr }
{
    let view = read_request(addr, bytes)?;
    Ok((view.message(), view.page(), view.code()))
}

pub(crate) fn request_carries(addr: u8, bytes: &[u8], payload: &[u8]) -> bool
    requires { IsAddress addr }
{
    match read_request(addr, bytes) {
        Ok(view) => view.payload() == payload,
        Err(_) => false,
    }
}

/// What is put on the wire as the answer.
pub(crate) fn answered(addr: u8, request: &Message, payload: &[u8]) -> Frame
    requires address { IsAddress addr }
    requires read { is_read_message request.now ≡ true }
    requires fits { fits_layout request.now ≡ true }
    requires counted { length payload.now ≡ answer_length request.now }
{
    answer(addr, request, payload)
}

/// Whether an answer is read as this payload.
pub(crate) fn answer_carries(addr: u8, request: &Message, bytes: &[u8], payload: &[u8]) -> bool
    requires address { IsAddress addr }
    requires read { is_read_message request.now ≡ true }
    requires fits { fits_layout request.now ≡ true }
{
    read_answer(addr, request, bytes) == Ok(payload)
}

/// Whether the bytes are no frame after these.
pub(crate) fn betrayed(before: &[u8], bytes: &[u8]) -> bool {
    is_betrayed(before, bytes)
}

/// How long an answer to a message is, with all its bytes.
pub(crate) fn whole_answer(request: &Message) -> usize {
    request.whole_answer()
}
