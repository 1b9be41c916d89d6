//! The event lines that most scenarios have most of, eight bytes at a time.
ghost use Rattle.std.specs.Prelude.{◌≡◌, ◌++◌, ℕ, true, Ok, IfSome, codes};
ghost use Rattle.std.specs.Int.{w64, to_be_bytes};
ghost use Rattle.pm_text.specs.EventLines.{event_line};
ghost use Rattle.pm_text.specs.Readers.{line_as};
ghost use Rattle.pm_text.specs.declared.form.Form.{Form};

use pm_world::{Arrival, Back, Event};

// Eight bytes as one number, of which the first is the highest.
const DELIVER: u64 = 0x6465_6C69_7665_7220; // "deliver "

const FINISH: u64 = 0x6669_6E69_7368_2061; // "finish a"

const EXCHANGE: u64 = 0x6578_6368_616E_6765; // "exchange"

const WHOLE: u64 = 0x2077_686F_6C65_2077; // " whole w"

/// Reads one of the lines `deliver whole`, `finish ack` and `exchange whole whole`. False for any other line,
/// whatever it says. It isn't inlined: what the readers of the other lines need would be made ready for these too.
#[tactic(auto, unfolding(crate::specs::EventLines::event_line))]
#[inline(never)]
pub(crate) fn usual_event(text: &[u8], event: &mut Event) -> bool
    ensures { (form : Form) → (number : ℕ) → result ≡ true →
        line_as (event_line form) (number, text.now) ≡ Ok event.new }
{
    if is_deliver_whole(text) {
        *event = Event::Deliver(Arrival::Whole);
        true
    } else if is_finish_ack(text) {
        *event = Event::Finish(true);
        true
    } else if is_exchange_whole(text) {
        *event = Event::Exchange(Arrival::Whole, Back::Whole);
        true
    } else {
        false
    }
}

fn is_deliver_whole(text: &[u8]) -> bool
    ensures { result ≡ true → text.now ≡ codes "deliver whole" }
{
    match behind_eight(text, DELIVER) {
        Some(b"whole") => true,
        _ => false,
    }
}

fn is_finish_ack(text: &[u8]) -> bool
    ensures { result ≡ true → text.now ≡ codes "finish ack" }
{
    match behind_eight(text, FINISH) {
        Some(b"ck") => true,
        _ => false,
    }
}

fn is_exchange_whole(text: &[u8]) -> bool
    ensures { result ≡ true → text.now ≡ codes "exchange whole whole" }
{
    let Some(rest) = behind_eight(text, EXCHANGE) else {
        return false;
    };
    match behind_eight(rest, WHOLE) {
        Some(b"hole") => true,
        _ => false,
    }
}

// What follows the eight bytes of this number at the front of a text.
#[inline]
fn behind_eight(text: &[u8], number: u64) -> Option<&[u8]>
    ensures { IfSome result (λ rest. text.now ≡ to_be_bytes w64 number ++ rest.now) }
{
    let (first, rest) = text.split_first_chunk::<8>()?;
    if u64::from_be_bytes(*first) == number {
        Some(rest)
    } else {
        None
    }
}
