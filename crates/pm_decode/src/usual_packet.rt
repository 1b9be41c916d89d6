//! A word that PAGE_PLUS carries, written or read: the packets that captures have most of.
ghost use Rattle.std.specs.Prelude.{◌≡◌, ◌<◌, ◌∷◌, [], true, IfSome, None, Some};
ghost use Rattle.pm_frame.specs.Layout.{write_address};
ghost use Rattle.pm_table.specs.Commands.{is_read, is_written, payload_length};
ghost use Rattle.pm_trace.specs.Trace.{address_of, parts_judged};
ghost use Rattle.pm_decode.specs.UsualLines.{IsUsual};

use crate::usual_line::Usual;
use pm_frame::{Payload, answers_are_exact, pec, pec_after, requests_are_exact, writes_are_exact};
use pm_table::{Code, address_ok};

/// A good write of a word by PAGE_PLUS_WRITE. The clauses leave open when None comes.
pub(crate) fn carried_write(write: &[u8]) -> Option<Usual>
    ensures { IfSome result (λ usual. IsUsual usual (parts_judged write.now None)) }
{
    writes_are_exact(); // law: a write is good exactly if its bytes are those of its message
    // four bytes are counted: the page, the code and the word
    let [first, plus, 4, page, code, low, high, last] = write else {
        return None;
    };
    if *plus != Code::PAGE_PLUS_WRITE.0 {
        return None;
    }
    let addr = address_in(*first)?;
    if !is_word_written(*code) || pec(&write[..7]) != *last {
        return None;
    }
    Some(Usual {
        addr,
        page: Some(*page),
        code: *code,
        payload: Payload::Word(u16::from_le_bytes([*low, *high])),
        is_read: false,
    })
}

/// A good read of a word by PAGE_PLUS_READ. The clauses leave open when None comes.
pub(crate) fn carried_read(write: &[u8], read: &[u8]) -> Option<Usual>
    ensures { IfSome result (λ usual. IsUsual usual (parts_judged write.now (Some read.now))) }
{
    requests_are_exact(); // law: the same of a request
    answers_are_exact(); // law: the same of an answer
    // two bytes are counted: the page and the code
    let [first, plus, 2, page, code] = write else {
        return None;
    };
    if *plus != Code::PAGE_PLUS_READ.0 {
        return None;
    }
    let [back, 2, low, high, last] = read else {
        return None;
    };
    let addr = address_in(*first)?;
    if *back != *first + 1 || !is_word_read(*code) || pec_after(pec(write), &read[..4]) != *last {
        return None;
    }
    Some(Usual {
        addr,
        page: Some(*page),
        code: *code,
        payload: Payload::Word(u16::from_le_bytes([*low, *high])),
        is_read: true,
    })
}

// The address that a first byte gives.
fn address_in(first: u8) -> Option<u8>
    ensures address { result ≡ address_of (first ∷ []) }
    ensures write { IfSome result (λ addr. first ≡ write_address addr) }
    ensures few { IfSome result (λ addr. first < 255) }
{
    if first % 2 == 0 && address_ok(first / 2) {
        Some(first / 2)
    } else {
        None
    }
}

// Whether the code has a word that is written.
fn is_word_written(code: u8) -> bool
    ensures written { result ≡ true → is_written code ≡ true }
    ensures word { result ≡ true → payload_length code ≡ 2 }
{
    match Code(code).attributes() {
        Some(attributes) => attributes.length == 2 && attributes.protection.is_ever_written(),
        None => false,
    }
}

// Whether the code has a word that is read.
fn is_word_read(code: u8) -> bool
    ensures read { result ≡ true → is_read code ≡ true }
    ensures word { result ≡ true → payload_length code ≡ 2 }
{
    match Code(code).attributes() {
        Some(attributes) => attributes.length == 2 && attributes.reads,
        None => false,
    }
}
