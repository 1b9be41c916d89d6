//! The fields of objects of JSON.
ghost use Rattle.std.specs.Prelude.{◌≡◌, ◌++◌, OnOk, codes, string_bytes};
ghost use Rattle.pm_lines.specs.Numbers.{hex_byte};
ghost use Rattle.pm_decode.specs.JsonText.{address_field, bytes_field, fault_code, hex_words, key, number_field, number_field_if, signed_field, signed_field_if, text_field};

use pm_lines::{push_decimal, push_hex, push_signed};
use pm_trace::push_spaced;
use std::alloc::AllocError;

/// Appends a key after other fields to a text.
#[tactic(auto, using(pm_lines::specs::Lemmas::Joins::joins), unfolding(crate::specs::JsonText::key))]
pub(crate) fn push_key(text: &mut String, name: &str) -> Result<(), AllocError>
    ensures { OnOk result (string_bytes text.new ≡ string_bytes text.old ++ key name.now) }
{
    text.push_str(",\"")?;
    text.push_str(name)?;
    text.push_str("\":")
}

/// Appends a key after other fields to a text, and the quote before the key's own text.
#[tactic(auto, using(pm_lines::specs::Lemmas::Joins::joins), unfolding(crate::specs::JsonText::key))]
pub(crate) fn push_text_key(text: &mut String, name: &str) -> Result<(), AllocError>
    ensures { OnOk result (string_bytes text.new ≡ string_bytes text.old ++ (key name.now ++ codes "\"")) }
{
    text.push_str(",\"")?;
    text.push_str(name)?;
    text.push_str("\":\"")
}

/// Appends a field with a text of signs of which none has to be escaped.
#[tactic(auto, using(pm_lines::specs::Lemmas::Joins::joins), unfolding(crate::specs::JsonText::text_field))]
pub fn push_text_field(text: &mut String, name: &str, value: &str) -> Result<(), AllocError>
    ensures { OnOk result (string_bytes text.new ≡ string_bytes text.old ++ text_field name.now value.now) }
{
    push_text_key(text, name)?;
    text.push_str(value)?;
    text.push_str("\"")
}

/// Appends a field with a byte in hexadecimal, as a text.
#[tactic(auto, using(pm_lines::specs::Lemmas::Joins::joins), unfolding(crate::specs::JsonText::text_field))]
pub(crate) fn push_hex_field(text: &mut String, name: &str, byte: u8) -> Result<(), AllocError>
    ensures { OnOk result (string_bytes text.new ≡ string_bytes text.old ++ text_field name.now (hex_byte byte)) }
{
    push_text_key(text, name)?;
    push_hex(text, byte)?;
    text.push_str("\"")
}

/// Appends a field with a number.
#[tactic(auto, using(pm_lines::specs::Lemmas::Joins::joins), unfolding(crate::specs::JsonText::number_field))]
pub fn push_number_field(text: &mut String, name: &str, number: u64) -> Result<(), AllocError>
    ensures { OnOk result (string_bytes text.new ≡ string_bytes text.old ++ number_field name.now number) }
{
    push_key(text, name)?;
    push_decimal(text, number)
}

/// Appends a field with a number that may be negative.
#[tactic(auto, using(pm_lines::specs::Lemmas::Joins::joins), unfolding(crate::specs::JsonText::signed_field))]
pub(crate) fn push_signed_field(
    text: &mut String,
    name: &str,
    number: i128,
) -> Result<(), AllocError>
    ensures { OnOk result (string_bytes text.new ≡ string_bytes text.old ++ signed_field name.now number) }
{
    push_key(text, name)?;
    push_signed(text, number)
}

/// Appends a field with a number, if there is one.
pub(crate) fn push_number_field_if(
    text: &mut String,
    name: &str,
    number: Option<u64>,
) -> Result<(), AllocError>
    ensures { OnOk result (string_bytes text.new ≡ string_bytes text.old ++ number_field_if name.now number) }
{
    match number {
        Some(number) => push_number_field(text, name, number),
        None => Ok(()),
    }
}

/// Appends a field with a number that may be negative, if there is one.
pub fn push_signed_field_if(
    text: &mut String,
    name: &str,
    number: Option<i128>,
) -> Result<(), AllocError>
    ensures { OnOk result (string_bytes text.new ≡ string_bytes text.old ++ signed_field_if name.now number) }
{
    match number {
        Some(number) => push_signed_field(text, name, number),
        None => Ok(()),
    }
}

/// Appends bytes in hexadecimal, with a space between two of them.
#[tactic(auto, using(pm_lines::specs::Lemmas::Joins::joins))]
fn push_hex_words(text: &mut String, bytes: &[u8]) -> Result<(), AllocError>
    ensures { OnOk result (string_bytes text.new ≡ string_bytes text.old ++ hex_words bytes.now) }
{
    let [byte, rest @ ..] = bytes else {
        return Ok(());
    };
    push_hex(text, *byte)?;
    push_spaced(text, rest)
}

/// Appends a field with bytes, if there are any.
#[tactic(auto, using(pm_lines::specs::Lemmas::Joins::joins), unfolding(crate::specs::JsonText::bytes_field, crate::specs::JsonText::text_field))]
pub(crate) fn push_bytes_field(
    text: &mut String,
    name: &str,
    bytes: &[u8],
) -> Result<(), AllocError>
    ensures { OnOk result (string_bytes text.new ≡ string_bytes text.old ++ bytes_field name.now bytes.now) }
{
    if bytes.is_empty() {
        return Ok(());
    }
    push_text_key(text, name)?;
    push_hex_words(text, bytes)?;
    text.push_str("\"")
}

/// Appends the field of an address, if there is one.
pub fn push_address_field(text: &mut String, addr: Option<u8>) -> Result<(), AllocError>
    ensures { OnOk result (string_bytes text.new ≡ string_bytes text.old ++ address_field addr) }
{
    match addr {
        Some(addr) => push_hex_field(text, "address", addr),
        None => Ok(()),
    }
}

/// Appends the code of a packet with a fault, if it has an address and a code.
pub(crate) fn push_fault_code(
    text: &mut String,
    addr: Option<u8>,
    write: &[u8],
) -> Result<(), AllocError>
    ensures { OnOk result (string_bytes text.new ≡ string_bytes text.old ++ fault_code addr write.now) }
{
    match (addr, write) {
        (Some(_), [_, code, ..]) => push_hex_field(text, "code", *code),
        _ => Ok(()),
    }
}
