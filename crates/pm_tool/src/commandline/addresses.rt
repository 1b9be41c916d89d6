//! The texts of `--part` and `--mux`: addresses with commas between them.
ghost use Rattle.std.specs.Prelude.{◌≡◌, [], map, option_map, unwrap_or};
ghost use Rattle.pm_tool.specs.AddressList as spec;
ghost use Rattle.pm_tool.specs.Question.{items};

use crate::numbers::first_item;
use pm_decode::Addresses;
use pm_lines::read_byte;
use pm_table::address_ok;

/// The addresses that the texts, as `70,71`, name; None if one names none that can be a part's or a mux's.
pub(super) fn read_addresses(texts: Option<&[&str]>) -> Option<Addresses>
    ensures { result ≡ spec.addresses_asked (unwrap_or (option_map (λ list. map (λ text. text.now) list.now) texts.entry) []) }
{
    add_texts(&Addresses::none(), texts.unwrap_or(&[]))
}

// Adds the addresses that the texts name.
fn add_texts(made: &Addresses, texts: &[&str]) -> Option<Addresses>
    ensures { result ≡ spec.texts_named made.now (map (λ text. text.now) texts.now) }
{
    match texts {
        [] => Some(*made),
        [text, rest @ ..] => add_texts(&add_items(made, text)?, rest),
    }
}

// Adds those of a text.
fn add_items(made: &Addresses, text: &str) -> Option<Addresses>
    ensures { result ≡ spec.items_named made.now (items text.now) }
{
    match first_item(text) {
        Some((item, rest)) => add_items(&add_item(made, item)?, rest),
        None => add_item(made, text),
    }
}

// Adds the one that a text is.
fn add_item(made: &Addresses, text: &str) -> Option<Addresses>
    ensures { result ≡ spec.item_named made.now text.now }
{
    match read_byte(text.as_bytes()) {
        Some(addr) if address_ok(addr) && addr != 0x0C => Some(made.with(addr)),
        _ => None,
    }
}
