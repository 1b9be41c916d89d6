//! What a packet may change of the words of registers.
ghost use Rattle.std.specs.Prelude.{◌≡◌};
ghost use Rattle.pm_decode.specs.WordChanges.{word_change_by as spec_change_by, word_end_by as spec_end_by, end_of_word as spec_end_of_word, is_change as spec_is_change, is_of_memory as spec_is_of_memory, is_watched as spec_is_watched, reaches_all as spec_reaches_all, word_change as spec_word_change};

use pm_table::Code;

/// What a packet may write of the words of registers, whatever fault it has.
#[derive(Clone, Copy, Debug, PartialEq, Eq)]
pub enum WordChange {
    /// None of them.
    Nothing,
    /// That of a code, of the page that the packet names, if it names one.
    OfWord(Option<u8>, u8),
    /// All of them: STORE or RESTORE.
    OfMemory,
}

/// Which words aren't known any more after a packet.
#[derive(Clone, Copy, Debug, PartialEq, Eq)]
pub enum WordEnd {
    /// None of them.
    OfNone,
    /// That of an output's code.
    OfOutput(u8, u8),
    /// That of a code, of all outputs of its address.
    OfCode(u8),
    /// All of its address.
    OfAll,
    /// All of each address.
    OfEach,
}

/// What a packet may write by its write part.
pub(crate) fn word_change(write: &[u8]) -> WordChange
    ensures { result ≡ spec_word_change write.now }
{
    let [_, code, rest @ ..] = write else {
        return WordChange::Nothing;
    };
    if Code(*code) == Code::PAGE_PLUS_WRITE {
        let named = rest.get(1).copied().unwrap_or(0);
        let carried = rest.get(2).copied().unwrap_or(0);
        change_by(Some(named), carried, rest.len() > 3)
    } else {
        change_by(None, *code, !rest.is_empty())
    }
}

// What a packet may write by its code, the page that it names, and whether a byte of data follows the code.
#[tactic(auto, unfolding(crate::specs::WordChanges::word_change_by))]
fn change_by(named: Option<u8>, code: u8, has_data: bool) -> WordChange
    ensures { result ≡ spec_change_by named code has_data }
{
    if is_of_memory(code) {
        WordChange::OfMemory
    } else if has_data && is_watched(code) {
        WordChange::OfWord(named, code)
    } else {
        WordChange::Nothing
    }
}

// Whether a code stores or restores registers: STORE_DEFAULT_ALL to RESTORE_USER_CODE.
fn is_of_memory(code: u8) -> bool
    ensures { result ≡ spec_is_of_memory code }
{
    0x11 <= code && code <= 0x18
}

/// Whether a register's word changes only by a write or from memory: OPERATION, ON_OFF_CONFIG, WRITE_PROTECT, VOUT_MODE,
/// VOUT_COMMAND to VOUT_MIN, and VOUT_OV_FAULT_LIMIT to POUT_OP_WARN_LIMIT.
pub(crate) fn is_watched(code: u8) -> bool
    ensures { result ≡ spec_is_watched code }
{
    Code(code) == Code::OPERATION
        || code == 0x02
        || Code(code) == Code::WRITE_PROTECT
        || (Code::VOUT_MODE.0 <= code && code <= Code::VOUT_MIN.0)
        || (0x40 <= code && code <= 0x6B)
}

/// Whether a packet to this address may be of any part: a general call, or a write to a zone.
pub(crate) fn reaches_all(addr: u8) -> bool
    ensures { result ≡ spec_reaches_all addr }
{
    addr == 0x00 || addr == 0x37
}

/// Whether a packet may write something.
pub(crate) fn is_change(change: WordChange) -> bool
    ensures { result ≡ spec_is_change change }
{
    !matches!(change, WordChange::Nothing)
}

/// What a packet ends: `is_to_all` is whether it is a general call or a write to a zone, `page` the one that plain packets reach.
pub(crate) fn end_by(
    is_restart: bool,
    is_to_all: bool,
    is_clear: bool,
    page: Option<u8>,
    change: WordChange,
) -> WordEnd
    ensures { result ≡ spec_end_by is_restart is_to_all is_clear page change }
{
    match change {
        WordChange::Nothing if is_restart => WordEnd::OfAll,
        WordChange::Nothing => WordEnd::OfNone,
        _ if is_to_all => WordEnd::OfEach,
        WordChange::OfMemory => WordEnd::OfAll,
        WordChange::OfWord(..) if is_restart => WordEnd::OfAll,
        WordChange::OfWord(named, code) => end_of_word(is_clear, code, named.or(page)),
    }
}

// What a write of a code to a page ends, if that is known.
fn end_of_word(is_clear: bool, code: u8, page: Option<u8>) -> WordEnd
    ensures { result ≡ spec_end_of_word is_clear code page }
{
    match page {
        Some(page) if is_clear && page != 0xFF && Code(code) != Code::WRITE_PROTECT => {
            WordEnd::OfOutput(page, code)
        }
        _ => WordEnd::OfCode(code),
    }
}
