//! What a packet may change of what is known of its address.
ghost use Rattle.std.specs.Prelude.{◌≡◌};
ghost use Rattle.pm_trace.specs.Pages.{code_touch as spec_code_touch, is_paging as spec_is_paging, is_restore as spec_is_restore, touch_of as spec_touch_of};

use pm_table::Code;

/// What a packet may change by its write part alone, whatever fault it has.
#[derive(Clone, Copy, Debug, PartialEq, Eq)]
pub enum Touch {
    /// Neither PAGE nor VOUT_MODE.
    Nothing,
    /// PAGE is read.
    AsksPage,
    /// PAGE is written.
    WritesPage,
    /// VOUT_MODE is written, of the page that the packet names, if it names one.
    WritesMode(Option<u8>),
    /// RESTORE: all registers.
    Restores,
}

/// What a packet may change by its write part; `is_read` is whether a read part follows.
pub fn touch_of(write: &[u8], is_read: bool) -> Touch
    ensures { result ≡ spec_touch_of write.now is_read }
{
    let [_, code, rest @ ..] = write else {
        return Touch::Nothing;
    };
    if Code(*code) == Code::PAGE_PLUS_WRITE {
        let named = rest.get(1).copied().unwrap_or(0);
        let carried = rest.get(2).copied().unwrap_or(0);
        code_touch(Some(named), carried, rest.len() > 3)
    } else if Code(*code) != Code::PAGE {
        code_touch(None, *code, !rest.is_empty())
    } else if is_read && rest.is_empty() {
        Touch::AsksPage
    } else {
        Touch::WritesPage
    }
}

// What a packet may change by its code, the page that it names, and whether a byte of data follows the code.
fn code_touch(named: Option<u8>, code: u8, has_data: bool) -> Touch
    ensures { result ≡ spec_code_touch named code has_data }
{
    if is_restore(code) {
        Touch::Restores
    } else if Code(code) == Code::VOUT_MODE && has_data {
        Touch::WritesMode(named)
    } else {
        Touch::Nothing
    }
}

/// Whether a code restores registers: RESTORE_USER_ALL, RESTORE_DEFAULT_ALL, RESTORE_DEFAULT_CODE and RESTORE_USER_CODE.
pub fn is_restore(code: u8) -> bool
    ensures { result ≡ spec_is_restore code }
{
    Code(code) == Code::RESTORE_USER_ALL || code == 0x12 || code == 0x14 || code == 0x18
}

/// Whether a packet of PAGE, PAGE_PLUS_WRITE or PAGE_PLUS_READ shows that its part has pages: it was answered, or it has data that
/// the part may have taken.
pub fn is_paging(write: &[u8], is_answered: bool) -> bool
    ensures { result ≡ spec_is_paging write.now is_answered }
{
    let [_, code, rest @ ..] = write else {
        return false;
    };
    let code = Code(*code);
    if code == Code::PAGE_PLUS_READ {
        is_answered
    } else {
        (code == Code::PAGE || code == Code::PAGE_PLUS_WRITE) && (is_answered || !rest.is_empty())
    }
}
