//! What a host knows.

ghost use Rattle.std.specs.Prelude.{◌≡◌, ◌≢◌};
ghost use Rattle.pm_table.specs.Cell.{cell_at};
ghost use Rattle.pm_host.specs.Image.{host_of};
ghost use Rattle.pm_memory.specs.Host.{cell_number, IsStanding, IsPossible, seen_number};

use pm_host::{HostFault, StandingImage, WordsImage};
use pm_memory::GuardImage;
use pm_memory::known::{counted, flagged};
use pm_memory::numbers::{ACCEPTED, NO_CELL, NO_HOST};
use pm_table::{Code, cell_of};

/// What is known of a cell's word. E0h, E1h, H4.
#[unsafe(no_mangle)]
pub extern "C" fn pm_host_confirmed_word(
    host: &GuardImage,
    output: u8,
    code: u8,
    standing: &mut StandingImage,
) -> u8
    ensures number { result ≡ cell_number (host_of host.now.host) (cell_at code output) }
    ensures said { result ≡ 0 → IsStanding (host_of host.now.host) (cell_at code output) standing.new }
    ensures refused { result ≢ 0 → standing.new ≡ standing.old }
{
    if host.host.read_stage().is_err() {
        return NO_HOST;
    }
    let Some(cell) = cell_of(Code(code), output) else {
        return NO_CELL;
    };
    if !cell.is_there(host.host.state.outputs) {
        return HostFault::UnknownOutput.number();
    }
    *standing = flagged(host.host.state.known.standing(cell));
    ACCEPTED
}

/// The words that a cell may hold. E0h, E1h, H4.
#[unsafe(no_mangle)]
pub extern "C" fn pm_host_possible_words(
    host: &GuardImage,
    output: u8,
    code: u8,
    words: &mut WordsImage,
) -> u8
    ensures number { result ≡ cell_number (host_of host.now.host) (cell_at code output) }
    ensures said { result ≡ 0 → IsPossible (host_of host.now.host) (cell_at code output) words.new }
    ensures refused { result ≢ 0 → words.new ≡ words.old }
{
    if host.host.read_stage().is_err() {
        return NO_HOST;
    }
    let Some(cell) = cell_of(Code(code), output) else {
        return NO_CELL;
    };
    if !cell.is_there(host.host.state.outputs) {
        return HostFault::UnknownOutput.number();
    }
    *words = counted(host.host.state.known.possible(cell));
    ACCEPTED
}

/// 1 if a restart of the device was seen since the host started, 0 if none was. E0h.
#[unsafe(no_mangle)]
pub extern "C" fn pm_host_restart_seen(host: &GuardImage) -> u8
    ensures { result ≡ seen_number (host_of host.now.host) }
{
    if host.host.read_stage().is_err() {
        return NO_HOST;
    }
    u8::from(host.host.state.known.restart_seen())
}
