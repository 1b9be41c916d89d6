//! What came back for a read that is no packet of the table: an SMBus block of any code, and any number of bytes of any
//! code.

ghost use Rattle.std.specs.Prelude.{◌≡◌, ◌≢◌};
ghost use Rattle.pm_frame.specs.BlockRead.{block_fault, IsBlockAnswer};
ghost use Rattle.pm_frame.specs.PagedRead.{IsPagedAnswer};
ghost use Rattle.pm_frame.specs.PlainRead.{IsPlainAnswer};
ghost use Rattle.pm_memory.specs.Paged.{paged_answer, paged_number, read_paged_number, size_asked, IsPagedSending};
ghost use Rattle.pm_memory.specs.Packets.{HasBlock, block_of, plain_read_number, read_number};

use pm_frame::{MOST_READ, is_carried, paged_request, read_block, read_paged, read_plain};
use pm_memory::SendingImage;
use pm_memory::numbers::{ACCEPTED, NO_ADDRESS, NO_PACKET};
use pm_memory::other_read::{BlockImage, asked_size, whole_answer};
use pm_table::address_ok;

/// What came back for a block read of a code, the read address first, then the count. E3h, F1 to F5.
#[unsafe(no_mangle)]
pub extern "C" fn pm_read_block(address: u8, code: u8, bytes: &[u8], block: &mut BlockImage) -> u8
    ensures number { result ≡ read_number address (block_fault address code bytes.now) }
    ensures said { result ≡ 0 → IsBlockAnswer address code (block_of block.new) bytes.now }
    ensures block { result ≡ 0 → HasBlock block.new }
    ensures refused { result ≢ 0 → block.new ≡ block.old }
{
    if !address_ok(address) {
        return NO_ADDRESS;
    }
    match read_block(address, code, bytes) {
        Ok(found) => {
            *block = BlockImage::of(found);
            ACCEPTED
        }
        Err(fault) => fault.number(),
    }
}

/// What came back for a read of so many bytes of a code, the read address first. E3h, E4h if more than 32 bytes were asked
/// for, F1 to F3 and F5.
#[unsafe(no_mangle)]
pub extern "C" fn pm_read_plain(
    address: u8,
    code: u8,
    size: u8,
    bytes: &[u8],
    block: &mut BlockImage,
) -> u8
    ensures number { result ≡ plain_read_number address code size bytes.now }
    ensures said { result ≡ 0 → IsPlainAnswer address code size (block_of block.new) bytes.now }
    ensures block { result ≡ 0 → HasBlock block.new }
    ensures refused { result ≢ 0 → block.new ≡ block.old }
{
    if !address_ok(address) {
        return NO_ADDRESS;
    }
    let size = usize::from(size);
    if size > MOST_READ {
        return NO_PACKET;
    }
    match read_plain(address, code, size, bytes) {
        Ok(found) => {
            *block = BlockImage::of(found);
            ACCEPTED
        }
        Err(fault) => fault.number(),
    }
}

/// The request of a read of any code by PAGE_PLUS: of a byte (1), a word (2), or so many bytes up to 32; or of a block, whose count
/// nobody says before (0). E3h, E4h for a code that PAGE_PLUS doesn't carry and for more bytes.
#[unsafe(no_mangle)]
pub extern "C" fn pm_paged_request(
    address: u8,
    page: u8,
    code: u8,
    size: u8,
    frame: &mut SendingImage,
) -> u8
    ensures number { result ≡ paged_number address code size }
    ensures frame { result ≡ 0 → IsPagedSending address page code (paged_answer size) frame.new }
    ensures refused { result ≢ 0 → frame.new ≡ frame.old }
{
    if !address_ok(address) {
        return NO_ADDRESS;
    }
    if !is_carried(code) || MOST_READ < usize::from(size) {
        return NO_PACKET;
    }
    frame.put_paged(&paged_request(address, page, code), whole_answer(size));
    ACCEPTED
}

/// What came back for a read of a code by PAGE_PLUS, the read address first, then the count. E3h, E4h as for the request, F1 to F5.
#[unsafe(no_mangle)]
pub extern "C" fn pm_read_paged(
    address: u8,
    page: u8,
    code: u8,
    size: u8,
    bytes: &[u8],
    block: &mut BlockImage,
) -> u8
    ensures number { result ≡ read_paged_number address page code size bytes.now }
    ensures said { result ≡ 0 → IsPagedAnswer address page code (size_asked size) (block_of block.new) bytes.now }
    ensures block { result ≡ 0 → HasBlock block.new }
    ensures refused { result ≢ 0 → block.new ≡ block.old }
{
    if !address_ok(address) {
        return NO_ADDRESS;
    }
    if !is_carried(code) || MOST_READ < usize::from(size) {
        return NO_PACKET;
    }
    match read_paged(address, page, code, asked_size(size), bytes) {
        Ok(found) => {
            *block = BlockImage::of(found);
            ACCEPTED
        }
        Err(fault) => fault.number(),
    }
}
