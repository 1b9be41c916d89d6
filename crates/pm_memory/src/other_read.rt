//! What came back for a read that is no packet of the table: an SMBus block of any code, and any number of bytes of any
//! code.

ghost use Rattle.std.specs.Prelude.{◌≡◌, ◌≤◌, length};
ghost use Rattle.pm_memory.specs.Paged.{paged_answer, size_asked};
ghost use Rattle.pm_memory.specs.Packets.{HasBlock, block_of};

/// The payload of such an answer, without a count and the packet error code.
#[repr(C)]
#[derive(Clone, Copy, Debug)]
pub struct BlockImage {
    /// How many bytes it has, at most 32.
    pub length: u8,
    /// The bytes; after them 0.
    pub bytes: [u8; 32],
}

/// The count that is asked for; none of a block.
pub fn asked_size(size: u8) -> Option<usize>
    ensures { result ≡ size_asked size }
{
    if size == 0 {
        None
    } else {
        Some(usize::from(size))
    }
}

/// How many bytes a whole answer has at most: the read address, the count, the payload and the packet error code.
pub fn whole_answer(size: u8) -> u8
    requires { size ≤ 32 }
    ensures { result ≡ paged_answer size }
{
    if size == 0 { 35 } else { size + 3 }
}

impl BlockImage {
    /// The image of a block of these bytes.
    pub fn of(found: &[u8]) -> BlockImage
        requires { length found.now ≤ 32 }
        ensures bytes { block_of result ≡ found.now }
        ensures rest { HasBlock result }
    {
        let mut bytes = [0; 32];
        bytes[..found.len()].copy_from_slice(found);
        BlockImage {
            length: found.len() as u8,
            bytes,
        }
    }
}
