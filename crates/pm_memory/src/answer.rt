//! What came back after a request.

ghost use Rattle.std.specs.Prelude.{◌≡◌, ◌≤◌, length};
ghost use Rattle.pm_memory.specs.Packets.{payload_of, HasPayload};

/// The payload of an answer, without the count and the packet error code.
#[repr(C)]
#[derive(Clone, Copy, Debug)]
pub struct PayloadImage {
    /// How many bytes it has: 1, 2, or 5 of COEFFICIENTS.
    pub length: u8,
    /// The bytes; after them 0.
    pub bytes: [u8; 5],
    /// The first two bytes as a word, the low one first; of one byte that byte.
    pub word: u16,
}

impl PayloadImage {
    /// The image of a payload of these bytes.
    pub fn of(found: &[u8]) -> PayloadImage
        requires { length found.now ≤ 5 }
        ensures bytes { payload_of result ≡ found.now }
        ensures word { HasPayload result }
    {
        let mut bytes = [0; 5];
        bytes[..found.len()].copy_from_slice(found);
        PayloadImage {
            length: found.len() as u8,
            bytes,
            word: u16::from_le_bytes([bytes[0], bytes[1]]),
        }
    }
}
