//! Pieces of an answer's line. Nothing here takes memory: the caller knows that there is room.
ghost use Rattle.std.specs.Prelude.{◌≡◌, ◌+◌, ◌*◌, ◌≤◌, ◌++◌, length};
ghost use Rattle.arrayvec.specs.ArrayVec.{array_vec_len};
ghost use Rattle.pm_lines.specs.Numbers.{spaced_bytes};

use arrayvec::ArrayVec;
use pm_lines::hex_digits;

/// The line of an answer, with its line feed: at most 192 bytes.
pub type AnswerText = ArrayVec<u8, 192>;

/// Appends bytes for which there is room.
pub fn push_text(text: &mut AnswerText, bytes: &[u8])
    requires { array_vec_len text.old + length bytes.now ≤ 192 }
    ensures bytes { text.new.items ≡ text.old.items ++ bytes.now }
    ensures room { array_vec_len text.new ≡ array_vec_len text.old + length bytes.now }
{
    text.try_extend_from_slice(bytes).unwrap();
}

/// Appends bytes in hexadecimal, with a space before each.
pub fn push_spaced_bytes(text: &mut AnswerText, bytes: &[u8])
    requires { array_vec_len text.old + 3 * length bytes.now ≤ 192 }
    ensures bytes { text.new.items ≡ text.old.items ++ spaced_bytes bytes.now }
    ensures room { array_vec_len text.new ≡ array_vec_len text.old + 3 * length bytes.now }
{
    for byte in bytes {
        push_text(text, b" ");
        push_text(text, &hex_digits(*byte));
    }
}
