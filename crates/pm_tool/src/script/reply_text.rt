//! The lines that `hear` writes of an answer and of an output.

ghost use Rattle.std.specs.Prelude.{◌≡◌, ◌<◌, ◌++◌, OnOk};
ghost use Rattle.pm_tool.specs.HeardText.{reply_words};
ghost use Rattle.pm_tool.specs.Script.{as_line, output_word_line};

use super::answer_text::{AnswerText, push_text};
use super::heard_text::{TAKEN, push_heard};
use pm_device::Heard;
use pm_lines::hex_digits;
use std::alloc::AllocError;

/// Appends the line of a converter's answer to a text.
#[tactic(auto, using(pm_lines::specs::Lemmas::Joins::joins))]
pub(super) fn push_reply(text: &mut Vec<u8>, heard: &Heard) -> Result<(), AllocError>
    ensures { OnOk result (text.new.items ≡ text.old.items ++ as_line (reply_words heard.now)) }
{
    // Most lines of most texts: that saves 1.6 million instructions of a text of 1 MiB.
    if let Heard::Taken = heard {
        text.extend_from_slice(TAKEN.as_bytes())?;
        return text.extend_from_slice(b"\n");
    }
    let mut line = AnswerText::new();
    push_heard(&mut line, heard);
    push_text(&mut line, b"\n");
    text.extend_from_slice(line.as_slice())
}

/// The line of an output, whose number has one digit, and of its word of VOUT_COMMAND.
pub(super) fn output_line(output: u8, word: u16) -> [u8; 27]
    requires { output < 10 }
    ensures { result ≡ output_word_line output word }
{
    let mut line = *b"output 0 VOUT_COMMAND 0000\n";
    let [a, b] = hex_digits((word / 256) as u8);
    let [c, d] = hex_digits((word % 256) as u8);
    line[7] = b'0' + output;
    line[22] = a;
    line[23] = b;
    line[24] = c;
    line[25] = d;
    line
}
