//! What a program says on standard error, and the status with which it then ends. If that fails too, only
//! the status says it. Nothing here takes memory, and none of the writers may have failed before.
ghost use Rattle.std.specs.Prelude.{◌≡◌, IsFalse};
ghost use Rattle.pm_lines.specs.Faults.{fault_words};
ghost use Rattle.pm_lines.specs.declared.fault.TextFault.TheVariants.{Memory};
ghost use Rattle.pm_tool.specs.Refusals.{Says, bad_arguments_words, no_words_status, program_line};

use pm_lines::{Sink, TextFault};
use std::io::{self, Write};

/// Says a refusal as the one line `PROGRAM: WORDS`.
pub fn say<E: Write>(errors: &mut Sink<E>, program: &str, words: &str)
    requires { IsFalse errors.old.failed }
    ensures { Says E.contents errors.old errors.new (program_line program.now words.now) }
{
    let _ = errors.put_all(&[program.as_bytes(), b": ", words.as_bytes(), b"\n"]);
}

/// Says that memory was refused: status 1.
pub fn refuse_memory<E: Write>(errors: &mut Sink<E>, program: &str) -> u8
    requires { IsFalse errors.old.failed }
    ensures status { result ≡ 1 }
    ensures said { Says E.contents errors.old errors.new (program_line program.now (fault_words Memory)) }
{
    say(errors, program, TextFault::want_of_memory());
    1
}

/// Says that the arguments couldn't be had as texts: status 1 for want of memory, and 2 since they are none.
pub fn refuse_arguments<E: Write>(errors: &mut Sink<E>, program: &str, kind: io::ErrorKind) -> u8
    requires { IsFalse errors.old.failed }
    ensures status { result ≡ no_words_status kind }
    ensures said { Says E.contents errors.old errors.new (program_line program.now (bad_arguments_words kind)) }
{
    match kind {
        io::ErrorKind::OutOfMemory => refuse_memory(errors, program),
        _ => {
            say(errors, program, "bad arguments");
            2
        }
    }
}

/// Says the parser's own text of a faulty command line: status 2.
pub fn misuse<E: Write>(errors: &mut Sink<E>, text: &str) -> u8
    requires { IsFalse errors.old.failed }
    ensures status { result ≡ 2 }
    ensures said { Says E.contents errors.old errors.new text.now }
{
    let _ = errors.put(text.as_bytes());
    2
}
