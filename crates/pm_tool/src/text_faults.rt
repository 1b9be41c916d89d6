//! What a program says of a text that it refuses. Nothing here takes memory.
ghost use Rattle.std.specs.Prelude.{◌≡◌, [], ◌++◌, IsFalse, codes, option_map};
ghost use Rattle.pm_tool.specs.Refusals.{Says, line_words, program_line, text_refusal};
ghost use Rattle.std.specs.Option.{option_map_or};

use pm_device::ConfigFault;
use pm_host::HostFault;
use pm_lines::{Sink, TextFault};
use pm_setup::SetupFault;
use std::io::Write;

/// Says why a text is refused: `pmb: X2 BadHex line 3`, `pmb: X7 Setup V2 BadStart 0 OPERATION`.
pub fn say_fault<E: Write>(errors: &mut Sink<E>, program: &'static str, fault: &TextFault)
    requires { IsFalse errors.old.failed }
    ensures { Says E.contents errors.old errors.new (program_line program.now (text_refusal fault.now)) }
{
    match fault {
        TextFault::Setup(setup) => say_setup(errors, program, *setup),
        _ => say_line(errors, program, fault.words(), fault.line()),
    }
}

// Says a refusal as the one line `PROGRAM: WORDS`, with ` line N` after the words if the refusal has
// a line.
fn say_line<E: Write>(
    errors: &mut Sink<E>,
    program: &'static str,
    words: &'static str,
    line: Option<u64>,
)
    requires { IsFalse errors.old.failed }
    ensures { Says E.contents errors.old errors.new (program_line program.now (words.now ++ line_words line)) }
{
    let mut digits = itoa::Buffer::new();
    let _ = match line {
        None => errors.put_all(&[program.as_bytes(), b": ", words.as_bytes(), b"\n"]),
        Some(line) => errors.put_all(&[
            program.as_bytes(),
            b": ",
            words.as_bytes(),
            b" line ",
            digits.format(line).as_bytes(),
            b"\n",
        ]),
    };
}

// Says why no world is made.
fn say_setup<E: Write>(errors: &mut Sink<E>, program: &'static str, fault: SetupFault)
    requires { IsFalse errors.old.failed }
    ensures { Says E.contents errors.old errors.new
        (program_line program.now (text_refusal (TextFault.Setup fault))) }
{
    match fault {
        SetupFault::Device(fault) => say_config(errors, program, fault),
        SetupFault::Host(fault) => say_host(errors, program, fault),
    }
}

// Says why the host refuses.
fn say_host<E: Write>(errors: &mut Sink<E>, program: &'static str, fault: HostFault)
    requires { IsFalse errors.old.failed }
    ensures { Says E.contents errors.old errors.new
        (program_line program.now (text_refusal (TextFault.Setup (SetupFault.Host fault)))) }
{
    let setup = TextFault::Setup(SetupFault::Host(fault)).words();
    let words = fault.words();
    let _ = errors.put_all(&[
        program.as_bytes(),
        b": ",
        setup.as_bytes(),
        b" ",
        words.as_bytes(),
        b"\n",
    ]);
}

// Says why the converter's configuration is none: the words, and then the output and the detail,
// if there are such.
fn say_config<E: Write>(errors: &mut Sink<E>, program: &'static str, fault: ConfigFault)
    requires { IsFalse errors.old.failed }
    ensures { Says E.contents errors.old errors.new
        (program_line program.now (text_refusal (TextFault.Setup (SetupFault.Device fault)))) }
{
    let mut digits = itoa::Buffer::new();
    let setup = TextFault::Setup(SetupFault::Device(fault)).words();
    let words = fault.words();
    let (space, detail) = spaced(fault.detail());
    let _ = match fault.output() {
        None => errors.put_all(&[
            program.as_bytes(),
            b": ",
            setup.as_bytes(),
            b" ",
            words.as_bytes(),
            space.as_bytes(),
            detail.as_bytes(),
            b"\n",
        ]),
        Some(output) => errors.put_all(&[
            program.as_bytes(),
            b": ",
            setup.as_bytes(),
            b" ",
            words.as_bytes(),
            b" ",
            digits.format(output).as_bytes(),
            space.as_bytes(),
            detail.as_bytes(),
            b"\n",
        ]),
    };
}

// A text and the space before it, if there is a text.
fn spaced(text: Option<&'static str>) -> (&'static str, &'static str)
    ensures { result.0.now ++ result.1.now
        ≡ option_map_or (λ t. codes " " ++ t) (option_map (λ t. t.now) text.entry) [] }
{
    match text {
        Some(text) => (" ", text),
        None => ("", ""),
    }
}
