//! The parser's own texts: of a faulty command line on standard error, and of help on the output.

use crate::checks::is_true;
use crate::run::{run_on, run_with};
use crate::{blank_paper, in_pieces};
use pm_tool::Source;
use std::process::Abort;

static MISSING: &str = "error: 'pmb' requires a subcommand but one was not provided
  [subcommands: hear, replay, decode, check, number]

Usage: pmb <COMMAND>

For more information, try '--help'.
";

static UNKNOWN: &str = "error: unrecognized subcommand 'listen'

Usage: pmb <COMMAND>

For more information, try '--help'.
";

static NO_SUCH_OPTION: &str = "error: unexpected argument '--bits' found

Usage: pmb number --format=F (--word=HHHH | --micro=K)

For more information, try '--help'.
";

static NO_VALUE: &str = "error: a value is required for '--word <HHHH>' but none was supplied

For more information, try '--help'.
";

static TWICE: &str = "error: the argument '--word <HHHH>' cannot be used multiple times

Usage: pmb number --format=F (--word=HHHH | --micro=K)

For more information, try '--help'.
";

static NO_OPTION_OF_DECODE: &str = "error: unexpected argument '--bits' found

Usage: pmb decode [OPTIONS] < TRACE

For more information, try '--help'.
";

static HELP: &str = "PMBus packets, scenarios and numbers, by proved engines

Usage: pmb <COMMAND>

Commands:
  hear    Lets a model converter hear the frames of standard input
  replay  Replays a scenario between a host and a converter, and reports
  decode  Shows what the packets of a bus trace say
  check   Checks a log: whether its transfers make its claims known
  number  Prints a word of a number format, its exact value and its whole millionths

Options:
  -h, --help     Print help
  -V, --version  Print version

Each command but number reads standard input: pmb replay < examples/one-order.scenario
pmb COMMAND --help shows the form of its lines and its refusals; docs/refusals.md has all of them.
";

static HEAR_HELP: &str = "Lets a model converter hear the frames of standard input

Usage: pmb hear < FRAMES

Options:
  -h, --help  Print help

A line is one of

  B0 05 04 00 21 CD 34 5A   a frame in hexadecimal, which a stop ends
  B0 20 /                   a frame, which a repeated start follows
  restart                   the converter starts again

Only spaces separate bytes, without 0x or h. Empty lines, and lines that begin with #, are skipped.
A text has at most 1 MiB. The converter has two outputs of 1 V at address 58: B0 writes, B1 reads.
Printed are its answers, and then each output's VOUT_COMMAND.

  $ echo 'B0 05 04 00 21 CD 34 5A' | pmb hear
  taken
  output 0 VOUT_COMMAND 34CD
  output 1 VOUT_COMMAND 1000

An answer is taken, answer BYTES, silent (another device's frame), or refused:

  K1 Frame F..         a faulty frame; pmb decode --help has these letters
  K2 UnsupportedCode   the code isn't in the command table
  K3 UnsupportedData   the register doesn't take the word
  K4 BadPage           there is no output with this page
  K5 Protected         WRITE_PROTECT blocks the write
  K6 Nested            PAGE_PLUS doesn't carry the code
  K7 ReadOnly          the code isn't written, or isn't read

Status 1 and a line on standard error: X1 Syntax, X2 BadHex (the line's form), X3 TooLong, X4 Read,
X5 Write, X6 Memory.
";

static REPLAY_HELP: &str = "Replays a scenario between a host and a converter, and reports

Usage: pmb replay < SCENARIO

Options:
  -h, --help  Print help

A scenario is these lines, and then events (version 1 has no MIN, VOUT_MIN, store and restore):

  scenario 2
  address 58                              seven bits, 08 to 77: B0 on the wire is 58
  passes 2                                tries of a job, 1 to 15
  protect 00                              WRITE_PROTECT: 00, 20, 40 or 80
  coefficients 1 0 0                      M B R in decimal, for DIRECT
  output 14 80 1000 4000 1100 0F00 0000   VOUT_MODE OPERATION COMMAND MAX HIGH LOW MIN; 1 to 8 lines
  begin

  order 0 VOUT_COMMAND 34CD               a job: write the word, read it back
  volts 0 VOUT_COMMAND 3300000            the same in microvolts, after learn
  check 0 VOUT_COMMAND                    a job: read the register
  learn 0                                 a job: read the output's format
  clear 0                                 a job: send CLEAR_FAULTS
  store                                   a job: send STORE_USER_ALL
  restore                                 a job: send RESTORE_USER_ALL
  deliver A                               the converter hears the write that is being sent
  finish ack                              the write is over: ack, or nack
  exchange A B                            the converter hears the request, and B comes back
  restart device                          an end starts again: device (with what is stored), or host
  reading 0 READ_VOUT 34CD                what READ_VOUT or READ_IOUT answers
  reading - READ_VIN D300                 the same of READ_VIN or READ_TEMPERATURE_1

order and check take - WRITE_PROTECT too. A and B are whole; cut N, the first N bytes; or bytes HEX,
for A with stop or restart after it, 1 to 16 bytes. A text has at most 1 MiB. Printed is what the
converter then holds, commands and shows, and what the host knows.

  $ pmb replay < examples/one-order.scenario

Status 1 if `stopped N` says that N events were taken and the next one wasn't:

  S1 NotBetrayed   other bytes than were sent, and their PEC is right
  S2 NothingSent   nothing is being sent: begin a job first
  S3 WrongKind     a write is delivered and finished, a read is exchanged
  S4 Host H3 Busy, H4 UnknownOutput, H5 BadWord, H6 TooUncertain (check it first), H7 FormatUnknown
     (learn it first), N3 BelowLeast, N4 AboveGreatest, N5 TooLarge
  S5 Full          2^48 events were taken

and with a line on standard error: X1 Syntax, X2 BadHex (the line's form), X3 TooLong, X4 Read,
X5 Write, X6 Memory, and X7 Setup with

  V1 OutputCount   0 or more than 8 outputs      V4 BadMode           VOUT_MODE isn't 00 to 1F or 40
  V2 BadStart      a start word isn't taken      V5 BadCoefficients   M is 0, or R beyond 12 in size
  V3 Address       outside 08 to 77              H2 Passes            passes outside 1 to 15
";

static DECODE_HELP: &str = "Shows what the packets of a bus trace say

Usage: pmb decode [OPTIONS] < TRACE

Options:
  -h, --help  Print help

Further options:
      --values        Show what payloads mean, and the bytes of faulty packets
      --vout <F>      The formats of voltages that the trace teaches none of; with --values
      --readings <L>  The formats of READ_VIN, READ_IOUT and READ_TEMPERATURE_1; with --values
      --all           Show packets without PEC, and those that the command table doesn't have
      --pages         Follow PAGE: show plain packets with the output that they reach
      --gap <MS>      The pause that ends a page, in milliseconds; with --pages and --times
      --explain       Show what happened: --all, --pages, failed transfers, words that changed
      --long          Take a trace of more than 1 MiB
      --times         Each line begins with its time in microseconds
      --json          Print each line as an object of JSON
      --part <AA>     Addresses of parts that SMBus keeps for something else: of 08, 28, 37, 61
      --mux <AA>      Addresses of muxes, as 70,71

A line is one of

  B0 05 04 00 21 CD 34 5A           a write, in hexadecimal
  B0 06 02 00 21 / B1 02 CD 34 B9   a read: the request, and after / what came back

Only spaces separate bytes, without 0x or h. Empty lines, and lines that begin with #, are skipped.
A text has at most 1 MiB, or any size with --long; a part has 300 bytes. Printed is a line for each,
with its number, and then the counts.

  $ echo 'B0 05 04 00 21 CD 34 5A' | pmb decode
  1 58 page 0 VOUT_COMMAND write 34CD
  count VOUT_COMMAND 1
  lines 1 accepted 1 faults 0 bad 0

With --values a line ends in the packet's value, or in a faulty packet's bytes. A voltage has
the format that the lines before taught, by its page's VOUT_MODE and its code's COEFFICIENTS, or
that of --vout: one to eight of linear11, ulinear16:N and direct:M:B:R, each for all addresses or
for one, as 58:ulinear16:-12,linear11. READ_VIN, READ_IOUT and READ_TEMPERATURE_1 are LINEAR11
after a VOUT_MODE of ULINEAR16, or as --readings says: one to eight entries,
58:8D:direct:1:0:3,8C:linear11,linear11, of which the first holds that fits.

  $ printf 'B0 06 02 00 20 / B1 01 14 4E\\nB0 05 04 00 21 CD 34 5A\\n' | pmb decode --values | head -2
  1 58 page 0 VOUT_MODE read 14 ULINEAR16 -12
  2 58 page 0 VOUT_COMMAND write 34CD 3.300048 V

With --all a packet without PEC is shown as one that has it, and one that the command table doesn't
have by its bytes: 1 58 code FD send, no PEC. With --times a line is 1234 B0 03 46, and is shown as
1 0 us 58 CLEAR_FAULTS send: times count from the first line's.

With --explain a transfer that failed keeps its place, as 16 failed: timed out, and a register that is
read with another word than last, with nothing in between that writes it, ends in CHANGED? lines 5
and 22.

With --pages a plain packet is shown with the output that it reaches, and a question mark, since a
trace shows no restart: 2 58 page 1? VOUT_COMMAND write 34CD. If the trace contradicts itself, the
line ends in WRONG PAGE? lines 1 and 4. With --times a page ends at a pause of its address of more
than --gap, 0 to 1000000 ms, or 1000.

With an option a packet to 08, 0C, 28, 37, 61 or a mux is shown as what the address is for, unless a
part answered there or --part names it: 37 ZONE_WRITE write 00 01. A write to a mux ends what is known.

A packet may be faulty; N counts bytes from 0, the address is byte 0:

  F1 NotOurs          no byte, or byte 0 isn't the address with its direction
  F2 Short N          the bytes end after N, before the packet does
  F3 Long N           bytes follow the packet's end
  F4 WrongCount N     the count isn't the one that the code has
  F5 WrongPec N       the PEC isn't that of the bytes before it
  F6 UnknownCode N    the code isn't in the command table
  F7 WrongDirection N the code is never written, or never read
  F8 Nested N         PAGE_PLUS doesn't carry the code

Status 1 if a line is bad, X1 Syntax or X2 BadHex, or with a line on standard error: X3 TooLong,
X4 Read, X5 Write, X6 Memory. With an option a second line after X3 says that --long reads on.
Status 2: give --vout with --values, bad vout, and the same of --readings; give --gap with --pages
and --times, bad gap, bad part, bad mux.
";

static NUMBER_HELP: &str =
    "Prints a word of a number format, its exact value and its whole millionths

Usage: pmb number --format=F (--word=HHHH | --micro=K)

Options:
      --format <F>   The format: linear11, ulinear16:N (N from -16 to 15) or direct:M:B:R
      --word <HHHH>  The word, as four hexadecimal digits
      --micro <K>    A value of K millionths, whose nearest word is taken
  -h, --help         Print help

A word is 34CD, without 0x or h. K is in millionths: 3.3 V is 3300000; a negative one is written
--micro=-3300000. LINEAR16 of older papers is ulinear16:N, with N of VOUT_MODE.

  $ pmb number --format=ulinear16:-12 --micro=3300000
  word 34CD value 13517/4096 micro 3300048

Status 2 and a line on standard error: give one of --word and --micro, bad format, bad word,
bad micro. Status 1 and such a line: X5 Write, X6 Memory, or

  N1 ZeroSlope       m of DIRECT is 0
  N2 ExponentRange   R of DIRECT is beyond 12 in size
  N3 BelowLeast      the value is below all of the format's
  N4 AboveGreatest   the value is above all of the format's
  N5 TooLarge        beyond 10^15 millionths in size
";

// Words that the parser refuses, with this on standard error.
fn is_unknown(rt: &(impl Abort + AllocGlobal), words: &[&str], errors: &str) {
    let found = run_on(rt.alloc(), words, "");
    is_true(rt, found.is(2, "", errors), &words);
}

// Words that ask for help, which is printed.
fn is_help(rt: &(impl Abort + AllocGlobal), words: &[&str], output: &str) {
    let found = run_on(rt.alloc(), words, "");
    is_true(rt, found.is(0, output, ""), &words);
}

#[test]
fn help_and_faulty_command_lines_are_printed(rt: HostRuntime) {
    // Faulty command lines are told on standard error.
    is_unknown(&rt, &["pmb"], MISSING);
    is_unknown(&rt, &["pmb", "listen"], UNKNOWN);
    is_unknown(&rt, &["pmb", "number", "--bits=1"], NO_SUCH_OPTION);
    is_unknown(&rt, &["pmb", "number", "--word"], NO_VALUE);
    is_unknown(&rt, &["pmb", "number", "--word=1", "--word=2"], TWICE);
    is_unknown(&rt, &["pmb", "decode", "--bits"], NO_OPTION_OF_DECODE);
    // Help is printed.
    is_help(&rt, &["pmb", "--help"], HELP);
    is_help(&rt, &["pmb", "hear", "--help"], HEAR_HELP);
    is_help(&rt, &["pmb", "replay", "--help"], REPLAY_HELP);
    is_help(&rt, &["pmb", "decode", "--help"], DECODE_HELP);
    is_help(&rt, &["pmb", "number", "--help"], NUMBER_HELP);
}

#[test]
fn a_failed_output_of_help_is_told(rt: HostRuntime) {
    let alloc = rt.alloc();
    let mut input = Source::new(in_pieces(b"", 1));
    let mut output = blank_paper(alloc, 1);
    output.fails_at = 3;
    let words = ["pmb", "--help"];
    let found = run_with(alloc, Ok(&words), &mut input, output, blank_paper(alloc, 1));
    is_true(&rt, found.is(1, "PM", "pmb: X5 Write\n"), &1);
}
