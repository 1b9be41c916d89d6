//! `decode` with options, from the words of a command line to what is printed.

use crate::checks::{equal, is_true, words_of};
use crate::run::{run_on, run_with};
use crate::{blank_paper, in_pieces};
use pm_decode::Addresses;
use pm_tool::{Chosen, Source, TellTexts, chosen};
use std::process::Abort;
use std::test::Fail;

const BAD_VOUT: &str =
    "pmb: bad vout: give linear11, ulinear16:N or direct:M:B:R, or a list, as 58:ulinear16:-12,linear11\n";

const BAD_READINGS: &str =
    "pmb: bad readings: give one to eight, as 8C:linear11,58:8D:direct:1:0:3\n";

const BAD_GAP: &str = "pmb: bad gap: give 0 to 1000000 milliseconds\n";

const BAD_PART: &str = "pmb: bad part: give addresses from 08 to 77 without 0C, as 61,28\n";

const BAD_MUX: &str = "pmb: bad mux: give addresses from 08 to 77 without 0C, as 70,71\n";

/// The words after `pmb`, what is read, the status, what is said and what is printed.
pub(super) type Told = (&'static str, &'static str, u8, &'static str, &'static str);

#[rattlefmt::skip]
static TOLD: [Told; 50] = [
    // Addresses of parts and of muxes, in lists and one after the other.
    ("decode --mux=70 --part=61 --mux=71 --part 28,37", "E2 02\nC2 03 CE\n", 0, "",
        "1 71 mux write 02\n2 61 CLEAR_FAULTS send\ncount CLEAR_FAULTS 1\nlines 2 accepted 1 faults 0 special 1 bad 0\n"),
    ("decode --mux=0C", "E2 02\n", 2, BAD_MUX, ""),
    ("decode --mux=70,", "E2 02\n", 2, BAD_MUX, ""),
    ("decode --mux=7", "E2 02\n", 2, BAD_MUX, ""), ("decode --mux=78", "E2 02\n", 2, BAD_MUX, ""),
    ("decode --part=0c", "E2 02\n", 2, BAD_PART, ""),
    ("decode --part=61 --part=07", "E2 02\n", 2, BAD_PART, ""),
    ("decode --part=x --mux=x", "E2 02\n", 2, BAD_PART, ""),
    ("decode --part=x --gap=x", "E2 02\n", 2, "pmb: give --gap with --pages and --times\n", ""),
    // An output's mode teaches its format, and no other's.
    ("decode --values",
        "B0 06 02 00 20 / B1 01 14 4E\nB0 05 04 00 21 CD 34 5A\nB0 05 04 01 21 CD 34 4C\n", 0, "",
        "1 58 page 0 VOUT_MODE read 14 ULINEAR16 -12\n2 58 page 0 VOUT_COMMAND write 34CD 3.300048 V\n3 58 page 1 VOUT_COMMAND write 34CD\ncount VOUT_MODE 1\ncount VOUT_COMMAND 2\nlines 3 accepted 3 faults 0 bad 0\n"),
    ("decode --vout=direct:1:0:3 --values", "B0 05 04 00 21 CD 34 5A\n", 0, "",
        "1 58 page 0 VOUT_COMMAND write 34CD 13.517 V\ncount VOUT_COMMAND 1\nlines 1 accepted 1 faults 0 bad 0\n"),
    ("decode --times --all --long", "01234 B0 03 46\n5 B0 D4\n", 0, "",
        "1 0 us 58 CLEAR_FAULTS send\n2 -1229 us 58 code D4 send, no PEC\ncount CLEAR_FAULTS 1\ncount code D4 1\nlines 2 accepted 1 other 1 faults 0 bad 0\n"),
    // Each of these flags by itself. A time may have zeros before it.
    ("decode --times", "01234 B0 03 46\n5 B0 D4\n", 0, "",
        "1 0 us 58 CLEAR_FAULTS send\n2 -1229 us 58 write F2 Short 2\ncount CLEAR_FAULTS 1\nlines 2 accepted 1 faults 1 bad 0\n"),
    ("decode --all", "B0 D4\n", 0, "",
        "1 58 code D4 send, no PEC\ncount code D4 1\nlines 1 accepted 0 other 1 faults 0 bad 0\n"),
    ("decode --long", "B0 D4\nB\n", 1,
        "pmb: no line is a good packet: where lines begin with times, give --times\n",
        "1 58 write F2 Short 2\n2 X2 BadHex\nlines 2 accepted 0 faults 1 bad 1\n"),
    ("decode --json --values", "B0 06 02 00 20 / B1 01 14 4E\nB0 05 04 00 21 CD 34 5A\n", 0, "",
        "{\"line\":1,\"address\":\"58\",\"page\":0,\"code\":\"20\",\"name\":\"VOUT_MODE\",\"direction\":\"read\",\"payload\":\"14\",\"value\":\"ULINEAR16 -12\"}\n{\"line\":2,\"address\":\"58\",\"page\":0,\"code\":\"21\",\"name\":\"VOUT_COMMAND\",\"direction\":\"write\",\"payload\":\"CD 34\",\"numerator\":13517,\"denominator\":4096,\"volts\":3.300048}\n{\"count\":\"VOUT_MODE\",\"lines\":1}\n{\"count\":\"VOUT_COMMAND\",\"lines\":1}\n{\"lines\":2,\"accepted\":2,\"faults\":0,\"bad\":0}\n"),
    // The options are judged in their order.
    ("decode --vout=float", "B0 05 04 00 21 CD 34 5A\n", 2, "pmb: give --vout with --values\n", ""),
    ("decode --values --vout=float", "B0 05 04 00 21 CD 34 5A\n", 2, BAD_VOUT, ""),
    ("decode --values --vout direct:0:5:3", "B0 05 04 00 21 CD 34 5A\n", 2, BAD_VOUT, ""),
    ("decode --values --vout=direct:1:5:13", "B0 05 04 00 21 CD 34 5A\n", 2, BAD_VOUT, ""),
    ("decode --values --vout=ulinear16:16", "B0 05 04 00 21 CD 34 5A\n", 2, BAD_VOUT, ""),
    // `--readings`: entries of an address and a code, of a code, and of all; the first that fits.
    ("decode --values --readings=58:8D:direct:1:0:1,8d:linear11,8C:direct:-1:0:0",
        "B0 8D / B1 19 00 65\nB2 8D / B3 19 00 77\nB0 8C / B1 FB FF E9\nB0 88 / B1 00 D3 F6\n", 0,
        "",
        "1 58 READ_TEMPERATURE_1 read 0019 2.5 C\n2 59 READ_TEMPERATURE_1 read 0019 25 C\n3 58 READ_IOUT read FFFB 5 A\n4 58 READ_VIN read D300\ncount READ_TEMPERATURE_1 2\ncount READ_IOUT 1\ncount READ_VIN 1\nlines 4 accepted 4 faults 0 bad 0\n"),
    ("decode --readings linear11 --values",
        "B0 8D / B1 19 00 65\nB2 8D / B3 19 00 77\nB0 8C / B1 FB FF E9\nB0 88 / B1 00 D3 F6\n", 0,
        "",
        "1 58 READ_TEMPERATURE_1 read 0019 25 C\n2 59 READ_TEMPERATURE_1 read 0019 25 C\n3 58 READ_IOUT read FFFB -2.5 A\n4 58 READ_VIN read D300 12 V\ncount READ_TEMPERATURE_1 2\ncount READ_IOUT 1\ncount READ_VIN 1\nlines 4 accepted 4 faults 0 bad 0\n"),
    ("decode --values --readings=77:88:linear11,77:88:linear11,77:88:linear11,77:88:linear11,77:88:linear11,77:88:linear11,77:88:linear11,direct:2:0:0",
        "B0 88 / B1 05 00 80\n", 0, "",
        "1 58 READ_VIN read 0005 2.5 V\ncount READ_VIN 1\nlines 1 accepted 1 faults 0 bad 0\n"),
    ("decode --values --readings=linear11,linear11,linear11,linear11,linear11,linear11,linear11,linear11,linear11",
        "B0 05 04 00 21 CD 34 5A\n", 2, BAD_READINGS, ""),
    ("decode --values --readings=58:8B:linear11", "B0 05 04 00 21 CD 34 5A\n", 2, BAD_READINGS, ""),
    ("decode --values --readings=07:88:linear11", "B0 05 04 00 21 CD 34 5A\n", 2, BAD_READINGS, ""),
    ("decode --readings=float", "B0 05 04 00 21 CD 34 5A\n", 2,
        "pmb: give --readings with --values\n", ""),
    ("decode --readings=float --values --vout=float", "B0 05 04 00 21 CD 34 5A\n", 2, BAD_VOUT, ""),
    // A `/` stands for a `:`.
    ("decode --vout=direct/1/0:3 --values", "B0 05 04 00 21 CD 34 5A\n", 0, "",
        "1 58 page 0 VOUT_COMMAND write 34CD 13.517 V\ncount VOUT_COMMAND 1\nlines 1 accepted 1 faults 0 bad 0\n"),
    ("decode --values --readings=8C/direct/1/0/1,58/8d:linear11",
        "B0 8C / B1 FB FF E9\nB0 8D / B1 19 00 65\n", 0, "",
        "1 58 READ_IOUT read FFFB -0.5 A\n2 58 READ_TEMPERATURE_1 read 0019 25 C\ncount READ_IOUT 1\ncount READ_TEMPERATURE_1 1\nlines 2 accepted 2 faults 0 bad 0\n"),
    ("decode --values --vout=ulinear16//1", "B0 05 04 00 21 CD 34 5A\n", 2, BAD_VOUT, ""),
    // A write of VOUT_MODE ends what `--vout` gave, also where its empty read part may be a sign of a restart.
    ("decode --values --explain --vout=58:ulinear16/-12",
        "B0 20 / B1 00 00 C1\nB0 20 9B 8C /\nB0 05 04 00 24 AB 8E 3E\n", 0, "",
        "1 58 code 20 VOUT_MODE read 00 00 C1, no PEC\n2 58 write F3 Long 2 bytes B0 20 9B 8C /\n3 58 page 0 VOUT_MAX write 8EAB\ncount VOUT_MAX 1\ncount code 20 1\nlines 3 accepted 1 other 1 faults 1 bad 0\n"),
    // `--gap`: with both of the others, in one to seven digits.
    ("decode --times --gap=0000005 --pages", "5 B0 88 / B1 00 D3 F6\n", 0, "",
        "1 0 us 58 READ_VIN read D300\ncount READ_VIN 1\nlines 1 accepted 1 faults 0 bad 0\n"),
    ("decode --pages --times --gap 1000000", "5 B0 88 / B1 00 D3 F6\n", 0, "",
        "1 0 us 58 READ_VIN read D300\ncount READ_VIN 1\nlines 1 accepted 1 faults 0 bad 0\n"),
    ("decode --gap=5", "B0 05 04 00 21 CD 34 5A\n", 2, "pmb: give --gap with --pages and --times\n",
        ""),
    ("decode --gap=x --pages", "B0 05 04 00 21 CD 34 5A\n", 2,
        "pmb: give --gap with --pages and --times\n", ""),
    ("decode --times --gap=5", "B0 05 04 00 21 CD 34 5A\n", 2,
        "pmb: give --gap with --pages and --times\n", ""),
    ("decode --pages --times --gap=", "B0 05 04 00 21 CD 34 5A\n", 2, BAD_GAP, ""),
    ("decode --pages --times --gap=x", "B0 05 04 00 21 CD 34 5A\n", 2, BAD_GAP, ""),
    ("decode --pages --times --gap=-0", "B0 05 04 00 21 CD 34 5A\n", 2, BAD_GAP, ""),
    ("decode --pages --times --gap=+1", "B0 05 04 00 21 CD 34 5A\n", 2, BAD_GAP, ""),
    ("decode --pages --times --gap=1.5", "B0 05 04 00 21 CD 34 5A\n", 2, BAD_GAP, ""),
    ("decode --pages --times --gap=1000001", "B0 05 04 00 21 CD 34 5A\n", 2, BAD_GAP, ""),
    ("decode --pages --times --gap=10000000", "B0 05 04 00 21 CD 34 5A\n", 2, BAD_GAP, ""),
    ("decode --pages --times --gap=00000005", "B0 05 04 00 21 CD 34 5A\n", 2, BAD_GAP, ""),
    ("decode --gap=x --readings=x --values", "B0 05 04 00 21 CD 34 5A\n", 2, BAD_READINGS, ""),
    ("decode --gap=x --readings=x", "B0 05 04 00 21 CD 34 5A\n", 2,
        "pmb: give --readings with --values\n", ""),
    ("decode --gap=x --values --vout=x", "B0 05 04 00 21 CD 34 5A\n", 2, BAD_VOUT, ""),
    // A capture of no bytes is its counts.
    ("decode --json", "", 0, "", "{\"lines\":0,\"accepted\":0,\"faults\":0,\"bad\":0}\n"),
];

/// Each row is told as it says, and what is printed is handed on once.
pub(super) fn are_told(rt: &(impl Abort + AllocGlobal), rows: &[Told]) -> Result<(), Fail> {
    for &(words, text, status, errors, output) in rows {
        let found = run_on(rt.alloc(), words_of(rt.alloc(), words)?.as_slice(), text);
        is_true(rt, found.is(status, output, errors), &(words, text));
        let flushes = usize::from(!output.is_empty());
        equal(rt, &found.output.flushes, &flushes, &(words, text));
    }
    Ok(())
}

#[test]
fn options_decide_what_is_told(rt: HostRuntime) -> Result<(), Fail> {
    are_told(&rt, &TOLD)
}

/// The words, lines of one length, how long they are, and by how many writes they are shown: one for each, as soon as it came,
/// and one for the counts.
#[rattlefmt::skip]
static LIVE: [(&str, &str, usize, usize); 6] = [
    ("decode", LIVE_LINES, 9, 4), ("decode --values", LIVE_LINES, 9, 4),
    ("decode --all", LIVE_LINES, 9, 4), ("decode --long", LIVE_LINES, 9, 4),
    ("decode --json", LIVE_LINES, 9, 4),
    ("decode --times", "7 B0 03 46\n8 B0 03 46\n", 11, 3),
];

const LIVE_LINES: &str = "B0 03 46\nB0 03 47\nB0 D4 01\n";

#[test]
fn each_line_is_told_before_the_next_one_is_read(rt: HostRuntime) -> Result<(), Fail> {
    for &(words, text, length, writes) in &LIVE {
        let mut input = Source::new(in_pieces(text.as_bytes(), length));
        let output = blank_paper(rt.alloc(), 4096);
        let errors = blank_paper(rt.alloc(), 1);
        let given = words_of(rt.alloc(), words)?;
        let found = run_with(rt.alloc(), Ok(given.as_slice()), &mut input, output, errors);
        equal(&rt, &found.status, &0, &words);
        equal(&rt, &found.output.calls, &writes, &words);
        equal(&rt, &found.output.flushes, &1, &words);
    }
    Ok(())
}

/// Counts of lines that are there at once, and of the writes by which they are shown: 16 KiB and what a piece
/// says at a time, and what is left.
static GATHERED: [(usize, usize); 2] = [(64, 2), (2000, 4)];

#[test]
fn lines_that_are_there_at_once_are_told_together(rt: HostRuntime) -> Result<(), Fail> {
    for &(lines, writes) in &GATHERED {
        let mut text = String::new(rt.alloc());
        for _ in 0..lines {
            text.push_str("B0 03 46\n")?;
        }
        let mut input = Source::new(in_pieces(text.as_str().as_bytes(), 4096));
        let output = blank_paper(rt.alloc(), 1_048_576);
        let errors = blank_paper(rt.alloc(), 1);
        let words = ["pmb", "decode", "--values"];
        let found = run_with(rt.alloc(), Ok(&words), &mut input, output, errors);
        equal(&rt, &found.status, &0, &lines);
        equal(&rt, &found.output.calls, &writes, &lines);
    }
    Ok(())
}

#[test]
fn options_are_read_as_they_are_written(rt: HostRuntime) -> Result<(), Fail> {
    #[rattlefmt::skip]
    let words = [
        "pmb", "decode", "--json", "--vout=linear11", "--times", "--gap=0020", "--pages",
        "--mux=70,71", "--mux=1f",
    ];
    let Chosen::Tell(given) = chosen(rt.alloc(), &words)? else {
        is_true(&rt, false, &words);
        return Ok(());
    };
    let wanted = TellTexts {
        values: false,
        vout: Some("linear11"),
        readings: None,
        all: false,
        pages: true,
        explain: false,
        gap: Some("0020"),
        long: false,
        times: true,
        json: true,
        parts: Some(Addresses::none()),
        muxes: Some(Addresses::none().with(0x1F).with(0x70).with(0x71)),
    };
    is_true(&rt, given == wanted, &given);
    is_true(&rt, given.options().is_err(), &given);
    let more = with! { TellTexts, wanted; values: true };
    let options = more.options()?;
    is_true(
        &rt,
        options.values
            && options
                .formats
                .vout
                .first()
                .is_some_and(|first| first.is_some()),
        &more,
    );
    is_true(&rt, options.times && options.json, &more);
    is_true(&rt, !options.all && !options.long, &more);
    is_true(&rt, options.pages, &more);
    equal(&rt, &options.gap, &20_000, &more);
    let without = TellTexts { gap: None, ..more };
    equal(&rt, &without.options()?.gap, &1_000_000, &without);
    Ok(())
}
