//! Whole logs, each with what is written of it.

use crate::checks::equal;
use pm_lines::{Sink, Source, TextFault};
use pm_log::{Lacks, LogEnd, check_log};
use std::alloc::Global;

/// A log, and what is written of it.
#[rattlefmt::skip]
static LOGS: [(&str, &str); 41] = [
    // No log.
    ("", "line 1: no #log line stands before it\n"),
    ("\n## nothing\n", "line 3: no #log line stands before it\n"),
    ("B0 05 04 00 21 CD 34 5A\n", "line 1: no #log line stands before it\n"),
    ("#holds 0 VOUT_COMMAND 34CD\n", "line 1: no #log line stands before it\n"),
    ("#commands 0 0 to 1 uV\n", "line 1: no #log line stands before it\n"),
    // The head.
    ("#log 58 2 2", "accepted: 0 claims, 0 transfers\n"),
    ("#log 58 2 2\r\n", "accepted: 0 claims, 0 transfers\n"),
    ("#log 58 0 2\n", "line 1: there is no such host: H1 OutputCount\n"),
    ("#log 58 9 2\n", "line 1: there is no such host: H1 OutputCount\n"),
    ("#log 58 2 16\n", "line 1: there is no such host: H2 Passes\n"),
    ("#log 07 2 2\n", "line 1: there is no such host: no part has this address\n"),
    ("#log 5 2 2\n", "line 1: X2 BadHex\n"),
    ("#log 58 2\n", "line 1: X1 Syntax\n"),
    ("#log 58 2 2 2\n", "line 1: X1 Syntax\n"),
    ("#logs 58 2 2\n", "line 1: X1 Syntax\n"),
    ("# failed: B0 03: no\n", "line 1: X1 Syntax\n"),
    // A claim rests on a read.
    ("#log 58 2 2\n#holds 0 VOUT_COMMAND 34CD\n",
        "line 2: 0 VOUT_COMMAND isn't known to hold 34CD: possible any\n"),
    ("#log 58 2 2\nB0 06 02 00 21 / B1 02 CD 34 B9\n#holds 0 VOUT_COMMAND 34CD\n",
        "accepted: 1 claim, 1 transfer\n"),
    // An order, and the same with a write that failed: the word was read back.
    ("#log 58 2 2\nB0 05 04 00 21 CD 34 5A\nB0 06 02 00 21 / B1 02 CD 34 B9\n#holds 0 VOUT_COMMAND 34CD\n",
        "accepted: 1 claim, 2 transfers\n"),
    ("#log 58 2 2\n#failed B0 05 04 00 21 CD 34 5A\nB0 06 02 00 21 / B1 02 CD 34 B9\n#holds 0 VOUT_COMMAND 34CD\n",
        "accepted: 1 claim, 2 transfers\n"),
    // A write after the read: either word is possible, though it failed.
    ("#log 58 2 2\nB0 06 02 00 21 / B1 02 00 10 41\n#failed B0 05 04 00 21 CD 34 5A\n#holds 0 VOUT_COMMAND 34CD\n",
        "line 4: 0 VOUT_COMMAND isn't known to hold 34CD: possible 1000 34CD\n"),
    ("#log 58 2 2\nB0 06 02 00 21 / B1 02 00 10 41\nB0 05 04 00 21 CD 34 5A\nB0 06 02 00 21 /\n#holds 0 VOUT_COMMAND 1000\n",
        "line 5: 0 VOUT_COMMAND isn't known to hold 1000: possible 1000 34CD\n"),
    // A bad answer says nothing; the second try does.
    ("#log 58 2 2\nB0 06 02 00 21 / B1 02 CD 34 B8\n#holds 0 VOUT_COMMAND 34CD\n",
        "line 3: 0 VOUT_COMMAND isn't known to hold 34CD: possible any\n"),
    ("#log 58 2 2\nB0 06 02 00 21 / B1 02 CD 34 B8\nB0 06 02 00 21 / B1 02 CD 34 B9\n#holds 0 VOUT_COMMAND 34CD\n",
        "accepted: 1 claim, 2 transfers\n"),
    // A frame that isn't the open job's next is a restart of the host, which forgets all.
    ("#log 58 2 2\nB0 10 / B1 00 60\nB0 05 04 00 21 CD 34 5A\nB0 06 02 00 20 / B1 01 14 4E\n#holds - WRITE_PROTECT 00\n",
        "line 5: - WRITE_PROTECT isn't known to hold 00: possible any\n"),
    ("#log 58 2 2\nB0 10 / B1 00 60\n#holds - WRITE_PROTECT 00\n#holds - WRITE_PROTECT 20\n",
        "line 4: - WRITE_PROTECT isn't known to hold 20: possible 00\n"),
    // A head begins with a host that knows nothing.
    ("#log 58 2 2\nB0 06 02 00 21 / B1 02 CD 34 B9\n#log 58 2 2\n#holds 0 VOUT_COMMAND 34CD\n",
        "line 4: 0 VOUT_COMMAND isn't known to hold 34CD: possible any\n"),
    // An output that isn't there.
    ("#log 58 1 2\nB0 06 02 01 21 / B1 02 CD 34 90\n",
        "line 2: no host begins this job: H4 UnknownOutput\n"),
    ("#log 58 2 2\n#holds 2 VOUT_COMMAND 34CD\n",
        "line 2: 2 VOUT_COMMAND isn't known to hold 34CD: possible any\n"),
    ("#log 58 2 2\n#commands 2 0 to 1 uV\n", "line 2: output 2 isn't known to command 0 to 1 uV\n"),
    // Packets that no host sends.
    ("#log 59 2 2\nB0 05 04 00 21 CD 34 5A\n", "line 2: no host sends this packet: F1 NotOurs\n"),
    ("#log 58 2 2\nB0 05 04 00 21 CD 34 5B\n", "line 2: no host sends this packet: F5 WrongPec\n"),
    ("#log 58 2 2\nB0 21 CD 34 38\n", "line 2: no job of a host sends this packet\n"),
    ("#log 58 2 2\nB0 03 / B1 00\n", "line 2: no host sends this packet: F7 WrongDirection\n"),
    ("#log 58 2 2\n#failed B0 06 02 00 21 /\n", "line 2: X1 Syntax\n"),
    ("#log 58 2 2\nB0 0\n", "line 2: X2 BadHex\n"),
    // What is read beside the jobs says nothing, in the midst of one, too.
    ("#log 58 2 2\nB0 05 04 00 21 CD 34 5A\nB0 79 / B1 40 08 B7\nB0 9E / B1 02 41 42 61\nB0 06 02 00 21 / B1 02 CD 34 B9\n#holds 0 VOUT_COMMAND 34CD\n",
        "accepted: 1 claim, 2 transfers\n"),
    // Commands that are sent.
    ("#log 58 2 2\nB0 05 02 00 03 50\nB0 15 24\n", "accepted: 0 claims, 2 transfers\n"),
    // What an output commands: its format, OPERATION, VOUT_COMMAND, VOUT_MAX, VOUT_MIN.
    ("#log 58 2 2\nB0 06 02 00 20 / B1 01 14 4E\nB0 06 02 00 01 / B1 01 80 73\nB0 06 02 00 21 / B1 02 CD 34 B9\nB0 06 02 00 24 / B1 02 00 40 1B\nB0 06 02 00 2B / B1 02 00 00 EC\n#commands 0 3300048 to 3300049 uV\n",
        "accepted: 1 claim, 5 transfers\n"),
    ("#log 58 2 2\nB0 06 02 00 20 / B1 01 14 4E\nB0 06 02 00 01 / B1 01 80 73\nB0 06 02 00 21 / B1 02 CD 34 B9\nB0 06 02 00 24 / B1 02 00 40 1B\n#commands 0 3300048 to 3300049 uV\n",
        "line 6: output 0 isn't known to command 3300048 to 3300049 uV\n"),
    ("#log 58 2 2\nB0 06 02 00 20 / B1 01 14 4E\nB0 06 02 00 01 / B1 01 80 73\nB0 06 02 00 21 / B1 02 CD 34 B9\nB0 06 02 00 24 / B1 02 00 40 1B\nB0 06 02 00 2B / B1 02 00 00 EC\n#commands 0 -1 to 3300048 uV\n",
        "line 7: output 0 isn't known to command -1 to 3300048 uV\n"),
];

// How a log ends, and what is written of it.
fn written(alloc: Global, log: &str) -> (Result<LogEnd, TextFault>, Vec<u8>) {
    let mut source = Source::new(log.as_bytes());
    let mut sink = Sink::new(Vec::new(alloc));
    let end = check_log(alloc, &mut source, &mut sink, &Lacks::nothing());
    (end, sink.into_inner())
}

// How a log ends of which this is written.
fn end_of(text: &str) -> LogEnd {
    if text.starts_with("accepted: ") {
        LogEnd::Accepted
    } else {
        LogEnd::Refused
    }
}

#[test]
fn logs_have_their_verdicts(rt: HostRuntime) {
    for (log, wanted) in &LOGS {
        let (end, text) = written(rt.alloc(), log);
        equal(&rt, &text.as_slice(), &wanted.as_bytes(), log);
        equal(&rt, &end, &Ok(end_of(wanted)), log);
    }
}
