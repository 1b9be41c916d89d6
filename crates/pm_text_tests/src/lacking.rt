//! Logs whose claims say that the part lacks registers, each with what the receiver allows and what is written of it.

use crate::checks::equal;
use pm_limits::PartRegisters;
use pm_lines::{Sink, Source, TextFault};
use pm_log::{Lacks, LogEnd, check_log};
use std::alloc::Global;

const BOTH_LIMITS: PartRegisters = PartRegisters {
    vout_max: false,
    vout_margin_high: true,
    vout_margin_low: true,
    vout_min: false,
};

const MOST: PartRegisters = PartRegisters {
    vout_max: false,
    vout_margin_high: true,
    vout_margin_low: true,
    vout_min: true,
};

const LEAST: PartRegisters = PartRegisters {
    vout_max: true,
    vout_margin_high: true,
    vout_margin_low: true,
    vout_min: false,
};

const MARGINS: PartRegisters = PartRegisters {
    vout_max: true,
    vout_margin_high: false,
    vout_margin_low: false,
    vout_min: true,
};

const ALL_FOUR: PartRegisters = PartRegisters {
    vout_max: false,
    vout_margin_high: false,
    vout_margin_low: false,
    vout_min: false,
};

/// The parts that may lack registers, by their addresses, a log, and what is written of it.
#[rattlefmt::skip]
static LOGS: [(&[(u8, PartRegisters)], &str, &str); 26] = [
    // The part's own answers: its VOUT_MAX holds it at 1 V, and the writer says that it has none.
    (&[],
        "#log 58 2 2\nB0 06 02 00 20 / B1 01 14 4E\nB0 06 02 00 01 / B1 01 80 73\nB0 06 02 00 21 / B1 02 CD 34 B9\n#commands 0 3300048 to 3300049 uV without VOUT_MAX VOUT_MIN\n",
        "line 5: the writer says that 58 lacks VOUT_MAX VOUT_MIN: --lacks=58:VOUT_MAX,VOUT_MIN if its data sheet says so\n"),
    // The receiver says so, too.
    (&[(0x58, BOTH_LIMITS)],
        "#log 58 2 2\nB0 06 02 00 20 / B1 01 14 4E\nB0 06 02 00 01 / B1 01 80 73\nB0 06 02 00 21 / B1 02 CD 34 B9\n#commands 0 3300048 to 3300049 uV without VOUT_MAX VOUT_MIN\n",
        "accepted: 1 claim, 3 transfers; without VOUT_MAX VOUT_MIN of 58 by --lacks\n"),
    // One of the two isn't allowed, or both are of another part.
    (&[(0x58, LEAST)],
        "#log 58 2 2\nB0 06 02 00 20 / B1 01 14 4E\nB0 06 02 00 01 / B1 01 80 73\nB0 06 02 00 21 / B1 02 CD 34 B9\n#commands 0 3300048 to 3300049 uV without VOUT_MAX VOUT_MIN\n",
        "line 5: the writer says that 58 lacks VOUT_MAX: --lacks=58:VOUT_MAX if its data sheet says so\n"),
    (&[(0x58, MOST)],
        "#log 58 2 2\nB0 06 02 00 20 / B1 01 14 4E\nB0 06 02 00 01 / B1 01 80 73\nB0 06 02 00 21 / B1 02 CD 34 B9\n#commands 0 3300048 to 3300049 uV without VOUT_MAX VOUT_MIN\n",
        "line 5: the writer says that 58 lacks VOUT_MIN: --lacks=58:VOUT_MIN if its data sheet says so\n"),
    (&[(0x59, BOTH_LIMITS)],
        "#log 58 2 2\nB0 06 02 00 20 / B1 01 14 4E\nB0 06 02 00 01 / B1 01 80 73\nB0 06 02 00 21 / B1 02 CD 34 B9\n#commands 0 3300048 to 3300049 uV without VOUT_MAX VOUT_MIN\n",
        "line 5: the writer says that 58 lacks VOUT_MAX VOUT_MIN: --lacks=58:VOUT_MAX,VOUT_MIN if its data sheet says so\n"),
    // More is allowed than is said: that isn't taken.
    (&[(0x58, ALL_FOUR)],
        "#log 58 2 2\nB0 06 02 00 20 / B1 01 14 4E\nB0 06 02 00 01 / B1 01 80 73\nB0 06 02 00 21 / B1 02 CD 34 B9\nB0 06 02 00 24 / B1 02 00 40 1B\n#commands 0 3300048 to 3300049 uV without VOUT_MIN\n",
        "accepted: 1 claim, 4 transfers; without VOUT_MIN of 58 by --lacks\n"),
    (&[(0x58, BOTH_LIMITS)],
        "#log 58 2 2\nB0 06 02 00 20 / B1 01 14 4E\nB0 06 02 00 01 / B1 01 80 73\nB0 06 02 00 21 / B1 02 CD 34 B9\nB0 06 02 00 24 / B1 02 00 40 1B\nB0 06 02 00 2B / B1 02 00 00 EC\n#commands 0 3300048 to 3300049 uV\n",
        "accepted: 1 claim, 5 transfers\n"),
    (&[(0x58, BOTH_LIMITS)],
        "#log 58 2 2\nB0 06 02 00 20 / B1 01 14 4E\nB0 06 02 00 01 / B1 01 80 73\nB0 06 02 00 21 / B1 02 CD 34 B9\nB0 06 02 00 24 / B1 02 00 40 1B\nB0 06 02 00 2B / B1 02 00 00 EC\n#commands 0 3300048 to 3300049 uV without\n",
        "accepted: 1 claim, 5 transfers\n"),
    // What is said of margins.
    (&[],
        "#log 58 2 2\nB0 06 02 00 20 / B1 01 14 4E\nB0 06 02 00 01 / B1 01 80 73\nB0 06 02 00 21 / B1 02 CD 34 B9\nB0 06 02 00 24 / B1 02 00 40 1B\nB0 06 02 00 2B / B1 02 00 00 EC\n#commands 0 3300048 to 3300049 uV without VOUT_MARGIN_HIGH VOUT_MARGIN_LOW\n",
        "line 7: the writer says that 58 lacks VOUT_MARGIN_HIGH VOUT_MARGIN_LOW: --lacks=58:VOUT_MARGIN_HIGH,VOUT_MARGIN_LOW if its data sheet says so\n"),
    (&[(0x58, MARGINS)],
        "#log 58 2 2\nB0 06 02 00 20 / B1 01 14 4E\nB0 06 02 00 01 / B1 01 80 73\nB0 06 02 00 21 / B1 02 CD 34 B9\nB0 06 02 00 24 / B1 02 00 40 1B\nB0 06 02 00 2B / B1 02 00 00 EC\n#commands 0 3300048 to 3300049 uV without VOUT_MARGIN_HIGH VOUT_MARGIN_LOW\n",
        "accepted: 1 claim, 5 transfers; without VOUT_MARGIN_HIGH VOUT_MARGIN_LOW of 58 by --lacks\n"),
    // The part answered, so it has the register, whatever is allowed: before the others, and before a restart of the host.
    (&[(0x58, BOTH_LIMITS)],
        "#log 58 2 2\nB0 06 02 00 20 / B1 01 14 4E\nB0 06 02 00 01 / B1 01 80 73\nB0 06 02 00 21 / B1 02 CD 34 B9\nB0 06 02 00 24 / B1 02 00 10 AC\n#commands 0 3300048 to 3300049 uV without VOUT_MAX VOUT_MIN\n",
        "line 6: the writer says that 58 lacks VOUT_MAX: 0 VOUT_MAX answered on line 5\n"),
    (&[],
        "#log 58 2 2\nB0 06 02 00 20 / B1 01 14 4E\nB0 06 02 00 01 / B1 01 80 73\nB0 06 02 00 21 / B1 02 CD 34 B9\nB0 06 02 00 24 / B1 02 00 10 AC\n#commands 0 3300048 to 3300049 uV without VOUT_MAX VOUT_MIN\n",
        "line 6: the writer says that 58 lacks VOUT_MAX: 0 VOUT_MAX answered on line 5\n"),
    (&[(0x58, MARGINS)],
        "#log 58 2 2\nB0 06 02 00 20 / B1 01 14 4E\nB0 06 02 00 01 / B1 01 80 73\nB0 06 02 00 21 / B1 02 CD 34 B9\nB0 06 02 00 24 / B1 02 00 40 1B\nB0 06 02 00 2B / B1 02 00 00 EC\nB0 06 02 00 26 / B1 02 00 0F 35\nB0 06 02 00 25 / B1 02 00 11 C9\n#commands 0 3300048 to 3300049 uV without VOUT_MARGIN_HIGH VOUT_MARGIN_LOW\n",
        "line 9: the writer says that 58 lacks VOUT_MARGIN_HIGH: 0 VOUT_MARGIN_HIGH answered on line 8\n"),
    (&[(0x58, MARGINS)],
        "#log 58 2 2\nB0 06 02 00 20 / B1 01 14 4E\nB0 06 02 00 01 / B1 01 80 73\nB0 06 02 00 21 / B1 02 CD 34 B9\nB0 06 02 00 24 / B1 02 00 40 1B\nB0 06 02 00 2B / B1 02 00 00 EC\nB0 06 02 00 26 / B1 02 00 0F 35\n#commands 0 3300048 to 3300049 uV without VOUT_MARGIN_HIGH VOUT_MARGIN_LOW\n",
        "line 8: the writer says that 58 lacks VOUT_MARGIN_LOW: 0 VOUT_MARGIN_LOW answered on line 7\n"),
    (&[(0x58, BOTH_LIMITS)],
        "#log 58 2 2\nB0 06 02 00 2B / B1 02 00 00 EC\nB0 06 02 00 20 / B1 01 14 4E\nB0 06 02 00 01 / B1 01 80 73\nB0 06 02 00 21 / B1 02 CD 34 B9\nB0 06 02 00 2B / B1 02 00 00 EC\n#commands 0 3300048 to 3300049 uV without VOUT_MIN\n",
        "line 7: the writer says that 58 lacks VOUT_MIN: 0 VOUT_MIN answered on line 6\n"),
    (&[(0x58, BOTH_LIMITS)],
        "#log 58 2 2\nB0 06 02 00 24 / B1 02 00 10 AC\nB0 05 04 00 21 CD 34 5A\nB0 06 02 00 20 / B1 01 14 4E\nB0 06 02 00 01 / B1 01 80 73\nB0 06 02 00 21 / B1 02 CD 34 B9\n#commands 0 3300048 to 3300049 uV without VOUT_MAX VOUT_MIN\n",
        "line 7: the writer says that 58 lacks VOUT_MAX: 0 VOUT_MAX answered on line 2\n"),
    // What an order reads back is an answer.
    (&[(0x58, BOTH_LIMITS)],
        "#log 58 2 2\nB0 06 02 00 20 / B1 01 14 4E\nB0 06 02 00 01 / B1 01 80 73\nB0 06 02 00 21 / B1 02 CD 34 B9\nB0 05 04 00 24 00 40 D5\nB0 06 02 00 24 / B1 02 00 40 1B\n#commands 0 3300048 to 3300049 uV without VOUT_MAX VOUT_MIN\n",
        "line 7: the writer says that 58 lacks VOUT_MAX: 0 VOUT_MAX answered on line 6\n"),
    // A bad answer is none, and neither is that of another output, or of a register before the head.
    (&[(0x58, BOTH_LIMITS)],
        "#log 58 2 2\nB0 06 02 00 20 / B1 01 14 4E\nB0 06 02 00 01 / B1 01 80 73\nB0 06 02 00 21 / B1 02 CD 34 B9\nB0 06 02 00 24 / B1 02 00 10 AD\n#commands 0 3300048 to 3300049 uV without VOUT_MAX VOUT_MIN\n",
        "accepted: 1 claim, 4 transfers; without VOUT_MAX VOUT_MIN of 58 by --lacks\n"),
    (&[(0x58, BOTH_LIMITS)],
        "#log 58 2 2\nB0 06 02 00 20 / B1 01 14 4E\nB0 06 02 00 01 / B1 01 80 73\nB0 06 02 00 21 / B1 02 CD 34 B9\nB0 06 02 01 24 / B1 02 00 10 85\n#commands 0 3300048 to 3300049 uV without VOUT_MAX VOUT_MIN\n",
        "accepted: 1 claim, 4 transfers; without VOUT_MAX VOUT_MIN of 58 by --lacks\n"),
    (&[(0x58, BOTH_LIMITS)],
        "#log 58 2 2\nB0 06 02 00 24 / B1 02 00 10 AC\n#log 58 2 2\nB0 06 02 00 20 / B1 01 14 4E\nB0 06 02 00 01 / B1 01 80 73\nB0 06 02 00 21 / B1 02 CD 34 B9\n#commands 0 3300048 to 3300049 uV without VOUT_MAX VOUT_MIN\n",
        "accepted: 1 claim, 4 transfers; without VOUT_MAX VOUT_MIN of 58 by --lacks\n"),
    (&[(0x58, BOTH_LIMITS)],
        "#log 58 2 2\nB0 06 02 01 20 / B1 01 14 2C\nB0 06 02 01 01 / B1 01 80 11\nB0 06 02 01 21 / B1 02 CD 34 90\nB0 06 02 00 24 / B1 02 00 10 AC\n#commands 1 3300048 to 3300049 uV without VOUT_MAX VOUT_MIN\n",
        "accepted: 1 claim, 4 transfers; without VOUT_MAX VOUT_MIN of 58 by --lacks\n"),
    // An acknowledged write is none.
    (&[(0x58, BOTH_LIMITS)],
        "#log 58 2 2\nB0 06 02 00 20 / B1 01 14 4E\nB0 06 02 00 01 / B1 01 80 73\nB0 06 02 00 21 / B1 02 CD 34 B9\nB0 05 04 00 24 00 40 D5\nB0 06 02 00 24 /\n#commands 0 0 to 16000000 uV without VOUT_MAX VOUT_MIN\n",
        "accepted: 1 claim, 5 transfers; without VOUT_MAX VOUT_MIN of 58 by --lacks\n"),
    // Two parts, by their addresses, and each register once.
    (&[(0x59, BOTH_LIMITS), (0x58, BOTH_LIMITS)],
        "#log 59 2 2\nB2 06 02 00 20 / B3 01 14 BE\nB2 06 02 00 01 / B3 01 80 83\nB2 06 02 00 21 / B3 02 CD 34 67\n#commands 0 3300048 to 3300049 uV without VOUT_MAX VOUT_MIN\n#log 58 2 2\nB0 06 02 00 20 / B1 01 14 4E\nB0 06 02 00 01 / B1 01 80 73\nB0 06 02 00 21 / B1 02 CD 34 B9\nB0 06 02 00 24 / B1 02 00 40 1B\n#commands 0 3300048 to 3300049 uV without VOUT_MIN\n#commands 0 3300048 to 3300049 uV without VOUT_MIN\n",
        "accepted: 3 claims, 7 transfers; without VOUT_MIN of 58 by --lacks; without VOUT_MAX VOUT_MIN of 59 by --lacks\n"),
    // A claim that is allowed has to be known, too.
    (&[(0x58, BOTH_LIMITS)],
        "#log 58 2 2\nB0 06 02 00 20 / B1 01 14 4E\nB0 06 02 00 01 / B1 01 80 73\n#commands 0 3300048 to 3300049 uV without VOUT_MAX VOUT_MIN\n",
        "line 4: output 0 isn't known to command 3300048 to 3300049 uV\n"),
    (&[(0x58, BOTH_LIMITS)], "#commands 0 0 to 1 uV without VOUT_MAX\n",
        "line 1: no #log line stands before it\n"),
    (&[(0x58, BOTH_LIMITS)], "#log 58 2 2\n#commands 255 0 to 1 uV without VOUT_MAX\n",
        "line 2: output 255 isn't known to command 0 to 1 uV\n"),
];

// How a log ends, and what is written of it, for a receiver who lets these parts lack registers.
fn written(
    alloc: Global,
    parts: &[(u8, PartRegisters)],
    log: &str,
) -> (Result<LogEnd, TextFault>, Vec<u8>) {
    let mut allowed = Lacks::nothing();
    for (addr, part) in parts {
        if *addr < 128 {
            allowed.add(*addr, *part);
        }
    }
    let mut source = Source::new(log.as_bytes());
    let mut sink = Sink::new(Vec::new(alloc));
    let end = check_log(alloc, &mut source, &mut sink, &allowed);
    (end, sink.into_inner())
}

// How a log ends of which this is written.
fn end_of(text: &str) -> LogEnd {
    if text.starts_with("accepted: ") {
        LogEnd::Accepted
    } else {
        LogEnd::Refused
    }
}

#[test]
fn registers_are_lacking_by_the_receivers_word(rt: HostRuntime) {
    for (parts, log, wanted) in &LOGS {
        let (end, text) = written(rt.alloc(), parts, log);
        equal(&rt, &text.as_slice(), &wanted.as_bytes(), log);
        equal(&rt, &end, &Ok(end_of(wanted)), log);
    }
}
