//! A line of each packet and of each fault of a packet, and what it says.

use super::{decoded, rendered};
use crate::checks::{equal, joined};
use std::process::Abort;
use std::test::Fail;

/// A line of each code in each layout, what it says, and the code that is counted for it.
#[rattlefmt::skip]
static ACCEPTED: [(&str, &str, &str); 61] = [
    ("B0 03 46", "58 CLEAR_FAULTS send", "CLEAR_FAULTS"),
    ("B0 00 01 ED", "58 PAGE write 01", "PAGE"),
    ("B0 01 94 1A", "58 OPERATION write 94", "OPERATION"),
    ("B0 10 40 7A", "58 WRITE_PROTECT write 40", "WRITE_PROTECT"),
    ("B0 7A 08 F2", "58 STATUS_VOUT write 08", "STATUS_VOUT"),
    ("B0 7E 20 7E", "58 STATUS_CML write 20", "STATUS_CML"),
    ("B0 21 CD 34 38", "58 VOUT_COMMAND write 34CD", "VOUT_COMMAND"),
    ("B0 24 00 40 B7", "58 VOUT_MAX write 4000", "VOUT_MAX"),
    ("B0 25 00 11 6C", "58 VOUT_MARGIN_HIGH write 1100", "VOUT_MARGIN_HIGH"),
    ("B0 26 00 0F 8B", "58 VOUT_MARGIN_LOW write 0F00", "VOUT_MARGIN_LOW"),
    ("B0 2B 00 08 0F", "58 VOUT_MIN write 0800", "VOUT_MIN"),
    ("B0 05 04 05 2B 21 43 6E", "58 page 5 VOUT_MIN write 4321", "VOUT_MIN"),
    ("B0 2B / B1 01 08 29", "58 VOUT_MIN read 0801", "VOUT_MIN"),
    ("B0 06 02 07 2B / B1 02 DC FE 81", "58 page 7 VOUT_MIN read FEDC", "VOUT_MIN"),
    ("B0 05 02 00 03 50", "58 page 0 CLEAR_FAULTS send", "CLEAR_FAULTS"),
    ("B0 05 03 01 01 A8 B1", "58 page 1 OPERATION write A8", "OPERATION"),
    ("B0 05 03 FF 10 80 6B", "58 page 255 WRITE_PROTECT write 80", "WRITE_PROTECT"),
    ("B0 05 03 07 7A 08 90", "58 page 7 STATUS_VOUT write 08", "STATUS_VOUT"),
    ("B0 05 03 08 7E 02 B5", "58 page 8 STATUS_CML write 02", "STATUS_CML"),
    ("B0 05 04 02 24 12 AB 1B", "58 page 2 VOUT_MAX write AB12", "VOUT_MAX"),
    ("B0 05 04 03 25 34 CD 83", "58 page 3 VOUT_MARGIN_HIGH write CD34", "VOUT_MARGIN_HIGH"),
    ("B0 05 04 04 26 56 EF 6D", "58 page 4 VOUT_MARGIN_LOW write EF56", "VOUT_MARGIN_LOW"),
    ("B0 00 / B1 07 D7", "58 PAGE read 07", "PAGE"),
    ("B0 01 / B1 8F 0D", "58 OPERATION read 8F", "OPERATION"),
    ("B0 10 / B1 20 80", "58 WRITE_PROTECT read 20", "WRITE_PROTECT"),
    ("B0 19 / B1 80 D3", "58 CAPABILITY read 80", "CAPABILITY"),
    ("B0 20 / B1 14 ED", "58 VOUT_MODE read 14", "VOUT_MODE"),
    ("B0 21 / B1 CD 34 10", "58 VOUT_COMMAND read 34CD", "VOUT_COMMAND"),
    ("B0 24 / B1 01 40 04", "58 VOUT_MAX read 4001", "VOUT_MAX"),
    ("B0 25 / B1 02 11 9D", "58 VOUT_MARGIN_HIGH read 1102", "VOUT_MARGIN_HIGH"),
    ("B0 26 / B1 03 0F E8", "58 VOUT_MARGIN_LOW read 0F03", "VOUT_MARGIN_LOW"),
    ("B0 78 / B1 43 3A", "58 STATUS_BYTE read 43", "STATUS_BYTE"),
    ("B0 79 / B1 43 88 01", "58 STATUS_WORD read 8843", "STATUS_WORD"),
    ("B0 7A / B1 08 1A", "58 STATUS_VOUT read 08", "STATUS_VOUT"),
    ("B0 7E / B1 E2 29", "58 STATUS_CML read E2", "STATUS_CML"),
    ("B0 88 / B1 0B D3 61", "58 READ_VIN read D30B", "READ_VIN"),
    ("B0 8B / B1 CE 34 4C", "58 READ_VOUT read 34CE", "READ_VOUT"),
    ("B0 8C / B1 01 C0 C2", "58 READ_IOUT read C001", "READ_IOUT"),
    ("B0 8D / B1 2B E0 18", "58 READ_TEMPERATURE_1 read E02B", "READ_TEMPERATURE_1"),
    ("B0 98 / B1 33 A3", "58 PMBUS_REVISION read 33", "PMBUS_REVISION"),
    ("B0 06 02 00 01 / B1 01 80 73", "58 page 0 OPERATION read 80", "OPERATION"),
    ("B0 06 02 01 10 / B1 01 00 E9", "58 page 1 WRITE_PROTECT read 00", "WRITE_PROTECT"),
    ("B0 06 02 02 19 / B1 01 B0 F0", "58 page 2 CAPABILITY read B0", "CAPABILITY"),
    ("B0 06 02 03 20 / B1 01 40 43", "58 page 3 VOUT_MODE read 40", "VOUT_MODE"),
    ("B0 06 02 04 24 / B1 02 FF 7F D5", "58 page 4 VOUT_MAX read 7FFF", "VOUT_MAX"),
    ("B0 06 02 05 25 / B1 02 00 80 BA", "58 page 5 VOUT_MARGIN_HIGH read 8000", "VOUT_MARGIN_HIGH"),
    ("B0 06 02 06 26 / B1 02 FE FF DF", "58 page 6 VOUT_MARGIN_LOW read FFFE", "VOUT_MARGIN_LOW"),
    ("B0 06 02 07 78 / B1 01 41 87", "58 page 7 STATUS_BYTE read 41", "STATUS_BYTE"),
    ("B0 06 02 08 79 / B1 02 41 08 EB", "58 page 8 STATUS_WORD read 0841", "STATUS_WORD"),
    ("B0 06 02 09 7A / B1 01 00 39", "58 page 9 STATUS_VOUT read 00", "STATUS_VOUT"),
    ("B0 06 02 0A 7E / B1 01 02 C9", "58 page 10 STATUS_CML read 02", "STATUS_CML"),
    ("B0 06 02 64 88 / B1 02 12 34 A1", "58 page 100 READ_VIN read 3412", "READ_VIN"),
    ("B0 06 02 C8 8B / B1 02 56 78 D7", "58 page 200 READ_VOUT read 7856", "READ_VOUT"),
    ("B0 06 02 FE 8C / B1 02 9A BC EE", "58 page 254 READ_IOUT read BC9A", "READ_IOUT"),
    ("B0 06 02 FF 8D / B1 02 DE F0 49", "58 page 255 READ_TEMPERATURE_1 read F0DE",
        "READ_TEMPERATURE_1"),
    ("B0 06 02 00 98 / B1 01 33 93", "58 page 0 PMBUS_REVISION read 33", "PMBUS_REVISION"),
    ("B0 30 02 21 00 / B1 05 01 00 00 00 03 6B", "58 COEFFICIENTS of 21 side 0 read m 1 b 0 r 3",
        "COEFFICIENTS"),
    ("B0 30 02 8B 01 / B1 05 00 80 FF FF 80 5D",
        "58 COEFFICIENTS of 8B side 1 read m -32768 b -1 r -128", "COEFFICIENTS"),
    ("B0 30 02 99 FF / B1 05 FF 7F FE FF 7F 92",
        "58 COEFFICIENTS of 99 side 255 read m 32767 b -2 r 127", "COEFFICIENTS"),
    ("10 21 CD 34 C7", "08 VOUT_COMMAND write 34CD", "VOUT_COMMAND"),
    ("EE 20 / EF 14 0F", "77 VOUT_MODE read 14", "VOUT_MODE"),
];

/// A line of each fault at each of its places, and what it says.
#[rattlefmt::skip]
static FAULTY: [(&str, &str); 71] = [
    ("/", "-- write F1 NotOurs"), ("/ B1", "-- write F1 NotOurs"), ("B1 00", "-- write F1 NotOurs"),
    ("0E 00", "-- write F1 NotOurs"), ("F0 00", "-- write F1 NotOurs"),
    ("B0", "58 write F2 Short 1"), ("B0 05", "58 write F2 Short 2"),
    ("B0 99", "58 write F2 Short 2"), ("B0 78", "58 write F2 Short 2"),
    ("B0 03", "58 write F2 Short 2"), ("B0 10 80", "58 write F2 Short 3"),
    ("B0 21 CD 34", "58 write F2 Short 4"),
    ("B0 05 04 00 21 CD 34", "58 write F2 Short 7"),
    ("B0 03 46 00", "58 write F3 Long 3"), ("B0 10 80 34 00", "58 write F3 Long 4"),
    ("B0 21 CD 34 38 00", "58 write F3 Long 5"),
    ("B0 05 04 00 21 CD 34 5A 00", "58 write F3 Long 8"),
    ("B0 05 01 00 21", "58 write F4 WrongCount 2"),
    ("B0 05 03 00 21 CD 00", "58 write F4 WrongCount 2"),
    ("B0 05 00 00", "58 write F4 WrongCount 2"), ("B0 03 47", "58 write F5 WrongPec 2"),
    ("B0 21 CD 34 39", "58 write F5 WrongPec 4"), ("B0 99 00", "58 write F5 WrongPec 2"),
    ("B0 05 03 00 00 01 98", "58 write F5 WrongPec 6"),
    ("B0 99 89", "58 write F6 UnknownCode 1"),
    ("B0 05 04 00 2A 00 10 4E", "58 write F6 UnknownCode 4"),
    ("B0 05 02 00 99 9F", "58 write F6 UnknownCode 4"),
    ("B0 78 20", "58 write F7 WrongDirection 1"),
    ("B0 06 02 00 21 84", "58 write F7 WrongDirection 1"),
    ("B0 05 02 00 78 36", "58 write F7 WrongDirection 4"),
    ("B0 05 03 00 00 01 99", "58 write F8 Nested 4"),
    ("B0 05 02 00 05 42", "58 write F8 Nested 4"), ("B0 05 02 00 06 4B", "58 write F8 Nested 4"),
    ("B0 05 02 00 30 C9", "58 write F8 Nested 4"), ("B0 /", "58 write F2 Short 1"),
    ("B0 06 02 00 /", "58 write F2 Short 4"), ("B0 30 02 21 /", "58 write F2 Short 4"),
    ("B0 21 00 /", "58 write F3 Long 2"), ("B0 06 02 00 21 00 /", "58 write F3 Long 5"),
    ("B0 30 02 21 00 00 /", "58 write F3 Long 5"),
    ("B0 06 03 00 21 /", "58 write F4 WrongCount 2"),
    ("B0 30 01 21 00 /", "58 write F4 WrongCount 2"),
    ("B0 99 00 /", "58 write F6 UnknownCode 1"), ("B0 03 00 /", "58 write F7 WrongDirection 1"),
    ("B0 06 02 00 21 / B1 03 CD", "58 read F2 Short 3"),
    ("B0 99 /", "58 write F6 UnknownCode 1"),
    ("B0 06 02 00 2A /", "58 write F6 UnknownCode 4"),
    ("B0 03 /", "58 write F7 WrongDirection 1"), ("B0 05 /", "58 write F7 WrongDirection 1"),
    ("B0 06 02 00 03 /", "58 write F7 WrongDirection 4"),
    ("B0 06 02 00 00 /", "58 write F8 Nested 4"), ("B0 06 02 00 05 /", "58 write F8 Nested 4"),
    ("B0 06 02 00 06 /", "58 write F8 Nested 4"), ("B0 06 02 00 30 /", "58 write F8 Nested 4"),
    ("B0 20 /", "58 read F1 NotOurs"), ("B0 20 / B0 14 ED", "58 read F1 NotOurs"),
    ("B0 06 02 00 21 / B3 02 CD 34 B9", "58 read F1 NotOurs"),
    ("B0 20 / B1", "58 read F2 Short 1"), ("B0 20 / B1 14", "58 read F2 Short 2"),
    ("B0 21 / B1 CD 34", "58 read F2 Short 3"),
    ("B0 06 02 00 21 / B1 02 CD", "58 read F2 Short 3"),
    ("B0 30 02 21 00 / B1 05 01 00 00 00 03", "58 read F2 Short 7"),
    ("B0 20 / B1 14 ED 00", "58 read F3 Long 3"),
    ("B0 06 02 00 21 / B1 02 CD 34 B9 00", "58 read F3 Long 5"),
    ("B0 30 02 21 00 / B1 05 01 00 00 00 03 6B 00", "58 read F3 Long 8"),
    ("B0 06 02 00 21 / B1 03 CD 34 B9", "58 read F4 WrongCount 1"),
    ("B0 30 02 21 00 / B1 04 01 00 00 00 03 6B", "58 read F4 WrongCount 1"),
    ("B0 20 / B1 14 EE", "58 read F5 WrongPec 2"),
    ("B0 21 / B1 CD 34 00", "58 read F5 WrongPec 3"),
    ("B0 06 02 00 21 / B1 02 CD 34 00", "58 read F5 WrongPec 4"),
    ("B0 30 02 21 00 / B1 05 01 00 00 00 03 00", "58 read F5 WrongPec 7"),
];

// `decode` writes this of a line.
pub(super) fn is_written(rt: &(impl Abort + AllocGlobal), line: &str, text: &str) {
    let (_, written) = decoded(rt.alloc(), line);
    equal(rt, &written.as_slice(), &text.as_bytes(), &line);
}

// A line by itself says this, with its number.
fn says_alone(rt: &(impl Abort + AllocGlobal), line: &str, said: &str) -> Result<(), Fail> {
    let alone = rendered(rt.alloc(), line, 1)?;
    let wanted = joined(rt.alloc(), &["1 ", said])?;
    equal(rt, &alone.as_str(), &wanted.as_str(), &line);
    Ok(())
}

// A trace of one line says the same of it, and these counts.
fn expect_said(
    rt: &(impl Abort + AllocGlobal),
    line: &str,
    said: &str,
    counts: &str,
) -> Result<(), Fail> {
    says_alone(rt, line, said)?;
    let text = joined(rt.alloc(), &["1 ", said, "\n", counts, "\n"])?;
    is_written(rt, line, text.as_str());
    Ok(())
}

#[test]
fn each_line_says_its_packet(rt: HostRuntime) -> Result<(), Fail> {
    for &(line, said, code) in &ACCEPTED {
        let counts = joined(
            rt.alloc(),
            &["count ", code, " 1\nlines 1 accepted 1 faults 0 bad 0"],
        )?;
        expect_said(&rt, line, said, counts.as_str())?;
    }
    Ok(())
}

#[test]
fn each_line_says_its_fault(rt: HostRuntime) -> Result<(), Fail> {
    for &(line, said) in &FAULTY {
        expect_said(&rt, line, said, "lines 1 accepted 0 faults 1 bad 0")?;
    }
    Ok(())
}
