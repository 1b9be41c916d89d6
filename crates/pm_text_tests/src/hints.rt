//! What `decode` with options says of a trace that was shown whole, if something may be wrong.

use crate::telling::{Told, are_told};
use std::test::Fail;

#[rattlefmt::skip]
static HINTS: [Told; 22] = [
    // The first order beyond 1000 V is named.
    ("decode --values --vout=ulinear16:0",
        "# x\nB0 05 04 00 21 E8 03 30\nB0 05 04 00 21 E9 03 25\nB0 05 04 00 21 D0 07 7D\n", 0,
        "pmb: line 3 orders a voltage beyond 1000 V by --vout: a minus may be missing\n",
        "2 58 page 0 VOUT_COMMAND write 03E8 1000 V\n3 58 page 0 VOUT_COMMAND write 03E9 1001 V\n4 58 page 0 VOUT_COMMAND write 07D0 2000 V\ncount VOUT_COMMAND 3\nlines 3 accepted 3 faults 0 bad 0\n"),
    // One below -1000 V is, too.
    ("decode --values --vout=direct:-1:0:0", "B0 05 04 00 21 E9 03 25\n", 0,
        "pmb: line 1 orders a voltage beyond 1000 V by --vout: a minus may be missing\n",
        "1 58 page 0 VOUT_COMMAND write 03E9 -1001 V\ncount VOUT_COMMAND 1\nlines 1 accepted 1 faults 0 bad 0\n"),
    // A read is no order.
    ("decode --values --vout=ulinear16:0", "B0 06 02 00 21 / B1 02 E9 03 C6\n", 0, "",
        "1 58 page 0 VOUT_COMMAND read 03E9 1001 V\ncount VOUT_COMMAND 1\nlines 1 accepted 1 faults 0 bad 0\n"),
    // Nothing is said of an order whose format the trace taught.
    ("decode --values --vout=ulinear16:0",
        "B0 06 02 00 20 / B1 01 00 22\nB0 05 04 00 21 E9 03 25\nB0 05 04 01 21 E9 03 33\n", 0,
        "pmb: line 3 orders a voltage beyond 1000 V by --vout: a minus may be missing\n",
        "1 58 page 0 VOUT_MODE read 00 ULINEAR16 0\n2 58 page 0 VOUT_COMMAND write 03E9 1001 V\n3 58 page 1 VOUT_COMMAND write 03E9 1001 V\ncount VOUT_MODE 1\ncount VOUT_COMMAND 2\nlines 3 accepted 3 faults 0 bad 0\n"),
    ("decode --values --pages --vout=ulinear16:0",
        "B0 00 01 ED\nB0 20 / B1 00 81\nB0 21 E9 03 47\nB0 00 00 EA\nB0 21 E9 03 47\n", 0,
        "pmb: line 5 orders a voltage beyond 1000 V by --vout: a minus may be missing\n",
        "1 58 PAGE write 01\n2 58 page 1? VOUT_MODE read 00 ULINEAR16 0\n3 58 page 1? VOUT_COMMAND write 03E9 1001 V\n4 58 PAGE write 00\n5 58 page 0? VOUT_COMMAND write 03E9 1001 V\ncount PAGE 2\ncount VOUT_MODE 1\ncount VOUT_COMMAND 2\nlines 5 accepted 5 faults 0 bad 0\n"),
    // Times at one end only. If a packet was read, nothing is said.
    ("decode --times", "B0 05 04 00 21 CD 34 5A\n", 1,
        "pmb: no line is a time and a packet: give --times to both ends, or to none\n",
        "1 X1 Syntax\nlines 1 accepted 0 faults 0 bad 1\n"),
    ("decode --times", "9 B0 05 04 00 21 CD 34 50\nx\n", 1, "",
        "1 0 us 58 write F5 WrongPec 7\n2 X1 Syntax\nlines 2 accepted 0 faults 1 bad 1\n"),
    ("decode --json", "1234567 B0 05 04 00 21 CD 34 5A\n", 1,
        "pmb: no line is a good packet: where lines begin with times, give --times\n",
        "{\"line\":1,\"fault\":\"X2 BadHex\"}\n{\"lines\":1,\"accepted\":0,\"faults\":0,\"bad\":1}\n"),
    ("decode --all", "1234567 B0 05 04 00 21 CD 34 5A\nB0 03 00\n", 1,
        "pmb: no line is a good packet: where lines begin with times, give --times\n",
        "1 X2 BadHex\n2 58 write F5 WrongPec 2\nlines 2 accepted 0 other 0 faults 1 bad 1\n"),
    ("decode --all", "1234567 B0 05 04 00 21 CD 34 5A\nB0 D0 01\n", 1, "",
        "1 X2 BadHex\n2 58 code D0 write 01, no PEC\ncount code D0 1\nlines 2 accepted 0 other 1 faults 0 bad 1\n"),
    // A time of 16 digits, as `pmhost --trace-times` writes it, passes for bytes.
    ("decode --values", "# x\n1796052351852234 B0 05 04 00 21 CD 34 5A\n", 0,
        "pmb: line 2 begins with its time: give --times\n",
        "2 -- write F1 NotOurs bytes 17 96 05 23 51 85 22 34 B0 05 04 00 21 CD 34 5A\nlines 1 accepted 0 faults 1 bad 0\n"),
    ("decode --all", "B0 03 46\n1805000000000000 B0 06 02 00 21 / B1 02 CD 34 B9\n", 0,
        "pmb: line 2 begins with its time: give --times\n",
        "1 58 CLEAR_FAULTS send\n2 0C alert response write 05 00 00 00 00 00 00 B0 06 02 00 21 read 02 CD 34 B9\ncount CLEAR_FAULTS 1\nlines 2 accepted 1 other 0 faults 0 special 1 bad 0\n"),
    ("decode --all --times", "1796052351852234 1796052351852234 B0 05 04 00 21 CD 34 5A\n", 0, "",
        "1 0 us -- write F1 NotOurs\nlines 1 accepted 0 other 0 faults 1 bad 0\n"),
    // Each packet lacks nothing but its PEC.
    ("decode --values", "B0 21 CD 34\nB0 88 / B1 00 D3\n", 0,
        "pmb: no line is a good packet: where packets have no PEC, give --all\n",
        "1 58 write F2 Short 4 bytes B0 21 CD 34\n2 58 read F2 Short 3 bytes B0 88 / B1 00 D3\nlines 2 accepted 0 faults 2 bad 0\n"),
    ("decode --times", "7 B0 21 CD 34\nB0 03 46\n", 1,
        "pmb: no line is a good packet: where packets have no PEC, give --all\n",
        "1 0 us 58 write F2 Short 4\n2 X1 Syntax\nlines 2 accepted 0 faults 1 bad 1\n"),
    // One of them is good, has another fault, or is too short for more than its PEC.
    ("decode --values", "B0 21 CD 34\nB0 03 46\n", 0, "",
        "1 58 write F2 Short 4 bytes B0 21 CD 34\n2 58 CLEAR_FAULTS send\ncount CLEAR_FAULTS 1\nlines 2 accepted 1 faults 1 bad 0\n"),
    ("decode --pages", "B0 03 00\nB0 21 CD 34\n", 0, "",
        "1 58 write F5 WrongPec 2\n2 58 write F2 Short 4\nlines 2 accepted 0 faults 2 bad 0\n"),
    ("decode --values", "B0 21 CD\nB0 21 CD 34\n", 0, "",
        "1 58 write F2 Short 3 bytes B0 21 CD\n2 58 write F2 Short 4 bytes B0 21 CD 34\nlines 2 accepted 0 faults 2 bad 0\n"),
    // A bad line says first that lines may begin with times.
    ("decode --values", "B0 21 CD 34\nB0 9\n", 1,
        "pmb: no line is a good packet: where lines begin with times, give --times\n",
        "1 58 write F2 Short 4 bytes B0 21 CD 34\n2 X2 BadHex\nlines 2 accepted 0 faults 1 bad 1\n"),
    // PAGE is written, and isn't followed.
    ("decode --values", "B0 03 46\nB0 00 01 ED\nB0 00 00 EA\n", 0,
        "pmb: line 2 writes PAGE: --pages shows which output each packet reaches\n",
        "1 58 CLEAR_FAULTS send\n2 58 PAGE write 01\n3 58 PAGE write 00\ncount CLEAR_FAULTS 1\ncount PAGE 2\nlines 3 accepted 3 faults 0 bad 0\n"),
    ("decode --values --pages", "B0 00 01 ED\n", 0, "",
        "1 58 PAGE write 01\ncount PAGE 1\nlines 1 accepted 1 faults 0 bad 0\n"),
    ("decode --long", "# x\n", 0, "", "lines 0 accepted 0 faults 0 bad 0\n"),
];

#[test]
fn what_may_be_wrong_is_said(rt: HostRuntime) -> Result<(), Fail> {
    are_told(&rt, &HINTS)
}
