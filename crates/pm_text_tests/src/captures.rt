//! What captures are shown as, written out by hand.

use crate::checks::equal;
use pm_decode::{Addresses, TellEnd, TellOptions, tell};
use pm_lines::{Sink, Source, TextFault};
use std::alloc::Global;
use std::process::Abort;

// Packets are shown with what they mean.
fn values() -> TellOptions {
    with! { TellOptions, TellOptions::none(); values: true }
}

// What is written of a capture, and how it ends.
fn told(
    alloc: Global,
    capture: &str,
    options: &TellOptions,
) -> (Result<TellEnd, TextFault>, Vec<u8>) {
    let mut reader = Source::new(capture.as_bytes());
    let mut writer = Sink::new(Vec::new(alloc));
    let end = tell(alloc, &mut reader, &mut writer, options);
    (end, writer.into_inner())
}

// Rows of captures and their texts, shown with these options.
fn are_told(rt: &(impl Abort + AllocGlobal), rows: &[(&str, &str)], options: &TellOptions) {
    for (row, (capture, text)) in rows.iter().enumerate() {
        let (_, written) = told(rt.alloc(), capture, options);
        equal(rt, &written.as_slice(), &text.as_bytes(), &row);
    }
}

static PACKETS: [(&str, &str); 2] = [
    ("", "lines 0 accepted 0 faults 0 bad 0\n"),
    (
        "# x\nB0 88 / B1 30 D3 0F\nB0 96 / B1 34 12 B1\nB0 0\n",
        "2 58 READ_VIN read D330\n3 58 write F6 UnknownCode 1\n4 X2 BadHex\ncount READ_VIN 1\nlines 3 accepted 1 faults 1 bad 1\n",
    ),
];

#[rattlefmt::skip]
static MEANINGS: [(&str, &str); 9] = [
    ("B0 88 / B1 30 D3 0F\nB0 20 / B1 14 ED\nB0 88 / B1 30 D3 0F",
        "1 58 READ_VIN read D330\n2 58 VOUT_MODE read 14 ULINEAR16 -12\n3 58 READ_VIN read D330 12.75 V?\ncount READ_VIN 2\ncount VOUT_MODE 1\nlines 3 accepted 3 faults 0 bad 0\n"),
    ("B0 20 / B1 14 ED\nB0 8C / B1 FB FF E9",
        "1 58 VOUT_MODE read 14 ULINEAR16 -12\n2 58 READ_IOUT read FFFB -2.5 A?\ncount VOUT_MODE 1\ncount READ_IOUT 1\nlines 2 accepted 2 faults 0 bad 0\n"),
    ("B0 01 94 1A",
        "1 58 OPERATION write 94 on, margin low\ncount OPERATION 1\nlines 1 accepted 1 faults 0 bad 0\n"),
    ("B0 10 20 5D",
        "1 58 WRITE_PROTECT write 20 writes of WRITE_PROTECT, OPERATION, PAGE, ON_OFF_CONFIG and VOUT_COMMAND\ncount WRITE_PROTECT 1\nlines 1 accepted 1 faults 0 bad 0\n"),
    ("B0 79 / B1 42 80 2C",
        "1 58 STATUS_WORD read 8042 VOUT, OFF, CML\ncount STATUS_WORD 1\nlines 1 accepted 1 faults 0 bad 0\n"),
    ("B0 7E / B1 84 1C",
        "1 58 STATUS_CML read 84 COMMAND, bit 2\ncount STATUS_CML 1\nlines 1 accepted 1 faults 0 bad 0\n"),
    ("B0 78 / B1 00 F4",
        "1 58 STATUS_BYTE read 00 none\ncount STATUS_BYTE 1\nlines 1 accepted 1 faults 0 bad 0\n"),
    ("B0 05 04 01 21 CD 34 5A",
        "1 58 write F5 WrongPec 7 bytes B0 05 04 01 21 CD 34 5A\nlines 1 accepted 0 faults 1 bad 0\n"),
    ("B0 05 04 01 21 CD 34 4C\nB0 06 02 01 20 / B1 01 14 2C\nB0 05 04 01 21 CD 34 4C\nB0 06 02 01 20 / B1 01 40 87\nB0 05 04 01 21 CD 34 4C\nB0 30 02 21 00 / B1 05 01 00 00 00 03 6B\nB0 05 04 01 21 CD 34 4C\nB0 21 CD 34 38\n",
        "1 58 page 1 VOUT_COMMAND write 34CD\n2 58 page 1 VOUT_MODE read 14 ULINEAR16 -12\n3 58 page 1 VOUT_COMMAND write 34CD 3.300048 V\n4 58 page 1 VOUT_MODE read 40 DIRECT\n5 58 page 1 VOUT_COMMAND write 34CD\n6 58 COEFFICIENTS of 21 side 0 read m 1 b 0 r 3\n7 58 page 1 VOUT_COMMAND write 34CD 13.517 V\n8 58 VOUT_COMMAND write 34CD\ncount VOUT_COMMAND 5\ncount VOUT_MODE 2\ncount COEFFICIENTS 1\nlines 8 accepted 8 faults 0 bad 0\n"),
];

static OTHERS: [(&str, &str); 2] = [
    ("", "lines 0 accepted 0 other 0 faults 0 bad 0\n"),
    (
        "B0 D4 01 02 03\nB0 D4\nB0 96 / B1 34 12 B1\nB0 86 02 01 02 / B1 03 04 1E\nB0 21 CD 34\nB0\nB0 03 47\nB0 96 / B1\n",
        "1 58 code D4 write 01 02 03, no PEC\n2 58 code D4 send, no PEC\n3 58 code 96 READ_POUT read 34 12, PEC right\n4 58 code 86 READ_EIN write 02 01 02 read 03 04, PEC right\n5 58 VOUT_COMMAND write 34CD, no PEC\n6 58 write F2 Short 1\n7 58 write F5 WrongPec 2\n8 58 code 96 READ_POUT read, no PEC\ncount VOUT_COMMAND 1\ncount code 86 1\ncount code 96 2\ncount code D4 2\nlines 8 accepted 1 other 5 faults 2 bad 0\n",
    ),
];

static TIMES: [(&str, &str); 1] = [(
    "0012 B0 10 80 34\r\n7\r\n # x\n#\n  \n\r\n1234567890123456789 B0\n12 # x\n 3 B0 10 80 34 00/00/00\n\n5\r",
    "1 0 us 58 WRITE_PROTECT write 80\n2 -5 us -- write F1 NotOurs\n3 X1 Syntax\n7 X1 Syntax\n8 X2 BadHex\n9 X1 Syntax\n11 -7 us -- write F1 NotOurs\ncount WRITE_PROTECT 1\nlines 7 accepted 1 faults 2 bad 4\n",
)];

static OBJECTS: [(&str, &str); 2] = [
    (
        "",
        "{\"lines\":0,\"accepted\":0,\"other\":0,\"faults\":0,\"bad\":0}\n",
    ),
    (
        "B0 05 04 01 21 CD 34 4C\nB0 06 02 01 20 / B1 01 14 2C\nB0 05 04 01 21 CD 34 4C\nB0 79 / B1 42 80 2C\nB0 78 / B1 00 F4\nB0 30 02 21 00 / B1 05 01 00 00 00 03 6B\nB0 88 / B1 30 D3 0F\nB0 05 04 01 21 CD 34 5A\nB0 0\nB0 96 / B1 34 12 B1\nB0 86 02 01 02 / B1 03 04 1E\nB0 D4\nB0 03 46\n/\n",
        "{\"line\":1,\"address\":\"58\",\"page\":1,\"code\":\"21\",\"name\":\"VOUT_COMMAND\",\"direction\":\"write\",\"payload\":\"CD 34\"}\n\
{\"line\":2,\"address\":\"58\",\"page\":1,\"code\":\"20\",\"name\":\"VOUT_MODE\",\"direction\":\"read\",\"payload\":\"14\",\"value\":\"ULINEAR16 -12\"}\n\
{\"line\":3,\"address\":\"58\",\"page\":1,\"code\":\"21\",\"name\":\"VOUT_COMMAND\",\"direction\":\"write\",\"payload\":\"CD 34\",\"numerator\":13517,\"denominator\":4096,\"volts\":3.300048}\n\
{\"line\":4,\"address\":\"58\",\"code\":\"79\",\"name\":\"STATUS_WORD\",\"direction\":\"read\",\"payload\":\"42 80\",\"flags\":[\"VOUT\",\"OFF\",\"CML\"]}\n\
{\"line\":5,\"address\":\"58\",\"code\":\"78\",\"name\":\"STATUS_BYTE\",\"direction\":\"read\",\"payload\":\"00\",\"flags\":[]}\n\
{\"line\":6,\"address\":\"58\",\"code\":\"30\",\"name\":\"COEFFICIENTS\",\"of\":\"21\",\"side\":0,\"direction\":\"read\",\"payload\":\"01 00 00 00 03\",\"m\":1,\"b\":0,\"r\":3}\n\
{\"line\":7,\"address\":\"58\",\"code\":\"88\",\"name\":\"READ_VIN\",\"direction\":\"read\",\"payload\":\"30 D3\",\"numerator\":816,\"denominator\":64,\"volts\":12.75,\"assumed\":true}\n\
{\"line\":8,\"address\":\"58\",\"code\":\"05\",\"direction\":\"write\",\"packet\":\"B0 05 04 01 21 CD 34 5A\",\"fault\":\"F5 WrongPec\",\"place\":7}\n\
{\"line\":9,\"fault\":\"X2 BadHex\"}\n\
{\"line\":10,\"address\":\"58\",\"code\":\"96\",\"name\":\"READ_POUT\",\"direction\":\"read\",\"payload\":\"34 12\",\"pec\":true}\n\
{\"line\":11,\"address\":\"58\",\"code\":\"86\",\"name\":\"READ_EIN\",\"direction\":\"read\",\"written\":\"02 01 02\",\"payload\":\"03 04\",\"pec\":true}\n\
{\"line\":12,\"address\":\"58\",\"code\":\"D4\",\"direction\":\"send\",\"pec\":false}\n\
{\"line\":13,\"address\":\"58\",\"code\":\"03\",\"name\":\"CLEAR_FAULTS\",\"direction\":\"send\"}\n\
{\"line\":14,\"direction\":\"write\",\"packet\":\"/\",\"fault\":\"F1 NotOurs\"}\n\
{\"count\":\"VOUT_COMMAND\",\"lines\":2}\n{\"count\":\"VOUT_MODE\",\"lines\":1}\n{\"count\":\"STATUS_WORD\",\"lines\":1}\n{\"count\":\"STATUS_BYTE\",\"lines\":1}\n{\"count\":\"COEFFICIENTS\",\"lines\":1}\n{\"count\":\"READ_VIN\",\"lines\":1}\n{\"count\":\"CLEAR_FAULTS\",\"lines\":1}\n\
{\"code\":\"86\",\"lines\":1}\n{\"code\":\"96\",\"lines\":1}\n{\"code\":\"D4\",\"lines\":1}\n\
{\"lines\":14,\"accepted\":8,\"other\":3,\"faults\":2,\"bad\":1}\n",
    ),
];

#[rattlefmt::skip]
static PAGES: [(&str, &str); 3] = [
    ("B0 00 01 ED\nB0 20 / B1 14 ED\nB0 21 CD 34 38\nB0 00 / B1 00 C2\nB0 21 CD 34 38\nB0 00 01\nB0 21 CD 34 38\n",
        "1 58 PAGE write 01\n2 58 page 1? VOUT_MODE read 14 ULINEAR16 -12\n3 58 page 1? VOUT_COMMAND write 34CD 3.300048 V\n4 58 PAGE read 00 WRONG PAGE? lines 1 and 4\n5 58 page 0? VOUT_COMMAND write 34CD\n6 58 write F2 Short 3 bytes B0 00 01\n7 58 VOUT_COMMAND write 34CD WRONG PAGE? lines 6 and 7\ncount PAGE 2\ncount VOUT_MODE 1\ncount VOUT_COMMAND 3\nlines 7 accepted 6 faults 1 bad 0\n"),
    ("B0 00 03 E3\n# another device: A0 00\n\nB0 03 46\n# another devic\nB0 03 46\nB0 00 03 E3\nB2 03 46\nB0 03 46\nB0 9\nB0 03 46\n# byte 2 wasn't acknowledged\nB0 00 03 E3\nB0 03 46",
        "1 58 PAGE write 03\n4 58 page 3? CLEAR_FAULTS send\n6 58 page 3? CLEAR_FAULTS send\n7 58 PAGE write 03\n8 59 write F5 WrongPec 2 bytes B2 03 46\n9 58 page 3? CLEAR_FAULTS send\n10 X2 BadHex\n11 58 CLEAR_FAULTS send\n13 58 PAGE write 03, byte 2 not acknowledged\n14 58 CLEAR_FAULTS send WRONG PAGE? lines 13 and 14\ncount PAGE 2\ncount CLEAR_FAULTS 5\nlines 10 accepted 7 faults 1 refused 1 bad 1\n"),
    ("# bytes were lost\nB0 00 03 E3\nB0 03 46\n",
        "2 58 PAGE write 03\n3 58 page 3? CLEAR_FAULTS send\ncount PAGE 1\ncount CLEAR_FAULTS 1\nlines 2 accepted 2 faults 0 bad 0\n"),
];

static PAUSES: [(&str, &str); 1] = [(
    "0 B0 00 01\n2000 B0 03 46\n4001 B0 03 46\n4001 B0 00 02 E4\n4000 B0 03\n4000 B0 00 / B1 01 C5\n4000 B0 00 / B1 FF\n4000 B0 03 46\n",
    "{\"line\":1,\"time\":0,\"address\":\"58\",\"code\":\"00\",\"name\":\"PAGE\",\"direction\":\"write\",\"payload\":\"01\",\"pec\":false}\n\
{\"line\":2,\"time\":2000,\"address\":\"58\",\"page\":1,\"followed\":true,\"code\":\"03\",\"name\":\"CLEAR_FAULTS\",\"direction\":\"send\"}\n\
{\"line\":3,\"time\":4001,\"address\":\"58\",\"code\":\"03\",\"name\":\"CLEAR_FAULTS\",\"direction\":\"send\"}\n\
{\"line\":4,\"time\":4001,\"address\":\"58\",\"code\":\"00\",\"name\":\"PAGE\",\"direction\":\"write\",\"payload\":\"02\"}\n\
{\"line\":5,\"time\":4000,\"address\":\"58\",\"code\":\"03\",\"name\":\"CLEAR_FAULTS\",\"direction\":\"send\",\"pec\":false}\n\
{\"line\":6,\"time\":4000,\"address\":\"58\",\"code\":\"00\",\"name\":\"PAGE\",\"direction\":\"read\",\"payload\":\"01\"}\n\
{\"line\":7,\"time\":4000,\"address\":\"58\",\"code\":\"00\",\"name\":\"PAGE\",\"direction\":\"read\",\"payload\":\"FF\",\"pec\":false,\"answered\":null}\n\
{\"line\":8,\"time\":4000,\"address\":\"58\",\"page\":1,\"followed\":true,\"code\":\"03\",\"name\":\"CLEAR_FAULTS\",\"direction\":\"send\",\"wrong\":[7,8]}\n\
{\"count\":\"PAGE\",\"lines\":4}\n{\"count\":\"CLEAR_FAULTS\",\"lines\":4}\n\
{\"lines\":8,\"accepted\":8,\"other\":0,\"faults\":0,\"bad\":0}\n",
)];

#[rattlefmt::skip]
static RECEIVED: [(&str, &str); 15] = [
    ("# A refused packet isn't done, and has no value.\nB0 20 / B1 14 ED\nB0 21 00 10 C0\n# byte 3 wasn't acknowledged\nB0 21 00 30 20\nB0 21 00 10 C0\n# byte 2 wasn't acknowledged\nB0 7A 80\n# byte order is little, says a person\nB0 7A 80\n",
        "2 58 VOUT_MODE read 14 ULINEAR16 -12\n3 58 VOUT_COMMAND write 1000 1 V\n5 58 VOUT_COMMAND write 3000, byte 3 not acknowledged\n6 58 VOUT_COMMAND write 1000 1 V\n8 58 STATUS_VOUT write 80, no PEC, byte 2 not acknowledged\n10 58 STATUS_VOUT write 80 VOUT_OV_FAULT, no PEC\ncount VOUT_MODE 1\ncount VOUT_COMMAND 2\ncount STATUS_VOUT 1\nlines 6 accepted 4 other 0 faults 0 refused 2 bad 0\n"),
    ("# What was refused isn't what was written last.\nB0 00 01\n# byte 2 wasn't acknowledged\nB0 00 FF\nB0 00 / B1 FF\nB0 21 00 10 C0\n",
        "2 58 PAGE write 01, no PEC\n4 58 PAGE write FF, no PEC, byte 2 not acknowledged\n5 58 PAGE read FF, all ones: nobody answered?\n6 58 VOUT_COMMAND write 1000 WRONG PAGE? lines 5 and 6\ncount PAGE 2\ncount VOUT_COMMAND 1\nlines 4 accepted 3 other 0 faults 0 refused 1 bad 0\n"),
    ("# A write of PAGE that WRITE_PROTECT forbids changes nothing.\nB0 00 00 EA\nB0 20 / B1 14 ED\nB0 00 01 ED\nB0 20 / B1 17 E4\nB0 00 00 EA\nB0 10 80 34\nB0 10 / B1 80 E9\nB0 00 01 ED\nB0 8B / B1 00 10 8B\nB0 10 40 7A\nB0 00 01 ED\nB0 8B / B1 00 10 8B\n",
        "2 58 PAGE write 00\n3 58 page 0? VOUT_MODE read 14 ULINEAR16 -12\n4 58 PAGE write 01\n5 58 page 1? VOUT_MODE read 17 ULINEAR16 -9\n6 58 PAGE write 00\n7 58 WRITE_PROTECT write 80 writes of WRITE_PROTECT\n8 58 WRITE_PROTECT read 80 writes of WRITE_PROTECT\n9 58 PAGE write 01, WRITE_PROTECT forbids it\n10 58 page 0? READ_VOUT read 1000 1 V\n11 58 WRITE_PROTECT write 40 writes of WRITE_PROTECT, OPERATION and PAGE\n12 58 PAGE write 01\n13 58 page 1? READ_VOUT read 1000 8 V\ncount PAGE 5\ncount VOUT_MODE 2\ncount WRITE_PROTECT 3\ncount READ_VOUT 2\nlines 12 accepted 12 other 0 faults 0 bad 0\n"),
    ("# A part without PAGE that is asked once for it has no marks, and its values.\n# failed (-6): B0 00 / B1\nB0 20 / B1 14 ED\nB0 8B / B1 00 10 8B\nB0 06 02 00 20\nB0 06 02 00 20 / B1\nB0 8B / B1 00 10 8B\n",
        "3 58 VOUT_MODE read 14 ULINEAR16 -12\n4 58 READ_VOUT read 1000 1 V\n5 58 code 06 PAGE_PLUS_READ write 02 00 20, no PEC\n6 58 code 06 PAGE_PLUS_READ write 02 00 20 read, no PEC\n7 58 READ_VOUT read 1000 1 V\ncount VOUT_MODE 1\ncount READ_VOUT 2\ncount code 06 2\nlines 5 accepted 3 other 2 faults 0 bad 0\n"),
    ("# The same on the wire.\n# byte 0 of the answer wasn't acknowledged\nB0 00 / B1\nB0 20 / B1 14 ED\nB0 8B / B1 00 10 8B\n",
        "3 58 code 00 PAGE read, no PEC, byte 0 of the answer not acknowledged\n4 58 VOUT_MODE read 14 ULINEAR16 -12\n5 58 READ_VOUT read 1000 1 V\ncount VOUT_MODE 1\ncount READ_VOUT 1\nlines 3 accepted 2 other 0 faults 0 refused 1 bad 0\n"),
    ("# An answer of another code that nobody gives, on the wire: the part may have restarted.\nB0 00 01 ED\nB0 8B / B1 00 10 8B\n# byte 0 of the answer wasn't acknowledged\nB0 8B / B1\nB0 8B / B1 00 10 8B\n",
        "2 58 PAGE write 01\n3 58 page 1? READ_VOUT read 1000\n5 58 code 8B READ_VOUT read, no PEC, byte 0 of the answer not acknowledged\n6 58 READ_VOUT read 1000\ncount PAGE 1\ncount READ_VOUT 2\nlines 4 accepted 3 other 0 faults 0 refused 1 bad 0\n"),
    ("# The same as the kernel shows it.\nB0 00 01 ED\nB0 8B / B1 00 10 8B\n# failed (-6): B0 8B / B1\nB0 8B / B1 00 10 8B\n",
        "2 58 PAGE write 01\n3 58 page 1? READ_VOUT read 1000\n5 58 READ_VOUT read 1000\ncount PAGE 1\ncount READ_VOUT 2\nlines 3 accepted 3 other 0 faults 0 bad 0\n"),
    ("# A code that the address never answered ends nothing.\nB0 00 01 ED\n# failed (-6): B0 8B / B1\nB0 96 / B1\nB0 8B / B1 00 10 8B\n",
        "2 58 PAGE write 01\n4 58 page 1? code 96 READ_POUT read, no PEC\n5 58 page 1? READ_VOUT read 1000\ncount PAGE 1\ncount READ_VOUT 1\ncount code 96 1\nlines 3 accepted 2 other 1 faults 0 bad 0\n"),
    ("# A busy part ends nothing, nor does a wrong PEC of another code.\nB0 00 01 ED\nB0 21 00 10 C0\n# failed (-6): B0 21 00 10 C0\n# no device acknowledged the address: B0\nB0 21 00 10 C1\nB0 21 00 10 C0\n",
        "2 58 PAGE write 01\n3 58 page 1? VOUT_COMMAND write 1000\n6 58 write F5 WrongPec 4 bytes B0 21 00 10 C1\n7 58 page 1? VOUT_COMMAND write 1000\ncount PAGE 1\ncount VOUT_COMMAND 2\nlines 4 accepted 3 other 0 faults 1 bad 0\n"),
    ("# RESTORE may write PAGE, and VOUT_MODE.\nB0 00 01 ED\nB0 20 / B1 17 E4\nB0 05 02 00 16 3B\nB0 21 00 10 C0\n",
        "2 58 PAGE write 01\n3 58 page 1? VOUT_MODE read 17 ULINEAR16 -9\n4 58 page 0 RESTORE_USER_ALL send\n5 58 VOUT_COMMAND write 1000\ncount PAGE 1\ncount VOUT_MODE 1\ncount RESTORE_USER_ALL 1\ncount VOUT_COMMAND 1\nlines 4 accepted 4 other 0 faults 0 bad 0\n"),
    ("# A lost answer ends formats of a part whose VOUT_MODE was written, and of no other.\nB0 00 01 ED\nB0 20 / B1 17 E4\nB0 20 / B1\nB0 00 01 ED\nB0 21 00 10 C0\nB0 20 17 21\nB0 20 / B1 17 E4\nB0 20 / B1\nB0 00 01 ED\nB0 21 00 10 C0\n",
        "2 58 PAGE write 01\n3 58 page 1? VOUT_MODE read 17 ULINEAR16 -9\n4 58 code 20 VOUT_MODE read, no PEC\n5 58 PAGE write 01\n6 58 page 1? VOUT_COMMAND write 1000 8 V\n7 58 page 1? code 20 VOUT_MODE write 17, PEC right\n8 58 page 1? VOUT_MODE read 17 ULINEAR16 -9\n9 58 code 20 VOUT_MODE read, no PEC\n10 58 PAGE write 01\n11 58 page 1? VOUT_COMMAND write 1000\ncount PAGE 3\ncount VOUT_MODE 2\ncount VOUT_COMMAND 2\ncount code 20 3\nlines 10 accepted 7 other 3 faults 0 bad 0\n"),
    ("# A general call, and a write to a zone, are for all parts.\nB0 00 01 ED\nB0 20 / B1 17 E4\n6E 96\nB0 21 00 10 C0\n6E 00 01\nB0 21 00 10 C0\n",
        "2 58 PAGE write 01\n3 58 page 1? VOUT_MODE read 17 ULINEAR16 -9\n4 37 ZONE_WRITE write 96\n5 58 page 1? VOUT_COMMAND write 1000 8 V\n6 37 ZONE_WRITE write 00 01\n7 58 VOUT_COMMAND write 1000\ncount PAGE 1\ncount VOUT_MODE 1\ncount VOUT_COMMAND 2\nlines 6 accepted 4 other 0 faults 0 special 2 bad 0\n"),
    ("# One answer of another code ends by chance in its PEC: the part sends none.\nB0 D0 / B1 12 93\nB0 80 / B1 FF\n",
        "2 58 code D0 read 12, PEC right\n3 58 code 80 STATUS_MFR_SPECIFIC read FF bit 7, bit 6, bit 5, bit 4, bit 3, bit 2, bit 1, bit 0, all ones: nobody answered?\ncount code 80 1\ncount code D0 1\nlines 2 accepted 0 other 2 faults 0 bad 0\n"),
    ("# Another host reads without PEC.\nB0 8B / B1 00 10 8B\nB0 24 / B1 FF FF\nB0 7B / B1 FF\n",
        "2 58 READ_VOUT read 1000\n3 58 VOUT_MAX read FFFF, all ones: nobody answered?\n4 58 code 7B STATUS_IOUT read FF, all ones: nobody answered\ncount READ_VOUT 1\ncount VOUT_MAX 1\ncount code 7B 1\nlines 3 accepted 2 other 1 faults 0 bad 0\n"),
    ("# PAGE_PLUS_WRITE writes the code that it carries.\nB0 8B / B1 00 10 8B\nB0 05 04 00 25 FF FF 5D\nB0 25 / B1 FF FF\nB0 05 04 00 25 00 10 09\nB0 25 / B1 FF FF FF\n",
        "2 58 READ_VOUT read 1000\n3 58 page 0 VOUT_MARGIN_HIGH write FFFF\n4 58 VOUT_MARGIN_HIGH read FFFF, no PEC\n5 58 page 0 VOUT_MARGIN_HIGH write 1000\n6 58 code 25 VOUT_MARGIN_HIGH read FF FF FF, all ones: nobody answered\ncount READ_VOUT 1\ncount VOUT_MARGIN_HIGH 3\ncount code 25 1\nlines 5 accepted 4 other 1 faults 0 bad 0\n"),
];

#[rattlefmt::skip]
static SPECIAL: [(&str, &str); 4] = [
    ("# Addresses that SMBus keeps for something else.\n10 B0 34 12\n18 / 19 B0\n50 21 / 51 00 10\n6E 00 01\nC2 02 1D\nC2 / C3 04 01 02\n",
        "2 08 host notify write B0 34 12\n3 0C alert response read B0\n4 28 ZONE_READ write 21 read 00 10\n5 37 ZONE_WRITE write 00 01\n6 61 ARP write 02 1D\n7 61 ARP read 04 01 02\nlines 6 accepted 0 other 0 faults 0 special 6 bad 0\n"),
    ("# What answers VOUT_MODE, STATUS_BYTE or PMBUS_REVISION there is a part, from that line on; at 0C nothing is.\n50 21 00 10\n50 78 / 51 40\n50 21 00 10\n6E 98 / 6F 33\n6E 20 17\nC2 20 / C3 14\nC2 8B / C3 00 10\n10 78 / 11\n10 21 00 10\n18 78 / 19 40\n",
        "2 28 ZONE_READ write 21 00 10\n3 28 STATUS_BYTE read 40 OFF, no PEC\n4 28 VOUT_COMMAND write 1000, no PEC\n5 37 PMBUS_REVISION read 33 Part I 1.3, Part II 1.3, no PEC\n6 37 code 20 VOUT_MODE write 17, no PEC\n7 61 VOUT_MODE read 14 ULINEAR16 -12, no PEC\n8 61 READ_VOUT read 1000 1 V, no PEC\n9 08 host notify write 78 read\n10 08 host notify write 21 00 10\n11 0C alert response write 78 read 40\ncount STATUS_BYTE 1\ncount VOUT_COMMAND 1\ncount PMBUS_REVISION 1\ncount VOUT_MODE 1\ncount READ_VOUT 1\ncount code 20 1\nlines 10 accepted 5 other 1 faults 0 special 4 bad 0\n"),
    ("# A write to a zone ends what is known, and one to a part of its address doesn't.\nB0 00 01 ED\nB0 20 / B1 17 E4\n6E 00 00\nB0 21 00 10 C0\nB0 00 01 ED\nB0 20 / B1 17 E4\n6E 78 / 6F 00\n6E 00 00\nB0 21 00 10 C0\n",
        "2 58 PAGE write 01\n3 58 page 1? VOUT_MODE read 17 ULINEAR16 -9\n4 37 ZONE_WRITE write 00 00\n5 58 VOUT_COMMAND write 1000\n6 58 PAGE write 01\n7 58 page 1? VOUT_MODE read 17 ULINEAR16 -9\n8 37 STATUS_BYTE read 00 none, no PEC\n9 37 PAGE write 00, no PEC\n10 58 page 1? VOUT_COMMAND write 1000 8 V\ncount PAGE 3\ncount VOUT_MODE 2\ncount VOUT_COMMAND 2\ncount STATUS_BYTE 1\nlines 9 accepted 8 other 0 faults 0 special 1 bad 0\n"),
    ("# A comment shows them as well, and a refused one is counted as refused.\nB0 00 01 ED\nB0 20 / B1 17 E4\n# another device: C2 00 00\nB0 21 00 10 C0\n# another device: 6E 00 00\nB0 21 00 10 C0\n# byte 1 wasn't acknowledged\n6E 00 00\n",
        "2 58 PAGE write 01\n3 58 page 1? VOUT_MODE read 17 ULINEAR16 -9\n5 58 page 1? VOUT_COMMAND write 1000 8 V\n7 58 VOUT_COMMAND write 1000\n9 37 ZONE_WRITE write 00 00, byte 1 not acknowledged\ncount PAGE 1\ncount VOUT_MODE 1\ncount VOUT_COMMAND 2\nlines 5 accepted 4 other 0 faults 0 refused 1 bad 0\n"),
];

#[rattlefmt::skip]
static MUXES: [(&str, &str); 2] = [
    ("B0 00 01 ED\nB0 20 / B1 17 E4\nE0 / E1 02\nE0\nB0 21 00 10 C0\nE0 02\nB0 21 00 10 C0\n",
        "1 58 PAGE write 01\n2 58 page 1? VOUT_MODE read 17 ULINEAR16 -9\n3 70 mux read 02\n4 70 mux send\n5 58 page 1? VOUT_COMMAND write 1000 8 V\n6 70 mux write 02\n7 58 VOUT_COMMAND write 1000\ncount PAGE 1\ncount VOUT_MODE 1\ncount VOUT_COMMAND 2\nlines 7 accepted 4 other 0 faults 0 special 3 bad 0\n"),
    ("B0 00 01 ED\n# failed (-6): E2\nB0 8B / B1 00 10 8B\n# failed (-6): E2 04\nB0 8B / B1 00 10 8B\nC2 8B / C3 00 10\n6E 00 00\nB0 00 00 EA\n6E 00 01\nB0 8B / B1 00 10 8B\n",
        "1 58 PAGE write 01\n3 58 page 1? READ_VOUT read 1000\n5 58 READ_VOUT read 1000\n6 61 READ_VOUT read 1000, no PEC\n7 37 PAGE write 00, no PEC\n8 58 PAGE write 00\n9 37 PAGE write 01, no PEC\n10 58 page 0? READ_VOUT read 1000\ncount PAGE 4\ncount READ_VOUT 4\nlines 8 accepted 8 other 0 faults 0 bad 0\n"),
];

static MUX_OBJECTS: [(&str, &str); 1] = [(
    "5 E0 02\n6 50 21 / 51 00\n# byte 0 of the answer wasn't acknowledged\n7 50 21 / 51\n",
    "{\"line\":1,\"time\":0,\"address\":\"70\",\"special\":\"mux\",\"direction\":\"write\",\"payload\":\"02\"}\n{\"line\":2,\"time\":1,\"address\":\"28\",\"special\":\"ZONE_READ\",\"direction\":\"read\",\"written\":\"21\",\"payload\":\"00\"}\n{\"line\":4,\"time\":2,\"address\":\"28\",\"special\":\"ZONE_READ\",\"direction\":\"read\",\"written\":\"21\",\"refused_at\":2}\n{\"lines\":3,\"accepted\":0,\"faults\":0,\"refused\":1,\"special\":2,\"bad\":0}\n",
)];

static MUX_ALONE: [(&str, &str); 1] = [(
    "E0 02\n",
    "1 70 mux write 02\nlines 1 accepted 0 faults 0 special 1 bad 0\n",
)];

#[test]
fn captures_are_told_as_their_options_say(rt: HostRuntime) {
    let named = TellOptions {
        parts: Addresses::none().with(0x61).with(0x37),
        muxes: Addresses::none().with(0x71).with(0x70),
        ..TellOptions::none()
    };
    let paged = with! { TellOptions, values(); all: true, pages: true };
    #[rattlefmt::skip]
    let rows: [(&[(&str, &str)], TellOptions); 12] = [
        (&PACKETS, TellOptions::none()),
        // Each kind of value stands after its packet.
        (&MEANINGS, values()),
        // Packets of other codes are told by their bytes.
        (&OTHERS, with! { TellOptions, TellOptions::none(); all: true }),
        // Each line begins with its time.
        (&TIMES, with! { TellOptions, TellOptions::none(); times: true }),
        // Each line is an object of JSON.
        (&OBJECTS, with! { TellOptions, values(); all: true, json: true }),
        // A plain packet is told with the output that it reaches, which isn't known after a pause.
        (&PAGES, with! { TellOptions, values(); pages: true }),
        (&PAUSES, with! { TellOptions, TellOptions::none(); all: true, times: true, json: true,
                pages: true, gap: 2000 }),
        // What was refused, or answered by nobody, isn't told as done.
        (&RECEIVED, paged),
        // Addresses that are kept for something else are no parts, but for those that are named, as muxes are.
        (&SPECIAL, paged),
        (&MUXES, with! { TellOptions, named; values: true, all: true, pages: true }),
        (&MUX_OBJECTS, with! { TellOptions, named; times: true, json: true }),
        (&MUX_ALONE, named),
    ];
    for (captures, options) in &rows {
        are_told(&rt, captures, options);
    }
}
