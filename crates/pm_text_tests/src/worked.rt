//! The worked scenario, trace and frame, and what the engines write of them.

/// A scenario of two outputs, of which one order reaches the first.
pub const SCENARIO: &str =
    "scenario 1\naddress 58\npasses 2\nprotect 00\ncoefficients 1 0 0\noutput 14 80 1000 4000 1100 0F00\noutput 14 80 1000 4000 1100 0F00\nbegin\norder 0 VOUT_COMMAND 34CD\ndeliver whole\nfinish ack\nexchange whole whole\n";

/// Its report.
pub const REPORT: &str =
    "ran 4\nprotect 00 host unknown\noutput 0 on commanded 13517/4096 3300048 uV\nOPERATION 80 host unknown\nVOUT_COMMAND 34CD host confirmed 34CD\nVOUT_MAX 4000 host unknown\nVOUT_MARGIN_HIGH 1100 host unknown\nVOUT_MARGIN_LOW 0F00 host unknown\nstatus 00 0000 00\noutput 1 on commanded 4096/4096 1000000 uV\nOPERATION 80 host unknown\nVOUT_COMMAND 1000 host unknown\nVOUT_MAX 4000 host unknown\nVOUT_MARGIN_HIGH 1100 host unknown\nVOUT_MARGIN_LOW 0F00 host unknown\nstatus 00 0000 00\ncml 00\nrestart seen no\njob done\n";

/// A trace of four packets and a bad line.
pub const TRACE: &str =
    "B0 05 04 00 21 CD 34 5A\nB0 06 02 00 21 / B1 02 CD 34 B9\nB0 05 04 01 21 CD 34 5A\nb0 10 80 34\nB0 9\n";

/// What it says.
pub const LINES: &str =
    "1 58 page 0 VOUT_COMMAND write 34CD\n2 58 page 0 VOUT_COMMAND read 34CD\n3 58 write F5 WrongPec 7\n4 58 WRITE_PROTECT write 80\n5 X2 BadHex\ncount VOUT_COMMAND 2\ncount WRITE_PROTECT 1\nlines 5 accepted 3 faults 1 bad 1\n";

/// A frame that the base configuration takes.
pub const FRAME: &str = "B0 05 04 00 21 CD 34 5A";

/// What `hear` writes of it.
pub const TAKEN: &str = "taken\noutput 0 VOUT_COMMAND 34CD\noutput 1 VOUT_COMMAND 1000\n";

/// A trace of each code that is counted, once.
pub const CODES: &str =
    "B0 00 01 ED\nB0 01 00 FF\nB0 10 00 BD\nB0 7A 00 CA\nB0 7E 00 9E\nB0 03 46\nB0 15 24\nB0 16 2D\nB0 21 00 10 C0\nB0 24 00 10 00\nB0 25 00 10 6B\nB0 26 00 20 46\nB0 2B 00 08 0F\nB0 19 / B1 00 5A\nB0 20 / B1 14 ED\nB0 30 02 21 00 / B1 05 01 00 00 00 03 6B\nB0 78 / B1 00 F4\nB0 79 / B1 01 80 48\nB0 88 / B1 00 00 C1\nB0 8B / B1 00 00 FB\nB0 8C / B1 00 00 99\nB0 8D / B1 00 00 8F\nB0 98 / B1 33 A3";

/// What it says.
pub const CODES_SAID: &str =
    "1 58 PAGE write 01\n2 58 OPERATION write 00\n3 58 WRITE_PROTECT write 00\n4 58 STATUS_VOUT write 00\n5 58 STATUS_CML write 00\n6 58 CLEAR_FAULTS send\n7 58 STORE_USER_ALL send\n8 58 RESTORE_USER_ALL send\n9 58 VOUT_COMMAND write 1000\n10 58 VOUT_MAX write 1000\n11 58 VOUT_MARGIN_HIGH write 1000\n12 58 VOUT_MARGIN_LOW write 2000\n13 58 VOUT_MIN write 0800\n14 58 CAPABILITY read 00\n15 58 VOUT_MODE read 14\n16 58 COEFFICIENTS of 21 side 0 read m 1 b 0 r 3\n17 58 STATUS_BYTE read 00\n18 58 STATUS_WORD read 8001\n19 58 READ_VIN read 0000\n20 58 READ_VOUT read 0000\n21 58 READ_IOUT read 0000\n22 58 READ_TEMPERATURE_1 read 0000\n23 58 PMBUS_REVISION read 33\ncount PAGE 1\ncount OPERATION 1\ncount WRITE_PROTECT 1\ncount STATUS_VOUT 1\ncount STATUS_CML 1\ncount CLEAR_FAULTS 1\ncount STORE_USER_ALL 1\ncount RESTORE_USER_ALL 1\ncount VOUT_COMMAND 1\ncount VOUT_MAX 1\ncount VOUT_MARGIN_HIGH 1\ncount VOUT_MARGIN_LOW 1\ncount VOUT_MIN 1\ncount CAPABILITY 1\ncount VOUT_MODE 1\ncount COEFFICIENTS 1\ncount STATUS_BYTE 1\ncount STATUS_WORD 1\ncount READ_VIN 1\ncount READ_VOUT 1\ncount READ_IOUT 1\ncount READ_TEMPERATURE_1 1\ncount PMBUS_REVISION 1\nlines 23 accepted 23 faults 0 bad 0\n";
