//! A scenario of eight outputs, each with another mode and other words, and its report; a format that was
//! learned.

/// The scenario.
pub(super) const SCENARIO: &str = "scenario 1\naddress 08\npasses 4\nprotect 80\n\
    coefficients 2 7 -1\noutput 14 80 1111 2222 3333 0444\noutput 00 00 0555 0666 0777 0888\n\
    output 01 7F 0999 0AAA 0BBB 0CCC\noutput 0F 94 0DDD 0EEE 0FFF 0123\n\
    output 10 98 FFFF FFFE FFFD FFFC\noutput 1F A4 4567 5678 6789 789A\n\
    output 1C AB 1234 2345 1456 4567\noutput 40 8C 0150 0250 0350 0450\nbegin\nlearn 7\n\
    exchange whole whole\nexchange whole whole";

/// Its report.
pub(super) const REPORT: &str = "ran 3\nprotect 80 host unknown\n\
    output 0 on commanded 4369/4096 1066650 uV\nOPERATION 80 host unknown\n\
    VOUT_COMMAND 1111 host unknown\nVOUT_MAX 2222 host unknown\n\
    VOUT_MARGIN_HIGH 3333 host unknown\nVOUT_MARGIN_LOW 0444 host unknown\nstatus 00 0000 00\n\
    output 1 off commanded 1365/1 1365000000 uV\nOPERATION 00 host unknown\n\
    VOUT_COMMAND 0555 host unknown\nVOUT_MAX 0666 host unknown\n\
    VOUT_MARGIN_HIGH 0777 host unknown\nVOUT_MARGIN_LOW 0888 host unknown\nstatus 40 0840 00\n\
    output 2 off commanded 4914/1 4914000000 uV\nOPERATION 7F host unknown\n\
    VOUT_COMMAND 0999 host unknown\nVOUT_MAX 0AAA host unknown\n\
    VOUT_MARGIN_HIGH 0BBB host unknown\nVOUT_MARGIN_LOW 0CCC host unknown\nstatus 40 0840 00\n\
    output 3 on commanded 9535488/1 9535488000000 uV\nOPERATION 94 host unknown\n\
    VOUT_COMMAND 0DDD host unknown\nVOUT_MAX 0EEE host unknown\n\
    VOUT_MARGIN_HIGH 0FFF host unknown\nVOUT_MARGIN_LOW 0123 host unknown\nstatus 00 0000 00\n\
    output 4 on commanded 65532/65536 999938 uV\nOPERATION 98 host unknown\n\
    VOUT_COMMAND FFFF host unknown\nVOUT_MAX FFFE host unknown\n\
    VOUT_MARGIN_HIGH FFFD host unknown\nVOUT_MARGIN_LOW FFFC host unknown\nstatus 00 0000 00\n\
    output 5 on commanded 22136/2 11068000000 uV\nOPERATION A4 host unknown\n\
    VOUT_COMMAND 4567 host unknown\nVOUT_MAX 5678 host unknown\n\
    VOUT_MARGIN_HIGH 6789 host unknown\nVOUT_MARGIN_LOW 789A host unknown\nstatus 01 8001 08\n\
    output 6 on commanded 5206/16 325375000 uV\nOPERATION AB host unknown\n\
    VOUT_COMMAND 1234 host unknown\nVOUT_MAX 2345 host unknown\n\
    VOUT_MARGIN_HIGH 1456 host unknown\nVOUT_MARGIN_LOW 4567 host unknown\nstatus 00 0000 00\n\
    output 7 on commanded 3353/2 1676500000 uV\nOPERATION 8C host unknown\n\
    VOUT_COMMAND 0150 host unknown\nVOUT_MAX 0250 host unknown\n\
    VOUT_MARGIN_HIGH 0350 host unknown\nVOUT_MARGIN_LOW 0450 host unknown\nstatus 00 0000 00\n\
    cml 00\nrestart seen no\njob learned\n";
