//! Ten scenarios and their reports, which between them hold every word of a report, and each of its
//! numbers in a place of its own.

mod eight;

use crate::checks::equal;
use crate::{Engine, Engines, in_pieces};
use std::process::Abort;

/// Each scenario and its report.
pub(crate) static REPORTS: [(&str, &str); 10] = [
    // An output that is off, cut to its VOUT_MAX, and confirmed in all settings.
    (
        "scenario 1\naddress 5B\npasses 3\nprotect 40\ncoefficients 1 0 0\n\
            output 17 00 0A00 0800 0C00 0700\nbegin\ncheck - WRITE_PROTECT\nexchange whole whole\n\
            check 0 OPERATION\nexchange whole whole\ncheck 0 VOUT_COMMAND\nexchange whole whole\n\
            check 0 VOUT_MAX\nexchange whole whole\ncheck 0 VOUT_MARGIN_HIGH\n\
            exchange whole whole\ncheck 0 VOUT_MARGIN_LOW\nexchange whole whole\n",
        "ran 12\nprotect 40 host confirmed 40\noutput 0 off commanded 2048/512 4000000 uV\n\
            OPERATION 00 host confirmed 00\nVOUT_COMMAND 0A00 host confirmed 0A00\n\
            VOUT_MAX 0800 host confirmed 0800\nVOUT_MARGIN_HIGH 0C00 host confirmed 0C00\n\
            VOUT_MARGIN_LOW 0700 host confirmed 0700\nstatus 41 8841 08\ncml 00\nrestart seen no\n\
            job done\n",
    ),
    // DIRECT with a falling slope, by which a lesser voltage has a greater word; damage of a write that the PEC betrays.
    (
        "scenario 1\naddress 10\npasses 1\nprotect 00\ncoefficients -1 5 3\n\
            output 40 80 03E8 0BB8 0BB7 FFFF\nbegin\norder - WRITE_PROTECT 20\n\
            deliver bytes 20102000 stop\nfinish nack\nexchange bytes 2010 restart cut 0\n",
        "ran 4\nprotect 00 host unknown\noutput 0 on commanded 2000/1000 2000000 uV\n\
            OPERATION 80 host unknown\nVOUT_COMMAND 03E8 host unknown\n\
            VOUT_MAX 0BB8 host unknown\nVOUT_MARGIN_HIGH 0BB7 host unknown\n\
            VOUT_MARGIN_LOW FFFF host unknown\nstatus 03 8003 08\ncml 20\nrestart seen no\n\
            job unknown\n",
    ),
    // Voltages below 0, also of margins; a clear that ended.
    (
        "scenario 1\naddress 77\npasses 15\nprotect 20\ncoefficients 3 0 0\n\
            output 40 8F FFFE 7FFF 0004 0005\noutput 40 94 0001 0002 0003 8000\n\
            output 40 A4 0001 0002 FFFF 0003\nbegin\nclear 2\ndeliver whole\nfinish ack\n",
        "ran 3\nprotect 20 host unknown\noutput 0 on commanded -2/3 -666667 uV\n\
            OPERATION 8F host unknown\nVOUT_COMMAND FFFE host unknown\n\
            VOUT_MAX 7FFF host unknown\nVOUT_MARGIN_HIGH 0004 host unknown\n\
            VOUT_MARGIN_LOW 0005 host unknown\nstatus 00 0000 00\n\
            output 1 on commanded -32768/3 -10922666667 uV\nOPERATION 94 host unknown\n\
            VOUT_COMMAND 0001 host unknown\nVOUT_MAX 0002 host unknown\n\
            VOUT_MARGIN_HIGH 0003 host unknown\nVOUT_MARGIN_LOW 8000 host unknown\n\
            status 00 0000 00\noutput 2 on commanded -1/3 -333334 uV\nOPERATION A4 host unknown\n\
            VOUT_COMMAND 0001 host unknown\nVOUT_MAX 0002 host unknown\n\
            VOUT_MARGIN_HIGH FFFF host unknown\nVOUT_MARGIN_LOW 0003 host unknown\n\
            status 00 0000 00\ncml 00\nrestart seen no\njob done\n",
    ),
    // A restart that is seen; an order whose answer has another word.
    (
        "scenario 1\naddress 58\npasses 2\nprotect 00\ncoefficients 1 0 0\n\
            output 14 80 1000 4000 1100 0F00\noutput 14 80 1000 4000 1100 0F00\nbegin\n\
            order 0 VOUT_COMMAND 34CD\ndeliver whole\nfinish ack\nexchange whole whole\n\
            restart device\ncheck 0 VOUT_COMMAND\nexchange whole whole\norder 1 OPERATION 00\n\
            finish ack\nexchange whole whole\nfinish ack\nexchange whole whole\n",
        "ran 12\nprotect 00 host unknown\noutput 0 on commanded 4096/4096 1000000 uV\n\
            OPERATION 80 host unknown\nVOUT_COMMAND 1000 host confirmed 1000\n\
            VOUT_MAX 4000 host unknown\nVOUT_MARGIN_HIGH 1100 host unknown\n\
            VOUT_MARGIN_LOW 0F00 host unknown\nstatus 00 0000 00\n\
            output 1 on commanded 4096/4096 1000000 uV\nOPERATION 80 host confirmed 80\n\
            VOUT_COMMAND 1000 host unknown\nVOUT_MAX 4000 host unknown\n\
            VOUT_MARGIN_HIGH 1100 host unknown\nVOUT_MARGIN_LOW 0F00 host unknown\n\
            status 00 0000 00\ncml 00\nrestart seen yes\njob differs 0080\n",
    ),
    // Eight outputs.
    (eight::SCENARIO, eight::REPORT),
    // Each bit of STATUS_CML; a job that is open.
    (
        "scenario 1\naddress 58\npasses 2\nprotect 00\ncoefficients 1 0 0\n\
            output 14 40 5000 4000 1100 0F00\noutput 14 80 1000 4000 1100 0F00\nbegin\n\
            order 1 VOUT_MARGIN_HIGH ABCD\ndeliver bytes B099 restart\n\
            deliver bytes B030022100 restart\ndeliver bytes B005040125CDAB00 stop\ndeliver cut 3\n",
        "ran 5\nprotect 00 host unknown\noutput 0 off commanded 16384/4096 4000000 uV\n\
            OPERATION 40 host unknown\nVOUT_COMMAND 5000 host unknown\n\
            VOUT_MAX 4000 host unknown\nVOUT_MARGIN_HIGH 1100 host unknown\n\
            VOUT_MARGIN_LOW 0F00 host unknown\nstatus 43 8843 08\n\
            output 1 on commanded 4096/4096 1000000 uV\nOPERATION 80 host unknown\n\
            VOUT_COMMAND 1000 host unknown\nVOUT_MAX 4000 host unknown\n\
            VOUT_MARGIN_HIGH 1100 host unknown\nVOUT_MARGIN_LOW 0F00 host unknown\n\
            status 02 0002 00\ncml E2\nrestart seen no\njob pending\n",
    ),
    // An order that was heard, and both answers to it lost.
    (
        "scenario 1\naddress 58\npasses 2\nprotect 00\ncoefficients 1 0 0\n\
            output 14 80 1000 4000 1100 0F00\noutput 14 80 1000 4000 1100 0F00\nbegin\n\
            check 0 VOUT_COMMAND\nexchange whole whole\norder 0 VOUT_COMMAND 34CD\ndeliver whole\n\
            finish nack\nexchange whole cut 0\ndeliver cut 0\nfinish nack\nexchange whole cut 0\n",
        "ran 9\nprotect 00 host unknown\noutput 0 on commanded 13517/4096 3300048 uV\n\
            OPERATION 80 host unknown\nVOUT_COMMAND 34CD host unknown\n\
            VOUT_MAX 4000 host unknown\nVOUT_MARGIN_HIGH 1100 host unknown\n\
            VOUT_MARGIN_LOW 0F00 host unknown\nstatus 00 0000 00\n\
            output 1 on commanded 4096/4096 1000000 uV\nOPERATION 80 host unknown\n\
            VOUT_COMMAND 1000 host unknown\nVOUT_MAX 4000 host unknown\n\
            VOUT_MARGIN_HIGH 1100 host unknown\nVOUT_MARGIN_LOW 0F00 host unknown\n\
            status 00 0000 00\ncml 00\nrestart seen no\njob unknown\n",
    ),
    // An acknowledgement of a write that wasn't heard, and the pass after it.
    (
        "scenario 1\naddress 58\npasses 2\nprotect 00\ncoefficients 1 0 0\n\
            output 14 80 1000 4000 1100 0F00\noutput 14 80 1000 4000 1100 0F00\nbegin\n\
            order 1 VOUT_MARGIN_LOW 0E00\ndeliver cut 0\nfinish ack\nexchange whole whole\n\
            deliver whole\nfinish ack\nexchange whole whole\n",
        "ran 7\nprotect 00 host unknown\noutput 0 on commanded 4096/4096 1000000 uV\n\
            OPERATION 80 host unknown\nVOUT_COMMAND 1000 host unknown\n\
            VOUT_MAX 4000 host unknown\nVOUT_MARGIN_HIGH 1100 host unknown\n\
            VOUT_MARGIN_LOW 0F00 host unknown\nstatus 00 0000 00\n\
            output 1 on commanded 4096/4096 1000000 uV\nOPERATION 80 host unknown\n\
            VOUT_COMMAND 1000 host unknown\nVOUT_MAX 4000 host unknown\n\
            VOUT_MARGIN_HIGH 1100 host unknown\nVOUT_MARGIN_LOW 0E00 host confirmed 0E00\n\
            status 00 0000 00\ncml 00\nrestart seen no\njob done\n",
    ),
    // A setting that is protected, ordered as it is and otherwise.
    (
        "scenario 1\naddress 58\npasses 1\nprotect 40\ncoefficients 1 0 0\n\
            output 14 80 1000 4000 1100 0F00\nbegin\norder - WRITE_PROTECT 80\ndeliver whole\n\
            finish ack\nexchange whole whole\norder 0 OPERATION 00\ndeliver whole\nfinish ack\n\
            exchange whole whole\n",
        "ran 8\nprotect 80 host confirmed 80\noutput 0 on commanded 4096/4096 1000000 uV\n\
            OPERATION 80 host confirmed 80\nVOUT_COMMAND 1000 host unknown\n\
            VOUT_MAX 4000 host unknown\nVOUT_MARGIN_HIGH 1100 host unknown\n\
            VOUT_MARGIN_LOW 0F00 host unknown\nstatus 02 0002 00\ncml 80\nrestart seen no\n\
            job differs 0080\n",
    ),
    // Readings, which no report shows, and a restart of either end.
    (
        "scenario 1\naddress 58\npasses 2\nprotect 00\ncoefficients 1 0 0\n\
            output 14 80 1000 4000 1100 0F00\nbegin\nreading 0 READ_VOUT 1234\n\
            reading - READ_VIN 5678\norder 0 VOUT_MAX 0800\ndeliver whole\nfinish ack\n\
            exchange whole whole\nrestart device\norder 0 OPERATION A8\ndeliver whole\n\
            restart host\n",
        "ran 10\nprotect 00 host unknown\noutput 0 on commanded 4352/4096 1062500 uV\n\
            OPERATION A8 host unknown\nVOUT_COMMAND 1000 host unknown\n\
            VOUT_MAX 4000 host unknown\nVOUT_MARGIN_HIGH 1100 host unknown\n\
            VOUT_MARGIN_LOW 0F00 host unknown\nstatus 00 0000 00\ncml 00\nrestart seen no\n\
            job none\n",
    ),
];

fn is_reported(rt: &(impl Abort + AllocGlobal), scenario: &str, report: &str) {
    let (end, written) = Engine::Replay.text_of(rt.alloc(), in_pieces(scenario.as_bytes(), 4096));
    equal(rt, &end, &Ok(true), &scenario);
    equal(rt, &written.as_slice(), &report.as_bytes(), &scenario);
}

#[test]
fn every_word_and_number_of_a_report_has_its_place(rt: HostRuntime) {
    for &(scenario, report) in &REPORTS {
        is_reported(&rt, scenario, report);
    }
}
