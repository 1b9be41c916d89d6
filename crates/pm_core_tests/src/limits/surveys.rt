//! What a survey asks for, and when it ends, by rows written by hand.

use super::guards::{LINEAR, first, guard, learn, read};
use super::rails::{Wishes, asks, each, knowing, read_protect, wanted};
use crate::checks::{equal, is_true};
use pm_host::{Job, JobEnd};
use pm_limits::Guard;
use pm_rail::{Survey, Wanted};
use pm_table::{Cell, Reg};
use std::process::Abort;

// Carries out the next job of a survey at a converter that holds these words, and reports to the survey how that ended;
// whether there was one.
fn surveys(rt: &impl Abort, guard: &mut Guard, survey: &mut Survey, words: &[u16; 6]) -> bool {
    match asks(rt, survey, guard) {
        Some(Job::Learn(_)) => {
            learn(guard, 0, LINEAR, &[]);
            survey.told(JobEnd::Learned);
        }
        Some(Job::Check(Cell::Out(_, register))) => {
            read(guard, register, words[register.number()]);
            survey.told(JobEnd::Done);
        }
        Some(_) => {
            read_protect(guard, 0x00);
            survey.told(JobEnd::Done);
        }
        None => return false,
    }
    true
}

// Whether a survey has ended by its own rule.
fn is_done(rt: &impl Abort, survey: &Survey, guard: &Guard) -> bool {
    is_true(rt, survey.output < guard.host().outputs(), &survey.output);
    survey.is_done(guard)
}

// Carries out what a survey asks for; whether it ended by its own rule, and how many jobs it took.
fn survey(
    rt: &impl Abort,
    guard: &mut Guard,
    plan: Option<Wanted>,
    tries: u16,
    words: &[u16; 6],
) -> (bool, u16) {
    let mut survey = Survey::new(0, plan, tries);
    for _ in 0..40 {
        if !surveys(rt, guard, &mut survey, words) {
            break;
        }
    }
    (is_done(rt, &survey, guard), tries - survey.left.min(tries))
}

// Whether what is read before the survey, what the converter holds then, what is wanted, the tries; whether it ends by
// its own rule, and after how many jobs.
#[rattlefmt::skip]
static SURVEYS: [([u16; 6], [u16; 6], Option<Wishes>, u16, (bool, u16)); 9] = [
    // a learn, OPERATION, VOUT_COMMAND, VOUT_MAX, VOUT_MIN
    ([0x80, 1, 2, 3, 4, 5], [0x80, 1, 2, 3, 4, 5], None, 30, (true, 5)),
    // what was read before is read again; the first answer shows a restart
    ([0x80, 1, 2, 3, 4, 5], [0xA8, 1, 2, 3, 4, 5], None, 30, (true, 5)),
    // the last answer shows one: all but that register once more
    ([0x80, 1, 2, 3, 4, 5], [0x80, 1, 2, 3, 4, 9], None, 30, (true, 8)),
    // for a plan: a margin and WRITE_PROTECT too
    ([0x80, 1, 2, 3, 4, 5], [0x80, 1, 2, 3, 4, 5], Some([None, None, None, Some(7), None]), 30,
        (true, 7)),
    // on margin low
    ([0x94, 1, 2, 3, 4, 5], [0x94, 1, 2, 3, 4, 5], None, 30, (true, 5)),
    // on margin high, if the last answer shows a restart: OPERATION isn't known then, so that VOUT_COMMAND is read too, and
    // then all but these two once more
    ([0xA8, 1, 2, 3, 4, 5], [0xA8, 1, 2, 3, 4, 9], None, 30, (true, 9)),
    // for a plan of every register: a learn, and one check less than two for each of seven cells
    ([0x80, 1, 2, 3, 4, 5], [0x80, 1, 2, 3, 4, 9],
        Some([Some(1), Some(2), Some(3), Some(4), Some(9)]), 30, (true, 13)),
    // tries are over
    ([0x80, 1, 2, 3, 4, 5], [0x80, 1, 2, 3, 4, 5], None, 4, (false, 4)),
    // OPERATION is a byte that its cell doesn't take: it isn't known, whatever is read
    ([0x80, 1, 2, 3, 4, 5], [0xA0, 1, 2, 3, 4, 5], None, 9, (false, 9)),
];

#[test]
fn a_survey_reads_what_decides(rt: HostRuntime) {
    let rows = SURVEYS;
    for (before, words, wishes, tries, end) in &rows {
        let mut guard = knowing(0, false, &each(before), Some(0x00));
        let plan = match wishes {
            Some(wishes) => Some(wanted(wishes)),
            None => None,
        };
        compare! { &rt, (before, words); survey(&rt, &mut guard, plan, *tries, words) => *end }
    }
}

#[test]
fn a_check_without_an_answer_is_asked_for_again(rt: HostRuntime) {
    let guard = knowing(0, false, &each(&[0x80, 1, 2, 3, 4, 5]), None);
    let mut survey = Survey::new(0, None, 9);
    compare! { &rt, 1; asks(&rt, &mut survey, &guard) => Some(Job::Learn(0)) }
    survey.told(JobEnd::Unknown);
    compare! { &rt, 2; asks(&rt, &mut survey, &guard) => Some(Job::Learn(0)) }
    survey.told(JobEnd::Learned);
    let check = Some(Job::Check(first(Reg::Operation)));
    equal(&rt, &asks(&rt, &mut survey, &guard), &check, &3);
    survey.told(JobEnd::Unknown);
    equal(&rt, &asks(&rt, &mut survey, &guard), &check, &4);
    survey.told(JobEnd::Done);
    let check = Some(Job::Check(first(Reg::VoutCommand)));
    equal(&rt, &asks(&rt, &mut survey, &guard), &check, &5);
}
