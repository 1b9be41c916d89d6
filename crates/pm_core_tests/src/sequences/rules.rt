//! Lists that ask before orders, leave steps that stop, or go on from what an earlier list heard.

use crate::checks::equal;
use crate::sequences::part::{Part, carried};
use crate::sequences::{
    DOWN, ListRow, MUST, NOT, PART, UP, after, check_lists, guard, off, on, over, sets,
};
use pm_course::{CourseEnd, FrameCourse};
use pm_delivery::{Heard, Question, Verdict};
use pm_host::{Job, Untold};
use pm_sequence::{Act, End, Rules, Sequence, Step};
use pm_stairs::{StepEnd, Under, WordAct, WordStep};
use pm_table::{Cell, Reg};

#[test]
fn a_list_that_asks_tells_each_order_first(rt: HostRuntime) {
    let up = [
        sets(0, 0, 1_200_000, MUST),
        sets(1, 0, 1_100_000, MUST),
        sets(0, 1, 1_000_000, MUST),
    ];
    let down = [off(0, 0, MUST), off(1, 0, MUST), off(0, 1, MUST)];
    let rows = [
        ("up, and the last word is held", UP, up, 2),
        ("down", DOWN, down, 3),
    ];
    for (name, rules, steps, orders) in &rows {
        let asking = with! { Rules, *rules; asks: true };
        let (plain, written) = over(&rt, *rules, [PART, PART], steps);
        let (run, parts) = over(&rt, asking, [PART, PART], steps);
        compare! { &rt, name;
            (plain.orders, run.orders, run.end) => (0, *orders, Some(End::Reached)) }
        for (part, other) in parts.iter().zip(written.iter()) {
            compare! { &rt, name; (part.frames, part.writes) => (other.frames, other.writes) }
        }
    }
}

#[test]
fn another_order_than_the_one_told_is_told_first(rt: HostRuntime) {
    let asking = Rules { asks: true, ..DOWN };
    let is_off = Job::Order(Cell::Out(0, Reg::Operation), 0x00);
    #[rattlefmt::skip]
    let rows = [
        ("nothing was told", None, Act::Order(is_off), Some(is_off)),
        ("it was told", Some(is_off), Act::Job(is_off), None),
        ("another byte was", Some(Job::Order(Cell::Out(0, Reg::Operation), 0x40)),
            Act::Order(is_off), Some(is_off)),
        ("the same byte of another output was",
            Some(Job::Order(Cell::Out(1, Reg::Operation), 0x00)), Act::Order(is_off), Some(is_off)),
    ];
    for (name, told, act, then) in &rows {
        let guard = guard(&rt);
        let step = off(0, 0, MUST);
        let mut sequence = Sequence::new(60, asking);
        let mut said = Act::Again;
        for _ in 0..3usize {
            let (under, ahead) = if sequence.list.begun == 0 {
                (None, Some(step))
            } else {
                (Some(step), None)
            };
            sequence.told = *told;
            said = sequence.next(&guard, &under, &ahead);
        }
        equal(&rt, &(said, sequence.told), &(*act, *then), name);
    }
}

#[test]
fn a_step_that_stops_is_left_where_the_list_says_so(rt: HostRuntime) {
    let up = [
        sets(0, 0, 1_200_000, MUST),
        after(15, sets(1, 0, 1_100_000, MUST)),
        after(5, sets(0, 1, 1_050_000, MUST)),
    ];
    let down = [off(0, 0, MUST), after(10, off(1, 0, MUST)), off(0, 1, MUST)];
    let dead = with! { Part, PART; is_dead: true };
    let deaf = with! { Part, PART; is_deaf: true };
    let on = (0x80, 0x1000);
    let stays_on = StepEnd::Course(CourseEnd::Differs(Reg::Operation, 0x80));
    #[rattlefmt::skip]
    let rows: [ListRow; 2] = [
        ("up, and the second rail stays off", Rules { leaves: true, ..UP }, [PART, dead], up,
            End::Left(1), 2, 20, [(0x80, 0x1333), (0x80, 0x10CD), (0x80, 0x119A), on]),
        ("down, and the first output stays on", Rules { leaves: false, ..DOWN }, [deaf, PART], down,
            End::Stopped(stays_on), 0, 0, [on, on, on, on]),
    ];
    check_lists(&rt, &rows);
}

#[test]
fn a_restart_ends_a_list_that_leaves_steps(rt: HostRuntime) {
    let rules = Rules { leaves: true, ..UP };
    let restarted = StepEnd::Restarted;
    let mut sequence = Sequence::new(60, rules);
    sequence.list.stairs.restarted = true;
    let step = sets(0, 0, 1_200_000, MUST);
    compare! { &rt, "an answer showed a restart";
        sequence.next(&guard(&rt), &None, &Some(step)) => Act::Ended(End::Stopped(restarted)) }
}

#[test]
fn none_is_under_way_once_a_step_is_left(rt: HostRuntime) {
    let under = Under {
        step: WordStep {
            output: 0,
            act: WordAct::Turns(0x80),
        },
        course: FrameCourse::power(0, 0x80, 60),
    };
    for (begun, left) in [(true, 1), (false, 2)] {
        let mut list = Sequence::new(60, UP).list;
        list.begun = 1;
        list.stairs.under = Some(under);
        list.stairs.reading = !begun;
        list.skip();
        compare! { &rt, begun;
            (list.begun, list.stairs.under, list.stairs.reading) => (left, None, false) }
    }
}

// STATUS_WORD gave a good answer.
fn good(word: u16) -> Heard {
    Heard {
        asked: 1,
        fault: 0,
        word,
    }
}

// What an earlier list heard, STATUS_WORD now, the voltage that is set, how it ends, and how many frames are sent.
type BeforeRow = (&'static str, Heard, u16, i64, End, usize);

#[test]
fn faults_are_new_against_what_an_earlier_list_heard(rt: HostRuntime) {
    let is_new = End::Does(Verdict::NewFault(Question::StatusWord, 5));
    let silent = Heard {
        asked: 2,
        fault: 1,
        word: 0,
    };
    #[rattlefmt::skip]
    let rows: [BeforeRow; 7] = [
        ("no earlier list", Heard::NOTHING, 0x0020, 1_200_000, End::Reached, 24),
        ("the fault stood", good(0x0020), 0x0020, 1_200_000, End::Reached, 23),
        ("it came with the earlier list", good(0x0000), 0x0020, 1_200_000, is_new, 28),
        ("it stood, and nothing is ordered", good(0x0020), 0x0020, 1_000_000, End::Reached, 8),
        ("it came, and nothing is ordered", good(0x0000), 0x0020, 1_000_000, is_new, 13),
        ("no answer came", silent, 0x0000, 1_200_000, End::Reached, 24),
        ("no answer came, and a fault is there", silent, 0x0020, 1_200_000, is_new, 29),
    ];
    for (name, before, status, microvolts, end, frames) in &rows {
        let part = with! { Part, PART; status: Some(*status) };
        let step = with! { Step, sets(0, 0, *microvolts, MUST); before: *before };
        let (run, parts) = over(&rt, UP, [part, PART], &[step]);
        compare! { &rt, name; (run.end, parts[0].frames) => (Some(*end), *frames) }
    }
}

#[test]
fn a_step_from_another_start_looks_anew(rt: HostRuntime) {
    let part = with! { Part, PART; status: Some(0x0020) };
    let first = sets(0, 0, 1_200_000, MUST);
    let rows = [
        ("it says the same", Heard::NOTHING, End::Reached),
        (
            "it says that the fault wasn't there",
            good(0x0000),
            End::Does(Verdict::NewFault(Question::StatusWord, 5)),
        ),
    ];
    for (name, before, end) in &rows {
        let second = with! { Step, sets(0, 0, 1_100_000, MUST); before: *before };
        let (run, _) = over(&rt, UP, [part, PART], &[first, second]);
        equal(&rt, &run.end, &Some(*end), name);
    }
}

#[test]
fn requests_beside_the_jobs_read_the_output_that_is_looked_at(rt: HostRuntime) {
    let guard = guard(&rt);
    let mut sequence = Sequence::new(60, UP);
    sequence.look.delivery.output = 1;
    #[rattlefmt::skip]
    let rows = [
        (Act::Ask(Question::Before), Some([0xB0, 0x06, 0x02, 0x01, 0x79])),
        (Act::Ask(Question::OvFaultLimit), Some([0xB0, 0x06, 0x02, 0x01, 0x40])),
        (Act::Ask(Question::ReadVout), Some([0xB0, 0x06, 0x02, 0x01, 0x8B])),
        (Act::Probe, Some([0xB0, 0x06, 0x02, 0x01, 0x01])),
        (Act::Again, None),
        (Act::Order(Job::Learn(0)), None),
    ];
    for (act, bytes) in &rows {
        equal(&rt, &sequence.request(&guard, *act), bytes, act);
    }
}

#[test]
fn what_no_frame_was_sent_for_changes_nothing(rt: HostRuntime) {
    let mut guard = guard(&rt);
    let mut sequence = Sequence::new(60, DOWN);
    let step = off(0, 0, MUST);
    let before = sequence;
    compare! { &rt, "no step";
        sequence.write_ended(&mut guard, true) => Err(Untold::NothingSent);
        sequence => before;
    }
    for _ in 0..2usize {
        let _ = sequence.frame(&mut guard, None, Some(step));
    }
    let begun = sequence;
    compare! { &rt, "no job";
        sequence.write_ended(&mut guard, true) => Err(Untold::NothingSent);
        sequence => begun;
    }
    let _ = sequence.frame(&mut guard, Some(step), None);
    let sent = sequence;
    compare! { &rt;
        "a write is sent", sequence.read_ended(&mut guard, &[]) => Err(Untold::WrongKind);
        "a write is sent", sequence => sent;
        "the write ended", sequence.write_ended(&mut guard, true) => Ok(());
    }
}

#[test]
fn what_an_output_held_is_read_before_it_is_turned_off(rt: HostRuntime) {
    let going = with! { Rules, UP; ends_at_restart: false };
    let restarted = End::Stopped(StepEnd::Restarted);
    // The rules, how the list ends, how many frames it has, and what OPERATION holds then: it was 80h as the host read it, and is A8h since.
    let rows: [(Rules, End, usize, u16); 2] = [
        (UP, restarted, 1, 0xA8),
        (going, End::Reached, 3, 0x00),
    ];
    for (rules, end, frames, held) in &rows {
        let mut guards = [guard(&rt)];
        let mut parts = [PART];
        let _ = carried(
            Sequence::new(60, UP),
            &mut guards,
            &mut parts,
            &[on(0, 0, NOT)],
        );
        parts[0].words[0][0] = 0xA8;
        let before = parts[0].frames;
        let run = carried(
            Sequence::new(60, *rules),
            &mut guards,
            &mut parts,
            &[off(0, 0, NOT)],
        );
        let [part] = parts;
        compare! { &rt, frames;
            (run.end, part.frames.wrapping_sub(before), part.words[0][0]) =>
                (Some(*end), *frames, *held);
        }
    }
}
