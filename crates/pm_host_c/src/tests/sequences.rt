//! Sequences: what memory is refused, and what one hands out.

use super::calls::{NOTHING, got, host, learn, no_host};
use super::checks::equal;
use crate::sequence::{
    pm_sequence_judge, pm_sequence_new, pm_sequence_next, pm_sequence_read_ended, pm_sequence_size,
    pm_sequence_version, pm_sequence_write_ended,
};
use pm_delivery::{Delivery, Heard, Question, Verdict};
use pm_memory::judgement::JudgementImage;
use pm_memory::placed::PlacedImage;
use pm_memory::sequence_step::{SequenceRecordImage, SequenceStepImage};
use pm_memory::{
    DeliveryImage, GuardImage, SaidImage, SendingImage, SequenceImage, VerdictNumbers,
};
use pm_sequence::{Rules, Sequence};
use pm_stairs::{WordAct, WordStep};
use std::mem::size_of;

// A sequence of which no step has begun.
fn begun(tries: u16, rules: u8) -> SequenceImage {
    let mut image = SequenceImage::of(
        &Sequence::new(
            0,
            Rules {
                keeps_back: false,
                ends_at_restart: false,
                leaves: false,
                asks: false,
            },
        ),
        SaidImage::NOTHING,
    );
    image.mark = 0;
    pm_sequence_new(&mut image, tries, rules);
    image
}

// A step of a byte, which is looked at so.
fn turns(place: u8, output: u8, byte: u16, looks: u8) -> SequenceStepImage {
    let act = WordAct::Turns(byte);
    SequenceStepImage {
        placed: PlacedImage::of(place, &WordStep { output, act }),
        looks,
        fault_limits: 0,
        lacks: 0,
        tells_power_good: 0,
        within: 50,
        rounds: 1,
        wait: 0,
        before: Heard::NOTHING,
    }
}

fn record() -> SequenceRecordImage {
    SequenceRecordImage {
        back: turns(0, 0, 0, 0),
        look: DeliveryImage::of(Delivery::new(7, 0, 0, 0, 0)),
        unused: [0; 2],
    }
}

// What the sequence hands out: the number, the frame's kind, and the place of the host; asked at most four times.
fn next(
    sequence: &mut SequenceImage,
    host: &mut GuardImage,
    steps: &[SequenceStepImage],
    records: &mut [SequenceRecordImage],
) -> (u8, u8, u8) {
    let mut sending: SendingImage = NOTHING;
    let mut number = 0x96;
    for _ in 0..4 {
        if number == 0x96 {
            number = pm_sequence_next(sequence, host, steps, records, &mut sending);
        }
    }
    (number, sending.kind, sequence.list.host)
}

#[test]
fn sequences_have_their_sizes(rt: HostRuntime) {
    equal(&rt, &pm_sequence_size(), &376, &1);
    equal(&rt, &pm_sequence_version(), &1, &2);
    equal(&rt, &size_of::<SequenceStepImage>(), &64, &3);
    equal(&rt, &size_of::<SequenceRecordImage>(), &132, &4);
    equal(&rt, &size_of::<SaidImage>(), &24, &5);
}

#[test]
fn a_way_down_orders_first_and_looks_last(rt: HostRuntime) {
    let mut image = host(1);
    let steps = [turns(0, 1, 0, 1)];
    let mut records = [record()];
    let mut sequence = begun(4, 0);
    let sent = next(&mut sequence, &mut image, &steps, &mut records);
    equal(&rt, &sent, &(0, 1, 0), &1);
    let step = pm_sequence_write_ended(&mut sequence, &mut image, 1);
    equal(&rt, &(step.kind, step.word), &(0, 0), &2);
    let sent = next(&mut sequence, &mut image, &steps, &mut records);
    equal(&rt, &sent, &(0, 2, 0), &3);
    let step = pm_sequence_write_ended(&mut sequence, &mut image, 1);
    equal(&rt, &(step.kind, step.word), &(0xE2, 0), &4);
    let step = pm_sequence_read_ended(&mut sequence, &mut image, &[]);
    equal(&rt, &(step.kind, step.word), &(3, 0), &5);
    equal(&rt, &records[0].look.delivery.output, &7, &6);
}

#[test]
fn memory_without_a_sequence_is_refused(rt: HostRuntime) {
    let mut image = host(1);
    let mut none = no_host();
    let steps = [turns(0, 1, 0, 1)];
    let mut records = [record()];
    let mut sequence = begun(4, 3);
    let said = next(&mut sequence, &mut none, &steps, &mut records);
    equal(&rt, &said, &(0xE0, 0, 0), &1);
    let step = pm_sequence_read_ended(&mut sequence, &mut none, &[]);
    equal(&rt, &(step.kind, step.word), &(0xE0, 0), &2);
    let said = next(&mut sequence, &mut image, &steps, &mut []);
    equal(&rt, &said, &(0xEA, 0, 0), &3);
    let wrong = [turns(8, 1, 0, 1)];
    let said = next(&mut sequence, &mut image, &wrong, &mut records);
    equal(&rt, &said, &(0xEF, 0, 0), &4);
    let wrong = [turns(0, 8, 0, 1)];
    let said = next(&mut sequence, &mut image, &wrong, &mut records);
    equal(&rt, &said, &(0x04, 0, 0), &5);
    let wrong = [turns(0, 1, 0, 3)];
    let said = next(&mut sequence, &mut image, &wrong, &mut records);
    equal(&rt, &said, &(0xEF, 0, 0), &6);
    sequence.version = 2;
    let said = next(&mut sequence, &mut image, &steps, &mut records);
    equal(&rt, &said, &(0xF0, 0, 0), &7);
    let step = pm_sequence_write_ended(&mut sequence, &mut image, 1);
    equal(&rt, &(step.kind, step.word), &(0xF0, 0), &8);
}

// A good answer with this word.
fn good(word: u16) -> Heard {
    Heard {
        asked: 1,
        fault: 0,
        word,
    }
}

// What is judged of a word: the number, both limits, and their words.
fn judged(record: &SequenceRecordImage, host: &GuardImage, word: u16) -> (u8, u8, u8, u16, u16) {
    let mut judgement = JudgementImage {
        fault: 9,
        warning: 9,
        fault_word: 9,
        warning_word: 9,
    };
    let number = pm_sequence_judge(record, host, word, &mut judgement);
    (
        number,
        judgement.fault,
        judgement.warning,
        judgement.fault_word,
        judgement.warning_word,
    )
}

#[test]
fn a_word_is_judged_by_the_limits_that_were_heard(rt: HostRuntime) {
    let mut image = host(1);
    let mut heard = record();
    equal(&rt, &judged(&heard, &no_host(), 0), &(0xE0, 9, 9, 9, 9), &1);
    equal(&rt, &judged(&heard, &image, 0), &(0x04, 9, 9, 9, 9), &2);
    heard.look = DeliveryImage::of(Delivery::new(0, 0, 0, 0, 0));
    equal(
        &rt,
        &judged(&heard, &image, 0x1800),
        &(0x07, 9, 9, 9, 9),
        &3,
    );
    let _ = learn(&mut image, 0);
    let _ = got(&mut image, &[0xB1, 0x01, 0x14, 0x4E]);
    heard.look.delivery.ov_fault_limit = good(0x1700);
    heard.look.delivery.ov_warn_limit = good(0x1600);
    let both = (0x68, 0x40, 0x42, 0x1700, 0x1600);
    equal(&rt, &judged(&heard, &image, 0x1800), &both, &4);
    heard.look.mark = 0;
    equal(
        &rt,
        &judged(&heard, &image, 0x1800),
        &(0xEC, 9, 9, 9, 9),
        &5,
    );
}

// What a rail does, the number of that, the command code of the register that says it, the bit of a fault, and what was wrong with an answer.
static VERDICTS: [(Verdict, u8, u8, u8, u8); 14] = [
    (Verdict::NotYet, 0, 0, 0, 0),
    (Verdict::Delivers, 1, 0, 0, 0),
    (Verdict::CommandedOff, 2, 0, 0, 0),
    (Verdict::NotKnownOn, 3, 0, 0, 0),
    (Verdict::IsOff, 4, 0x79, 0, 0),
    (Verdict::NewFault(Question::StatusVout, 7), 5, 0x7A, 7, 0),
    (Verdict::OutsideLimits, 6, 0x8B, 0, 0),
    (Verdict::Beyond, 7, 0x8B, 0, 0),
    (Verdict::PowerGoodAlone, 8, 0x79, 0, 0),
    (Verdict::NoPowerGood, 9, 0x79, 0, 0),
    (
        Verdict::NotKnown(Question::StatusIout, 0x35),
        10,
        0x7B,
        0,
        0x35,
    ),
    (Verdict::WentOff, 11, 0, 0, 0),
    (Verdict::StillOn, 12, 0x79, 0, 0),
    (Verdict::DeliversByVoltage, 14, 0, 0, 0),
];

#[test]
fn verdicts_have_their_numbers(rt: HostRuntime) {
    for &(verdict, kind, code, bit, fault) in &VERDICTS {
        let is = VerdictNumbers::of(verdict);
        equal(
            &rt,
            &(is.kind, is.code, is.bit, is.fault),
            &(kind, code, bit, fault),
            &kind,
        );
    }
}

#[test]
fn a_reading_is_told_in_microvolts(rt: HostRuntime) {
    let mut image = host(1);
    let _ = learn(&mut image, 0);
    let _ = got(&mut image, &[0xB1, 0x01, 0x14, 0x4E]);
    let mut sequence = begun(4, 4);
    sequence.list.begun = 1;
    sequence.phase = 2;
    sequence.look.delivery = Delivery::new(0, 2, 0, 50, 1);
    sequence.look.delivery.look_after(false, false);
    sequence.look.delivery.read_vout = good(0x1800);
    let steps = [turns(0, 0, 0x80, 1)];
    let said = next(&mut sequence, &mut image, &steps, &mut []);
    equal(&rt, &said, &(0x9A, 0, 0), &1);
    let said = sequence.said;
    equal(
        &rt,
        &(said.has_microvolts, said.microvolts),
        &(1, 1_500_000),
        &2,
    );
}

#[test]
fn a_step_that_is_spent_is_named(rt: HostRuntime) {
    let mut image = host(1);
    let steps = [turns(0, 1, 0, 0), turns(0, 0, 0, 0)];
    let mut sequence = begun(1, 0);
    let sent = next(&mut sequence, &mut image, &steps, &mut []);
    equal(&rt, &sent, &(0, 1, 0), &1);
    let step = pm_sequence_write_ended(&mut sequence, &mut image, 1);
    equal(&rt, &(step.kind, step.word), &(0, 0), &2);
    let sent = next(&mut sequence, &mut image, &steps, &mut []);
    equal(&rt, &sent, &(0, 2, 0), &3);
    let step = pm_sequence_read_ended(&mut sequence, &mut image, &[]);
    equal(&rt, &(step.kind, step.word), &(3, 0), &4);
    let sent = next(&mut sequence, &mut image, &steps, &mut []);
    equal(&rt, &sent, &(0x95, 0, 0), &5);
    let said = sequence.said;
    equal(&rt, &(said.kind, said.code, said.step), &(4, 0x01, 0), &6);
    equal(&rt, &sequence.list.begun, &1, &7);
}

#[test]
fn a_list_that_keeps_a_way_back_reads_before_it_turns(rt: HostRuntime) {
    let mut image = host(1);
    let steps = [turns(0, 1, 0, 0)];
    let mut records = [record()];
    let mut sequence = begun(4, 1);
    let sent = next(&mut sequence, &mut image, &steps, &mut records);
    equal(&rt, &sent, &(0, 2, 0), &1);
    equal(&rt, &sequence.list.begun, &0, &2);
}
