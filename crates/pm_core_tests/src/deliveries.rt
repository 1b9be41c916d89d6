//! What a delivery asks and says, by the bits of the standard (PMBus 1.3 Part II, STATUS_WORD to STATUS_TEMPERATURE): rows written by
//! hand.

ghost use Rattle.std.specs.Prelude.{◌<◌};

use crate::checks::{equal, is_true};
use pm_delivery::Question::{
    Before, OvFaultLimit, OvWarnLimit, PowerGoodOff, PowerGoodOn, ReadVout, StatusInput,
    StatusIout, StatusTemperature, StatusVout, StatusWord, UvFaultLimit, UvWarnLimit,
};
use pm_delivery::{Delivery, Due, Question, Reading, Verdict, answers_off};
use pm_frame::{pec, pec_after};
use pm_rail::Power;

// The command code of each register that is asked, and how many bytes it has.
#[rattlefmt::skip]
static CODES: [(Question, u8, usize); 13] = [
    (Before, 0x79, 2), (OvFaultLimit, 0x40, 2), (OvWarnLimit, 0x42, 2), (UvWarnLimit, 0x43, 2),
    (UvFaultLimit, 0x44, 2), (StatusWord, 0x79, 2), (StatusVout, 0x7A, 1), (StatusIout, 0x7B, 1),
    (StatusInput, 0x7C, 1), (StatusTemperature, 0x7D, 1), (ReadVout, 0x8B, 2),
    (PowerGoodOn, 0x5E, 2), (PowerGoodOff, 0x5F, 2),
];

// A delivery of an output whose STATUS_WORD was 0000h before its order.
fn after_order() -> Delivery {
    let mut delivery = Delivery::new(0, 0, 0, 50, 1);
    delivery.look_before();
    delivery.hear(Before, Ok(0));
    delivery.look_after(false, false);
    delivery
}

// What it says with this STATUS_WORD, if READ_VOUT is right.
fn said(status: u16) -> Verdict {
    let mut delivery = after_order();
    delivery.hear(StatusWord, Ok(status));
    delivery.hear(ReadVout, Ok(0x1000));
    delivery.hear(PowerGoodOn, Ok(0));
    delivery.hear(PowerGoodOff, Ok(0));
    delivery.verdict(1, Power::On, Reading::Right)
}

// Each bit of STATUS_WORD by itself, and what the rail does then; a summary's register isn't known yet.
static WORDS: [(u16, Verdict); 17] = [
    (0x0000, Verdict::Delivers),
    (0x0001, Verdict::Delivers), // NONE OF THE ABOVE
    (0x0002, Verdict::Delivers), // CML
    (0x0004, Verdict::NotYet), // TEMPERATURE
    (0x0008, Verdict::NewFault(StatusWord, 3)), // VIN_UV_FAULT
    (0x0010, Verdict::NewFault(StatusWord, 4)), // IOUT_OC_FAULT
    (0x0020, Verdict::NewFault(StatusWord, 5)), // VOUT_OV_FAULT
    (0x0040, Verdict::IsOff), // OFF
    (0x0080, Verdict::Delivers), // BUSY
    (0x0100, Verdict::Delivers), // UNKNOWN
    (0x0200, Verdict::Delivers), // OTHER
    (0x0400, Verdict::Delivers), // FANS
    (0x0800, Verdict::PowerGoodAlone), // POWER_GOOD#
    (0x1000, Verdict::Delivers), // MFR_SPECIFIC
    (0x2000, Verdict::NotYet), // INPUT
    (0x4000, Verdict::NotYet), // IOUT/POUT
    (0x8000, Verdict::NotYet), // VOUT
];

#[test]
fn each_question_and_each_bit_of_status_word_has_its_meaning(rt: HostRuntime) {
    // Each question reads its register.
    for (question, code, size) in &CODES {
        compare! { &rt, question; (question.code().0, question.size()) => (*code, *size) }
    }
    // Each bit of STATUS_WORD decides or is told.
    for (status, verdict) in &WORDS {
        equal(&rt, &said(*status), verdict, status);
    }
}

// A bit of STATUS_WORD, the register that it points to, and the bits of that which say a fault.
static REGISTERS: [(u16, Question, u8); 4] = [
    // VOUT_OV_FAULT, VOUT_UV_FAULT, TON_MAX_FAULT
    (0x8000, StatusVout, 0b1001_0100),
    // IOUT_OC_FAULT, IOUT_OC_LV_FAULT, IOUT_UC_FAULT, current share fault, POUT_OP_FAULT
    (0x4000, StatusIout, 0b1101_1010),
    // VIN_OV_FAULT, VIN_UV_FAULT, IIN_OC_FAULT
    (0x2000, StatusInput, 0b1001_0100),
    // OT_FAULT, UT_FAULT
    (0x0004, StatusTemperature, 0b1001_0000),
];

// What it says of one bit of such a register.
fn said_of(status: u16, register: Question, bit: u8) -> Verdict
    requires { bit < 8 }
{
    let mut delivery = after_order();
    delivery.hear(StatusWord, Ok(status));
    delivery.hear(register, Ok(u16::from(1u8 << bit)));
    delivery.hear(ReadVout, Ok(0x1000));
    delivery.verdict(1, Power::On, Reading::Right)
}

#[test]
fn each_fault_of_a_status_register_decides(rt: HostRuntime) {
    for (status, register, faults) in &REGISTERS {
        for bit in 0..8u8 {
            let wanted = if (*faults >> bit) % 2 == 1 {
                Verdict::NewFault(*register, bit)
            } else {
                Verdict::Delivers
            };
            compare! { &rt, (register, bit); said_of(*status, *register, bit) => wanted }
        }
    }
}

#[test]
fn a_fault_that_stood_before_decides_nothing(rt: HostRuntime) {
    let mut delivery = Delivery::new(0, 0, 0, 50, 1);
    delivery.look_before();
    delivery.hear(Before, Ok(0x8020));
    delivery.look_after(false, false);
    delivery.hear(StatusWord, Ok(0x8020));
    delivery.hear(ReadVout, Ok(0x1000));
    let verdict = delivery.verdict(1, Power::On, Reading::Right);
    equal(&rt, &verdict, &Verdict::Delivers, &1);
    is_true(&rt, !delivery.is_new(5), &2);
}

#[test]
fn a_fault_of_which_nobody_knows_since_when_decides(rt: HostRuntime) {
    let mut delivery = Delivery::new(0, 0, 0, 50, 1);
    delivery.look_before();
    delivery.hear(Before, Err(0x35));
    delivery.look_after(false, false);
    delivery.hear(StatusWord, Ok(0x0020));
    let verdict = delivery.verdict(1, Power::On, Reading::NotKnown);
    compare! { &rt, 1; verdict => Verdict::NewFault(StatusWord, 5) }
}

// What is looked at, STATUS_WORD after 0000h before the first order, how READ_VOUT stands, which of three rounds it is, what is due then, and
// what the rail does if that is nothing.
type RoundRow = (&'static str, bool, u16, Reading, usize, Option<Verdict>);

#[test]
fn a_rail_fails_at_once_by_two_things_alone(rt: HostRuntime) {
    let fault = Verdict::NewFault(StatusWord, 5);
    #[rattlefmt::skip]
    let rows: [RoundRow; 12] = [
        ("above", false, 0x0000, Reading::Above, 0, Some(Verdict::OutsideLimits)),
        ("above, once it was lowered", true, 0x0000, Reading::Above, 0, None),
        ("above still, once it was lowered", true, 0x0000, Reading::Above, 2,
            Some(Verdict::OutsideLimits)),
        ("above, with a new fault", false, 0x0020, Reading::Above, 0, Some(fault)),
        ("below", false, 0x0000, Reading::Outside, 0, None),
        ("far away", false, 0x0000, Reading::Beyond, 0, None),
        ("a new fault", false, 0x0020, Reading::Right, 0, None),
        ("a new fault still", false, 0x0020, Reading::Right, 2, Some(fault)),
        ("off with a new fault", false, 0x0060, Reading::NotKnown, 0, Some(Verdict::IsOff)),
        ("off with a new fault, lowered", true, 0x0060, Reading::NotKnown, 0, Some(Verdict::IsOff)),
        ("off", false, 0x0840, Reading::NotKnown, 0, None),
        ("off still", false, 0x0840, Reading::NotKnown, 2, Some(Verdict::IsOff)),
    ];
    for (name, lowers, status, reading, round, end) in &rows {
        let mut delivery = Delivery::new(0, 0, 0, 50, 3);
        delivery.look_before();
        delivery.hear(Before, Ok(0));
        delivery.look_after(false, *lowers);
        for _ in 0..*round {
            delivery.begin_again();
        }
        delivery.hear(StatusWord, Ok(*status));
        delivery.hear(ReadVout, Ok(0x1000));
        let due = match end {
            Some(_) => Due::Nothing,
            None => Due::Again,
        };
        equal(&rt, &delivery.due(1, Power::On, *reading), &due, name);
        let said = end.unwrap_or(Verdict::NotYet);
        equal(&rt, &delivery.verdict(1, Power::On, *reading), &said, name);
        let is_unexplained = *status == 0x0840;
        equal(&rt, &delivery.is_unexplained(), &is_unexplained, name);
        delivery.look_after(true, *lowers);
        is_true(&rt, !delivery.is_unexplained(), name);
    }
}

// The bytes that came back for a read of OPERATION of output 1 of the part at 58h, the PEC by hand, and whether they leave the output off.
#[test]
fn a_good_answer_alone_says_off(rt: HostRuntime) {
    let rows: [(&'static str, [u8; 4], bool); 5] = [
        ("00", [0xB1, 0x01, 0x00, 0x00], true),
        ("40", [0xB1, 0x01, 0x40, 0x00], true),
        ("80", [0xB1, 0x01, 0x80, 0x00], false),
        ("a wrong PEC", [0xB1, 0x01, 0x00, 0x01], false),
        ("another count", [0xB1, 0x02, 0x00, 0x00], false),
    ];
    let sent = pec(&[0xB0, 0x06, 0x02, 0x01, 0x01]);
    for (name, bytes, off) in &rows {
        let mut bytes = *bytes;
        bytes[3] ^= pec_after(sent, &bytes[..3]);
        equal(&rt, &answers_off(0x58, 1, &bytes), off, name);
        is_true(&rt, !answers_off(0x58, 0, &bytes), name);
    }
    is_true(&rt, !answers_off(0x58, 1, &[]), &"no answer");
}

#[test]
fn nothing_is_asked_before_an_order_twice(rt: HostRuntime) {
    let mut delivery = Delivery::new(0, 0, 0, 50, 1);
    delivery.look_before();
    for question in [Before, OvFaultLimit, OvWarnLimit, UvWarnLimit, UvFaultLimit] {
        let due = delivery.due(2, Power::On, Reading::NotKnown);
        equal(&rt, &due, &Due::Ask(question), &question);
        delivery.hear(question, Ok(0x1000));
    }
    let due = delivery.due(2, Power::On, Reading::NotKnown);
    equal(&rt, &due, &Due::Nothing, &1);
}

// What a part lacks, by the bits of the caller and of what was found, and what is asked first after an order, and what is said then by a reading
// that is right.
static LACKING: [(u8, Due, Verdict); 7] = [
    (0, Due::Ask(StatusWord), Verdict::NotYet),
    (2, Due::Ask(StatusWord), Verdict::NotYet), // READ_VOUT, says the caller
    (8, Due::Ask(StatusWord), Verdict::NotYet), // READ_VOUT, as was found
    (1, Due::Ask(ReadVout), Verdict::DeliversByVoltage), // STATUS_WORD, says the caller
    (4, Due::Ask(ReadVout), Verdict::DeliversByVoltage), // STATUS_WORD, as was found
    (3, Due::Nothing, Verdict::NotKnown(StatusWord, 0)), // both, says the caller
    (12, Due::Nothing, Verdict::NotKnown(StatusWord, 0)), // both, as was found
];

// A delivery after an order, of a part that lacks this.
fn lacking(lacks: u8) -> Delivery {
    let mut delivery = Delivery::new(0, 0, lacks, 50, 3);
    delivery.look_after(false, false);
    delivery
}

#[test]
fn a_part_without_status_word_is_judged_by_read_vout_alone(rt: HostRuntime) {
    for (lacks, first, verdict) in &LACKING {
        let mut delivery = lacking(*lacks);
        let due = delivery.due(2, Power::On, Reading::NotKnown);
        equal(&rt, &due, first, lacks);
        if *first == Due::Ask(ReadVout) {
            delivery.hear(ReadVout, Ok(0x1000));
        }
        let said = delivery.verdict(2, Power::On, Reading::Right);
        equal(&rt, &said, verdict, lacks);
    }
}

#[test]
fn a_reading_alone_decides_or_is_asked_again(rt: HostRuntime) {
    for (reading, verdict) in [
        (Reading::Outside, Verdict::OutsideLimits),
        (Reading::Beyond, Verdict::Beyond),
        (Reading::NotKnown, Verdict::NotKnown(ReadVout, 0)),
    ] {
        let mut delivery = lacking(4);
        delivery.hear(ReadVout, Ok(0x1000));
        let due = delivery.due(1, Power::On, reading);
        equal(&rt, &due, &Due::Again, &reading);
        delivery.begin_again();
        delivery.begin_again();
        delivery.hear(ReadVout, Ok(0x1000));
        let said = delivery.verdict(1, Power::On, reading);
        equal(&rt, &said, &verdict, &reading);
        let said = delivery.verdict(1, Power::Off, reading);
        equal(&rt, &said, &Verdict::CommandedOff, &reading);
    }
}

#[test]
fn an_output_that_was_turned_off_isn_t_known_to_be_off_without_status_word(rt: HostRuntime) {
    for lacks in [1, 4] {
        let mut delivery = lacking(lacks);
        delivery.look_after(true, false);
        let due = delivery.due(2, Power::Off, Reading::NotKnown);
        equal(&rt, &due, &Due::Nothing, &lacks);
        let said = delivery.verdict(2, Power::Off, Reading::NotKnown);
        let wanted = Verdict::NotKnown(StatusWord, 0);
        equal(&rt, &said, &wanted, &lacks);
    }
}
