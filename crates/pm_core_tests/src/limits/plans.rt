//! Plans, and why one is refused, by rows written by hand.

use super::guards::{first, give_up, guard, tell};
use super::rails::{Held, Wishes, begun, each, knowing, next_of, wanted};
use crate::checks::equal;
use pm_frame::Message;
use pm_host::{Told, Turn};
use pm_limits::Guard;
use pm_rail::PlanFault::{
    AboveLimit, AboveMax, BelowLimit, BelowMin, Busy, FormatUnknown, NoLimits, NotKnown, Protected,
};
use pm_rail::{PlanFault, PlanOrder};
use pm_table::Reg::{MarginHigh, MarginLow, Operation, VoutCommand, VoutMax, VoutMin};
use pm_table::{Cell, Reg};

// The orders of a plan in their order, from the words that are held to those that are wanted.
#[rattlefmt::skip]
static PLANS: [(bool, [u16; 6], Wishes, &[(Reg, u16)]); 10] = [
    // 1 V in 0.5 V to 1.5 V, to 2 V in 1.5 V to 2.5 V
    (false, [0x80, 4096, 6144, 0, 0, 2048], [Some(8192), Some(10240), None, None, Some(6144)],
        &[(VoutMax, 10240), (VoutCommand, 8192), (VoutMin, 6144)]),
    // 2 V in 1.5 V to 2.5 V, to 1 V in 0.5 V to 1.5 V
    (false, [0x80, 8192, 10240, 0, 0, 6144], [Some(4096), Some(6144), None, None, Some(2048)],
        &[(VoutMin, 2048), (VoutCommand, 4096), (VoutMax, 6144)]),
    // 3 V cut to VOUT_MAX of 1 V: to raise VOUT_MAX first would command 3 V
    (false, [0x80, 12288, 4096, 0, 0, 0], [Some(8192), Some(12288), None, None, None],
        &[(VoutCommand, 8192), (VoutMax, 12288)]),
    // 1 V cut to VOUT_MIN of 2 V
    (false, [0x80, 4096, 16384, 0, 0, 8192], [Some(6144), None, None, None, Some(2048)],
        &[(VoutCommand, 6144), (VoutMin, 2048)]),
    // VOUT_MIN of 3 V above VOUT_MAX of 1 V
    (false, [0x80, 2048, 4096, 0, 0, 12288], [Some(10240), Some(16384), None, None, Some(2048)],
        &[(VoutCommand, 10240), (VoutMin, 2048), (VoutMax, 16384)]),
    // on margin high
    (false, [0xA8, 4096, 5325, 4915, 3277, 2048], [None, Some(6144), Some(5734), None, None],
        &[(VoutMax, 6144), (MarginHigh, 5734)]),
    // on margin low, cut by VOUT_MIN: VOUT_COMMAND by itself wouldn't be
    (false, [0x94, 4096, 6144, 4915, 1024, 2048], [None, None, None, Some(1536), Some(1024)],
        &[(MarginLow, 1536), (VoutMin, 1024)]),
    // off
    (false, [0x00, 4096, 6144, 0, 0, 2048], [Some(8192), Some(10240), None, None, None],
        &[(VoutMax, 10240), (VoutCommand, 8192)]),
    // words of -1/2000 V: 1 V below 1.5 V, to 2 V below 2.5 V
    (true, [0x80, 63536, 62536, 0, 0, 0], [Some(61536), Some(60536), None, None, None],
        &[(VoutMax, 60536), (VoutCommand, 61536)]),
    // all is as it is wanted
    (false, [0x80, 4096, 6144, 0, 0, 2048], [Some(4096), Some(6144), None, None, Some(2048)], &[]),
];

// Carries out an order of the first output that has begun.
fn carry_out(guard: &mut Guard, order: PlanOrder) {
    if let Turn::Write(_) = guard.turn() {
        guard.told(Told::Finished { acked: true });
    }
    let request = Message::PagePlusRead {
        page: 0,
        code: first(order.register).code().0,
    };
    tell(guard, &request, &order.word.to_le_bytes());
}

#[test]
fn a_plan_gives_one_order_after_another(rt: HostRuntime) {
    for (falling, held, wishes, orders) in &PLANS {
        let mut guard = knowing(0, *falling, &each(held), Some(0x00));
        let wanted = wanted(wishes);
        for (register, word) in *orders {
            let order = PlanOrder {
                register: *register,
                word: *word,
            };
            let next = begun(&rt, &mut guard, 0, &wanted);
            equal(&rt, &next, &Ok(Some(order)), &(held, wishes));
            carry_out(&mut guard, order);
        }
        let next = begun(&rt, &mut guard, 0, &wanted);
        equal(&rt, &next, &Ok(None), &(held, wishes));
    }
}

// What is read of the first output, OPERATION to VOUT_MIN, and of WRITE_PROTECT; what is wanted of it; and why no order
// is given, if so. Its limits are 0.4 V and 4 V.
#[rattlefmt::skip]
static REFUSALS: [(Held, Option<u8>, Wishes, Option<PlanFault>); 22] = [
    // the wish by itself is judged first, and below before above
    ([None; 6], None, [Some(20000), None, None, None, None], Some(AboveLimit(VoutCommand))),
    ([None; 6], None, [None, Some(16385), Some(16385), None, None], Some(AboveLimit(VoutMax))),
    ([None; 6], None, [Some(20000), None, None, None, Some(1638)], Some(BelowLimit(VoutMin))),
    ([None; 6], None, [None, None, Some(1638), Some(0), None], Some(BelowLimit(MarginHigh))),
    // what isn't known, in the order of the registers
    ([None; 6], None, [Some(16384), None, None, None, None],
        Some(NotKnown(Cell::Out(0, Operation)))),
    ([Some(0xA0), Some(4096), Some(6144), Some(0), Some(0), Some(2048)], Some(0x00),
        [Some(8192), None, None, None, None], Some(NotKnown(Cell::Out(0, Operation)))),
    ([Some(0x80), None, None, None, None, None], None, [None; 5],
        Some(NotKnown(Cell::Out(0, VoutCommand)))),
    ([Some(0xA8), None, None, None, None, None], None, [None; 5],
        Some(NotKnown(Cell::Out(0, VoutMax)))),
    ([Some(0xA8), None, Some(6144), None, None, None], None, [None; 5],
        Some(NotKnown(Cell::Out(0, MarginHigh)))),
    ([Some(0x80), Some(4096), Some(6144), None, None, None], None,
        [None, None, None, Some(2048), None], Some(NotKnown(Cell::Out(0, MarginLow)))),
    ([Some(0x80), Some(4096), Some(6144), None, None, None], None, [None; 5],
        Some(NotKnown(Cell::Out(0, VoutMin)))),
    // WRITE_PROTECT if an order is due, before what is cut at the end
    ([Some(0x80), Some(4096), Some(6144), None, None, Some(2048)], None,
        [Some(8192), None, None, None, None], Some(NotKnown(Cell::Protect))),
    ([Some(0x80), Some(4096), Some(6144), None, None, Some(2048)], None,
        [Some(4096), None, None, None, None], None),
    // a wanted word, and the selected one, against the bounds as they will be; below before above
    ([Some(0x80), Some(4096), Some(6144), None, None, Some(2048)], Some(0x00),
        [Some(1900), None, None, None, None], Some(BelowMin(VoutCommand))),
    ([Some(0x80), Some(4096), Some(6144), Some(0), None, Some(2048)], Some(0x40),
        [Some(8192), None, Some(1900), None, None], Some(BelowMin(MarginHigh))),
    ([Some(0x80), Some(4096), Some(6144), None, None, Some(2048)], Some(0x40),
        [Some(8192), None, None, None, None], Some(AboveMax(VoutCommand))),
    ([Some(0x80), Some(4096), Some(6144), None, None, Some(2048)], Some(0x00),
        [None, Some(2048), None, None, None], Some(AboveMax(VoutCommand))),
    ([Some(0x80), Some(4096), Some(6144), None, None, Some(2048)], Some(0x00),
        [None, None, None, None, Some(8192)], Some(BelowMin(VoutCommand))),
    // a margin that is neither wanted nor selected may be cut
    ([Some(0x80), Some(4096), Some(6144), Some(9999), Some(1), Some(2048)], Some(0x00),
        [Some(4096), None, None, None, None], None),
    // each order still to come has to be allowed: VOUT_COMMAND is at 20h, VOUT_MAX isn't
    ([Some(0x80), Some(8192), Some(10240), None, None, Some(2048)], Some(0x20),
        [Some(4096), Some(6144), None, None, None], Some(Protected(VoutMax))),
    ([Some(0x80), Some(8192), Some(10240), None, None, Some(2048)], Some(0x40),
        [Some(4096), Some(6144), None, None, None], Some(Protected(VoutCommand))),
    ([Some(0x80), Some(8192), Some(10240), None, None, Some(2048)], Some(0x80),
        [Some(8192), Some(10240), None, None, None], None),
];

#[test]
fn a_plan_is_refused_for_what_comes_first(rt: HostRuntime) {
    let rows = REFUSALS;
    for (held, protect, wishes, fault) in &rows {
        let guard = knowing(400_000, false, held, *protect);
        let found = next_of(&rt, &guard, 0, &wanted(wishes)).err();
        equal(&rt, &found, fault, &(held, wishes));
    }
    let mut blank = guard(0, 1);
    let wishes = wanted(&[Some(0xFFFF), None, None, None, None]);
    let unlearned = Some(FormatUnknown);
    equal(&rt, &next_of(&rt, &blank, 0, &wishes).err(), &unlearned, &1);
    let _ = blank.learn(0);
    let busy = Some(Busy);
    equal(&rt, &next_of(&rt, &blank, 0, &wishes).err(), &busy, &2);
    equal(&rt, &begun(&rt, &mut blank, 0, &wishes).err(), &busy, &3);
    give_up(&mut blank);
    equal(&rt, &next_of(&rt, &blank, 0, &wishes).err(), &unlearned, &4);
}

// Each fault as programs print it, its number and the code of its register.
#[rattlefmt::skip]
static LETTERS: [(PlanFault, &str, u8, Option<u8>); 9] = [
    (Busy, "H3 Busy", 3, None),
    (FormatUnknown, "P1 FormatUnknown", 0x61, None),
    (NoLimits(VoutMin), "L8 NoLimits", 0x28, Some(0x2B)),
    (BelowLimit(VoutMax), "L3 BelowLimit", 0x23, Some(0x24)),
    (AboveLimit(VoutCommand), "L4 AboveLimit", 0x24, Some(0x21)),
    (NotKnown(Cell::Protect), "P4 NotKnown", 0x64, Some(0x10)),
    (BelowMin(MarginHigh), "P5 BelowMin", 0x65, Some(0x25)),
    (AboveMax(MarginLow), "P6 AboveMax", 0x66, Some(0x26)),
    (Protected(VoutMin), "P7 Protected", 0x67, Some(0x2B)),
];

#[test]
fn faults_have_letters_numbers_and_registers(rt: HostRuntime) {
    for (fault, words, number, code) in &LETTERS {
        equal(&rt, &fault.words(), words, fault);
        equal(&rt, &fault.number(), number, fault);
        equal(&rt, &fault.code().map(|code| code.0), code, fault);
    }
}
