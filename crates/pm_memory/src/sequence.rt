//! A sequence over hosts in a caller's memory: a list of steps is carried out, and what its rails do is looked at.

ghost use Rattle.std.specs.Prelude.{◌≡◌, length, IfSome, None, Ok, Some};
ghost use Rattle.std.specs.Result.{result_err, IfErr, IfOk, OnOk};
ghost use Rattle.pm_host.specs.Told.{entry_told};
ghost use Rattle.pm_sequence.specs.Frames.{heard_in};
ghost use Rattle.pm_memory.specs.Sequence.{asked_fault, back_said as spec_back_said, backs_after, both_fault, is_look as spec_is_look, is_look_said as spec_is_look_said, lacks_room as spec_lacks_room, list_fault as spec_list_fault, looks_after, number_next as spec_number_next, records_after, rules_said, sequence_begun, step_at as spec_step_at, step_under as spec_step_under, steps_fault as spec_steps_fault, whole_answer_size as spec_whole_answer, with_back, records_with_look, AreBoth, HearsIn, IsPutNext, NextIn, ReadIn};
ghost use Rattle.pm_memory.specs.Guard.{guard_of};
ghost use Rattle.pm_memory.specs.Hosted.{IsThere, guard_in};
ghost use Rattle.pm_memory.specs.SequenceImage.{sequence_image, sequence_in, sequence_meant};

use crate::host_step::{HostStep, no_step, step_after};
use crate::numbers::{ACCEPTED, NO_HOST, NO_ROOM, NO_SEQUENCE, NO_STEP, OTHER_FRAME};
use crate::sequence_said::{number_said, rail_said, said_after, step_said};
use crate::sequence_step::{SequenceRecordImage, SequenceStepImage};
use crate::{DeliveryImage, GuardImage, SaidImage, SendingImage, SequenceImage};
use pm_host::{Stage, Told};
use pm_sequence::{Act, End, Rules, Sequence, Step};
use pm_stairs::WordStep;

// How many steps a list has at most.
const MOST_STEPS: usize = 65535;

// The rules that a number says: 1 a way back is kept, 2 a restart ends the list, 4 a step that stops is left, 8 each order is told before it
// begins, or a sum.
fn rules_of(rules: u8) -> Rules
    ensures { result ≡ rules_said rules }
{
    Rules {
        keeps_back: rules % 2 == 1,
        ends_at_restart: rules / 2 % 2 == 1,
        leaves: rules / 4 % 2 == 1,
        asks: rules / 8 % 2 == 1,
    }
}

/// A sequence of which no step has begun, by the rules that a number says.
pub fn begun(tries: u16, rules: u8) -> SequenceImage
    ensures { result ≡ sequence_begun tries rules }
{
    SequenceImage::of(&Sequence::new(tries, rules_of(rules)), SaidImage::NOTHING)
}

// The number of what is wrong with the step at a place of a list.
fn fault_at(steps: &[SequenceStepImage], place: u16) -> Option<u8>
    ensures { result ≡ result_err (spec_step_at steps.now place) }
{
    match steps.get(usize::from(place)) {
        Some(image) => image.fault(),
        None => None,
    }
}

// That of the newest of so many steps that have begun, or of the first one ahead.
fn steps_fault(steps: &[SequenceStepImage], begun: u16) -> Option<u8>
    ensures { result ≡ spec_steps_fault steps.now begun }
{
    if 0 < begun {
        if let Some(number) = fault_at(steps, begun - 1) {
            return Some(number);
        }
    }
    fault_at(steps, begun)
}

// The step at a place of a list, none after its end.
fn put_step(steps: &[SequenceStepImage], place: u16, step: &mut Option<Step>)
    requires right { result_err (spec_step_at steps.now place) ≡ None }
    requires none { step.old ≡ None }
    ensures { spec_step_at steps.now place ≡ Ok step.new }
{
    if let Some(image) = steps.get(usize::from(place)) {
        *step = Some(image.step());
    }
}

// The newest of so many steps that have begun.
fn put_under(steps: &[SequenceStepImage], begun: u16, step: &mut Option<Step>)
    requires right { result_err (spec_step_under steps.now begun) ≡ None }
    requires none { step.old ≡ None }
    ensures { spec_step_under steps.now begun ≡ Ok step.new }
{
    if 0 < begun {
        put_step(steps, begun - 1, step);
    }
}

// Whether a way back is kept.
fn keeps_back(sequence: &SequenceImage) -> bool
    ensures { result ≡ (sequence_meant sequence.now).list.keeps_back }
{
    sequence.list.keeps_back == 1
}

// Whether there is less room than there are steps, if a way back is kept.
fn lacks_room(sequence: &SequenceImage, steps: usize, room: usize) -> bool
    ensures { result ≡ spec_lacks_room (sequence_meant sequence.now) steps room }
{
    keeps_back(sequence) && room < steps
}

// Why a list of so many steps is refused.
fn list_fault(sequence: &SequenceImage, steps: usize, room: usize) -> Option<u8>
    ensures { result ≡ spec_list_fault (sequence_meant sequence.now) steps room }
{
    if MOST_STEPS < steps {
        return Some(NO_STEP);
    }
    if lacks_room(sequence, steps, room) {
        return Some(NO_ROOM);
    }
    None
}

// The stage of the host's open job; or the number of why the memories of both are refused.
fn read_both(sequence: &SequenceImage, host: &GuardImage) -> Result<Option<Stage>, u8>
    ensures fault { result_err result ≡ both_fault (guard_of host.now) (sequence_in sequence.now) }
    ensures there { OnOk result (IsThere host.now) }
    ensures stage { IfOk result (λ stage. stage ≡ (guard_in host.now).host.stage) }
    ensures both { OnOk result (AreBoth host.now sequence.now (guard_in host.now) (sequence_meant sequence.now)) }
{
    let Ok(stage) = host.open_stage() else {
        return Err(NO_HOST);
    };
    if sequence.is_sequence() {
        Ok(stage)
    } else {
        Err(NO_SEQUENCE)
    }
}

// The stage of the host's open job; or the number of why the memories, the length of the list or the room are refused.
fn read(
    sequence: &SequenceImage,
    host: &GuardImage,
    steps: &[SequenceStepImage],
    room: usize,
) -> Result<Option<Stage>, u8>
    ensures fault { IfErr result (λ number. asked_fault (guard_of host.now) (sequence_in sequence.now) steps.now room ≡ Some number) }
    ensures there { OnOk result (IsThere host.now) }
    ensures stage { IfOk result (λ stage. stage ≡ (guard_in host.now).host.stage) }
    ensures both { OnOk result (AreBoth host.now sequence.now (guard_in host.now) (sequence_meant sequence.now)) }
    ensures list { OnOk result (spec_list_fault (sequence_meant sequence.now) (length steps.now) room ≡ None) }
{
    let stage = match read_both(sequence, host) {
        Ok(stage) => stage,
        Err(number) => return Err(number),
    };
    match list_fault(sequence, steps.len(), room) {
        Some(number) => Err(number),
        None => Ok(stage),
    }
}

// How many bytes a whole answer has to what is asked beside the host's jobs, the read address first.
fn whole_answer(act: Act) -> u8
    ensures { result ≡ spec_whole_answer act }
{
    match act {
        Act::Ask(question) => question.size() as u8 + 3,
        Act::Probe => 4,
        _ => 0,
    }
}

// The frame of a stage, or the request of what is asked beside the host's jobs, or nothing.
fn put(host: &GuardImage, is: &Sequence, at: Option<Stage>, act: Act, sending: &mut SendingImage)
    requires there { IsThere host.now }
    requires open { IfSome at (λ stage. (guard_in host.now).host.stage ≡ Some stage) }
    ensures { IsPutNext (guard_in host.now) is.now at act sending.new }
{
    if let Some(stage) = at {
        sending.put(host.host.state.address, &stage.message());
        return;
    }
    match is.request(host, act) {
        Some(request) => sending.put_paged(&request, whole_answer(act)),
        None => sending.clear(),
    }
}

// The step that undoes the one that begins.
fn back_said(act: Act) -> Option<WordStep>
    ensures { result ≡ spec_back_said act }
{
    match act {
        Act::Begins(_, back) | Act::Passes(back) => Some(back),
        _ => None,
    }
}

// Whether what was heard of a rail is kept: what is said of it ends its look, or a goal is beyond its limits.
fn is_look_said(act: Act) -> bool
    ensures { result ≡ spec_is_look_said act }
{
    match act {
        Act::Leaves(End::Beyond(_)) | Act::Ended(End::Beyond(_)) => true,
        _ => rail_said(act).is_some(),
    }
}

// Keeps a step that undoes another one at its place, if there is room.
fn put_back(records: &mut [SequenceRecordImage], at: usize, back: SequenceStepImage)
    ensures { records.new ≡ with_back records.old at back }
{
    if at < records.len() {
        records[at].back = back;
    }
}

// Keeps what was heard of a rail at the place of its step, if there is room.
fn put_look(records: &mut [SequenceRecordImage], at: usize, look: DeliveryImage)
    ensures { records.new ≡ records_with_look records.old at look }
{
    if at < records.len() {
        records[at].look = look;
    }
}

// Keeps the step that undoes the one that begins, if a way back is kept.
fn keep_back(records: &mut [SequenceRecordImage], was: &SequenceImage, is: &Sequence, act: Act)
    ensures { records.new ≡ backs_after (sequence_meant was.now) is.now (spec_back_said act) records.old }
{
    if let Some(back) = back_said(act) {
        if keeps_back(was) {
            put_back(
                records,
                usize::from(was.list.begun),
                SequenceStepImage::back(is.list.under_host, &back),
            );
        }
    }
}

// Keeps what was heard of a rail, if that is to be kept.
fn keep_look(records: &mut [SequenceRecordImage], is: &Sequence, act: Act)
    ensures { records.new ≡ looks_after is.now act records.old }
{
    if is_look_said(act) {
        put_look(
            records,
            usize::from(step_said(is, act)),
            DeliveryImage::of(is.look.delivery),
        );
    }
}

// Keeps what is to be kept of what is said.
fn keep(records: &mut [SequenceRecordImage], was: &SequenceImage, is: &Sequence, act: Act)
    ensures { records.new ≡ records_after (sequence_meant was.now) is.now act records.old }
{
    keep_back(records, was, is, act);
    keep_look(records, is, act);
}

/// The work of `pm_sequence_next`.
pub fn next(
    sequence: &mut SequenceImage,
    host: &mut GuardImage,
    steps: &[SequenceStepImage],
    records: &mut [SequenceRecordImage],
    sending: &mut SendingImage,
) -> u8
    ensures { NextIn host.old sequence.old steps.now records.old result host.new sequence.new records.new sending.new }
{
    let stage = match read(sequence, host, steps, records.len()) {
        Ok(stage) => stage,
        Err(number) => {
            sending.clear();
            return number;
        }
    };
    if let Some(number) = steps_fault(steps, sequence.list.begun) {
        sending.clear();
        return number;
    }
    let begun = sequence.list.begun;
    let mut under = None;
    put_under(steps, begun, &mut under);
    let mut ahead = None;
    put_step(steps, begun, &mut ahead);
    let mut is = Sequence::new(0, rules_of(0));
    sequence.hold(&mut is);
    let (at, act) = is.hand_out(host, stage, &under, &ahead);
    put(host, &is, at, act, sending);
    keep(records, sequence, &is, act);
    let said = said_after(host, &is, act, sequence.said);
    sequence.write(&is, said);
    number_next(at, act)
}

// What is answered of a frame, or of what is said.
fn number_next(at: Option<Stage>, act: Act) -> u8
    ensures { result ≡ spec_number_next at act }
{
    match at {
        Some(_) => ACCEPTED,
        None => number_said(act),
    }
}

/// A host and the course whose job was named last hear what became of the host's frame.
pub fn tell(sequence: &mut SequenceImage, host: &mut GuardImage, told: Told<'_>) -> HostStep
    ensures { HearsIn host.old sequence.old (entry_told told.entry) result host.new sequence.new }
{
    match read_both(sequence, host) {
        Ok(stage) => hear(sequence, host, stage, told),
        Err(number) => no_step(number),
    }
}

// They hear it, if the host's open job stands at this stage and awaits it.
fn hear(
    sequence: &mut SequenceImage,
    host: &mut GuardImage,
    stage: Option<Stage>,
    told: Told<'_>,
) -> HostStep
    requires there { IsThere host.old }
    requires stage { stage ≡ (guard_in host.old).host.stage }
    requires both { AreBoth host.old sequence.old (guard_in host.old) (sequence_meant sequence.old) }
    ensures { HearsIn host.old sequence.old (entry_told told.entry) result host.new sequence.new }
{
    let Some(at) = stage else {
        return no_step(OTHER_FRAME);
    };
    if !at.awaits(&told) {
        return no_step(OTHER_FRAME);
    }
    if !sequence.has_course() {
        return no_step(OTHER_FRAME);
    }
    let address = host.host.state.address;
    let heard = sequence.hear_by(host, at, told);
    step_after(heard.step, address, at, told)
}

// Whether what is read is of a look: one is under way, and no job of the list is open.
fn is_look(was: &SequenceImage, stage: Option<Stage>) -> bool
    ensures { result ≡ spec_is_look (sequence_meant was.now) stage }
{
    if !was.looks() {
        return false;
    }
    match stage {
        Some(at) => !was.is_job_at(at),
        None => true,
    }
}

/// The work of `pm_sequence_read_ended`.
pub fn read_ended(sequence: &mut SequenceImage, host: &mut GuardImage, bytes: &[u8]) -> HostStep
    ensures { ReadIn host.old sequence.old bytes.now result host.new sequence.new }
{
    let stage = match read_both(sequence, host) {
        Ok(stage) => stage,
        Err(number) => return no_step(number),
    };
    if !is_look(sequence, stage) {
        return hear(sequence, host, stage, Told::Got(bytes));
    }
    look_hears(sequence, host, bytes);
    no_step(ACCEPTED)
}

// A look hears what came back.
fn look_hears(sequence: &mut SequenceImage, host: &GuardImage, bytes: &[u8])
    requires there { IsThere host.now }
    ensures { sequence.new ≡ sequence_image (heard_in (guard_in host.now) (sequence_meant sequence.old) bytes.now) sequence.old.said }
{
    let mut is = Sequence::new(0, rules_of(0));
    sequence.hold(&mut is);
    is.answered(host, bytes);
    let said = sequence.said;
    sequence.write(&is, said);
}
