//! A sequence over hosts in a caller's memory: a list of steps is carried out, and what its rails do is looked at.

ghost use Rattle.std.specs.Prelude.{◌≡◌, not, ◌==◌};
ghost use Rattle.pm_host.specs.Summary.{format_at};
ghost use Rattle.pm_host.specs.Transcript.{Finished};
ghost use Rattle.pm_memory.specs.Delivery.{asked_number, idle_host, judge_number, judgement_after};
ghost use Rattle.pm_memory.specs.Sequence.{sequence_begun, HearsIn, NextIn, ReadIn};
ghost use Rattle.pm_memory.specs.Sizes.{sequence_size};
ghost use Rattle.pm_memory.specs.SequenceImage.{sequence_version};

use pm_host::Told;
use pm_memory::host_step::HostStep;
use pm_memory::judgement::{JudgementImage, judge_in, refusal};
use pm_memory::numbers::ACCEPTED;
use pm_memory::sequence::{begun, next, read_ended, tell};
use pm_memory::sequence_step::{SequenceRecordImage, SequenceStepImage};
use pm_memory::{GuardImage, SendingImage, SequenceImage};
use std::mem::size_of;

/// How many bytes a sequence has.
#[unsafe(no_mangle)]
pub extern "C" fn pm_sequence_size() -> u64
    ensures { result ≡ sequence_size }
{
    size_of::<SequenceImage>() as u64
}

/// The number of its layout.
#[unsafe(no_mangle)]
pub extern "C" fn pm_sequence_version() -> u16
    ensures { result ≡ sequence_version }
{
    SequenceImage::VERSION
}

/// Makes a sequence of which no step has begun, each with this many jobs at most. The rules: 1 a way back is kept, 2 a restart
/// ends it, 4 a step that stops is left, 8 each order is told before it begins, or a sum.
#[unsafe(no_mangle)]
pub extern "C" fn pm_sequence_new(sequence: &mut SequenceImage, tries: u16, rules: u8)
    ensures { sequence.new ≡ sequence_begun tries rules }
{
    *sequence = begun(tries, rules);
}

/// What comes next, by the host at the place that the sequence names. 0 if the frame is to be sent; 96h to ask again at once, 98h once
/// time has passed, 99h an order that comes next, 9Ah what became of a step, 97h if the way back of the next step would be refused, 95h once it has ended; E0h, F0h, EAh,
/// EFh, H4. Then the frame is nothing.
#[unsafe(no_mangle)]
pub extern "C" fn pm_sequence_next(
    sequence: &mut SequenceImage,
    host: &mut GuardImage,
    steps: &[SequenceStepImage],
    records: &mut [SequenceRecordImage],
    sending: &mut SendingImage,
) -> u8
    ensures { NextIn host.old sequence.old steps.now records.old result host.new sequence.new records.new sending.new }
{
    next(sequence, host, steps, records, sending)
}

/// A write was sent, and acknowledged or not (0). E0h, F0h, E2h if no write is being sent.
#[unsafe(no_mangle)]
pub extern "C" fn pm_sequence_write_ended(
    sequence: &mut SequenceImage,
    host: &mut GuardImage,
    acked: u8,
) -> HostStep
    ensures { HearsIn host.old sequence.old (Finished (not (acked == 0))) result host.new sequence.new }
{
    tell(sequence, host, Told::Finished { acked: acked != 0 })
}

/// A request was sent, and these bytes came back, the read address first; none if there was no answer. 0 of a look's. E0h, F0h, E2h if no
/// request is being sent.
#[unsafe(no_mangle)]
pub extern "C" fn pm_sequence_read_ended(
    sequence: &mut SequenceImage,
    host: &mut GuardImage,
    bytes: &[u8],
) -> HostStep
    ensures { ReadIn host.old sequence.old bytes.now result host.new sequence.new }
{
    read_ended(sequence, host, bytes)
}

/// Which limits that were heard of the rail of a step a word of its output is at or beyond. P8 if that is a fault limit, and fault limits
/// refuse; that limit is written then too. E0h, ECh if nothing was heard of the rail, H4, H7; then nothing is written.
#[unsafe(no_mangle)]
pub extern "C" fn pm_sequence_judge(
    kept: &SequenceRecordImage,
    host: &GuardImage,
    word: u16,
    judgement: &mut JudgementImage,
) -> u8
    ensures number { let refusal = asked_number host.now kept.now.look in
        result ≡ judge_number refusal (format_at (idle_host host.now) kept.now.look.delivery.output) kept.now.look.delivery word }
    ensures judgement { let refusal = asked_number host.now kept.now.look in
        judgement.new ≡ judgement_after refusal (format_at (idle_host host.now) kept.now.look.delivery.output) kept.now.look.delivery word judgement.old }
{
    let number = refusal(&kept.look, host);
    if number != ACCEPTED {
        return number;
    }
    judge_in(&kept.look.delivery, host, word, judgement)
}
