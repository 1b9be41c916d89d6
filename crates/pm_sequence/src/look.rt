//! A look at a rail: a delivery, and which of its registers turn out to be missing.

ghost use Rattle.std.specs.Prelude.{◌≡◌};
ghost use Rattle.pm_delivery.specs.Heard.{asked_more};
ghost use Rattle.pm_sequence.specs.Look.{look_answered as spec_answered, asks_operation as spec_asks_operation, is_output_lost as spec_is_lost, look_counted as spec_counted, is_silence as spec_is_silence, is_silent as spec_is_silent, is_silent_status as spec_is_silent_status, is_silent_vout as spec_is_silent_vout, lacks as spec_lacks, look_act, look_after_due, looking, more as spec_more, new_probe, look_over_act, probe_due as spec_probe_due, probed as spec_probed, round_act, round_after, status_heard as spec_status_heard};

use pm_delivery::{
    Delivery, Due, FOUND_NO_READ_VOUT, FOUND_NO_STATUS_WORD, Heard, LOOK_BEFORE, NO_ANSWER,
    Question,
};

/// A register that is asked in each round: in how many rounds no answer came at all, after each of which the part answered another
/// read, and whether any answer ever came.
#[derive(Clone, Copy, Debug, PartialEq, Eq)]
pub struct Silence {
    /// The rounds.
    pub rounds: u8,
    /// Whether any answer came.
    pub has_answered: bool,
}

/// The read of OPERATION after a silent round, which says whether the part is there; and after one in which a rail was off for no new fault.
#[derive(Clone, Copy, Debug, PartialEq, Eq)]
pub struct Probe {
    /// How often it was asked in this round.
    pub asked: u8,
    /// Whether any answer came.
    pub is_there: bool,
    /// Whether the last answer was a good one, of a byte that leaves the output off, in a list that a restart ends.
    pub is_off: bool,
    /// Whether it counts already.
    pub is_over: bool,
}

/// A look at a rail.
#[derive(Clone, Copy, Debug, PartialEq, Eq)]
pub struct Look {
    /// What is asked, and what came of it.
    pub delivery: Delivery,
    /// What had come of STATUS_WORD before the first order when it began.
    pub stood: Heard,
    /// The silence of STATUS_WORD.
    pub status: Silence,
    /// The silence of READ_VOUT.
    pub vout: Silence,
    /// The read of this round that says whether the part is there.
    pub probe: Probe,
}

/// What comes next in a look.
#[derive(Clone, Copy, Debug, PartialEq, Eq)]
pub enum LookAct {
    /// To ask this.
    Ask(Question),
    /// To read OPERATION, beside the host's jobs.
    Probe,
    /// To wait, and then to ask again.
    Pause,
    /// To ask again at once.
    Again,
    /// Nothing: OPERATION leaves an output off that is commanded on.
    Restarted,
    /// Nothing.
    Over,
}

impl Look {
    /// A look by a delivery of which nothing was asked.
    pub(crate) fn new(delivery: Delivery) -> Look
        ensures { result ≡ looking delivery }
    {
        Look {
            delivery,
            stood: delivery.before,
            status: Silence {
                rounds: 0,
                has_answered: false,
            },
            vout: Silence {
                rounds: 0,
                has_answered: false,
            },
            probe: no_probe(),
        }
    }

    /// What comes next, if the delivery's due is this and each question is asked at most so often.
    pub(crate) fn next(&mut self, passes: u8, due: Due) -> LookAct
        ensures act { result ≡ look_act self.old passes due }
        ensures after { self.new ≡ look_after_due self.old passes due }
    {
        match due {
            Due::Ask(question) => LookAct::Ask(question),
            _ => self.round_over(passes, due),
        }
    }

    // What comes next once a round is over.
    fn round_over(&mut self, passes: u8, due: Due) -> LookAct
        ensures act { result ≡ round_act self.old passes due }
        ensures after { self.new ≡ round_after self.old passes due }
    {
        if self.asks_operation() && !self.probe.is_over {
            if self.probe_due(passes) {
                return LookAct::Probe;
            }
            *self = self.counted();
            return LookAct::Again;
        }
        if self.is_lost() {
            return LookAct::Restarted;
        }
        match due {
            Due::Again => {
                self.delivery.begin_again();
                self.probe = no_probe();
                LookAct::Pause
            }
            _ => LookAct::Over,
        }
    }

    // Whether OPERATION says more of this round.
    fn asks_operation(&self) -> bool
        ensures { result ≡ spec_asks_operation self.now }
    {
        self.is_silent() || self.delivery.is_unexplained()
    }

    // Whether OPERATION leaves an output off that is commanded on.
    fn is_lost(&self) -> bool
        ensures { result ≡ spec_is_lost self.now }
    {
        self.delivery.looks_on() && self.probe.is_off
    }

    // Whether OPERATION is to be read.
    fn probe_due(&self, passes: u8) -> bool
        ensures { result ≡ spec_probe_due passes self.now }
    {
        !self.probe.is_there && self.probe.asked < passes
    }

    // What came of STATUS_WORD.
    fn status_heard(&self) -> Heard
        ensures { result ≡ spec_status_heard self.now.delivery }
    {
        if self.delivery.look == LOOK_BEFORE {
            self.delivery.before
        } else {
            self.delivery.status_word
        }
    }

    fn is_silent_status(&self) -> bool
        ensures { result ≡ spec_is_silent_status self.now }
    {
        is_silence(self.status_heard()) && !self.status.has_answered
    }

    fn is_silent_vout(&self) -> bool
        ensures { result ≡ spec_is_silent_vout self.now }
    {
        is_silence(self.delivery.read_vout) && !self.vout.has_answered
    }

    // Whether a register gave no answer at all in this round and in no earlier one.
    fn is_silent(&self) -> bool
        ensures { result ≡ spec_is_silent self.now }
    {
        self.is_silent_status() || self.is_silent_vout()
    }

    // A silent round counts if the part answered after it. Two say that the register is missing.
    fn counted(&self) -> Look
        ensures { result ≡ spec_counted self.now }
    {
        let mut found = *self;
        found.probe.is_over = true;
        if !self.probe.is_there {
            return found;
        }
        found.status = more(self.is_silent_status(), self.status);
        found.vout = more(self.is_silent_vout(), self.vout);
        if lacks(found.status) {
            found.delivery.lacks |= FOUND_NO_STATUS_WORD;
        }
        if lacks(found.vout) {
            found.delivery.lacks |= FOUND_NO_READ_VOUT;
        }
        found
    }

    /// What came back for a question.
    pub(crate) fn heard(&mut self, question: Question, answer: Result<u16, u8>, is_silence: bool)
        ensures { self.new ≡ spec_answered self.old question answer is_silence }
    {
        self.delivery.hear(question, answer);
        if is_silence {
            return;
        }
        match question {
            Question::Before | Question::StatusWord => self.status.has_answered = true,
            Question::ReadVout => self.vout.has_answered = true,
            _ => {}
        }
    }

    /// What came back for the read of OPERATION: nothing at all, or an answer that leaves the output off, or another one.
    pub(crate) fn probed(&mut self, is_silence: bool, is_off: bool)
        ensures { self.new ≡ spec_probed self.old is_silence is_off }
    {
        self.probe.asked = one_more(self.probe.asked);
        self.probe.is_there = self.probe.is_there || !is_silence;
        self.probe.is_off = is_off;
    }
}

// Nothing was read after this round.
fn no_probe() -> Probe
    ensures { result ≡ new_probe }
{
    Probe {
        asked: 0,
        is_there: false,
        is_off: false,
        is_over: false,
    }
}

// Whether no answer came at all.
fn is_silence(heard: Heard) -> bool
    ensures { result ≡ spec_is_silence heard }
{
    heard.asked != 0 && heard.fault == NO_ANSWER
}

// One silent round more, or none.
fn more(is_silent: bool, silence: Silence) -> Silence
    ensures { result ≡ spec_more is_silent silence }
{
    if is_silent {
        Silence {
            rounds: one_more(silence.rounds),
            has_answered: silence.has_answered,
        }
    } else {
        silence
    }
}

// Whether such a register is missing.
fn lacks(silence: Silence) -> bool
    ensures { result ≡ spec_lacks silence }
{
    1 < silence.rounds && !silence.has_answered
}

// One more; 255 at most.
fn one_more(count: u8) -> u8
    ensures { result ≡ asked_more count }
{
    if count < 255 { count + 1 } else { 255 }
}
