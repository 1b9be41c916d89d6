//! A look at a rail in a caller's memory, as plain numbers.

ghost use Rattle.std.specs.Prelude.{◌≡◌};
ghost use Rattle.pm_memory.specs.SequenceImage.{probe_answer_number as spec_answer_number, look_image, look_read, silence_image, silence_read};

use pm_delivery::{Delivery, Heard};
use pm_sequence::{Look, Probe, Silence};

/// The silence of a register: in how many rounds no answer came, and 1 if any ever did.
#[repr(C)]
#[derive(Clone, Copy, Debug)]
pub struct SilenceImage {
    /// The rounds.
    pub rounds: u8,
    /// 1 if any answer came, otherwise 0.
    pub has_answered: u8,
}

/// A look at a rail. It has no padding.
#[repr(C)]
#[derive(Clone, Copy, Debug)]
pub struct LookImage {
    /// What is asked, and what came of it.
    pub delivery: Delivery,
    /// What an earlier list heard of STATUS_WORD before its first order.
    pub stood: Heard,
    /// The silence of STATUS_WORD.
    pub status: SilenceImage,
    /// The silence of READ_VOUT.
    pub vout: SilenceImage,
    /// How often OPERATION was read in this round.
    pub probed: u8,
    /// 1 if any answer to it came, and 2 more if the last one leaves the output off.
    pub is_there: u8,
    /// 1 if it counts already, otherwise 0.
    pub is_over: u8,
    /// How many orders that turn its output on the step under way had.
    pub turned_on: u8,
}

impl SilenceImage {
    fn of(silence: Silence) -> SilenceImage
        ensures { result ≡ silence_image silence }
    {
        SilenceImage {
            rounds: silence.rounds,
            has_answered: u8::from(silence.has_answered),
        }
    }

    fn silence(&self) -> Silence
        ensures { result ≡ silence_read self.now }
    {
        Silence {
            rounds: self.rounds,
            has_answered: self.has_answered == 1,
        }
    }
}

impl LookImage {
    /// The image of a look, with how many orders that turn its output on the step under way had.
    pub fn of(look: &Look, turned_on: u8) -> LookImage
        ensures { result ≡ look_image look.now turned_on }
    {
        LookImage {
            delivery: look.delivery,
            stood: look.stood,
            status: SilenceImage::of(look.status),
            vout: SilenceImage::of(look.vout),
            probed: look.probe.asked,
            is_there: answer_number(look.probe),
            is_over: u8::from(look.probe.is_over),
            turned_on,
        }
    }

    /// The memory holds this look now, and how many orders that turn its output on the step under way had, whatever stood there.
    pub(crate) fn write(&mut self, look: &Look, turned_on: u8)
        ensures { self.new ≡ look_image look.now turned_on }
    {
        self.delivery = look.delivery;
        self.stood = look.stood;
        self.status = SilenceImage::of(look.status);
        self.vout = SilenceImage::of(look.vout);
        self.probed = look.probe.asked;
        self.is_there = answer_number(look.probe);
        self.is_over = u8::from(look.probe.is_over);
        self.turned_on = turned_on;
    }

    /// What the numbers mean.
    pub(crate) fn hold(&self, look: &mut Look)
        ensures { look.new ≡ look_read self.now }
    {
        look.delivery = self.delivery;
        look.stood = self.stood;
        look.status = self.status.silence();
        look.vout = self.vout.silence();
        look.probe.asked = self.probed;
        look.probe.is_there = self.is_there == 1 || self.is_there == 3;
        look.probe.is_off = 1 < self.is_there;
        look.probe.is_over = self.is_over == 1;
    }
}

// The read of OPERATION: 1 if any answer came, and 2 more if the last one leaves the output off.
fn answer_number(probe: Probe) -> u8
    ensures { result ≡ spec_answer_number probe.is_there probe.is_off }
{
    u8::from(probe.is_there) + if probe.is_off { 2 } else { 0 }
}
