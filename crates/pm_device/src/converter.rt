//! The converter: what it hears, and what it answers.

ghost use Rattle.std.specs.Prelude.{◌≡◌, ◌<◌, true, false, IfOk, OnOk};
ghost use Rattle.std.specs.Result.{result_err};
ghost use Rattle.pm_table.specs.Cell.{cell_accepts, is_output_cell, IsCell};
ghost use Rattle.pm_model.specs.Settings.{word_at};
ghost use Rattle.pm_model.specs.Commanded.{commanded, greatest_value, least_value, is_above};
ghost use Rattle.pm_device.specs.Held.{is_reading, value_for};
ghost use Rattle.pm_device.specs.Start.{IsSound, config_fault as spec_config_fault};
ghost use Rattle.pm_device.specs.Effect.{Hearing, Restarted, Reading};
ghost use Rattle.pm_device.specs.Status.{is_output_on};
ghost use Rattle.pm_device.specs.History.{device_next, start_of};
ghost use Rattle.pm_device.specs.Reply.{reply_of};

use crate::cml_latches::CmlLatches;
use crate::config::{Config, config_fault};
use crate::config_fault::ConfigFault;
use crate::fault::DeviceFault;
use crate::formats::formats_of;
use crate::readings::Readings;
use crate::starts::start_settings;
use pm_frame::Frame;
use pm_model::{Formats, Plain};
use pm_num::Frac;
use pm_table::{Cell, Code, Operation, Reg};
use std::marker::Model;

mod cut;
mod effect;
mod image;
mod replies;
mod status;

/// What a converter answers to what it heard.
#[derive(Clone, Debug, PartialEq, Eq, Drop)]
pub enum Heard {
    /// Nothing: the frame is for another device.
    Silent,
    /// A write was taken.
    Taken,
    /// A read is answered with these bytes.
    Answer(Frame),
    /// Refused; no setting changed.
    Refused(DeviceFault),
}

/// How the bytes that a converter heard ended.
#[derive(Clone, Copy, Debug, PartialEq, Eq)]
pub enum Ending {
    /// A stop: the bytes are a write.
    Stop,
    /// A repeated start follows: the bytes are the request of a read.
    Restart,
}

/// The model of a power converter with one to eight outputs.
///
/// It holds its configuration, the words of its cells, the store, PAGE, the readings, and the status
/// bits that are latched. The store has a word for each cell of an output: its start word, or the one
/// that the cell had at the last STORE_USER_ALL. Every frame that it hears either changes what its
/// message asks for, or is refused and leaves every setting, the store and PAGE as they were.
#[derive(Clone, Debug, Drop)]
pub struct Converter {
    config: Config,
    formats: Formats,
    settings: Plain,
    // The outputs' words, and for WRITE_PROTECT, which isn't stored, its start word.
    store: Plain,
    page: u8,
    readings: Readings,
    cut: [bool; 8],
    faults: CmlLatches,
}

impl Model for Converter {
    ghost use Rattle.pm_device.specs.Held.{Held};

    ghost Value = { Held };

    ghost use Rattle.pm_table.specs.declared.cell.Cell.TheVariants.{Protect};
    ghost use Rattle.pm_model.specs.Settings.{word_at};
    ghost use Rattle.pm_device.specs.Start.{IsKept};

    ghost view = { λ c. record {
      config = c.config;
      words = c.settings.words;
      store = c.store.words;
      page = c.page;
      readings = c.readings;
      cut = c.cut;
      faults = c.faults;
    } };

    ghost invariant = { λ c. IsKept c.config c.formats.each c.settings.count c.store.count
        (word_at c.store.words Protect) c.page c.cut };
}

impl Converter {
    /// A converter that starts: every cell has its start word, and so has the store; PAGE and the
    /// readings are 0, and no status bit is latched but those whose cause holds. `Err` is the
    /// configuration's first fault, in the order of [`ConfigFault`].
    #[tactic(auto, unfolding(crate::specs::History::start_of))]
    pub fn new(c: Config) -> Result<Converter, ConfigFault>
        ensures made { IfOk result (λ made. made ≡ start_of c) }
        ensures config { IfOk result (λ made. made.config ≡ c) }
        ensures fault { result_err result ≡ spec_config_fault c }
        ensures sound { OnOk result (IsSound c) }
    {
        if let Some(fault) = config_fault(&c) {
            return Err(fault);
        }
        let formats = formats_of(&c);
        let settings = start_settings(&c);
        let mut made = Converter {
            config: c,
            formats,
            store: settings.copied(),
            settings,
            page: 0,
            readings: Readings::new(),
            cut: [false; 8],
            faults: CmlLatches::new(),
        };
        made.unlatch_all();
        Ok(made)
    }

    /// Every cell of an output has its word in the store and WRITE_PROTECT its start word, PAGE is 0,
    /// and what is latched is clear, but for a status bit whose cause holds. The store and the readings
    /// stay.
    #[tactic(auto, unfolding(crate::specs::History::device_next, crate::specs::History::after_outcome))]
    pub fn restart(&mut self)
        ensures after { self.new ≡ device_next self.old Restarted }
        ensures config { self.new.config ≡ self.old.config }
        ensures protect { word_at self.new.words Cell.Protect ≡ self.old.config.protect }
    {
        self.settings = self.store.copied();
        self.page = 0;
        self.unlatch_all();
        self.faults = CmlLatches::new();
    }

    /// Gives a reading another word: one of [`OUTPUT_READINGS`](crate::OUTPUT_READINGS) of an output, or one of
    /// [`DEVICE_READINGS`](crate::DEVICE_READINGS) of the device, for which the output isn't looked at.
    /// `false` if the output isn't there or the code is no READ code; then nothing changes.
    #[tactic(auto, unfolding(crate::specs::History::device_next, crate::specs::History::after_outcome))]
    pub fn set_reading(&mut self, output: u8, code: Code, word: u16) -> bool
        ensures answer { result ≡ is_reading self.old.config.count output code.0 }
        ensures after { self.new ≡ device_next self.old (Reading output code.0 word) }
        ensures config { self.new.config ≡ self.old.config }
    {
        self.readings.set(self.config.count, output, code, word)
    }

    /// Hears the bytes of one frame, of any number. It answers [`Heard::Silent`] if the frame is for another
    /// device, [`Heard::Taken`] for a write and [`Heard::Answer`] for a read. Otherwise it answers
    /// [`Heard::Refused`] with the first of K1, K2, K6, K7, K4, K5 and K3 that applies. Only K2 and K7 of a
    /// request of a code come before the K1 of bytes after it. A refusal changes no setting, no word in the
    /// store and no PAGE, and sets one bit of STATUS_CML.
    #[tactic(auto, unfolding(crate::specs::Reply::reply_of, crate::specs::History::device_next, crate::specs::History::after_outcome))]
    pub fn hear(&mut self, bytes: &[u8], ending: Ending) -> Heard
        ensures reply { result ≡ reply_of self.old bytes.now ending }
        ensures after { self.new ≡ device_next self.old (Hearing bytes.now ending) }
        ensures config { self.new.config ≡ self.old.config }
    {
        let verdict = self.verdict(bytes, ending);
        let heard = self.reply_to(verdict);
        self.settle(verdict);
        heard
    }

    /// What [`Converter::hear`] would answer; nothing changes.
    #[tactic(auto, unfolding(crate::specs::Reply::reply_of))]
    pub fn reply(&self, bytes: &[u8], ending: Ending) -> Heard
        ensures { result ≡ reply_of self.now bytes.now ending }
    {
        self.reply_to(self.verdict(bytes, ending))
    }

    /// The word of a cell that there is, one that the cell accepts.
    pub fn word(&self, cell: Cell) -> u16
        requires { IsCell self.now.config.count cell }
        ensures word { result ≡ word_at self.now.words cell }
        ensures accepted { cell_accepts cell result ≡ true }
    {
        self.settings.get(cell)
    }

    /// The word that a cell of an output has in the store, one that the cell accepts; the output is
    /// there. WRITE_PROTECT isn't stored.
    pub fn stored(&self, cell: Cell) -> u16
        requires there { IsCell self.now.config.count cell }
        requires output { is_output_cell cell ≡ true }
        ensures word { result ≡ word_at self.now.store cell }
        ensures accepted { cell_accepts cell result ≡ true }
    {
        self.store.get(cell)
    }

    /// The value of PAGE, which is an output that there is.
    pub fn page(&self) -> u8
        ensures page { result ≡ self.now.page }
        ensures there { result < self.now.config.count }
    {
        self.page
    }

    /// How many outputs there are, 1 to 8: the configuration's count.
    pub fn count(&self) -> u8
        ensures count { result ≡ self.now.config.count }
        ensures sound { IsSound self.now.config }
    {
        self.config.count
    }

    /// The voltage that an output which is there commands, in volts, on or off: the value of the word that
    /// OPERATION selects, cut to those of VOUT_MIN and VOUT_MAX. What is cut is VOUT_MAX if VOUT_MIN is above
    /// VOUT_MAX.
    pub fn commanded(&self, output: u8) -> Frac
        requires { output < self.now.config.count }
        ensures value { result ≡ commanded (value_for self.now.config output) self.now.words output }
        ensures limited { is_above result
            (greatest_value (value_for self.now.config output) self.now.words output) ≡ false }
        ensures floored { is_above
            (least_value (value_for self.now.config output) self.now.words output)
            (greatest_value (value_for self.now.config output) self.now.words output) ≡ false →
            is_above (least_value (value_for self.now.config output) self.now.words output)
            result ≡ false }
    {
        self.settings.commanded(&self.formats, output)
    }

    /// Whether OPERATION has an output which is there on.
    pub fn is_on(&self, output: u8) -> bool
        requires { output < self.now.config.count }
        ensures { result ≡ is_output_on self.now output }
    {
        Operation::has_on(self.word(Cell::Out(output, Reg::Operation)))
    }
}
