//! What the READ codes of the converter answer.

ghost use Rattle.std.specs.Prelude.{◌≡◌, ◌<◌, ◌≤◌, ◌||◌, ◌==◌, if◌then◌else◌, IfSome, length, position};
ghost use Rattle.pm_device.specs.Held.{
  is_device_reading,
  is_output_reading,
  is_reading,
  no_readings,
  reading_at,
  with_reading,
};
ghost use Rattle.pm_device.specs.Image.{readings_held};
ghost use Rattle.pm_device.specs.Memory.{readings_image};

use crate::image::ReadingsImage;
use pm_table::Code;
use std::marker::Model;

/// The READ codes of the device, in the order in which their words are kept.
pub const DEVICE_READINGS: [Code; 2] = [Code::READ_VIN, Code::READ_TEMPERATURE_1];

/// The READ codes of each output, in the order in which their words are kept.
pub const OUTPUT_READINGS: [Code; 2] = [Code::READ_VOUT, Code::READ_IOUT];

/// What the READ codes answer: a word of each code of the device, and one of each output for each
/// code of an output.
#[derive(Clone, Debug, Drop)]
pub(crate) struct Readings {
    device: [u16; DEVICE_READINGS.len()],
    outputs: [[u16; 8]; OUTPUT_READINGS.len()],
}

impl Model for Readings {
    ghost use Rattle.pm_device.specs.Held.{Measured};

    ghost Value = { Measured };

    ghost view = { λ r. record { device = r.device; outputs = r.outputs } };
}

impl Readings {
    /// The readings as they begin: each is 0.
    pub(crate) fn new() -> Readings
        ensures { result ≡ no_readings }
    {
        Readings {
            device: [0; DEVICE_READINGS.len()],
            outputs: [[0; 8]; OUTPUT_READINGS.len()],
        }
    }

    /// The readings that an image has.
    pub(crate) fn read(image: &ReadingsImage) -> Readings
        ensures { result ≡ readings_held image.now }
    {
        Readings {
            device: image.device,
            outputs: image.outputs,
        }
    }

    /// Their image.
    pub(crate) fn image(&self) -> ReadingsImage
        ensures held { readings_held result ≡ self.now }
        ensures written { result ≡ readings_image self.now }
    {
        ReadingsImage {
            device: self.device,
            outputs: self.outputs,
        }
    }

    /// The word that a READ code answers at one of eight outputs; 0 for every other code.
    pub(crate) fn get(&self, output: u8, code: Code) -> u16
        requires { output < 8 }
        ensures { result ≡ reading_at self.now output code.0 }
    {
        if let Some(place) = place_among(&DEVICE_READINGS, code) {
            return self.device[place];
        }
        match place_among(&OUTPUT_READINGS, code) {
            Some(place) => self.outputs[place][usize::from(output)],
            None => 0,
        }
    }

    /// Gives a reading of a converter with this many outputs, at most 8, another word. `false` if there is no
    /// such output or the code is no READ code; then nothing changes. The output means nothing for
    /// a reading of the device.
    pub(crate) fn set(&mut self, count: u8, output: u8, code: Code, word: u16) -> bool
        requires { count ≤ 8 }
        ensures answer { result ≡ is_reading count output code.0 }
        ensures after { self.new ≡ (if is_reading count output code.0
            then with_reading self.old output code.0 word else self.old) }
    {
        if let Some(place) = place_among(&DEVICE_READINGS, code) {
            self.device[place] = word;
            return true;
        }
        match place_among(&OUTPUT_READINGS, code) {
            Some(place) if output < count => {
                self.outputs[place][usize::from(output)] = word;
                true
            }
            _ => false,
        }
    }
}

/// Whether a code is a reading's, of the device or of an output.
pub fn is_reading(code: Code) -> bool
    ensures { result ≡ (is_device_reading code.0 || is_output_reading code.0) }
{
    place_among(&DEVICE_READINGS, code).is_some() || place_among(&OUTPUT_READINGS, code).is_some()
}

// The place of a code among `codes`; None if it isn't one of them.
fn place_among(codes: &[Code], code: Code) -> Option<usize>
    ensures place { result ≡ position (λ reading. reading.0 == code.0) codes.now }
    ensures there { IfSome result (λ place. place < length codes.now) }
{
    codes.iter().position(|reading| *reading == code)
}
