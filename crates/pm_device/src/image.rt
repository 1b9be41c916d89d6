//! A converter in memory that a caller keeps who isn't Rattle: plain numbers, and what they mean.

ghost use Rattle.std.specs.Prelude.{◌≡◌, map, None};
ghost use Rattle.pm_device.specs.Image.{config_held, device_of, is_current_part_image, is_set, start_held};
ghost use Rattle.pm_device.specs.Memory.{config_image, flag_image, start_image};

use crate::config::Config;
use crate::output_start::OutputStart;
use crate::readings::{DEVICE_READINGS, OUTPUT_READINGS, Readings};
use pm_table::{Cell, Coefficients, Reg};

/// How an output starts, as plain numbers.
#[repr(C)]
#[derive(Clone, Copy, Debug)]
pub struct OutputImage {
    /// VOUT_MODE.
    pub mode: u8,
    /// No meaning.
    pub unused: u8,
    /// The start words of the registers, in the order of `Reg::ALL`.
    pub words: [u16; Reg::COUNT],
}

impl OutputImage {
    /// The start that the numbers mean.
    fn start(&self) -> OutputStart
        ensures { result ≡ start_held self.now }
    {
        OutputStart::of(self.mode, self.words)
    }

    /// The numbers of a start.
    fn of(start: &OutputStart) -> OutputImage
        ensures held { start_held result ≡ start.now }
        ensures written { result ≡ start_image start.now }
    {
        OutputImage {
            mode: start.mode,
            unused: 0,
            words: start.words(),
        }
    }
}

// The starts that the numbers mean.
fn starts_of(outputs: &[OutputImage; 8]) -> [OutputStart; 8]
    ensures { result ≡ map start_held outputs.now }
{
    outputs.map(|output| output.start())
}

// The numbers of starts.
fn images_of(starts: &[OutputStart; 8]) -> [OutputImage; 8]
    ensures held { map start_held result ≡ starts.now }
    ensures written { result ≡ map start_image starts.now }
{
    starts.map(|start| OutputImage::of(&start))
}

/// What a converter is made from, as plain numbers.
#[repr(C)]
#[derive(Clone, Copy, Debug)]
pub struct ConfigImage {
    /// The address, 08h to 77h.
    pub address: u8,
    /// How many outputs there are, 1 to 8.
    pub outputs: u8,
    /// R of every output with VOUT_MODE 40h.
    pub r: i8,
    /// No meaning.
    pub unused: u8,
    /// The slope m of these.
    pub m: i16,
    /// The offset b of these.
    pub b: i16,
    /// The start value of WRITE_PROTECT, one byte.
    pub protect: u16,
    /// How each output starts; those that aren't there mean nothing.
    pub starts: [OutputImage; 8],
}

impl ConfigImage {
    /// The configuration that the numbers mean.
    pub fn config(&self) -> Config
        ensures { result ≡ config_held self.now }
    {
        Config {
            addr: self.address,
            count: self.outputs,
            starts: starts_of(&self.starts),
            protect: self.protect,
            coefficients: Coefficients {
                m: self.m,
                b: self.b,
                r: self.r,
            },
        }
    }

    /// The numbers of a configuration.
    pub(crate) fn of(config: &Config) -> ConfigImage
        ensures held { config_held result ≡ config.now }
        ensures written { result ≡ config_image config.now }
    {
        ConfigImage {
            address: config.addr,
            outputs: config.count,
            r: config.coefficients.r,
            unused: 0,
            m: config.coefficients.m,
            b: config.coefficients.b,
            protect: config.protect,
            starts: images_of(&config.starts),
        }
    }
}

/// What is latched of STATUS_CML, as plain numbers. A bit is latched if its number is 1.
#[repr(C)]
#[derive(Clone, Copy, Debug)]
pub struct LatchesImage {
    /// Bit 7, an unsupported command.
    pub command: u8,
    /// Bit 6, unsupported data.
    pub unsupported: u8,
    /// Bit 5, a wrong packet error code.
    pub pec: u8,
    /// Bit 1, another communication fault.
    pub communication: u8,
}

/// The words that READ codes answer, in the order of their lists.
#[repr(C)]
#[derive(Clone, Copy, Debug)]
pub struct ReadingsImage {
    /// The word of each reading of the device.
    pub device: [u16; DEVICE_READINGS.len()],
    /// The word of each output, for each reading of an output.
    pub outputs: [[u16; 8]; OUTPUT_READINGS.len()],
}

/// A converter in memory that a caller keeps who isn't Rattle. It has no padding, holds no address of memory, and
/// may be copied.
#[repr(C)]
#[derive(Clone, Copy, Debug)]
pub struct PartImage {
    /// 5443h, the bytes 'CT'.
    pub mark: u16,
    /// The number of this layout.
    pub version: u16,
    /// What it was made from.
    pub config: ConfigImage,
    /// PAGE.
    pub page: u8,
    /// No meaning.
    pub unused: u8,
    /// What is latched of STATUS_CML.
    pub latches: LatchesImage,
    /// Bit 3 of each output's STATUS_VOUT is latched if this is 1.
    pub cut: [u8; 8],
    /// The readings.
    pub readings: ReadingsImage,
    /// The word of each cell, at its place.
    pub words: [u16; Cell::PLACES],
    /// The word of each cell in the store, and for WRITE_PROTECT its start word.
    pub store: [u16; Cell::PLACES],
}

/// The flag of a bit.
pub(crate) fn flag(bit: bool) -> u8
    ensures set { is_set result ≡ bit }
    ensures written { result ≡ flag_image bit }
{
    if bit { 1 } else { 0 }
}

/// The bits that flags are.
pub(crate) fn bits_in(flags: &[u8; 8]) -> [bool; 8]
    ensures { result ≡ map is_set flags.now }
{
    flags.map(|flag| flag == 1)
}

/// The flags of bits.
pub(crate) fn flags_of(bits: &[bool; 8]) -> [u8; 8]
    ensures set { map is_set result ≡ bits.now }
    ensures written { result ≡ map flag_image bits.now }
{
    bits.map(|bit| flag(bit))
}

impl PartImage {
    /// The mark of an image.
    pub const MARK: u16 = 0x5443;

    /// The number of this layout.
    pub const VERSION: u16 = 1;

    // Whether the image has this layout.
    pub(crate) fn is_current(&self) -> bool
        ensures { result ≡ is_current_part_image self.now }
    {
        self.mark == PartImage::MARK && self.version == PartImage::VERSION
    }

    /// Zeros, which are the image of no converter.
    #[tactic(auto, unfolding(crate::specs::Image::device_of))]
    pub fn blank() -> PartImage
        ensures { device_of result ≡ None }
    {
        let output = OutputImage {
            mode: 0,
            unused: 0,
            words: [0; Reg::COUNT],
        };
        PartImage {
            mark: 0,
            version: 0,
            config: ConfigImage {
                address: 0,
                outputs: 0,
                r: 0,
                unused: 0,
                m: 0,
                b: 0,
                protect: 0,
                starts: [output; 8],
            },
            page: 0,
            unused: 0,
            latches: LatchesImage {
                command: 0,
                unsupported: 0,
                pec: 0,
                communication: 0,
            },
            cut: [0; 8],
            readings: Readings::new().image(),
            words: [0; Cell::PLACES],
            store: [0; Cell::PLACES],
        }
    }
}
