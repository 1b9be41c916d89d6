//! A converter from its image, and back.

ghost use Rattle.std.specs.Prelude.{◌≡◌, Some};
ghost use Rattle.pm_device.specs.Image.{device_of};
ghost use Rattle.pm_device.specs.Memory.{part_image_of};

use crate::cml_latches::CmlLatches;
use crate::config::config_fault;
use crate::converter::Converter;
use crate::formats::formats_of;
use crate::image::{ConfigImage, PartImage, bits_in, flags_of};
use crate::laws::sound_configurations_have_no_fault;
use crate::readings::Readings;
use pm_model::Plain;
use pm_table::Cell;

impl Converter {
    /// The converter whose image it is. None if it is the image of none: another mark or version, a configuration
    /// that [`Converter::new`] refuses, a word that its cell doesn't accept, a PAGE with no output, or in the store
    /// another word of WRITE_PROTECT than its start word.
    pub fn read(image: &PartImage) -> Option<Converter>
        ensures { result ≡ device_of image.now }
    {
        sound_configurations_have_no_fault();
        if !image.is_current() {
            return None;
        }
        let config = image.config.config();
        if config_fault(&config).is_some() {
            return None;
        }
        let Some(settings) = Plain::of(config.count, image.words) else {
            return None;
        };
        let Some(store) = Plain::of(config.count, image.store) else {
            return None;
        };
        if store.get(Cell::Protect) != config.protect {
            return None;
        }
        if config.count <= image.page {
            return None;
        }
        let formats = formats_of(&config);
        let made = Converter {
            config,
            formats,
            settings,
            store,
            page: image.page,
            readings: Readings::read(&image.readings),
            cut: bits_in(&image.cut),
            faults: CmlLatches::read(&image.latches),
        };
        Some(made)
    }

    /// Makes it the image of this converter, whatever it was.
    pub fn write(&self, image: &mut PartImage)
        ensures device { device_of image.new ≡ Some self.now }
        ensures written { image.new ≡ part_image_of self.now }
    {
        sound_configurations_have_no_fault();
        *image = PartImage {
            mark: PartImage::MARK,
            version: PartImage::VERSION,
            config: ConfigImage::of(&self.config),
            page: self.page(),
            unused: 0,
            latches: self.faults.image(),
            cut: flags_of(&self.cut),
            readings: self.readings.image(),
            words: self.settings.words(),
            store: self.store.words(),
        };
    }
}
