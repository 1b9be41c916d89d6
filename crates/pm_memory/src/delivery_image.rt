//! A delivery in a caller's memory: plain numbers.

ghost use Rattle.std.specs.Prelude.{◌≡◌};
ghost use Rattle.pm_memory.specs.DeliveryImage.{delivery_image, is_delivery as spec_is_delivery};

use pm_delivery::Delivery;

/// A delivery in memory that a caller keeps and may read. It has no padding, and holds no address of memory.
#[repr(C)]
#[derive(Clone, Copy, Debug)]
pub struct DeliveryImage {
    /// 5044h.
    pub mark: u16,
    /// The number of this layout.
    pub version: u16,
    /// What was asked, and what came of it.
    pub delivery: Delivery,
}

impl DeliveryImage {
    /// The mark of a delivery, the bytes 'DP'.
    pub const MARK: u16 = 0x5044;

    /// The number of the layout.
    pub const VERSION: u16 = 2;

    /// The image of a delivery.
    pub fn of(delivery: Delivery) -> DeliveryImage
        ensures { result ≡ delivery_image delivery }
    {
        DeliveryImage {
            mark: DeliveryImage::MARK,
            version: DeliveryImage::VERSION,
            delivery,
        }
    }

    /// Whether the memory holds a delivery of this version, of an output that there can be.
    pub fn is_delivery(&self) -> bool
        ensures { result ≡ spec_is_delivery self.now }
    {
        self.mark == DeliveryImage::MARK
            && self.version == DeliveryImage::VERSION
            && self.delivery.output < 8
    }
}
