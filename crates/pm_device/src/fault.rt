//! K1 to K7: why a converter refuses a frame that is for it.

ghost use Rattle.std.specs.Prelude.{◌≡◌, ◌≢◌};

use pm_frame::FrameFault;
use thiserror::Error;

/// Why a converter refuses a frame that is for it.
#[derive(Clone, Copy, Debug, PartialEq, Eq, Error)]
#[error("{words}", words = self.words())]
pub enum DeviceFault {
    /// K1: the frame is faulty, by F2 to F5.
    #[error("{words} {0}", words = self.words())]
    Frame(FrameFault),
    /// K2: the code isn't supported.
    UnsupportedCode,
    /// K3: the code doesn't take this data.
    UnsupportedData,
    /// K4: there is no output with this page.
    BadPage,
    /// K5: WRITE_PROTECT blocks the write.
    Protected,
    /// K6: PAGE_PLUS doesn't carry this code.
    Nested,
    /// K7: the code isn't written, or isn't read.
    ReadOnly,
}

impl DeviceFault {
    ghost use Rattle.pm_device.specs.FaultWords.{device_fault_number, device_fault_words};

    /// The letter and the name of the fault, as programs print them: `K1 Frame`. The frame's own fault
    /// follows K1.
    pub fn words(self) -> &'static str
        ensures { result.now ≡ device_fault_words self }
    {
        match self {
            DeviceFault::Frame(_) => "K1 Frame",
            DeviceFault::UnsupportedCode => "K2 UnsupportedCode",
            DeviceFault::UnsupportedData => "K3 UnsupportedData",
            DeviceFault::BadPage => "K4 BadPage",
            DeviceFault::Protected => "K5 Protected",
            DeviceFault::Nested => "K6 Nested",
            DeviceFault::ReadOnly => "K7 ReadOnly",
        }
    }

    /// The number of the fault as `pmpart.h` has it, 41h to 47h. No other fault has it.
    pub fn number(self) -> u8
        ensures number { result ≡ device_fault_number self }
        ensures some { result ≢ 0 }
    {
        match self {
            DeviceFault::Frame(_) => 0x41,
            DeviceFault::UnsupportedCode => 0x42,
            DeviceFault::UnsupportedData => 0x43,
            DeviceFault::BadPage => 0x44,
            DeviceFault::Protected => 0x45,
            DeviceFault::Nested => 0x46,
            DeviceFault::ReadOnly => 0x47,
        }
    }
}
