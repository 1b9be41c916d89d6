//! F1 to F8: what is wrong with a frame, and where.

ghost use Rattle.std.specs.Prelude.{◌≡◌, ◌≢◌};

use thiserror::Error;

/// What is wrong with a frame, and where: a place is the number of a byte, the first being 0, or
/// the count of bytes there are. Each reading call says which fault comes first. The faults, their
/// order and their places are this project's own choice; the layouts are those of SMBus and of
/// PMBus 1.3 Part II.
#[derive(Clone, Copy, Debug, PartialEq, Eq, Error)]
#[error("{words}", words = self.words())]
pub enum FrameFault {
    /// F1: no byte, or the first one isn't the address with its direction bit.
    NotOurs,
    /// F2: the bytes end before the frame does, after this many.
    #[error("{words} {0}", words = self.words())]
    Short(usize),
    /// F3: bytes follow the end of the frame, from this place on.
    #[error("{words} {0}", words = self.words())]
    Long(usize),
    /// F4: the count at this place isn't the one that the code asks for, or is too small for a page
    /// and a code; of a block read it is above 32.
    #[error("{words} {0}", words = self.words())]
    WrongCount(usize),
    /// F5: the last byte, at this place, isn't the packet error code (PEC) of those before it; an
    /// answer's covers the request too.
    #[error("{words} {0}", words = self.words())]
    WrongPec(usize),
    /// F6: the code at this place isn't in the command table.
    #[error("{words} {0}", words = self.words())]
    UnknownCode(usize),
    /// F7: the code at this place is in the table, but isn't written, or isn't read.
    #[error("{words} {0}", words = self.words())]
    WrongDirection(usize),
    /// F8: the code at this place is one that PAGE_PLUS doesn't carry: 00h, 05h, 06h or 30h.
    #[error("{words} {0}", words = self.words())]
    Nested(usize),
}

impl FrameFault {
    ghost use Rattle.pm_frame.specs.FaultWords.{frame_fault_number, frame_fault_words, frame_fault_place};

    /// The letter and the name of the fault, as programs print them: `F5 WrongPec`. The fault's place follows
    /// them if it has one.
    pub fn words(self) -> &'static str
        ensures { result.now ≡ frame_fault_words self }
    {
        match self {
            FrameFault::NotOurs => "F1 NotOurs",
            FrameFault::Short(_) => "F2 Short",
            FrameFault::Long(_) => "F3 Long",
            FrameFault::WrongCount(_) => "F4 WrongCount",
            FrameFault::WrongPec(_) => "F5 WrongPec",
            FrameFault::UnknownCode(_) => "F6 UnknownCode",
            FrameFault::WrongDirection(_) => "F7 WrongDirection",
            FrameFault::Nested(_) => "F8 Nested",
        }
    }

    /// The number of the fault as `pmhost.h` has it, 31h to 38h. No other fault has it.
    pub fn number(self) -> u8
        ensures number { result ≡ frame_fault_number self }
        ensures some { result ≢ 0 }
    {
        match self {
            FrameFault::NotOurs => 0x31,
            FrameFault::Short(_) => 0x32,
            FrameFault::Long(_) => 0x33,
            FrameFault::WrongCount(_) => 0x34,
            FrameFault::WrongPec(_) => 0x35,
            FrameFault::UnknownCode(_) => 0x36,
            FrameFault::WrongDirection(_) => 0x37,
            FrameFault::Nested(_) => 0x38,
        }
    }

    /// The place of the fault; F1 has none.
    pub fn place(self) -> Option<usize>
        ensures { result ≡ frame_fault_place self }
    {
        match self {
            FrameFault::NotOurs => None,
            FrameFault::Short(place)
            | FrameFault::Long(place)
            | FrameFault::WrongCount(place)
            | FrameFault::WrongPec(place)
            | FrameFault::UnknownCode(place)
            | FrameFault::WrongDirection(place)
            | FrameFault::Nested(place) => Some(place),
        }
    }
}
