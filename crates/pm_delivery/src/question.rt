//! The registers that a look asks for.

ghost use Rattle.std.specs.Prelude.{◌≡◌};
ghost use Rattle.pm_delivery.specs.Questions.{question_code, question_size};

use pm_table::Code;

/// A register that is read.
#[derive(Clone, Copy, Debug, PartialEq, Eq)]
pub enum Question {
    /// STATUS_WORD (79h) before the first order.
    Before,
    /// VOUT_OV_FAULT_LIMIT (40h).
    OvFaultLimit,
    /// VOUT_OV_WARN_LIMIT (42h).
    OvWarnLimit,
    /// VOUT_UV_WARN_LIMIT (43h).
    UvWarnLimit,
    /// VOUT_UV_FAULT_LIMIT (44h).
    UvFaultLimit,
    /// STATUS_WORD (79h) after an order.
    StatusWord,
    /// STATUS_VOUT (7Ah).
    StatusVout,
    /// STATUS_IOUT (7Bh).
    StatusIout,
    /// STATUS_INPUT (7Ch).
    StatusInput,
    /// STATUS_TEMPERATURE (7Dh).
    StatusTemperature,
    /// READ_VOUT (8Bh).
    ReadVout,
    /// POWER_GOOD_ON (5Eh).
    PowerGoodOn,
    /// POWER_GOOD_OFF (5Fh).
    PowerGoodOff,
}

impl Question {
    /// The command code of the register.
    pub fn code(self) -> Code
        ensures { result.0 ≡ question_code self }
    {
        match self {
            Question::Before | Question::StatusWord => Code::STATUS_WORD,
            Question::OvFaultLimit => Code(0x40),
            Question::OvWarnLimit => Code(0x42),
            Question::UvWarnLimit => Code(0x43),
            Question::UvFaultLimit => Code(0x44),
            Question::StatusVout => Code::STATUS_VOUT,
            Question::StatusIout => Code(0x7B),
            Question::StatusInput => Code(0x7C),
            Question::StatusTemperature => Code(0x7D),
            Question::ReadVout => Code::READ_VOUT,
            Question::PowerGoodOn => Code(0x5E),
            Question::PowerGoodOff => Code(0x5F),
        }
    }

    /// How many bytes the register has, 1 or 2.
    pub fn size(self) -> usize
        ensures { result ≡ question_size self }
    {
        match self {
            Question::StatusVout
            | Question::StatusIout
            | Question::StatusInput
            | Question::StatusTemperature => 1,
            _ => 2,
        }
    }
}
