//! The command codes that this project speaks.

ghost use Rattle.std.specs.Prelude.{◌≡◌, ◌≤◌, IfSome, true, false};
ghost use Rattle.std.specs.Option.{option_map};
ghost use Rattle.pm_table.specs.declared.protection.Protection.TheVariants.{NotWritten};
ghost use Rattle.pm_table.specs.Commands.{attributes, info_seen, known_of_code};

use crate::protection::Protection;
use crate::protection::Protection::{Always, At00, At20, At40, At80};
use crate::scope::Scope;
use crate::scope::Scope::{Device, Output};

// The command table, a row for each code: its name, its bytes, what it acts on, and up to which value of
// WRITE_PROTECT it is written, if it is. It is asked for one column at a time, so that whoever needs the
// attributes doesn't pay for the name.
macro_rules! command_table {
    ($column:ident of $code:expr) => {
        column_of!($column of $code =>
            PAGE is setting(1, Device, At40),
            OPERATION is setting(1, Output, At40),
            CLEAR_FAULTS is action(0, Output, Always),
            PAGE_PLUS_WRITE is action(0, Device, At00),
            PAGE_PLUS_READ is reading(0, Device),
            WRITE_PROTECT is setting(1, Device, At80),
            STORE_USER_ALL is action(0, Device, At00),
            RESTORE_USER_ALL is action(0, Device, At00),
            CAPABILITY is reading(1, Device),
            VOUT_MODE is reading(1, Output),
            VOUT_COMMAND is setting(2, Output, At20),
            VOUT_MAX is setting(2, Output, At00),
            VOUT_MARGIN_HIGH is setting(2, Output, At00),
            VOUT_MARGIN_LOW is setting(2, Output, At00),
            VOUT_MIN is setting(2, Output, At00),
            COEFFICIENTS is reading(0, Device),
            STATUS_BYTE is reading(1, Output),
            STATUS_WORD is reading(2, Output),
            STATUS_VOUT is setting(1, Output, At00),
            STATUS_CML is setting(1, Device, At00),
            READ_VIN is reading(2, Device),
            READ_VOUT is reading(2, Output),
            READ_IOUT is reading(2, Output),
            READ_TEMPERATURE_1 is reading(2, Device),
            PMBUS_REVISION is reading(1, Device),
        )
    };
}

// A column of these rows, for one code.
macro_rules! column_of {
    (attributes of $code:expr => $($row:ident is $attributes:expr,)*) => {
        match $code {
            $(Code::$row => Some($attributes),)*
            _ => None,
        }
    };
    (all of $count:expr => $($row:ident is $attributes:expr,)*) => {
        [$(Code::$row,)*]
    };
    (name of $code:expr => $($row:ident is $attributes:expr,)*) => {
        match $code {
            $(Code::$row => stringify!($row),)*
            _ => "",
        }
    };
}

/// A command code of PMBus, any of the 256 bytes.
#[derive(Clone, Copy, Debug, PartialEq, Eq, PartialOrd, Ord, Hash)]
pub struct Code(pub u8);

impl Code {
    ghost use Rattle.pm_table.specs.Commands.{attributes_of, is_known, is_read, is_written, name_of, payload_length};

    /// PAGE.
    pub const PAGE: Code = Code(0x00);
    /// OPERATION.
    pub const OPERATION: Code = Code(0x01);
    /// CLEAR_FAULTS.
    pub const CLEAR_FAULTS: Code = Code(0x03);
    /// PAGE_PLUS_WRITE.
    pub const PAGE_PLUS_WRITE: Code = Code(0x05);
    /// PAGE_PLUS_READ.
    pub const PAGE_PLUS_READ: Code = Code(0x06);
    /// WRITE_PROTECT.
    pub const WRITE_PROTECT: Code = Code(0x10);
    /// STORE_USER_ALL.
    pub const STORE_USER_ALL: Code = Code(0x15);
    /// RESTORE_USER_ALL.
    pub const RESTORE_USER_ALL: Code = Code(0x16);
    /// CAPABILITY.
    pub const CAPABILITY: Code = Code(0x19);
    /// VOUT_MODE.
    pub const VOUT_MODE: Code = Code(0x20);
    /// VOUT_COMMAND.
    pub const VOUT_COMMAND: Code = Code(0x21);
    /// VOUT_MAX.
    pub const VOUT_MAX: Code = Code(0x24);
    /// VOUT_MARGIN_HIGH.
    pub const VOUT_MARGIN_HIGH: Code = Code(0x25);
    /// VOUT_MARGIN_LOW.
    pub const VOUT_MARGIN_LOW: Code = Code(0x26);
    /// VOUT_MIN.
    pub const VOUT_MIN: Code = Code(0x2B);
    /// COEFFICIENTS.
    pub const COEFFICIENTS: Code = Code(0x30);
    /// STATUS_BYTE.
    pub const STATUS_BYTE: Code = Code(0x78);
    /// STATUS_WORD.
    pub const STATUS_WORD: Code = Code(0x79);
    /// STATUS_VOUT.
    pub const STATUS_VOUT: Code = Code(0x7A);
    /// STATUS_CML.
    pub const STATUS_CML: Code = Code(0x7E);
    /// READ_VIN.
    pub const READ_VIN: Code = Code(0x88);
    /// READ_VOUT.
    pub const READ_VOUT: Code = Code(0x8B);
    /// READ_IOUT.
    pub const READ_IOUT: Code = Code(0x8C);
    /// READ_TEMPERATURE_1.
    pub const READ_TEMPERATURE_1: Code = Code(0x8D);
    /// PMBUS_REVISION.
    pub const PMBUS_REVISION: Code = Code(0x98);

    /// The codes of the command table, in their order.
    pub const ALL: [Code; 25] = command_table!(all of 25);

    /// What the command table says of the code beside its name; `None` if it isn't in the table. Whoever asks
    /// several things of one code asks this once.
    #[tactic(auto, unfolding(crate::specs::Commands::line_of))]
    pub fn attributes(self) -> Option<Attributes>
        ensures attributes { result ≡ attributes_of self.0 }
        ensures short { IfSome result (λ a. a.length ≤ 2) }
    {
        command_table!(attributes of self)
    }

    /// Whether the code stands in the command table.
    pub fn is_known(self) -> bool
        ensures { result ≡ is_known self.0 }
    {
        self.attributes().is_some()
    }

    /// Whether the converter answers a read of the code.
    pub fn is_read(self) -> bool
        ensures { result ≡ is_read self.0 }
    {
        match self.attributes() {
            Some(attributes) => attributes.reads,
            None => false,
        }
    }

    /// Whether the converter takes a write of the code; a send byte is a write of no bytes.
    pub fn is_written(self) -> bool
        ensures { result ≡ is_written self.0 }
    {
        match self.attributes() {
            Some(attributes) => attributes.protection.is_ever_written(),
            None => false,
        }
    }

    /// The bytes of the code's payload, 0 to 2; 0 for a block code, and for one that isn't in the
    /// table.
    pub fn payload_length(self) -> usize
        ensures length { result ≡ payload_length self.0 }
        ensures short { result ≤ 2 }
    {
        match self.attributes() {
            Some(attributes) => usize::from(attributes.length),
            None => 0,
        }
    }

    /// The name of the code as the standard prints it, as `VOUT_COMMAND`; no text if it isn't in the command
    /// table.
    #[tactic(auto, unfolding(crate::specs::Commands::line_of))]
    pub fn name(self) -> &'static str
        ensures { result.now ≡ name_of self.0 }
    {
        command_table!(name of self)
    }
}

/// The line of the command table for one code.
#[derive(Clone, Copy, Debug, PartialEq, Eq)]
pub struct Info {
    /// The name as the standard prints it, as `VOUT_COMMAND`.
    pub name: &'static str,
    /// The bytes of its payload, 0 to 2; 0 for a block code too (PAGE_PLUS_WRITE, PAGE_PLUS_READ,
    /// COEFFICIENTS).
    pub length: u8,
    /// Whether it acts on one output, which a page names, and not on the whole device.
    /// PAGE_PLUS_WRITE and PAGE_PLUS_READ, which only carry another code, don't.
    pub paged: bool,
    /// Whether the converter answers a read of it.
    pub reads: bool,
    /// Whether the converter takes a write of it; a send byte is a write of no bytes.
    pub writes: bool,
}

/// The line of a code that stands in the command table of PMBus 1.3 Part II, as far as this
/// converter has it; `None` for every other code. Codes and lengths are the standard's; read, write
/// and scope are this converter's own choice.
pub fn known(code: Code) -> Option<Info>
    ensures line { option_map info_seen result ≡ known_of_code code.0 }
    ensures short { IfSome result (λ line. line.length ≤ 2) }
{
    match code.attributes() {
        Some(attributes) => Some(Info {
            name: code.name(),
            length: attributes.length,
            paged: attributes.scope == Scope::Output,
            reads: attributes.reads,
            writes: attributes.protection.is_ever_written(),
        }),
        None => None,
    }
}

/// What the command table says of a code beside its name.
#[derive(Clone, Copy, Debug, PartialEq, Eq)]
pub struct Attributes {
    /// The bytes of its payload, 0 to 2; 0 for a block code too.
    pub length: u8,
    /// What it acts on. PAGE_PLUS_WRITE and PAGE_PLUS_READ, which only carry another code, act on the device.
    pub scope: Scope,
    /// Whether the converter answers a read of it.
    pub reads: bool,
    /// Up to which value of WRITE_PROTECT a host may write it.
    pub protection: Protection,
}

// A code that is read and written.
fn setting(length: u8, scope: Scope, protection: Protection) -> Attributes
    ensures { result ≡ (attributes length scope true protection) }
{
    Attributes {
        length,
        scope,
        reads: true,
        protection,
    }
}

// A code that is only read.
fn reading(length: u8, scope: Scope) -> Attributes
    ensures { result ≡ (attributes length scope true NotWritten) }
{
    setting(length, scope, Protection::NotWritten)
}

// A code that is only written.
fn action(length: u8, scope: Scope, protection: Protection) -> Attributes
    ensures { result ≡ (attributes length scope false protection) }
{
    Attributes {
        reads: false,
        ..setting(length, scope, protection)
    }
}
