//! The commands that a job sends until one is acknowledged.

ghost use Rattle.std.specs.Prelude.{◌≡◌, Some, IfSome};
ghost use Rattle.pm_host.specs.Cells.{is_command};
ghost use Rattle.pm_host.specs.Command.{command_code, command_of_code, command_output};

use pm_table::Code;

/// A command that a job sends until it is acknowledged (PMBus 1.3 Part II).
#[derive(Clone, Copy, Debug, PartialEq, Eq)]
pub enum Command {
    /// CLEAR_FAULTS, to an output by PAGE_PLUS_WRITE: clears its latched status.
    ClearFaults {
        /// The output, by its page.
        output: u8,
    },
    /// STORE_USER_ALL, a plain send byte: copies the outputs' settings to the user store, which a restart
    /// of the device loads. Its acknowledgement doesn't say that the store has the settings, and without
    /// one it may have them all the same. What is known of the cells stays.
    StoreUserAll,
    /// RESTORE_USER_ALL, a plain send byte: brings the outputs' settings back from the user store. Its
    /// acknowledgement doesn't say that they came back, and without one they may have come back all the
    /// same. From its beginning on no word of an output's cell is confirmed and any is possible, until the
    /// cell is read again, after the job's end. What is known of WRITE_PROTECT, which isn't stored, stays.
    RestoreUserAll,
}

impl Command {
    /// Its command code. `of` leads back from it and the output that the command names.
    pub(crate) fn code(self) -> Code
        ensures code { result.0 ≡ command_code self }
        ensures back { command_of_code result.0 (command_output self) ≡ Some self }
    {
        match self {
            Command::ClearFaults { .. } => Code::CLEAR_FAULTS,
            Command::StoreUserAll => Code::STORE_USER_ALL,
            Command::RestoreUserAll => Code::RESTORE_USER_ALL,
        }
    }

    /// The output that it names, by its page; `None` for a command of the device.
    pub(crate) fn output(self) -> Option<u8>
        ensures { result ≡ command_output self }
    {
        match self {
            Command::ClearFaults { output } => Some(output),
            _ => None,
        }
    }

    /// The command of a code, at an output or at the device; `None` if no job sends the code there.
    pub(crate) fn of(code: Code, output: Option<u8>) -> Option<Command>
        ensures command { result ≡ command_of_code code.0 output }
        ensures code { IfSome result (λ command. command_code command ≡ code.0) }
        ensures output { IfSome result (λ command. command_output command ≡ output) }
    {
        match (code, output) {
            (Code::CLEAR_FAULTS, Some(output)) => Some(Command::ClearFaults { output }),
            (Code::STORE_USER_ALL, None) => Some(Command::StoreUserAll),
            (Code::RESTORE_USER_ALL, None) => Some(Command::RestoreUserAll),
            _ => None,
        }
    }

    /// Whether the output that it names, if it names one, is one of this many.
    pub(crate) fn is_there(self, outputs: u8) -> bool
        ensures { result ≡ is_command outputs self }
    {
        match self.output() {
            Some(output) => output < outputs,
            None => true,
        }
    }
}
