//! Why a line of a log isn't accepted.

use pm_frame::FrameFault;
use pm_host::{HostFault, Possible};
use pm_limits::PartRegisters;
use pm_table::Cell;
use pm_text::ScenarioFault;

/// Why a line of a log isn't accepted.
#[derive(Clone, Debug, PartialEq, Eq, Drop)]
pub enum LogFault {
    /// X1 or X2: it is no line of a log.
    Line(ScenarioFault),
    /// No `#log` line stands before it.
    NoHead,
    /// The address of the `#log` line is none that a part may have: those are 08h to 77h.
    Address,
    /// H1 or H2: the `#log` line asks for a host that can't be.
    Setup(HostFault),
    /// F1 to F8: what was sent is no packet for the part of the `#log` line.
    Frame(FrameFault),
    /// No job of a host sends this packet.
    NoJob,
    /// H4 to H6: the packet begins a job that the host refuses.
    Refused(HostFault),
    /// A claim says that the part at this address lacks the register, for which it answered on this line.
    Answered {
        addr: u8,
        cell: Cell,
        line: u64,
    },
    /// A claim says that the part at this address lacks registers, and the receiver doesn't allow it of those that this part lacks.
    Lacks {
        addr: u8,
        part: PartRegisters,
    },
    /// The cell isn't known to hold the word; these words are possible, or any if the cell isn't there.
    Word {
        cell: Cell,
        word: u16,
        possible: Possible,
    },
    /// The output isn't known to command a voltage between these microvolts.
    Voltage {
        output: u8,
        least: i64,
        most: i64,
    },
}
