//! What a host is asked for, and how that ends.

use crate::command::Command;
use pm_table::Cell;

/// How a job ended.
#[derive(Clone, Copy, Debug, PartialEq, Eq)]
pub enum JobEnd {
    /// An order's word was read back, a check read its cell, or a command that was sent was acknowledged. It
    /// doesn't say that a store or a restore took place.
    Done,
    /// The last pass of an order read this word, which isn't the ordered one.
    Differs(u16),
    /// No good answer came in the last pass or try, a learn found no format, or no acknowledgement of a
    /// command came, which may have taken place all the same.
    Unknown,
    /// A learn found the format of its output's voltages.
    Learned,
}

/// What a host is asked for: it begins the job, or refuses it. `Host::begin` says when.
#[derive(Clone, Copy, Debug, PartialEq, Eq)]
pub enum Job {
    /// An order: at most `passes` passes, each of which sends the write of the word once and then, whatever
    /// the acknowledgement, reads the cell once. From its beginning on the word is one that the cell may
    /// hold, and no word of the cell is confirmed.
    ///
    /// A good answer with the ordered word ends it as `Done`. The end after the last pass is `Differs(word)`
    /// if that pass's answer was good, otherwise `Unknown`.
    Order(Cell, u16),
    /// An order for the word that is nearest to a number of microvolts, in the format that the last learn
    /// of the cell's output found.
    OrderMicro(Cell, i64),
    /// A check: the cell is read at most `passes` times. The first good answer ends it as `Done`, and its
    /// word is confirmed; `Unknown` if none came.
    Check(Cell),
    /// A learn of the format of an output's voltages: VOUT_MODE is read at most `passes` times and, if
    /// it says DIRECT, the coefficients of VOUT_COMMAND at most `passes` times. It ends as `Learned`, or as
    /// `Unknown` if no good answer came or what came has no format; then a format from before stays.
    Learn(u8),
    /// A command is sent until it is acknowledged, at most `passes` times. `Done` says no more than this
    /// acknowledgement, `Unknown` that none came.
    Send(Command),
}
